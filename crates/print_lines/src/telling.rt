//! A reply, written to the output that it is for, and the status after it.

ghost use Rattle.std.specs.Prelude.{◌≡◌, ℕ, List};
ghost use Rattle.base_devices.specs.Device.{Device};
ghost use Rattle.print_lines.specs.Stands.{Stands};
ghost use Rattle.print_lines.specs.BoundText.{bound_text};
ghost use Rattle.print_lines.specs.FaultStatus.{status_after};
ghost use Rattle.print_lines.specs.FaultText.{fault_text};
ghost use Rattle.print_lines.specs.Output.{GetsComplaint, GetsResult};
ghost use Rattle.print_lines.specs.Status.{status_of};
ghost use Rattle.print_lines.specs.VerdictText.{verdict_text};

use crate::fault::Fault;
use crate::limit::Limit;
use crate::print::fault_line::put_fault;
use crate::print::put_bound;
use crate::print::verdict_line::put_verdict;
use crate::sheet::Sheet;
use crate::status::Status;
use base_devices::Output;
use machine_steps::Verdict;

/// Writes what is still held back of a result, and tells how the program ends: so, or by a write
/// that failed.
pub fn end_result<O: Output>(sheet: Sheet, out: &mut O, done: Status) -> Status
    ensures { (begun : Device) (text : List ℕ) → Stands begun (O.device out.old) sheet text
        → GetsResult begun (O.device out.new) text done result }
{
    match sheet.finish(out) {
        Ok(()) => done,
        Err(_) => Status::Failed,
    }
}

/// Writes what is still held back of a complaint: a write that fails changes nothing.
fn end_complaint<E: Output>(sheet: Sheet, err: &mut E)
    ensures { (begun : Device) (text : List ℕ) → Stands begun (E.device err.old) sheet text
        → GetsComplaint begun (E.device err.new) text }
{
    let _ = sheet.finish(err);
}

/// Writes a bound.
pub fn tell_bound<O: Output>(out: &mut O, bound: u64) -> Status
    ensures { GetsResult (O.device out.old) (O.device out.new) (bound_text bound) Status.Done
        result }
{
    let mut sheet = Sheet::new();
    put_bound(&mut sheet, out, bound);
    end_result(sheet, out, Status::Done)
}

/// Writes a verdict on a run whose word times are limited so.
pub fn tell_verdict<O: Output>(out: &mut O, limit: Limit, verdict: &Verdict) -> Status
    ensures { GetsResult (O.device out.old) (O.device out.new) (verdict_text limit verdict.now)
        (status_of verdict.now) result }
{
    let mut sheet = Sheet::new();
    put_verdict(&mut sheet, out, limit, verdict);
    end_result(sheet, out, Status::after(verdict))
}

/// Writes the line of a fault, and tells how the program ends after it: a write that fails changes
/// nothing.
pub fn tell_fault<E: Output>(err: &mut E, fault: &Fault) -> Status
    ensures line { GetsComplaint (E.device err.old) (E.device err.new) (fault_text fault.now) }
    ensures status { result ≡ status_after fault.now }
{
    let mut sheet = Sheet::new();
    put_fault(&mut sheet, err, fault);
    end_complaint(sheet, err);
    fault.status()
}

/// As [`tell_fault`], and the fault is dropped.
pub fn complain<E: Output>(err: &mut E, fault: Fault) -> Status
    ensures line { GetsComplaint (E.device err.old) (E.device err.new) (fault_text fault) }
    ensures status { result ≡ status_after fault }
{
    tell_fault(err, &fault)
}

/// Writes a text that is a result.
pub fn tell_text<O: Output>(out: &mut O, text: &[u8]) -> Status
    ensures { GetsResult (O.device out.old) (O.device out.new) text.now Status.Done result }
{
    let mut sheet = Sheet::new();
    sheet.put(out, text);
    end_result(sheet, out, Status::Done)
}

/// Writes a text that is a complaint.
fn tell_complaint<E: Output>(err: &mut E, text: &[u8])
    ensures { GetsComplaint (E.device err.old) (E.device err.new) text.now }
{
    let mut sheet = Sheet::new();
    sheet.put(err, text);
    end_complaint(sheet, err);
}

/// Writes what is wrong with the command line: a write that fails changes nothing.
pub fn tell_usage<E: Output>(err: &mut E, text: &[u8]) -> Status
    ensures text { GetsComplaint (E.device err.old) (E.device err.new) text.now }
    ensures status { result ≡ Status.Usage }
{
    tell_complaint(err, text);
    Status::Usage
}

/// Writes the lines of all faults of texts: a write that fails changes nothing.
pub fn tell_faults<E: Output>(err: &mut E, lines: &[u8]) -> Status
    ensures lines { GetsComplaint (E.device err.old) (E.device err.new) lines.now }
    ensures status { result ≡ Status.Refused }
{
    tell_complaint(err, lines);
    Status::Refused
}
