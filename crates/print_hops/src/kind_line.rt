//! The line of a kind of hops.

ghost use Rattle.std.specs.Prelude.{◌≡◌, ◌^◌, ◌≤◌};
ghost use Rattle.base_words.specs.Op.{op_of};
ghost use Rattle.base_notes.specs.Entries.{entry_in};
ghost use Rattle.machine_steps.specs.WaysLeft.{seen_way};
ghost use Rattle.print_lines.specs.Stands.{Passes};
ghost use Rattle.print_hops.specs.Pieces.{angles_text, sums_text};
ghost use Rattle.print_hops.specs.TimedHop.{seen_timed};
ghost use Rattle.print_hops.specs.Waits.{data_angle, next_angle, on_drum};
ghost use Rattle.print_hops.specs.WaitsText.{kind_line};

use crate::hop_text::put_hop;
use crate::moments::Moments;
use crate::moments_text::put_moment;
use crate::sums::Sums;
use crate::timed_hop::TimedHop;
use base_devices::Output;
use base_notes::Times;
use base_words::{Location, Op, REVOLUTION};
use machine_steps::Way;
use machine_steps::chain::waits_for_operand;
use print_lines::Sheet;

/// The angle at which D would come just when it is wanted, where the hop waits for it and has it,
/// and both its instruction and D are on the drum.
fn data_at(told: &TimedHop, moments: &Moments, angle: u8) -> Option<u64>
    ensures { let ins = told.now.instruction in
        result ≡ on_drum ins.d (on_drum told.now.place.number
        (data_angle angle (op_of ins.op) moments.now.ready moments.now.operand)) }
{
    let op = Op::of(told.instruction.op())?;
    let x = moments.ready?;
    moments.operand?;
    let d = told.instruction.d();
    if told.place.number() < Location::DRUM && d < Location::DRUM && waits_for_operand(op) {
        Some((u64::from(angle) + x % REVOLUTION) % REVOLUTION)
    } else {
        None
    }
}

/// The angle at which the next instruction would come just when it is sought, where the hop goes
/// on, and both its instruction and the next are on the drum.
fn next_at(told: &TimedHop, angle: u8) -> Option<u64>
    ensures { result ≡ on_drum told.now.place.number
        (next_angle angle (seen_way told.now.way) told.now.ended) }
{
    match told.way {
        Way::To(next) if told.place.number() < Location::DRUM && next.number() < Location::DRUM => {
            Some((u64::from(angle) + told.ended % REVOLUTION) % REVOLUTION)
        }
        _ => None,
    }
}

/// Puts what hops of a kind take in all.
fn put_sums<O: Output>(sheet: &mut Sheet, writer: &mut O, sums: &Sums)
    ensures { Passes (O.device writer.old) sheet.old (O.device writer.new) sheet.new
        (sums_text sums.now) }
{
    sheet.put(writer, b" time ");
    sheet.put_number(writer, sums.time);
    sheet.put(writer, b" instruction ");
    sheet.put_number(writer, sums.instruction);
    sheet.put(writer, b" data ");
    sheet.put_number(writer, sums.operand);
    sheet.put(writer, b" work ");
    sheet.put_number(writer, sums.work());
}

/// Puts the angles at which a kind of hops would wait for nothing, and the end of its line.
fn put_angles<O: Output>(sheet: &mut Sheet, writer: &mut O, operand: Option<u64>, next: Option<u64>)
    ensures { Passes (O.device writer.old) sheet.old (O.device writer.new) sheet.new
        (angles_text operand next) }
{
    put_moment(sheet, writer, b" data-at ", operand);
    put_moment(sheet, writer, b" next-at ", next);
    sheet.put(writer, b"\n");
}

/// Puts the line of a kind of hops. One of the hops is told, on a drum with this angle at time 0,
/// and the sums are what all of them take, in word times.
pub fn put_kind<O: Output>(
    sheet: &mut Sheet,
    writer: &mut O,
    told: &TimedHop,
    sums: &Sums,
    times: &Times,
    angle: u8,
)
    requires { told.now.begun ≤ 2 ^ 62 }
    ensures { Passes (O.device writer.old) sheet.old (O.device writer.new) sheet.new
        (kind_line (entry_in times.now) angle (seen_timed told.now) sums.now.visits
        sums.now.time sums.now.instruction sums.now.operand) }
{
    let moments = Moments::of(told, times, angle);
    put_hop(sheet, writer, told, b" visits ", sums.visits);
    put_sums(sheet, writer, sums);
    let operand = data_at(told, &moments, angle);
    put_angles(sheet, writer, operand, next_at(told, angle));
}
