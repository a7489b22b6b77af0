//! The line of a step.

ghost use Rattle.std.specs.Prelude.{◌≡◌, ◌^◌, ◌≤◌, ◌++◌, [], List};
ghost use Rattle.base_words.specs.declared.op.Op.{Op};
ghost use Rattle.base_notes.specs.declared.entry.Entry.{Entry};
ghost use Rattle.base_notes.specs.Entries.{entry_in};
ghost use Rattle.machine_steps.specs.declared.card.Card.{Card};
ghost use Rattle.machine_steps.specs.Ending.{stops_by};
ghost use Rattle.machine_steps.specs.Run.{Stride};
ghost use Rattle.machine_steps.specs.Step.{fetched};
ghost use Rattle.machine_steps.specs.WaysLeft.{seen_way};
ghost use Rattle.machine_emulator.specs.Machine.{held_by};
ghost use Rattle.machine_emulator.specs.Machine.{IsToldOf};
ghost use Rattle.flow_graph.specs.RunHops.{hop_of};
ghost use Rattle.flow_walks.specs.Visited.{visited};
ghost use Rattle.print_lines.specs.Stands.{Passes};
ghost use Rattle.print_hops.specs.Pieces.{fetch_text, held_text, times_text};
ghost use Rattle.print_hops.specs.StepOf.{IsStepOf};
ghost use Rattle.print_hops.specs.TimedHop.{seen_timed};
ghost use Rattle.print_hops.specs.TraceText.{stride_line};

use crate::acted::put_acted;
use crate::moments::Moments;
use crate::moments_text::put_times;
use crate::registers_text::put_registers;
use crate::timed_hop::TimedHop;
use base_devices::Output;
use base_notes::Times;
use base_words::{Instruction, Location, Word};
use machine_emulator::{Machine, Step};
use machine_steps::{Way, Why};
use print_lines::{Sheet, put_location, spelling_of};

/// How a step that stops ends.
fn way_of(why: Why) -> Way
    ensures { seen_way result ≡ stops_by why }
{
    match why {
        Why::Operand | Why::Card => Way::Early,
        _ => Way::Late,
    }
}

/// The word that a step has fetched.
fn word_of(step: &Step) -> Word
    ensures { (times : Op → Entry) (stride : Stride) → IsToldOf times stride step.now
        → result ≡ fetched stride.origin }
{
    match *step {
        Step::Went { word, .. } | Step::Stopped { word, .. } => word,
    }
}

/// A step as a hop from the location where it begins, with `before` word times used before it.
fn as_hop(step: &Step, before: u64) -> TimedHop
    ensures told { (times : Op → Entry) (stride : Stride) → IsToldOf times stride step.now
        → stride.origin.time ≡ before → seen_timed result ≡ visited (hop_of stride) }
    ensures begun { result.begun ≡ before }
{
    match *step {
        Step::Went {
            origin,
            word,
            next,
            used,
            ..
        } => TimedHop {
            place: origin,
            instruction: Instruction::of(word),
            way: Way::To(next),
            begun: before,
            ended: used,
        },
        Step::Stopped {
            origin,
            word,
            why,
            used,
        } => TimedHop {
            place: origin,
            instruction: Instruction::of(word),
            way: way_of(why),
            begun: before,
            ended: used,
        },
    }
}

/// Puts the number of a step, where it begins, the word that it has fetched there, and when it
/// begins.
fn put_fetch<O: Output>(
    sheet: &mut Sheet,
    writer: &mut O,
    number: u64,
    origin: Location,
    word: Word,
    begun: u64,
)
    ensures { Passes (O.device writer.old) sheet.old (O.device writer.new) sheet.new
        (fetch_text number origin.number word begun) }
{
    sheet.put(writer, b"step ");
    sheet.put_number(writer, number);
    sheet.put(writer, b" ");
    put_location(sheet, writer, origin);
    sheet.put(writer, b" ");
    sheet.put(writer, &spelling_of(word));
    sheet.put(writer, b" begun ");
    sheet.put_number(writer, begun);
}

/// Puts the number of a step, what it has fetched where, when it begins, its moments and when it
/// ends.
#[tactic(auto, using(print_lines::proofs::Passing::passing))]
fn put_course<O: Output>(
    sheet: &mut Sheet,
    writer: &mut O,
    number: u64,
    word: Word,
    told: &TimedHop,
    moments: &Moments,
)
    ensures { Passes (O.device writer.old) sheet.old (O.device writer.new) sheet.new
        (fetch_text number told.now.place.number word told.now.begun
        ++ times_text moments.now told.now.ended []) }
{
    put_fetch(sheet, writer, number, told.place, word, told.begun);
    put_times(sheet, writer, moments, told.ended, b"");
}

/// Puts what a machine holds after a step, with what the step did to words of the drum, and ends
/// the line.
fn put_contents<O: Output>(sheet: &mut Sheet, writer: &mut O, told: &TimedHop, machine: &Machine)
    ensures { (cards : List Card) →
        Passes (O.device writer.old) sheet.old (O.device writer.new) sheet.new
        (held_text (seen_timed told.now) (held_by machine.now cards)) }
{
    put_registers(sheet, writer, machine);
    put_acted(sheet, writer, told, machine.drum());
    sheet.put(writer, b"\n");
}

/// Puts the line of a step: the one of this number, on a drum with this angle at time 0, with
/// `before` word times used before it. The machine is as it is after it.
pub fn put_step<O: Output>(
    sheet: &mut Sheet,
    writer: &mut O,
    times: &Times,
    angle: u8,
    number: u64,
    before: u64,
    step: &Step,
    machine: &Machine,
)
    requires { before ≤ 2 ^ 62 }
    ensures { (stride : Stride)
        → IsStepOf (entry_in times.now) angle before step.now machine.now stride
        → Passes (O.device writer.old) sheet.old (O.device writer.new) sheet.new
        (stride_line (entry_in times.now) number stride) }
{
    let told = as_hop(step, before);
    let moments = Moments::of(&told, times, angle);
    put_course(sheet, writer, number, word_of(step), &told, &moments);
    put_contents(sheet, writer, &told, machine);
}
