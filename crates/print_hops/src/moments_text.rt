//! The moments of an instruction, and when its step ends, in a line.

ghost use Rattle.std.specs.Prelude.{◌≡◌, ◌+◌, ◌^◌, ◌≤◌, option_map};
ghost use Rattle.print_lines.specs.Stands.{Passes};
ghost use Rattle.print_hops.specs.Moments.{later as later_by};
ghost use Rattle.print_hops.specs.Pieces.{named_text, times_text, told_text};

use crate::moments::Moments;
use base_devices::Output;
use itoa::Integer;
use print_lines::{Sheet, put_named};

/// Puts a moment with its name, where there is one.
#[tactic(auto, using(print_lines::proofs::Passing::passing))]
pub(crate) fn put_moment<O: Output, I: Integer>(
    sheet: &mut Sheet,
    writer: &mut O,
    name: &[u8],
    moment: Option<I>,
)
    ensures { Passes (O.device writer.old) sheet.old (O.device writer.new) sheet.new
        (named_text I.text name.now moment) }
{
    if let Some(moment) = moment {
        put_named(sheet, writer, name, moment);
    }
}

/// Puts moments, when the step ends, and these last bytes.
fn put_all_moments<O: Output, I: Integer>(
    sheet: &mut Sheet,
    writer: &mut O,
    found: I,
    ready: Option<I>,
    operand: Option<I>,
    ended: I,
    last: &[u8],
)
    ensures { Passes (O.device writer.old) sheet.old (O.device writer.new) sheet.new
        (told_text I.text found ready operand ended last.now) }
{
    sheet.put(writer, b" found ");
    sheet.put_number(writer, found);
    put_moment(sheet, writer, b" ready ", ready);
    put_moment(sheet, writer, b" data ", operand);
    sheet.put(writer, b" ended ");
    sheet.put_number(writer, ended);
    sheet.put(writer, last);
}

/// Puts the moments of an instruction, when its step ends, and these last bytes.
pub fn put_times<O: Output>(
    sheet: &mut Sheet,
    writer: &mut O,
    moments: &Moments,
    ended: u64,
    last: &[u8],
)
    ensures { Passes (O.device writer.old) sheet.old (O.device writer.new) sheet.new
        (times_text moments.now ended last.now) }
{
    let Moments {
        found,
        ready,
        operand,
    } = *moments;
    put_all_moments(sheet, writer, found, ready, operand, ended, last);
}

/// A moment so many word times later; none where there is none.
fn later(moment: Option<u64>, by: u128) -> Option<u128>
    requires { by + 2 ^ 64 ≤ 2 ^ 128 }
    ensures { result ≡ option_map (λ before. before + by) moment }
{
    match moment {
        Some(moment) => Some(u128::from(moment) + by),
        None => None,
    }
}

/// Puts the moments of an instruction, each of them `by` word times later than it is given, the
/// word times used when its step ends, and these last bytes.
pub fn put_times_later<O: Output>(
    sheet: &mut Sheet,
    writer: &mut O,
    moments: &Moments,
    by: u128,
    ended: u128,
    last: &[u8],
)
    requires { by + 2 ^ 64 ≤ 2 ^ 128 }
    ensures { Passes (O.device writer.old) sheet.old (O.device writer.new) sheet.new
        (times_text (later_by by moments.now) ended last.now) }
{
    let found = u128::from(moments.found) + by;
    let ready = later(moments.ready, by);
    let operand = later(moments.operand, by);
    put_all_moments(sheet, writer, found, ready, operand, ended, last);
}
