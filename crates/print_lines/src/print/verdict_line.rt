//! The line of a replay's verdict.

ghost use Rattle.std.specs.Prelude.{◌≡◌, ◌++◌, codes, decimal};
ghost use Rattle.base_words.specs.Numeral.{digits_of};
ghost use Rattle.base_words.specs.Word.{spelling};
ghost use Rattle.print_lines.specs.Stands.{Passes};
ghost use Rattle.machine_steps.specs.declared.left.Left.TheVariants.{Unlisted};
ghost use Rattle.machine_steps.specs.declared.verdict.Verdict.TheVariants.{Kept};
ghost use Rattle.print_lines.specs.VerdictText.{left_text, limit_name, verdict_text, why_name};

use super::put_location;
use crate::limit::Limit;
use crate::sheet::Sheet;
use base_devices::Output;
use base_words::{Location, Word};
use machine_steps::{Left, Verdict, Why};

/// Puts the line of a verdict on a run, whose word times are limited in this way.
pub fn put_verdict<O: Output>(sheet: &mut Sheet, writer: &mut O, limit: Limit, verdict: &Verdict)
    ensures { Passes (O.device writer.old) sheet.old (O.device writer.new) sheet.new
        (verdict_text limit verdict.now) }
{
    match *verdict {
        Verdict::Kept { used, bound, why } => put_kept(sheet, writer, limit, used, bound, why),
        Verdict::Left { what, step, used } => put_left(sheet, writer, what, step, used),
    }
}

/// Puts the line of a run that keeps to the notes.
fn put_kept<O: Output>(
    sheet: &mut Sheet,
    writer: &mut O,
    limit: Limit,
    used: u64,
    bound: u64,
    why: Why,
)
    ensures { Passes (O.device writer.old) sheet.old (O.device writer.new) sheet.new
        (verdict_text limit (Kept used bound why)) }
{
    sheet.put(writer, b"kept used ");
    sheet.put_number(writer, used);
    sheet.put(writer, word_of(limit));
    sheet.put_number(writer, bound);
    sheet.put(writer, b" stop ");
    sheet.put(writer, name_of(why));
    sheet.put(writer, b"\n");
}

/// What a limit is called, between two numbers.
fn word_of(limit: Limit) -> &'static [u8]
    ensures { result.now ≡ limit_name limit }
{
    match limit {
        Limit::Bound => b" bound ",
        Limit::Ceiling => b" ceiling ",
    }
}

/// What the reason of a stop is called.
fn name_of(why: Why) -> &'static [u8]
    ensures { result.now ≡ why_name why }
{
    match why {
        Why::Operation => b"operation",
        Why::Operand => b"operand",
        Why::Card => b"card",
        Why::Quotient => b"quotient",
        Why::Overflow => b"overflow",
        Why::Digit => b"digit",
        Why::Programmed => b"programmed",
        Why::Next => b"next",
    }
}

/// Puts the line of a run that leaves the notes in this way at this step, with `used` word times
/// used before it.
fn put_left<O: Output>(sheet: &mut Sheet, writer: &mut O, what: Left, step: u64, used: u64)
    ensures { Passes (O.device writer.old) sheet.old (O.device writer.new) sheet.new
        (left_text what step used) }
{
    match what {
        Left::Unlisted(location, word) => {
            put_unlisted(sheet, writer, location, word, step, used)
        }
        Left::TooOften(from, onto) => {
            put_edge(sheet, writer, b"left toooften ", from, onto, step, used)
        }
        Left::NotBack(exit, onto) => {
            put_edge(sheet, writer, b"left notback ", exit, onto, step, used)
        }
        Left::Switch => put_at_step(sheet, writer, b"left switch step ", step, used),
        Left::LoadCard => put_at_step(sheet, writer, b"left loadcard step ", step, used),
    }
}

/// Puts the line of a word that isn't allowed at its location.
fn put_unlisted<O: Output>(
    sheet: &mut Sheet,
    writer: &mut O,
    location: Location,
    word: Word,
    step: u64,
    used: u64,
)
    ensures { Passes (O.device writer.old) sheet.old (O.device writer.new) sheet.new
        (left_text (Unlisted location word) step used) }
{
    sheet.put(writer, b"left unlisted ");
    put_location(sheet, writer, location);
    sheet.put(writer, b" ");
    sheet.put(writer, &spelling_of(word));
    put_at_step(sheet, writer, b" step ", step, used);
}

/// Puts a line of a text, the step's edge, the step and the word times used before it.
fn put_edge<O: Output>(
    sheet: &mut Sheet,
    writer: &mut O,
    text: &[u8],
    from: Location,
    onto: Location,
    step: u64,
    used: u64,
)
    ensures { Passes (O.device writer.old) sheet.old (O.device writer.new) sheet.new
        (text.now ++ digits_of 4 from.number ++ codes " " ++ digits_of 4 onto.number
        ++ codes " step " ++ decimal step ++ codes " used " ++ decimal used ++ codes "\n") }
{
    sheet.put(writer, text);
    put_location(sheet, writer, from);
    sheet.put(writer, b" ");
    put_location(sheet, writer, onto);
    put_at_step(sheet, writer, b" step ", step, used);
}

/// Puts a line of a text, a step and the word times used before it.
#[tactic(auto, using(crate::proofs::Passing::passing))]
fn put_at_step<O: Output>(sheet: &mut Sheet, writer: &mut O, text: &[u8], step: u64, used: u64)
    ensures { Passes (O.device writer.old) sheet.old (O.device writer.new) sheet.new
        (text.now ++ decimal step ++ codes " used " ++ decimal used ++ codes "\n") }
{
    sheet.put(writer, text);
    sheet.put_number(writer, step);
    sheet.put(writer, b" used ");
    sheet.put_number(writer, used);
    sheet.put(writer, b"\n");
}

/// The text of a word: its sign and its ten digits.
pub fn spelling_of(word: Word) -> [u8; 11]
    ensures { result ≡ spelling word }
{
    let sign = if word.minus() { b'-' } else { b'+' };
    let mut text = [sign; 11];
    let mut rest = word.digits();
    for place in 0..10 {
        text[10 - place] = b'0' + (rest % 10) as u8;
        rest /= 10;
    }
    text
}
