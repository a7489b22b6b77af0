//! What was found, written out: a line each, and then the notes that are lacking, to be pasted.

ghost use Rattle.std.specs.Prelude.{◌≡◌, flat_map, map};
ghost use Rattle.print_lines.specs.Stands.{Passes};
ghost use Rattle.check_findings.specs.FindingOf.{seen};
ghost use Rattle.check_findings.specs.Lacking.{check_text, comment_text, gap, list_text, part_text};
ghost use Rattle.check_findings.specs.Lacking.{pattern_text, words_altered};
ghost use Rattle.check_findings.specs.LackingOf.{pair_of, words_in};

use crate::finding::Finding;
use crate::lacking::{Lack, Lacking};
use crate::listing::put_findings;
use crate::marking::{put_long, put_marks};
use crate::unchanged_parts::UnchangedParts;
use base_devices::Output;
use base_words::Word;
use print_lines::{Sheet, spelling_of};

/// Puts the digits of an operation that stays.
#[tactic(auto, using(print_lines::proofs::Passing::passing))]
fn put_op<O: Output>(sheet: &mut Sheet, writer: &mut O, op: Option<u8>)
    ensures { Passes (O.device writer.old) sheet.old (O.device writer.new) sheet.new
        (part_text op) }
{
    if let Some(number) = op {
        sheet.put_number(writer, number);
    }
}

/// Puts the digits of a part that stays; none where it has to be thought about.
#[tactic(auto, using(print_lines::proofs::Passing::passing))]
fn put_part<O: Output>(sheet: &mut Sheet, writer: &mut O, part: Option<u16>)
    ensures { Passes (O.device writer.old) sheet.old (O.device writer.new) sheet.new
        (part_text part) }
{
    if let Some(number) = part {
        sheet.put_number(writer, number);
    }
}

/// Puts what is behind the last part.
#[tactic(auto, using(print_lines::proofs::Passing::passing))]
fn put_gap<O: Output>(sheet: &mut Sheet, writer: &mut O, part: Option<u16>)
    ensures { Passes (O.device writer.old) sheet.old (O.device writer.new) sheet.new (gap part) }
{
    if part.is_some() {
        sheet.put(writer, b" ");
    }
}

/// Puts the pattern of a list, with the parts that stay.
#[tactic(auto, using(print_lines::proofs::Passing::passing))]
fn put_pattern<O: Output>(sheet: &mut Sheet, writer: &mut O, kept: &UnchangedParts)
    ensures { Passes (O.device writer.old) sheet.old (O.device writer.new) sheet.new
        (pattern_text kept.now) }
{
    sheet.put(writer, b"pattern = [{ op = ");
    put_op(sheet, writer, kept.op);
    sheet.put(writer, b", d_from = ");
    put_part(sheet, writer, kept.d);
    sheet.put(writer, b", d_to = ");
    put_part(sheet, writer, kept.d);
    sheet.put(writer, b", i = ");
    put_part(sheet, writer, kept.i);
    put_gap(sheet, writer, kept.i);
    sheet.put(writer, b"}]");
}

/// Puts the end of the line of a pattern: the word as it is loaded, as a comment, if it is.
#[tactic(auto, using(print_lines::proofs::Passing::passing))]
fn put_comment<O: Output>(sheet: &mut Sheet, writer: &mut O, loaded: Option<Word>)
    ensures { Passes (O.device writer.old) sheet.old (O.device writer.new) sheet.new
        (comment_text loaded) }
{
    let Some(word) = loaded else {
        return sheet.put(writer, b"\n");
    };
    sheet.put(writer, b" # loaded: ");
    sheet.put(writer, &spelling_of(word));
    sheet.put(writer, b"\n");
}

/// Puts the list of a word, for the rest of its pattern to be filled in.
#[tactic(auto, using(print_lines::proofs::Passing::passing))]
fn put_list<O: Output>(sheet: &mut Sheet, writer: &mut O, lack: &Lack)
    ensures { Passes (O.device writer.old) sheet.old (O.device writer.new) sheet.new
        (list_text (pair_of lack.now)) }
{
    sheet.put(writer, b"[[list]]\nlocation = ");
    sheet.put_number(writer, lack.word.number());
    sheet.put(writer, b"\n");
    put_pattern(sheet, writer, &lack.kept);
    put_comment(sheet, writer, lack.kept.loaded);
}

/// Puts the lists that are lacking.
#[tactic(auto, using(print_lines::proofs::Passing::passing))]
fn put_lists<O: Output>(sheet: &mut Sheet, writer: &mut O, words: &[Lack])
    ensures { Passes (O.device writer.old) sheet.old (O.device writer.new) sheet.new
        (flat_map list_text (map pair_of words.now)) }
{
    for lack in words {
        put_list(sheet, writer, lack);
    }
}

/// Puts what was found, a line each, and then the notes that are lacking, as TOML: a mark for each
/// edge that closes a loop, or for several that share it, with the number of the mark inside which
/// it stands, behind a line that says so where these make long notes; and a list for each word that
/// is altered. What is lacking has to be that of what was found; `long` says whether the notes are
/// long with the marks. It takes no memory.
#[tactic(auto, using(print_lines::proofs::Passing::passing))]
pub fn put_all<O: Output>(
    sheet: &mut Sheet,
    writer: &mut O,
    findings: &[Finding],
    long: bool,
    lacking: &Lacking,
)
    requires { words_in lacking.now ≡ words_altered (map seen findings.now) }
    ensures { Passes (O.device writer.old) sheet.old (O.device writer.new) sheet.new
        (check_text long (map seen findings.now)) }
{
    put_findings(sheet, writer, findings);
    put_long(sheet, writer, long);
    put_marks(sheet, writer, findings);
    put_lists(sheet, writer, &lacking.words);
}
