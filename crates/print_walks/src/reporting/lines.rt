//! The lines of a report, each put behind what was put before.

ghost use Rattle.std.specs.Prelude.{◌≡◌, ◌≤◌, List, length, flat_map};
ghost use Rattle.read_decks.specs.InDeck.{cards_in};
ghost use Rattle.flow_walks.specs.Visited.{Visited};
ghost use Rattle.print_lines.specs.Stands.{Passes};
ghost use Rattle.print_lines.specs.NameText.{name_text};
ghost use Rattle.print_walks.specs.Report.{card_line, mark_line};
ghost use Rattle.print_walks.specs.TalliesOf.{AreByLine, ArePasses, told_of, told_of_card};
ghost use Rattle.print_walks.specs.TalliesOf.{told_of_mark, told_of_others};

use super::tallies::LINES;
use super::tally::Tally;
use base_devices::Output;
use base_notes::Mark;
use print_lines::{Sheet, four_digits, put_location, put_name, put_named};
use read_decks::Deck;

/// Puts what a tally says, and the end of its line.
fn put_tally<O: Output>(sheet: &mut Sheet, writer: &mut O, tally: &Tally)
    ensures { Passes (O.device writer.old) sheet.old (O.device writer.new) sheet.new
        (told_of tally.now) }
{
    put_named(sheet, writer, b" visits ", tally.visits);
    put_named(sheet, writer, b" time ", tally.time);
    sheet.put(writer, b"\n");
}

/// Puts the line of a card.
fn put_card<O: Output>(sheet: &mut Sheet, writer: &mut O, line: u16, tally: &Tally)
    ensures { Passes (O.device writer.old) sheet.old (O.device writer.new) sheet.new
        (told_of_card line tally.now) }
{
    sheet.put(writer, b"card ");
    sheet.put(writer, &four_digits(line));
    put_tally(sheet, writer, tally);
}

/// Puts the line of the locations that no card gives a word.
pub fn put_other<O: Output>(sheet: &mut Sheet, writer: &mut O, tally: &Tally)
    ensures { Passes (O.device writer.old) sheet.old (O.device writer.new) sheet.new
        (told_of_others tally.now) }
{
    sheet.put(writer, b"other");
    put_tally(sheet, writer, tally);
}

/// How many bytes end the line of a mark with its name; 0 where it has none.
fn name_length(mark: &Mark) -> usize
    ensures length { result ≡ length (name_text mark.now.name) }
    ensures short { result ≤ 26 }
{
    match &mark.name {
        Some(name) => b" name ".len() + name.as_bytes().len(),
        None => 0,
    }
}

/// Puts the line of a mark that is passed so often.
fn put_mark<O: Output>(sheet: &mut Sheet, writer: &mut O, mark: &Mark, passed: u64)
    ensures line { Passes (O.device writer.old) sheet.old (O.device writer.new) sheet.new
        (told_of_mark mark.now passed) }
    ensures short { length (told_of_mark mark.now passed) ≤ 120 }
{
    // What is known of a name: that it is short.
    let _length = name_length(mark);
    sheet.put(writer, b"mark ");
    put_location(sheet, writer, mark.from);
    sheet.put(writer, b" ");
    put_location(sheet, writer, mark.onto);
    put_named(sheet, writer, b" passed ", passed);
    put_named(sheet, writer, b" of ", mark.most);
    put_name(sheet, writer, mark);
    sheet.put(writer, b"\n");
}

/// Puts the lines of a deck's cards.
pub fn put_cards<O: Output>(
    sheet: &mut Sheet,
    writer: &mut O,
    deck: &Deck,
    tallies: &[Tally; LINES],
)
    ensures { (walk : List Visited) → AreByLine deck.now walk tallies.now
        → Passes (O.device writer.old) sheet.old (O.device writer.new) sheet.new
        (flat_map (card_line deck.now walk) (cards_in deck.now)) }
{
    for line in deck.cards() {
        put_card(sheet, writer, *line, &tallies[*line as usize]);
    }
}

/// Puts the lines of marks.
pub fn put_marks<O: Output>(
    sheet: &mut Sheet,
    writer: &mut O,
    marks: &[Mark],
    passed: &[u64; Mark::MOST],
)
    requires { length marks.now ≤ 64 }
    ensures lines { (walk : List Visited) → ArePasses marks.now walk passed.now
        → Passes (O.device writer.old) sheet.old (O.device writer.new) sheet.new
        (flat_map (mark_line walk) marks.now) }
    ensures short { (walk : List Visited) → ArePasses marks.now walk passed.now
        → length (flat_map (mark_line walk) marks.now) ≤ 7680 }
{
    for (place, mark) in marks.iter().enumerate() {
        put_mark(sheet, writer, mark, passed[place]);
    }
}
