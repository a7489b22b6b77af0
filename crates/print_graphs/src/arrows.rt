//! The lines of the arrows of a box: to where its instructions go on, and to the words that they
//! write.

ghost use Rattle.std.specs.Prelude.{◌≡◌, ◌<◌, ◌^◌, flat_map};
ghost use Rattle.flow_graph.specs.Found.{places_of};
ghost use Rattle.print_lines.specs.Stands.{Passes};
ghost use Rattle.base_notes.specs.Marks.{mark_on};
ghost use Rattle.print_graphs.specs.GraphOf.{edges_in, node_of};
ghost use Rattle.print_graphs.specs.GraphText.{arrow_text, colour_text, count_text, edge_text};
ghost use Rattle.print_graphs.specs.GraphText.{end_text, inside_text, mark_label, mark_text};
ghost use Rattle.print_graphs.specs.GraphText.{named_text, written_text};

use crate::closing::ClosingEdges;
use crate::node::Node;
use base_devices::Output;
use base_notes::Mark;
use base_words::Location;
use flow_graph::location_set::LocationSet;
use print_lines::{Sheet, put_location, put_name};

/// Puts an arrow from one location to another.
#[tactic(auto, using(print_lines::proofs::Passing::passing))]
fn put_arrow<O: Output>(sheet: &mut Sheet, writer: &mut O, from: Location, onto: Location)
    ensures { Passes (O.device writer.old) sheet.old (O.device writer.new) sheet.new
        (arrow_text from.number onto.number) }
{
    put_location(sheet, writer, from);
    sheet.put(writer, b" -> ");
    put_location(sheet, writer, onto);
}

/// Puts which mark it is, and how often it is passed at most.
#[tactic(auto, using(print_lines::proofs::Passing::passing))]
fn put_count<O: Output>(sheet: &mut Sheet, writer: &mut O, place: usize, most: u16)
    requires { place < 2 ^ 63 }
    ensures { Passes (O.device writer.old) sheet.old (O.device writer.new) sheet.new
        (count_text place most) }
{
    sheet.put(writer, b" [label=\"mark ");
    sheet.put_number(writer, place + 1);
    sheet.put(writer, b" most ");
    sheet.put_number(writer, most);
}

/// Puts which mark a mark stands inside of, if it does.
#[tactic(auto, using(print_lines::proofs::Passing::passing))]
fn put_inside<O: Output>(sheet: &mut Sheet, writer: &mut O, marks: &[Mark], inside: Option<usize>)
    ensures { Passes (O.device writer.old) sheet.old (O.device writer.new) sheet.new
        (inside_text marks.now inside) }
{
    match inside {
        Some(outer) if outer < marks.len() => {
            sheet.put(writer, b" inside ");
            sheet.put_number(writer, outer + 1);
        }
        _ => {}
    }
}

/// Puts the name of a mark, if it has one, and the end of its label.
#[tactic(auto, using(print_lines::proofs::Passing::passing))]
fn put_label_end<O: Output>(sheet: &mut Sheet, writer: &mut O, mark: &Mark)
    ensures { Passes (O.device writer.old) sheet.old (O.device writer.new) sheet.new
        (named_text mark.now.name) }
{
    put_name(sheet, writer, mark);
    sheet.put(writer, b"\" penwidth=3]");
}

/// Puts the label of a mark: its number, from 1, its most, which mark it stands inside of, and its
/// name.
#[tactic(auto, using(print_lines::proofs::Passing::passing))]
fn put_mark<O: Output>(sheet: &mut Sheet, writer: &mut O, marks: &[Mark], place: usize, mark: &Mark)
    requires { place < 2 ^ 63 }
    ensures { Passes (O.device writer.old) sheet.old (O.device writer.new) sheet.new
        (mark_text marks.now place mark.now) }
{
    put_count(sheet, writer, place, mark.most);
    put_inside(sheet, writer, marks, mark.inside);
    put_label_end(sheet, writer, mark);
}

/// Puts the label of the mark that stands on an edge, if one does.
#[tactic(auto, using(print_lines::proofs::Passing::passing))]
fn put_mark_on<O: Output>(
    sheet: &mut Sheet,
    writer: &mut O,
    marks: &[Mark],
    from: Location,
    onto: Location,
)
    ensures { Passes (O.device writer.old) sheet.old (O.device writer.new) sheet.new
        (mark_label marks.now (mark_on marks.now from.number onto.number)) }
{
    if let Some(place) = Mark::on_edge(marks, from, onto) {
        if let Some(mark) = marks.get(place) {
            put_mark(sheet, writer, marks, place, mark);
        }
    }
}

/// How an edge is drawn that closes a loop.
fn colour(closes: bool) -> &'static [u8]
    ensures { result.now ≡ colour_text closes }
{
    if closes { b" [color=red]" } else { b"" }
}

/// Puts the end of an edge's line, which is red if it closes a loop.
#[tactic(auto, using(print_lines::proofs::Passing::passing))]
fn put_end<O: Output>(sheet: &mut Sheet, writer: &mut O, closes: bool)
    ensures { Passes (O.device writer.old) sheet.old (O.device writer.new) sheet.new
        (end_text closes) }
{
    sheet.put(writer, colour(closes));
    sheet.put(writer, b"\n");
}

/// Puts the line of an edge of a box, with the mark that stands on it; red if it closes a loop.
#[tactic(auto, using(print_lines::proofs::Passing::passing))]
fn put_edge<O: Output>(
    sheet: &mut Sheet,
    writer: &mut O,
    marks: &[Mark],
    loops: &ClosingEdges,
    node: &Node,
    onto: Location,
)
    ensures { Passes (O.device writer.old) sheet.old (O.device writer.new) sheet.new
        (edge_text marks.now (edges_in loops.now) (node_of node.now) onto.number) }
{
    put_arrow(sheet, writer, node.location, onto);
    let last = node.last();
    put_mark_on(sheet, writer, marks, last, onto);
    let closes = loops.have(last, onto);
    put_end(sheet, writer, closes);
}

/// Puts the lines of the edges of a box.
#[tactic(auto, using(print_lines::proofs::Lines::lines))]
pub(crate) fn put_edges<O: Output>(
    sheet: &mut Sheet,
    writer: &mut O,
    marks: &[Mark],
    loops: &ClosingEdges,
    node: &Node,
)
    ensures { Passes (O.device writer.old) sheet.old (O.device writer.new) sheet.new
        (flat_map (edge_text marks.now (edges_in loops.now) (node_of node.now))
        (places_of node.now.nexts)) }
{
    for next in node.nexts.locations() {
        put_edge(sheet, writer, marks, loops, node, *next);
    }
}

/// Puts the line of a word that is written.
#[tactic(auto, using(print_lines::proofs::Passing::passing))]
fn put_word<O: Output>(sheet: &mut Sheet, writer: &mut O, from: Location, word: Location)
    ensures { Passes (O.device writer.old) sheet.old (O.device writer.new) sheet.new
        (written_text from.number word.number) }
{
    put_location(sheet, writer, from);
    sheet.put(writer, b" -> ");
    put_location(sheet, writer, word);
    sheet.put(writer, b" [style=dotted]\n");
}

/// Puts the lines of these words that the instructions of a location write.
#[tactic(auto, using(print_lines::proofs::Lines::lines))]
pub(crate) fn put_words<O: Output>(
    sheet: &mut Sheet,
    writer: &mut O,
    from: Location,
    words: &LocationSet,
)
    ensures { Passes (O.device writer.old) sheet.old (O.device writer.new) sheet.new
        (flat_map (written_text from.number) (places_of words.now)) }
{
    for word in words.locations() {
        put_word(sheet, writer, from, *word);
    }
}
