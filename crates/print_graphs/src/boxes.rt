//! The line of a box.

ghost use Rattle.std.specs.Prelude.{◌≡◌, flat_map};
ghost use Rattle.print_lines.specs.Stands.{Passes};
ghost use Rattle.print_graphs.specs.GraphOf.{node_of};
ghost use Rattle.print_graphs.specs.GraphText.{border_text, box_text, content_text, label_text};
ghost use Rattle.print_graphs.specs.GraphText.{operation_text, span_text, style_text};

use crate::node::Node;
use base_devices::Output;
use print_lines::{Sheet, put_location, two_digits};

/// Puts an operation of a label.
#[tactic(auto, using(print_lines::proofs::Passing::passing))]
fn put_operation<O: Output>(sheet: &mut Sheet, writer: &mut O, op: u8)
    ensures { Passes (O.device writer.old) sheet.old (O.device writer.new) sheet.new
        (operation_text op) }
{
    sheet.put(writer, b" ");
    sheet.put(writer, &two_digits(op));
}

/// Puts the operations of a label.
#[tactic(auto, using(print_lines::proofs::Passing::passing))]
fn put_operations<O: Output>(sheet: &mut Sheet, writer: &mut O, operations: &[u8])
    ensures { Passes (O.device writer.old) sheet.old (O.device writer.new) sheet.new
        (flat_map operation_text operations.now) }
{
    for op in operations {
        put_operation(sheet, writer, *op);
    }
}

/// How the box of a word is drawn: one that has a list, and one that is unfit.
fn style(is_listed: bool, is_unfit: bool) -> &'static [u8]
    ensures { result.now ≡ style_text is_listed is_unfit }
{
    match (is_listed, is_unfit) {
        (false, false) => b"",
        (true, false) => b" style=dashed",
        (false, true) => b" style=filled fillcolor=lightgrey",
        (true, true) => b" style=\"dashed,filled\" fillcolor=lightgrey",
    }
}

/// Puts how the border of a word is drawn that may stop the run.
#[tactic(auto, using(print_lines::proofs::Passing::passing))]
fn put_border<O: Output>(sheet: &mut Sheet, writer: &mut O, may_stop: bool)
    ensures { Passes (O.device writer.old) sheet.old (O.device writer.new) sheet.new
        (border_text may_stop) }
{
    if may_stop {
        sheet.put(writer, b" peripheries=2");
    }
}

/// Puts the end of several words, and how many they are.
#[tactic(auto, using(print_lines::proofs::Passing::passing))]
fn put_span<O: Output>(sheet: &mut Sheet, writer: &mut O, node: &Node)
    ensures { Passes (O.device writer.old) sheet.old (O.device writer.new) sheet.new
        (span_text (node_of node.now)) }
{
    sheet.put(writer, b" .. ");
    put_location(sheet, writer, node.last());
    sheet.put(writer, b" ");
    sheet.put_number(writer, node.further.len() + 1);
    sheet.put(writer, b" words");
}

/// Puts a label behind its first location.
#[tactic(auto, using(print_lines::proofs::Passing::passing))]
fn put_content<O: Output>(sheet: &mut Sheet, writer: &mut O, node: &Node)
    ensures { Passes (O.device writer.old) sheet.old (O.device writer.new) sheet.new
        (content_text (node_of node.now)) }
{
    if node.further.is_empty() {
        put_operations(sheet, writer, &node.operations);
    } else {
        put_span(sheet, writer, node);
    }
}

/// Puts a label.
#[tactic(auto, using(print_lines::proofs::Passing::passing))]
fn put_label<O: Output>(sheet: &mut Sheet, writer: &mut O, node: &Node)
    ensures { Passes (O.device writer.old) sheet.old (O.device writer.new) sheet.new
        (label_text (node_of node.now)) }
{
    put_location(sheet, writer, node.location);
    put_content(sheet, writer, node);
}

/// Puts the line of a box.
#[tactic(auto, using(print_lines::proofs::Passing::passing))]
pub(crate) fn put_box<O: Output>(sheet: &mut Sheet, writer: &mut O, node: &Node)
    ensures { Passes (O.device writer.old) sheet.old (O.device writer.new) sheet.new
        (box_text (node_of node.now)) }
{
    put_location(sheet, writer, node.location);
    sheet.put(writer, b" [label=\"");
    put_label(sheet, writer, node);
    sheet.put(writer, b"\"");
    sheet.put(writer, style(node.is_listed, node.is_unfit));
    put_border(sheet, writer, node.may_stop);
    sheet.put(writer, b"]\n");
}
