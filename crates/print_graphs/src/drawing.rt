//! A flow graph, written out in the language DOT.

ghost use Rattle.std.specs.Prelude.{flat_map};
ghost use Rattle.print_lines.specs.Stands.{Passes};
ghost use Rattle.print_graphs.specs.GraphOf.{edges_in, loops_in, node_of, nodes_in, start_of};
ghost use Rattle.print_graphs.specs.GraphText.{graph_text, head_text, node_text};

use crate::arrows::{put_edges, put_words};
use crate::boxes::put_box;
use crate::closing::ClosingEdges;
use crate::graph::Graph;
use crate::node::Node;
use base_devices::Output;
use base_notes::Mark;
use base_words::Location;
use print_lines::{Sheet, put_location};

/// Puts the beginning of a graph, with the arrow to the start.
#[tactic(auto, using(print_lines::proofs::Passing::passing))]
fn put_head<O: Output>(sheet: &mut Sheet, writer: &mut O, start: Location)
    ensures { Passes (O.device writer.old) sheet.old (O.device writer.new) sheet.new
        (head_text start.number) }
{
    sheet.put(
        writer,
        b"digraph deck {\nnode [shape=box]\nstart [shape=point]\nstart -> ",
    );
    put_location(sheet, writer, start);
    sheet.put(writer, b"\n");
}

/// Puts the lines of an executed word: its box, and its arrows.
#[tactic(auto, using(print_lines::proofs::Passing::passing))]
fn put_node<O: Output>(
    sheet: &mut Sheet,
    writer: &mut O,
    marks: &[Mark],
    loops: &ClosingEdges,
    node: &Node,
)
    ensures { Passes (O.device writer.old) sheet.old (O.device writer.new) sheet.new
        (node_text marks.now (edges_in loops.now) (node_of node.now)) }
{
    put_box(sheet, writer, node);
    put_edges(sheet, writer, marks, loops, node);
    put_words(sheet, writer, node.location, &node.written);
}

/// Puts the lines of all executed words.
#[tactic(auto, using(print_lines::proofs::Lines::lines))]
fn put_nodes<O: Output>(sheet: &mut Sheet, writer: &mut O, marks: &[Mark], graph: &Graph)
    ensures { Passes (O.device writer.old) sheet.old (O.device writer.new) sheet.new
        (flat_map (node_text marks.now (loops_in graph.now)) (nodes_in graph.now)) }
{
    for node in &graph.nodes {
        put_node(sheet, writer, marks, &graph.loops, node);
    }
}

/// Puts a flow graph in the language DOT on a sheet: for each executed word its box, an arrow to
/// each location where its instructions go on, with the mark that stands on that edge, or red if
/// the edge closes a loop, and a dotted one to each executed word that they write. It takes no
/// memory.
#[tactic(auto, using(print_lines::proofs::Passing::passing))]
pub fn put_graph<O: Output>(sheet: &mut Sheet, writer: &mut O, marks: &[Mark], graph: &Graph)
    ensures { Passes (O.device writer.old) sheet.old (O.device writer.new) sheet.new
        (graph_text marks.now (loops_in graph.now) (start_of graph.now) (nodes_in graph.now)) }
{
    put_head(sheet, writer, graph.start);
    put_nodes(sheet, writer, marks, graph);
    sheet.put(writer, b"}\n");
}
