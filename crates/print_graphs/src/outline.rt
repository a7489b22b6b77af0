//! The outline of a flow graph: words that go straight on from one to the next are one box.

ghost use Rattle.std.specs.Prelude.{◌≡◌, ◌<◌, ℕ, [], ◌∷◌, ◌++◌, false, true, map};
ghost use Rattle.std.specs.Prelude.{if◌then◌else◌, slice_get};
ghost use Rattle.std.specs.Prelude.{IfNone, IfOk, IfSome, OnOk, Some};
ghost use Rattle.print_graphs.specs.declared.node.Node.{Node};
ghost use Rattle.print_graphs.specs.Outline as said;
ghost use Rattle.print_graphs.specs.GraphOf.{edges_in, node_of};

use crate::closing::ClosingEdges;
use crate::node::Node;
use base_notes::Mark;
use base_words::Location;
use std::alloc::{AllocError, Global};

/// Whether some word writes the word at a location.
fn is_written(words: &[Node], location: Location) -> bool
    ensures { result ≡ said.is_written (map node_of words.now) location.number }
{
    for word in words {
        if word.writes(location) {
            return true;
        }
    }
    false
}

/// Whether one word alone goes on at a location.
fn is_come_to_once(words: &[Node], location: Location) -> bool
    ensures { result ≡ said.is_come_to_once (map node_of words.now) location.number }
{
    words
        .iter()
        .filter(|word| word.goes_on_at(location))
        .count()
        == 1
}

/// Whether a word may stand in a box behind another.
fn may_follow(start: Location, words: &[Node], word: &Node) -> bool
    ensures { result ≡ said.may_follow start.number (map node_of words.now) (node_of word.now) }
{
    if word.is_listed || word.is_unfit || start.number() == word.location.number() {
        return false;
    }
    !is_written(words, word.location) && is_come_to_once(words, word.location)
}

/// Of each word, whether it may stand in a box behind another.
fn followers(alloc: Global, start: Location, words: &[Node]) -> Result<Vec<bool>, AllocError>
    ensures { IfOk result (λ follows. follows.items
        ≡ map (said.may_follow start.number (map node_of words.now)) (map node_of words.now)) }
{
    let mut follows = Vec::new(alloc);
    for word in words {
        follows.push(may_follow(start, words, word))?;
    }
    Ok(follows)
}

/// Whether an edge neither has a mark nor lacks one.
fn is_bare(marks: &[Mark], loops: &ClosingEdges, from: Location, onto: Location) -> bool
    ensures { result ≡ said.is_bare marks.now (edges_in loops.now) from.number onto.number }
{
    Mark::on_edge(marks, from, onto).is_none() && !loops.have(from, onto)
}

/// Whether a box goes straight on to a location.
fn goes_straight(marks: &[Mark], loops: &ClosingEdges, onto: Location, one: &Node) -> bool
    ensures { result ≡ said.goes_straight marks.now (edges_in loops.now) onto.number
        (node_of one.now) }
{
    if one.is_listed || one.nexts.locations().len() != 1 || !one.goes_on_at(onto) {
        return false;
    }
    is_bare(marks, loops, one.last(), onto)
}

/// The index of the first of some boxes that goes straight on to a location.
fn box_before(marks: &[Mark], loops: &ClosingEdges, onto: Location, boxes: &[Node]) -> Option<usize>
    ensures found { IfSome result (λ index. (one : Node) × (slice_get boxes.now index ≡ Some one)
        × (said.goes_straight marks.now (edges_in loops.now) onto.number (node_of one) ≡ true)) }
    ensures first { IfSome result (λ index. (k : ℕ) (one : Node) → k < index
        → slice_get boxes.now k ≡ Some one
        → said.goes_straight marks.now (edges_in loops.now) onto.number (node_of one) ≡ false) }
    ensures none { IfNone result ((k : ℕ) (one : Node) → slice_get boxes.now k ≡ Some one
        → said.goes_straight marks.now (edges_in loops.now) onto.number (node_of one) ≡ false) }
{
    for (index, one) in boxes.iter().enumerate() {
        if goes_straight(marks, loops, onto, one) {
            return Some(index);
        }
    }
    None
}

/// Puts a word into the boxes: behind the first that goes straight on to it, or in one of its own.
fn put_behind(
    marks: &[Mark],
    loops: &ClosingEdges,
    boxes: &mut Vec<Node>,
    word: Node,
) -> Result<(), AllocError>
    ensures { OnOk result (map node_of boxes.new.items ≡ said.put_behind marks.now
        (edges_in loops.now) (map node_of boxes.old.items) (node_of word)) }
{
    match box_before(marks, loops, word.location, boxes) {
        Some(index) => boxes[index].join(word),
        None => {
            boxes.push(word)?;
            Ok(())
        }
    }
}

/// Puts a word into the boxes, behind another if it may follow one.
fn put(
    marks: &[Mark],
    loops: &ClosingEdges,
    boxes: &mut Vec<Node>,
    word: Node,
    follows: bool,
) -> Result<(), AllocError>
    ensures { OnOk result (map node_of boxes.new.items ≡ (if follows
        then said.put_behind marks.now (edges_in loops.now) (map node_of boxes.old.items)
        (node_of word) else (map node_of boxes.old.items ++ node_of word ∷ []))) }
{
    if follows {
        return put_behind(marks, loops, boxes, word);
    }
    boxes.push(word)?;
    Ok(())
}

/// The boxes of the words of a flow graph with this start, which are put one after the other.
pub(crate) fn boxes_of(
    alloc: Global,
    marks: &[Mark],
    loops: &ClosingEdges,
    start: Location,
    words: Vec<Node>,
) -> Result<Vec<Node>, AllocError>
    ensures { IfOk result (λ boxes. map node_of boxes.items ≡ said.outlined marks.now
        (edges_in loops.now) start.number (map node_of words.items)) }
{
    let follows = followers(alloc, start, &words)?;
    let mut boxes = Vec::new(alloc);
    for (index, word) in words.into_iter().enumerate() {
        put(marks, loops, &mut boxes, word, follows[index])?;
    }
    Ok(boxes)
}
