//! Which loops stand inside which others: each two edges are looked at once.

ghost use Rattle.std.specs.Prelude.{◌↔◌, All, IfOk, IsTrue, OnOk};
ghost use Rattle.base_notes.specs.EdgeOf.{edge_of};
ghost use Rattle.check_deck.specs.FindingsOf.{IsInsideIn};
ghost use Rattle.check_deck.specs.KnownInside.{AreLinksOf, IsKnown};

use base_graphs::Graph;
use base_notes::Edge;
use check_findings::has_edge;
use flow_graph::Flow;
use flow_loops::{is_nested, link_graph};
use std::alloc::{AllocError, Global};

/// Whether the loop of an inner edge stands inside that of an outer one.
#[derive(Clone, Copy)]
pub(crate) struct Known {
    pub(crate) outer: Edge,
    pub(crate) inner: Edge,
    pub(crate) stands: bool,
}

/// A flow graph, with what is known of which loops stand inside which others.
#[derive(Drop)]
pub struct Nesting<'a> {
    pub(crate) flow: &'a Flow<'a>,
    /// All of its links.
    pub(crate) graph: Graph,
    pub(crate) known: Vec<Known>,
}

/// Whether the loop of the inner edge stands inside that of the outer one, and the flow graph, of
/// which all links are given, has both edges. It goes through that graph once from the start, and
/// once from each node at the inner loop's head.
fn stands_in_flow(
    alloc: Global,
    flow: &Flow<'_>,
    graph: &Graph,
    outer: Edge,
    inner: Edge,
) -> Result<bool, AllocError>
    requires { AreLinksOf flow.now graph.now }
    ensures { IfOk result (λ stands. IsTrue stands
        ↔ IsInsideIn flow.now (edge_of outer) (edge_of inner)) }
{
    if !has_edge(alloc, flow, outer.from, outer.onto)? {
        return Ok(false);
    }
    if !has_edge(alloc, flow, inner.from, inner.onto)? {
        return Ok(false);
    }
    is_nested(alloc, flow, graph, outer, inner)
}

/// Adds what is to be known of an outer edge and these inner ones.
fn add_known(
    known: &mut Vec<Known>,
    alloc: Global,
    flow: &Flow<'_>,
    graph: &Graph,
    outer: Edge,
    inners: &[Edge],
) -> Result<(), AllocError>
    requires links { AreLinksOf flow.now graph.now }
    requires known { All (IsKnown flow.now) known.old.items }
    ensures { OnOk result (All (IsKnown flow.now) known.new.items) }
{
    for inner in inners {
        let stands = stands_in_flow(alloc, flow, graph, outer, *inner)?;
        known.push(Known {
            outer,
            inner: *inner,
            stands,
        })?;
    }
    Ok(())
}

impl<'a> Nesting<'a> {
    ghost use Rattle.std.specs.Prelude.{◌≡◌, IfSome};
    ghost use Rattle.flow_graph.specs.Executed.{AreAllNodes};
    ghost use Rattle.flow_graph.specs.Flow.{nodes_of, of_flow};
    ghost use Rattle.check_deck.specs.KnownInside.{AreKnown};

    /// The same flow graph, with what is known of these outer edges and these inner ones. It takes
    /// as long as discovery, and goes through all links for each two of them besides: once, and
    /// once for each node at the inner loop's head.
    pub fn of(
        alloc: Global,
        flow: &'a Flow<'a>,
        outers: &[Edge],
        inners: &[Edge],
    ) -> Result<Nesting<'a>, AllocError>
        requires { of_flow AreAllNodes flow.now (nodes_of flow.now) }
        ensures flow { IfOk result (λ nesting. nesting.flow.now ≡ flow.now) }
        ensures known { IfOk result AreKnown }
    {
        let graph = link_graph(alloc, flow)?;
        let mut known = Vec::new(alloc);
        for outer in outers {
            add_known(&mut known, alloc, flow, &graph, *outer, inners)?;
        }
        Ok(Nesting { flow, graph, known })
    }

    /// What is known of two edges.
    fn known_of(&self, outer: Edge, inner: Edge) -> Option<bool>
        requires { AreKnown self.now }
        ensures { IfSome result (λ stands. IsTrue stands
            ↔ IsInsideIn self.now.flow.now (edge_of outer) (edge_of inner)) }
    {
        for one in &self.known {
            if one.outer.leads(outer.from, outer.onto) && one.inner.leads(inner.from, inner.onto) {
                return Some(one.stands);
            }
        }
        None
    }

    /// Whether the loop of the inner edge stands inside that of the outer one, and the flow graph
    /// has both edges. Where it isn't known, it is looked for.
    pub fn stands_inside(&self, alloc: Global, outer: Edge, inner: Edge) -> Result<bool, AllocError>
        requires { AreKnown self.now }
        ensures { IfOk result (λ stands. IsTrue stands
            ↔ IsInsideIn self.now.flow.now (edge_of outer) (edge_of inner)) }
    {
        match self.known_of(outer, inner) {
            Some(stands) => Ok(stands),
            None => stands_in_flow(alloc, self.flow, &self.graph, outer, inner),
        }
    }
}
