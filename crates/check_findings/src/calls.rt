//! The calls that aren't used.

ghost use Rattle.std.specs.Prelude.{◌≡◌, ◌++◌, IfOk, OnOk, map};
ghost use Rattle.read_decks.specs.InDeck.{loads_in};
ghost use Rattle.flow_graph.specs.Executed.{AreAllNodes};
ghost use Rattle.flow_graph.specs.Flow.{executed_in, nodes_of, of_flow};
ghost use Rattle.check_findings.specs.FoundAt as said;
ghost use Rattle.check_findings.specs.FoundAt.{unused_call_of};
ghost use Rattle.check_findings.specs.FindingOf.{seen};

use crate::edges::{has_edge, is_executed};
use crate::finding::Finding;
use base_notes::Call;
use flow_graph::Flow;
use std::alloc::{AllocError, Global};

/// Whether the flow graph has the edge of a call, and its exit is executed.
fn is_used(alloc: Global, flow: &Flow<'_>, call: Call) -> Result<bool, AllocError>
    requires { of_flow AreAllNodes flow.now (nodes_of flow.now) }
    ensures { IfOk result (λ used. used ≡ said.is_used (loads_in flow.now.deck.now)
        flow.now.notes.now (executed_in flow.now) (nodes_of flow.now) call) }
{
    if !has_edge(alloc, flow, call.edge.from, call.edge.onto)? {
        return Ok(false);
    }
    Ok(is_executed(flow, call.exit))
}

/// Adds that a call isn't used, if it is so.
fn add_unused_call(
    found: &mut Vec<Finding>,
    alloc: Global,
    flow: &Flow<'_>,
    call: Call,
) -> Result<(), AllocError>
    requires { of_flow AreAllNodes flow.now (nodes_of flow.now) }
    ensures { OnOk result (map seen found.new.items ≡ map seen found.old.items
        ++ unused_call_of (loads_in flow.now.deck.now) flow.now.notes.now (executed_in flow.now)
        (nodes_of flow.now) call) }
{
    if is_used(alloc, flow, call)? {
        return Ok(());
    }
    found.push(Finding::UnusedCall(call.edge))?;
    Ok(())
}

/// The calls of which the flow graph doesn't have the edge, or whose exit isn't executed, in order.
pub fn unused_calls(alloc: Global, flow: &Flow<'_>) -> Result<Vec<Finding>, AllocError>
    requires { of_flow AreAllNodes flow.now (nodes_of flow.now) }
    ensures { IfOk result (λ found. map seen found.items
        ≡ said.unused_calls (loads_in flow.now.deck.now) flow.now.notes.now
        (executed_in flow.now) (nodes_of flow.now)) }
{
    let mut found = Vec::new(alloc);
    for call in flow.notes().calls() {
        add_unused_call(&mut found, alloc, flow, *call)?;
    }
    Ok(found)
}
