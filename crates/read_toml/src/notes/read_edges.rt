//! The edges that a mark's table says, read.

ghost use Rattle.std.specs.Prelude.{◌≡◌, ◌∷◌, ◌≤◌, length, map, IfOk};
ghost use Rattle.std.specs.List.{AllByRecursion};
ghost use Rattle.base_notes.specs.EdgeOf.{edge_of};
ghost use Rattle.read_toml.specs.Elements.{IsOnLocations};
ghost use Rattle.read_toml.specs.LongMarks as said;
ghost use Rattle.toml.specs.View.{view, table_view, items_view};

use crate::document::fields::{Fields, items};
use crate::document::value;
use crate::document::values::location_of;
use base_notes::{Edge, Edges};
use std::alloc::{AllocError, Global};
use toml::Value;

/// The edges of a mark.
#[derive(Drop)]
pub struct MarkEdges {
    pub first: Edge,
    pub others: Edges,
}

impl MarkEdges {
    /// Edges, of which there is one at least.
    pub fn of(alloc: Global, edges: &[Edge]) -> Result<MarkEdges, AllocError>
        requires { 1 ≤ length edges.now }
        ensures { IfOk result (λ made. edge_of made.first ∷ made.others ≡ map edge_of edges.now) }
    {
        let mut others = Vec::new(alloc);
        others.extend_from_slice(&edges[1..])?;
        Ok(MarkEdges {
            first: edges[0],
            others: Edges::new(others),
        })
    }
}

/// Whether a mark's table lists its edges: it has the key for that, and neither `from` nor `to`.
pub fn lists_edges(fields: &Fields<'_>) -> bool
    ensures { result ≡ said.lists_edges (table_view fields.now.table.now) }
{
    fields.get("edges").is_some() && !(fields.get("from").is_some() || fields.get("to").is_some())
}

/// The numbers of the two locations that a value is; 0 for both where it isn't two values.
fn ends_of(value: &Value) -> (u64, u64)
    ensures { (result.0, result.1) ≡ said.edge_of_value (view value.now) }
{
    let Some(ends) = value.as_array() else {
        return (0, 0);
    };
    if ends.len() != 2 {
        return (0, 0);
    }
    (value::number(&ends[0]), value::number(&ends[1]))
}

/// The edge that a value is.
fn read_edge(value: &Value) -> Edge
    requires { IsOnLocations (said.edge_of_value (view value.now)) }
    ensures { edge_of result ≡ said.edge_of_value (view value.now) }
{
    let (from, onto) = ends_of(value);
    Edge {
        from: location_of(from),
        onto: location_of(onto),
    }
}

/// The edges that the elements of an array are.
fn read_listed(alloc: Global, items: &[Value]) -> Result<Vec<Edge>, AllocError>
    requires { AllByRecursion IsOnLocations (said.edges_listed (items_view items.now)) }
    ensures { IfOk result (λ edges.
        map edge_of edges.items ≡ said.edges_listed (items_view items.now)) }
{
    let mut edges = Vec::new(alloc);
    for item in items {
        edges.push(read_edge(item))?;
    }
    Ok(edges)
}

/// The edges that a mark's table says.
pub fn read_edges(fields: &Fields<'_>) -> Result<Vec<Edge>, AllocError>
    requires { AllByRecursion IsOnLocations (said.edges_said (table_view fields.now.table.now)) }
    ensures { IfOk result (λ edges.
        map edge_of edges.items ≡ said.edges_said (table_view fields.now.table.now)) }
{
    if lists_edges(fields) {
        return read_listed(fields.alloc, items(fields.table, "edges"));
    }
    let edge = Edge {
        from: fields.location("from"),
        onto: fields.location("to"),
    };
    Ok(vec![in fields.alloc; edge]?)
}
