//! What the hops from all sites take at most, by where they lead.

ghost use Rattle.std.specs.Prelude.{◌≡◌, ℕ, ◌<◌, Contains, IfOk, Some, length, option_to_list};
ghost use Rattle.std.specs.Prelude.{slice_get};
ghost use Rattle.base_notes.specs.declared.times.Times as tables;
ghost use Rattle.flow_graph.specs.Executed.{AreAllNodes};
ghost use Rattle.flow_graph.specs.Flow.{deck_of, executed_in, nodes_of, notes_of, of_flow, AreFound};
ghost use Rattle.flow_graph.specs.Hops.{Node};
ghost use Rattle.flow_graph.specs.SettingOf.{setting};
ghost use Rattle.ceiling_rows.specs.Rows.{AreRows};
ghost use Rattle.ceiling_rows.specs.SiteRows.{AreSiteRows, EndWithin, HasAllOnward};
ghost use Rattle.ceiling_rows.specs.SiteRows.{HasOnward, IsMadeOf};
ghost use Rattle.ceiling_rows.specs.Sites.{sites_in, AreSites};

use crate::row::{Edge, Row};
use crate::sites::{Site, Sites};
use crate::slot::Slot;
use base_words::Location;
use flow_graph::{Flow, Hop};
use std::alloc::{AllocError, Global};

/// The hops that lead from one site to another.
#[derive(Clone, Copy)]
pub struct SiteEdge {
    /// The number of the site that they lead to.
    pub onto: usize,
    /// The most word times that they take, from when the one instruction is found to when the other
    /// is.
    pub time: u32,
    /// The most until one of them ends, and 49 more.
    pub stop: u32,
    /// The index of the mark that stands on the edge of their locations.
    pub mark: Option<u8>,
    /// One of them that takes the most word times.
    pub hop: Hop,
}

/// What the hops from a site take at most.
#[derive(Drop)]
pub struct SiteRow {
    /// The location of the site's node.
    pub location: Location,
    /// The most word times until one of them ends that leads nowhere, or along an edge without a
    /// mark, and 49 more; 0 of none.
    pub stop: u32,
    /// One of those that ends last.
    pub last: Option<Hop>,
    /// Where they lead.
    pub edges: Vec<SiteEdge>,
}

impl SiteRow {
    ghost use Rattle.std.specs.Prelude.{◌≤◌};

    /// The row with these edges, of a site of a location with this row.
    fn of(location: Location, row: &Row, edges: Vec<SiteEdge>) -> SiteRow
        ensures own { row.now.stop ≤ result.stop }
        ensures within { EndWithin result.stop result.edges.items }
        ensures edges { result.edges.items ≡ edges.items }
    {
        let mut stop = row.stop;
        let mut last = row.last;
        for edge in &edges {
            if edge.mark.is_none() && stop < edge.stop {
                stop = edge.stop;
                last = Some(edge.hop);
            }
        }
        SiteRow {
            location,
            stop,
            last,
            edges,
        }
    }
}

/// The edge from a node that an edge of its location's row stands for; `None` where no step may go
/// along it.
fn site_edge(flow: &Flow<'_>, sites: &Sites, node: usize, edge: &Edge) -> Option<SiteEdge>
    requires { node < length (nodes_of flow.now) }
    ensures { (from : Node) → slice_get (nodes_of flow.now) node ≡ Some from
        → HasOnward (notes_of flow.now) (nodes_of flow.now) (sites_in sites.now) from edge.now
        (option_to_list result) }
{
    let next = flow.onward(node, edge.onto.location())?;
    let onto = sites.number(next, edge.onto.angle())?;
    Some(SiteEdge {
        onto,
        time: edge.time,
        stop: edge.stop,
        mark: edge.mark,
        hop: edge.hop,
    })
}

/// The edges from a node that those of its location's row stand for.
fn site_edges(
    alloc: Global,
    flow: &Flow<'_>,
    sites: &Sites,
    node: usize,
    edges: &[Edge],
) -> Result<Vec<SiteEdge>, AllocError>
    requires { node < length (nodes_of flow.now) }
    ensures { IfOk result (λ made. (from : Node) → slice_get (nodes_of flow.now) node ≡ Some from
        → HasAllOnward (notes_of flow.now) (nodes_of flow.now) (sites_in sites.now) from edges.now
        made.items) }
{
    let mut made = Vec::new(alloc);
    for edge in edges {
        if let Some(edge) = site_edge(flow, sites, node, edge) {
            made.push(edge)?;
        }
    }
    Ok(made)
}

/// The row of a site, by that of its location at its angle.
fn site_row(
    alloc: Global,
    flow: &Flow<'_>,
    sites: &Sites,
    site: Site,
    rows: &[Option<Row>],
) -> Result<SiteRow, AllocError>
    requires { site.node < length (nodes_of flow.now) }
    ensures { IfOk result (IsMadeOf (notes_of flow.now) (nodes_of flow.now) (sites_in sites.now)
        rows.now site) }
{
    let location = flow.location(site.node);
    let slot = Slot::of(location, site.angle);
    let Some(Some(row)) = rows.get(usize::from(slot.number)) else {
        return Ok(SiteRow {
            location,
            stop: 0,
            last: None,
            edges: Vec::new(alloc),
        });
    };
    let edges = site_edges(alloc, flow, sites, site.node, &row.edges)?;
    Ok(SiteRow::of(location, row, edges))
}

/// The rows of all sites, by those of the executed locations.
pub fn site_rows(
    alloc: Global,
    flow: &Flow<'_>,
    sites: &Sites,
    rows: &[Option<Row>],
) -> Result<Vec<SiteRow>, AllocError>
    requires nodes { of_flow AreAllNodes flow.now (nodes_of flow.now) }
    requires found { of_flow AreFound flow.now (executed_in flow.now) }
    requires sites { AreSites (nodes_of flow.now) (sites_in sites.now) }
    ensures { IfOk result (λ made. (times : tables.Times)
        → AreRows (setting (deck_of flow.now) times (notes_of flow.now)) (executed_in flow.now)
        rows.now → AreSiteRows (setting (deck_of flow.now) times (notes_of flow.now))
        (nodes_of flow.now) (sites_in sites.now) made.items) }
{
    let mut made = Vec::new(alloc);
    for number in 0..sites.len() {
        let row = site_row(alloc, flow, sites, sites.at(number), rows)?;
        made.push(row)?;
    }
    Ok(made)
}
