//! The edges from a location, in the order of the numbers of where they lead.

ghost use Rattle.std.specs.Prelude.{◌≡◌, ◌+◌, ◌*◌, ◌<◌, ◌≤◌, length, Contains, IfOk};
ghost use Rattle.base_notes.specs.Marks.{mark_on};
ghost use Rattle.ceiling_rows.specs.declared.row.Edge as one;
ghost use Rattle.ceiling_rows.specs.Rows.{HasEdges, HasEdgesOf};

use crate::raised::{BAND, BANDS, Onward, Raised};
use crate::row::Edge;
use crate::slot::Slot;
use base_notes::Mark;
use base_words::Location;
use std::alloc::{AllocError, Global};

/// The index of the mark on an edge.
fn mark_between(marks: &[Mark], from: Location, onto: Location) -> Option<u8>
    requires { length marks.now ≤ 64 }
    ensures { result ≡ mark_on marks.now from.number onto.number }
{
    match Mark::on_edge(marks, from, onto) {
        Some(place) => Some(place as u8),
        None => None,
    }
}

/// Adds the edges to where hops stand at the numbers of a band.
fn add_band(
    edges: &mut Vec<Edge>,
    marks: &[Mark],
    from: Location,
    onward: &[Option<Onward>],
    band: usize,
) -> Result<(), AllocError>
    requires few { length marks.now ≤ 64 }
    requires long { length onward.now ≡ 2200 }
    requires within { band < 44 }
    ensures added { IfOk result (λ done. HasEdgesOf marks.now from.number onward.now (band * 50)
        (band * 50 + 50) edges.new.items) }
    ensures kept { IfOk result (λ done. (edge : one.Edge) → Contains edges.old.items edge
        → Contains edges.new.items edge) }
{
    let start = band * BAND;
    for number in start..start + BAND {
        let Some(hop) = onward[number] else {
            continue;
        };
        let onto = Slot {
            number: number as u16,
        };
        edges.push(Edge {
            onto,
            time: hop.time,
            stop: hop.stop,
            mark: mark_between(marks, from, onto.location()),
            hop: hop.hop,
        })?;
    }
    Ok(())
}

/// The edges from a location to where the hops lead that were looked at.
pub fn edges_of(
    alloc: Global,
    marks: &[Mark],
    from: Location,
    raised: &Raised,
) -> Result<Vec<Edge>, AllocError>
    requires { length marks.now ≤ 64 }
    ensures { IfOk result (λ edges.
        HasEdges marks.now from.number raised.now.onward.items edges.items) }
{
    let mut edges = Vec::new(alloc);
    for band in 0..BANDS {
        if !raised.bands[band] {
            continue;
        }
        add_band(&mut edges, marks, from, &raised.onward, band)?;
    }
    Ok(edges)
}
