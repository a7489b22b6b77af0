//! The regions of the marks: the sites on a way from where a pass of a mark leads back to its edge,
//! along edges without the mark and without those that it stands inside of. All marks are looked at
//! together, each by its bit.

use crate::by_site::Bits;
use crate::marks::{Marks, bit_of};
use crate::reached::Reached;
use ceiling_rows::{SiteEdge, SiteRow};
use std::alloc::{AllocError, Global};

/// By site, the marks in whose region it is.
pub fn regions_of(
    alloc: Global,
    reached: &Reached<'_>,
    marks: &Marks,
    leads: &Bits,
) -> Result<Bits, AllocError> {
    let mut regions = behind_passes(alloc, reached, marks)?;
    let before = before_passes(alloc, reached, marks, leads)?;
    for site in &reached.order {
        regions.keep(*site, before.at(*site));
    }
    Ok(regions)
}

/// By site, the marks whose edges lead there.
pub fn leads_of(alloc: Global, reached: &Reached<'_>, marks: &Marks) -> Result<Bits, AllocError> {
    let mut leads = Bits::none(alloc, reached.count())?;
    for site in &reached.order {
        if let Some(row) = reached.row(*site) {
            lead(&mut leads, marks, row);
        }
    }
    Ok(leads)
}

/// Tells the sites to which edges with marks of a row lead.
fn lead(leads: &mut Bits, marks: &Marks, row: &SiteRow) {
    for edge in &row.edges {
        if let Some(mark) = edge.mark
            && marks.lets(edge)
        {
            let _ = leads.add(edge.onto, bit_of(mark));
        }
    }
}

/// By site, the marks from behind whose edges ways come there.
fn behind_passes(alloc: Global, reached: &Reached<'_>, marks: &Marks) -> Result<Bits, AllocError> {
    let mut behind = leads_of(alloc, reached, marks)?;
    for _ in &reached.order {
        if !spread_onward(&mut behind, reached, marks) {
            break;
        }
    }
    Ok(behind)
}

/// Spreads marks along all edges. Whether one went back by the order, so that more may follow.
fn spread_onward(behind: &mut Bits, reached: &Reached<'_>, marks: &Marks) -> bool {
    let mut has_more = false;
    for site in &reached.order {
        if let Some(row) = reached.row(*site) {
            has_more |= spread_from(behind, marks, *site, row);
        }
    }
    has_more
}

/// Spreads the marks of a site along its edges. Whether an edge with a mark brought some that are
/// new.
fn spread_from(behind: &mut Bits, marks: &Marks, site: usize, row: &SiteRow) -> bool {
    let some = behind.at(site);
    let mut has_more = false;
    for edge in &row.edges {
        if some != 0 && marks.lets(edge) {
            let is_new = behind.add(edge.onto, some & marks.going_on(edge));
            has_more |= is_new && edge.mark.is_some();
        }
    }
    has_more
}

/// By site, the marks to whose edges ways lead from there.
fn before_passes(
    alloc: Global,
    reached: &Reached<'_>,
    marks: &Marks,
    leads: &Bits,
) -> Result<Bits, AllocError> {
    let mut before = Bits::none(alloc, reached.count())?;
    for _ in &reached.order {
        if !gather_all(&mut before, reached, marks, leads) {
            break;
        }
    }
    Ok(before)
}

/// Gathers marks at all sites from where their edges lead. Whether there are new ones at a site
/// that an edge with a mark leads to, so that more may follow.
fn gather_all(before: &mut Bits, reached: &Reached<'_>, marks: &Marks, leads: &Bits) -> bool {
    let mut has_more = false;
    for site in reached.order.iter().rev() {
        if let Some(row) = reached.row(*site) {
            let is_new = before.add(*site, gathered(before, marks, row));
            has_more |= is_new && leads.at(*site) != 0;
        }
    }
    has_more
}

/// The marks of a row's edges, and those of where its edges lead that may come back by them.
fn gathered(before: &Bits, marks: &Marks, row: &SiteRow) -> u64 {
    let mut some = 0;
    for edge in &row.edges {
        if marks.lets(edge) {
            some |= own(edge) | before.at(edge.onto) & marks.going_on(edge);
        }
    }
    some
}

/// The bit of an edge's mark, if it has one.
fn own(edge: &SiteEdge) -> u64 {
    edge.mark.map_or(0, bit_of)
}
