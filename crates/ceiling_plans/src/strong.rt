//! Parts of a graph from each of whose places ways lead to all others of it.

use crate::places::Kind;
use std::alloc::{AllocError, Global};

/// A list of edges for each place: the last one, and before each edge another.
#[derive(Drop)]
struct Lists {
    last: Vec<Option<usize>>,
    before: Vec<Option<usize>>,
}

impl Lists {
    /// Without edges.
    fn none(alloc: Global, places: usize) -> Result<Lists, AllocError> {
        Ok(Lists {
            last: vec![in alloc; None; places]?,
            before: Vec::new(alloc),
        })
    }

    /// Adds the next edge to the list of a place.
    fn add(&mut self, place: usize) -> Result<(), AllocError> {
        let edge = self.before.len();
        let mut before = None;
        if let Some(last) = self.last.get_mut(place) {
            before = *last;
            *last = Some(edge);
        }
        self.before.push(before)?;
        Ok(())
    }

    /// The last edge of a place.
    fn last_of(&self, place: usize) -> Option<usize> {
        match self.last.get(place) {
            Some(edge) => *edge,
            None => None,
        }
    }

    /// The edge before this one.
    fn before(&self, edge: usize) -> Option<usize> {
        match self.before.get(edge) {
            Some(before) => *before,
            None => None,
        }
    }
}

/// A place that is gone through, with the edge that is next.
#[derive(Clone, Copy)]
struct Open {
    place: usize,
    next: Option<usize>,
}

/// The search for the parts.
#[derive(Drop)]
struct Parting<'a> {
    edges: &'a [Kind],
    onward: Lists,
    backward: Lists,
    is_seen: Vec<bool>,
    open: Vec<Open>,
    /// The places in the order in which they were left.
    left: Vec<usize>,
    parts: Vec<Option<usize>>,
}

/// By place, the part that it belongs to: one of the part's places. None of those that no edge
/// touches.
pub fn parts_of(
    alloc: Global,
    places: usize,
    edges: &[Kind],
) -> Result<Vec<Option<usize>>, AllocError> {
    let mut onward = Lists::none(alloc, places)?;
    let mut backward = Lists::none(alloc, places)?;
    for edge in edges {
        onward.add(edge.from)?;
        backward.add(edge.onto)?;
    }
    let mut parting = Parting {
        edges,
        onward,
        backward,
        is_seen: vec![in alloc; false; places]?,
        open: Vec::new(alloc),
        left: Vec::new(alloc),
        parts: vec![in alloc; None; places]?,
    };
    parting.leave_all()?;
    parting.part_all()?;
    let Parting { parts, .. } = parting;
    Ok(parts)
}

impl Parting<'_> {
    /// Goes through all places that edges begin at or lead to.
    fn leave_all(&mut self) -> Result<(), AllocError> {
        for edge in self.edges {
            self.leave_from(edge.from)?;
            self.leave_from(edge.onto)?;
        }
        Ok(())
    }

    /// Goes through all places to which ways lead from one, each left behind those that it leads
    /// to.
    fn leave_from(&mut self, place: usize) -> Result<(), AllocError> {
        self.meet(place)?;
        let steps = self.edges.len().saturating_add(self.is_seen.len());
        for _ in 0..=steps {
            let Some(inside) = self.open.pop() else {
                break;
            };
            let Some(edge) = inside.next else {
                self.left.push(inside.place)?;
                continue;
            };
            self.open.push(Open {
                place: inside.place,
                next: self.onward.before(edge),
            })?;
            if let Some(onto) = self.onto(edge) {
                self.meet(onto)?;
            }
        }
        Ok(())
    }

    /// Where an edge leads.
    fn onto(&self, edge: usize) -> Option<usize> {
        Some(self.edges.get(edge)?.onto)
    }

    /// Meets a place, if it wasn't seen before.
    fn meet(&mut self, place: usize) -> Result<(), AllocError> {
        if let Some(is_seen) = self.is_seen.get_mut(place)
            && !*is_seen
        {
            *is_seen = true;
            let next = self.onward.last_of(place);
            self.open.push(Open { place, next })?;
        }
        Ok(())
    }

    /// Tells all places their parts, those that were left last first.
    fn part_all(&mut self) -> Result<(), AllocError> {
        for index in (0..self.left.len()).rev() {
            if let Some(place) = self.left.get(index).copied() {
                self.part_from(place)?;
            }
        }
        Ok(())
    }

    /// The part of a place, if it has none yet: from where ways lead to it.
    fn part_from(&mut self, place: usize) -> Result<(), AllocError> {
        self.join(place, place)?;
        for _ in 0..self.is_seen.len() {
            let Some(inside) = self.open.pop() else {
                break;
            };
            self.join_before(inside.place, place)?;
        }
        Ok(())
    }

    /// Joins the places from which edges lead to one.
    fn join_before(&mut self, place: usize, part: usize) -> Result<(), AllocError> {
        let mut next = self.backward.last_of(place);
        for _ in 0..self.edges.len() {
            let Some(edge) = next else {
                break;
            };
            let from = self.edges.get(edge).map_or(place, |edge| edge.from);
            self.join(from, part)?;
            next = self.backward.before(edge);
        }
        Ok(())
    }

    /// Joins a place to a part, if it has none yet.
    fn join(&mut self, place: usize, part: usize) -> Result<(), AllocError> {
        if let Some(own) = self.parts.get_mut(place)
            && own.is_none()
        {
            *own = Some(part);
            self.open.push(Open { place, next: None })?;
        }
        Ok(())
    }
}
