//! The loops of a plan in one another. Each is opened at a mark on it: without that mark's edges no
//! way around it is left but those of the loops inside.

use crate::marks::{Marks, bit_of};
use crate::opening::Opener;
use crate::places::{Kind, Places};
use crate::plan::Plan;
use crate::strong::parts_of;
use std::alloc::{AllocError, Global};

/// How many loops are opened at most.
const MOST: usize = 4_000;

/// A loop.
#[derive(Drop)]
pub struct Loop {
    /// The mark at which it is opened.
    pub mark: u8,
    /// The kinds in it that are in no loop further in.
    pub own: Vec<usize>,
    /// The loops right inside of it.
    pub inner: Vec<usize>,
    /// The kinds of the loop around it that lead into it.
    pub enter: Vec<usize>,
}

/// The loops, the outer ones first.
#[derive(Drop)]
pub struct Loops {
    alloc: Global,
    pub list: Vec<Loop>,
    /// By kind, the loops that it is in, the outermost first.
    pub chains: Vec<Vec<usize>>,
    /// By place, the same.
    pub inside: Vec<Vec<usize>>,
}

impl Loops {
    /// Those of the edges between all places.
    pub fn of<'a>(
        alloc: Global,
        places: &'a Places,
        marks: &'a Marks,
        plan: &'a Plan,
    ) -> Result<Loops, AllocError> {
        let mut opening = Opening {
            alloc,
            places,
            opener: Opener { marks, plan },
            loops: Loops::none(alloc, places)?,
            left: Vec::new(alloc),
        };
        opening.left.push(open_kinds(alloc, places, marks)?)?;
        for _ in 0..MOST {
            let Some(kinds) = opening.left.pop() else {
                break;
            };
            opening.open(&kinds)?;
        }
        let Opening { mut loops, .. } = opening;
        loops.tell_own()?;
        loops.tell_inner()?;
        loops.tell_entries(places)?;
        Ok(loops)
    }

    /// No loop.
    fn none(alloc: Global, places: &Places) -> Result<Loops, AllocError> {
        let mut chains = Vec::new(alloc);
        for _ in &places.kinds {
            chains.push(Vec::new(alloc))?;
        }
        let mut inside = Vec::new(alloc);
        for _ in 0..places.count {
            inside.push(Vec::new(alloc))?;
        }
        Ok(Loops {
            alloc,
            list: Vec::new(alloc),
            chains,
            inside,
        })
    }

    /// Tells each loop which kinds are in none further in.
    fn tell_own(&mut self) -> Result<(), AllocError> {
        for (kind, chain) in self.chains.iter().enumerate() {
            if let Some(innermost) = chain.last()
                && let Some(own) = self.list.get_mut(*innermost)
            {
                own.own.push(kind)?;
            }
        }
        Ok(())
    }

    /// Tells each loop which loops are right inside of it.
    fn tell_inner(&mut self) -> Result<(), AllocError> {
        let mut is_told = vec![in self.alloc; false; self.list.len()]?;
        for chain in &self.chains {
            for (outer, inner) in chain.iter().zip(chain.iter().skip(1)) {
                if let Some(own) = is_told.get_mut(*inner)
                    && !*own
                    && let Some(one) = self.list.get_mut(*outer)
                {
                    *own = true;
                    one.inner.push(*inner)?;
                }
            }
        }
        Ok(())
    }

    /// Tells each loop which kinds lead into it from the one around it.
    fn tell_entries(&mut self, places: &Places) -> Result<(), AllocError> {
        for (number, kind) in places.kinds.iter().enumerate() {
            if let Some(entered) = self.entered_by(number, kind.onto)
                && let Some(one) = self.list.get_mut(entered)
            {
                one.enter.push(number)?;
            }
        }
        Ok(())
    }

    /// The loop right inside of a kind's innermost one that the kind leads into.
    fn entered_by(&self, kind: usize, onto: usize) -> Option<usize> {
        let depth = self.chain(kind).len();
        self.around(onto).get(depth).copied()
    }

    /// The loops that a kind is in, the outermost first.
    pub fn chain(&self, kind: usize) -> &[usize] {
        match self.chains.get(kind) {
            Some(chain) => chain.as_slice(),
            None => &[],
        }
    }

    /// The loops that a place is in, the outermost first.
    pub fn around(&self, place: usize) -> &[usize] {
        match self.inside.get(place) {
            Some(loops) => loops.as_slice(),
            None => &[],
        }
    }

    /// The innermost loop that a kind is in.
    pub fn home(&self, kind: usize) -> Option<usize> {
        self.chain(kind).last().copied()
    }

    /// The outermost of a kind's loops that are opened at this mark.
    pub fn opened_at(&self, kind: usize, mark: u8) -> Option<usize> {
        for number in self.chain(kind) {
            if self.list.get(*number).is_some_and(|one| one.mark == mark) {
                return Some(*number);
            }
        }
        None
    }
}

/// Loops while they are opened.
#[derive(Drop)]
struct Opening<'a> {
    alloc: Global,
    places: &'a Places,
    opener: Opener<'a>,
    loops: Loops,
    /// Kinds whose loops are to be opened, those of each loop together.
    left: Vec<Vec<usize>>,
}

impl Opening<'_> {
    /// Opens the loops among some kinds.
    fn open(&mut self, kinds: &[usize]) -> Result<(), AllocError> {
        let mut edges: Vec<Kind> = Vec::new(self.alloc);
        for number in kinds {
            if let Some(kind) = self.places.kind(*number) {
                edges.push(kind)?;
            }
        }
        let parts = parts_of(self.alloc, self.places.count, &edges)?;
        let groups = self.groups(kinds, &parts)?;
        for group in groups {
            if let Some(mark) = self.opener.mark_of(self.alloc, self.places, &group)? {
                self.add(mark, group)?;
            }
        }
        Ok(())
    }

    /// The kinds that stay within one part, those of each part together.
    fn groups(
        &self,
        kinds: &[usize],
        parts: &[Option<usize>],
    ) -> Result<Vec<Vec<usize>>, AllocError> {
        let mut groups: Vec<Vec<usize>> = Vec::new(self.alloc);
        let mut of_parts: Vec<Option<usize>> = vec![in self.alloc; None; parts.len()]?;
        for number in kinds {
            if let Some(part) = self.part_of(*number, parts)
                && let Some(group) = of_parts.get_mut(part)
            {
                let index = group.unwrap_or(groups.len());
                *group = Some(index);
                if index >= groups.len() {
                    groups.push(Vec::new(self.alloc))?;
                }
                if let Some(own) = groups.get_mut(index) {
                    own.push(*number)?;
                }
            }
        }
        Ok(groups)
    }

    /// The part that a kind stays within.
    fn part_of(&self, kind: usize, parts: &[Option<usize>]) -> Option<usize> {
        let kind = self.places.kind(kind)?;
        let from = (*parts.get(kind.from)?)?;
        let onto = (*parts.get(kind.onto)?)?;
        if from == onto { Some(from) } else { None }
    }

    /// Adds a loop that is opened at a mark; what is left of it is opened later.
    fn add(&mut self, mark: u8, group: Vec<usize>) -> Result<(), AllocError> {
        let number = self.loops.list.len();
        let mut left = Vec::new(self.alloc);
        for kind in &group {
            if let Some(chain) = self.loops.chains.get_mut(*kind) {
                chain.push(number)?;
            }
            if let Some(one) = self.places.kind(*kind) {
                self.stand(one.from, number)?;
                if one.mark != Some(mark) {
                    left.push(*kind)?;
                }
            }
        }
        self.left.push(left)?;
        self.loops.list.push(Loop {
            mark,
            own: Vec::new(self.alloc),
            inner: Vec::new(self.alloc),
            enter: Vec::new(self.alloc),
        })?;
        Ok(())
    }

    /// A place stands in a loop, which is the last so far.
    fn stand(&mut self, place: usize, number: usize) -> Result<(), AllocError> {
        if let Some(loops) = self.loops.inside.get_mut(place)
            && loops.last().copied() != Some(number)
        {
            loops.push(number)?;
        }
        Ok(())
    }
}

/// The kinds that may be taken.
fn open_kinds(alloc: Global, places: &Places, marks: &Marks) -> Result<Vec<usize>, AllocError> {
    let mut open = Vec::new(alloc);
    for (number, kind) in places.kinds.iter().enumerate() {
        let most = match kind.mark {
            Some(mark) => marks.at(mark).map_or(0, |standing| standing.most),
            None => 1,
        };
        if most > 0 {
            open.push(number)?;
        }
    }
    Ok(open)
}

/// The marks of some kinds, a bit of each.
pub fn bits_of(places: &Places, kinds: &[usize]) -> u64 {
    let mut bits = 0;
    for number in kinds {
        if let Some(kind) = places.kind(*number) {
            bits |= kind.mark.map_or(0, bit_of);
        }
    }
    bits
}
