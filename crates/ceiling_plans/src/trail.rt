//! The pieces of a walk while it is strung together, with what of the plan each has taken.

use ceiling_pieces::{Laying, Step};
use flow_walks::Piece;
use std::alloc::{AllocError, Global};

/// How often a kind was taken.
#[derive(Clone, Copy)]
pub struct Taken {
    pub kind: usize,
    pub times: i128,
}

/// A piece of the trail.
#[derive(Clone, Copy)]
struct Strung {
    piece: usize,
    /// How many entries of what was taken stand before its own.
    taken: usize,
}

/// The best end so far.
#[derive(Clone, Copy)]
struct End {
    time: u128,
    /// How many pieces stand before it.
    pieces: usize,
    /// The last step, and the angle at which it begins; none, where the pieces are all.
    last: Option<Step>,
    angle: u64,
}

/// The pieces so far, and the best end.
#[derive(Drop)]
pub struct Trail<'a> {
    alloc: Global,
    laying: Laying<'a>,
    pieces: Vec<Strung>,
    taken: Vec<Taken>,
    /// By kind, a sum that is made, else 0.
    sums: Vec<i128>,
    /// The drum's angle at the end.
    pub angle: u64,
    best: Option<End>,
}

impl<'a> Trail<'a> {
    /// None yet; the first one begins at an angle.
    pub fn new(
        alloc: Global,
        laying: Laying<'a>,
        kinds: usize,
        angle: u64,
    ) -> Result<Trail<'a>, AllocError> {
        Ok(Trail {
            alloc,
            laying,
            pieces: Vec::new(alloc),
            taken: Vec::new(alloc),
            sums: vec![in alloc; 0; kinds]?,
            angle,
            best: None,
        })
    }

    /// How many pieces there are.
    pub fn len(&self) -> usize {
        self.pieces.len()
    }

    /// Adds a step, and what it takes of the plan, if it does. Whether there is room for it.
    pub fn add(&mut self, step: Step, kind: Option<usize>) -> Result<bool, AllocError> {
        let Some(laid) = self.laying.step(step, self.angle)? else {
            return Ok(false);
        };
        self.pieces.push(Strung {
            piece: laid.piece,
            taken: self.taken.len(),
        })?;
        if let Some(kind) = kind {
            self.taken.push(Taken { kind, times: 1 })?;
        }
        self.angle = laid.angle;
        Ok(true)
    }

    /// What the pieces behind so many have taken, each kind once.
    pub fn taken_since(&mut self, pieces: usize) -> Result<Vec<Taken>, AllocError> {
        let first = match self.pieces.get(pieces) {
            Some(strung) => strung.taken,
            None => self.taken.len(),
        };
        let mut kinds = Vec::new(self.alloc);
        for taken in self.taken.iter().skip(first) {
            if let Some(sum) = self.sums.get_mut(taken.kind) {
                if *sum == 0 {
                    kinds.push(taken.kind)?;
                }
                *sum = sum.saturating_add(taken.times);
            }
        }
        self.summed(&kinds)
    }

    /// The sums of these kinds; they are 0 then.
    fn summed(&mut self, kinds: &[usize]) -> Result<Vec<Taken>, AllocError> {
        let mut all = Vec::new(self.alloc);
        for kind in kinds {
            if let Some(sum) = self.sums.get_mut(*kind) {
                all.push(Taken {
                    kind: *kind,
                    times: *sum,
                })?;
                *sum = 0;
            }
        }
        Ok(all)
    }

    /// Puts so many rounds of the pieces behind some in their place, which take as much each time.
    /// Whether there is room for that.
    pub fn close(
        &mut self,
        pieces: usize,
        times: u16,
        taken: &[Taken],
    ) -> Result<bool, AllocError> {
        let mut names = Vec::new(self.alloc);
        for strung in self.pieces.iter().skip(pieces) {
            names.push(strung.piece)?;
        }
        let Some(round) = self.laying.row(names, self.angle)? else {
            return Ok(false);
        };
        let Some(rounds) = self.laying.rounds(times, round)? else {
            return Ok(false);
        };
        if let Some(strung) = self.pieces.get(pieces) {
            self.taken.truncate(strung.taken);
        }
        self.pieces.truncate(pieces);
        self.pieces.push(Strung {
            piece: rounds.piece,
            taken: self.taken.len(),
        })?;
        for one in taken {
            self.taken.push(Taken {
                kind: one.kind,
                times: one.times.saturating_mul(i128::from(times)),
            })?;
        }
        Ok(true)
    }

    /// Takes an end with a last step, if it comes later than the best so far.
    pub fn end_by(&mut self, time: u128, step: Step) {
        if self.time() < time {
            self.best = Some(End {
                time,
                pieces: self.pieces.len(),
                last: Some(step),
                angle: self.angle,
            });
        }
    }

    /// Takes the end of the last piece for the best one.
    pub fn end_here(&mut self, time: u128) {
        self.best = Some(End {
            time,
            pieces: self.pieces.len(),
            last: None,
            angle: self.angle,
        });
    }

    /// The time of the best end.
    pub fn time(&self) -> u128 {
        self.best.map_or(0, |end| end.time)
    }

    /// The pieces up to the best end; none, where there is none.
    pub fn finish(mut self) -> Result<Vec<Piece>, AllocError> {
        let Some(end) = self.best else {
            return Ok(Vec::new(self.alloc));
        };
        let mut names = Vec::new(self.alloc);
        for strung in self.pieces.iter().take(end.pieces) {
            names.push(strung.piece)?;
        }
        if let Some(step) = end.last
            && let Some(laid) = self.laying.step(step, end.angle)?
        {
            names.push(laid.piece)?;
        }
        let whole = self.laying.row(names, end.angle)?;
        match whole {
            Some(laid) => self.laying.finish(laid.piece),
            None => Ok(Vec::new(self.alloc)),
        }
    }
}
