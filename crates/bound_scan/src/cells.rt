//! What is kept at the keys: the table of worst times while it is raised.

ghost use Rattle.std.specs.Prelude.{◌≡◌, ◌+◌, ◌*◌, ◌/◌, ◌≤◌, ◌<◌, ◌^◌};
ghost use Rattle.bound_scan.specs.InEntries.{keys_in};

mod entries;
mod key_hasher;
mod limited;

use crate::latest::Latest;
use crate::scan::steps::end::End;
use crate::worst::Worst;
use base_words::Location;
use entries::Entries;
use std::alloc::{AllocError, Global};

/// Where a hop that no full mark bars goes on.
#[derive(Clone, Copy)]
pub struct Onto {
    pub key: usize,
    /// The number of the key's counts, with the first mark's leading.
    pub round: usize,
    /// The key's location.
    pub location: Location,
    /// The number of the key's counts in the table.
    pub counts: u32,
}

/// The latest end at each key, of the hops that lead there, or the moment of the start; and the
/// latest of all that no full mark bars. Where something is kept, an entry of the table of worst
/// times holds it: the table is handed out as it was raised.
///
/// What raises is the end of a hop, which is spent by it.
#[derive(Drop)]
pub struct Cells {
    entries: Entries,
    /// Whether something is kept at a key of a round, by the rounds' numbers.
    rounds: Vec<bool>,
    last: Latest,
    /// How many executed locations there are, and how many counts the marks can have.
    words: usize,
    counts: usize,
    /// There are as many keys as locations times counts, and never more entries.
    ghost keys: { keys_in entries ≡ counts * words },
}

impl Cells {
    ghost use Rattle.std.specs.Prelude.{ℕ, List, MatchOption, false, replicate, set, option_map};
    ghost use Rattle.std.specs.Prelude.{Some, None, IfOk, OnOk};
    ghost use Rattle.std.specs.Map.{values_of};
    ghost use Rattle.bound_scan.specs.InEntries.{pairs_of};
    ghost use Rattle.bound_scan.specs.InCells.{AreHeld, HaveEntries, IsOnward, SameScan};
    ghost use Rattle.bound_scan.specs.InCells.{kept_in, size_of};
    ghost use Rattle.bound_scan.specs.Scanned.{cell_at, later, raised};
    ghost use Rattle.bound_scan.specs.EndOf.{latest_in};
    ghost use Rattle.bound_scan.specs.SearchOf.{KeepsAt};

    /// The cells of `words` executed locations and `counts` counts: the start's key keeps the
    /// moment of the start, at this angle, and no other keeps anything.
    pub fn new(
        alloc: Global,
        words: usize,
        counts: usize,
        start_key: usize,
        start: Location,
        angle: u64,
    ) -> Result<Cells, AllocError>
        requires there { start_key < counts * words }
        requires few { counts * words ≤ 4000000 }
        requires on_drum { angle < 50 }
        ensures held { IfOk result AreHeld }
        ensures kept { IfOk result (λ cells.
            kept_in cells ≡ set (replicate (counts * words) None) start_key (Some (record {
              clock
                  = angle;
              origin = None;
            }))) }
        ensures last { IfOk result (λ cells. cells.last ≡ record { clock = angle; origin = None }) }
        ensures entries { IfOk result (λ cells. (place_of counts_of : ℕ → ℕ)
            → start.number ≡ place_of start_key → 0 ≡ counts_of start_key
            → HaveEntries place_of counts_of cells) }
        ensures angle { IfOk result (λ cells. cells.entries.angle ≡ angle) }
        ensures words { IfOk result (λ cells. cells.words ≡ words) }
        ensures counts { IfOk result (λ cells. cells.counts ≡ counts) }
    {
        let mut rounds = vec![in alloc; false; counts]?;
        rounds[start_key / words] = true;
        let keys = counts * words;
        let entries = Entries::new(alloc, keys, start_key as u32, start, angle)?;
        let last = Latest {
            clock: angle,
            origin: None,
        };
        Ok(Cells {
            entries,
            rounds,
            last,
            words,
            counts,
        })
    }

    /// What is kept at a key, with the index of its entry, which is looked for near this one first;
    /// `None` where nothing is.
    pub fn kept_at(&self, key: usize, near: usize) -> Option<(usize, Latest)>
        requires held { AreHeld self.now }
        requires there { key < size_of self.now }
        ensures { option_map (λ kept. kept.1) result ≡ cell_at (kept_in self.now) key }
    {
        self.entries.kept_at(key as u32, near)
    }

    /// The entries: one of each key at which something is kept. All else that is kept is given up.
    pub fn into_table(self, alloc: Global) -> Result<Vec<Worst>, AllocError>
        ensures { IfOk result (λ table. table.items ≡ values_of (pairs_of self.entries)) }
    {
        self.entries.into_table(alloc)
    }

    /// The latest end of all that no full mark bars; before there is one, the moment of the start.
    pub fn last(&self) -> Latest
        ensures { result ≡ self.now.last }
    {
        self.last
    }

    /// The start angle, 0 to 49.
    pub fn angle(&self) -> u64
        ensures { result ≡ self.now.entries.angle }
    {
        self.entries.angle()
    }

    /// How many executed locations there are.
    pub fn words(&self) -> usize
        ensures { result ≡ self.now.words }
    {
        self.words
    }

    /// How many counts the marks can have.
    pub fn counts(&self) -> usize
        ensures { result ≡ self.now.counts }
    {
        self.counts
    }

    /// The clock that a key keeps; `None` where nothing is.
    pub fn clock_at(&self, key: usize) -> Option<u64>
        requires held { AreHeld self.now }
        requires there { key < size_of self.now }
        ensures { MatchOption result (cell_at (kept_in self.now) key ≡ None) (λ clock.
            KeepsAt (kept_in self.now) key clock) }
    {
        self.entries.clock_at(key as u32)
    }

    /// Whether something is kept at a key of the round of this number.
    pub fn keeps_any(&self, round: usize) -> bool
        requires held { AreHeld self.now }
        requires there { round < self.now.counts }
        ensures { result ≡ false → (key : ℕ) → key < size_of self.now
            → key / self.now.words ≡ round → cell_at (kept_in self.now) key ≡ None }
    {
        self.rounds[round]
    }

    /// Spends the end of a hop that goes on: it is kept where it is later than what is kept at the
    /// key onto which the hop leads, and of all.
    #[inline(always)]
    pub fn raise(&mut self, end: End, onto: &Onto) -> Result<(), AllocError>
        requires held { AreHeld self.old }
        requires onward { IsOnward self.old end.origin.key onto.now }
        requires after { self.old.entries.angle ≤ end.clock }
        ensures held { OnOk result (AreHeld self.new) }
        ensures kept { OnOk result (kept_in self.new
            ≡ raised (kept_in self.old) onto.now.key (latest_in end)) }
        ensures last { OnOk result (self.new.last ≡ later self.old.last (latest_in end)) }
        ensures entries { OnOk result ((place_of counts_of : ℕ → ℕ)
            → onto.now.location.number ≡ place_of onto.now.key
            → onto.now.counts ≡ counts_of onto.now.key
            → HaveEntries place_of counts_of self.old → HaveEntries place_of counts_of self.new) }
        ensures same { OnOk result (SameScan self.old self.new) }
    {
        let kept = self
            .entries
            .keep(onto.key as u32, onto.location, onto.counts, &end);
        let latest = end.spend();
        kept?;
        self.rounds[onto.round] = true;
        self.last.raise(latest);
        Ok(())
    }

    /// Spends the end of a hop that stops: it is kept where it is later than all, and nowhere else.
    #[inline(always)]
    pub fn stop(&mut self, end: End)
        ensures { self.new ≡ record self.old { last = later self.old.last (latest_in end) } }
    {
        self.last.raise(end.spend());
    }

    /// Spends the end of a hop that a full mark bars: it is kept nowhere.
    #[inline(always)]
    pub fn bar(&mut self, end: End)
        ensures { self.new ≡ self.old }
    {
        end.spend();
    }
}
