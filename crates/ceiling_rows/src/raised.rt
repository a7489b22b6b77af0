//! The latest ends of hops of one location, as they are found.

ghost use Rattle.std.specs.Prelude.{◌≡◌, ℕ, ◌+◌, ◌≤◌, max, false, IfOk, IfSome, Some};
ghost use Rattle.std.specs.Prelude.{slice_get, vec_len};
ghost use Rattle.machine_steps.specs.WaysLeft.{seen_way};
ghost use Rattle.flow_graph.specs.Profile.{MayEnd};
ghost use Rattle.ceiling_rows.specs.Bands.{AreInBands};

use crate::found::{Found, LONGEST_SEARCH};
use crate::row::Edge;
use crate::slot::Slot;
use flow_graph::Hop;
use flow_graph::longest::longest;
use machine_rotation::{Clockwork, Seek};
use machine_steps::Way;
use std::alloc::{AllocError, Global};

/// The numbers of slots go in bands of so many: a band of the drum, or the angles of one location.
pub const BAND: usize = 50;

/// How many bands there are.
pub const BANDS: usize = 44;

/// What hops take at most that lead to one slot.
#[derive(Clone, Copy)]
pub struct Onward {
    /// The most word times until the next instruction is found.
    pub time: u32,
    /// The most until one of them ends, and 49 more.
    pub stop: u32,
    /// One of them that ends last, so that none comes later to the next instruction.
    pub hop: Hop,
}

impl Onward {
    /// The most of this and another, if there is one; where both end at once, the other's hop.
    fn or_longer(self, other: Option<Onward>) -> Onward
        ensures time { self.time ≤ result.time }
        ensures stop { self.stop ≤ result.stop }
        ensures other { IfSome other
            (λ one. (one.time ≤ result.time) × (one.stop ≤ result.stop)) }
    {
        let Some(other) = other else {
            return self;
        };
        let later = if self.stop > other.stop { self } else { other };
        Onward {
            time: self.time.max(other.time),
            stop: later.stop,
            hop: later.hop,
        }
    }
}

/// What the hops take at most that were looked at, of a location whose instruction is found at an
/// angle. One serves for all locations, one after the other, and is emptied where it was written:
/// a location has few hops, and there are many slots.
#[derive(Drop)]
pub struct Raised {
    /// The most word times until one of them ends that leads nowhere, and 49 more; 0 of none.
    pub stop: u32,
    /// One of those that ends last.
    pub last: Option<Hop>,
    /// The most until any of them ends, and 49 more; 0 of none.
    pub most: u32,
    /// What they take by the numbers of where they lead.
    pub onward: Vec<Option<Onward>>,
    /// In which bands of the numbers any may stand; in the others none does.
    pub bands: [bool; BANDS],
    ghost long: { vec_len onward ≡ 2200 },
    pub ghost within: { AreInBands onward.items bands },
}

impl Raised {
    ghost use Rattle.ceiling_rows.specs.Raised.{latest, AreLedTo, GrowsTo, HasNone, IsRaised};

    /// None was looked at.
    pub fn none(alloc: Global) -> Result<Raised, AllocError>
        ensures { IfOk result HasNone }
    {
        Ok(Raised {
            stop: 0,
            last: None,
            most: 0,
            onward: vec![in alloc; None; Slot::COUNT]?,
            bands: [false; BANDS],
        })
    }

    /// Looks at a hop of the location, from when its instruction is found.
    pub fn take(&mut self, from: &Found<'_>, hop: Hop)
        requires { MayEnd hop.instruction (seen_way hop.way) }
        ensures taken { IsRaised from.now self.new hop.instruction (seen_way hop.way) }
        ensures grown { GrowsTo self.old self.new }
        ensures no_more { (most : ℕ) → self.old.most ≤ most
            → latest from.now hop.instruction (seen_way hop.way) + 49 ≤ from.now.angle + most
            → self.new.most ≤ most }
    {
        let angle = from.angle;
        let ended = longest(from.times, from.location, hop, angle);
        let stop = (ended + LONGEST_SEARCH - angle) as u32;
        self.most = self.most.max(stop);
        let Way::To(next) = hop.way else {
            self.end(stop, hop);
            return;
        };
        let found = Seek::of(next).go(ended);
        let time = (found - angle) as u32;
        self.reach(Slot::of(next, found), Onward { time, stop, hop });
    }

    /// A hop that leads nowhere ends so late with 49 word times more.
    fn end(&mut self, stop: u32, hop: Hop)
        ensures most { self.new.most ≡ self.old.most }
        ensures no_less { self.old.stop ≤ self.new.stop }
        ensures told { stop ≤ self.new.stop }
        ensures onward { self.new.onward.items ≡ self.old.onward.items }
    {
        if self.stop < stop {
            self.stop = stop;
            self.last = Some(hop);
        }
    }

    /// A hop leads there that takes so long.
    fn reach(&mut self, slot: Slot, hop: Onward)
        ensures stop { self.new.stop ≡ self.old.stop }
        ensures most { self.new.most ≡ self.old.most }
        ensures there { (onward : Onward) × (slice_get self.new.onward.items slot.number
            ≡ Some (Some onward)) × (hop.time ≤ onward.time) × (hop.stop ≤ onward.stop) }
        ensures grown { GrowsTo self.old self.new }
    {
        let at = usize::from(slot.number);
        self.bands[at / BAND] = true;
        self.onward[at] = Some(hop.or_longer(self.onward[at]));
    }

    /// Forgets all hops that were looked at. Wherever any of them leads, one of these edges does.
    pub fn forget(&mut self, edges: &[Edge])
        requires { AreLedTo self.old.onward.items edges.now }
        ensures { HasNone self.new }
    {
        for edge in edges {
            self.onward[usize::from(edge.onto.number)] = None;
        }
        self.bands = [false; BANDS];
        self.stop = 0;
        self.last = None;
        self.most = 0;
    }
}
