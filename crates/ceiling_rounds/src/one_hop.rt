//! Walks of one hop, and the one that takes longest.

ghost use Rattle.std.specs.Prelude.{◌≡◌, [], ◌∷◌, IfOk, IfSome, MatchBool};
ghost use Rattle.read_decks.specs.InDeck.{loads_in, start_in};
ghost use Rattle.base_notes.specs.Entries.{entry_in};
ghost use Rattle.machine_steps.specs.WaysLeft.{seen_way};
ghost use Rattle.flow_graph.specs.Hops as said;
ghost use Rattle.flow_graph.specs.HopsLeft.{hops_left};
ghost use Rattle.flow_graph.specs.Seen.{seen_hop};
ghost use Rattle.flow_graph.specs.SettingOf.{setting};
ghost use Rattle.flow_walks.specs.Pieces.{seen_placed};
ghost use Rattle.ceiling_rounds.specs.InRounds.{takes, total_of, IsInRoundsOf};
ghost use Rattle.ceiling_rounds.specs.FirstHop.{first_placed, longest_time, AreNoLonger, IsFirst};
ghost use Rattle.ceiling_rounds.specs.FirstHop.{MayBegin};
ghost use Rattle.ceiling_rounds.specs.OneHop.{NoWalkOfOneHopTakesLonger};

use crate::changes::{changes_by, passes_of};
use crate::coming::mark_by;
use crate::in_rounds::InRounds;
use crate::setting::Setting;
use base_words::REVOLUTION;
use flow_graph::{Hop, Hops};
use flow_walks::{Piece, Placed};
use machine_steps::{Counts, Open, Way};
use std::alloc::{AllocError, Global};

/// Whether a walk may begin with a hop of the start by this way.
fn may_begin(by: &Setting<'_>, way: Way) -> bool
    ensures { let may = MayBegin (setting by.now.deck.now by.now.times.now by.now.notes.now)
        (seen_way way) in MatchBool result may (¬ may) }
{
    let start = by.deck.start();
    match way {
        Way::To(next) => {
            let counts = Counts::none().passed(by.notes.marks(), start, next);
            counts.is_some() && Open::none().may_go(by.notes.calls(), start, next)
        }
        Way::Early | Way::Late => true,
    }
}

/// The hop of the start, from the angle behind the start's: the search for it takes longest.
fn as_first(by: &Setting<'_>, hop: Hop) -> Placed
    ensures { seen_placed result ≡ first_placed
        (setting by.now.deck.now by.now.times.now by.now.notes.now) (seen_hop hop) }
{
    let location = by.deck.start();
    Placed {
        location,
        angle: (u64::from(location.number) + 1) % REVOLUTION,
        hop,
    }
}

/// The hop of the start that takes longest, of those with which a walk may begin.
fn longest_first(by: &Setting<'_>, hops: Hops<'_>) -> Option<Placed>
    requires { hops_left hops ≡ said.hops (loads_in by.now.deck.now) by.now.notes.now
        (start_in by.now.deck.now) }
    ensures first { IfSome result (λ one. IsFirst
        (setting by.now.deck.now by.now.times.now by.now.notes.now) (seen_placed one)) }
    ensures longest { let g = setting by.now.deck.now by.now.times.now by.now.notes.now in
        AreNoLonger g (said.hops g.loads g.notes g.start) (longest_time g result) }
{
    let mut longest = None;
    let mut most = 0;
    for hop in hops {
        let one = as_first(by, hop);
        let time = one.longest(by.times);
        if time >= most && may_begin(by, hop.way) {
            longest = Some(one);
            most = time;
        }
    }
    longest
}

impl Setting<'_> {
    /// The walk of this hop alone, as long as it can be.
    fn alone(&self, alloc: Global, one: Placed) -> Result<InRounds, AllocError>
        requires { IsFirst (setting self.now.deck.now self.now.times.now self.now.notes.now)
            (seen_placed one) }
        ensures right { IfOk result
            (IsInRoundsOf self.now.deck.now self.now.times.now self.now.notes.now) }
        ensures time { IfOk result (λ walk.
            total_of walk ≡ takes (entry_in self.now.times.now) (seen_placed one)) }
    {
        let marks = self.notes.marks();
        let passed = mark_by(marks, one.location, one.hop.way);
        let time = u128::from(one.longest(self.times));
        Ok(InRounds {
            angle: one.angle,
            pieces: vec![in alloc; Piece::Hop(one)]?,
            passes: passes_of(alloc, &changes_by(alloc, marks, passed)?)?,
            total: time,
            lasting: vec![in alloc; time]?,
            often: vec![in alloc; 1]?,
        })
    }

    /// The walk of the hop of the start that takes longest, of those with which a walk may begin;
    /// without a hop where there is none. `hops` are all hops of the start.
    pub fn longest_of_one_hop(&self, alloc: Global, hops: Hops<'_>) -> Result<InRounds, AllocError>
        requires { hops_left hops ≡ said.hops (loads_in self.now.deck.now) self.now.notes.now
            (start_in self.now.deck.now) }
        ensures right { IfOk result
            (IsInRoundsOf self.now.deck.now self.now.times.now self.now.notes.now) }
        ensures longest { IfOk result (λ walk. NoWalkOfOneHopTakesLonger
            (setting self.now.deck.now self.now.times.now self.now.notes.now) (total_of walk)) }
    {
        match longest_first(self, hops) {
            Some(one) => self.alone(alloc, one),
            None => self.without_hop(alloc),
        }
    }
}
