//! Hops with what can be known of them before the scan.

ghost use Rattle.std.specs.Prelude.{◌≡◌, ◌<◌, ◌≤◌, Contains, IfOk, IfSome, vec_len};
ghost use Rattle.base_notes.specs.Marks.{mark_on};
ghost use Rattle.flow_graph.specs.HopsLeft.{hops_left};
ghost use Rattle.flow_graph.specs.Seen.{seen_hop};
ghost use Rattle.bound_scan.specs.KeysOf.{AreKeys, hops_in, marks_in, order_in, setting_with};
ghost use Rattle.bound_scan.specs.LeapOf.{AreLeaps, HaveLeaps, IsLeap};

use crate::keys::{Keys, Node};
use base_notes::{Mark, Times};
use base_words::{Location, REVOLUTION};
use flow_graph::Hop;
use flow_graph::longest::longest;
use machine_steps::Way;
use std::alloc::{AllocError, Global};

/// How many leaps are kept at most. A location that has more hops than there is room for has its
/// leaps made for each of its keys.
const MOST_LEAPS: usize = 262_144;

/// A hop of a location, with what can be known of it before the scan.
#[derive(Clone, Copy)]
pub struct Leap {
    pub hop: Hop,
    /// The most word times that it takes from when its instruction is found, which is at an angle
    /// of the location.
    pub time: u32,
    /// The index of the location that it goes on at; of a hop that stops it means nothing.
    pub index: u32,
    /// The index of the mark on its edge.
    pub mark: Option<u8>,
}

impl Keys<'_> {
    /// The index of the mark on an edge.
    fn mark_between(&self, from: Location, onto: Location) -> Option<u8>
        requires { AreKeys self.now }
        ensures { mark_on (marks_in self.now) from.number onto.number ≡ result }
    {
        match Mark::on_edge(self.marks(), from, onto) {
            Some(place) => Some(place as u8),
            None => None,
        }
    }

    /// A hop of an executed location, from when its instruction is found at this angle.
    pub fn leap(&self, times: &Times, location: Location, hop: Hop, angle: u64) -> Leap
        requires keys { AreKeys self.now }
        requires there { Contains (order_in self.now) location.number }
        requires hop { Contains (hops_in self.now location.number) (seen_hop hop) }
        requires on_drum { angle < 50 }
        ensures leap { IsLeap (setting_with self.now times.now) (order_in self.now)
            location.number angle result }
        ensures hop { result.hop ≡ hop }
    {
        let time = (longest(times, location, hop, angle) - angle) as u32;
        let (index, mark) = match hop.way {
            Way::To(next) => (
                self.index_of(next) as u32,
                self.mark_between(location, next),
            ),
            Way::Early | Way::Late => (0, None),
        };
        Leap {
            hop,
            time,
            index,
            mark,
        }
    }

    /// The leaps of a drum location; `None` of another, or where they are more than there is room
    /// for.
    fn leaps_at(
        &self,
        alloc: Global,
        times: &Times,
        node: &Node<'_>,
        room: usize,
    ) -> Result<Option<Vec<Leap>>, AllocError>
        requires keys { AreKeys self.now }
        requires there { Contains (order_in self.now) node.now.location.number }
        requires hops { hops_left node.now.hops ≡ hops_in self.now node.now.location.number }
        ensures leaps { IfOk result (λ made. IfSome made (λ leaps.
            AreLeaps (setting_with self.now times.now) (order_in self.now)
            node.now.location.number leaps.items)) }
        ensures few { IfOk result (λ made. IfSome made (λ leaps. vec_len leaps ≤ room)) }
    {
        let location = node.location;
        if location.number() >= Location::DRUM {
            return Ok(None);
        }
        let angle = u64::from(location.number()) % REVOLUTION;
        let mut leaps = Vec::new(alloc);
        for hop in node.hops {
            if leaps.len() >= room {
                return Ok(None);
            }
            leaps.push(self.leap(times, location, hop, angle))?;
        }
        Ok(Some(leaps))
    }

    /// The leaps of the executed locations, in their order. Where those of one don't fit, the room
    /// is halved, so that few are made and thrown away.
    pub fn leaps(&self, alloc: Global, times: &Times) -> Result<Vec<Option<Vec<Leap>>>, AllocError>
        requires { AreKeys self.now }
        ensures { IfOk result (λ all. HaveLeaps (setting_with self.now times.now)
            (order_in self.now) all.items) }
    {
        let mut room = MOST_LEAPS;
        let mut all = Vec::new(alloc);
        for node in &self.nodes {
            let leaps = self.leaps_at(alloc, times, node, room)?;
            match &leaps {
                Some(leaps) => room -= leaps.len(),
                None => room /= 2,
            }
            all.push(leaps)?;
        }
        Ok(all)
    }
}
