//! The leaps of a long list that were made last.

ghost use Rattle.std.specs.Prelude.{◌≡◌, ◌%◌, ◌<◌, true, None, replicate, Contains};
ghost use Rattle.base_words.specs.Kind.{kind_of};
ghost use Rattle.machine_steps.specs.WaysLeft.{seen_way};
ghost use Rattle.flow_graph.specs.Seen.{seen_hop};
ghost use Rattle.bound_scan.specs.KeysOf.{AreKeys, hops_in, order_in, setting_with};
ghost use Rattle.bound_scan.specs.LeapOf.{IsLeap};
ghost use Rattle.bound_scan.specs.RecentOf.{AreRecent, IsLike};

use crate::keys::Keys;
use crate::leap::Leap;
use base_notes::Times;
use base_words::{Kind, Location, REVOLUTION};
use flow_graph::Hop;
use machine_steps::Way;

/// How many angles the drum has.
const ANGLES: usize = 50;

/// What stands at an address; of one that is no location it means nothing.
fn kind_at(address: u16) -> Kind
    ensures { result ≡ kind_of address }
{
    match address {
        0..2000 => Kind::Drum,
        8000 => Kind::Switches,
        8001 => Kind::Distributor,
        8002 => Kind::Lower,
        _ => Kind::Upper,
    }
}

/// Whether two ways are one.
fn is_same_way(way: Way, other: Way) -> bool
    ensures { result ≡ true → seen_way way ≡ seen_way other }
{
    match (way, other) {
        (Way::Early, Way::Early) | (Way::Late, Way::Late) => true,
        (Way::To(next), Way::To(onto)) => next.number == onto.number,
        _ => false,
    }
}

/// Whether two hops of a location differ by D alone, and their words at D are had at the same
/// moments.
fn is_like(hop: Hop, other: Hop) -> bool
    ensures { result ≡ true → IsLike hop other }
{
    let (d, other_d) = (hop.instruction.d, other.instruction.d);
    hop.instruction.op == other.instruction.op
        && u64::from(d) % REVOLUTION == u64::from(other_d) % REVOLUTION
        && kind_at(d) == kind_at(other_d)
        && is_same_way(hop.way, other.way)
}

/// Leaps of one location's hops, from when its instruction is found at one angle: for each angle of
/// D the last that was made. A hop that is like its hop takes as long.
#[derive(Drop)]
pub struct Recent {
    leaps: [Option<Leap>; ANGLES],
}

impl Recent {
    /// None made yet.
    pub fn none() -> Recent
        ensures { result.leaps ≡ replicate 50 None }
    {
        Recent {
            leaps: [None; ANGLES],
        }
    }

    /// A hop of an executed location, from when its instruction is found at this angle: as
    /// [`Keys::leap`] makes it, or as one like it was made.
    #[inline(always)]
    pub fn leap(
        &mut self,
        keys: &Keys<'_>,
        times: &Times,
        location: Location,
        hop: Hop,
        angle: u64,
    ) -> Leap
        requires recent { AreRecent (setting_with keys.now times.now) (order_in keys.now)
            location.number angle self.old.leaps }
        requires keys { AreKeys keys.now }
        requires there { Contains (order_in keys.now) location.number }
        requires hop { Contains (hops_in keys.now location.number) (seen_hop hop) }
        requires on_drum { angle < 50 }
        ensures leap { IsLeap (setting_with keys.now times.now) (order_in keys.now)
            location.number angle result }
        ensures hop { result.hop ≡ hop }
        ensures recent { AreRecent (setting_with keys.now times.now) (order_in keys.now)
            location.number angle self.new.leaps }
    {
        let at = (u64::from(hop.instruction.d) % REVOLUTION) as usize;
        if let Some(made) = self.leaps[at] {
            if is_like(made.hop, hop) {
                return Leap { hop, ..made };
            }
        }
        let leap = keys.leap(times, location, hop, angle);
        self.leaps[at] = Some(leap);
        leap
    }
}
