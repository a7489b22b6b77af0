//! A location whose instruction is found at an angle, under notes and with a timing table.

ghost use Rattle.std.specs.Prelude.{◌≡◌, ◌%◌, ◌<◌, ◌↔◌, IsTrue};
ghost use Rattle.machine_steps.specs.Timing.{found};

use crate::slot::Slot;
use base_notes::{Notes, Times};
use base_words::Location;
use flow_graph::Flow;
use machine_rotation::{Clockwork, Seek};

/// The most word times that the search for an instruction takes.
pub const LONGEST_SEARCH: u64 = 49;

/// Whether the instruction at a location is found at an angle: what is beside the drum isn't had at
/// each.
pub fn is_found_at(location: Location, angle: u64) -> bool
    requires { angle < 50 }
    ensures { IsTrue result ↔ (found location.number angle ≡ angle) }
{
    Seek::of(location).go(angle) == angle
}

/// Where hops begin: at a location, from when its instruction is found.
#[derive(Clone, Copy)]
pub struct Found<'a> {
    pub notes: &'a Notes,
    pub times: &'a Times,
    pub location: Location,
    /// The drum's angle then, 0 to 49.
    pub angle: u64,
    pub ghost on_drum: { angle < 50 },
}

impl<'a> Found<'a> {
    ghost use Rattle.flow_graph.specs.Flow.{notes_of};
    ghost use Rattle.ceiling_rows.specs.Slot.{place_of};

    /// The location and the angle of this number, under the notes of a flow graph.
    pub fn at(flow: &Flow<'a>, times: &'a Times, slot: Slot) -> Found<'a>
        ensures notes { result.notes.now ≡ notes_of flow.now }
        ensures times { result.times.now ≡ times.now }
        ensures place { result.location.number ≡ place_of slot.number }
        ensures angle { result.angle ≡ slot.number % 50 }
    {
        Found {
            notes: flow.notes(),
            times,
            location: slot.location(),
            angle: slot.angle(),
        }
    }

    /// Whether the instruction is found at this angle.
    pub fn is_there(&self) -> bool
        ensures { IsTrue result
            ↔ (found self.now.location.number self.now.angle ≡ self.now.angle) }
    {
        is_found_at(self.location, self.angle)
    }
}
