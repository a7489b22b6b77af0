//! What is kept at a key.

ghost use Rattle.std.specs.Prelude.{◌≡◌};
ghost use Rattle.bound_scan.specs.Scanned.{later};

use crate::key_hop::KeyHop;

/// The latest of some ends of hops, or the moment of the start.
#[derive(Clone, Copy)]
pub struct Latest {
    /// Its clock: word times from a moment of angle 0 on.
    pub clock: u64,
    /// The hop of a key that it is the end of; `None` of the start's.
    pub origin: Option<KeyHop>,
}

impl Latest {
    /// Becomes what comes, where that is later.
    #[inline(always)]
    pub fn raise(&mut self, new: Latest)
        ensures { self.new ≡ later self.old new }
    {
        if self.clock < new.clock {
            *self = new;
        }
    }
}
