ghost use Rattle.std.specs.Prelude.{◌↔◌, IsTrue, IfOk, map};
ghost use Rattle.flow_acceptance.specs.Fixed.{AreFlagged, IsFlagged};

use base_notes::Notes;
use base_words::Location;
use flow_graph::place::is_listed;
use std::alloc::{AllocError, Global};

/// The executed locations without a list, by their numbers: no instruction may write into these.
#[derive(Drop)]
pub struct Fixed {
    flags: Vec<bool>,
}

impl Fixed {
    /// Of the executed locations, those that the notes don't list.
    pub fn of(alloc: Global, executed: &[Location], notes: &Notes) -> Result<Fixed, AllocError>
        ensures { IfOk result (λ fixed. AreFlagged
            (map (λ location. location.number) executed.now) notes.now fixed.flags.items) }
    {
        let mut flags = vec![in alloc; false; Location::NUMBERS]?;
        for location in executed {
            if is_listed(notes, *location) {
                continue;
            }
            flags[location.number as usize] = true;
        }
        Ok(Fixed { flags })
    }

    /// Whether the location of this number is one of them.
    pub fn has(&self, number: u16) -> bool
        ensures { IsTrue result ↔ IsFlagged self.now number }
    {
        self.flags.get(number as usize).copied().unwrap_or(false)
    }
}
