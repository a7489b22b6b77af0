use crate::placed_fault::PlacedFault;
use crate::slip::Slip;
use read_decks::{DeckFault, Loading, Taking};
use std::alloc::AllocError;

/// What the lines of a deck so far load. Each fault of the next one is told with its place.
#[derive(Drop)]
pub struct DeckSoFar {
    pub loading: Loading,
}

impl Taking for DeckSoFar {
    type Fault = PlacedFault<DeckFault>;

    ghost use Rattle.read_faults.specs.SoFar.{deck_rules};

    ghost rules = { deck_rules };

    fn take(
        &mut self,
        bytes: &[u8],
        number: u16,
    ) -> Result<Option<PlacedFault<DeckFault>>, AllocError> {
        let Some(found) = self.loading.take(bytes, number)? else {
            return Ok(None);
        };
        Ok(Some(PlacedFault {
            fault: found.fault,
            line: Some(number),
            earlier: found.earlier,
            slip: match found.fault {
                DeckFault::Card(_) => Slip::of(bytes),
                _ => None,
            },
        }))
    }
}
