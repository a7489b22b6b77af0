//! Reading a deck, from its device or from its text, line by line.

ghost use Rattle.std.specs.Prelude.{◌≡◌, ◌≢◌, ◌+◌, ◌^◌, ◌≤◌, ◌↔◌, ◌⊎◌, List, IsErrOf, IfOk, IfErr};
ghost use Rattle.std.specs.Prelude.{IfSome};
ghost use Rattle.read_decks.specs.DeckText.{Line, IsDeck, IsRefused};
ghost use Rattle.read_decks.specs.DeckOfLines.{IsDeckOf};

use super::Deck;
use super::fault::DeckFault;
use super::lines::is_longer;
use super::loading::Loading;
use crate::reading::Reading;
use base_devices::{Input, WholeError, read_whole};
use std::alloc::Global;

/// Reads a deck. The whole text is read first, 404,001 bytes at most. A text of as many as that is
/// too long, or there is no memory for it: so a device may have no end.
///
/// # Errors
///
/// Read where a read failed; Memory where there is no memory; TooLong before any line is looked at;
/// then the fault of the first line that has one (Card before PastDrum before TwoStarts before
/// Twice); NoStart last.
pub fn read_deck<I: Input>(alloc: Global, reader: &mut I) -> Result<Deck, DeckFault>
    requires { I.called reader.old ≤ 2 ^ 62 }
    ensures deck { IfOk result (λ deck. IfSome (I.unread reader.old) (λ bytes.
        (lines : List Line) × IsDeck bytes lines × IsDeckOf deck lines)) }
    ensures refused { IfErr result (λ fault. fault ≢ DeckFault.Read → fault ≢ DeckFault.Memory
        → IfSome (I.unread reader.old) (λ bytes. IsRefused bytes fault)) }
    ensures full { I.given reader.new ≡ I.given reader.old + 404001
        → IsErrOf result DeckFault.TooLong ⊎ IsErrOf result DeckFault.Memory }
    ensures read { IsErrOf result DeckFault.Read ↔ (I.failed reader.new ≡ I.failed reader.old + 1) }
    // The whole text is read first: to its end, or one byte past the limit.
    ensures whole { ¬ IsErrOf result DeckFault.Read → ¬ IsErrOf result DeckFault.Memory
        → (I.ended reader.new ≡ I.ended reader.old + 1)
        ⊎ (I.given reader.new ≡ I.given reader.old + 404001) }
    // Of the reads at most one meets the end, at most one gives no byte, and at most one fails.
    // They are 404,001 at most, and so are their bytes; and there is at most one more of them
    // than there are bytes.
    ensures ended { I.ended reader.new ≤ I.ended reader.old + 1 }
    ensures idle { I.idle reader.new ≤ I.idle reader.old + 1 }
    ensures once { I.failed reader.new ≤ I.failed reader.old + 1 }
    ensures counted { I.failed reader.old ≤ I.failed reader.new }
    ensures asked { I.called reader.new ≤ I.called reader.old + 404001 }
    ensures taken { I.given reader.new ≤ I.given reader.old + 404001 }
    ensures each { I.called reader.new + I.given reader.old
        ≤ I.called reader.old + I.given reader.new + 1 }
{
    let text = match read_whole(alloc, reader, Deck::BYTES) {
        Ok(text) => text,
        Err(WholeError::Read) => return Err(DeckFault::Read),
        Err(WholeError::Memory) => return Err(DeckFault::Memory),
        Err(WholeError::TooLong) => return Err(DeckFault::TooLong),
    };
    deck_of(alloc, &text)
}

/// Reads a deck from a text in memory.
///
/// # Errors
///
/// Memory where there is no memory; TooLong before any line is looked at; then the fault of the
/// first line that has one (Card before PastDrum before TwoStarts before Twice); NoStart last.
pub fn deck_of(alloc: Global, text: &[u8]) -> Result<Deck, DeckFault>
    ensures deck { IfOk result (λ deck.
        (lines : List Line) × IsDeck text.now lines × IsDeckOf deck lines) }
    ensures refused { IfErr result (λ fault. fault ≢ DeckFault.Memory → IsRefused text.now fault) }
    ensures read { ¬ IsErrOf result DeckFault.Read }
{
    if is_longer(text, Deck::LINES as usize, Deck::LINE) {
        return Err(DeckFault::TooLong);
    }
    let mut reading = Reading::new(Loading::new(alloc)?, text);
    match reading.next_fault()? {
        Some(found) => Err(found.fault),
        None => reading.taking.finish(),
    }
}
