//! Reading the inputs of a replay, from their device or from their text, line by line.

ghost use Rattle.std.specs.Prelude.{◌≡◌, ◌≢◌, ◌+◌, ◌^◌, ◌≤◌, ◌↔◌, ◌⊎◌, List, IsErrOf, IfOk, IfErr};
ghost use Rattle.std.specs.Prelude.{IfSome};
ghost use Rattle.read_replays.specs.Inputs.{AreInputsOf};
ghost use Rattle.read_replays.specs.InputsText.{Line, AreInputs, IsRefused};

use crate::fault::InputFault;
use crate::inputs::Inputs;
use crate::stating::Stating;
use base_devices::{Input, WholeError, read_whole};
use read_decks::{Reading, is_longer};
use std::alloc::Global;

/// Reads the inputs of a replay. The whole text is read first, 804,001 bytes at most. A text of as
/// many as that is too long, or there is no memory for it: so a device may have no end.
///
/// # Errors
///
/// Read where a read failed; Memory where there is no memory; TooLong before any line is looked at;
/// then the fault of the first line that has one (Line before PastDrum before Repeated).
pub fn read_inputs<I: Input>(alloc: Global, reader: &mut I) -> Result<Inputs, InputFault>
    requires { I.called reader.old ≤ 2 ^ 62 }
    ensures inputs { IfOk result (λ inputs. IfSome (I.unread reader.old) (λ bytes.
        (lines : List Line) × AreInputs bytes lines × AreInputsOf inputs lines)) }
    ensures refused { IfErr result (λ fault. fault ≢ InputFault.Read → fault ≢ InputFault.Memory
        → IfSome (I.unread reader.old) (λ bytes. IsRefused bytes fault)) }
    ensures full { I.given reader.new ≡ I.given reader.old + 804001
        → IsErrOf result InputFault.TooLong ⊎ IsErrOf result InputFault.Memory }
    ensures read { IsErrOf result InputFault.Read
        ↔ (I.failed reader.new ≡ I.failed reader.old + 1) }
    // The whole text is read first: to its end, or one byte past the limit.
    ensures whole { ¬ IsErrOf result InputFault.Read → ¬ IsErrOf result InputFault.Memory
        → (I.ended reader.new ≡ I.ended reader.old + 1)
        ⊎ (I.given reader.new ≡ I.given reader.old + 804001) }
    // Of the reads at most one meets the end, at most one gives no byte, and at most one fails.
    // They are 804,001 at most, and so are their bytes; and there is at most one more of them
    // than there are bytes.
    ensures ended { I.ended reader.new ≤ I.ended reader.old + 1 }
    ensures idle { I.idle reader.new ≤ I.idle reader.old + 1 }
    ensures once { I.failed reader.new ≤ I.failed reader.old + 1 }
    ensures counted { I.failed reader.old ≤ I.failed reader.new }
    ensures asked { I.called reader.new ≤ I.called reader.old + 804001 }
    ensures taken { I.given reader.new ≤ I.given reader.old + 804001 }
    ensures each { I.called reader.new + I.given reader.old
        ≤ I.called reader.old + I.given reader.new + 1 }
{
    let text = match read_whole(alloc, reader, Inputs::BYTES) {
        Ok(text) => text,
        Err(WholeError::Read) => return Err(InputFault::Read),
        Err(WholeError::Memory) => return Err(InputFault::Memory),
        Err(WholeError::TooLong) => return Err(InputFault::TooLong),
    };
    inputs_of(alloc, &text)
}

/// Reads the inputs of a replay from a text in memory.
///
/// # Errors
///
/// Memory where there is no memory; TooLong before any line is looked at; then the fault of the
/// first line that has one (Line before PastDrum before Repeated).
pub fn inputs_of(alloc: Global, text: &[u8]) -> Result<Inputs, InputFault>
    ensures inputs { IfOk result (λ inputs.
        (lines : List Line) × AreInputs text.now lines × AreInputsOf inputs lines) }
    ensures refused { IfErr result (λ fault. fault ≢ InputFault.Memory
        → IsRefused text.now fault) }
    ensures read { ¬ IsErrOf result InputFault.Read }
{
    if is_longer(text, Inputs::LINES as usize, Inputs::LINE) {
        return Err(InputFault::TooLong);
    }
    let mut reading = Reading::new(Stating::new(alloc)?, text);
    match reading.next_fault()? {
        Some(fault) => Err(fault),
        None => Ok(reading.taking.finish()),
    }
}
