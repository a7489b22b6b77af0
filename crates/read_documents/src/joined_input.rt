//! Documents from the joined form, read from an input and taken apart.

ghost use Rattle.std.specs.Prelude.{◌≡◌, ◌+◌, ◌^◌, ◌≤◌, ◌⊎◌, ℕ, IfOk, IfErr, IfSome, IsErrOf};
ghost use Rattle.print_lines.specs.FaultStatus.{failed_reads};
ghost use Rattle.read_documents.specs.Joined.{Gives, GivesNone, IsPastLimit, Joins, JoinsNone};

use crate::documents::Documents;
use crate::joined::Parts;
use base_devices::{Input, WholeError, read_whole};
use print_lines::{Fault, Part, PartFault};
use read_toml::NotesRead;
use std::alloc::Global;

/// The most bytes of the joined form.
pub const BYTES: usize = 16_777_216;

/// The documents of a joined form, with short notes. Its parts are checked one after the other.
///
/// # Errors
///
/// [`Fault::NoPart`] where a part is missing; else the fault of the first part that has one.
fn joined(alloc: Global, text: &[u8]) -> Result<Documents, Fault>
    ensures joins { IfOk result (Joins text.now) }
    ensures fault { IfErr result (JoinsNone text.now) }
{
    let Some(parts) = Parts::of(text) else {
        return Err(Fault::NoPart);
    };
    Documents::of_texts(
        alloc,
        parts.deck,
        parts.times,
        parts.notes,
        NotesRead::Short,
    )
}

/// The documents of the joined form that an input gives, of 16,777,216 bytes at most.
///
/// # Errors
///
/// [`Fault::Part`] where the input can't be read, or is past its limit; [`Fault::Memory`]; else
/// those of a joined form: a part is missing, or is refused.
pub fn documents_of<I: Input>(alloc: Global, input: &mut I) -> Result<Documents, Fault>
    requires { I.called input.old ≤ 2 ^ 62 }
    ensures gives { IfOk result (λ documents.
        IfSome (I.unread input.old) (λ bytes. Gives bytes documents)) }
    ensures fault { IfErr result (λ fault.
        IfSome (I.unread input.old) (λ bytes. GivesNone bytes fault)) }
    ensures counted { (failures : ℕ) → I.failed input.new ≡ I.failed input.old + failures
        → failures ≡ failed_reads result }
    ensures whole { ¬ IsErrOf result (Fault.Part Part.Joined PartFault.Read)
        → ¬ IsErrOf result Fault.Memory → (I.ended input.new ≡ I.ended input.old + 1)
        ⊎ (I.given input.new ≡ I.given input.old + 16777217) }
    ensures ended { I.ended input.new ≤ I.ended input.old + 1 }
    ensures idle { I.idle input.new ≤ I.idle input.old + 1 }
    ensures grows { I.failed input.old ≤ I.failed input.new }
    ensures full { I.given input.new ≡ I.given input.old + 16777217 → IsPastLimit result }
    ensures asked { I.called input.new ≤ I.called input.old + 16777217 }
    ensures taken { I.given input.new ≤ I.given input.old + 16777217 }
    ensures each { I.called input.new + I.given input.old
        ≤ I.called input.old + I.given input.new + 1 }
{
    match read_whole(alloc, input, BYTES) {
        Ok(text) => joined(alloc, &text),
        Err(WholeError::Read) => Err(Fault::Part(Part::Joined, PartFault::Read)),
        Err(WholeError::Memory) => Err(Fault::Memory),
        Err(WholeError::TooLong) => Err(Fault::Part(Part::Joined, PartFault::TooLong)),
    }
}
