//! Texts, read and written whole.

ghost use Rattle.std.specs.Prelude.{◌≡◌, ◌+◌, ◌^◌, ◌<◌, ◌≤◌, ◌↔◌, ◌⊎◌, IfErr, IfOk, IfSome, OnOk};
ghost use Rattle.std.specs.Prelude.{IsErrOf, vec_len, length, take};
ghost use Rattle.std.specs.Io.KnownBytes.{Appends};
ghost use Rattle.base_devices.specs.Device.{failures_after};

use crate::input::Input;
use crate::output::Output;
use std::alloc::Global;

/// Why an input wasn't read as a whole.
#[derive(Clone, Copy, Debug, PartialEq, Eq)]
pub enum WholeError {
    /// A read failed.
    Read,
    /// There is no memory to hold the bytes.
    Memory,
    /// There are more bytes than the limit.
    TooLong,
}

/// How many bytes are asked for at a time.
const CHUNK: usize = 4096;

/// Reads the whole input, up to `limit` bytes. One byte more shows that it is too long, and none is
/// asked for after that one, so that an input may have no end. Once a read gives no byte, the input
/// isn't read again.
///
/// # Errors
///
/// Read once a read fails; TooLong where there are more than `limit` bytes; Memory where there is
/// no memory for them.
pub fn read_whole<I: Input>(
    alloc: Global,
    input: &mut I,
    limit: usize,
) -> Result<Vec<u8>, WholeError>
    requires small { limit ≤ 2 ^ 32 }
    requires calls { I.called input.old ≤ 2 ^ 62 }
    ensures all { IfOk result (λ text. IfSome (I.unread input.old) (λ bytes. text.items ≡ bytes)) }
    ensures within { IfOk result (λ text. vec_len text ≤ limit) }
    // It has all bytes where the end was met, and an end that is met isn't asked for again.
    ensures whole { OnOk result (I.ended input.new ≡ I.ended input.old + 1) }
    ensures ended { I.ended input.new ≤ I.ended input.old + 1 }
    ensures idle { I.idle input.new ≤ I.idle input.old + 1 }
    ensures long { IsErrOf result WholeError.TooLong
        → IfSome (I.unread input.old) (λ bytes. limit < length bytes) }
    ensures past { IsErrOf result WholeError.TooLong
        → I.given input.new ≡ I.given input.old + limit + 1 }
    ensures full { I.given input.new ≡ I.given input.old + limit + 1
        → IsErrOf result WholeError.TooLong ⊎ IsErrOf result WholeError.Memory }
    ensures read { IsErrOf result WholeError.Read ↔ (I.failed input.new ≡ I.failed input.old + 1) }
    ensures once { I.failed input.new ≤ I.failed input.old + 1 }
    ensures counted { I.failed input.old ≤ I.failed input.new }
    ensures asked { I.called input.new ≤ I.called input.old + limit + 1 }
    ensures taken { I.given input.new ≤ I.given input.old + limit + 1 }
    ensures each { I.called input.new + I.given input.old
        ≤ I.called input.old + I.given input.new + 1 }
{
    let mut text = Vec::new(alloc);
    let mut chunk = [0; CHUNK];
    while text.len() <= limit {
        let room = CHUNK.min(limit + 1 - text.len());
        let Ok(count) = input.read(&mut chunk[..room]) else {
            return Err(WholeError::Read);
        };
        if count == 0 {
            return Ok(text);
        }
        if text.extend_from_slice(&chunk[..count]).is_err() {
            return Err(WholeError::Memory);
        }
    }
    Err(WholeError::TooLong)
}

/// A write failed, or took no byte, after some bytes had gone out.
#[derive(Clone, Copy, Debug, PartialEq, Eq)]
pub struct Unsent {
    /// How many bytes had gone out.
    pub sent: usize,
}

/// Writes all of the bytes, in as many writes as that takes.
///
/// # Errors
///
/// Where a write fails or takes no byte, with the number of bytes that had gone out.
pub fn write_whole<O: Output>(output: &mut O, bytes: &[u8]) -> Result<(), Unsent>
    ensures all { OnOk result
        (Appends (O.device output.old).written (O.device output.new).written bytes.now) }
    ensures prefix { IfErr result (λ error. Appends (O.device output.old).written
        (O.device output.new).written (take error.sent bytes.now)) }
    ensures some { IfErr result (λ error. error.sent < length bytes.now) }
    ensures failures { (O.device output.new).failures
        ≡ failures_after result (O.device output.old).failures }
{
    let mut sent = 0;
    while sent < bytes.len() {
        match output.write(&bytes[sent..]) {
            Ok(0) | Err(_) => return Err(Unsent { sent }),
            Ok(count) => sent += count,
        }
    }
    Ok(())
}
