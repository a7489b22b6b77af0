ghost use Rattle.std.specs.Prelude.{◌≡◌, ◌+◌, ◌<◌, ◌≤◌, ◌^◌, length, decimal};

use base_devices::{Output, Unsent, write_whole};
use itoa::{Buffer, Integer};

/// How many bytes a sheet holds at most.
const ROOM: usize = 65_536;

/// A sheet: bytes that are gathered, and go out when it is full.
#[derive(Drop)]
pub struct Sheet {
    bytes: [u8; ROOM],
    held: usize,
    sent: usize,
    is_lost: bool,
    ghost within: { held ≤ 65536 },
    ghost room: { length bytes ≡ 65536 },
}

impl Sheet {
    ghost use Rattle.std.specs.Prelude.{ℕ, List, [], false, IfErr, is_err, take};
    ghost use Rattle.std.specs.Io.KnownBytes.{Appends};
    ghost use Rattle.base_devices.specs.Device.{Device};
    ghost use Rattle.print_lines.specs.Gets.{Gets};
    ghost use Rattle.print_lines.specs.Stands.{IsBlank, Passes, Stands, counted, gone_of};

    /// A sheet with nothing on it, of which nothing has gone out.
    pub fn new() -> Sheet
        ensures { IsBlank result }
    {
        Sheet {
            bytes: [0; ROOM],
            held: 0,
            sent: 0,
            is_lost: false,
        }
    }

    /// Counts what went out of so many bytes. It holds none then.
    fn count(&mut self, bytes: usize, written: Result<(), Unsent>)
        requires { self.old.is_lost ≡ false }
        ensures empty { self.new.held ≡ 0 }
        ensures sent { self.new.sent ≡ counted (self.old.sent + gone_of bytes written) }
        ensures lost { self.new.is_lost ≡ is_err written }
    {
        self.held = 0;
        match written {
            Ok(()) => self.sent = self.sent.saturating_add(bytes),
            Err(unsent) => {
                self.sent = self.sent.saturating_add(unsent.sent);
                self.is_lost = true;
            }
        }
    }

    /// Writes what it holds.
    fn turn<O: Output>(&mut self, writer: &mut O)
        ensures passes { Passes (O.device writer.old) self.old (O.device writer.new) self.new [] }
        ensures empty { self.new.held ≡ 0 }
    {
        let held = self.held;
        if self.is_lost {
            self.held = 0;
            return;
        }
        let written = write_whole(writer, &self.bytes[..held]);
        self.count(held, written);
    }

    /// Writes bytes, where it holds none.
    fn pass<O: Output>(&mut self, writer: &mut O, bytes: &[u8])
        requires { self.old.held ≡ 0 }
        ensures { Passes (O.device writer.old) self.old (O.device writer.new) self.new bytes.now }
    {
        if self.is_lost {
            return;
        }
        let written = write_whole(writer, bytes);
        self.count(bytes.len(), written);
    }

    /// Holds these bytes back too.
    fn add(&mut self, bytes: &[u8])
        requires { self.old.held + length bytes.now ≤ 65536 }
        ensures { (now : Device) → Passes now self.old now self.new bytes.now }
    {
        let held = self.held;
        let end = held + bytes.len();
        self.bytes[held..end].copy_from_slice(bytes);
        self.held = end;
    }

    /// Puts bytes on it, where it holds none.
    fn put_first<O: Output>(&mut self, writer: &mut O, bytes: &[u8])
        requires { self.old.held ≡ 0 }
        ensures { Passes (O.device writer.old) self.old (O.device writer.new) self.new bytes.now }
    {
        if bytes.len() > ROOM {
            return self.pass(writer, bytes);
        }
        self.add(bytes);
    }

    /// Puts bytes behind what was put before. Where a write has failed nothing more goes out.
    pub fn put<O: Output>(&mut self, writer: &mut O, bytes: &[u8])
        ensures { Passes (O.device writer.old) self.old (O.device writer.new) self.new bytes.now }
    {
        if bytes.len() <= ROOM - self.held {
            return self.add(bytes);
        }
        self.turn(writer);
        self.put_first(writer, bytes);
    }

    /// Puts a number behind what was put before, in decimal digits.
    pub fn put_number<O: Output, I: Integer>(&mut self, writer: &mut O, number: I)
        ensures { Passes (O.device writer.old) self.old (O.device writer.new) self.new
            (I.text number) }
    {
        let mut buffer = Buffer::new();
        self.put(writer, buffer.format(number).as_bytes());
    }

    /// Whether a write has failed: all that is put on it from then on is lost.
    pub fn is_lost(&self) -> bool
        ensures { result ≡ self.now.is_lost }
    {
        self.is_lost
    }

    /// Writes what it still holds, and tells whether all that was put on it has gone out.
    ///
    /// # Errors
    ///
    /// Where a write failed or took no byte, with the number of bytes that had gone out.
    pub fn finish<O: Output>(mut self, writer: &mut O) -> Result<(), Unsent>
        ensures gets { (begun : Device) (text : List ℕ)
            → Stands begun (O.device writer.old) self text
            → Gets begun (O.device writer.new) result text }
        ensures sent { (begun : Device) (text : List ℕ)
            → Stands begun (O.device writer.old) self text → length text < 2 ^ 64
            → IfErr result (λ error. (error.sent < length text) × Appends begun.written
            (O.device writer.new).written (take error.sent text)) }
    {
        self.turn(writer);
        if self.is_lost {
            return Err(Unsent { sent: self.sent });
        }
        Ok(())
    }
}
