ghost use Rattle.std.specs.Prelude.{◌≡◌, ℕ, ◌+◌, ◌^◌, ◌≤◌, List, Option, is_err, if◌then◌else◌};
ghost use Rattle.std.specs.Io.{ReadsAtMost};
ghost use Rattle.std.specs.Io.KnownBytes.{ReadConsumes};
ghost use Rattle.base_devices.specs.Device.{gave_none, given_by, met_end};

use crate::failed::Failed;

/// A device that bytes come from.
pub trait Input {
    /// The bytes that reads give from here on, where that is known.
    ghost unread: { Self → Option (List ℕ) };

    /// How often it was read.
    ghost called: { Self → ℕ };

    /// How many reads failed.
    ghost failed: { Self → ℕ };

    /// How many bytes its reads gave, in all.
    ghost given: { Self → ℕ };

    /// How many reads met the end: they gave nothing, though there was room.
    ghost ended: { Self → ℕ };

    /// How many reads gave no byte: they failed, met the end, or had no room.
    ghost idle: { Self → ℕ };

    /// Reads some bytes into the beginning of the buffer, and returns how many: 0 only at the end,
    /// or where the buffer is empty.
    ///
    /// # Errors
    ///
    /// Any error of the device, even one that only means that the read was interrupted.
    fn read(&mut self, buf: &mut [u8]) -> Result<usize, Failed>
        requires { called self.old ≤ 2 ^ 63 }
        ensures bound { ReadsAtMost result buf.new }
        ensures bytes { ReadConsumes (unread self.old) (unread self.new) result buf.new }
        ensures calls { called self.new ≡ called self.old + 1 }
        ensures failures { failed self.new ≡ failed self.old + (if is_err result then 1 else 0) }
        ensures given { given self.new ≡ given self.old + given_by result }
        ensures ended { ended self.new
            ≡ ended self.old + (if met_end result buf.new then 1 else 0) }
        ensures idle { idle self.new ≡ idle self.old + (if gave_none result then 1 else 0) };

    /// How often it was read.
    fn calls(&self) -> u64
        ensures { result ≡ called self.now };

    /// How many reads failed.
    fn failures(&self) -> u64
        ensures { result ≡ failed self.now };

    /// How many reads met the end.
    fn ends(&self) -> u64
        ensures { result ≡ ended self.now };

    /// How many reads gave no byte: they failed, met the end, or had no room.
    fn idle(&self) -> u64
        ensures { result ≡ idle self.now };

    /// How many bytes its reads gave, in all.
    fn bytes(&self) -> u128
        ensures { result ≡ given self.now };
}
