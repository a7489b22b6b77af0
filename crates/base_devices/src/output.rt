ghost use Rattle.std.specs.Prelude.{◌≡◌, ℕ, if◌then◌else◌};
ghost use Rattle.std.specs.Io.{WritesAtMost};
ghost use Rattle.std.specs.Io.KnownBytes.{WriteAppends};
ghost use Rattle.base_devices.specs.Device.{Device, one_more, took_none};

use crate::failed::Failed;

/// A device that bytes go to. Its counts stay at the most that they can hold.
pub trait Output {
    /// The bytes that it was given, where that is known, and how many writes failed, or took none
    /// of some bytes.
    ghost device: { Self → Device };

    /// How often it was written to.
    ghost called: { Self → ℕ };

    /// Writes some bytes from the beginning of the buffer, and returns how many.
    ///
    /// # Errors
    ///
    /// Any error of the device, even one that only means that the write was interrupted.
    fn write(&mut self, buf: &[u8]) -> Result<usize, Failed>
        ensures bound { WritesAtMost result buf.now }
        ensures bytes { WriteAppends (device self.old).written (device self.new).written result
            buf.now }
        ensures calls { called self.new ≡ one_more (called self.old) }
        ensures failures { (device self.new).failures ≡ (if took_none result buf.now
            then one_more (device self.old).failures else (device self.old).failures) };

    /// How often it was written to; `u64::MAX` stands for that many times or more.
    fn calls(&self) -> u64
        ensures { result ≡ called self.now };

    /// How many writes failed, or took none of some bytes; `u64::MAX` stands for that many or more.
    fn failures(&self) -> u64
        ensures { result ≡ (device self.now).failures };
}
