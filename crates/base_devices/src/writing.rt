ghost use Rattle.std.specs.Prelude.{◌≡◌};
ghost use Rattle.base_devices.specs.Device.{device};

use crate::failed::Failed;
use crate::output::Output;
use std::io::Write;

/// An output over any writer of `std`. It tells which bytes it was given where the writer does.
#[derive(Drop)]
pub struct Writing<W: Write> {
    /// The writer.
    pub writer: W,
    calls: u64,
    failures: u64,
}

impl<W: Write> Writing<W> {
    /// The output of a writer, with both counts 0.
    pub fn new(writer: W) -> Writing<W>
        ensures writer { result.writer ≡ writer }
        ensures calls { ⟦<Writing<W> as Output>⟧.called result ≡ 0 }
        ensures failures { (⟦<Writing<W> as Output>⟧.device result).failures ≡ 0 }
    {
        Writing {
            writer,
            calls: 0,
            failures: 0,
        }
    }
}

impl<W: Write> Output for Writing<W> {
    ghost device = { λ writing. device (W.contents writing.writer) writing.failures };

    ghost called = { λ writing. writing.calls };

    #[tactic(auto, unfolding(crate::specs::Device::one_more))]
    fn write(&mut self, buf: &[u8]) -> Result<usize, Failed> {
        self.calls = self.calls.saturating_add(1);
        match self.writer.write(buf) {
            Ok(count) => {
                if count == 0 && !buf.is_empty() {
                    self.failures = self.failures.saturating_add(1);
                }
                Ok(count)
            }
            Err(_) => {
                self.failures = self.failures.saturating_add(1);
                Err(Failed)
            }
        }
    }

    fn calls(&self) -> u64 {
        self.calls
    }

    fn failures(&self) -> u64 {
        self.failures
    }
}
