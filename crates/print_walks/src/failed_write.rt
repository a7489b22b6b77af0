use base_devices::Unsent;
use thiserror::Error;

/// A write failed, or took no byte.
#[derive(Clone, Copy, Debug, PartialEq, Eq, Error)]
#[error("a write failed after {sent} bytes")]
pub struct WriteFault {
    /// How many bytes of the text had gone out.
    pub sent: usize,
}

impl From<Unsent> for WriteFault {
    ghost use Rattle.std.specs.Prelude.{◌≡◌};

    ghost from_gives = { λ unsent fault. fault.sent ≡ unsent.sent };

    fn from(unsent: Unsent) -> WriteFault {
        WriteFault { sent: unsent.sent }
    }
}
