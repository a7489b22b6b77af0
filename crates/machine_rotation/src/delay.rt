ghost use Rattle.std.specs.Prelude.{◌≡◌, ◌+◌, ◌^◌, ◌≤◌, ◌↔◌, IsSome, IfSome};
ghost use Rattle.std.proofs.Common.{rules};

use crate::clockwork::Clockwork;

/// A delay of a number of word times.
#[derive(Clone, Copy)]
pub struct Delay {
    /// Word times, 2^40 at most.
    pub word_times: u64,
    pub ghost limited: { word_times ≤ 2 ^ 40 },
}

impl Delay {
    /// A delay of `word_times` word times; `None` where these are more than 2^40.
    pub fn new(word_times: u64) -> Option<Delay>
        ensures valid { IsSome result ↔ (word_times ≤ 2 ^ 40) }
        ensures value { IfSome result (λ delay. delay.word_times ≡ word_times) }
    {
        if word_times <= 1 << 40 {
            Some(Delay { word_times })
        } else {
            None
        }
    }
}

impl Clockwork for Delay {
    ghost moment = { λ delay clock. clock + delay.word_times };

    ghost most = { λ delay. delay.word_times };

    ghost never_earlier = { Prim.search rules };

    ghost within_span = { Prim.search rules };

    ghost monotone = { Prim.search rules };

    ghost periodic = { Prim.search rules };

    fn go(&self, clock: u64) -> u64 {
        clock + self.word_times
    }

    fn span(&self) -> u64 {
        self.word_times
    }
}
