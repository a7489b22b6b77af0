ghost use Rattle.std.specs.Prelude.{◌≡◌, ℕ, ◌+◌, ◌^◌, ◌≤◌};

/// Something that takes time: from a clock it goes on to a moment, which is never before the clock.
///
/// A clock counts word times from a moment of angle 0 on; 50 of them are a revolution.
pub trait Clockwork {
    /// The moment that it goes on to from a clock.
    ghost moment: { Self → ℕ → ℕ };

    /// A number of word times that it never takes more than, whatever the clock.
    ghost most: { Self → ℕ };

    /// The moment that it goes on to from this clock.
    fn go(&self, clock: u64) -> u64
        requires { clock + most self.now ≤ 2 ^ 62 + 2 ^ 40 }
        ensures moment { result ≡ moment self.now clock }
        ensures later { clock ≤ result }
        ensures near { result ≤ clock + most self.now };

    /// A number of word times that it never takes more than, whatever the clock.
    fn span(&self) -> u64
        ensures { result ≡ most self.now };

    // it never goes back
    ghost never_earlier: { (c : Self) (t : ℕ) → t ≤ moment c t };

    // it takes its span at most
    ghost within_span: { (c : Self) (t : ℕ) → moment c t ≤ t + most c };

    // what begins later never ends earlier
    ghost monotone: { (c : Self) (s t : ℕ) → s ≤ t → moment c s ≤ moment c t };

    // a revolution later it goes to a moment a revolution later
    ghost periodic: { (c : Self) (t : ℕ) → moment c (t + 50) ≡ moment c t + 50 };
}
