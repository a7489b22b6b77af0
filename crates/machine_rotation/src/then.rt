ghost use Rattle.std.specs.Prelude.{◌≡◌, ◌+◌, ◌^◌, ◌≤◌, ◌↔◌, IsSome, IfSome};
ghost use Rattle.std.proofs.Common.{ap, arith, ◌∙◌};

use crate::clockwork::Clockwork;

/// One clockwork after another: the second begins at the moment that the first goes on to.
#[derive(Drop)]
pub struct Then<A: Clockwork, B: Clockwork> {
    /// What comes first.
    pub first: A,
    /// What comes after it.
    pub second: B,
    pub ghost limited: { A.most first + B.most second ≤ 2 ^ 40 },
}

impl<A: Clockwork + Drop, B: Clockwork + Drop> Then<A, B> {
    /// The first and then the second; `None` where their spans add to more than 2^40.
    pub fn new(first: A, second: B) -> Option<Then<A, B>>
        ensures valid { IsSome result ↔ (A.most first + B.most second ≤ 2 ^ 40) }
        ensures first { IfSome result (λ then. then.first ≡ first) }
        ensures second { IfSome result (λ then. then.second ≡ second) }
    {
        let Some(span) = first.span().checked_add(second.span()) else {
            return None;
        };
        if span <= 1 << 40 {
            Some(Then { first, second })
        } else {
            None
        }
    }
}

impl<A: Clockwork, B: Clockwork> Clockwork for Then<A, B> {
    ghost moment = { λ then clock. B.moment then.second (A.moment then.first clock) };

    ghost most = { λ then. A.most then.first + B.most then.second };

    ghost never_earlier = { λ then t. Prim.omega (
      arith,
      A.never_earlier then.first t,
      B.never_earlier then.second (A.moment then.first t),
    ) };

    ghost within_span = { λ then t. Prim.omega (
      arith,
      A.within_span then.first t,
      B.within_span then.second (A.moment then.first t),
    ) };

    ghost monotone = { λ then s t h. B.monotone then.second _ _ (A.monotone then.first s t h) };

    ghost periodic = { λ then t. ap (B.moment then.second) (A.periodic then.first t)
        ∙ B.periodic then.second (A.moment then.first t) };

    fn go(&self, clock: u64) -> u64 {
        self.second.go(self.first.go(clock))
    }

    fn span(&self) -> u64 {
        self.first.span() + self.second.span()
    }
}
