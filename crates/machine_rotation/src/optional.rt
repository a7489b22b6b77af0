//! A clockwork that may be left out.

ghost use Rattle.std.specs.Prelude.{Option, None, Some, refl};
ghost use Rattle.std.proofs.Common.{arith};
ghost use Rattle.std.specs.Option.{option_map_or};

use crate::clockwork::Clockwork;

/// What is left out takes no time.
impl<C: Clockwork> Clockwork for Option<C> {
    ghost moment = { λ optional clock. option_map_or (λ c. C.moment c clock) optional clock };

    ghost most = { λ optional. option_map_or C.most optional 0 };

    ghost never_earlier = { elim [ None ↦ λ t. Prim.omega arith | Some c ↦ C.never_earlier c ] };

    ghost within_span = { elim [ None ↦ λ t. Prim.omega arith | Some c ↦ C.within_span c ] };

    ghost monotone = { elim [ None ↦ λ s t before. before | Some c ↦ C.monotone c ] };

    ghost periodic = { elim [ None ↦ λ t. refl | Some c ↦ C.periodic c ] };

    fn go(&self, clock: u64) -> u64 {
        match self {
            Some(clockwork) => clockwork.go(clock),
            None => clock,
        }
    }

    fn span(&self) -> u64 {
        match self {
            Some(clockwork) => clockwork.span(),
            None => 0,
        }
    }
}
