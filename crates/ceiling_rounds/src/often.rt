//! How often each piece comes in the whole walk.

ghost use Rattle.std.specs.Prelude.{◌≡◌, ◌+◌, ◌-◌, ◌*◌, ◌<◌, ℕ, IfOk, IfSome, IsTrue, length};
ghost use Rattle.std.specs.Prelude.{sum_by};
ghost use Rattle.std.specs.Prelude.{get_or};
ghost use Rattle.flow_walks.specs.Pieces.{spelled, PlacedHop};
ghost use Rattle.ceiling_rounds.specs.InRounds.{summed};
ghost use Rattle.ceiling_rounds.specs.OftenOf.{by_named, hops_in, owed, HasShared};

use flow_walks::{Piece, Rounds};
use std::alloc::{AllocError, Global};

/// How often each piece comes. This is worked out from the last one down, which comes once.
#[derive(Drop)]
pub struct Often {
    /// How often each comes, by those that were gone through.
    pub often: Vec<u128>,
    /// How many hops those are, each as often as it comes.
    pub hops: u128,
}

impl Often {
    /// The last of these pieces comes once; `None` where there is none.
    fn of_last(alloc: Global, count: usize) -> Result<Option<Often>, AllocError>
        ensures { IfOk result (λ made. IfSome made (λ often. (0 < count) × (often.hops ≡ 0)
            × (length often.often.items ≡ count)
            × ((of_piece : ℕ → ℕ)
            → owed of_piece often.often.items count ≡ of_piece (count - 1)))) }
    {
        let Some(last) = count.checked_sub(1) else {
            return Ok(None);
        };
        let mut often = vec![in alloc; 0u128; count]?;
        often[last] = 1;
        Ok(Some(Often { often, hops: 0 }))
    }

    /// Notes that the piece with this number comes so often more; `false` where it isn't below the
    /// limit, or there is no room for so much.
    fn share(&mut self, limit: usize, number: usize, more: u128) -> bool
        requires { limit < length self.old.often.items }
        ensures hops { self.new.hops ≡ self.old.hops }
        ensures shared { IsTrue result → HasShared limit self.old.often.items self.new.often.items
            (λ of_piece. more * of_piece number) }
    {
        if number >= limit {
            return false;
        }
        match self.often[number].checked_add(more) {
            Some(sum) => {
                self.often[number] = sum;
                true
            }
            None => false,
        }
    }

    /// The same of pieces in a row.
    fn share_row(&mut self, limit: usize, names: &[usize], more: u128) -> bool
        requires { limit < length self.old.often.items }
        ensures hops { self.new.hops ≡ self.old.hops }
        ensures shared { IsTrue result → HasShared limit self.old.often.items self.new.often.items
            (λ of_piece. more * sum_by of_piece names.now) }
    {
        for number in names {
            if !self.share(limit, *number, more) {
                return false;
            }
        }
        true
    }

    /// The same of rounds of a piece.
    fn share_rounds(&mut self, limit: usize, rounds: Rounds, more: u128) -> bool
        requires { limit < length self.old.often.items }
        ensures hops { self.new.hops ≡ self.old.hops }
        ensures shared { IsTrue result → HasShared limit self.old.often.items self.new.often.items
            (λ of_piece. more * (rounds.times * of_piece rounds.piece)) }
    {
        match more.checked_mul(u128::from(rounds.times)) {
            Some(all) => self.share(limit, rounds.piece, all),
            None => false,
        }
    }

    /// Counts a hop that comes so often; `false` where there is no room for so many.
    fn count(&mut self, times: u128) -> bool
        ensures often { self.new.often ≡ self.old.often }
        ensures hops { IsTrue result → self.new.hops ≡ self.old.hops + times }
    {
        match self.hops.checked_add(times) {
            Some(sum) => {
                self.hops = sum;
                true
            }
            None => false,
        }
    }

    /// Goes through the piece with this number.
    fn pass(&mut self, number: usize, piece: &Piece) -> bool
        requires { number < length self.old.often.items }
        ensures hops { IsTrue result → self.new.hops
            ≡ self.old.hops + get_or self.old.often.items number 0 * hops_in piece.now }
        ensures shared { IsTrue result → HasShared number self.old.often.items
            self.new.often.items
            (λ of_piece. get_or self.old.often.items number 0 * by_named of_piece piece.now) }
    {
        let times = self.often[number];
        match piece {
            Piece::Hop(_) => self.count(times),
            Piece::Row(names) => self.share_row(number, names, times),
            Piece::Rounds(rounds) => self.share_rounds(number, *rounds, times),
        }
    }

    /// How often each of these pieces comes, and how many hops those are, each as often as it
    /// comes; `None` where one names a piece that isn't an earlier one, or there is no room for so
    /// much.
    pub fn of(alloc: Global, pieces: &[Piece]) -> Result<Option<Often>, AllocError>
        ensures { IfOk result (λ made. IfSome made (λ often.
            (length often.often.items ≡ length pieces.now)
            × ((what : PlacedHop → ℕ)
            → sum_by what (spelled pieces.now) ≡ summed what pieces.now often.often.items)
            × (often.hops ≡ summed (λ _. 1) pieces.now often.often.items))) }
    {
        let Some(mut often) = Often::of_last(alloc, pieces.len())? else {
            return Ok(None);
        };
        for number in (0..pieces.len()).rev() {
            if !often.pass(number, &pieces[number]) {
                return Ok(None);
            }
        }
        Ok(Some(often))
    }
}
