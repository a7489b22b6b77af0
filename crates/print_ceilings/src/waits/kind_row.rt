//! What the hops of a kind take.

ghost use Rattle.std.specs.Prelude.{◌≡◌};

use super::alone::alone;
use base_notes::Times;
use flow_walks::Placed;
use print_hops::{Spent, Sums, TimedHop};

/// What all hops of a kind take, with the first piece that is one of them.
#[derive(Clone, Copy)]
pub struct KindRow {
    /// The number of that piece.
    pub number: usize,
    /// Its hop alone, begun at time 0.
    pub told: TimedHop,
    /// The drum's angle when that hop begins.
    pub angle: u8,
    /// What all of them take.
    pub sums: Sums,
    pub ghost at_once: { told.begun ≡ 0 },
}

impl KindRow {
    ghost use Rattle.std.specs.Prelude.{◌≡◌, ◌+◌, ◌*◌, ◌^◌, ◌<◌, ◌≤◌};
    ghost use Rattle.base_notes.specs.Entries.{entry_in};
    ghost use Rattle.flow_walks.specs.Pieces.{seen_placed};
    ghost use Rattle.ceiling_rounds.specs.InRounds.{takes};
    ghost use Rattle.print_hops.specs.TimedHop.{seen_timed};
    ghost use Rattle.print_ceilings.specs.RoundsWaitsOf.{alone, waits_data, waits_instruction};

    /// The row of one piece: a hop that takes `took` word times and comes `often` times.
    pub fn of(number: usize, one: Placed, took: u64, often: u128, times: &Times) -> KindRow
        requires took { took ≡ takes (entry_in times.now) (seen_placed one) }
        requires time { often * took < 2 ^ 127 }
        requires instruction { waits_instruction (entry_in times.now) (seen_placed one) ≤ took }
        requires operand { waits_data (entry_in times.now) (seen_placed one) ≤ took }
        ensures number { result.number ≡ number }
        ensures told { seen_timed result.told ≡ alone (entry_in times.now) (seen_placed one) }
        ensures angle { result.angle ≡ one.angle }
        ensures visits { result.sums.visits ≡ often }
        ensures time { result.sums.time ≡ often * takes (entry_in times.now) (seen_placed one) }
        ensures instruction { result.sums.instruction
            ≡ often * waits_instruction (entry_in times.now) (seen_placed one) }
        ensures operand { result.sums.operand
            ≡ often * waits_data (entry_in times.now) (seen_placed one) }
    {
        let told = alone(one, took);
        let angle = one.angle as u8;
        KindRow {
            number,
            told,
            angle,
            sums: Sums::of(&Spent::of(&told, times, angle), often),
        }
    }

    /// This row with the hops of a later one. Its own piece stays the first.
    pub fn plus(&self, other: &KindRow) -> KindRow
        requires visits { self.now.sums.visits + other.now.sums.visits < 2 ^ 128 }
        requires time { self.now.sums.time + other.now.sums.time < 2 ^ 128 }
        requires instruction { self.now.sums.instruction + other.now.sums.instruction < 2 ^ 128 }
        requires operand { self.now.sums.operand + other.now.sums.operand < 2 ^ 128 }
        ensures number { result.number ≡ self.now.number }
        ensures told { result.told ≡ self.now.told }
        ensures angle { result.angle ≡ self.now.angle }
        ensures visits { result.sums.visits
            ≡ self.now.sums.visits + other.now.sums.visits }
        ensures time { result.sums.time ≡ self.now.sums.time + other.now.sums.time }
        ensures instruction { result.sums.instruction
            ≡ self.now.sums.instruction + other.now.sums.instruction }
        ensures operand { result.sums.operand
            ≡ self.now.sums.operand + other.now.sums.operand }
    {
        KindRow {
            number: self.number,
            told: self.told,
            angle: self.angle,
            sums: self.sums.plus(&other.sums),
        }
    }
}
