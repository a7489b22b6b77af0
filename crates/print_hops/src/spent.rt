//! What one hop takes.

ghost use Rattle.std.specs.Prelude.{◌≡◌};
ghost use Rattle.base_notes.specs.Entries.{entry_in};
ghost use Rattle.print_hops.specs.TimedHop.{seen_timed};
ghost use Rattle.print_hops.specs.Waits.{for_cards};

use crate::moments::Moments;
use crate::timed_hop::TimedHop;
use base_notes::Times;
use base_words::Op;
use flow_graph::longest::most_wait;
use machine_steps::Way;

/// How long a hop waits for the card machine, in word times: as long as its operation may have to,
/// unless the step stops before it acts.
fn card_wait(told: &TimedHop, times: &Times) -> u32
    ensures { result ≡ for_cards (entry_in times.now) (seen_timed told.now) }
{
    if matches!(told.way, Way::Early) {
        return 0;
    }
    let Some(op) = Op::of(told.instruction.op()) else {
        return 0;
    };
    most_wait(op, times.entry(op))
}

/// What a hop takes, in word times.
#[derive(Clone, Copy)]
pub struct Spent {
    /// In all, from the search for its instruction to its end.
    pub time: u64,
    /// Until its instruction is found.
    pub instruction: u64,
    /// From where its operation can begin until it has its data.
    pub operand: u64,
    /// For the card machine, as long as its operation may have to.
    pub cards: u64,
}

impl Spent {
    ghost use Rattle.std.specs.Prelude.{◌^◌, ◌≤◌};
    ghost use Rattle.print_hops.specs.Waits.{for_data, for_instruction, time_of};

    /// What a hop takes, on a drum with this angle at time 0.
    pub fn of(told: &TimedHop, times: &Times, angle: u8) -> Spent
        requires { told.now.begun ≤ 2 ^ 62 }
        ensures time { result.time ≡ time_of (seen_timed told.now) }
        ensures instruction { result.instruction
            ≡ for_instruction (entry_in times.now) angle (seen_timed told.now) }
        ensures operand { result.operand
            ≡ for_data (entry_in times.now) angle (seen_timed told.now) }
        ensures cards { result.cards ≡ for_cards (entry_in times.now) (seen_timed told.now) }
    {
        let moments = Moments::of(told, times, angle);
        let operand = match (moments.ready, moments.operand) {
            (Some(ready), Some(operand)) => operand - ready,
            _ => 0,
        };
        Spent {
            time: told.ended.saturating_sub(told.begun),
            instruction: moments.found - told.begun,
            operand,
            cards: u64::from(card_wait(told, times)),
        }
    }
}
