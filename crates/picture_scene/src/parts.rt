//! When the parts of a hop begin and end.

use base_notes::{Entry, Times};
use base_words::{Location, Op};
use flow_walks::Visit;
use machine_steps::chain::to_operand;
use machine_steps::{Way, moments};

/// The latest clock that is looked at: a walk takes fewer word times.
const LATEST: u64 = 1 << 62;

/// When the parts of a hop begin and end, as clocks: word times since a moment of angle 0. Where a
/// hop isn't of the timing table, they need not ascend.
#[derive(Clone, Copy)]
pub struct Parts {
    /// Its instruction is looked for.
    pub begun: u64,
    /// The instruction is found.
    pub found: u64,
    /// Its data is looked for.
    pub ready: u64,
    /// The data is found.
    pub reached: u64,
    /// Its work is done; from here on a card machine is waited for.
    pub worked: u64,
    /// It ends.
    pub ended: u64,
}

/// Where the instruction has its data, for which it waits; `None` where it waits for none.
pub fn data_of(visit: &Visit) -> Option<Location> {
    let op = Op::of(visit.instruction.op())?;
    let d = visit.instruction.d();
    if op.operand().suits(d) && to_operand(op, d).is_some() {
        Location::new(d)
    } else {
        None
    }
}

/// When a hop that is ready at a clock has done its work: at its end, but for 70 and 71, which wait
/// for the card machine then, unless they stop before they act.
fn worked(visit: &Visit, op: Op, entry: Entry, ready: u64, ended: u64) -> u64 {
    let d = visit.instruction.d();
    let has_cards = matches!(op, Op::Read | Op::Punch) && !matches!(visit.way, Way::Early);
    if has_cards && op.operand().suits(d) && ready <= LATEST {
        moments::ended(entry, op, d, 0, 0, ready).min(ended)
    } else {
        ended
    }
}

/// When the instruction is found that a hop goes on at; never where it goes on at none.
pub fn next_found(visit: &Visit, parts: Parts) -> u64 {
    match visit.way {
        Way::To(onto) => moments::found(onto, parts.ended.min(LATEST)),
        Way::Early | Way::Late => u64::MAX,
    }
}

impl Parts {
    /// The parts of a hop of a walk from this angle.
    pub fn of(visit: &Visit, angle: u64, times: &Times) -> Parts {
        let angle = angle.min(49);
        let begun = visit.begun.min(LATEST) + angle;
        let ended = visit.ended().min(LATEST) + angle;
        let found = moments::found(visit.place, begun);
        match Op::of(visit.instruction.op()) {
            Some(op) => Parts::of_op(visit, op, times.entry(op), [begun, found, ended]),
            None => Parts {
                begun,
                found,
                ready: ended,
                reached: ended,
                worked: ended,
                ended,
            },
        }
    }

    /// The parts of a hop with this operation, of which these are known: when it begins, is found
    /// and ends.
    fn of_op(visit: &Visit, op: Op, entry: Entry, known: [u64; 3]) -> Parts {
        let [begun, found, ended] = known;
        let ready = found.saturating_add(u64::from(entry.before)).min(ended);
        let d = visit.instruction.d();
        let reached = if op.operand().suits(d) && ready <= LATEST {
            moments::reached(op, d, ready).min(ended)
        } else {
            ready
        };
        Parts {
            begun,
            found,
            ready,
            reached,
            worked: worked(visit, op, entry, ready, ended).max(reached),
            ended,
        }
    }
}
