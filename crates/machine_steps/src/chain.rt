//! The time of a step, as a chain of waits and delays: a clockwork, like each of them.

ghost use Rattle.std.specs.Prelude.{◌≡◌, ℕ, ◌<◌, ◌≤◌, ◌+◌, ◌*◌, true};
ghost use Rattle.machine_rotation.specs.Available.{has_parity};
ghost use Rattle.machine_rotation.specs.Moment.{first};
ghost use Rattle.base_words.specs.Op.{operand_of, is_operand};
ghost use Rattle.machine_steps.specs.Timing.{ready, waits_for_operand as waits_for, reached, ended};
ghost use Rattle.machine_steps.specs.Timing.{longest_step};

use base_notes::Entry;
use base_words::{Location, Op};
use machine_rotation::{AtParity, Clockwork, Delay, Seek, Then};

/// A step up to the moment x: the search for its instruction, and then what its operation takes
/// before it looks for its operand.
pub type ToReady = Then<Seek, Delay>;

/// A step from x on: the search for the operand, where the operation waits for one, then an angle
/// of its parity, and then what it takes from there on.
pub type FromReady = Then<Then<Option<Seek>, AtParity>, Delay>;

/// A step from its beginning to its end. Where it stops early, it takes the first part alone.
pub type ToEnd = Then<ToReady, FromReady>;

/// Whether the operation waits for its operand at D: 10, 11, 14 to 24, 60, 61, 64 to 69.
pub fn waits_for_operand(op: Op) -> bool
    ensures { result ≡ waits_for op }
{
    match op {
        Op::Add(_)
        | Op::ResetAdd(_)
        | Op::Divide
        | Op::DivideReset
        | Op::Multiply
        | Op::Store(_)
        | Op::LoadDistributor => true,
        _ => false,
    }
}

/// The search for the operand at D, where the operation waits for it.
pub fn to_operand(op: Op, d: u16) -> Option<Seek>
    requires { is_operand (operand_of op) d ≡ true }
    ensures moment { (x : ℕ) → ⟦<Option<Seek> as Clockwork>⟧.moment result x ≡ reached op d x }
    ensures short { ⟦<Option<Seek> as Clockwork>⟧.most result ≤ 49 }
{
    if waits_for_operand(op) {
        Some(Seek::of(Location { number: d }))
    } else {
        None
    }
}

/// Up to x, a step of an operation with this entry whose instruction is at the place.
pub fn to_ready(entry: Entry, place: Location) -> ToReady
    ensures moment { (clock : ℕ)
        → ⟦<ToReady as Clockwork>⟧.moment result clock ≡ ready entry place.number clock }
    ensures advances { (clock : ℕ) → clock < ⟦<ToReady as Clockwork>⟧.moment result clock }
    ensures short { ⟦<ToReady as Clockwork>⟧.most result ≤ 1000049 }
{
    Then {
        first: Seek::of(place),
        second: Delay {
            word_times: u64::from(entry.before),
        },
    }
}

/// From x on, a step with `units` units of work and a wait of `wait` word times for the card
/// machine.
pub fn from_ready(entry: Entry, op: Op, d: u16, units: u64, wait: u32) -> FromReady
    requires operand { is_operand (operand_of op) d ≡ true }
    requires work { entry.per * units + wait ≤ 90000000 }
    ensures moment { (x : ℕ) → ⟦<FromReady as Clockwork>⟧.moment result x
        ≡ first (has_parity entry.parity) (reached op d x)
        + entry.after + entry.per * units + wait }
    ensures short { ⟦<FromReady as Clockwork>⟧.most result ≤ 91000050 }
{
    let work = u64::from(entry.per) * units + u64::from(wait);
    Then {
        first: Then {
            first: to_operand(op, d),
            second: AtParity::new(entry.parity),
        },
        second: Delay {
            word_times: u64::from(entry.after) + work,
        },
    }
}

/// From its beginning to its end, a step whose instruction is at the place, with `units` units of
/// work and a wait of `wait` word times for the card machine.
pub fn to_end(entry: Entry, op: Op, place: Location, d: u16, units: u64, wait: u32) -> ToEnd
    requires operand { is_operand (operand_of op) d ≡ true }
    requires work { entry.per * units + wait ≤ 90000000 }
    ensures moment { (clock : ℕ) → ⟦<ToEnd as Clockwork>⟧.moment result clock
        ≡ ended entry op d place.number units wait clock }
    ensures short { ⟦<ToEnd as Clockwork>⟧.most result ≤ longest_step }
{
    Then {
        first: to_ready(entry, place),
        second: from_ready(entry, op, d, units, wait),
    }
}
