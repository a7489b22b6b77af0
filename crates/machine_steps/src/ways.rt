//! The ways in which a step of an instruction may end.

ghost use Rattle.std.specs.Prelude.{◌≡◌, ◌<◌, ◌++◌, [], false, None, IfNone, option_to_list};
ghost use Rattle.std.specs.Iterator.{YieldsFirstBy, item_count};
ghost use Rattle.machine_steps.specs.Ways as said;
ghost use Rattle.machine_steps.specs.WaysLeft.{seen_way, addresses_left, ways_left};

use base_notes::{Notes, Programmed};
use base_words::{Instruction, Location, Op};

/// How a step may end.
#[derive(Clone, Copy, Debug, PartialEq, Eq, Hash)]
pub enum Way {
    /// It stops before the operation acts, at the moment x, when the step is ready.
    Early,
    /// It goes on at a location.
    To(Location),
    /// It stops at its end, the moment e.
    Late,
}

/// The ways that are left of an instruction, three at most: Early, the next locations in order,
/// Late. An address that is no location is a stop at the end.
#[derive(Clone, Copy)]
pub struct Ways {
    stops_early: bool,
    branch: Option<u16>,
    next: Option<u16>,
    stops_late: bool,
}

impl Ways {
    /// The ways of an instruction under the notes; none of one outside the profile.
    pub fn of(notes: &Notes, instruction: Instruction) -> Ways
        ensures { ways_left result ≡ said.ways notes.now instruction }
    {
        let Some(op) = Op::of(instruction.op) else {
            return Ways::NONE;
        };
        if op.operand().suits(instruction.d) {
            Ways::of_op(notes, op, instruction.d, instruction.i)
        } else {
            Ways {
                stops_early: true,
                ..Ways::NONE
            }
        }
    }

    const NONE: Ways = Ways {
        stops_early: false,
        branch: None,
        next: None,
        stops_late: false,
    };

    /// No way.
    pub fn none() -> Ways
        ensures { ways_left result ≡ [] }
    {
        Ways::NONE
    }

    /// The ways of an operation whose D is what it wants.
    fn of_op(notes: &Notes, op: Op, d: u16, i: u16) -> Ways
        ensures { ways_left result ≡ said.ways_of notes.now op d i }
    {
        let onward = Ways {
            next: Some(i),
            ..Ways::NONE
        };
        match op {
            Op::Stop => Ways::of_stop(notes.programmed(), i),
            Op::Add(_) | Op::Divide | Op::DivideReset | Op::Multiply => Ways {
                stops_late: true,
                ..onward
            },
            Op::Branch(_) => Ways {
                branch: Some(d),
                ..onward
            },
            Op::BranchOnDigit(_) => Ways {
                branch: Some(d),
                stops_late: true,
                ..onward
            },
            Op::Read if notes.load_cards() => Ways {
                stops_early: true,
                branch: Some(d),
                ..onward
            },
            Op::Read => Ways {
                stops_early: true,
                ..onward
            },
            _ => onward,
        }
    }

    /// The ways of 01, by where the programmed switch stands.
    fn of_stop(programmed: Programmed, i: u16) -> Ways
        ensures { ways_left result ≡ said.ways_of_stop programmed i }
    {
        match programmed {
            Programmed::Stop => Ways {
                stops_late: true,
                ..Ways::NONE
            },
            Programmed::Run => Ways {
                next: Some(i),
                ..Ways::NONE
            },
            Programmed::Any => Ways {
                next: Some(i),
                stops_late: true,
                ..Ways::NONE
            },
        }
    }

    /// Takes the next address from those that are left.
    fn take_address(&mut self) -> Option<u16>
        ensures taken { addresses_left self.old ≡ option_to_list result ++ addresses_left self.new }
        ensures none { IfNone result (addresses_left self.new ≡ []) }
        ensures early { self.new.stops_early ≡ self.old.stops_early }
        ensures late { self.new.stops_late ≡ self.old.stops_late }
    {
        match self.branch.take() {
            Some(address) => Some(address),
            None => self.next.take(),
        }
    }
}

impl Iterator for Ways {
    type Item = Way;

    ghost next_gives = { YieldsFirstBy seen_way ways_left };

    ghost remaining = { item_count ways_left };

    fn next(&mut self) -> Option<Way> {
        if self.stops_early {
            self.stops_early = false;
            return Some(Way::Early);
        }
        while let Some(address) = self.take_address() {
            if let Some(location) = Location::new(address) {
                return Some(Way::To(location));
            }
            self.stops_late = true;
        }
        if self.stops_late {
            self.stops_late = false;
            return Some(Way::Late);
        }
        None
    }
}
