//! The operations of the profile, by their numbers, and what each wants of its data address.

ghost use Rattle.std.specs.Prelude.{◌≡◌, ◌≢◌, IfSome, IfNone};

use crate::location::Location;
use amount::Amount;
use branch::Branch;
use position::Position;
use shift::Shift;
use store::Store;

pub mod amount;
pub mod branch;
pub mod position;
pub mod shift;
pub mod store;

/// An operation of this project's profile: those of the basic machine but for 36 (shift and count)
/// and 84 (table look-up).
///
/// Source: the IBM 650 Manual of Operation.
#[derive(Clone, Copy, Debug, PartialEq, Eq)]
pub enum Op {
    /// 00: nothing.
    NoOperation,
    /// 01: stops where the programmed switch is at STOP.
    Stop,
    /// 10, 11, 15 to 18: adds to the accumulator.
    Add(Amount),
    /// 60, 61, 65 to 68: sets the accumulator to 0, and adds to it.
    ResetAdd(Amount),
    /// 14: divides the accumulator.
    Divide,
    /// 64: divides the accumulator, and sets its upper half to 0.
    DivideReset,
    /// 19: multiplies the upper half of the accumulator.
    Multiply,
    /// 20 to 24: stores at D.
    Store(Store),
    /// 30, 31, 35: shifts the accumulator.
    Shift(Shift),
    /// 44 to 47: goes on at D where what it tests holds.
    Branch(Branch),
    /// 69: loads the distributor from D.
    LoadDistributor,
    /// 70: reads a card into D's band.
    Read,
    /// 71: punches a card from D's band.
    Punch,
    /// 90 to 99: goes on at D where the distributor has an 8 at a position, at I where it has a 9;
    /// else stops.
    BranchOnDigit(Position),
}

/// What an operation requires of its data address D.
#[derive(Clone, Copy, Debug, PartialEq, Eq)]
pub enum Operand {
    /// D is a location, on the drum or beside it: 10, 11, 14 to 19, 60, 61, 64 to 69.
    Any,
    /// D is a location on the drum: 20 to 24, 70, 71.
    Drum,
    /// D may be any address: all other operations.
    Unused,
}

impl Operand {
    ghost use Rattle.base_words.specs.Op.{is_operand};

    /// Whether a data address is one that meets it.
    pub fn suits(self, d: u16) -> bool
        ensures { result ≡ is_operand self d }
    {
        match self {
            Operand::Any => Location::new(d).is_some(),
            Operand::Drum => d < Location::DRUM,
            Operand::Unused => true,
        }
    }
}

impl Op {
    ghost use Rattle.base_words.specs.Op.{number_of, op_of, operand_of, ops};

    /// The 42 operations, in ascending order of their numbers.
    pub fn all() -> [Op; 42]
        ensures { result ≡ ops }
    {
        [
            Op::NoOperation,
            Op::Stop,
            Op::Add(Amount::Upper),
            Op::Add(Amount::MinusUpper),
            Op::Divide,
            Op::Add(Amount::Lower),
            Op::Add(Amount::MinusLower),
            Op::Add(Amount::AbsoluteLower),
            Op::Add(Amount::MinusAbsoluteLower),
            Op::Multiply,
            Op::Store(Store::Lower),
            Op::Store(Store::Upper),
            Op::Store(Store::DataAddress),
            Op::Store(Store::InstructionAddress),
            Op::Store(Store::Distributor),
            Op::Shift(Shift::Right),
            Op::Shift(Shift::Round),
            Op::Shift(Shift::Left),
            Op::Branch(Branch::UpperNonZero),
            Op::Branch(Branch::NonZero),
            Op::Branch(Branch::Minus),
            Op::Branch(Branch::Overflow),
            Op::ResetAdd(Amount::Upper),
            Op::ResetAdd(Amount::MinusUpper),
            Op::DivideReset,
            Op::ResetAdd(Amount::Lower),
            Op::ResetAdd(Amount::MinusLower),
            Op::ResetAdd(Amount::AbsoluteLower),
            Op::ResetAdd(Amount::MinusAbsoluteLower),
            Op::LoadDistributor,
            Op::Read,
            Op::Punch,
            Op::BranchOnDigit(Position::Tenth),
            Op::BranchOnDigit(Position::First),
            Op::BranchOnDigit(Position::Second),
            Op::BranchOnDigit(Position::Third),
            Op::BranchOnDigit(Position::Fourth),
            Op::BranchOnDigit(Position::Fifth),
            Op::BranchOnDigit(Position::Sixth),
            Op::BranchOnDigit(Position::Seventh),
            Op::BranchOnDigit(Position::Eighth),
            Op::BranchOnDigit(Position::Ninth),
        ]
    }

    /// The operation of this number; `None` for a number outside the profile.
    pub fn of(number: u8) -> Option<Op>
        ensures found { IfSome result (λ op. number_of op ≡ number) }
        ensures none { IfNone result ((op : Op) → number_of op ≢ number) }
        ensures listed { result ≡ op_of number }
    {
        Op::with_number(number)
    }

    fn with_number(number: u8) -> Option<Op>
        ensures found { IfSome result (λ op. number_of op ≡ number) }
        ensures none { IfNone result ((op : Op) → number_of op ≢ number) }
    {
        Some(match number {
            0 => Op::NoOperation,
            1 => Op::Stop,
            14 => Op::Divide,
            64 => Op::DivideReset,
            19 => Op::Multiply,
            69 => Op::LoadDistributor,
            70 => Op::Read,
            71 => Op::Punch,
            10..=18 => Op::Add(Amount::of(number)?),
            60..=68 => Op::ResetAdd(Amount::of(number - 50)?),
            20..=24 => Op::Store(Store::of(number)?),
            30..=35 => Op::Shift(Shift::of(number)?),
            44..=47 => Op::Branch(Branch::of(number)?),
            90..=99 => Op::BranchOnDigit(Position::of(number)?),
            _ => return None,
        })
    }

    /// Its number, of two digits.
    pub fn number(self) -> u8
        ensures { result ≡ number_of self }
    {
        match self {
            Op::NoOperation => 0,
            Op::Stop => 1,
            Op::Add(amount) => amount.number(),
            Op::ResetAdd(amount) => amount.number() + 50,
            Op::Divide => 14,
            Op::DivideReset => 64,
            Op::Multiply => 19,
            Op::Store(store) => store.number(),
            Op::Shift(shift) => shift.number(),
            Op::Branch(branch) => branch.number(),
            Op::LoadDistributor => 69,
            Op::Read => 70,
            Op::Punch => 71,
            Op::BranchOnDigit(position) => position.number(),
        }
    }

    /// What it requires of its data address.
    pub fn operand(self) -> Operand
        ensures { result ≡ operand_of self }
    {
        match self {
            Op::Add(_)
            | Op::ResetAdd(_)
            | Op::Divide
            | Op::DivideReset
            | Op::Multiply
            | Op::LoadDistributor => { Operand::Any }
            Op::Store(_) | Op::Read | Op::Punch => Operand::Drum,
            _ => Operand::Unused,
        }
    }
}
