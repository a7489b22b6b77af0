//! An operation's entry of the timing table. What a document says of it is in `TimesDocument` of
//! `read_toml`, and when its numbers count in `Timing` of `machine_steps`.

ghost use Rattle.std.specs.Prelude.{◌≤◌};

use base_words::Parity;

/// How long an operation takes, in word times.
///
/// A step that has found its instruction at the moment f is ready at the moment x = f + `before`.
/// Then it waits for its operand, and for an angle of the parity. From there on it takes `after`,
/// `per` for each unit of its work, and, for 70 and 71, a wait for the card machine of `wait_min`
/// to `wait_max`.
#[derive(Clone, Copy, Debug, PartialEq, Eq)]
pub struct Entry {
    /// Word times from finding the instruction to the search for its operand; 1 to 1,000,000.
    pub before: u32,
    /// Word times after the angle of the parity has come; up to 1,000,000.
    pub after: u32,
    /// The parity of the angles at which the operation may act.
    pub parity: Parity,
    /// Word times for each unit of work: for each place of a shift, for each 1 of the digit sum of
    /// a multiplier or a quotient. Up to 1,000,000, and 0 for an operation without units.
    pub per: u32,
    /// The shortest wait for the card machine, in word times; up to 1,000,000, and 0 for an
    /// operation without one.
    pub wait_min: u32,
    /// The longest wait for the card machine, in word times; from `wait_min` to 1,000,000, and 0
    /// for an operation without one.
    pub wait_max: u32,
    pub ghost some_before: { 1 ≤ before },
    pub ghost short_before: { before ≤ 1000000 },
    pub ghost short_after: { after ≤ 1000000 },
    pub ghost short_per: { per ≤ 1000000 },
    pub ghost waits: { wait_min ≤ wait_max },
    pub ghost short_wait: { wait_max ≤ 1000000 },
}

impl Entry {
    /// The longest time that an entry may state, in word times.
    pub const LONGEST: u64 = 1_000_000;
}
