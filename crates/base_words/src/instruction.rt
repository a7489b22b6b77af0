ghost use Rattle.std.specs.Prelude.{◌≡◌, ◌^◌, ◌<◌};

use crate::word::Word;

/// The instruction that a word's ten digits are: two of operation, four of D, four of I.
///
/// Source: the IBM 650 Manual of Operation, but for this: the word's sign isn't looked at.
#[derive(Clone, Copy, Debug, PartialEq, Eq, Hash)]
pub struct Instruction {
    /// The operation's two digits.
    pub op: u8,
    /// The data address.
    pub d: u16,
    /// The address of the next instruction.
    pub i: u16,
    pub ghost two: { op < 100 },
    pub ghost four: { d < 10 ^ 4 },
    pub ghost next_four: { i < 10 ^ 4 },
}

impl Instruction {
    ghost use Rattle.base_words.specs.Instruction.{IsInstructionOf, instruction_of};

    /// The instruction of a word, whose sign plays no part.
    pub fn of(word: Word) -> Instruction
        ensures spelled { IsInstructionOf word.digits result }
        ensures is { result ≡ instruction_of word }
    {
        Instruction {
            op: (word.digits / 100_000_000) as u8,
            d: (word.digits / 10_000 % 10_000) as u16,
            i: (word.digits % 10_000) as u16,
        }
    }

    /// The operation's two digits, as a number below 100.
    pub fn op(self) -> u8
        ensures { result ≡ self.op }
    {
        self.op
    }

    /// The data address, as a number below 10,000.
    pub fn d(self) -> u16
        ensures { result ≡ self.d }
    {
        self.d
    }

    /// The address of the next instruction, as a number below 10,000.
    pub fn i(self) -> u16
        ensures { result ≡ self.i }
    {
        self.i
    }
}
