ghost use Rattle.std.specs.Prelude.{◌≡◌, ◌^◌, ◌<◌, ◌≤◌, ◌+◌, unsigned_abs, vec_len};
ghost use Rattle.machine_steps.specs.Effect.{band as band_of, with_words};

use crate::arithmetic::{
    HALF, WHOLE, amount_of, differ, digit_at, digit_sum, is_minus, is_too_large, lower, make_word,
    number_in, product, quotient, rest, shifted, signed, sum, upper,
};
use base_words::{Amount, Branch, Kind, Location, Op, Position, Shift, Store, Word};
use machine_steps::{Card, Why, places};

/// What a machine holds apart from the time and from the cards in its reader.
///
/// Source: the IBM 650 Manual of Operation.
#[derive(Debug, Drop)]
pub struct Registers {
    /// The 2000 words of the drum.
    pub drum: Vec<Word>,
    /// The word of the storage entry switches.
    pub switches: Word,
    /// The distributor.
    pub distributor: Word,
    /// The accumulator: one whole number of twenty digits at most.
    pub accumulator: i128,
    /// Whether the dividend was minus, while the remainder's sign stands; else `None`.
    pub remainder: Option<bool>,
    /// Whether the overflow latch is on.
    pub latch: bool,
    /// Whether the programmed switch is at STOP.
    pub programmed_stops: bool,
    /// Whether the overflow switch is at STOP.
    pub overflow_stops: bool,
    pub ghost whole_drum: { vec_len drum ≡ 2000 },
    pub ghost twenty: { unsigned_abs accumulator < 10 ^ 20 },
}

impl Registers {
    ghost use Rattle.std.specs.Prelude.{List, ◌∷◌, true, is_some};
    ghost use Rattle.base_words.specs.Location.{is_location};
    ghost use Rattle.base_words.specs.Op.{operand_of, is_operand};
    ghost use Rattle.base_words.specs.declared.op.Op.TheVariants as Op;
    ghost use Rattle.machine_steps.specs.Step.{is_read};
    ghost use Rattle.machine_steps.specs.declared.card.Card.{Card};
    ghost use Rattle.machine_steps.specs.Contents.{word_at as word_in, lower_word as lower_in};
    ghost use Rattle.machine_steps.specs.Contents.{upper_word as upper_in};
    ghost use Rattle.machine_steps.specs.Effect.{keeps as keeps_in, stored as stored_in};
    ghost use Rattle.machine_steps.specs.Effect.{holds as holds_in, punched as punched_in, goes};
    ghost use Rattle.machine_steps.specs.Effect.{effect};
    ghost use Rattle.machine_steps.specs.declared.why.Why.TheVariants as Why;
    ghost use Rattle.machine_steps.specs.Timing.{units_of};
    ghost use Rattle.machine_emulator.specs.Registers.{contents_with, cards_before, outcome_of};
    ghost use Rattle.machine_emulator.specs.Registers.{HasEffect};

    /// The lower ten digits of the accumulator as a word.
    fn lower_word(&self) -> Word
        ensures { (cards : List Card) → result ≡ lower_in (contents_with self.now cards) }
    {
        make_word(is_minus(self.accumulator), lower(self.accumulator))
    }

    /// The upper ten digits of the accumulator as a word; its sign is the remainder's while that
    /// stands.
    fn upper_word(&self) -> Word
        ensures { (cards : List Card) → result ≡ upper_in (contents_with self.now cards) }
    {
        let minus = self.remainder.unwrap_or(is_minus(self.accumulator));
        make_word(minus, upper(self.accumulator))
    }

    /// The word at a location.
    pub fn word_at(&self, location: Location) -> Word
        ensures { (cards : List Card)
            → result ≡ word_in (contents_with self.now cards) location.number }
    {
        match location.kind() {
            Kind::Drum => self.drum[location.number() as usize],
            Kind::Switches => self.switches,
            Kind::Distributor => self.distributor,
            Kind::Lower => self.lower_word(),
            Kind::Upper => self.upper_word(),
        }
    }

    /// The word at D, where D is a location.
    fn operand(&self, d: u16) -> Word
        requires { is_location d ≡ true }
        ensures { (cards : List Card) → result ≡ word_in (contents_with self.now cards) d }
    {
        self.word_at(Location { number: d })
    }

    /// The accumulator becomes what twenty digits hold of the number. A number of more digits is an
    /// overflow: the latch goes on, and the machine stops where the overflow switch is at STOP.
    fn keep(&mut self, number: i128, next: u16) -> Result<u16, Why>
        requires { unsigned_abs number < 10 ^ 30 }
        ensures { HasEffect (λ c. keeps_in c number next) self.old self.new result }
    {
        self.remainder = None;
        let size = number.unsigned_abs();
        if size < WHOLE {
            self.accumulator = number;
            return Ok(next);
        }
        self.accumulator = signed(is_minus(number), size % WHOLE);
        self.latch = true;
        if self.overflow_stops {
            return Err(Why::Overflow);
        }
        Ok(next)
    }

    /// 10, 11, 15 to 18: adds to the accumulator.
    pub fn add(&mut self, amount: Amount, d: u16, i: u16) -> Result<u16, Why>
        requires { is_location d ≡ true }
        ensures { HasEffect (λ c. effect c (Op.Add amount) d i) self.old self.new result }
    {
        let word = self.operand(d);
        self.distributor = word;
        let number = sum(self.accumulator, amount, word);
        self.keep(number, i)
    }

    /// 60, 61, 65 to 68: adds to an accumulator set to 0.
    pub fn reset_add(&mut self, amount: Amount, d: u16, i: u16) -> Result<u16, Why>
        requires { is_location d ≡ true }
        ensures { HasEffect (λ c. effect c (Op.ResetAdd amount) d i) self.old self.new result }
    {
        let word = self.operand(d);
        self.distributor = word;
        self.accumulator = amount_of(amount, number_in(word));
        self.remainder = None;
        Ok(i)
    }

    /// 19: multiplies the upper half of the accumulator.
    pub fn multiply(&mut self, d: u16, i: u16) -> Result<u16, Why>
        requires { is_location d ≡ true }
        ensures { HasEffect (λ c. effect c Op.Multiply d i) self.old self.new result }
    {
        let word = self.operand(d);
        self.distributor = word;
        let number = product(self.accumulator, number_in(word));
        self.keep(number, i)
    }

    /// Stops a division whose quotient has more than ten digits, or that is by 0: the latch goes
    /// on.
    fn stop_division(&mut self) -> Why
        ensures why { result ≡ Why.Quotient }
        ensures held { self.new ≡ record self.old { latch = true } }
    {
        self.latch = true;
        Why::Quotient
    }

    /// 14: divides, and leaves the quotient in the lower half and the remainder in the upper; it
    /// stops where the quotient is too large.
    pub fn divide(&mut self, d: u16, i: u16) -> Result<u16, Why>
        requires { is_location d ≡ true }
        ensures { HasEffect (λ c. effect c Op.Divide d i) self.old self.new result }
    {
        let word = self.operand(d);
        self.distributor = word;
        let by = number_in(word);
        if is_too_large(self.accumulator, by) {
            return Err(self.stop_division());
        }
        self.remainder = Some(is_minus(self.accumulator));
        let size = rest(self.accumulator, by) * HALF + quotient(self.accumulator, by);
        self.accumulator = signed(differ(self.accumulator, by), size);
        Ok(i)
    }

    /// 64: divides, and leaves the quotient in the lower half and 0 in the upper; it stops where
    /// the quotient is too large.
    pub fn divide_reset(&mut self, d: u16, i: u16) -> Result<u16, Why>
        requires { is_location d ≡ true }
        ensures { HasEffect (λ c. effect c Op.DivideReset d i) self.old self.new result }
    {
        let word = self.operand(d);
        self.distributor = word;
        let by = number_in(word);
        if is_too_large(self.accumulator, by) {
            return Err(self.stop_division());
        }
        self.remainder = None;
        self.accumulator = signed(differ(self.accumulator, by), quotient(self.accumulator, by));
        Ok(i)
    }

    /// 30, 31, 35: shifts the accumulator.
    pub fn shift(&mut self, shift: Shift, d: u16, i: u16) -> Result<u16, Why>
        ensures { HasEffect (λ c. effect c (Op.Shift shift) d i) self.old self.new result }
    {
        let size = shifted(shift, d, self.accumulator.unsigned_abs());
        self.accumulator = signed(is_minus(self.accumulator), size);
        self.remainder = None;
        Ok(i)
    }

    /// 69: loads the distributor.
    pub fn load_distributor(&mut self, d: u16, i: u16) -> Result<u16, Why>
        requires { is_location d ≡ true }
        ensures { HasEffect (λ c. effect c Op.LoadDistributor d i) self.old self.new result }
    {
        self.distributor = self.operand(d);
        Ok(i)
    }

    /// The word that a store instruction stores.
    fn stored(&self, store: Store) -> Word
        ensures { (cards : List Card) → result ≡ stored_in store (contents_with self.now cards) }
    {
        let word = self.distributor;
        let lower = lower(self.accumulator);
        match store {
            Store::Lower => self.lower_word(),
            Store::Upper => self.upper_word(),
            Store::DataAddress => {
                let address = lower / 10_000 % 10_000 * 10_000;
                let digits = word.digits() / 100_000_000 * 100_000_000
                    + address
                    + word.digits() % 10_000;
                make_word(word.minus(), digits)
            }
            Store::InstructionAddress => {
                make_word(
                    word.minus(),
                    word.digits() / 10_000 * 10_000 + lower % 10_000,
                )
            }
            Store::Distributor => word,
        }
    }

    /// 20 to 24: stores a word at D, and in the distributor.
    pub fn store(&mut self, store: Store, d: u16, i: u16) -> Result<u16, Why>
        requires { d < 2000 }
        ensures { HasEffect (λ c. effect c (Op.Store store) d i) self.old self.new result }
    {
        let word = self.stored(store);
        self.drum[d as usize] = word;
        self.distributor = word;
        Ok(i)
    }

    /// Whether a branch goes on at D.
    fn holds(&self, branch: Branch) -> bool
        ensures { (cards : List Card) → result ≡ holds_in branch (contents_with self.now cards) }
    {
        match branch {
            Branch::UpperNonZero => upper(self.accumulator) != 0,
            Branch::NonZero => self.accumulator.unsigned_abs() != 0,
            Branch::Minus => is_minus(self.accumulator),
            Branch::Overflow => self.latch,
        }
    }

    /// 44 to 47: goes on at D where what it tests holds; a branch on overflow turns the latch off.
    pub fn branch(&mut self, branch: Branch, d: u16, i: u16) -> Result<u16, Why>
        ensures { HasEffect (λ c. effect c (Op.Branch branch) d i) self.old self.new result }
    {
        let next = if self.holds(branch) { d } else { i };
        if let Branch::Overflow = branch {
            self.latch = false;
        }
        Ok(next)
    }

    /// 90 to 99: goes on at D by an 8 at a position of the distributor, at I by a 9; else stops.
    pub fn branch_on_digit(&self, position: Position, d: u16, i: u16) -> Result<u16, Why>
        ensures { HasEffect (λ c. effect c (Op.BranchOnDigit position) d i)
            self.now self.now result }
    {
        match digit_at(position, self.distributor) {
            8 => Ok(d),
            9 => Ok(i),
            _ => Err(Why::Digit),
        }
    }

    /// 01: stops where the programmed switch is at STOP.
    pub fn stop(&self, i: u16) -> Result<u16, Why>
        // D plays no part
        ensures { HasEffect (λ c. effect c Op.Stop 0 i) self.now self.now result }
    {
        if self.programmed_stops {
            Err(Why::Programmed)
        } else {
            Ok(i)
        }
    }

    /// 70: reads a card into words 01 to 10 of D's band; the next location, which is D for a load
    /// card.
    pub fn read_card(&mut self, card: &Card, d: u16, i: u16) -> u16
        requires { d < 2000 }
        ensures { (cards : List Card)
            → effect (contents_with self.old (card.now ∷ cards)) Op.Read d i
            ≡ goes (contents_with self.new cards) result }
    {
        write_words(&mut self.drum, band(d) + 1, &card.words);
        if card.load { d } else { i }
    }

    /// The words that 71 punches: words 27 to 36 of D's band.
    pub fn punched(&self, d: u16) -> [Word; 10]
        requires { d < 2000 }
        ensures { (cards : List Card) → result ≡ punched_in (contents_with self.now cards) d }
    {
        let from = band(d) + 27;
        let mut words = [self.distributor; 10];
        words.copy_from_slice(&self.drum[from..from + 10]);
        words
    }

    /// The units of an operation's work, 90 at most: the places of a shift, the digit sum of the
    /// multiplier or of the quotient; 0 for the others, and where a quotient is too large.
    pub fn units(&self, op: Op, d: u16) -> u64
        requires { is_operand (operand_of op) d ≡ true }
        ensures value { (cards : List Card)
            → result ≡ units_of op d (contents_with self.now cards) }
        ensures ninety { result ≤ 90 }
    {
        match op {
            Op::Divide | Op::DivideReset => self.quotient_units(d),
            Op::Multiply => digit_sum(u128::from(upper(self.accumulator))),
            Op::Shift(shift) => u64::from(places(shift, d)),
            _ => 0,
        }
    }

    /// The units of a division by the word at D.
    fn quotient_units(&self, d: u16) -> u64
        requires { is_location d ≡ true }
        ensures value { (cards : List Card)
            → result ≡ units_of Op.Divide d (contents_with self.now cards) }
        ensures ninety { result ≤ 90 }
    {
        let by = number_in(self.operand(d));
        if is_too_large(self.accumulator, by) {
            return 0;
        }
        digit_sum(quotient(self.accumulator, by))
    }

    /// What an instruction of this operation does, with the card that it reads: the number of the
    /// next location, or the stop.
    pub fn act(&mut self, op: Op, d: u16, i: u16, card: Option<Card>) -> Result<u16, Why>
        requires operand { is_operand (operand_of op) d ≡ true }
        requires card { is_some card ≡ is_read op }
        ensures { (cards : List Card)
            → effect (contents_with self.old (cards_before card cards)) op d i
            ≡ outcome_of result (contents_with self.new cards) }
    {
        match op {
            Op::NoOperation | Op::Punch => Ok(i),
            Op::Stop => self.stop(i),
            Op::Add(amount) => self.add(amount, d, i),
            Op::ResetAdd(amount) => self.reset_add(amount, d, i),
            Op::Divide => self.divide(d, i),
            Op::DivideReset => self.divide_reset(d, i),
            Op::Multiply => self.multiply(d, i),
            Op::Store(store) => self.store(store, d, i),
            Op::Shift(shift) => self.shift(shift, d, i),
            Op::Branch(branch) => self.branch(branch, d, i),
            Op::LoadDistributor => self.load_distributor(d, i),
            Op::Read => match card {
                Some(card) => Ok(self.read_card(&card, d, i)),
                None => unreachable!(),
            },
            Op::BranchOnDigit(position) => self.branch_on_digit(position, d, i),
        }
    }
}

/// The first location of the band that a drum location lies in.
fn band(d: u16) -> usize
    requires { d < 2000 }
    ensures value { result ≡ band_of d }
    ensures on_drum { result ≤ 1950 }
{
    50 * (d as usize / 50)
}

/// Writes ten words into consecutive drum locations.
fn write_words(drum: &mut Vec<Word>, at: usize, words: &[Word; 10])
    requires { at + 10 ≤ vec_len drum.old }
    ensures words { drum.new.items ≡ with_words drum.old.items at words.now }
    ensures len { vec_len drum.new ≡ vec_len drum.old }
{
    for place in 0..10 {
        drum[at + place] = words[place];
    }
}
