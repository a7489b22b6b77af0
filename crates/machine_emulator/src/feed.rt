//! The cards and the waits that a machine is fed with.

ghost use Rattle.std.specs.Prelude.{◌≡◌, ◌&&◌, is_some};
ghost use Rattle.machine_steps.specs.Step.{is_read as read_is, has_cards};
ghost use Rattle.machine_steps.specs.Timing.{IsWait};
ghost use Rattle.machine_emulator.specs.Registers.{cards_before};
ghost use Rattle.machine_emulator.specs.Fed.{is_load as load_of, card_for, cards_after, wait_for};
ghost use Rattle.machine_emulator.specs.Fed.{waits_after};
ghost use Rattle.machine_emulator.specs.Feed.{cards_left, waits_left};

use base_notes::Entry;
use base_words::Op;
use machine_steps::Card;
use std::vec::IntoIter;

/// What the card machine is fed with: cards for the reader, and how long it keeps the machine
/// waiting. The waits are given one by one.
#[derive(Debug, Drop)]
pub struct Feed {
    cards: IntoIter<Card>,
    waits: IntoIter<u32>,
}

impl Feed {
    /// A feed of these cards and of these waits, in word times, each used in order.
    pub fn new(cards: Vec<Card>, waits: Vec<u32>) -> Feed
        ensures cards { cards_left result ≡ cards.items }
        ensures waits { waits_left result ≡ waits.items }
    {
        Feed {
            cards: cards.into_iter(),
            waits: waits.into_iter(),
        }
    }

    /// The card that an operation reads: for 70 the next one, if there is one, which is then taken.
    pub(crate) fn take_card(&mut self, op: Op) -> Option<Card>
        ensures card { result ≡ card_for op (cards_left self.old) }
        ensures cards { cards_left self.new ≡ cards_after op (cards_left self.old) }
        ensures waits { waits_left self.new ≡ waits_left self.old }
        ensures before { cards_before result (cards_left self.new) ≡ cards_left self.old }
        ensures taken { is_some result ≡ (read_is op && has_cards (cards_left self.old)) }
    {
        match op {
            Op::Read => self.cards.next(),
            _ => None,
        }
    }

    /// The wait of an operation: for 70 and 71 the number in the entry's range that is nearest to
    /// the next wait, or the greatest in the range where no wait is left; for others none.
    pub(crate) fn take_wait(&mut self, op: Op, entry: Entry) -> u32
        ensures wait { result ≡ wait_for op entry (waits_left self.old) }
        ensures waits { waits_left self.new ≡ waits_after op (waits_left self.old) }
        ensures cards { cards_left self.new ≡ cards_left self.old }
        ensures may { IsWait op entry result }
    {
        match op {
            Op::Read | Op::Punch => match self.waits.next() {
                Some(wait) => wait.min(entry.wait_max).max(entry.wait_min),
                None => entry.wait_max,
            },
            _ => 0,
        }
    }
}

/// Whether the operation reads a card.
pub(crate) fn is_read(op: Op) -> bool
    ensures { result ≡ read_is op }
{
    matches!(op, Op::Read)
}

/// Whether a load card was read.
pub(crate) fn is_load(card: Option<Card>) -> bool
    ensures { result ≡ load_of card }
{
    match card {
        Some(card) => card.load,
        None => false,
    }
}
