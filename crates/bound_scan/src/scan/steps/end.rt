//! Ends of hops, and their one maker.

ghost use Rattle.std.specs.Prelude.{◌≡◌, ◌+◌, ◌%◌, ◌<◌};

use crate::instruction_search::InstructionSearch;
use crate::key_hop::KeyHop;
use crate::latest::Latest;
use crate::leap::Leap;
use crate::scan::Scan;
use base_words::REVOLUTION;
use std::sync::ledger::Ledger;

/// The latest end of a hop from a key, which a scan makes at the hop's turn, and counts. It can't
/// be dropped: [`Cells::raise`](crate::cells::Cells::raise), `stop` or `bar` has to spend it.
pub struct End {
    clock: u64,
    origin: KeyHop,
}

impl<L: Ledger> Scan<'_, L> {
    ghost use Rattle.bound_scan.specs.EndOf.{latest_in};
    ghost use Rattle.bound_scan.specs.ScanOf.{IsReady, IsTurn, setting_in};
    ghost use Rattle.bound_scan.specs.SearchOf.{end_sought};

    /// The end of a hop of the key whose instruction is sought, that of this number among the
    /// key's, at its turn: the latest that it can have. No other function makes one.
    #[inline(always)]
    pub(in crate::scan) fn end(
        &mut self,
        search: &InstructionSearch,
        number: usize,
        leap: &Leap,
    ) -> End
        requires ready { IsReady self.old search.now number leap.now }
        requires turn { IsTurn self.old search.now.key number }
        ensures latest { latest_in result
            ≡ end_sought (setting_in self.old) search.now number leap.now }
        ensures same { self.new ≡ record self.old { steps = self.old.steps + 1 } }
    {
        self.steps.tick();
        End {
            clock: search.found + u64::from(leap.time),
            origin: KeyHop {
                key: search.key as u32,
                number: number as u32,
            },
        }
    }
}

impl End {
    ghost use Rattle.bound_scan.specs.EndOf.{latest_in};

    /// Its clock.
    pub fn clock(&self) -> u64
        ensures { result ≡ self.now.clock }
    {
        self.clock
    }

    /// The drum's angle then, 0 to 49.
    pub fn angle(&self) -> u8
        ensures value { result ≡ self.now.clock % 50 }
        ensures on_drum { result < 50 }
    {
        (self.clock % REVOLUTION) as u8
    }

    /// The hop of a key that it is of.
    pub fn origin(&self) -> KeyHop
        ensures { result ≡ self.now.origin }
    {
        self.origin
    }

    /// What is kept of it. It is spent.
    pub fn spend(self) -> Latest
        ensures { result ≡ latest_in self }
    {
        let End { clock, origin } = self;
        Latest {
            clock,
            origin: Some(origin),
        }
    }
}
