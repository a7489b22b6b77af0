//! The pieces that a walk in rounds is made of.

ghost use Rattle.std.specs.Prelude.{◌≡◌, ◌+◌, ◌<◌, ◌≤◌};
ghost use Rattle.base_notes.specs.Entries.{entry_in};
ghost use Rattle.machine_steps.specs.Timing.{longest_step};
ghost use Rattle.machine_steps.specs.WaysLeft.{seen_way};
ghost use Rattle.flow_graph.specs.Longest as defined;
ghost use Rattle.flow_graph.specs.Profile.{MayEnd};

use base_notes::Times;
use base_words::{Location, Op};
use flow_graph::Hop;
use flow_graph::longest::longest;
use machine_steps::Way;

/// A hop of a location whose search begins at an angle.
#[derive(Clone, Copy, Debug)]
pub struct Placed {
    pub location: Location,
    /// The drum's angle when the search for the location begins, 0 to 49.
    pub angle: u64,
    pub hop: Hop,
    pub ghost on_drum: { angle < 50 },
}

impl Placed {
    /// The most word times that the hop takes; 0 where its instruction may not end by its way.
    pub fn longest(&self, times: &Times) -> u64
        ensures value { MayEnd self.now.hop.instruction (seen_way self.now.hop.way)
            → self.now.angle + result ≡ defined.longest (entry_in times.now)
            self.now.location.number self.now.hop.instruction (seen_way self.now.hop.way)
            self.now.angle }
        ensures near { result ≤ longest_step }
    {
        let Some(op) = Op::of(self.hop.instruction.op()) else {
            return 0;
        };
        let is_early = matches!(self.hop.way, Way::Early);
        if !is_early && !op.operand().suits(self.hop.instruction.d()) {
            return 0;
        }
        longest(times, self.location, self.hop, self.angle) - self.angle
    }
}

/// Rounds of an earlier piece, one after the other.
#[derive(Clone, Copy, Debug)]
pub struct Rounds {
    /// How many; 1 at least.
    pub times: u16,
    /// The number of the piece.
    pub piece: usize,
    pub ghost some: { 0 < times },
}

/// A piece of a walk. It names earlier pieces by their numbers, from 0; any other number stands for
/// no hop.
#[derive(Debug, Drop)]
pub enum Piece {
    /// A hop.
    Hop(Placed),
    /// Earlier pieces, one after the other.
    Row(Vec<usize>),
    /// So many rounds of an earlier piece.
    Rounds(Rounds),
}

impl Piece {
    ghost use Rattle.std.specs.Prelude.{length, slice_get};
    ghost use Rattle.flow_walks.specs.Pieces.{named};

    /// How many pieces it names, each as often as it does.
    pub fn names(&self) -> usize
        ensures { result ≡ length (named self.now) }
    {
        match self {
            Piece::Hop(_) => 0,
            Piece::Row(pieces) => pieces.len(),
            Piece::Rounds(_) => 1,
        }
    }

    /// The piece that it names behind so many others.
    pub fn name(&self, index: usize) -> Option<usize>
        ensures { result ≡ slice_get (named self.now) index }
    {
        match self {
            Piece::Hop(_) => None,
            Piece::Row(pieces) => pieces.get(index).copied(),
            Piece::Rounds(rounds) if index == 0 => Some(rounds.piece),
            Piece::Rounds(_) => None,
        }
    }
}
