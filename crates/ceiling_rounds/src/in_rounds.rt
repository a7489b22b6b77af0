//! A walk in rounds, as it is handed out.

ghost use Rattle.std.specs.Prelude.{◌≡◌, ◌<◌, length, slice_index};

use flow_walks::Piece;

/// A walk of the flow graph by the pieces that it is made of.
#[derive(Debug, Drop)]
pub struct InRounds {
    pub(crate) angle: u64,
    pub(crate) pieces: Vec<Piece>,
    pub(crate) passes: Vec<u128>,
    pub(crate) total: u128,
    pub(crate) lasting: Vec<u128>,
    pub(crate) often: Vec<u128>,
}

impl InRounds {
    ghost use Rattle.ceiling_rounds.specs.InRounds.{angle_of, lasting_of, often_of, pieces_of};
    ghost use Rattle.ceiling_rounds.specs.InRounds.{passes_in, total_of};

    /// The drum's angle when the walk begins.
    pub fn angle(&self) -> u64
        ensures { result ≡ angle_of self.now }
    {
        self.angle
    }

    /// Its pieces, in order: the last spells out the whole walk.
    pub fn pieces(&self) -> &[Piece]
        ensures { result.now ≡ pieces_of self.now }
    {
        &self.pieces
    }

    /// How often it passes the mark with this index in the notes, from 0.
    pub fn passes(&self, mark: usize) -> u128
        requires { mark < length (passes_in self.now) }
        ensures { result ≡ slice_index (passes_in self.now) mark }
    {
        self.passes[mark]
    }

    /// The word times that it takes.
    pub fn total(&self) -> u128
        ensures { result ≡ total_of self.now }
    {
        self.total
    }

    /// The word times that its piece with this number takes.
    pub fn lasting(&self, number: usize) -> u128
        requires { number < length (lasting_of self.now) }
        ensures { result ≡ slice_index (lasting_of self.now) number }
    {
        self.lasting[number]
    }

    /// How often its piece with this number, if that is a hop, comes in the whole walk.
    pub fn often(&self, number: usize) -> u128
        requires { number < length (often_of self.now) }
        ensures { result ≡ slice_index (often_of self.now) number }
    {
        self.often[number]
    }
}
