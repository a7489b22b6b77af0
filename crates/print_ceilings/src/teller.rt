//! What is known of a walk to tell its pieces; a hop, and a part that comes again.

ghost use Rattle.std.specs.Prelude.{◌≡◌, ◌<◌, Some, length, slice_get};
ghost use Rattle.flow_walks.specs.Pieces.{spelled_of};
ghost use Rattle.flow_walks.specs.declared.piece.Piece.TheVariants as pieces;
ghost use Rattle.print_ceilings.specs.ProgressOf.{told_of, HasTold, MayTell};
ghost use Rattle.print_ceilings.specs.RoundsText.{first_place, is_part, last_place, part_again};
ghost use Rattle.print_ceilings.specs.TellerOf.{piece_told, pieces_in, IsTeller};

use crate::ends::{Ends, ends_at};
use crate::hop_line::put_placed;
use crate::part_line::put_again;
use crate::progress::Progress;
use base_devices::Output;
use base_notes::Times;
use ceiling_rounds::InRounds;
use flow_walks::{Piece, Placed};
use print_lines::Sheet;

/// A walk with its timing table, and what has to be known of its pieces to tell it.
#[derive(Clone, Copy)]
pub struct Teller<'a> {
    pub walk: &'a InRounds,
    pub times: &'a Times,
    /// Of each piece where its first hop begins, and its last.
    pub ends: &'a [Option<Ends>],
    /// How often each piece is named.
    pub named: &'a [usize],
}

impl Teller<'_> {
    /// The piece with this number.
    pub fn piece_at(&self, number: usize) -> &Piece
        requires { number < length (pieces_in self.now) }
        ensures { slice_get (pieces_in self.now) number ≡ Some result.now }
    {
        &self.walk.pieces()[number]
    }

    /// Whether the piece with this number is a part.
    pub fn is_part(&self, number: usize, piece: &Piece) -> bool
        requires teller { IsTeller self.now }
        requires is { slice_get (pieces_in self.now) number ≡ Some piece.now }
        ensures { result ≡ is_part (pieces_in self.now) number }
    {
        match piece {
            Piece::Hop(_) => false,
            Piece::Row(_) | Piece::Rounds(_) => self.named[number] > 1,
        }
    }

    /// Where the last hop of a piece begins, and where the first.
    pub fn last_and_first(&self, number: usize) -> (u16, u16)
        requires { IsTeller self.now }
        ensures last { result.0 ≡ last_place (spelled_of (pieces_in self.now) number) }
        ensures first { result.1 ≡ first_place (spelled_of (pieces_in self.now) number) }
    {
        match ends_at(self.ends, number) {
            Some(ends) => (ends.last.number, ends.first.number),
            None => (0, 0),
        }
    }

    /// Tells a hop.
    pub fn hop<O: Output>(
        &self,
        sheet: &mut Sheet,
        writer: &mut O,
        number: usize,
        one: Placed,
        progress: &mut Progress,
    )
        requires teller { IsTeller self.now }
        requires is { slice_get (pieces_in self.now) number ≡ Some (pieces.Hop one) }
        requires may { MayTell (length (pieces_in self.now)) progress.old
            (piece_told self.now number (pieces.Hop one) (told_of progress.old)) }
        ensures { HasTold (O.device writer.old) sheet.old progress.old (O.device writer.new)
            sheet.new progress.new
            (piece_told self.now number (pieces.Hop one) (told_of progress.old)) }
    {
        let ended = progress.time + self.walk.lasting(number);
        put_placed(sheet, writer, one, self.times, progress.time, ended);
        progress.time = ended;
    }

    /// Tells that a part comes again.
    pub fn again<O: Output>(
        &self,
        sheet: &mut Sheet,
        writer: &mut O,
        number: usize,
        piece: &Piece,
        part: usize,
        progress: &mut Progress,
    )
        requires teller { IsTeller self.now }
        requires is { slice_get (pieces_in self.now) number ≡ Some piece.now }
        requires may { MayTell (length (pieces_in self.now)) progress.old
            (part_again part (piece_told self.now number piece.now) (told_of progress.old)) }
        ensures { HasTold (O.device writer.old) sheet.old progress.old (O.device writer.new)
            sheet.new progress.new
            (part_again part (piece_told self.now number piece.now) (told_of progress.old)) }
    {
        let ended = progress.time + self.walk.lasting(number);
        put_again(sheet, writer, part, progress.time, ended);
        progress.time = ended;
    }
}
