//! The lines of a walk, piece by piece.

ghost use Rattle.std.specs.Prelude.{◌≡◌, ◌≤◌, Some, None, length, slice_get};
ghost use Rattle.flow_walks.specs.declared.piece.Piece.TheVariants as pieces;
ghost use Rattle.print_ceilings.specs.ProgressOf.{told_of, HasTold, MayTell};
ghost use Rattle.print_ceilings.specs.RoundsText.{first_part};
ghost use Rattle.print_ceilings.specs.TellerOf.{named_told, piece_told, pieces_in, row_told};
ghost use Rattle.print_ceilings.specs.TellerOf.{IsTeller};

use crate::part_line::{put_begin_rounds, put_end, put_end_rounds, put_part};
use crate::progress::Progress;
use crate::teller::Teller;
use base_devices::Output;
use flow_walks::{Piece, Rounds};
use print_lines::Sheet;

impl Teller<'_> {
    /// Tells pieces in a row, of which those below the limit are there.
    #[cycle(telling)]
    fn row<O: Output>(
        &self,
        sheet: &mut Sheet,
        writer: &mut O,
        limit: usize,
        names: &[usize],
        progress: &mut Progress,
    )
        requires teller { IsTeller self.now }
        requires within { limit ≤ length (pieces_in self.now) }
        requires may { MayTell (length (pieces_in self.now)) progress.old
            (row_told self.now limit names.now (told_of progress.old)) }
        ensures { HasTold (O.device writer.old) sheet.old progress.old (O.device writer.new)
            sheet.new progress.new
            (row_told self.now limit names.now (told_of progress.old)) }
    {
        for number in names {
            self.named(sheet, writer, limit, *number, progress);
        }
    }

    /// Tells rounds of a piece.
    #[cycle(telling)]
    fn rounds<O: Output>(
        &self,
        sheet: &mut Sheet,
        writer: &mut O,
        limit: usize,
        rounds: Rounds,
        progress: &mut Progress,
    )
        requires teller { IsTeller self.now }
        requires within { limit ≤ length (pieces_in self.now) }
        requires may { MayTell (length (pieces_in self.now)) progress.old
            (piece_told self.now limit (pieces.Rounds rounds) (told_of progress.old)) }
        ensures { HasTold (O.device writer.old) sheet.old progress.old (O.device writer.new)
            sheet.new progress.new
            (piece_told self.now limit (pieces.Rounds rounds) (told_of progress.old)) }
    {
        let begun = progress.time;
        let (last, first) = self.last_and_first(rounds.piece);
        put_begin_rounds(sheet, writer, rounds.times, last, first);
        self.named(sheet, writer, limit, rounds.piece, progress);
        let each = progress.time.saturating_sub(begun);
        let ended = begun + u128::from(rounds.times) * each;
        progress.time = ended;
        put_end_rounds(sheet, writer, each, ended);
    }

    /// Tells a piece, by its number.
    #[cycle(telling)]
    fn piece<O: Output>(
        &self,
        sheet: &mut Sheet,
        writer: &mut O,
        number: usize,
        piece: &Piece,
        progress: &mut Progress,
    )
        requires teller { IsTeller self.now }
        requires is { slice_get (pieces_in self.now) number ≡ Some piece.now }
        requires may { MayTell (length (pieces_in self.now)) progress.old
            (piece_told self.now number piece.now (told_of progress.old)) }
        ensures { HasTold (O.device writer.old) sheet.old progress.old (O.device writer.new)
            sheet.new progress.new
            (piece_told self.now number piece.now (told_of progress.old)) }
    {
        match piece {
            Piece::Hop(one) => self.hop(sheet, writer, number, *one, progress),
            Piece::Row(names) => self.row(sheet, writer, number, names, progress),
            Piece::Rounds(rounds) => self.rounds(sheet, writer, number, *rounds, progress),
        }
    }

    /// Tells a part where it first comes.
    #[cycle(telling)]
    fn first<O: Output>(
        &self,
        sheet: &mut Sheet,
        writer: &mut O,
        number: usize,
        piece: &Piece,
        progress: &mut Progress,
    )
        requires teller { IsTeller self.now }
        requires is { slice_get (pieces_in self.now) number ≡ Some piece.now }
        requires free { (told_of progress.old).part number ≡ None }
        requires may { MayTell (length (pieces_in self.now)) progress.old
            (first_part number (piece_told self.now number piece.now) (told_of progress.old)) }
        ensures { HasTold (O.device writer.old) sheet.old progress.old (O.device writer.new)
            sheet.new progress.new
            (first_part number (piece_told self.now number piece.now) (told_of progress.old)) }
    {
        let part = progress.begin(number);
        put_part(sheet, writer, part);
        self.piece(sheet, writer, number, piece, progress);
        put_end(sheet, writer, part);
    }

    /// Tells the piece with this number, where it is below the limit.
    #[cycle(telling)]
    pub fn named<O: Output>(
        &self,
        sheet: &mut Sheet,
        writer: &mut O,
        limit: usize,
        number: usize,
        progress: &mut Progress,
    )
        requires teller { IsTeller self.now }
        requires within { limit ≤ length (pieces_in self.now) }
        requires may { MayTell (length (pieces_in self.now)) progress.old
            (named_told self.now limit number (told_of progress.old)) }
        ensures { HasTold (O.device writer.old) sheet.old progress.old (O.device writer.new)
            sheet.new progress.new
            (named_told self.now limit number (told_of progress.old)) }
    {
        if number >= limit {
            return;
        }
        let piece = self.piece_at(number);
        if !self.is_part(number, piece) {
            return self.piece(sheet, writer, number, piece, progress);
        }
        match progress.part(number) {
            None => self.first(sheet, writer, number, piece, progress),
            Some(part) => self.again(sheet, writer, number, piece, part, progress),
        }
    }
}
