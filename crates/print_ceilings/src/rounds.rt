//! The lines of a walk in rounds, and of what it and the ceiling take.

ghost use Rattle.std.specs.Prelude.{◌^◌, ◌<◌};
ghost use Rattle.base_notes.specs.Entries.{entry_in};
ghost use Rattle.ceiling_rounds.specs.InRounds.{pieces_of, total_of};
ghost use Rattle.print_lines.specs.Stands.{Passes};
ghost use Rattle.print_ceilings.specs.PieceIndexOf.{IsPieceIndexOf, IsWalkWith};
ghost use Rattle.print_ceilings.specs.RoundsText.{joined, rounds_text, tell};

use crate::piece_index::PieceIndex;
use crate::prices::put_totals;
use crate::progress::Progress;
use crate::teller::Teller;
use base_devices::Output;
use base_notes::Times;
use ceiling_checked::Bracket;
use ceiling_rounds::InRounds;
use print_lines::Sheet;

/// Puts the lines of a walk.
fn put_walk<O: Output>(
    sheet: &mut Sheet,
    writer: &mut O,
    index: PieceIndex,
    walk: &InRounds,
    times: &Times,
)
    requires outlined { IsPieceIndexOf walk.now index }
    requires right { IsWalkWith times.now walk.now }
    requires early { total_of walk.now < 2 ^ 127 }
    ensures { Passes (O.device writer.old) sheet.old (O.device writer.new) sheet.new
        (joined (tell (entry_in times.now) (pieces_of walk.now)).0) }
{
    let PieceIndex { ends, named, parts } = index;
    let count = walk.pieces().len();
    let teller = Teller {
        walk,
        times,
        ends: &ends,
        named: &named,
    };
    let mut progress = Progress {
        begun: 0,
        parts,
        time: 0,
    };
    teller.named(sheet, writer, count, count.saturating_sub(1), &mut progress);
}

/// Puts a walk in rounds, part by part, and what it and the ceiling take. The index has to be
/// that of the walk, and the timing table the one of the ceiling. It takes no memory.
pub fn put_rounds<O: Output>(
    sheet: &mut Sheet,
    writer: &mut O,
    index: PieceIndex,
    bracket: &Bracket,
    times: &Times,
)
    requires outlined { IsPieceIndexOf bracket.now.walk index }
    requires right { IsWalkWith times.now bracket.now.walk }
    requires early { total_of bracket.now.walk < 2 ^ 127 }
    ensures { Passes (O.device writer.old) sheet.old (O.device writer.new) sheet.new
        (rounds_text (entry_in times.now) bracket.now) }
{
    put_walk(sheet, writer, index, &bracket.walk, times);
    put_totals(sheet, writer, bracket);
}
