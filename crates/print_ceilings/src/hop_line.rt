//! The line of a hop of a piece.

ghost use Rattle.std.specs.Prelude.{◌+◌, ◌^◌, ◌≤◌};
ghost use Rattle.base_notes.specs.Entries.{entry_in};
ghost use Rattle.flow_walks.specs.Pieces.{seen_placed};
ghost use Rattle.print_lines.specs.Stands.{Passes};
ghost use Rattle.print_ceilings.specs.RoundsText.{placed_line};

use base_devices::Output;
use base_notes::Times;
use flow_walks::Placed;
use print_hops::{Moments, TimedHop, put_hop, put_times_later};
use print_lines::Sheet;

/// Puts the line of a hop of a piece, with the word times used when it begins and when it ends.
pub fn put_placed<O: Output>(
    sheet: &mut Sheet,
    writer: &mut O,
    one: Placed,
    times: &Times,
    begun: u128,
    ended: u128,
)
    requires { begun + 2 ^ 64 ≤ 2 ^ 128 }
    ensures { Passes (O.device writer.old) sheet.old (O.device writer.new) sheet.new
        (placed_line (entry_in times.now) begun ended (seen_placed one)) }
{
    let told = TimedHop {
        place: one.location,
        instruction: one.hop.instruction,
        way: one.hop.way,
        begun: 0,
        ended: 0,
    };
    let moments = Moments::of(&told, times, one.angle as u8);
    put_hop(sheet, writer, &told, b" begun ", begun);
    put_times_later(sheet, writer, &moments, begun, ended, b"\n");
}
