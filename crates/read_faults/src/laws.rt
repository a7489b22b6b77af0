//! Laws of all faults of texts, each the contract of a function that does nothing, or that calls
//! other laws.

ghost use Rattle.std.specs.Prelude.{List, [], Option, IfSome};
ghost use Rattle.read_replays.specs.InputsText.{AreInputs};
ghost use Rattle.read_replays.specs.InputsText as input_lines;
ghost use Rattle.base_words.specs.declared.op.Op.{Op};
ghost use Rattle.read_decks.specs.DeckText.{Line, IsDeck};
ghost use Rattle.read_faults.specs.FaultLines.{Named, AreFaultLines};
ghost use Rattle.base_notes.specs.declared.entry.Entry.{Entry};
ghost use Rattle.base_notes.specs.Allowed.{Notes};
ghost use Rattle.read_toml.specs.LongNotes.{IsLongNotes};
ghost use Rattle.read_toml.specs.Refused.{IsDocument};
ghost use Rattle.read_toml.specs.TimesDocument.{IsTimes};
ghost use Rattle.toml.specs.Data.{Members};

use read_toml::laws::{tells_long_notes, tells_times};

/// Where there is no line, the texts are a deck, a timing table, long notes, and inputs where there
/// are any.
pub fn sound_where_none()
    ensures { (deck times notes : Named) (inputs : Option Named)
        → AreFaultLines deck times notes inputs []
        → ((lines : List Line) × IsDeck deck.bytes lines)
        × ((document : Members) × (meant : Op → Entry) × IsDocument times.bytes document
        × IsTimes document meant)
        × ((document : Members) × (meant : Notes) × IsDocument notes.bytes document
        × IsLongNotes document meant)
        × IfSome inputs (λ text. (lines : List input_lines.Line) × AreInputs text.bytes lines) }
{
    tells_times();
    tells_long_notes();
}
