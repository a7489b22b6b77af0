//! The name of a mark at the end of its line.

ghost use Rattle.print_lines.specs.Stands.{Passes};
ghost use Rattle.print_lines.specs.NameText.{name_text};

use crate::sheet::Sheet;
use base_devices::Output;
use base_notes::Mark;

/// Puts what ends the line of a mark with its name; nothing where it has none.
#[tactic(auto, using(crate::proofs::Passing::passing))]
pub fn put_name<O: Output>(sheet: &mut Sheet, writer: &mut O, mark: &Mark)
    ensures { Passes (O.device writer.old) sheet.old (O.device writer.new) sheet.new
        (name_text mark.now.name) }
{
    if let Some(name) = &mark.name {
        sheet.put(writer, b" name ");
        sheet.put(writer, name.as_bytes());
    }
}
