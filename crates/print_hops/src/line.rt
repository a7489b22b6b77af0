ghost use Rattle.std.specs.Prelude.{ℕ, List};
ghost use Rattle.print_lines.specs.Stands.{Passes};

use base_devices::Output;
use print_lines::Sheet;

/// What is put on a sheet as a line.
pub trait Line {
    /// The bytes of the line, with the end of it.
    ghost text: { Self → List ℕ };

    /// Puts the line behind what was put before.
    fn put<O: Output>(&self, sheet: &mut Sheet, writer: &mut O)
        ensures { Passes (O.device writer.old) sheet.old (O.device writer.new) sheet.new
            (text self.now) };
}
