ghost use Rattle.std.specs.Prelude.{◌<◌, ◌^◌, [], length, IfOk};
ghost use Rattle.read_decks.specs.Lines.{lines_of};
ghost use Rattle.read_decks.specs.Taking.{HaveFaults};

use read_decks::{Reading, Taking};
use std::alloc::{AllocError, Global};

/// All faults of a text's lines, in their order.
///
/// # Errors
///
/// Where there is no memory for what the lines give, or for the faults.
pub fn all_faults<T: Taking + Drop>(
    alloc: Global,
    taking: T,
    text: &[u8],
) -> Result<Vec<T::Fault>, AllocError>
    requires few { length (lines_of text.now) < 2 ^ 16 }
    requires none { T.rules.Holds taking [] }
    ensures { IfOk result (λ faults. HaveFaults T.rules.comment T.rules.Says T.rules.AreSound
        T.rules.HasFault [] (lines_of text.now) faults.items) }
{
    let mut reading = Reading::new(taking, text);
    let mut faults = Vec::new(alloc);
    while let Some(fault) = reading.next_fault()? {
        faults.push(fault)?;
    }
    Ok(faults)
}
