//! The lines of inputs so far, and the fault of the next one.

ghost use Rattle.std.specs.Prelude.{◌≡◌, ◌+◌, ◌<◌, ◌^◌, ◌∷◌, ◌++◌, [], map, length, IfOk, IfErr};
ghost use Rattle.std.specs.Prelude.{IfSome, IfNone};
ghost use Rattle.read_replays.specs.InputsText as input_lines;
ghost use Rattle.read_replays.specs.Said.{said};
ghost use Rattle.read_faults.specs.InputFaults.{IsFirstRepeated, IsPlaced};

use crate::placed_fault::PlacedFault;
use crate::slip::Slip;
use read_decks::Taking;
use read_replays::{InputFault, InputLine};
use std::alloc::AllocError;

/// The lines of inputs so far. Each fault of the next one is told with its place.
#[derive(Drop)]
pub struct InputsSoFar {
    pub before: Vec<InputLine>,
}

impl Taking for InputsSoFar {
    type Fault = PlacedFault<InputFault>;

    ghost use Rattle.read_faults.specs.SoFar.{input_rules};

    ghost rules = { input_rules };

    fn take(
        &mut self,
        bytes: &[u8],
        _number: u16,
    ) -> Result<Option<PlacedFault<InputFault>>, AllocError> {
        match read_behind(&self.before, bytes) {
            Ok(line) => {
                self.before.push(line)?;
                Ok(None)
            }
            Err(placed) => {
                self.before.push(InputLine::Comment)?;
                Ok(Some(placed))
            }
        }
    }
}

/// The line that the bytes spell, or its fault behind these lines.
fn read_behind(before: &[InputLine], bytes: &[u8]) -> Result<InputLine, PlacedFault<InputFault>>
    requires { length before.now + 1 < 2 ^ 16 }
    ensures sound { IfOk result (λ line. input_lines.IsLine bytes.now (said line)
        × (input_lines.AreSound (map said before.now)
        → input_lines.AreSound (map said before.now ++ said line ∷ []))) }
    ensures faulty { IfErr result (IsPlaced (map said before.now) bytes.now) }
{
    let number = before.len() as u16 + 1;
    let placed = PlacedFault {
        fault: InputFault::Line(number),
        line: Some(number),
        earlier: None,
        slip: None,
    };
    let Some(line) = InputLine::read(bytes) else {
        return Err(PlacedFault {
            slip: Slip::of(bytes),
            ..placed
        });
    };
    if line.is_past_drum() {
        return Err(PlacedFault {
            fault: InputFault::PastDrum(number),
            ..placed
        });
    }
    match first_repeated(before, &line) {
        None => Ok(line),
        Some(index) => Err(PlacedFault {
            fault: InputFault::Repeated(number),
            earlier: Some(index as u16 + 1),
            ..placed
        }),
    }
}

/// Where the first of some lines stands that a line says again.
fn first_repeated(before: &[InputLine], line: &InputLine) -> Option<usize>
    ensures found { IfSome result
        (IsFirstRepeated (map said before.now) (said line.now)) }
    ensures none { IfNone result
        (¬ input_lines.Repeats (map said before.now) (said line.now)) }
{
    before.iter().position(|earlier| line.repeats(earlier))
}
