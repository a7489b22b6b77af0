//! The executed words that the instructions of a location write.

ghost use Rattle.std.specs.Prelude.{◌≡◌, ◌<◌, [], ◌∷◌, IfOk, OnOk, filter, flat_map};
ghost use Rattle.read_decks.specs.InDeck.{loads_in};
ghost use Rattle.base_notes.specs.Allowed.{matching};
ghost use Rattle.flow_graph.specs.Executed.{with_new};
ghost use Rattle.flow_graph.specs.Flow.{executed_in};
ghost use Rattle.flow_graph.specs.Found.{places_of};
ghost use Rattle.flow_graph.specs.Taken.{is_among};
ghost use Rattle.print_graphs.specs.Graph as said;
ghost use Rattle.print_graphs.specs.Graph.{executed_writes};

use base_notes::Pattern;
use base_words::{Instruction, Location};
use flow_graph::Flow;
use flow_graph::alike::same_writes_end;
use flow_graph::location_set::LocationSet;
use flow_graph::patterns::{Patterns, instruction_of};
use machine_steps::writes;
use std::alloc::{AllocError, Global};

/// Adds the drum word of this number, if it is executed, unless it is there.
fn add_word(written: &mut LocationSet, flow: &Flow<'_>, number: u16) -> Result<(), AllocError>
    requires { number < 2000 }
    ensures { OnOk result (places_of written.new ≡ with_new (places_of written.old)
        (filter (is_among (executed_in flow.now)) (number ∷ []))) }
{
    let Some(word) = Location::new(number) else {
        unreachable!()
    };
    if flow.index_of(word).is_none() {
        return Ok(());
    }
    written.add(word)
}

/// Adds the executed words that an instruction writes, unless they are there.
fn add_executed_writes(
    written: &mut LocationSet,
    flow: &Flow<'_>,
    instruction: Instruction,
) -> Result<(), AllocError>
    ensures { OnOk result (places_of written.new ≡ with_new (places_of written.old)
        (executed_writes (executed_in flow.now) instruction)) }
{
    let words = writes(instruction);
    for number in words.start..words.end {
        add_word(written, flow, number)?;
    }
    Ok(())
}

/// Adds the executed words that the instructions of a pattern write: of those that write the same
/// words the first one's.
fn add_written_in(
    written: &mut LocationSet,
    flow: &Flow<'_>,
    pattern: Pattern,
) -> Result<(), AllocError>
    ensures { OnOk result (places_of written.new ≡ with_new (places_of written.old)
        (flat_map (executed_writes (executed_in flow.now)) (matching pattern))) }
{
    let mut d = pattern.d_from;
    while d <= pattern.d_to {
        let instruction = instruction_of(pattern, d);
        add_executed_writes(written, flow, instruction)?;
        d = same_writes_end(instruction);
    }
    Ok(())
}

/// The executed words that the instructions of a location write, each once, in the order in which
/// they come to them.
pub fn written_at(
    alloc: Global,
    flow: &Flow<'_>,
    location: Location,
) -> Result<LocationSet, AllocError>
    ensures { IfOk result (λ written. places_of written ≡ said.written (loads_in flow.now.deck.now)
        flow.now.notes.now (executed_in flow.now) location.number) }
{
    let mut written = LocationSet::none(alloc);
    for pattern in Patterns::at(flow.deck(), flow.notes(), location) {
        add_written_in(&mut written, flow, pattern)?;
    }
    Ok(written)
}
