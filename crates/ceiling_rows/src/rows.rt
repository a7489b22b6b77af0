//! What the hops of all executed locations take at most.

ghost use Rattle.std.specs.Prelude.{IfOk, IfSome, IfNone};
ghost use Rattle.flow_graph.specs.Flow.{deck_of, executed_in, notes_of};
ghost use Rattle.flow_graph.specs.SettingOf.{setting};
ghost use Rattle.ceiling_rows.specs.Raised.{HasNone};
ghost use Rattle.ceiling_rows.specs.Rows.{AreRows, IsRowNumber, IsRowOf};

use crate::edges::edges_of;
use crate::found::Found;
use crate::raised::Raised;
use crate::row::Row;
use crate::slot::Slot;
use base_notes::Times;
use flow_graph::Flow;
use std::alloc::{AllocError, Global};

/// The row of a location that is found there; `None` where it isn't executed, or not found there.
/// Of its hops `raised` keeps nothing.
fn row_at(
    alloc: Global,
    flow: &Flow<'_>,
    times: &Times,
    raised: &mut Raised,
    slot: Slot,
) -> Result<Option<Row>, AllocError>
    requires { HasNone raised.old }
    ensures row { IfOk result (λ made. IfSome made (IsRowOf
        (setting (deck_of flow.now) times.now (notes_of flow.now)) (executed_in flow.now)
        slot.number)) }
    ensures none { IfOk result (λ made. IfNone made
        (¬ IsRowNumber (executed_in flow.now) slot.number)) }
    ensures forgotten { IfOk result (λ made. HasNone raised.new) }
{
    let from = Found::at(flow, times, slot);
    if flow.index_of(from.location).is_none() || !from.is_there() {
        return Ok(None);
    }
    raised.take_all(flow.deck(), &from);
    let row = Row {
        stop: raised.stop,
        last: raised.last,
        most: raised.most,
        edges: edges_of(alloc, from.notes.marks(), from.location, raised)?,
    };
    raised.forget(&row.edges);
    Ok(Some(row))
}

/// The rows of all executed locations, at the numbers of where they are found.
pub fn rows_of(
    alloc: Global,
    flow: &Flow<'_>,
    times: &Times,
) -> Result<Vec<Option<Row>>, AllocError>
    ensures { IfOk result (λ rows. AreRows
        (setting (deck_of flow.now) times.now (notes_of flow.now)) (executed_in flow.now)
        rows.items) }
{
    let mut rows = Vec::with_capacity(alloc, Slot::COUNT)?;
    let mut raised = Raised::none(alloc)?;
    for number in 0..Slot::COUNT {
        let slot = Slot {
            number: number as u16,
        };
        rows.push(row_at(alloc, flow, times, &mut raised, slot)?)?;
    }
    Ok(rows)
}
