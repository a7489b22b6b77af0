//! The calls of long notes, checked and read.

ghost use Rattle.std.specs.Prelude.{◌≡◌, ◌∷◌, [], take, codes, List, ℕ, IfOk, IfErr};
ghost use Rattle.read_toml.specs.AllFaults.{Adds};
ghost use Rattle.read_toml.specs.Calls as said;
ghost use Rattle.read_toml.specs.Document as document;
ghost use Rattle.read_toml.specs.Elements.{HoldsCall};
ghost use Rattle.read_toml.specs.Value.{fault_of};
ghost use Rattle.toml.specs.View.{view, table_view};

use super::opened::repeats;
use crate::document::element::{Checked, Element};
use crate::document::faults::Faults;
use crate::document::fields::Fields;
use crate::document::value::{self, ValueFault};
use base_notes::{Call, Edge};
use std::alloc::AllocError;
use toml::Value;

const CALL_KEYS: [&str; 4] = ["from", "to", "exit", "back"];

/// Checks the exit that a value is to be, of the call with this index: a location, where no earlier
/// call is made by the same edge and has the same exit.
fn check_exit(fields: &Fields<'_>, place: usize, value: &Value) -> Result<(), ValueFault>
    ensures none { IfOk result (λ _. (path : List ℕ) → document.number_faults path
        (said.is_new_exit (take place (said.openings_in (table_view fields.now.whole.now)))
        (table_view fields.now.table.now)) (view value.now) ≡ []) }
    ensures wrong { IfErr result (λ wrong. (path : List ℕ) → document.number_faults path
        (said.is_new_exit (take place (said.openings_in (table_view fields.now.whole.now)))
        (table_view fields.now.table.now)) (view value.now) ≡ fault_of wrong path ∷ []) }
{
    value::location(value)?;
    if repeats(fields, place) {
        return Err(ValueFault::Range);
    }
    Ok(())
}

impl Faults {
    /// Adds what is wrong with the exit of the call with this index.
    fn exit(&mut self, fields: &Fields<'_>, place: usize) -> Result<(), AllocError>
        ensures { IfOk result (λ _. Adds self.old.all.items self.new.all.items
            (said.exit_faults (take place (said.openings_in (table_view fields.now.whole.now)))
            fields.now.at.now (codes "exit") (table_view fields.now.table.now))) }
    {
        let Some(value) = fields.get("exit") else {
            return Ok(());
        };
        if let Err(wrong) = check_exit(fields, place, value) {
            self.wrong(fields, "exit", wrong)?;
        }
        Ok(())
    }
}

impl Checked for Call {
    ghost faults = { said.call_faults };

    fn check(into: &mut Faults, fields: &Fields<'_>, place: usize) -> Result<(), AllocError> {
        into.unknown(fields, &CALL_KEYS)?;
        into.missing(fields, &CALL_KEYS)?;
        into.location(fields, "from")?;
        into.location(fields, "to")?;
        into.exit(fields, place)?;
        into.location(fields, "back")?;
        Ok(())
    }
}

impl Element for Call {
    ghost holds = { λ _ _. HoldsCall };

    ghost says = { λ _ _. said.IsCall };

    fn read(fields: &Fields<'_>, _place: usize) -> Result<Call, AllocError> {
        Ok(Call {
            edge: Edge {
                from: fields.location("from"),
                onto: fields.location("to"),
            },
            exit: fields.location("exit"),
            back: fields.location("back"),
        })
    }
}
