//! All faults of a mark of long notes, key by key.

ghost use Rattle.std.specs.Prelude.{◌≡◌, ◌+◌, ◌^◌, ◌<◌, ◌++◌, ◌&&◌, not, take, codes, decimal};
ghost use Rattle.std.specs.Prelude.{IfOk};
ghost use Rattle.base_notes.specs.Names.{is_name};
ghost use Rattle.base_words.specs.Location.{is_location};
ghost use Rattle.read_toml.specs.AllFaults.{Adds};
ghost use Rattle.read_toml.specs.Document as document;
ghost use Rattle.read_toml.specs.LongMarks as said;
ghost use Rattle.toml.specs.View.{view, table_view, items_view};

use super::named::{first_marks, is_named};
use crate::document::faults::Faults;
use crate::document::fields::Fields;
use crate::document::tables::{element_path, is_count};
use crate::document::value::{self, ValueFault};
use base_notes::{Mark, Name};
use std::alloc::{AllocError, Global};
use toml::Value;

impl Faults {
    /// Adds each key that isn't known, by whether the table lists its edges.
    pub fn long_keys(&mut self, fields: &Fields<'_>, listed: bool) -> Result<(), AllocError>
        ensures { IfOk result (λ _. Adds self.old.all.items self.new.all.items
            (document.unknown_in fields.now.at.now (said.long_mark_keys listed)
            (table_view fields.now.table.now))) }
    {
        if listed {
            self.unknown(fields, &["edges", "most", "inside", "name"])
        } else {
            self.unknown(fields, &["from", "to", "most", "inside", "name"])
        }
    }

    /// Adds each key that is missing, by whether the table lists its edges.
    pub fn wanted_keys(&mut self, fields: &Fields<'_>, listed: bool) -> Result<(), AllocError>
        ensures { IfOk result (λ _. Adds self.old.all.items self.new.all.items
            (document.missing_in fields.now.at.now (said.wanted_keys listed)
            (table_view fields.now.table.now))) }
    {
        if listed {
            self.missing(fields, &["most"])
        } else {
            self.missing(fields, &["from", "to", "most"])
        }
    }

    /// Adds what is wrong with the edges, by whether the table lists them.
    pub fn mark_edges(&mut self, fields: &Fields<'_>, listed: bool) -> Result<(), AllocError>
        ensures { IfOk result (λ _. Adds self.old.all.items self.new.all.items
            (said.edge_checks listed fields.now.at.now (table_view fields.now.table.now))) }
    {
        if listed {
            self.listed_edges(fields)
        } else {
            self.both_ends(fields)
        }
    }

    /// Adds what is wrong with `from` and with `to`.
    fn both_ends(&mut self, fields: &Fields<'_>) -> Result<(), AllocError>
        ensures { IfOk result (λ _. Adds self.old.all.items self.new.all.items
            (document.location fields.now.at.now (codes "from") (table_view fields.now.table.now)
            ++ document.location fields.now.at.now (codes "to")
            (table_view fields.now.table.now))) }
    {
        self.location(fields, "from")?;
        self.location(fields, "to")?;
        Ok(())
    }

    /// Adds what is wrong with a list of edges.
    fn listed_edges(&mut self, fields: &Fields<'_>) -> Result<(), AllocError>
        ensures { IfOk result (λ _. Adds self.old.all.items self.new.all.items
            (document.at_key said.edges_faults fields.now.at.now (codes "edges")
            (table_view fields.now.table.now))) }
    {
        let Some(value) = fields.get("edges") else {
            return Ok(());
        };
        let Some(items) = value.as_array() else {
            self.wrong(fields, "edges", ValueFault::Kind)?;
            return Ok(());
        };
        if !is_count(items.len(), 1, Some(Mark::MOST_EDGES)) {
            self.wrong(fields, "edges", ValueFault::Range)?;
            return Ok(());
        }
        let path = fields.path("edges")?;
        self.each_edge(fields.alloc, path.text.as_str(), items)?;
        Ok(())
    }

    /// Adds what is wrong with the elements of a list of edges at a path.
    fn each_edge(&mut self, alloc: Global, path: &str, items: &[Value]) -> Result<(), AllocError>
        ensures { IfOk result (λ _. Adds self.old.all.items self.new.all.items
            (said.listed_edge_faults path.now 1 (items_view items.now))) }
    {
        for (place, value) in items.iter().enumerate() {
            self.edge(alloc, path, place, value)?;
        }
        Ok(())
    }

    /// Adds what is wrong with the element with this index, from 0.
    fn edge(
        &mut self,
        alloc: Global,
        path: &str,
        place: usize,
        value: &Value,
    ) -> Result<(), AllocError>
        requires { place + 1 < 2 ^ 64 }
        ensures { IfOk result (λ _. Adds self.old.all.items self.new.all.items
            (said.edge_value_faults (path.now ++ codes "." ++ decimal (place + 1))
            (view value.now))) }
    {
        let at = element_path(alloc, path, place)?;
        let Some(ends) = value.as_array() else {
            self.wrong_at(at, ValueFault::Kind)?;
            return Ok(());
        };
        if ends.len() != 2 {
            self.wrong_at(at, ValueFault::Range)?;
            return Ok(());
        }
        self.end(alloc, at.as_str(), ".1", &ends[0])?;
        self.end(alloc, at.as_str(), ".2", &ends[1])?;
        Ok(())
    }

    /// Adds what is wrong with one of the two locations of an edge at a path.
    fn end(
        &mut self,
        alloc: Global,
        path: &str,
        behind: &str,
        value: &Value,
    ) -> Result<(), AllocError>
        ensures { IfOk result (λ _. Adds self.old.all.items self.new.all.items
            (document.number_faults (path.now ++ behind.now) is_location (view value.now))) }
    {
        let Err(wrong) = value::location(value) else {
            return Ok(());
        };
        let mut at = String::from_str(alloc, path)?;
        at.push_str(behind)?;
        self.wrong_at(at, wrong)
    }

    /// Adds what is wrong with the mark that the one with this index stands inside of.
    pub fn outer(&mut self, fields: &Fields<'_>, place: usize) -> Result<(), AllocError>
        ensures { IfOk result (λ _. Adds self.old.all.items self.new.all.items
            (document.at_key
            (said.outer_faults (said.names_in (table_view fields.now.whole.now)) place)
            fields.now.at.now (codes "inside") (table_view fields.now.table.now))) }
    {
        let Some(value) = fields.get("inside") else {
            return Ok(());
        };
        let Some(name) = value.as_str() else {
            return self.whole_number(fields, "inside", 1, place as u64);
        };
        if !is_named(first_marks(fields, place), name) {
            self.wrong(fields, "inside", ValueFault::Range)?;
        }
        Ok(())
    }

    /// Adds what is wrong with the name of the mark with this index.
    pub fn name(&mut self, fields: &Fields<'_>, place: usize) -> Result<(), AllocError>
        ensures { IfOk result (λ _. Adds self.old.all.items self.new.all.items
            (document.at_key
            (said.name_faults (said.names_in (table_view fields.now.whole.now)) place)
            fields.now.at.now (codes "name") (table_view fields.now.table.now))) }
    {
        let Some(value) = fields.get("name") else {
            return Ok(());
        };
        let Some(text) = value.as_str() else {
            return self.wrong(fields, "name", ValueFault::Kind);
        };
        if !is_free_name(fields, place, text)? {
            self.wrong(fields, "name", ValueFault::Range)?;
        }
        Ok(())
    }
}

/// Whether a text is a name that none of so many earlier marks says.
fn is_free_name(fields: &Fields<'_>, earlier: usize, text: &str) -> Result<bool, AllocError>
    ensures { IfOk result (λ free. free ≡ (is_name text.now && not (said.is_named
        (take earlier (said.names_in (table_view fields.now.whole.now))) text.now))) }
{
    let name = Name::new(String::from_str(fields.alloc, text)?);
    Ok(name.is_some() && !is_named(first_marks(fields, earlier), text))
}
