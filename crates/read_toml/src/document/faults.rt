//! All faults of a document, added one behind the other as its tables are checked.
ghost use Rattle.std.specs.Prelude.{◌≡◌, ◌∷◌, [], ◌++◌, if◌then◌else◌, map, IfOk, IfErr, List};
ghost use Rattle.std.specs.Prelude.{string_bytes};
ghost use Rattle.base_notes.specs.declared.fault.NoteFault.{NoteFault};
ghost use Rattle.read_toml.specs.AllFaults.{Adds};
ghost use Rattle.read_toml.specs.Document as document;
ghost use Rattle.read_toml.specs.Value.{fault_of};
ghost use Rattle.toml.specs.View.{table_view};

use super::fields::{Fields, is_one_of};
use super::value::{self, ValueFault};
use base_notes::{KeyPath, NoteFault};
use std::alloc::{AllocError, Global};

/// That bytes are no document, as their one fault.
pub fn no_document(alloc: Global) -> Result<Vec<NoteFault>, AllocError>
    ensures { IfOk result (λ faults. faults.items ≡ NoteFault.Toml ∷ []) }
{
    let mut faults = Faults::new(alloc);
    faults.add(NoteFault::Toml)?;
    Ok(faults.all)
}

/// The faults that were found, in order.
#[derive(Drop)]
pub struct Faults {
    pub all: Vec<NoteFault>,
}

impl Faults {
    /// None so far.
    pub fn new(alloc: Global) -> Faults
        ensures { result.all.items ≡ [] }
    {
        Faults {
            all: Vec::new(alloc),
        }
    }

    /// Refuses for the first fault, if there is one.
    ///
    /// # Errors
    ///
    /// That fault.
    pub fn refuse(self) -> Result<(), NoteFault>
        ensures none { IfOk result (λ _. self.all.items ≡ []) }
        ensures first { IfErr result (λ fault. (others : List NoteFault)
            × (self.all.items ≡ fault ∷ others)) }
    {
        match self.all.into_iter().next() {
            Some(fault) => Err(fault),
            None => Ok(()),
        }
    }

    /// Adds a fault.
    pub fn add(&mut self, fault: NoteFault) -> Result<(), AllocError>
        ensures { IfOk result (λ _. self.new.all.items ≡ self.old.all.items ++ fault ∷ []) }
    {
        self.all.push(fault)?;
        Ok(())
    }

    /// Adds that a key is missing.
    pub fn lacks(&mut self, fields: &Fields<'_>, key: &str) -> Result<(), AllocError>
        ensures { IfOk result (λ _. Adds self.old.all.items self.new.all.items
            (document.missing (fields.now.at.now ++ key.now) ∷ [])) }
    {
        let path = fields.path(key)?;
        self.add(NoteFault::Missing(path))?;
        Ok(())
    }

    /// Adds what is wrong with the value at a key.
    pub fn wrong(
        &mut self,
        fields: &Fields<'_>,
        key: &str,
        wrong: ValueFault,
    ) -> Result<(), AllocError>
        ensures { IfOk result (λ _. Adds self.old.all.items self.new.all.items
            (fault_of wrong (fields.now.at.now ++ key.now) ∷ [])) }
    {
        let path = fields.path(key)?;
        match wrong {
            ValueFault::Kind => self.add(NoteFault::Kind(path))?,
            ValueFault::Range => self.add(NoteFault::Range(path))?,
        }
        Ok(())
    }

    /// Adds what is wrong with the value at this path.
    pub fn wrong_at(&mut self, path: String, wrong: ValueFault) -> Result<(), AllocError>
        ensures { IfOk result (λ _. Adds self.old.all.items self.new.all.items
            (fault_of wrong (string_bytes path) ∷ [])) }
    {
        let path = KeyPath::new(path).ok_or(AllocError)?;
        match wrong {
            ValueFault::Kind => self.add(NoteFault::Kind(path))?,
            ValueFault::Range => self.add(NoteFault::Range(path))?,
        }
        Ok(())
    }

    /// Adds each key that isn't known, in byte order.
    pub fn unknown(&mut self, fields: &Fields<'_>, known: &[&str]) -> Result<(), AllocError>
        ensures { IfOk result (λ _. Adds self.old.all.items self.new.all.items
            (document.unknown_in fields.now.at.now (map (λ key. key.now) known.now)
            (table_view fields.now.table.now))) }
    {
        for (key, _) in fields.table.iter() {
            self.unknown_key(fields, key.as_str(), known)?;
        }
        Ok(())
    }

    /// Adds that a key isn't known, if it isn't.
    fn unknown_key(
        &mut self,
        fields: &Fields<'_>,
        key: &str,
        known: &[&str],
    ) -> Result<(), AllocError>
        ensures { IfOk result (λ _. Adds self.old.all.items self.new.all.items
            (if document.is_one_of key.now (map (λ one. one.now) known.now) then []
            else document.unknown (fields.now.at.now ++ key.now) ∷ [])) }
    {
        if !is_one_of(key, known) {
            let path = fields.path(key)?;
            self.add(NoteFault::Unknown(path))?;
        }
        Ok(())
    }

    /// Adds each of some keys that is missing.
    pub fn missing(&mut self, fields: &Fields<'_>, wanted: &[&str]) -> Result<(), AllocError>
        ensures { IfOk result (λ _. Adds self.old.all.items self.new.all.items
            (document.missing_in fields.now.at.now (map (λ key. key.now) wanted.now)
            (table_view fields.now.table.now))) }
    {
        for key in wanted {
            self.missing_key(fields, key)?;
        }
        Ok(())
    }

    /// Adds that a key is missing, if it is.
    fn missing_key(&mut self, fields: &Fields<'_>, key: &str) -> Result<(), AllocError>
        ensures { IfOk result (λ _. Adds self.old.all.items self.new.all.items
            (document.missing_in fields.now.at.now (key.now ∷ [])
            (table_view fields.now.table.now))) }
    {
        if fields.get(key).is_none() {
            self.lacks(fields, key)?;
        }
        Ok(())
    }

    /// Adds what is wrong with a key's value, which is to be a whole number from `low` to `high`.
    pub fn whole_number(
        &mut self,
        fields: &Fields<'_>,
        key: &str,
        low: u64,
        high: u64,
    ) -> Result<(), AllocError>
        ensures { IfOk result (λ _. Adds self.old.all.items self.new.all.items
            (document.whole low high fields.now.at.now key.now
            (table_view fields.now.table.now))) }
    {
        let Some(value) = fields.get(key) else {
            return Ok(());
        };
        if let Err(wrong) = value::whole_number(value, low, high) {
            self.wrong(fields, key, wrong)?;
        }
        Ok(())
    }

    /// The same where it is to be a location.
    pub fn location(&mut self, fields: &Fields<'_>, key: &str) -> Result<(), AllocError>
        ensures { IfOk result (λ _. Adds self.old.all.items self.new.all.items
            (document.location fields.now.at.now key.now (table_view fields.now.table.now))) }
    {
        let Some(value) = fields.get(key) else {
            return Ok(());
        };
        if let Err(wrong) = value::location(value) {
            self.wrong(fields, key, wrong)?;
        }
        Ok(())
    }

    /// The same where it is to be one of some texts.
    pub fn choice<T: Copy + Drop>(
        &mut self,
        fields: &Fields<'_>,
        key: &str,
        choices: &[(&str, T)],
    ) -> Result<(), AllocError>
        ensures { IfOk result (λ _. Adds self.old.all.items self.new.all.items
            (document.text (map (λ choice. choice.0.now) choices.now) fields.now.at.now key.now
            (table_view fields.now.table.now))) }
    {
        let Some(value) = fields.get(key) else {
            return Ok(());
        };
        if let Err(wrong) = value::choice(value, choices) {
            self.wrong(fields, key, wrong)?;
        }
        Ok(())
    }
}
