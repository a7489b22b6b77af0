//! The values at the keys of a table.
ghost use Rattle.std.specs.Prelude.{◌≡◌, Some, map};
ghost use Rattle.base_words.specs.Location.{IsLocation};
ghost use Rattle.read_toml.specs.Document as document;
ghost use Rattle.read_toml.specs.Value.{StandsFor};
ghost use Rattle.toml.specs.Data.{Data, Members, get_member, table as toml_table};
ghost use Rattle.toml.specs.View.{table_view};

use super::fields::{Fields, member};
use super::value;
use base_words::Location;
use toml::Table;

impl Fields<'_> {
    /// The table at a key where there is one.
    pub fn table(&self, key: &str) -> &Table
        requires { (found : Members) × (get_member key.now (table_view self.now.table.now)
            ≡ Some (toml_table found)) }
        ensures { get_member key.now (table_view self.now.table.now)
            ≡ Some (toml_table (table_view result.now)) }
    {
        let Some(value) = self.get(key) else {
            unreachable!()
        };
        let Some(table) = value.as_table() else {
            unreachable!()
        };
        table
    }

    /// The location whose number stands at a key.
    pub fn location(&self, key: &str) -> Location
        requires { IsLocation (document.number_at key.now (table_view self.now.table.now)) }
        ensures { result.number ≡ document.number_at key.now (table_view self.now.table.now) }
    {
        location_of(self.number(key))
    }

    /// What the text at a key stands for, which stands for something.
    pub fn chosen<T: Copy + Drop>(&self, key: &str, choices: &[(&str, T)]) -> T
        requires { (value : Data)
            × (get_member key.now (table_view self.now.table.now) ≡ Some value)
            × ((one : T) × StandsFor (map (λ choice. (choice.0.now, choice.1)) choices.now) value
            one) }
        ensures { (value : Data) × (get_member key.now (table_view self.now.table.now) ≡ Some value)
            × StandsFor (map (λ choice. (choice.0.now, choice.1)) choices.now) value result }
    {
        let Some(value) = self.get(key) else {
            unreachable!()
        };
        let Ok(chosen) = value::choice(value, choices) else {
            unreachable!()
        };
        chosen
    }

    /// The whole number at a key; 0 where there is none, or a negative one.
    pub fn number(&self, key: &str) -> u64
        ensures { result ≡ document.number_at key.now (table_view self.now.table.now) }
    {
        let Some(value) = self.get(key) else {
            return 0;
        };
        value::number(value)
    }
}

/// The location at a key of a table, if there is one.
pub fn location_at(table: &Table, key: &str) -> Option<Location>
    ensures { document.locations_at key.now (table_view table.now) ≡ document.numbers_of result }
{
    match value::location(member(table, key)?) {
        Ok(location) => Some(location),
        Err(_) => None,
    }
}

/// The location of a number.
pub fn location_of(number: u64) -> Location
    requires { IsLocation number }
    ensures { result.number ≡ number }
{
    let Some(location) = Location::new(number as u16) else {
        unreachable!()
    };
    location
}
