//! An entry of a timing table, read from its keys.

ghost use Rattle.std.specs.Prelude.{◌≡◌, map};
ghost use Rattle.base_notes.specs.declared.entry.Entry.{Entry};
ghost use Rattle.read_toml.specs.TimesDocument as document;
ghost use Rattle.toml.specs.View.{table_view};

use crate::document::fields::Fields;
use base_notes::Entry;
use base_words::{Op, Parity};

/// What an entry says beside `before`, `after` and `parity`.
#[derive(Clone, Copy)]
pub enum Form {
    /// Nothing.
    Plain,
    /// `per`, for each unit of the operation's work.
    Units,
    /// `wait_min` and `wait_max`, for the card machine.
    Waits,
}

/// The form of an operation's entry.
pub fn form_of(op: Op) -> Form
    ensures { result ≡ document.form_of op }
{
    match op {
        Op::Divide | Op::DivideReset | Op::Multiply | Op::Shift(_) => Form::Units,
        Op::Read | Op::Punch => Form::Waits,
        _ => Form::Plain,
    }
}

pub fn keys_of(form: Form) -> &'static [&'static str]
    ensures { map (λ key. key.now) result.now ≡ document.keys_of form }
{
    match form {
        Form::Plain => &["before", "after", "parity"],
        Form::Units => &["before", "after", "parity", "per"],
        Form::Waits => &["before", "after", "parity", "wait_min", "wait_max"],
    }
}

pub const PARITIES: [(&str, Parity); 3] = [
    ("any", Parity::Any),
    ("even", Parity::Even),
    ("odd", Parity::Odd),
];

/// The entry that a table says.
pub fn read_entry(fields: &Fields<'_>) -> Entry
    requires { (entry : Entry) × document.IsEntry (table_view fields.now.table.now) entry }
    ensures { document.IsEntry (table_view fields.now.table.now) result }
{
    Entry {
        before: fields.number("before") as u32,
        after: fields.number("after") as u32,
        parity: fields.chosen("parity", &PARITIES),
        per: fields.number("per") as u32,
        wait_min: fields.number("wait_min") as u32,
        wait_max: fields.number("wait_max") as u32,
    }
}
