//! The elements of an array of tables: the one place that says what is wrong with a kind of them,
//! and how one with no fault is read.
ghost use Rattle.std.specs.Prelude.{◌≡◌, ℕ, ◌+◌, List, IfOk};
ghost use Rattle.read_toml.specs.AllFaults.{Adds};
ghost use Rattle.read_toml.specs.Document.{Fault};
ghost use Rattle.toml.specs.Data.{Members};
ghost use Rattle.toml.specs.View.{table_view};

use super::faults::Faults;
use super::fields::Fields;
use std::alloc::AllocError;

/// A kind of element, with what may be wrong with one.
pub trait Checked: Sized {
    /// The faults of the table, the element of this number from 1, whose keys' path begins so.
    ghost faults: { Members → ℕ → List ℕ → Members → List Fault };

    /// Adds the faults of the element with this index, from 0.
    fn check(into: &mut Faults, fields: &Fields<'_>, place: usize) -> Result<(), AllocError>
        ensures { IfOk result (λ _. Adds into.old.all.items into.new.all.items
            (faults (table_view fields.now.whole.now) (place + 1) fields.now.at.now
            (table_view fields.now.table.now))) };
}

/// What an element of an array of tables stands for.
pub trait Element: Sized {
    /// The table of a document, the element with this index from 0, says some value.
    ghost holds: { Members → ℕ → Members → Type 0 };
    /// It says the value.
    ghost says: { Members → ℕ → Members → Self → Type 0 };

    /// The value that the element with this index, from 0, says.
    fn read(fields: &Fields<'_>, place: usize) -> Result<Self, AllocError>
        requires { holds (table_view fields.now.whole.now) place (table_view fields.now.table.now) }
        ensures { IfOk result (says (table_view fields.now.whole.now) place
            (table_view fields.now.table.now)) };
}
