//! The longest step of the executed locations.

ghost use Rattle.std.specs.Prelude.{◌≡◌, ℕ, ◌≤◌, Some, IfSome, IfNone, slice_get};
ghost use Rattle.ceiling_rows.specs.declared.row.Row as held;

use ceiling_rows::Row;

/// What the hops of a row take at most; 0, where there is none.
fn most_of(row: &Option<Row>) -> u32
    ensures none { IfNone row.now (result ≡ 0) }
    ensures some { IfSome row.now (λ one. result ≡ one.most) }
{
    match row {
        Some(row) => row.most,
        None => 0,
    }
}

/// The most word times that a step takes, with the search for the next instruction; 1 at least.
pub fn longest_of(rows: &[Option<Row>]) -> u32
    ensures some { 1 ≤ result }
    ensures each { (slot : ℕ) (row : held.Row) → slice_get rows.now slot ≡ Some (Some row)
        → row.most ≤ result }
    ensures least { (most : ℕ) → 1 ≤ most → ((slot : ℕ) (row : held.Row)
        → slice_get rows.now slot ≡ Some (Some row) → row.most ≤ most) → result ≤ most }
{
    let mut longest = 1;
    for row in rows {
        longest = most_of(row).max(longest);
    }
    longest
}
