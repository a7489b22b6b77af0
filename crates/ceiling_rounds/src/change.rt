//! What hops do to the count of a mark.

ghost use Rattle.std.specs.Prelude.{◌≡◌, ◌+◌, ◌≤◌, IfSome};
ghost use Rattle.ceiling_rounds.specs.Change as said;
ghost use Rattle.ceiling_rounds.specs.declared.change.Change.TheVariants as Change;

/// What hops, one after the other, do to the count of a mark.
#[derive(Clone, Copy)]
pub enum Change {
    /// It rises by so much, a pass each time.
    Rise(u32),
    /// It is set back.
    SetBack {
        /// How often the mark is passed.
        passes: u128,
        /// How often before the count is set back for the first time.
        rise: u32,
        /// The highest that the count is from then on, or more.
        highest: u32,
        /// What it is in the end.
        last: u32,
    },
}

impl Change {
    /// How often the mark is passed.
    pub fn passes(self) -> u128
        ensures { result ≡ said.passes_by self }
    {
        match self {
            Change::Rise(by) => u128::from(by),
            Change::SetBack { passes, .. } => passes,
        }
    }

    /// This change and then another; `None` where there is no room for so many passes.
    pub fn then(self, next: Change) -> Option<Change>
        ensures { IfSome result (λ both. both ≡ said.followed self next) }
    {
        match self {
            Change::Rise(by) => next.behind(by),
            Change::SetBack {
                passes,
                rise,
                highest,
                last,
            } => {
                let more = next.passes();
                Some(Change::SetBack {
                    passes: passes.checked_add(more)?,
                    rise,
                    highest: highest.max(next.peak_from(last)?),
                    last: next.count_after(last)?,
                })
            }
        }
    }

    /// The same change behind so many passes.
    fn behind(self, by: u32) -> Option<Change>
        ensures { IfSome result (λ both. both ≡ said.followed (Change.Rise by) self) }
    {
        match self {
            Change::Rise(more) => Some(Change::Rise(by.checked_add(more)?)),
            Change::SetBack {
                passes,
                rise,
                highest,
                last,
            } => Some(Change::SetBack {
                passes: u128::from(by).checked_add(passes)?,
                rise: by.checked_add(rise)?,
                highest,
                last,
            }),
        }
    }

    /// What a count becomes.
    fn count_after(self, count: u32) -> Option<u32>
        ensures { IfSome result (λ after. after ≡ said.count_after self count) }
    {
        match self {
            Change::Rise(by) => count.checked_add(by),
            Change::SetBack { last, .. } => Some(last),
        }
    }

    /// The most that a count is on the way, or more.
    pub fn peak_from(self, count: u32) -> Option<u32>
        ensures { IfSome result (λ most. most ≡ said.peak self count) }
    {
        match self {
            Change::Rise(by) => count.checked_add(by),
            Change::SetBack { rise, highest, .. } => Some(count.checked_add(rise)?.max(highest)),
        }
    }

    /// So many rounds of the change, one at least; `None` where there is no room for so many
    /// passes.
    pub fn over_rounds(self, times: u16) -> Option<Change>
        ensures { IfSome result (λ all. all ≡ said.over_rounds times self) }
    {
        match self {
            Change::Rise(by) => Some(Change::Rise(u32::from(times).checked_mul(by)?)),
            Change::SetBack {
                passes,
                rise,
                highest,
                last,
            } => Some(Change::SetBack {
                passes: u128::from(times).checked_mul(passes)?,
                rise,
                highest: highest.max(last.checked_add(rise)?),
                last,
            }),
        }
    }
}
