//! A run of the program over devices of these tests.

ghost use Rattle.std.specs.Prelude.{◌^◌, ◌≤◌};

use crate::devices::Tap;
use crate::page::Page;
use crate::shelf::Shelf;
use drum_core::{Input, Reading, Writing};
use drum_tool::{Status, run};
use std::alloc::Global;

/// Room for each text that is written, and all of it at once.
pub(crate) const AMPLE: (usize, usize) = (usize::MAX, usize::MAX);

/// What a run of the program gave.
#[derive(Drop)]
pub(crate) struct Ran {
    pub(crate) status: Status,
    pub(crate) out: Writing<Page>,
    pub(crate) err: Writing<Page>,
    /// Of the standard input.
    pub(crate) calls: u64,
    pub(crate) failures: u64,
}

impl Ran {
    /// Whether it ended so, with these texts on standard output and on standard error.
    pub(crate) fn is(&self, status: Status, out: &str, err: &str) -> bool {
        self.status == status && self.out.writer.is(out) && self.err.writer.is(err)
    }
}

/// Runs words over a shelf of which nothing was read and an input, with outputs that have as much
/// room, and take as many bytes a call, as the two `limits` say.
pub(crate) fn run_over(
    alloc: Global,
    words: &[&str],
    shelf: &mut Shelf<'_>,
    input: Tap<'_>,
    limits: (usize, usize),
) -> Ran
    requires { shelf.old.failures ≤ 2 ^ 61 }
{
    let (room, most) = limits;
    let mut input = Reading::new(input);
    let mut out = Writing::new(Page::with(room, most));
    let mut err = Writing::new(Page::with(room, most));
    let status = run(alloc, words, shelf, &mut input, &mut out, &mut err);
    Ran {
        status,
        out,
        err,
        calls: input.calls(),
        failures: input.failures(),
    }
}
