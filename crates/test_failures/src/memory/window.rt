//! The window that a test opens round the call for which there is to be no memory.
//!
//! `checks/refuse-memory` runs the tests over a library that refuses requests for memory within a
//! window. By the sizes of two blocks, which nothing else asks for, the library knows where a
//! window begins and ends. Without it they are blocks like any other.

use std::process::Abort;

/// The bytes of the block that opens a window.
const OPENS: usize = 650_651;

/// The bytes of the block that closes a window. It is refused where one in the window was.
const CLOSES: usize = 650_652;

/// Opens a window.
pub(crate) fn open(rt: &(impl AllocGlobal + Abort)) {
    let Ok(mut block) = Vec::with_capacity(rt.alloc(), OPENS) else {
        assert!(rt; false, "no memory to open a window with");
        return;
    };
    // The block is used, so that no compiler leaves it out.
    assert!(rt; block.push(0u8).is_ok());
    assert_eq!(rt; block.len(), 1);
}

/// Closes the window, and tells whether a request in it was refused.
fn close(rt: &impl AllocGlobal) -> bool {
    let Ok(mut block) = Vec::with_capacity(rt.alloc(), CLOSES) else {
        return true;
    };
    block.push(0u8).is_err() || block.len() != 1
}

/// Closes the window of calls that take no memory: none was refused.
pub(crate) fn close_spared(rt: &(impl AllocGlobal + Abort)) {
    assert!(rt; !close(rt), "memory was refused where none is taken");
}

/// A call is made with all the memory that it wants, in a window, and again as at first.
#[derive(Clone, Copy, Debug, PartialEq, Eq)]
pub(crate) enum Round {
    /// In a window, where it may be refused memory.
    Watched,
    /// With all the memory that it wants.
    Free,
}

impl Round {
    /// Begins the round, right before the call.
    pub(crate) fn begin(self, rt: &(impl AllocGlobal + Abort)) {
        if self == Round::Watched {
            open(rt);
        }
    }

    /// Ends the round, right behind the call: it answers that there is no memory only where memory
    /// was refused.
    pub(crate) fn end(self, rt: &(impl AllocGlobal + Abort), is_out_of_memory: bool) {
        let was_refused = self == Round::Watched && close(rt);
        assert!(rt;
            was_refused || !is_out_of_memory,
            "memory is wanting in the round {self:?}"
        );
    }
}
