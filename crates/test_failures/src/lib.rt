//! Tests of what no command shows: devices and memory that fail, and calls of libraries.
//!
//! `devices` has readers that give few bytes, fail or never end, and tests of the program over them
//! and over outputs that take few bytes or fail. `memory` has tests of calls that take memory,
//! under each of which `checks/refuse-memory` refuses its requests in turn. Both share `shelf`, a
//! source of files over such readers, and `page`, a writer that takes no memory and no more than it
//! is told. `calls` has calls that succeed, and `doors` what comes in by the doors of the library.
//! All share `texts`: decks, a timing table and notes.
#![tactic(auto)]

#[cfg(test)]
mod calls;
#[cfg(test)]
mod devices;
#[cfg(test)]
mod doors;
#[cfg(test)]
mod memory;
#[cfg(test)]
mod page;
#[cfg(test)]
mod shelf;
#[cfg(test)]
mod texts;
