//! A door: the timed machine that takes steps, and the monitor that says when its run leaves the
//! notes. What stands here is another crate's; its pages say what it promises.
//!
//! - [`Setup`] and [`Feed`] fix a run; [`Machine`] takes its steps, each a [`Step`]; [`Memory`] is
//!   the one thing that it may lack; and [`Monitor`] watches it, of `machine_emulator`.
//! - [`Card`], [`Why`] a machine stops, and how a run [`Left`] the notes, of `machine_steps`.
#![tactic(auto)]

pub use machine_emulator::{Feed, Machine, Memory, Monitor, Setup, Step};
pub use machine_steps::{Card, Left, Why};
