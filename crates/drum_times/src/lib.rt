//! A door: the timing table and the notes, and how they are read from TOML. What stands here is
//! another crate's; its pages say what it promises.
//!
//! - [`read_times`], [`read_notes`] of short notes and [`read_long_notes`] of long ones, of
//!   `read_toml`.
//! - [`Times`] with the [`Entry`] of each operation; [`Notes`] with [`Programmed`], each [`Mark`]
//!   on its [`Edges`] under its [`Name`], the [`Listing`] of a location with each [`Pattern`], and
//!   each [`Call`]; and a [`NoteFault`] with its [`KeyPath`], of `base_notes`.
#![tactic(auto)]

pub use base_notes::{
    Call, Edge, Edges, Entry, KeyPath, Listing, Mark, Name, NoteFault, Notes, Pattern, Programmed,
    Times,
};
pub use read_toml::{read_long_notes, read_notes, read_times};
