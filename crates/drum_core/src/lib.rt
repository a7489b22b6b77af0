//! A door: words, locations, instructions and decks, the devices that bytes come from and go to,
//! and the rotation of the drum. What stands here is another crate's; its pages say what it
//! promises.
//!
//! - [`Word`], [`Location`] with its [`Kind`], [`Instruction`], [`Op`] with its [`Operand`], and
//!   [`Parity`], of `base_words`.
//! - [`read_deck`], the [`Deck`] that it reads, and a [`DeckFault`], of `read_decks`.
//! - [`Input`] and [`Output`], which tell their bytes and count their calls; [`Reading`] and
//!   [`Writing`], which make one of a reader or writer of the standard library; and [`Failed`], of
//!   `base_devices`.
//! - [`Clockwork`], what holds of each wait, and the waits [`Delay`], [`AtAngle`], [`AtParity`],
//!   [`Seek`] and [`Then`], of `machine_rotation`; `chain` has what holds of waits in a row.
#![tactic(auto)]

pub use base_devices::{Failed, Input, Output, Reading, Writing};
pub use base_words::{Instruction, Kind, Location, Op, Operand, Parity, Word};
pub use machine_rotation::{AtAngle, AtParity, Clockwork, Delay, Seek, Then, chain};
pub use read_decks::{Deck, DeckFault, read_deck};
