//! What bytes come from and go to, and how a whole text is read and written.
//!
//! Code. `input` and `output` are the traits of devices, which tell how often one was called and
//! how often it failed, and which bytes are left or written where that is known; `failed` is what a
//! failed call says. `reading` and `writing` make one of any reader or writer of `std`. `whole`
//! reads a whole text, and writes one.
//!
//! Definitions: `Device` is what a device tells of its calls.
//!
//! Proofs. These have laws that other crates use: `Bytes`, of writes one after the other; `Handed`,
//! what a `?` hands on.
#![tactic(auto)]

mod failed;
mod input;
mod output;
mod reading;
mod whole;
mod writing;

pub use failed::Failed;
pub use input::Input;
pub use output::Output;
pub use reading::Reading;
pub use whole::{Unsent, WholeError, read_whole, write_whole};
pub use writing::Writing;
