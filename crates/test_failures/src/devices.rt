//! Devices that give or take few bytes, fail or never end.
//!
//! `taps` are the readers. `subjects` has the commands whose texts are known, and `running` runs
//! one. The tests are of `files`, of the joined form on the `input`, of both `outputs`, and of
//! `reports` that a caller has written.

mod files;
mod input;
mod outputs;
mod reports;
mod running;
mod subjects;
mod taps;

pub(crate) use taps::Tap;
