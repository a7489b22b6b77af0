//! A machine that takes the steps which `machine_steps` defines, with the words of a deck on its
//! drum, the cards of its reader and the waits for its card machines. And the monitor, which tells
//! when the run of a machine leaves the notes: step by step, with the counts of the marks so far,
//! and with which exits of subroutines are open.
//!
//! Code, from the bottom up. `setup` and `feed` are what a machine is given; of the feed the next
//! card and the next wait are taken. `first_drum` is its drum at time 0. `arithmetic` has sums,
//! products, quotients, digit sums and shifts. `registers` has what each operation does, and the
//! units of its work (36 and 84 are none: `op` of `base_words`). `machine` takes the steps. A
//! `step` is what it answers, and a `stop` that it has stopped. `memory` says that there was no
//! memory. `monitor` judges the steps, by the counts and by what is open of `machine_steps`, and by
//! `monitor/allowed`: whether a word is allowed at its location.
//!
//! Definitions: `Setup` and `FirstState` (how a run begins) and `Fed` (which cards and waits its
//! steps take). The others say what the code's types mean: `Registers`, `Feed`, `Machine`, and
//! `Monitor`, what a monitor has seen of a run. When a run keeps to the notes, and which way of
//! leaving them comes first, is said by `Keeps` of `machine_steps`.
//!
//! Proofs. `Stepping` puts a step together of its parts, over `Keeping`, of a number that the
//! accumulator is to keep. `OwnLocations` is on words for locations, each given once. `StepLaws`
//! says what a step writes and by which way it ends. `Watching` is on
//! what a monitor has seen, one step later; `Judging`, on what the answer to a step says of the
//! notes; `Allowing`, on which instructions lists allow. Other crates use `Stepping`, `Watching`
//! and `Judging` too.
#![tactic(auto)]

mod arithmetic;
mod feed;
mod first_drum;
mod machine;
mod memory;
mod monitor;
mod registers;
mod setup;
mod step;
mod stop;

pub use feed::Feed;
pub use machine::Machine;
pub use memory::Memory;
pub use monitor::Monitor;
pub use setup::Setup;
pub use step::Step;
