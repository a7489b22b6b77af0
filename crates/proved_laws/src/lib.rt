//! What follows from the definitions: laws, and definitions evaluated. No crate of the program
//! stands on this one, so the program is proved without it.
//!
//! Code. A law is the contract of a function that does nothing, or that calls other laws. Each file
//! has the laws of the definitions of one crate: `times` of `base_notes`; `deck`, `from_toml`,
//! `inputs`, `faults` and `documents` of `read_decks`, `read_toml`, `read_replays`, `read_faults`
//! and `read_documents`; `rotation` and `machine` of `machine_rotation` and `machine_steps`;
//! `flow`, `acceptance` and `loops` of `flow_graph`, `flow_acceptance` and `flow_loops`; `bound` of
//! `bound_scan`, as that a slower timing table never has a smaller bound; `ceiling` of
//! `ceiling_checked`; `check` of `check_deck`; `listing`, `bracket` and `graph` of `print_walks`,
//! `print_ceilings` and `print_graphs`; `replay` of `program_replay`. (A law that another crate
//! calls stands in the file `laws` of its own crate, and so do those of `program_run`, which tell
//! in a sentence what `bound` prints, and of `program_command`.)
//!
//! Definitions: `Slower` (a timing table that is nowhere quicker than another), `Marked` (notes
//! with more marks) and `TellsOf` (when what a line of a walk in rounds tells is so) have the words
//! of laws, and `WalkTime` what a walk's time depends on.
//!
//! Proofs. Of single crates: `Prefixes` and `Wholes` of the machine; `SlowerTables` and
//! `WalkPasses` of the flow graph; `Refusals` of acceptance; `Markings` of loops; `LineCases` and
//! `DeckOrFault` of decks; `InputLines` and `InputsOrFault` of inputs; `OneList` of faults;
//! `OneListing` of waits; `LinesTold` of a walk in rounds; `OneRun` and `OneVerdict` of replays.
//! What `check` finds: `Silent` and `Accepting` show where nothing is in the way of a bound, and
//! `Firsts` what is found first; they stand on `Begins` (lists that begin with something), `Fits`
//! (locations of which nothing is found), `Sizes` (when a size is too large) and `WriteRanges` (the
//! words that an instruction writes follow one another).
//!
//! Definitions evaluated, with answers that were worked out apart from them: `MachineChecks`
//! (single steps with their times), `Effects` (what operations do) and `Marks` (counts), on the
//! machine of `SmallMachine`; `WaitChecks`, the lines of waits; and one file for each of some other
//! crates, `CoreChecks` that of `base_words`. Several of them share the timing table and the marks
//! of `SmallTable`.
#![tactic(auto)]

pub mod acceptance;
pub mod bound;
pub mod bracket;
pub mod ceiling;
pub mod check;
pub mod deck;
pub mod documents;
pub mod faults;
pub mod flow;
pub mod from_toml;
pub mod graph;
pub mod inputs;
pub mod listing;
pub mod loops;
pub mod machine;
pub mod replay;
pub mod rotation;
pub mod times;
