//! Walks in rounds, which may be far too long to be listed: each is held by its pieces, those of
//! `flow_walks`, and here it is worked out what these spell out.
//!
//! Code, from the bottom up. `change` and `changes` are what hops do to the count of a mark and of
//! all marks; `opening` and `openings` are what they ask and make of what is open at the exit of a
//! call and of all calls. `stretch` is what hops come to, and `coming` tells it of one hop, of one
//! stretch behind another, and of rounds of one. `order` tells whether pieces are numbered as a
//! walk comes to their ends, and `piece_totals`, by `often`, how long each takes and how often it
//! comes. By these `weighing` tells the walk that pieces spell out, an `in_rounds`, or that they
//! spell out none; `setting` has the deck, the timing table and the notes. `one_hop` has the
//! longest walk of one hop.
//!
//! Definitions, in the order to read them, behind `Pieces` of `flow_walks`: `Order` (how pieces are
//! numbered), `InRounds` (when a walk in rounds is right) and `OneHop` (that none of one hop takes
//! longer). The others say what the code's types mean by these: `Change`, `Opening`, `Stretch`,
//! `OrderOf` and `OftenOf`.
//!
//! Proofs. `CountLaws` has what changes do to counts, `OpeningLaws` what openings make of what is
//! open, `LaidLaws` hops that are laid one after the other, each as long as it can be, and
//! `HopLaws` which hops a location has. `Comings` shows what stretches come to, one by one,
//! `SpelledLaws` what pieces spell out, and `Wholes` that the last is a walk. `OrderLaws` and
//! `OftenLaws` go through the pieces, forwards and backwards. `OneHops` has which hops are walks of
//! their own, and that none takes longer than from the angle behind the start's.
#![tactic(auto)]

mod change;
mod changes;
mod coming;
mod in_rounds;
mod often;
mod one_hop;
mod opening;
mod openings;
mod order;
mod piece_totals;
mod setting;
mod stretch;
mod weighing;

pub use in_rounds::InRounds;
pub use setting::Setting;
