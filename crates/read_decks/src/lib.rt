//! The deck that loads the drum: what its text says, and why a text is no deck.
//!
//! Code. `spaced` reads words with a space before each. `reading` takes the lines of any text one
//! after the other, up to the next with a fault: of a deck here, of inputs in `read_replays`, and
//! for all faults of either in `read_faults`. `deck` is what a deck answers. Its folder goes from
//! the text up: `deck/lines`, `deck/card`, `deck/line`, `deck/loading` (a deck of which some lines
//! are read), `deck/read`; `deck/fault` is why a text is no deck, and `deck/line_fault` the fault
//! of a line. `laws` has one law of the definitions, that a deck is not refused.
//!
//! Definitions, in the order to read them: `Lines` says which lines a text has and what its first
//! fault is, and `DeckText` which texts are decks. The others say what the code's types mean by
//! these. `DeckLine` is what a line that was read says. `ImageOfLines` says that an image, cards
//! and a start are those of some lines (each deck's type promises such lines), and `DeckOfLines`
//! that a deck is. `FirstLoaded` says which location of a card is the first that has a word
//! already, and `InDeck` what a deck loads. `EarlierLines` says which earlier line explains a
//! fault. `Taking` says what all faults of a text's lines are, and what it means to take its lines
//! one by one; `LinesSoFar` is that of a deck.
//!
//! Proofs. These have laws that other crates use: `FirstFaults`, that a text by lines says one
//! thing and has one first fault; `DeckLaws` and `FaultLaws`, of decks and their faults;
//! `LineLemmas`, of single lines; `Cards`, `CardLines`, `Puts` and `InDeckLaws`, of what cards
//! load. `Passing` follows lines as they are taken, whatever they say; `LineFaults` has what one
//! more line of a deck does, and `Progress` what comes of all.
#![tactic(auto)]

mod deck;
pub mod laws;
mod reading;
pub mod spaced;

pub use deck::Deck;
pub use deck::card::Card as DeckCard;
pub use deck::fault::DeckFault;
pub use deck::line::Line as DeckLine;
pub use deck::line_fault::LineFault;
pub use deck::lines::{Lines, is_longer};
pub use deck::loading::Loading;
pub use deck::read::{deck_of, read_deck};
pub use reading::{Reading, Taking};
