//! The drawing of a scene, as an SVG document of bounded size. It is proved to be safe and to end,
//! whatever is handed in, to begin with what the walk takes, in words, and to end with where these
//! word times go, in numbers; how it looks is no contract. docs/PICTURE.md says how it is read.
//!
//! Code. `drawing` has `draw`, which draws the whole. `svg` is the document, with the macro
//! `draw!`, which appends pieces to it. `heading` begins it with what the walk takes. `layout` says
//! where the drawings stand. The drum is drawn by `drum`, ring by ring, with `word`, `labels`,
//! `curves` and `beside` (8000 to 8003); `rings` says which bands have a ring, and how wide it is,
//! and in `point` angles become points. The walk is drawn a revolution a row by `revolutions`, with
//! `spans` (the parts of a hop; how wide a word time is, and how far apart the rows are) and
//! `braces` (rounds of which one is shown). `page` has what stands around them: the lines below the
//! heading, of a run with its `verdict`, and the keys. `bar` draws where the word times go, with
//! their percentages and numbers. `ink` has the colours, and `scale` a share of a length.
//!
//! Definitions, in the order to read them: `Heading` and `Bar` are what a picture says in words and
//! in numbers, and `PictureText` that it begins with the one and ends with the other. `Draws` is
//! what appending does to a document.
//!
//! Proofs. `Appending` puts together what is appended one behind the other.
#![tactic(auto)]

mod bar;
mod beside;
mod braces;
mod curves;
mod drawing;
mod drum;
mod heading;
mod ink;
mod labels;
mod layout;
mod page;
mod point;
mod revolutions;
mod rings;
mod scale;
mod spans;
mod svg;
mod verdict;
mod word;

pub use drawing::draw;
