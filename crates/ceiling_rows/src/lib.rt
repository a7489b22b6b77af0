//! What the hops of each executed location take at most, from when its instruction is found at one
//! angle, and where they lead: the flow graph with word times on its edges, a row for each place
//! and angle; and by these a row for each node and angle, along the edges that a step may take with
//! what is open there. It stands on the flow graph alone, and knows of no price, level or
//! certificate.
//!
//! Code, from the bottom up. `slot` is where an instruction is found, a location at an angle;
//! `found` is the same with the notes and the timing table. `raised` has the latest ends of the
//! hops from there that were looked at. `taking` looks at all of them; where many are alike, at the
//! one that `slowest` tells. `edges` are those of where hops lead, and `rows` makes with them a
//! `row` for each slot: what its hops take at most, by where they lead. `sites` are nodes at the
//! angles at which they are found, and a `site_row` has what the hops from one take at most.
//!
//! Definitions, in the order to read them: `Steps` (how long a step can take, and what none takes
//! more than), `Slot` (the numbers of where instructions are found), `Marked` (the mark that a hop
//! passes), `Rows` (when rows have all hops, each with as much time as it can take), `Sites` and
//! `SiteRows` (the same of nodes). The others
//! say what the code's types mean by these: `Bands`, `Raised`, `Slowest` and `Taking`.
//!
//! Proofs. `LastEnds` shows which of many data addresses makes a hop end last, and `Raises` and
//! `RowLaws` that a row has all hops. `Bands` has lemmas on what stands at the numbers, and
//! `Pushed` on lists with one more at their end. `Angles` has the angles at which locations are
//! found, `SiteKeys` sites as keys of a set, and `SiteLaws` that the rows of sites have all hops.
#![tactic(auto)]

mod edges;
mod found;
mod raised;
mod row;
mod rows;
mod site_row;
mod sites;
mod slot;
mod slowest;
mod taking;

pub use row::{Edge, Row};
pub use rows::rows_of;
pub use site_row::{SiteEdge, SiteRow, site_rows};
pub use sites::{Site, Sites};
pub use slot::Slot;
