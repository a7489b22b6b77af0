/// Where the programmed switch stands, which says whether 01 stops.
#[derive(Clone, Copy, Debug, PartialEq, Eq)]
pub enum Programmed {
    /// At STOP: 01 stops.
    Stop,
    /// At RUN: 01 goes on.
    Run,
    /// At either: 01 may stop or go on.
    Any,
}
