use flow_walks::Visit;
use print_hops::Sums;

/// The hops of a kind: the first of them, and what they take in all.
#[derive(Clone, Copy)]
pub struct Wait {
    /// The first of them.
    pub first: Visit,
    /// What they take in all.
    pub sums: Sums,
}
