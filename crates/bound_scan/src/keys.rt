//! The keys of the table of worst times.

ghost use Rattle.std.specs.Prelude.{◌≡◌, ℕ, ◌-◌, ◌%◌, ◌<◌, ◌≤◌, length, slice_get, Some, Contains};
ghost use Rattle.std.specs.Prelude.{IfOk};
ghost use Rattle.machine_steps.specs.Counts.{no_counts, AreWithin};
ghost use Rattle.machine_steps.specs.CountsIn.{counts_in};
ghost use Rattle.base_graphs.specs.Graph.{AreDifferent};
ghost use Rattle.flow_graph.specs.Accepted.{counts_of as counts_in_all};
ghost use Rattle.flow_graph.specs.Flow.{executed_in};
ghost use Rattle.flow_graph.specs.HopsLeft.{hops_left};
ghost use Rattle.flow_acceptance.specs.OrderedFlow.{in_order};
ghost use Rattle.bound_scan.specs.Keys.{IsKey};
ghost use Rattle.bound_scan.specs.Table.{start_angle as start_angle_of};
ghost use Rattle.bound_scan.specs.KeysOf.{AreKeys, CanHaveKeys, HaveHops, HaveIndices, hops_in};
ghost use Rattle.bound_scan.specs.KeysOf.{marks_in, nodes_in, numbers, order_in, start_of};

use crate::numbers::leading;
use base_notes::Mark;
use base_words::{Location, REVOLUTION};
use flow_acceptance::OrderedFlow;
use flow_acceptance::counts::counts_of;
use flow_graph::Hops;
use machine_steps::Counts;
use std::alloc::{AllocError, Global};

/// An executed location, and its hops.
#[derive(Clone, Copy)]
pub struct Node<'a> {
    pub location: Location,
    pub hops: Hops<'a>,
}

/// The executed locations, in an order in which each edge free of marks goes on, with the counts
/// that the marks can have. A key is a number: that of the counts, with the first mark's leading,
/// times the number of the locations, and the index of one among them.
#[derive(Drop)]
pub struct Keys<'a> {
    pub accepted: &'a OrderedFlow<'a>,
    /// The locations, in order.
    pub nodes: Vec<Node<'a>>,
    /// The index of each location in the order, by its number.
    indices: Vec<usize>,
    /// How many counts the marks can have.
    pub counts: usize,
    /// How many keys there are.
    pub size: usize,
}

/// The executed locations of an accepted deck in their order, each with its hops.
fn nodes_of<'a>(alloc: Global, accepted: &'a OrderedFlow<'a>) -> Result<Vec<Node<'a>>, AllocError>
    requires { (place : ℕ) → Contains (in_order accepted.now) place
        → Contains (executed_in accepted.now.flow) place }
    ensures order { IfOk result (λ nodes. nodes_in nodes.items ≡ in_order accepted.now) }
    ensures hops { IfOk result (λ nodes. HaveHops accepted.now nodes.items) }
{
    let mut nodes = Vec::new(alloc);
    for location in accepted.order() {
        let hops = accepted.flow().hops(*location);
        nodes.push(Node {
            location: *location,
            hops,
        })?;
    }
    Ok(nodes)
}

/// The index of each of these locations among them, by its number.
fn indices_of(alloc: Global, order: &[Location]) -> Result<Vec<usize>, AllocError>
    requires { AreDifferent (numbers order.now) }
    ensures { IfOk result (λ indices. HaveIndices (numbers order.now) indices.items) }
{
    let mut indices = vec![in alloc; 0; Location::NUMBERS]?;
    for index in 0..order.len() {
        indices[order[index].number as usize] = index;
    }
    Ok(indices)
}

impl<'a> Keys<'a> {
    /// The keys of an accepted flow.
    pub fn of(alloc: Global, accepted: &'a OrderedFlow<'a>) -> Result<Keys<'a>, AllocError>
        requires { CanHaveKeys accepted.now }
        ensures keys { IfOk result (λ keys. AreKeys keys) }
        ensures accepted { IfOk result (λ keys. keys.accepted.now ≡ accepted.now) }
    {
        let nodes = nodes_of(alloc, accepted)?;
        let indices = indices_of(alloc, accepted.order())?;
        let counts = counts_of(accepted.flow().notes().marks()) as usize;
        let size = counts * nodes.len();
        Ok(Keys {
            accepted,
            nodes,
            indices,
            counts,
            size,
        })
    }

    /// Where the program starts.
    pub fn start(&self) -> Location
        ensures { result.number ≡ start_of self.now }
    {
        self.accepted.flow().deck().start()
    }

    /// The one start angle, that behind the start's: 0 to 49.
    pub fn start_angle(&self) -> u64
        ensures { result ≡ start_angle_of (start_of self.now) }
    {
        (u64::from(self.start().number()) + 1) % REVOLUTION
    }

    /// The start's key, with no mark passed.
    pub fn start_key(&self) -> usize
        requires { AreKeys self.now }
        ensures { IsKey (marks_in self.now) (order_in self.now) result (start_of self.now)
            (no_counts (marks_in self.now)) }
    {
        self.key_of(Counts::none(), self.start())
    }

    /// The marks.
    pub fn marks(&self) -> &'a [Mark]
        requires { AreKeys self.now }
        ensures all { result.now ≡ marks_in self.now }
        ensures few { length result.now ≤ 64 }
        ensures small { counts_in_all result.now ≤ 4000000 }
    {
        self.accepted.flow().notes().marks()
    }

    /// The location of this index in the order.
    #[inline(always)]
    pub fn location(&self, index: usize) -> Location
        requires there { index < length (order_in self.now) }
        ensures { slice_get (order_in self.now) index ≡ Some result.number }
    {
        self.accepted.order()[index]
    }

    /// The location of this index in the order, with its hops.
    pub fn node(&self, index: usize) -> Node<'a>
        requires keys { AreKeys self.now }
        requires there { index < length (order_in self.now) }
        ensures location { slice_get (order_in self.now) index ≡ Some result.location.number }
        ensures hops { hops_left result.hops ≡ hops_in self.now result.location.number }
    {
        self.nodes[index]
    }

    /// The index of a key's location in the order. `first` is the first key of some counts: where
    /// the key has the same counts, there is nothing to divide.
    #[inline(always)]
    pub fn index_at(&self, key: usize, first: usize) -> usize
        requires keys { AreKeys self.now }
        requires below { key < self.now.size }
        requires first { first % length (order_in self.now) ≡ 0 }
        ensures value { result ≡ key % length (order_in self.now) }
        ensures within { result ≤ key }
        ensures first { (key - result) % length (order_in self.now) ≡ 0 }
    {
        let words = self.nodes.len();
        if first <= key && key - first < words {
            key - first
        } else {
            key % words
        }
    }

    /// The index of a location in the order.
    pub fn index_of(&self, location: Location) -> usize
        requires keys { AreKeys self.now }
        requires there { Contains (order_in self.now) location.number }
        ensures { slice_get (order_in self.now) result ≡ Some location.number }
    {
        self.indices[location.number as usize]
    }

    /// The key of counts and a location of the order.
    fn key_of(&self, counts: Counts, location: Location) -> usize
        requires keys { AreKeys self.now }
        requires within { AreWithin (marks_in self.now) (counts_in counts (marks_in self.now)) }
        requires there { Contains (order_in self.now) location.number }
        ensures { IsKey (marks_in self.now) (order_in self.now) result location.number
            (counts_in counts (marks_in self.now)) }
    {
        leading(self.marks(), counts) * self.nodes.len() + self.index_of(location)
    }
}
