//! Where instructions are found in nodes of the flow graph.

ghost use Rattle.std.specs.Prelude.{◌≡◌, ◌<◌, IfOk, IfSome, IfNone, OnOk, Some, Contains, length};
ghost use Rattle.std.specs.Prelude.{slice_get, ◌⊎◌};

use crate::found::is_found_at;
use base_graphs::Distinct;
use base_words::{Location, REVOLUTION};
use flow_graph::Flow;
use std::alloc::{AllocError, Global};

/// A node of the flow graph, with an angle at which the instruction at its location is found.
#[derive(Clone, Copy, PartialEq, Eq, Hash)]
pub struct Site {
    /// The index of the node in the order of discovery.
    pub node: usize,
    /// The drum's angle, 0 to 49.
    pub angle: u64,
}

/// All sites of a flow graph, node by node, numbered from 0.
#[derive(Drop)]
pub struct Sites {
    sites: Distinct<Site>,
}

impl Sites {
    ghost use Rattle.std.specs.Prelude.{ℕ, ◌≤◌};
    ghost use Rattle.machine_steps.specs.Timing.{found};
    ghost use Rattle.base_graphs.specs.Graph.{AreDifferent};
    ghost use Rattle.flow_graph.specs.Flow.{nodes_of};
    ghost use Rattle.ceiling_rows.specs.declared.sites.Site as one;
    ghost use Rattle.ceiling_rows.specs.Sites.{sites_in, AreSites};

    /// Those of all nodes.
    pub fn of(alloc: Global, flow: &Flow<'_>) -> Result<Sites, AllocError>
        ensures { IfOk result (λ sites. AreSites (nodes_of flow.now) (sites_in sites)) }
    {
        let mut sites = Sites {
            sites: Distinct::none(alloc),
        };
        for node in 0..flow.size() {
            sites.add(node, flow.location(node))?;
        }
        // What `len` ensures of them: they differ.
        let _len = sites.len();
        Ok(sites)
    }

    /// Adds the sites of a node at this location.
    fn add(&mut self, node: usize, location: Location) -> Result<(), AllocError>
        ensures kept { OnOk result ((site : one.Site) → Contains (sites_in self.old) site
            → Contains (sites_in self.new) site) }
        ensures added { OnOk result ((angle : ℕ) → angle < 50
            → found location.number angle ≡ angle
            → Contains (sites_in self.new) (record { node = node; angle = angle })) }
        ensures only { OnOk result ((site : one.Site) → Contains (sites_in self.new) site
            → Contains (sites_in self.old) site ⊎ ((site.node ≡ node) × (site.angle < 50)
            × (found location.number site.angle ≡ site.angle))) }
    {
        for angle in 0..REVOLUTION {
            if !is_found_at(location, angle) {
                continue;
            }
            self.sites.add(Site { node, angle })?;
        }
        Ok(())
    }

    /// The numbers of the sites of these nodes, node by node.
    pub fn in_order(&self, alloc: Global, nodes: &[usize]) -> Result<Vec<usize>, AllocError>
        ensures { IfOk result (λ numbers. (number : ℕ) → Contains numbers.items number
            → number < length (sites_in self.now)) }
    {
        let mut numbers = Vec::new(alloc);
        for node in nodes {
            self.add_numbers(&mut numbers, *node)?;
        }
        Ok(numbers)
    }

    /// Adds the numbers of the sites of a node.
    fn add_numbers(&self, numbers: &mut Vec<usize>, node: usize) -> Result<(), AllocError>
        ensures { OnOk result ((number : ℕ) → Contains numbers.new.items number
            → Contains numbers.old.items number ⊎ (number < length (sites_in self.now))) }
    {
        for angle in 0..REVOLUTION {
            let Some(number) = self.number(node, angle) else {
                continue;
            };
            numbers.push(number)?;
        }
        Ok(())
    }

    /// How many there are.
    pub fn len(&self) -> usize
        ensures long { result ≡ length (sites_in self.now) }
        ensures different { AreDifferent (sites_in self.now) }
    {
        self.sites.as_slice().len()
    }

    /// The site with a number.
    pub fn at(&self, number: usize) -> Site
        requires { number < length (sites_in self.now) }
        ensures { slice_get (sites_in self.now) number ≡ Some result }
    {
        self.sites.as_slice()[number]
    }

    /// The number of the site of a node at an angle; `None` where its location isn't found there.
    pub fn number(&self, node: usize, angle: u64) -> Option<usize>
        ensures found { IfSome result (λ number. slice_get (sites_in self.now) number
            ≡ Some (record { node = node; angle = angle })) }
        ensures none { IfNone result
            (¬ Contains (sites_in self.now) (record { node = node; angle = angle })) }
    {
        self.sites.index_of(Site { node, angle })
    }
}
