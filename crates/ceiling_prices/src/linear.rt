//! The net over which the least prices are looked for: a node for each site where walks come, in
//! their order, and a link for each edge and each end.

use crate::graph::Graph;
use crate::marks::{Standing, bit_of};
use ceiling_optimum::{Charge, Link, Net, Rank, Step};
use ceiling_rows::{SiteEdge, SiteRow};
use std::alloc::{AllocError, Global};

/// The making of a net.
#[derive(Drop)]
struct Making<'a> {
    alloc: Global,
    graph: &'a Graph<'a>,
    /// By site, its node; none, where no walk comes.
    nodes: Vec<Option<usize>>,
}

/// A site with its node.
#[derive(Clone, Copy)]
struct Place {
    site: usize,
    node: usize,
    /// The marks in whose region it is.
    here: u64,
}

/// The net of a graph.
pub fn net_of(alloc: Global, graph: &Graph<'_>) -> Result<Net, AllocError> {
    let making = Making::new(alloc, graph)?;
    let mut ranks = Vec::new(alloc);
    for mark in &graph.marks.list {
        ranks.push(Rank {
            most: mark.most,
            inner: mark.inner,
        })?;
    }
    let mut net = Net::new(alloc, graph.reached.order.len(), ranks)?;
    for (node, site) in graph.reached.order.iter().enumerate() {
        let links = making.links_at(node, *site)?;
        net.add_node(making.location_of(*site), links)?;
    }
    net.start = making.node_of(graph.reached.start).unwrap_or(0);
    net.begun = making.owed(graph.regions.at(graph.reached.start))?;
    Ok(net)
}

impl<'a> Making<'a> {
    /// The nodes by the order of the sites.
    fn new(alloc: Global, graph: &'a Graph<'a>) -> Result<Making<'a>, AllocError> {
        let mut nodes: Vec<Option<usize>> = vec![in alloc; None; graph.reached.count()]?;
        for (node, site) in graph.reached.order.iter().enumerate() {
            if let Some(entry) = nodes.get_mut(*site) {
                *entry = Some(node);
            }
        }
        Ok(Making {
            alloc,
            graph,
            nodes,
        })
    }

    /// The node of a site.
    fn node_of(&self, site: usize) -> Option<usize> {
        match self.nodes.get(site) {
            Some(node) => *node,
            None => None,
        }
    }

    /// The number of a site's location.
    fn location_of(&self, site: usize) -> usize {
        let row = self.graph.reached.row(site);
        row.map_or(0, |row| usize::from(row.location.number))
    }

    /// The links of a site. Where nothing goes on and nothing ends, one ends that takes no time.
    fn links_at(&self, node: usize, site: usize) -> Result<Vec<Link>, AllocError> {
        let place = Place {
            site,
            node,
            here: self.graph.regions.at(site),
        };
        let mut links = Vec::new(self.alloc);
        if let Some(row) = self.graph.reached.row(site) {
            self.add_links(&mut links, place, row)?;
        }
        if links.is_empty() {
            links.push(self.end(place, 0, None))?;
        }
        Ok(links)
    }

    /// Adds those of a row.
    fn add_links(
        &self,
        links: &mut Vec<Link>,
        place: Place,
        row: &SiteRow,
    ) -> Result<(), AllocError> {
        if row.stop > 0 {
            links.push(self.end(place, row.stop, None))?;
        }
        for (index, edge) in row.edges.iter().enumerate() {
            if self.graph.marks.lets(edge) {
                links.push(self.onward(place, index, edge)?)?;
                if edge.mark.is_some() {
                    links.push(self.marked_end(place, edge)?)?;
                }
            }
        }
        Ok(())
    }

    /// An end that takes this time.
    fn end(&self, place: Place, time: u32, mark: Option<u8>) -> Link {
        Link {
            from: place.node,
            onto: None,
            time: i128::from(time),
            mark,
            charges: Vec::new(self.alloc),
            step: None,
        }
    }

    /// The end behind an edge with a mark.
    fn marked_end(&self, place: Place, edge: &SiteEdge) -> Result<Link, AllocError> {
        let mut link = self.end(place, edge.stop, edge.mark);
        let bit = edge.mark.map_or(0, bit_of);
        if let Some(mark) = edge.mark
            && place.here & bit != 0
        {
            link.charges.push(Charge {
                price: usize::from(mark),
                times: -1,
            })?;
        }
        Ok(link)
    }

    /// What an edge leads on to.
    fn onward(&self, place: Place, index: usize, edge: &SiteEdge) -> Result<Link, AllocError> {
        let mut link = self.end(place, edge.time, edge.mark);
        link.onto = self.node_of(edge.onto);
        link.step = Some(Step {
            site: place.site,
            edge: index,
        });
        let there = self.graph.regions.at(edge.onto);
        link.charges = match (edge.mark, self.standing(edge)) {
            (Some(mark), Some(standing)) => self.passed(mark, standing, place.here, there)?,
            _ => self.owed(there & !place.here)?,
        };
        Ok(link)
    }

    /// The mark of an edge.
    fn standing(&self, edge: &SiteEdge) -> Option<Standing> {
        self.graph.marks.at(edge.mark?)
    }

    /// What is charged for all passes of some marks.
    fn owed(&self, some: u64) -> Result<Vec<Charge>, AllocError> {
        let mut charges = Vec::new(self.alloc);
        if some == 0 {
            return Ok(charges);
        }
        for (price, mark) in self.graph.marks.list.iter().enumerate() {
            if mark.bit & some != 0 && mark.most > 0 {
                charges.push(Charge {
                    price,
                    times: mark.most,
                })?;
            }
        }
        Ok(charges)
    }

    /// What is charged for a pass of a mark: those inside of it begin anew.
    fn passed(
        &self,
        mark: u8,
        standing: Standing,
        here: u64,
        there: u64,
    ) -> Result<Vec<Charge>, AllocError> {
        let mut charges = self.owed(there & (!here | standing.inner) & !standing.bit)?;
        let times = if here & standing.bit != 0 {
            -1
        } else if there & standing.bit != 0 {
            standing.most.saturating_sub(1)
        } else {
            0
        };
        if times != 0 {
            charges.push(Charge {
                price: usize::from(mark),
                times,
            })?;
        }
        Ok(charges)
    }
}
