//! Cycles among the links by which each node goes on.

use crate::net::Net;
use std::alloc::{AllocError, Global};

/// The cycles, each by its links.
pub fn cycles_of(
    alloc: Global,
    net: &Net,
    by: &[Option<usize>],
) -> Result<Vec<Vec<usize>>, AllocError> {
    let mut seen: Vec<Option<usize>> = vec![in alloc; None; by.len()]?;
    let mut cycles = Vec::new(alloc);
    for node in 0..by.len() {
        if let Some(on) = closed(net, by, &mut seen, node) {
            cycles.push(around(alloc, net, by, on)?)?;
        }
    }
    Ok(cycles)
}

/// The link by which a node goes on.
fn link_at(by: &[Option<usize>], node: usize) -> Option<usize> {
    match by.get(node) {
        Some(link) => *link,
        None => None,
    }
}

/// A node of a cycle that is come to from this one, if it wasn't seen before.
fn closed(
    net: &Net,
    by: &[Option<usize>],
    seen: &mut [Option<usize>],
    from: usize,
) -> Option<usize> {
    let mut at = from;
    for _ in 0..=by.len() {
        let before = seen.get_mut(at)?;
        if let Some(number) = *before {
            return if number == from { Some(at) } else { None };
        }
        *before = Some(from);
        at = net.onto(link_at(by, at)?)?;
    }
    None
}

/// The links of the cycle that a node is on.
fn around(
    alloc: Global,
    net: &Net,
    by: &[Option<usize>],
    on: usize,
) -> Result<Vec<usize>, AllocError> {
    let mut links = Vec::new(alloc);
    let mut at = on;
    for _ in 0..by.len() {
        let Some(link) = link_at(by, at) else {
            break;
        };
        links.push(link)?;
        at = net.onto(link).unwrap_or(on);
        if at == on {
            break;
        }
    }
    Ok(links)
}
