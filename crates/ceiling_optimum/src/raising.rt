//! Prices by the first rule: of a cycle that takes longer than it pays, the outermost mark of the
//! fewest passes gets dearer.

use crate::net::Net;
use crate::prices::Prices;
use std::alloc::{AllocError, Global};

/// How often each price pays on a way.
fn pays_on(alloc: Global, net: &Net, links: &[usize]) -> Result<Vec<i128>, AllocError> {
    let mut pays: Vec<i128> = vec![in alloc; 0; net.ranks.len()]?;
    for number in links {
        if let Some(link) = net.link(*number)
            && let Some(mark) = link.mark
            && let Some(own) = pays.get_mut(usize::from(mark))
        {
            *own = own.saturating_add(1);
        }
    }
    Ok(pays)
}

/// The prices that pay on a way, a bit of each.
fn bits_of(pays: &[i128]) -> u64 {
    let mut bits = 0;
    for (index, pay) in (0..64).zip(pays) {
        if *pay > 0 {
            bits |= bit_of(index);
        }
    }
    bits
}

/// The bit of an index.
fn bit_of(index: u32) -> u64 {
    let first: u64 = 1;
    first.wrapping_shl(index)
}

/// The prices that stand inside of one of these.
fn inside_of(net: &Net, some: u64) -> u64 {
    let mut inner = 0;
    for (index, rank) in (0..64).zip(&net.ranks) {
        if some & bit_of(index) != 0 {
            inner |= rank.inner;
        }
    }
    inner
}

/// Of these prices, none of which stands inside of another, the one that is charged least often.
fn fewest(net: &Net, some: u64) -> Option<usize> {
    let mut fewest: Option<usize> = None;
    let mut least = i128::MAX;
    for (index, (place, rank)) in (0..64).zip(net.ranks.iter().enumerate()) {
        if some & bit_of(index) != 0 && rank.most < least {
            least = rank.most;
            fewest = Some(place);
        }
    }
    fewest
}

impl Prices {
    /// Raises the price of a cycle's outermost mark until the cycle pays. Whether it wasn't paid
    /// before, and now is.
    pub fn charge(
        &mut self,
        alloc: Global,
        net: &Net,
        cycle: &[usize],
    ) -> Result<bool, AllocError> {
        let gain = self.cost_of_way(net, cycle);
        let pays = pays_on(alloc, net, cycle)?;
        let some = bits_of(&pays);
        let Some(mark) = fewest(net, some & !inside_of(net, some)) else {
            return Ok(false);
        };
        let times = pays.get(mark).copied().unwrap_or(1).unsigned_abs().max(1);
        if gain <= 0 {
            return Ok(false);
        }
        let more = gain.unsigned_abs().div_ceil(times);
        self.raise(mark, i128::try_from(more).unwrap_or(i128::MAX));
        Ok(true)
    }
}
