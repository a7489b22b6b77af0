//! What a ceiling hands out: the total, and what a pass of each mark costs.

ghost use Rattle.std.specs.Prelude.{◌≡◌, ◌^◌, ◌<◌, length, slice_index, vec_len};

/// A number of word times that no run which keeps to the notes ever uses more than, with a price
/// for each pass of a mark.
#[derive(Debug, Drop)]
pub struct Ceiling {
    prices: Vec<u128>,
    total: u128,
}

impl Ceiling {
    ghost use Rattle.ceiling_checked.specs.CeilingOf.{prices_of, total_of};

    pub(crate) fn new(prices: Vec<u128>, total: u128) -> Ceiling
        ensures prices { prices_of result ≡ prices.items }
        ensures total { total_of result ≡ total }
    {
        Ceiling { prices, total }
    }

    /// The total, in word times: no run that keeps to the notes uses more. Below 2^127.
    pub fn total(&self) -> u128
        ensures { result ≡ total_of self.now }
    {
        self.total
    }

    /// The price of the mark with this index in the notes, from 0, in word times: a time round its
    /// loop, back to a location of the drum, takes this at most, with the loops inside of it, where
    /// it passes no other mark.
    pub fn price(&self, mark: usize) -> u128
        requires { mark < length (prices_of self.now) }
        ensures { result ≡ slice_index (prices_of self.now) mark }
    {
        self.prices[mark]
    }
}
