//! What a step along an edge costs by the regions of the marks.

ghost use Rattle.std.specs.Prelude.{◌≡◌, ◌≤◌, ◌<◌, if◌then◌else◌, length, IfSome};
ghost use Rattle.ceiling_checked.specs.Charge.{charge_from, owed_anew};

use crate::region::is_in;
use base_notes::Mark;
use machine_steps::is_inside;

/// A step from where one instruction is found to where another is.
#[derive(Clone, Copy)]
pub struct Step<'a> {
    pub marks: &'a [Mark],
    /// The regions that it begins in.
    pub here: u64,
    /// The regions that it ends in.
    pub there: u64,
    /// The index of the mark that it passes.
    pub passed: Option<u8>,
    pub ghost few: { length marks.now ≤ 64 },
}

impl Step<'_> {
    ghost use Rattle.ceiling_checked.specs.AtSite.{is_in};

    /// How many passes of the mark with this index, and this most, it may owe anew where it ends.
    fn owed(&self, index: usize, most: u16) -> u16
        requires { index < length self.now.marks.now }
        ensures { result ≡ (if is_in self.now.there index
            then owed_anew self.now.marks.now self.now.passed (is_in self.now.here index) index most
            else 0) }
    {
        if is_in(self.there, index) {
            self.owed_anew(index, most)
        } else {
            0
        }
    }

    /// The same, if it ends in the mark's region.
    fn owed_anew(&self, index: usize, most: u16) -> u16
        requires { index < length self.now.marks.now }
        ensures { result
            ≡ owed_anew self.now.marks.now self.now.passed (is_in self.now.here index) index most }
    {
        let Some(passed) = self.passed else {
            return if is_in(self.here, index) { 0 } else { most };
        };
        let passed = usize::from(passed);
        if index == passed {
            return if is_in(self.here, index) {
                0
            } else {
                most.saturating_sub(1)
            };
        }
        if is_inside(self.marks, index, passed) || !is_in(self.here, index) {
            return most;
        }
        0
    }

    /// What the marks charge for it, at the costliest counts; `None` where there is no room for
    /// that.
    pub fn charge(&self, prices: &[u128]) -> Option<u128>
        requires { length prices.now ≡ length self.now.marks.now }
        ensures { IfSome result (λ charge. charge ≡ charge_from self.now.marks.now
            (is_in self.now.here) (is_in self.now.there) self.now.passed 0 self.now.marks.now
            prices.now) }
    {
        if self.passed.is_none() && self.here == self.there {
            return Some(0);
        }
        let mut charge: u128 = 0;
        for (index, mark) in self.marks.iter().enumerate() {
            let passes = u128::from(self.owed(index, mark.most));
            charge = charge.checked_add(prices[index].checked_mul(passes)?)?;
        }
        Some(charge)
    }
}
