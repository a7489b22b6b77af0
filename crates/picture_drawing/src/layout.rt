//! Where the drawings stand on the page, in pixels.

use crate::braces::BRACE_WIDTH;
use crate::spans::top_of;
use picture_scene::{Braces, Rows};

/// The page where there is nothing that it has no room for.
const WIDTH: u64 = 1240;

const HEIGHT: u64 = 830;

/// Where the rows begin there, and the bar.
const LEFT: u64 = 690;

const BAR_TOP: u64 = 742;

/// How many digits there is room for at the left of the rows, and how wide one is.
const DIGITS: u64 = 19;

const DIGIT_WIDTH: u64 = 6;

/// Where the drawings stand on the page.
#[derive(Clone, Copy)]
pub struct Layout {
    /// How wide the page is.
    pub width: u64,
    /// How high it is.
    pub height: u64,
    /// Where the rows have their left side.
    pub left: u64,
    /// Where the bar has its upper side.
    pub bar_top: u64,
}

/// How many digits a number has.
fn digits_of(number: u128) -> u64 {
    let (mut digits, mut rest) = (1u64, number / 10);
    for _ in 0..40u64 {
        if rest > 0 {
            digits = digits.saturating_add(1);
        }
        rest /= 10;
    }
    digits
}

impl Layout {
    /// Of these rows with these braces: the page is longer with more rows than it has room for, and
    /// wider with longer numbers and more than one brace beside another.
    pub fn of(rows: &Rows, braces: &Braces) -> Layout {
        let number = rows.last().saturating_add(1);
        let digits = digits_of(number).saturating_sub(DIGITS);
        let right = digits.saturating_mul(DIGIT_WIDTH);
        let columns = braces.columns().saturating_sub(1) as u64;
        let wider = columns.saturating_mul(BRACE_WIDTH).saturating_add(right);
        let longer = top_of(rows.more_rows());
        Layout {
            width: WIDTH.saturating_add(wider),
            height: HEIGHT.saturating_add(longer),
            left: LEFT.saturating_add(right),
            bar_top: BAR_TOP.saturating_add(longer),
        }
    }
}
