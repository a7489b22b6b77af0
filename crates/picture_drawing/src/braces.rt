//! Braces beside the rows, with how many rounds they stand for.

use crate::ink::Ink;
use crate::spans::top_of;
use crate::svg::{Svg, draw};
use picture_scene::{Brace, Braces};

/// How wide the column of a brace is, in pixels.
pub const BRACE_WIDTH: u64 = 40;

/// Where the first column is, in pixels from the rows' left side.
const LEFT: u64 = 506;

/// Draws a brace here, with the number of rounds; without an upper or a lower end where the round
/// isn't shown from its beginning or to its end.
fn draw_brace(svg: &mut Svg, brace: Brace, x: u64) {
    let (top, times) = (top_of(brace.first), brace.times);
    let height = top_of(brace.last).saturating_sub(top).saturating_add(9);
    let begin = if brace.is_begun { "h4" } else { "m4 0" };
    let end = if brace.is_whole { "h-4" } else { "" };
    draw!(svg: "<g><title>" times " rounds</title>");
    draw!(svg: "<path " (Ink::Hop) " d='M" x " " top begin "v" height end "'/>");
    let beside = x.saturating_add(7);
    let base = top.saturating_add(height / 2).saturating_add(4);
    draw!(svg: "<text " (Ink::Faint) " x='" beside "' y='" base "'>× " times "</text></g>\n");
}

/// Draws the braces.
pub fn draw_braces(svg: &mut Svg, braces: &Braces) {
    for one in braces.all().iter() {
        let before = (one.column as u64).saturating_mul(BRACE_WIDTH);
        draw_brace(svg, one.brace, LEFT.saturating_add(before));
    }
}
