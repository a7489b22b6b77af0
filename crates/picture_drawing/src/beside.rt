//! The words beside the drum.

use crate::labels::LARGE_FONT;
use crate::point::Point;
use crate::svg::{Svg, draw};
use crate::word::Word;
use picture_scene::{Tallies, Walk};

/// Where 8000 to 8003 stand, one below the other, in tenths of a pixel from the drum's centre: so
/// far to the left that curves to them pass between the angles written around the drum.
const LEFT: i64 = -2820;

/// The upper side of 8000's box.
const TOP: i64 = 1580;

/// How wide and how high a box is, and how far one is below the one above it.
const WIDTH: i64 = 400;

const HEIGHT: i64 = 220;

const PITCH: i64 = 280;

/// Whether a location stands beside the drum.
pub fn is_beside(number: u16) -> bool {
    number >= 8000
}

/// The upper side of a location's box.
fn top_of(number: u16) -> i64 {
    TOP + i64::from(number % 4) * PITCH
}

/// The middle of the right side of a location's box.
pub fn beside_end(number: u16) -> Point {
    Point {
        x: LEFT + WIDTH,
        y: top_of(number).saturating_add(HEIGHT / 2),
    }
}

/// Draws a word beside the drum.
fn draw_box(svg: &mut Svg, word: Word, walk: Walk) {
    let top = top_of(word.number);
    draw!(svg: "<use href='#beside' x='" LEFT "' y='" top "'");
    word.finish(svg, walk);
    let (ink, number, base) = (word.label_ink(), word.number, top.saturating_add(145));
    let middle = LEFT + WIDTH / 2;
    draw!(svg: "<text font-size='" LARGE_FONT "'" ink " x='" middle "' y='" base "'>");
    draw!(svg: number "</text>\n");
}

/// Draws those of 8000 to 8003 that the walk has to do with.
pub fn draw_beside(svg: &mut Svg, tallies: &Tallies, walk: Walk) {
    let most = tallies.most_time();
    draw!(svg: "<defs><rect id='beside' width='" WIDTH "' height='" HEIGHT "' rx='30' ");
    draw!(svg: "stroke-width='8'/></defs>\n");
    for number in 8000..8004u16 {
        if let Some(word) = Word::of(tallies, number, most) {
            draw_box(svg, word, walk);
        }
    }
}
