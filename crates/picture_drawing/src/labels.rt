//! What is written on words.

use crate::point::Point;
use crate::rings::Ring;
use crate::svg::{Svg, draw, four};
use crate::word::Word;
use picture_scene::{Tallies, Tenths};

/// The height that a ring must have for locations to be written on its words, in tenths of a pixel.
const INSIDE: i64 = 190;

/// The height from which on they are written larger.
const LARGE: i64 = 255;

/// The height that a ring must have for locations to be written beside its words.
const BESIDE: i64 = 88;

/// Between a word and the label beside it, in tenths of a pixel.
const GAP: i64 = 20;

/// How long a label is along the ring, in angles times the ring's radius.
const LABEL: i64 = 3600;

/// The most angles that a label takes, which is one on the innermost ring.
const MOST_ANGLES: u16 = 6;

/// The sizes of labels, in tenths of a pixel.
const SMALL_FONT: u16 = 78;

pub const LARGE_FONT: u16 = 102;

/// `count` tenths of a degree.
fn tenths(count: u16) -> Tenths {
    Tenths {
        count: u128::from(count),
    }
}

/// Writes a location on its word, along the radius, so that it is never upside down.
fn draw_inside(svg: &mut Svg, ring: Ring, word: Word) {
    let word_at = word.number % 50 * 72;
    let middle = ring.middle();
    let (label_at, along) = if word_at < 1800 {
        ((word_at + 2700) % 3600, middle)
    } else {
        ((word_at + 900) % 3600, 0i64.saturating_sub(middle))
    };
    let size = if ring.height() < LARGE {
        SMALL_FONT
    } else {
        LARGE_FONT
    };
    let (degrees, ink, number) = (tenths(label_at), word.label_ink(), word.number);
    draw!(svg: "<text font-size='" size "'" ink " transform='rotate(" degrees ") ");
    draw!(svg: "translate(" along " 34)'>" (four(number)) "</text>\n");
}

/// Writes a location beside its word, along the ring, so that it is never upside down.
fn draw_after(svg: &mut Svg, ring: Ring, number: u16) {
    let word_at = number % 50 * 72;
    let middle = ring.middle();
    let along = Point::end_of_word(middle).x.saturating_add(GAP);
    let (label_at, anchor, along, up) = if word_at <= 900 || word_at > 2700 {
        (word_at, "start", along, 0i64.saturating_sub(middle))
    } else {
        (
            (word_at + 1800) % 3600,
            "end",
            0i64.saturating_sub(along),
            middle,
        )
    };
    let (degrees, base) = (tenths(label_at), up.saturating_add(28));
    draw!(svg: "<text class='" anchor "' font-size='" SMALL_FONT "' ");
    draw!(svg: "transform='rotate(" degrees ") ");
    draw!(svg: "translate(" along " " base ")'>" (four(number)) "</text>\n");
}

/// Whether a location has room behind its word: no other word of the band stands there.
fn has_room(ring: Ring, number: u16, tallies: &Tallies) -> bool {
    // an angle is the shorter, the farther inside the ring is
    let angles = LABEL / ring.middle().max(1) + 1;
    for step in 1..=MOST_ANGLES {
        let next = ring.first() + number.saturating_add(step) % 50;
        if i64::from(step) <= angles && tallies.at(next).is_used() {
            return false;
        }
    }
    true
}

/// Writes the location of a word on it or beside it, if there is room.
fn draw_label(svg: &mut Svg, ring: Ring, word: Word, tallies: &Tallies) {
    if ring.height() >= INSIDE {
        draw_inside(svg, ring, word);
    } else if ring.height() >= BESIDE && has_room(ring, word.number, tallies) {
        draw_after(svg, ring, word.number);
    }
}

/// Writes the locations of the words of a ring, where there is room.
fn draw_ring_labels(svg: &mut Svg, ring: Ring, tallies: &Tallies, most: u128) {
    let first = ring.first();
    for number in first..first + 50 {
        if let Some(word) = Word::of(tallies, number, most) {
            draw_label(svg, ring, word, tallies);
        }
    }
}

/// Writes the locations of the words of the drum, where there is room.
pub fn draw_labels(svg: &mut Svg, rings: &[Ring], tallies: &Tallies) {
    let most = tallies.most_time();
    for ring in rings {
        draw_ring_labels(svg, *ring, tallies, most);
    }
}
