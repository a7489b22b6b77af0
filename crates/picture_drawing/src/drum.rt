//! The drum, ring by ring.

use crate::ink::Ink;
use crate::point::Point;
use crate::rings::{RIM, Ring};
use crate::svg::{Svg, draw, four, two};
use crate::word::Word;
use picture_scene::{Tallies, Tenths, Walk};

/// Draws a ring without its words, and defines the shape of its words as that at angle 0.
fn draw_ring(svg: &mut Svg, ring: Ring) {
    let Ring { band, outer, inner } = ring;
    let (middle, height) = (ring.middle(), ring.height());
    draw!(svg: "<circle " (Ink::Track) " r='" middle "' stroke-width='" height "'><title>");
    let (first, last) = (ring.first(), ring.first() + 49);
    draw!(svg: (four(first)) " to " (four(last)) "</title></circle>");
    let (far, near) = (Point::end_of_word(outer), Point::end_of_word(inner));
    let (far_left, near_left) = (far.mirrored(), near.mirrored());
    draw!(svg: "<defs><path id='b" band "' stroke-width='8' d='M" near_left "L" far_left);
    draw!(svg: "A" outer " " outer " 0 0 1 " far "L" near);
    draw!(svg: "A" inner " " inner " 0 0 0 " near_left "Z'/></defs>\n");
}

/// Draws the rings without their words.
pub fn draw_rings(svg: &mut Svg, rings: &[Ring]) {
    for ring in rings {
        draw_ring(svg, *ring);
    }
}

/// Writes the angles around the drum.
pub fn draw_rim(svg: &mut Svg) {
    for five in 0..10u16 {
        let angle = five * 5;
        let Point { x, y } = Point::at(angle, RIM + 160);
        let base = y.saturating_add(38);
        draw!(svg: "<text " (Ink::Faint) " font-size='115' x='" x "' y='" base "'>");
        draw!(svg: (two(angle)) "</text>\n");
    }
}

/// Draws the heads, which stand still, above angle 00, and an arrow the way the drum turns: the
/// next angle comes by next.
pub fn draw_heads(svg: &mut Svg) {
    draw!(svg: "<path " (Ink::Faint) " d='M0 -2412L-55 -2492H55Z'/>");
    draw!(svg: "<text " (Ink::Faint) " font-size='105' x='-290' y='-2522'>heads</text>");
    draw!(svg: "<path " (Ink::Hop) " stroke-width='12' d='M1057 -2266A2500 2500 0 0 0 391 -2469'");
    draw!(svg: " marker-end='url(#tip)'/>");
    draw!(svg: "<text " (Ink::Faint) " font-size='105' x='1230' y='-2360'>turns</text>\n");
}

/// Draws the words of a ring.
fn draw_ring_words(svg: &mut Svg, ring: Ring, tallies: &Tallies, most: u128, walk: Walk) {
    let band = ring.band;
    for angle in 0..50u16 {
        if let Some(word) = Word::of(tallies, ring.first() + angle, most) {
            let degrees = Tenths {
                count: u128::from(angle) * 72,
            };
            draw!(svg: "<use href='#b" band "' transform='rotate(" degrees ")'");
            word.finish(svg, walk);
        }
    }
}

/// Draws the words of the drum.
pub fn draw_words(svg: &mut Svg, rings: &[Ring], tallies: &Tallies, walk: Walk) {
    let most = tallies.most_time();
    for ring in rings {
        draw_ring_words(svg, *ring, tallies, most, walk);
    }
}
