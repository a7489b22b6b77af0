//! The curves from word to word.

use crate::beside::{beside_end, is_beside};
use crate::ink::Ink;
use crate::point::Point;
use crate::rings::{RIM, Ring, ring_of};
use crate::scale::scaled;
use crate::svg::{Svg, draw, four};
use crate::word::plural;
use picture_scene::TakenEdge;

/// With more edges than this arrows only hide them.
const MOST_ARROWS: usize = 150;

/// Where the curve of an edge ends at a word.
fn end_at(rings: &[Ring], number: u16) -> Option<Point> {
    if is_beside(number) {
        return Some(beside_end(number));
    }
    let ring = ring_of(rings, number)?;
    Some(Point::at(number % 50, ring.inner))
}

/// Writes the curve of an edge between two different words: it bends inward.
fn write_bow(svg: &mut Svg, start: Point, end: Point) {
    let between = start.inward(end);
    draw!(svg: "<path d='M" start "Q" between " " end "'");
}

/// Writes the curve of an edge from a word to itself.
fn write_loop(svg: &mut Svg, rings: &[Ring], number: u16) {
    let radius = ring_of(rings, number).map_or(RIM, |ring| ring.inner);
    let angle = number % 50;
    let (low, ends) = (radius.saturating_sub(420), Point::at(angle, radius));
    let (before, after) = (Point::at(angle + 46, low), Point::at(angle + 4, low));
    draw!(svg: "<path d='M" ends "C" before " " after " " ends "'");
}

/// Draws an edge as a curve, this wide in tenths of a pixel.
fn draw_curve(svg: &mut Svg, rings: &[Ring], one: TakenEdge, width: u64) {
    let (from, onto, taken) = (one.edge.from, one.edge.onto, one.taken);
    let (Some(start), Some(end)) = (end_at(rings, from), end_at(rings, onto)) else {
        return;
    };
    if from == onto && !is_beside(from) {
        write_loop(svg, rings, from);
    } else {
        write_bow(svg, start, end);
    }
    draw!(svg: " stroke-width='" width "'>");
    let more = plural(taken);
    draw!(svg: "<title>" (four(from)) " to " (four(onto)) ": taken " taken " time" more);
    draw!(svg: "</title></path>\n");
}

/// Draws the edges that the walk takes most, those that it takes more often wider.
pub fn draw_curves(svg: &mut Svg, rings: &[Ring], edges: &[TakenEdge]) {
    let more = if edges.len() > MOST_ARROWS {
        "opacity='.45'"
    } else {
        "opacity='.8' marker-end='url(#tip)'"
    };
    draw!(svg: "<g " (Ink::Hop) " " more ">\n");
    let most = edges.first().map_or(1, |one| one.taken);
    let wide = if most < 2 || edges.len() > MOST_ARROWS {
        8
    } else {
        28
    };
    for one in edges {
        let width = scaled(one.taken, most, wide).saturating_add(7);
        draw_curve(svg, rings, *one, width);
    }
    draw!(svg: "</g>\n");
}
