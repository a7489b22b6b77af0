//! The parts of a hop, each a span of a row.

use crate::ink::Ink;
use crate::svg::{Svg, draw, four, two};
use flow_walks::Visit;
use picture_scene::{DrawnHop, Parts, Row, next_found};

/// How wide a word time is, in pixels.
pub const COLUMN: u64 = 10;

/// From one row to the next, in pixels.
const PITCH: u64 = 22;

/// How many word times a label takes: a location, and one with an operation behind it.
const LABEL: u64 = 3;

const LONG_LABEL: u64 = 6;

/// Where the upper side of a row is, in pixels from the first's.
pub fn top_of(row: usize) -> u64 {
    (row as u64).saturating_mul(PITCH)
}

/// Which column of a row, 0 to 50, a moment is in; its ends stand for what is before and behind it.
fn column_of(row: Row, moment: u128) -> u64 {
    let first = row.revolution.saturating_mul(50);
    u64::try_from(moment.saturating_sub(first).min(50)).unwrap_or(50)
}

/// Draws the time from one clock of a hop to another, in each of its rows.
fn draw_span(svg: &mut Svg, rows: &[Row], hop: &DrawnHop, ink: Ink, span: (u64, u64)) {
    let (from, to) = (hop.moment(span.0), hop.moment(span.1));
    for (place, row) in rows.iter().enumerate() {
        let (left, right) = (column_of(*row, from), column_of(*row, to));
        if left < right {
            let (x, y) = (left.saturating_mul(COLUMN), top_of(place));
            let width = right.saturating_sub(left).saturating_mul(COLUMN);
            draw!(svg: "<path " ink " d='M" x " " y "h" width "v9h-" width "z'/>");
        }
    }
}

/// Writes the location and the operation of a hop where `room` word times leave room for both;
/// where they don't, the location alone, or nothing.
fn draw_label(svg: &mut Svg, visit: &Visit, x: u64, base: u64, room: u64) {
    let (number, op) = (visit.place.number(), visit.instruction.op());
    if room >= LONG_LABEL {
        draw!(svg: "<text x='" x "' y='" base "'>" (four(number)) " " (two(op)) "</text>");
    } else if room >= LABEL {
        draw!(svg: "<text x='" x "' y='" base "'>" (four(number)) "</text>");
    }
}

/// Draws a stroke where the instruction of a hop is found, with its label where there is room
/// before the next is found.
fn draw_stroke(svg: &mut Svg, rows: &[Row], hop: &DrawnHop) {
    let found = hop.parts.found;
    let angle = found % 50;
    let next = next_found(&hop.visit, hop.parts);
    let room = next.saturating_sub(found).min(50 - angle);
    let revolution = hop.revolution(found);
    for (place, row) in rows.iter().enumerate() {
        if row.revolution == revolution {
            let (x, y) = (angle * COLUMN, top_of(place));
            let base = y.saturating_sub(2);
            draw!(svg: "<path d='M" x " " y "h2v9h-2z'/>");
            draw_label(svg, &hop.visit, x, base, room);
        }
    }
}

/// Writes what a hop is, shown where it is pointed at.
fn draw_hop_title(svg: &mut Svg, visit: &Visit, parts: Parts) {
    let number = visit.place.number();
    let seek = parts.found.saturating_sub(parts.begun);
    let data = parts.reached.saturating_sub(parts.ready);
    let time = parts.ended.saturating_sub(parts.begun);
    let op = visit.instruction.op();
    draw!(svg: "<title>" (four(number)) " " (two(op)) ": " time " word times");
    if seek > 0 || data > 0 {
        draw!(svg: ", waiting " seek " for the instruction, " data " for data");
    }
    draw!(svg: "</title>");
}

/// Draws a hop: its parts, and the stroke.
pub fn draw_hop(svg: &mut Svg, rows: &[Row], hop: &DrawnHop) {
    let parts = hop.parts;
    draw!(svg: "<g>");
    draw_hop_title(svg, &hop.visit, parts);
    draw_span(svg, rows, hop, Ink::Seek, (parts.begun, parts.found));
    // the wait for data is drawn over it
    draw_span(svg, rows, hop, Ink::Work, (parts.found, parts.worked));
    draw_span(svg, rows, hop, Ink::Data, (parts.ready, parts.reached));
    draw_span(svg, rows, hop, Ink::Cards, (parts.worked, parts.ended));
    draw_stroke(svg, rows, hop);
    draw!(svg: "</g>\n");
}
