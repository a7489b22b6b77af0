//! The walk, a revolution a row.

use crate::braces::draw_braces;
use crate::ink::Ink;
use crate::layout::Layout;
use crate::page::TITLE;
use crate::spans::{COLUMN, draw_hop, top_of};
use crate::svg::{Svg, draw, two};
use picture_scene::{Above, Extent, Row, Scene, Walk};

/// Writes how much of the walk is shown.
fn draw_extent(svg: &mut Svg, extent: Extent, walk: Walk) {
    let all = walk.revolutions();
    match extent {
        Extent::All => draw!(svg: "all " all " revolutions"),
        Extent::First(shown) => draw!(svg: "first " shown " of " all " revolutions"),
        Extent::From(_, shown) | Extent::Some(shown) => {
            let last = walk.last_revolution();
            draw!(svg: shown " of " last " revolutions");
        }
    }
}

/// Writes below a title from which revolution on the walk is shown, where it isn't from the first.
fn draw_from(svg: &mut Svg, extent: Extent, left: u64) {
    if let Extent::From(from, _) = extent {
        draw!(svg: "<text " (Ink::Faint) " x='" left "' y='112'>from revolution " from);
        draw!(svg: " on, where most of the time goes</text>\n");
    }
}

/// Writes which part of the walk is shown.
pub fn draw_revolutions_title(svg: &mut Svg, scene: &Scene, layout: Layout) {
    let (left, name) = (layout.left, scene.walk.name());
    if scene.rows.hops.is_empty() {
        return draw!(svg: "<text " TITLE " x='" left "' y='112'>" name " has no hop</text>\n");
    }
    let base = match scene.extent {
        Extent::From(..) => 93u64,
        _ => 112,
    };
    draw!(svg: "<text " TITLE " x='" left "' y='" base "'>" name ": ");
    draw_extent(svg, scene.extent, scene.walk);
    draw!(svg: "</text>\n");
    draw_from(svg, scene.extent, left);
}

/// Draws the angles above the rows.
fn draw_angles(svg: &mut Svg) {
    for five in 0..10u64 {
        let (angle, x) = (five * 5, five * 5 * COLUMN);
        draw!(svg: "<text " (Ink::Faint) " x='" x "' y='-16'>" (two(angle)) "</text>");
    }
    draw!(svg: "\n");
}

/// Draws a line between a row with its upper side here and the one above it, where time doesn't
/// just go on.
fn draw_above(svg: &mut Svg, above: Above, y: u64) {
    let ink = match above {
        Above::Nothing => return,
        Above::Cards => Ink::Cards,
        Above::Jump => Ink::Rest,
    };
    let middle = y.saturating_sub(6);
    draw!(svg: "<rect " ink " x='-4' y='" middle "' width='508' height='2'/>");
}

/// Draws the rows without the walk, each with the number of its revolution, from 1.
fn draw_rows(svg: &mut Svg, rows: &[Row]) {
    for (place, row) in rows.iter().enumerate() {
        let y = top_of(place);
        draw_above(svg, row.above, y);
        let (base, number) = (y.saturating_add(8), row.revolution.saturating_add(1));
        draw!(svg: "<rect " (Ink::Row) " y='" y "' width='500' height='9'/>");
        draw!(svg: "<text " (Ink::Faint) " text-anchor='end' x='-8' y='" base "'>");
        draw!(svg: number "</text>\n");
    }
}

/// Draws revolutions of the walk, one a row, each from angle 0.
pub fn draw_revolutions(svg: &mut Svg, scene: &Scene, layout: Layout) {
    let (left, rows) = (layout.left, &scene.rows);
    draw!(svg: "<g class='rows' transform='translate(" left " 174)'>\n");
    draw_angles(svg);
    draw_rows(svg, &rows.shown);
    for hop in rows.hops.iter() {
        draw_hop(svg, &rows.shown, hop);
    }
    draw_braces(svg, &scene.braces);
    draw!(svg: "</g>\n");
}
