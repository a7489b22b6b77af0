//! The whole drawing.

ghost use Rattle.std.specs.Prelude.{IfOk, string_bytes};
ghost use Rattle.picture_drawing.specs.PictureText.{IsPictureOf};

use crate::bar::{draw_bar, draw_numbers};
use crate::beside::draw_beside;
use crate::curves::draw_curves;
use crate::drum::{draw_heads, draw_rim, draw_rings, draw_words};
use crate::heading::begin;
use crate::labels::draw_labels;
use crate::layout::Layout;
use crate::page::{draw_below_heading, draw_drum_title, draw_rows_key};
use crate::revolutions::{draw_revolutions, draw_revolutions_title};
use crate::rings::rings_of;
use crate::svg::{Svg, draw};
use picture_scene::Scene;
use std::alloc::{AllocError, Global};

/// How far below the upper side of the bar its numbers stand, in pixels.
const NUMBERS_BELOW: u64 = 66;

/// Draws the drum: its words, and the edges of the walk between them.
fn draw_drum(alloc: Global, svg: &mut Svg, scene: &Scene) -> Result<(), AllocError> {
    let (tallies, edges) = (&scene.tallies, &scene.edges);
    let rings = rings_of(alloc, tallies)?;
    draw_drum_title(svg, &rings, edges.count);
    draw!(svg: "<g class='drum' transform='translate(310 407) scale(.1)'>\n");
    draw_rings(svg, &rings);
    draw_rim(svg);
    draw_heads(svg);
    draw_words(svg, &rings, tallies, scene.walk);
    draw_curves(svg, &rings, &edges.drawn);
    draw_labels(svg, &rings, tallies);
    draw_beside(svg, tallies, scene.walk);
    draw!(svg: "</g>\n");
    Ok(())
}

/// Draws the walk: revolutions of it, and where its word times go.
fn draw_walk(svg: &mut Svg, scene: &Scene, layout: Layout) {
    draw_revolutions_title(svg, scene, layout);
    if !scene.rows.hops.is_empty() {
        draw_rows_key(svg, layout.left);
        draw_revolutions(svg, scene, layout);
    }
    draw_bar(svg, scene.shares, scene.walk.time, layout.bar_top);
}

/// Draws all that stands between the heading and the numbers below the bar.
fn draw_between(alloc: Global, scene: &Scene, layout: Layout) -> Result<String, AllocError> {
    let mut svg = Svg::new(alloc);
    draw_below_heading(&mut svg, scene.walk);
    draw_drum(alloc, &mut svg, scene)?;
    draw_walk(&mut svg, scene, layout);
    svg.finish()
}

/// The drawing of a scene. It begins with what the walk takes, in words, and ends with how many of
/// these word times go where.
///
/// # Errors
///
/// [`AllocError`] where there is no memory.
pub fn draw(alloc: Global, scene: &Scene) -> Result<String, AllocError>
    ensures { IfOk result (λ picture.
        IsPictureOf scene.now.walk.kind scene.now.walk.time scene.now.shares
        (string_bytes picture)) }
{
    let layout = Layout::of(&scene.rows, &scene.braces);
    let between = draw_between(alloc, scene, layout)?;
    let base = layout.bar_top.saturating_add(NUMBERS_BELOW);
    let mut svg = Svg::new(alloc);
    begin(&mut svg, scene.walk, layout);
    svg.push(&between);
    draw_numbers(&mut svg, scene.shares, base);
    svg.push("</svg>\n");
    svg.finish()
}
