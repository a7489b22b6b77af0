//! How a picture begins: with what its walk takes, in words.

ghost use Rattle.picture_drawing.specs.Draws.{Draws};
ghost use Rattle.picture_drawing.specs.Heading.{ceiling_line, element, heading, large, page, title};
ghost use Rattle.std.specs.Prelude.{◌++◌};

use crate::layout::Layout;
use crate::svg::Svg;
use picture_scene::{Kind, Walk};

/// Draws the picture's element.
fn draw_element(svg: &mut Svg, width: u64, height: u64)
    ensures { Draws svg.old svg.new (element width height) }
{
    svg.push("<svg xmlns='http://www.w3.org/2000/svg' viewBox='0 0 ");
    svg.push_number(width);
    svg.push(" ");
    svg.push_number(height);
    svg.push("' font-family='system-ui, sans-serif' font-size='12' fill='#1b1b1b' role='img'>\n");
}

/// Draws the page.
fn draw_page(svg: &mut Svg, width: u64, height: u64)
    ensures { Draws svg.old svg.new (page width height) }
{
    svg.push("<rect class='page' fill='#ffffff' width='");
    svg.push_number(width);
    svg.push("' height='");
    svg.push_number(height);
    svg.push("'/>\n");
}

/// Writes the picture's title.
fn draw_title(svg: &mut Svg, name: &str, time: u128)
    ensures { Draws svg.old svg.new (title name.now time) }
{
    svg.push("<title>");
    svg.push(name);
    svg.push(": ");
    svg.push_number(time);
    svg.push(" word times</title>\n");
}

/// Writes what the walk takes, in large letters.
fn draw_large(svg: &mut Svg, base: u64, name: &str, time: u128)
    ensures { Draws svg.old svg.new (large base name.now time) }
{
    svg.push("<text font-size='27' font-weight='600' x='28' y='");
    svg.push_number(base);
    svg.push("'>");
    svg.push(name);
    svg.push(" ");
    svg.push_number(time);
    svg.push(" word times</text>\n");
}

/// Writes a ceiling.
fn draw_ceiling(svg: &mut Svg, ceiling: u128)
    ensures { Draws svg.old svg.new (ceiling_line ceiling) }
{
    svg.push("<text font-size='15' font-weight='600' x='29' y='64'>ceiling ");
    svg.push_number(ceiling);
    svg.push(" word times</text>\n");
}

/// Draws the page, with what the walk takes.
fn draw_heading(svg: &mut Svg, walk: Walk, layout: Layout)
    ensures { Draws svg.old svg.new
        (heading walk.kind walk.time (page layout.width layout.height)) }
{
    let Layout { width, height, .. } = layout;
    match walk.kind {
        Kind::Worst => {
            draw_title(svg, "The worst walk", walk.time);
            draw_page(svg, width, height);
            draw_large(svg, 46, "bound", walk.time);
        }
        Kind::InRounds(ceiling) => {
            draw_title(svg, "A walk in rounds", walk.time);
            draw_page(svg, width, height);
            draw_large(svg, 40, "reached", walk.time);
            draw_ceiling(svg, ceiling);
        }
        Kind::Run(_) => {
            draw_title(svg, "A run", walk.time);
            draw_page(svg, width, height);
            draw_large(svg, 40, "run", walk.time);
        }
    }
}

/// Begins the picture.
pub fn begin(svg: &mut Svg, walk: Walk, layout: Layout)
    ensures { Draws svg.old svg.new (element layout.width layout.height
        ++ heading walk.kind walk.time (page layout.width layout.height)) }
{
    draw_element(svg, layout.width, layout.height);
    draw_heading(svg, walk, layout);
}
