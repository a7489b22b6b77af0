//! The bar: where all word times of the walk go.

ghost use Rattle.picture_drawing.specs.Bar.{number_at, numbers};
ghost use Rattle.picture_drawing.specs.Draws.{Draws};

use crate::ink::Ink;
use crate::page::TITLE;
use crate::scale::scaled;
use crate::svg::{Svg, draw};
use picture_scene::{Shares, Tenths};

/// How wide the bar is, in pixels.
const WIDTH: u64 = 1180;

/// One part of the bar.
#[derive(Clone, Copy)]
struct Share {
    ink: Ink,
    name: &'static str,
    time: u128,
}

/// The parts of the bar, from left to right.
fn parts_of(shares: Shares) -> [Share; 4] {
    [
        Share {
            ink: Ink::Work,
            name: "work",
            time: shares.work,
        },
        Share {
            ink: Ink::Seek,
            name: "waiting for instructions",
            time: shares.instructions,
        },
        Share {
            ink: Ink::Data,
            name: "waiting for data",
            time: shares.data,
        },
        Share {
            ink: Ink::Cards,
            name: "waiting for cards",
            time: shares.cards,
        },
    ]
}

/// Writes what a part is, below the bar, with its percentage.
fn draw_name(svg: &mut Svg, share: Share, whole: u128, x: u64) {
    let Share { ink, name, time } = share;
    let percent = Tenths {
        count: u128::from(scaled(time, whole, 2000)).saturating_add(1) / 2,
    };
    let beside = x.saturating_add(18);
    draw!(svg: "<rect " ink " x='" x "' y='38' width='11' height='11'/>");
    draw!(svg: "<text x='" beside "' y='48'>" name ": " percent " %</text>\n");
}

/// Draws where the word times of a walk go: a bar at this height of the page, with its parts' names
/// and percentages. All of them are the whole.
pub fn draw_bar(svg: &mut Svg, shares: Shares, whole: u128, top: u64) {
    draw!(svg: "<g transform='translate(30 " top ")'>");
    draw!(svg: "<text " TITLE " x='-2' y='-10'>Where all " whole " word times go</text>\n");
    let (mut left, mut column) = (0u128, 0u64);
    for share in parts_of(shares) {
        let (ink, x) = (share.ink, scaled(left, whole, WIDTH));
        left = left.saturating_add(share.time);
        let width = scaled(left, whole, WIDTH).saturating_sub(x);
        draw!(svg: "<rect " ink " x='" x "' width='" width "' height='24'/>");
        draw_name(svg, share, whole, column);
        column = column.saturating_add(300);
    }
    draw!(svg: "</g>\n");
}

/// Writes a number of word times, in a column and at a height of the page.
fn draw_number(svg: &mut Svg, column: u64, base: u64, time: u128)
    ensures { Draws svg.old svg.new (number_at column base time) }
{
    svg.push("<text x='");
    svg.push_number(column);
    svg.push("' y='");
    svg.push_number(base);
    svg.push("'>");
    svg.push_number(time);
    svg.push("</text>\n");
}

/// Writes how many word times go into each part, below its name, at this height of the page.
pub fn draw_numbers(svg: &mut Svg, shares: Shares, base: u64)
    ensures { Draws svg.old svg.new (numbers base shares) }
{
    draw_number(svg, 48, base, shares.work);
    draw_number(svg, 348, base, shares.instructions);
    draw_number(svg, 648, base, shares.data);
    draw_number(svg, 948, base, shares.cards);
}
