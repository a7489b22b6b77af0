//! What stands around the drawings: the style, the lines below the heading, the drawings' titles,
//! and what the colours mean.

use crate::ink::Ink;
use crate::rings::Ring;
use crate::svg::{Svg, draw, four};
use crate::verdict::write_verdict;
use machine_steps::Verdict;
use picture_scene::{Kind, MOST_EDGES, Walk};

/// The attributes of a drawing's title.
pub const TITLE: &str = "font-size='15' font-weight='600'";

/// What the picture is drawn with. What the style says of colours is for a dark page.
const STYLE: &str = "<style>
:root { background: #ffffff }
.drum text { text-anchor: middle; pointer-events: none } .rows text { font-size: 9px }
.drum .start { text-anchor: start } .drum .end { text-anchor: end }
@media (prefers-color-scheme: dark) {
:root { background: #16181c; fill: #e8e8e8 }
.page { fill: #16181c } .faint { fill: #a3aab6 } .track { stroke: #23262d } .row { fill: #23262d }
.work { fill: #3391d6 } .seek { fill: #e8a917 } .data { fill: #cf7fb2 } .cards { fill: #45b08c }
.s1 { fill: #203447 } .s2 { fill: #244663 } .s3 { fill: #285880 } .s4 { fill: #2b6798 }
.s5 { fill: #2c77b2 } .s6 { fill: #2f8bd0 } .other { fill: #16181c; stroke: #3391d6 }
.place { fill: #543a4d } .rest { fill: #3b404a } .hop { stroke: #7d838f } .tip { fill: #7d838f }
}
</style>
<defs><marker id='tip' viewBox='0 0 10 10' refX='9' refY='5' markerWidth='110' \
markerHeight='110' markerUnits='userSpaceOnUse' orient='auto'>\
<path class='tip' fill='#8d919a' d='M0 1L10 5L0 9Z'/></marker></defs>
";

/// One colour of a key: what it is drawn in, where, and what it means.
struct Entry {
    ink: Ink,
    x: u16,
    y: u16,
    name: &'static str,
}

/// What the colours of the rows mean, behind the stroke.
const ROWS_KEY: [Entry; 4] = [
    Entry {
        ink: Ink::Work,
        x: 62,
        y: 0,
        name: "at work",
    },
    Entry {
        ink: Ink::Seek,
        x: 142,
        y: 0,
        name: "waiting for the instruction",
    },
    Entry {
        ink: Ink::Data,
        x: 334,
        y: 0,
        name: "for its data",
    },
    Entry {
        ink: Ink::Cards,
        x: 436,
        y: 0,
        name: "for cards",
    },
];

/// What the colours of the drum mean, behind the shades of executed words.
const DRUM_KEY: [Entry; 3] = [
    Entry {
        ink: Ink::Place,
        x: 324,
        y: 0,
        name: "data",
    },
    Entry {
        ink: Ink::Other,
        x: 22,
        y: 20,
        name: "executed by other walks only",
    },
    Entry {
        ink: Ink::Rest,
        x: 324,
        y: 20,
        name: "other words",
    },
];

/// Draws a square of a colour.
fn draw_square(svg: &mut Svg, ink: Ink, x: u16, y: u16) {
    draw!(svg: "<rect " ink " x='" x "' y='" y "' width='11' height='11'/>");
}

/// Draws colours with what they mean.
fn draw_entries(svg: &mut Svg, entries: &[Entry]) {
    for entry in entries {
        draw_square(svg, entry.ink, entry.x, entry.y);
        let (x, y) = (entry.x.saturating_add(18), entry.y.saturating_add(10));
        let name = entry.name;
        draw!(svg: "<text x='" x "' y='" y "'>" name "</text>\n");
    }
    draw!(svg: "</g>\n");
}

/// Writes the verdict on a run.
fn draw_verdict(svg: &mut Svg, verdict: &Verdict) {
    draw!(svg: "<text " TITLE " x='29' y='64'>");
    write_verdict(svg, verdict);
    draw!(svg: "</text>\n");
}

/// Writes how many milliseconds and revolutions a walk takes, at this height; where it takes more
/// than ten seconds, how many of these.
fn draw_lengths(svg: &mut Svg, walk: Walk, base: u64) {
    let (milliseconds, seconds) = (walk.milliseconds(), walk.seconds());
    draw!(svg: "<text " (Ink::Faint) " x='29' y='" base "'>");
    if milliseconds.count > 100_000 {
        draw!(svg: seconds " seconds");
    } else {
        draw!(svg: milliseconds " milliseconds");
    }
    let revolutions = walk.revolutions();
    draw!(svg: " at 96 microseconds a word time, " revolutions " revolutions of the drum</text>\n");
}

/// Draws the style, and what stands below the heading: the verdict on a run, and how long the walk
/// takes in other units.
pub fn draw_below_heading(svg: &mut Svg, walk: Walk) {
    draw!(svg: STYLE);
    match walk.kind {
        Kind::Worst => draw_lengths(svg, walk, 70),
        Kind::InRounds(_) => draw_lengths(svg, walk, 84),
        Kind::Run(verdict) => {
            draw_verdict(svg, &verdict);
            draw_lengths(svg, walk, 84);
        }
    }
}

/// Writes how many bands are drawn, and which are the outermost and the innermost.
fn draw_bands(svg: &mut Svg, count: usize, first: u16, last: u16) {
    let from = first.saturating_mul(50);
    let to = from.saturating_add(49);
    if count == 1 {
        return draw!(svg: "One band: " (four(from)) " to " (four(to)));
    }
    draw!(svg: "A ring for each of " count " bands: " (four(from)) " to " (four(to)));
    draw!(svg: " at the rim, ");
    let from = last.saturating_mul(50);
    let to = from.saturating_add(49);
    draw!(svg: (four(from)) " to " (four(to)) " inside");
}

/// Writes what the drawing of the drum shows.
pub fn draw_drum_title(svg: &mut Svg, rings: &[Ring], edges: usize) {
    draw!(svg: "<text " TITLE " x='28' y='112'>The drum, seen from its end</text>\n");
    draw!(svg: "<text " (Ink::Faint) " x='28' y='131'>");
    if let (Some(first), Some(last)) = (rings.first(), rings.last()) {
        draw_bands(svg, rings.len(), first.band, last.band);
    }
    draw!(svg: "</text>\n");
    if edges > MOST_EDGES {
        draw!(svg: "<text " (Ink::Faint) " x='290' y='112'>");
        draw!(svg: "the " MOST_EDGES " hops taken most of " edges "</text>\n");
    }
    draw!(svg: "<g transform='translate(240 682)'>");
    for (x, shade) in [(0, 1), (11, 3), (22, 6)] {
        draw_square(svg, Ink::Shade(shade), x, 0);
    }
    draw!(svg: "<text x='40' y='10'>executed, stronger for more word times</text>\n");
    draw_entries(svg, &DRUM_KEY);
}

/// Writes what the colours of the rows mean, which begin here.
pub fn draw_rows_key(svg: &mut Svg, left: u64) {
    draw!(svg: "<g transform='translate(" left " 124)'>");
    draw!(svg: "<rect x='1' width='2' height='11'/><text x='8' y='10'>found</text>\n");
    draw_entries(svg, &ROWS_KEY);
}
