//! What is drawn in which colour. The colours are attributes, so that any program which shows SVG
//! has them; those for a dark page are a style over them, by the same classes (`page`).

use crate::svg::{Piece, Svg};

/// What something is drawn in. It is written as the attributes of an element: its class, and its
/// colour on a light page. The colours can be told apart by people who don't see red from green.
#[derive(Clone, Copy)]
pub enum Ink {
    /// What stands beside a drawing.
    Faint,
    /// An empty ring, or an empty row.
    Track,
    Row,
    /// The parts of a hop.
    Work,
    Seek,
    Data,
    Cards,
    /// A word that is executed, from 1 to 6: the darker, the more word times it has.
    Shade(u64),
    /// A word that other walks alone execute, one that is data, and any other.
    Other,
    Place,
    Rest,
    /// A hop from word to word.
    Hop,
}

impl Ink {
    /// The attributes of an executed word.
    fn shade(number: u64) -> &'static str {
        match number {
            0 | 1 => "class='s1' fill='#cfe2ef'",
            2 => "class='s2' fill='#a6cae3'",
            3 => "class='s3' fill='#7cb2d7'",
            4 => "class='s4' fill='#5aa0cd'",
            5 => "class='s5' fill='#2582bd'",
            _ => "class='s6' fill='#006ba8'",
        }
    }

    fn attributes(self) -> &'static str {
        match self {
            Ink::Faint => "class='faint' fill='#5d6470'",
            Ink::Track => "class='track' fill='none' stroke='#f0f1f4'",
            Ink::Row => "class='row' fill='#f0f1f4'",
            Ink::Work => "class='work' fill='#0072b2'",
            Ink::Seek => "class='seek' fill='#e69f00'",
            Ink::Data => "class='data' fill='#b35f96'",
            Ink::Cards => "class='cards' fill='#2f8f6f'",
            Ink::Shade(number) => Ink::shade(number),
            Ink::Other => "class='other' fill='#ffffff' stroke='#0072b2'",
            Ink::Place => "class='place' fill='#e8cfdf'",
            Ink::Rest => "class='rest' fill='#d9dce2'",
            Ink::Hop => "class='hop' fill='none' stroke='#8d919a'",
        }
    }
}

impl Piece for Ink {
    fn draw(self, svg: &mut Svg) {
        self.attributes().draw(svg);
    }
}
