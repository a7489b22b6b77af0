use crate::svg::{Piece, Svg, draw};

/// The direction of each angle of the drum, in thousandths: to the right, and down. Angle 0 is at
/// the top, and the angles go round with the clock.
const DIRECTIONS: [(i64, i64); 50] = [
    (0, -1000),
    (125, -992),
    (249, -969),
    (368, -930),
    (482, -876),
    (588, -809),
    (685, -729),
    (771, -637),
    (844, -536),
    (905, -426),
    (951, -309),
    (982, -187),
    (998, -63),
    (998, 63),
    (982, 187),
    (951, 309),
    (905, 426),
    (844, 536),
    (771, 637),
    (685, 729),
    (588, 809),
    (482, 876),
    (368, 930),
    (249, 969),
    (125, 992),
    (0, 1000),
    (-125, 992),
    (-249, 969),
    (-368, 930),
    (-482, 876),
    (-588, 809),
    (-685, 729),
    (-771, 637),
    (-844, 536),
    (-905, 426),
    (-951, 309),
    (-982, 187),
    (-998, 63),
    (-998, -63),
    (-982, -187),
    (-951, -309),
    (-905, -426),
    (-844, -536),
    (-771, -637),
    (-685, -729),
    (-588, -809),
    (-482, -876),
    (-368, -930),
    (-249, -969),
    (-125, -992),
];

/// From the middle of a word to its end, as a direction: half an angle, to the right and up.
const HALF: (i64, i64) = (58, 998);

/// A point of the drum's drawing, in tenths of a pixel from its centre.
#[derive(Clone, Copy)]
pub struct Point {
    /// To the right.
    pub x: i64,
    /// Down.
    pub y: i64,
}

impl Point {
    /// The point at an angle of the drum, so far from its centre.
    pub fn at(angle: u16, radius: i64) -> Point {
        let (right, down) = DIRECTIONS[usize::from(angle % 50)];
        Point {
            x: radius.saturating_mul(right) / 1000,
            y: radius.saturating_mul(down) / 1000,
        }
    }

    /// The end of the word at angle 0, to the right, so far from the centre.
    pub fn end_of_word(radius: i64) -> Point {
        let (right, up) = HALF;
        Point {
            x: radius.saturating_mul(right) / 1000,
            y: radius.saturating_mul(0 - up) / 1000,
        }
    }

    /// The same, as far to the left.
    pub fn mirrored(self) -> Point {
        Point {
            x: 0i64.saturating_sub(self.x),
            y: self.y,
        }
    }

    /// Between two points, a little nearer to the centre than they are: a curve from one to the
    /// other that is drawn to it bends inward.
    pub fn inward(self, other: Point) -> Point {
        Point {
            x: self.x.saturating_add(other.x).saturating_mul(4) / 10,
            y: self.y.saturating_add(other.y).saturating_mul(4) / 10,
        }
    }
}

impl Piece for Point {
    fn draw(self, svg: &mut Svg) {
        let Point { x, y } = self;
        draw!(svg: x " " y);
    }
}
