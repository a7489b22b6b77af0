//! The document on its way, and what can stand in it.

ghost use Rattle.std.specs.Prelude.{◌≡◌, IfOk, string_bytes};

use itoa::{Buffer, Integer};
use picture_scene::Tenths;
use std::alloc::{AllocError, Global};

/// An SVG document to which piece after piece is appended. Where there is no memory for a piece,
/// nothing more is appended, and `finish` says so at the end: what draws needn't ask each time.
#[derive(Drop)]
pub struct Svg {
    text: String,
    is_lost: bool,
}

impl Svg {
    ghost use Rattle.std.specs.Prelude.{List, ℕ, []};
    ghost use Rattle.picture_drawing.specs.Draws.{Draws, Says};

    /// An empty one.
    pub fn new(alloc: Global) -> Svg
        ensures { Says result [] }
    {
        Svg {
            text: String::new(alloc),
            is_lost: false,
        }
    }

    /// Appends a text.
    pub fn push(&mut self, text: &str)
        ensures { Draws self.old self.new text.now }
    {
        if !self.is_lost {
            self.is_lost = self.text.push_str(text).is_err();
        }
    }

    /// Appends a whole number.
    pub fn push_number<I: Integer>(&mut self, number: I)
        ensures { Draws self.old self.new (I.text number) }
    {
        let mut buffer = Buffer::new();
        self.push(buffer.format(number));
    }

    /// Appends a whole number, with zeros before it where it has fewer digits than this.
    fn push_digits(&mut self, number: u64, digits: usize) {
        let mut buffer = Buffer::new();
        let text = buffer.format(number);
        for _ in text.len()..digits {
            self.push("0");
        }
        self.push(text);
    }

    /// The whole document.
    ///
    /// # Errors
    ///
    /// [`AllocError`] where there was no memory for a piece of it.
    pub fn finish(self) -> Result<String, AllocError>
        ensures { (text : List ℕ) → Says self text
            → IfOk result (λ whole. string_bytes whole ≡ text) }
    {
        if self.is_lost {
            Err(AllocError)
        } else {
            Ok(self.text)
        }
    }
}

/// What can stand in a document.
pub trait Piece {
    /// Appends it.
    fn draw(self, svg: &mut Svg);
}

impl Piece for &str {
    fn draw(self, svg: &mut Svg) {
        svg.push(self);
    }
}

impl Piece for u64 {
    fn draw(self, svg: &mut Svg) {
        svg.push_number(self);
    }
}

impl Piece for u16 {
    fn draw(self, svg: &mut Svg) {
        svg.push_number(self);
    }
}

impl Piece for usize {
    fn draw(self, svg: &mut Svg) {
        svg.push_number(self);
    }
}

impl Piece for u128 {
    fn draw(self, svg: &mut Svg) {
        svg.push_number(self);
    }
}

impl Piece for i64 {
    fn draw(self, svg: &mut Svg) {
        svg.push_number(self);
    }
}

impl Piece for Tenths {
    fn draw(self, svg: &mut Svg) {
        svg.push_number(self.count / 10);
        svg.push(".");
        svg.push_number(self.count % 10);
    }
}

/// A number that is written with so many digits at least.
#[derive(Clone, Copy)]
pub struct Digits {
    number: u64,
    digits: usize,
}

impl Piece for Digits {
    fn draw(self, svg: &mut Svg) {
        svg.push_digits(self.number, self.digits);
    }
}

/// Two digits: an operation, or an angle.
pub fn two(number: impl Into<u64>) -> Digits {
    Digits {
        number: number.into(),
        digits: 2,
    }
}

/// The four digits of a location.
pub fn four(number: u16) -> Digits {
    Digits {
        number: u64::from(number),
        digits: 4,
    }
}

/// The ten digits of a word.
pub fn ten(number: u64) -> Digits {
    Digits { number, digits: 10 }
}

/// Appends pieces to a document, one behind the other: literals, names, and what stands in
/// parentheses. It serves in the place of `write!`, which takes the prover seconds each time.
macro_rules! draw {
    ($svg:ident: $($piece:tt)+) => {{ $( $crate::svg::Piece::draw($piece, $svg); )+ }};
}

pub(crate) use draw;
