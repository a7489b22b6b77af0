//! The lines of a text.

ghost use Rattle.std.specs.Prelude.{◌≡◌, ◌≢◌, ℕ, ◌<◌, ◌↔◌, ◌^◌, length, slice_index, IfSome};
ghost use Rattle.std.specs.Prelude.{IfNone, IsTrue};
ghost use Rattle.std.specs.Iterator.{YieldsFirstBy, item_count};
ghost use Rattle.read_decks.specs.Lines.{lines_of, IsLonger};

/// The lines of a text: its parts between line feeds. The last may lack its line feed, and a text
/// that ends with one has no empty line after it.
#[derive(Clone, Copy)]
pub struct Lines<'a> {
    /// The bytes of the lines that are left.
    pub rest: &'a [u8],
}

/// Where the first line feed stands.
fn line_end(text: &[u8]) -> Option<usize>
    ensures within { IfSome result (λ end. end < length text.now) }
    ensures found { IfSome result (λ end. slice_index text.now end ≡ 10) }
    ensures first { IfSome result (λ end. (k : ℕ) → k < end → slice_index text.now k ≢ 10) }
    ensures none { IfNone result ((k : ℕ) → k < length text.now → slice_index text.now k ≢ 10) }
{
    text.iter().position(|byte| *byte == b'\n')
}

impl<'a> Iterator for Lines<'a> {
    type Item = &'a [u8];

    ghost next_gives = { YieldsFirstBy (λ line. line.now) (λ lines. lines_of lines.rest.now) };

    ghost remaining = { item_count (λ lines. lines_of lines.rest.now) };

    fn next(&mut self) -> Option<&'a [u8]> {
        let text = self.rest;
        if text.is_empty() {
            return None;
        }
        match line_end(text) {
            Some(end) => {
                self.rest = &text[end + 1..];
                Some(&text[..end])
            }
            None => {
                self.rest = &[];
                Some(text)
            }
        }
    }
}

/// Whether a text has more lines than `most`, or a line that is longer than `longest` bytes without
/// its line feed.
pub fn is_longer(text: &[u8], most: usize, longest: usize) -> bool
    requires { most < 2 ^ 32 }
    ensures { IsTrue result ↔ IsLonger most longest text.now }
{
    let mut lines = 0;
    for line in (Lines { rest: text }) {
        lines += 1;
        if lines > most || line.len() > longest {
            return true;
        }
    }
    false
}
