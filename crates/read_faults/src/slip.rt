use crate::slip_tests::{
    has_beside_digit, has_colon, has_comment_behind, has_many_words, has_sign_behind,
    has_small_letter, has_unsigned, is_angle_of_one_digit, is_card_of_other_length, is_in_parts,
    is_utf16,
};

/// What was done to a line that is no line of a deck, or of inputs: by an editor, by a transfer, or
/// by whoever wrote it.
#[derive(Clone, Copy, Debug, PartialEq, Eq)]
pub enum Slip {
    /// The line begins with the three bytes that some editors put before a text in UTF-8.
    ByteOrderMark,
    /// The text is in UTF-16: its line begins with the mark of that, or has a byte 0.
    Utf16,
    /// The line ends with a carriage return.
    CarriageReturn,
    /// The line has no bytes.
    Empty,
    /// The line has a tab.
    Tab,
    /// The line ends with a blank.
    BlankAtEnd,
    /// Behind the words of a card stands a comment.
    CommentBehind,
    /// A letter `O` or `o` stands right beside a digit.
    LetterO,
    /// A letter `l` or `I` stands right beside a digit.
    LetterL,
    /// Ten digits stand between blanks, without a sign.
    NoSign,
    /// A card has more than seven words.
    ManyWords,
    /// Blanks part the instruction behind a location: operation, D and I stand apart.
    InParts,
    /// A word's sign stands behind its digits.
    SignBehind,
    /// A colon stands behind the location.
    Colon,
    /// A card of inputs has other than ten words.
    NotTenWords,
    /// The angle of inputs has one digit.
    OneDigit,
    /// The line has letters from `a` to `z`.
    SmallLetters,
}

impl Slip {
    ghost use Rattle.std.specs.Prelude.{◌≡◌};
    ghost use Rattle.read_faults.specs.Slip.{slip_in, slip_in_words, slip_in_form, slip_in_long};

    /// What was done to a line of these bytes, if anything that is known.
    pub fn of(line: &[u8]) -> Option<Slip>
        ensures { result ≡ slip_in line.now }
    {
        if line.starts_with([239, 187, 191].as_slice()) {
            Some(Slip::ByteOrderMark)
        } else if is_utf16(line) {
            Some(Slip::Utf16)
        } else if line.ends_with(b"\r".as_slice()) {
            Some(Slip::CarriageReturn)
        } else if line.is_empty() {
            Some(Slip::Empty)
        } else if line.contains(&b'\t') {
            Some(Slip::Tab)
        } else if line.ends_with(b" ".as_slice()) {
            Some(Slip::BlankAtEnd)
        } else {
            Slip::of_words(line)
        }
    }

    /// What is told of the words of a line, if anything that is known.
    fn of_words(line: &[u8]) -> Option<Slip>
        ensures { result ≡ slip_in_words line.now }
    {
        if has_comment_behind(line) {
            Some(Slip::CommentBehind)
        } else if has_beside_digit(line, b'O', b'o') {
            Some(Slip::LetterO)
        } else if has_beside_digit(line, b'I', b'l') {
            Some(Slip::LetterL)
        } else if has_unsigned(line) {
            Some(Slip::NoSign)
        } else if has_many_words(line) {
            Some(Slip::ManyWords)
        } else {
            Slip::of_form(line)
        }
    }

    /// What is told of the form of a line, if anything that is known.
    fn of_form(line: &[u8]) -> Option<Slip>
        ensures { result ≡ slip_in_form line.now }
    {
        if is_in_parts(line) {
            Some(Slip::InParts)
        } else if has_sign_behind(line) {
            Some(Slip::SignBehind)
        } else if has_colon(line) {
            Some(Slip::Colon)
        } else if is_card_of_other_length(line) {
            Some(Slip::NotTenWords)
        } else if is_angle_of_one_digit(line) {
            Some(Slip::OneDigit)
        } else if has_small_letter(line) {
            Some(Slip::SmallLetters)
        } else {
            None
        }
    }

    /// What was done to a line that is past a limit, where only UTF-16 is looked for: it takes two
    /// bytes for each letter.
    pub fn of_long(line: &[u8]) -> Option<Slip>
        ensures { result ≡ slip_in_long line.now }
    {
        if is_utf16(line) {
            Some(Slip::Utf16)
        } else {
            None
        }
    }
}
