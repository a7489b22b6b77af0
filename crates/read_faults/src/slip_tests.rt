//! Tests of a line's bytes, which say what was done to it.

ghost use Rattle.std.specs.Prelude.{◌≡◌, count_by, length};
ghost use Rattle.std.specs.List.{list_all, list_any};
ghost use Rattle.read_faults.specs.SlipTests as sign;

/// Whether a line is of a text in UTF-16: it begins with the mark of that, or has a byte 0.
pub fn is_utf16(line: &[u8]) -> bool
    ensures { result ≡ sign.has_utf16 line.now }
{
    line.starts_with([255, 254].as_slice())
        || line.starts_with([254, 255].as_slice())
        || line.contains(&0)
}

/// Whether a line has a letter from `a` to `z`.
pub fn has_small_letter(line: &[u8]) -> bool
    ensures { result ≡ sign.has_small_letter line.now }
{
    line.iter().any(|byte| byte.is_ascii_lowercase())
}

/// Whether a byte is a sign.
fn is_sign(byte: u8) -> bool
    ensures { result ≡ sign.is_sign byte }
{
    byte == b'+' || byte == b'-'
}

/// Whether one of two letters stands right beside a digit.
pub fn has_beside_digit(line: &[u8], one: u8, other: u8) -> bool
    ensures { result ≡ sign.has_beside_digit one other line.now }
{
    line.iter()
        .zip(line.iter().skip(1))
        .any(|(left, right)| is_beside_digit(one, other, *left, *right))
}

/// Whether of two neighbours the one is a digit, and the other is one of two letters.
fn is_beside_digit(one: u8, other: u8, left: u8, right: u8) -> bool
    ensures { result ≡ sign.is_beside_digit one other left right }
{
    (left == one || left == other) && right.is_ascii_digit()
        || left.is_ascii_digit() && (right == one || right == other)
}

/// Whether bytes are all digits.
fn are_digits(bytes: &[u8]) -> bool
    ensures { result ≡ list_all sign.is_digit bytes.now }
{
    bytes.iter().all(|byte| byte.is_ascii_digit())
}

/// Whether a piece of a line is ten digits.
fn is_unsigned(piece: &[u8]) -> bool
    ensures { result ≡ sign.is_unsigned piece.now }
{
    piece.len() == 10 && are_digits(piece)
}

/// Whether a piece of a line is a sign and ten digits.
fn is_word(piece: &[u8]) -> bool
    ensures { result ≡ sign.is_word piece.now }
{
    match piece {
        [] => false,
        [byte, bytes @ ..] => is_sign(*byte) && is_unsigned(bytes),
    }
}

/// Whether a line begins with a digit.
fn begins_location(line: &[u8]) -> bool
    ensures { result ≡ sign.begins_location line.now }
{
    match line {
        [] => false,
        [byte, ..] => byte.is_ascii_digit(),
    }
}

/// Whether a piece of a line begins with neither a digit nor a sign.
fn begins_comment(piece: &[u8]) -> bool
    ensures { result ≡ sign.begins_comment piece.now }
{
    match piece {
        [] => false,
        [byte, ..] => !(byte.is_ascii_digit() || is_sign(*byte)),
    }
}

/// Whether a line has ten digits without a sign.
pub fn has_unsigned(line: &[u8]) -> bool
    ensures { result ≡ list_any sign.is_unsigned (sign.pieces line.now) }
{
    line.split(|byte| *byte == b' ').any(is_unsigned)
}

/// Whether a line has a word.
fn has_word(line: &[u8]) -> bool
    ensures { result ≡ list_any sign.is_word (sign.pieces line.now) }
{
    line.split(|byte| *byte == b' ').any(is_word)
}

/// How many words a line has.
fn word_count(line: &[u8]) -> usize
    ensures { result ≡ count_by sign.is_word (sign.pieces line.now) }
{
    line.split(|byte| *byte == b' ')
        .filter(|piece| is_word(piece))
        .count()
}

/// Whether a line has the beginning of a comment.
fn has_comment(line: &[u8]) -> bool
    ensures { result ≡ list_any sign.begins_comment (sign.pieces line.now) }
{
    line.split(|byte| *byte == b' ').any(begins_comment)
}

/// Whether words and a comment stand on one line.
pub fn has_comment_behind(line: &[u8]) -> bool
    ensures { result ≡ sign.has_comment_behind line.now }
{
    begins_location(line) && has_word(line) && has_comment(line)
}

/// Whether a line has too many words.
pub fn has_many_words(line: &[u8]) -> bool
    ensures { result ≡ sign.has_many_words line.now }
{
    begins_location(line) && word_count(line) > 7
}

/// Whether a byte is what a form has there: `0` in a form stands for any digit.
fn is_of(mark: u8, byte: u8) -> bool
    ensures { result ≡ sign.is_of mark byte }
{
    if mark == b'0' {
        byte.is_ascii_digit()
    } else {
        byte == mark
    }
}

/// Whether the first of these bytes have a form.
fn begins_as(form: &[u8], bytes: &[u8]) -> bool
    ensures { result ≡ sign.begins_as form.now bytes.now }
{
    form.len() <= bytes.len()
        && form
            .iter()
            .zip(bytes.iter())
            .all(|(mark, byte)| is_of(*mark, *byte))
}

/// Whether all of these bytes have a form.
fn has_form(form: &[u8], bytes: &[u8]) -> bool
    ensures { result ≡ sign.has_form form.now bytes.now }
{
    bytes.len() == form.len() && begins_as(form, bytes)
}

/// Whether a line has an instruction in parts behind a location.
pub fn is_in_parts(line: &[u8]) -> bool
    ensures { result ≡ sign.is_in_parts line.now }
{
    begins_as(b"0000 00 0000 0000", line)
        || begins_as(b"0000 +00 0000 0000", line)
        || begins_as(b"0000 -00 0000 0000", line)
}

/// Whether a piece of a line is ten digits and a sign.
fn is_signed_behind(piece: &[u8]) -> bool
    ensures { result ≡ sign.is_signed_behind piece.now }
{
    has_form(b"0000000000+", piece) || has_form(b"0000000000-", piece)
}

/// Whether a line has a word with its sign behind its digits.
pub fn has_sign_behind(line: &[u8]) -> bool
    ensures { result ≡ sign.has_sign_behind line.now }
{
    line.split(|byte| *byte == b' ').any(is_signed_behind)
}

/// Whether a line begins with a location and a colon.
pub fn has_colon(line: &[u8]) -> bool
    ensures { result ≡ sign.has_colon line.now }
{
    begins_as(b"0000:", line)
}

/// How many pieces a line has.
fn piece_count(line: &[u8]) -> usize
    ensures { result ≡ length (sign.pieces line.now) }
{
    line.split(|byte| *byte == b' ').count()
}

/// Whether a line is a card or a load card of inputs, with other than ten pieces behind its name.
pub fn is_card_of_other_length(line: &[u8]) -> bool
    ensures { result ≡ sign.is_card_of_other_length line.now }
{
    let is_card = line.starts_with(b"CARD ".as_slice()) || line.starts_with(b"LOAD ".as_slice());
    is_card && piece_count(line) != 11
}

/// Whether a line is an angle of inputs, of one digit.
pub fn is_angle_of_one_digit(line: &[u8]) -> bool
    ensures { result ≡ sign.is_angle_of_one_digit line.now }
{
    has_form(b"ANGLE 0", line)
}
