ghost use Rattle.std.specs.Prelude.{◌≡◌, ◌≢◌, ◌++◌, ◌⊎◌, ℕ, List, [], codes, not, Contains, IfSome};
ghost use Rattle.std.specs.Prelude.{IfNone, IsTrue, MatchBool, MatchOption};
ghost use Rattle.std.specs.List.{list_any};
ghost use Rattle.std.specs.Prelude.{◌==◌};
ghost use Rattle.read_decks.specs.Lines.{lines_of};
ghost use Rattle.read_documents.specs.Joined.{AreParts, AreWholeLines, Begins, IsCut, LacksPart};
ghost use Rattle.read_documents.specs.PartsOf.{texts_of};

/// The parts of the joined form.
#[derive(Clone, Copy)]
pub struct Parts<'a> {
    pub deck: &'a [u8],
    pub times: &'a [u8],
    pub notes: &'a [u8],
}

impl Parts<'_> {
    /// The parts of a text: the first line that is exactly `%TIMES` ends the deck, and the first
    /// such `%NOTES` line after it the times. A part is all bytes between, its last line feed with
    /// them.
    pub fn of(text: &[u8]) -> Option<Parts<'_>>
        ensures found { IfSome result (λ parts.
            AreParts text.now (texts_of parts)) }
        ensures none { IfNone result (LacksPart text.now) }
    {
        let Some((deck, rest)) = split_at_line(text, b"%TIMES") else {
            return None;
        };
        let Some((times, notes)) = split_at_line(rest, b"%NOTES") else {
            return None;
        };
        Some(Parts { deck, times, notes })
    }
}

/// Whether a line may begin behind the text.
fn are_whole_lines(text: &[u8]) -> bool
    ensures { MatchBool result (AreWholeLines text.now) (¬ AreWholeLines text.now) }
{
    match text {
        [] => true,
        [.., last] => *last == b'\n',
    }
}

/// What stands behind a prefix that the text begins with.
fn behind<'a>(text: &'a [u8], prefix: &[u8]) -> Option<&'a [u8]>
    ensures { MatchOption result
        ((rest : List ℕ) → text.now ≢ prefix.now ++ rest)
        (λ rest. text.now ≡ prefix.now ++ rest.now) }
{
    text.strip_prefix(prefix)
}

/// What stands behind a line that the text begins with, and behind its line feed.
fn behind_line<'a>(text: &'a [u8], line: &[u8]) -> Option<&'a [u8]>
    ensures { MatchOption result
        (¬ Begins line.now text.now)
        (λ rest. (text.now ≡ line.now ++ codes "\n" ++ rest.now)
        ⊎ ((text.now ≡ line.now) × (rest.now ≡ []))) }
{
    let Some(rest) = behind(text, line) else {
        return None;
    };
    match rest.split_first() {
        None => Some(rest),
        Some((feed, next)) if *feed == b'\n' => Some(next),
        Some(_) => None,
    }
}

/// What stands behind the mark, where it is the line that begins between the two texts.
fn behind_mark<'a>(before: &[u8], text: &'a [u8], mark: &[u8]) -> Option<&'a [u8]>
    ensures { MatchOption result
        (AreWholeLines before.now → ¬ Begins mark.now text.now)
        (λ rest. AreWholeLines before.now × ((text.now ≡ mark.now ++ codes "\n" ++ rest.now)
        ⊎ ((text.now ≡ mark.now) × (rest.now ≡ [])))) }
{
    if !are_whole_lines(before) {
        return None;
    }
    behind_line(text, mark)
}

/// What stands before the first line that is exactly the mark, and what stands behind it.
fn split_at_line<'a>(text: &'a [u8], mark: &[u8]) -> Option<(&'a [u8], &'a [u8])>
    requires { IsTrue (not (list_any (λ byte. byte == 10) mark.now)) }
    ensures found { IfSome result (λ parts. IsCut mark.now text.now parts.0.now parts.1.now) }
    ensures none { IfNone result (¬ Contains (lines_of text.now) mark.now) }
{
    for at in 0..text.len() {
        let (before, rest) = text.split_at(at);
        if let Some(behind) = behind_mark(before, rest, mark) {
            return Some((before, behind));
        }
    }
    None
}
