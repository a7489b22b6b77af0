//! Reports that a caller has written: how many bytes have gone out where a write fails.

use crate::devices::subjects::REPORT;
use crate::page::Page;
use crate::texts::{NOTES, TIMES, TWO_WORDS};
use drum_bound::{Analysis, analyse};
use drum_core::{Deck, Output, Reading, Writing, read_deck};
use drum_times::{Notes, read_notes, read_times};
use drum_tool::{WriteFault, report};
use std::process::Abort;
use std::test::Fail;

/// That a report to an output with this room, which takes as many bytes a call at most, tells how
/// many bytes of its 84 went out.
fn sends(
    rt: &impl Abort,
    analysis: &Analysis,
    (deck, notes): (&Deck, &Notes),
    (room, most): (usize, usize),
) {
    let sent = if most == 0 { 0 } else { room };
    let whole = sent == 84;
    let mut out = Writing::new(Page::with(room, most));
    let fault = report(analysis, deck, notes, &mut out).err();
    assert_eq!(rt; fault, (!whole).then_some(WriteFault { sent }));
    assert_eq!(rt; Some(out.writer.text()), REPORT.as_bytes().get(..sent));
    assert_eq!(rt; out.failures(), u64::from(!whole));
}

#[test]
fn of_two_words(rt: HostRuntime) -> Result<(), Fail> {
    let deck = read_deck(rt.alloc(), &mut Reading::new(TWO_WORDS.as_bytes()))?;
    let times = read_times(rt.alloc(), TIMES.as_bytes())?;
    let notes = read_notes(rt.alloc(), NOTES.as_bytes())?;
    let analysis = analyse(rt.alloc(), &deck, &times, &notes)?;
    assert_eq!(rt; REPORT.len(), 84);
    for most in [84usize, 3, 1, 0] {
        for room in 0..=84usize {
            sends(&rt, &analysis, (&deck, &notes), (room, most));
        }
    }
    Ok(())
}
