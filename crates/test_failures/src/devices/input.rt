//! The joined form on an input that gives a byte a call, fails or never ends, or ends too early.

use crate::devices::Tap;
use crate::devices::running::{AMPLE, Ran, run_over};
use crate::shelf::Shelf;
use crate::texts::{NOTES, TIMES, TWO_WORDS};
use drum_tool::Status;
use std::alloc::{AllocError, Global};
use std::io::ErrorKind;
use std::test::Fail;

/// The joined form of the deck of two words.
fn joined(alloc: Global) -> Result<String, AllocError> {
    format!(in alloc; "{TWO_WORDS}%TIMES\n{TIMES}%NOTES\n{NOTES}")
}

/// What the program says with no words.
fn ran(alloc: Global, input: Tap<'_>) -> Ran {
    run_over(alloc, &[], &mut Shelf::of(&[]), input, AMPLE)
}

#[test]
fn byte_by_byte(rt: HostRuntime) -> Result<(), Fail> {
    let text = joined(rt.alloc())?;
    let bytes = text.as_bytes();
    // One more call finds the end.
    let enough = (bytes.len() as u64).saturating_add(1);
    for calls in 0..=enough {
        let ran = ran(rt.alloc(), Tap::failing(bytes, calls));
        let is_so = if calls == enough {
            ran.is(Status::Done, "bound 56\n", "")
        } else {
            ran.is(Status::Failed, "", "fault 52 input read\n")
        };
        assert!(rt; is_so, "with {calls} calls");
        let fails = calls < enough;
        assert_eq!(rt;
            (ran.calls, ran.failures),
            (calls + u64::from(fails), u64::from(fails))
        );
    }
    Ok(())
}

#[test]
fn whatever_it_says(rt: HostRuntime) {
    for kind in [
        ErrorKind::Interrupted,
        ErrorKind::WouldBlock,
        ErrorKind::BrokenPipe,
        ErrorKind::IsADirectory,
        ErrorKind::OutOfMemory,
    ] {
        let mut text = Tap::failing(b"0100", 3);
        text.kind = kind;
        let ran = ran(rt.alloc(), text);
        assert!(rt; ran.is(Status::Failed, "", "fault 52 input read\n"));
        assert_eq!(rt; (ran.calls, ran.failures), (4, 1));
    }
}

#[test]
fn without_end(rt: HostRuntime) -> Result<(), Fail> {
    let text = joined(rt.alloc())?;
    for most in [1, usize::MAX] {
        let mut endless = Tap::endless(most);
        endless.bytes = text.as_bytes();
        let ran = ran(rt.alloc(), endless);
        assert!(rt;
            ran.is(Status::Failed, "", "fault 52 input toolong\n"),
            "{most} bytes a call"
        );
        assert!(rt; ran.calls <= 16_777_217, "{} calls", ran.calls);
        assert_eq!(rt; ran.failures, 0);
    }
    Ok(())
}

/// What is said where the notes end after so many bytes. Between a key and the end of its value
/// they are no document.
fn said_of_notes(bytes: usize) -> (Status, &'static str, &'static str) {
    match bytes {
        0 => (Status::Refused, "", "fault 13 notes missing programmed\n"),
        19 | 20 => (Status::Refused, "", "fault 13 notes missing load_cards\n"),
        39 | 40 => (Status::Done, "bound 56\n", ""),
        _ => (Status::Refused, "", "fault 11 notes toml\n"),
    }
}

/// A line feed is wanted neither of the line `%NOTES` nor of the notes.
#[test]
fn each_prefix(rt: HostRuntime) -> Result<(), Fail> {
    let text = joined(rt.alloc())?;
    let bytes = text.as_bytes();
    assert_eq!(rt; NOTES.len(), 40);
    let notes = bytes.len().saturating_sub(40);
    for count in 0..=bytes.len() {
        let prefix = bytes.get(..count).ok_or("a prefix")?;
        let ran = ran(rt.alloc(), Tap::of(prefix));
        let (status, out, err) = if count.saturating_add(1) < notes {
            (Status::Refused, "", "fault 51 nopart\n")
        } else {
            said_of_notes(count.saturating_sub(notes))
        };
        assert!(rt; ran.is(status, out, err), "of {count} bytes");
    }
    Ok(())
}
