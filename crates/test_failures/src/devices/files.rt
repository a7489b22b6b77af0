//! Files that give a byte a call, fail or never end.

use crate::devices::Tap;
use crate::devices::running::{AMPLE, Ran, run_over};
use crate::devices::subjects::{WORDS, shelf_of};
use crate::shelf::Shelf;
use crate::texts::{NOTES, TIMES, TWO_WORDS};
use drum_tool::Status;
use std::alloc::Global;
use std::io::ErrorKind;
use std::process::Abort;
use std::test::Fail;

/// Inputs of three lines.
const INPUTS: &str = "* as fast as can be\nANGLE 00\nPROGRAMMED STOP\n";

/// What a replay says with them.
const KEPT: &str = "kept used 7 bound 56 stop programmed\n";

/// A part of a command.
struct Part {
    /// Its place among the files.
    place: usize,
    text: &'static str,
    /// How a failed reading of it is told.
    read: &'static str,
    /// How it is told that it has no end, the status then, and how many bytes are read of it.
    endless: &'static str,
    status: Status,
    limit: u64,
}

/// The parts.
const PARTS: [Part; 4] = [
    Part {
        place: 0,
        text: TWO_WORDS,
        read: "fault 1 deck read\n",
        endless: "fault 8 deck toolong\n",
        status: Status::Refused,
        limit: 404_001,
    },
    Part {
        place: 1,
        text: TIMES,
        read: "fault 52 times read\n",
        endless: "fault 52 times toolong\n",
        status: Status::Failed,
        limit: 8_388_609,
    },
    Part {
        place: 2,
        text: NOTES,
        read: "fault 52 notes read\n",
        endless: "fault 52 notes toolong\n",
        status: Status::Failed,
        limit: 8_388_609,
    },
    Part {
        place: 3,
        text: INPUTS,
        read: "fault 41 inputs read\n",
        endless: "fault 46 inputs toolong\n",
        status: Status::Refused,
        limit: 804_001,
    },
];

/// What a replay with another text for a part says, how often a text was read and how many bytes it
/// gave at most, and how many reads failed.
fn replayed(alloc: Global, place: usize, text: Tap<'_>) -> (Ran, u64, u128, u64) {
    let mut files = shelf_of((TWO_WORDS, NOTES, INPUTS));
    if let Some(file) = files.get_mut(place) {
        file.1 = text;
    }
    let mut shelf = Shelf::of(&files);
    let ran = run_over(alloc, &WORDS, &mut shelf, Tap::of(b""), AMPLE);
    (ran, shelf.calls, shelf.bytes, shelf.failures)
}

/// That a read of a part which fails after the text's calls, or doesn't fail, is told of as such.
fn says_fault(rt: &(impl AllocGlobal + Abort), part: &Part, text: Tap<'_>, fails: bool) {
    let (ran, _, _, failures) = replayed(rt.alloc(), part.place, text);
    let is_so = if fails {
        ran.is(Status::Failed, "", part.read)
    } else {
        ran.is(Status::Done, KEPT, "")
    };
    assert!(rt; is_so, "{} calls for part {}", text.calls, part.place);
    assert_eq!(rt; failures, u64::from(fails));
}

#[test]
fn byte_by_byte(rt: HostRuntime) {
    for part in &PARTS {
        let bytes = part.text.as_bytes();
        // One more call finds the end.
        let enough = (bytes.len() as u64).saturating_add(1);
        for calls in 0..=enough {
            says_fault(&rt, part, Tap::failing(bytes, calls), calls < enough);
        }
    }
}

#[test]
fn whatever_they_say(rt: HostRuntime) {
    for kind in [
        ErrorKind::Interrupted,
        ErrorKind::WouldBlock,
        ErrorKind::UnexpectedEof,
        ErrorKind::OutOfMemory,
        ErrorKind::Other,
    ] {
        for part in &PARTS {
            let mut text = Tap::failing(part.text.as_bytes(), 1);
            text.kind = kind;
            says_fault(&rt, part, text, true);
        }
    }
}

#[test]
fn without_end(rt: HostRuntime) -> Result<(), Fail> {
    for part in &PARTS {
        for most in [1, usize::MAX] {
            let (ran, calls, bytes, failures) = replayed(
                rt.alloc(),
                part.place,
                Tap::endless(most),
            );
            assert!(rt;
                ran.is(part.status, "", part.endless),
                "part {}",
                part.place
            );
            assert!(rt;
                calls <= part.limit,
                "{calls} calls for part {}",
                part.place
            );
            assert!(rt;
                bytes <= u128::from(part.limit),
                "{bytes} bytes of part {}",
                part.place
            );
            assert_eq!(rt; failures, 0);
        }
    }
    Ok(())
}
