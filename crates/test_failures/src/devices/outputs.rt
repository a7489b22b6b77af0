//! Outputs that fail after any byte, and take few bytes a call or none, for the texts of each
//! subject.

use crate::devices::Tap;
use crate::devices::running::{Ran, run_over};
use crate::devices::subjects::{SUBJECTS, shelf_of};
use crate::page::Page;
use crate::shelf::Shelf;
use drum_core::{Output, Writing};
use drum_tool::Status;
use std::process::Abort;
use std::test::Fail;

/// That an output got a prefix of this text: what it has the room for.
fn got(
    rt: &impl Abort,
    output: &Writing<Page>,
    text: &[u8],
    (room, most): (usize, usize),
) -> Result<(), Fail> {
    let sent = if most == 0 { 0 } else { room.min(text.len()) };
    let prefix = text.get(..sent).ok_or("a prefix")?;
    assert_eq!(rt;
        output.writer.text(),
        prefix,
        "with {room} bytes, {most} a call"
    );
    assert_eq!(rt; output.failures(), u64::from(sent < text.len()));
    Ok(())
}

/// What is to come where all goes out.
#[derive(Clone, Copy)]
struct Whole<'a> {
    status: Status,
    out: &'a [u8],
    err: &'a [u8],
}

/// That prefixes of these texts went out, and that the run ended so where the whole did. A failed
/// write of a result is a failure; one of a complaint changes nothing.
fn sent(rt: &impl Abort, ran: &Ran, whole: Whole<'_>, limits: (usize, usize)) -> Result<(), Fail> {
    got(rt, &ran.out, whole.out, limits)?;
    got(rt, &ran.err, whole.err, limits)?;
    let wanted = if ran.out.failures() == 0 {
        whole.status
    } else {
        Status::Failed
    };
    assert_eq!(rt;
        ran.status,
        wanted,
        "with {} bytes, {} a call",
        limits.0, limits.1
    );
    Ok(())
}

/// That words over these files do so to outputs of each room, that take three bytes a call, one, or
/// none.
fn sends<'a>(
    rt: &(impl AllocGlobal + Abort),
    words: &[&str],
    files: &'a [(&'a str, Tap<'a>)],
    whole: Whole<'_>,
) -> Result<(), Fail> {
    let longest = whole.out.len().max(whole.err.len());
    for room in 0..=longest {
        for most in [3usize, 1] {
            let ran = run_over(
                rt.alloc(),
                words,
                &mut Shelf::of(files),
                Tap::of(b""),
                (room, most),
            );
            sent(rt, &ran, whole, (room, most))?;
        }
    }
    let none = (longest, 0);
    let ran = run_over(rt.alloc(), words, &mut Shelf::of(files), Tap::of(b""), none);
    sent(rt, &ran, whole, none)
}

#[test]
fn of_subjects(rt: HostRuntime) -> Result<(), Fail> {
    for subject in SUBJECTS {
        let words = subject.words();
        let whole = Whole {
            status: subject.status,
            out: subject.out.as_bytes(),
            err: subject.err.as_bytes(),
        };
        let files = shelf_of(subject.files);
        sends(
            &rt,
            words.get(..subject.count()).ok_or("words")?,
            &files,
            whole,
        )?;
    }
    Ok(())
}
