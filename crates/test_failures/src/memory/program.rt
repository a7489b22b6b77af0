//! The program by each of its commands, in a window where memory may be refused. A new command has
//! its name here.

use crate::devices::Tap;
use crate::memory::answer::Ran;
use crate::memory::subjects::SUBJECTS;
use crate::memory::watched::holds;
use crate::page::Page;
use crate::shelf::Shelf;
use crate::texts::{BACK, BRANCH_BACK, NOTES, ROADS, TIMES, TWO_CALLS, TWO_ROADS, TWO_WORDS};
use drum_core::{Reading, Writing};
use drum_tool::{run, run_joined};
use std::alloc::{AllocError, Global};
use std::process::Abort;
use std::test::Fail;

/// Runs the program over words, and the files that they name.
fn run_words(alloc: Global, words: &[&str], files: &[(&str, Tap<'_>)]) -> Ran {
    let mut shelf = Shelf::of(files);
    let mut input = Reading::new(Tap::of(b""));
    let mut out = Writing::new(Page::new());
    let mut err = Writing::new(Page::new());
    let status = run(alloc, words, &mut shelf, &mut input, &mut out, &mut err);
    Ran {
        status,
        out: out.writer,
        err: err.writer,
    }
}

/// Runs the program over a joined form.
fn run_text(alloc: Global, text: &str) -> Ran {
    let mut input = Reading::new(Tap::of(text.as_bytes()));
    let mut out = Writing::new(Page::new());
    let mut err = Writing::new(Page::new());
    let status = run_joined(alloc, &mut input, &mut out, &mut err);
    Ran {
        status,
        out: out.writer,
        err: err.writer,
    }
}

/// That these commands hold over files: the deck, the timing table that the tests share, the notes,
/// and where a command takes them the inputs.
fn commands_hold<'a>(
    rt: &(impl AllocGlobal + Abort),
    commands: &[&'a str],
    (deck, notes, inputs): (&'a str, &'a str, Option<&'a str>),
) {
    let files = [
        ("deck", Tap::of(deck.as_bytes())),
        ("times", Tap::of(TIMES.as_bytes())),
        ("notes", Tap::of(notes.as_bytes())),
        ("inputs", Tap::of(inputs.unwrap_or("").as_bytes())),
    ];
    for command in commands {
        let words = [*command, "deck", "times", "notes", "inputs"];
        let words = &words[..if inputs.is_some() { 5 } else { 4 }];
        holds(rt, |alloc| run_words(alloc, words, &files));
    }
}

#[test]
fn of_the_program(rt: HostRuntime) -> Result<(), Fail> {
    for subject in &SUBJECTS {
        let notes = subject.notes(rt.alloc())?;
        let of_three = [
            "bound", "check", "report", "walk", "waits", "table", "size", "graph", "outline",
        ];
        commands_hold(&rt, &of_three, (subject.deck, &notes, None));
        let of_four = ["replay", "trace", "draw"];
        commands_hold(&rt, &of_four, (subject.deck, &notes, Some("ANGLE 01\n")));
    }
    Ok(())
}

/// Of long notes, which have no bound.
#[test]
fn of_the_program_past_the_limit(rt: HostRuntime) -> Result<(), Fail> {
    let notes = format!(in rt.alloc(); "{NOTES}{BACK}name = \"back\"\n")?;
    let commands = ["ceiling", "walk", "waits"];
    commands_hold(&rt, &commands, (BRANCH_BACK, &notes, None));
    Ok(())
}

/// Of notes with calls.
#[test]
fn of_the_program_with_calls(rt: HostRuntime) -> Result<(), Fail> {
    let notes = format!(in rt.alloc(); "{NOTES}{ROADS}{TWO_CALLS}")?;
    let commands = ["check", "graph", "ceiling", "walk", "waits"];
    commands_hold(&rt, &commands, (TWO_ROADS, &notes, None));
    commands_hold(&rt, &["trace"], (TWO_ROADS, &notes, Some("ANGLE 01\n")));
    Ok(())
}

#[test]
fn of_the_program_that_refuses(rt: HostRuntime) -> Result<(), Fail> {
    let notes = format!(in rt.alloc(); "{NOTES}{BACK}")?;
    let one = "ANGLE 01\nACCUMULATOR +00000000000000000001\n";
    for (deck, notes, inputs) in [
        (BRANCH_BACK, notes.as_str(), one),
        (TWO_WORDS, NOTES, "0100 +0000000000\n"),
        (TWO_WORDS, NOTES, "ANGLE 50\n"),
        (TWO_WORDS, "color = 1\n", ""),
        ("x\n", NOTES, ""),
    ] {
        let commands = ["check", "replay", "trace", "draw"];
        commands_hold(&rt, &commands, (deck, notes, Some(inputs)));
    }
    Ok(())
}

/// That the joined form of a deck with these notes holds.
fn joined_holds(
    rt: &(impl AllocGlobal + Abort),
    deck: &str,
    notes: &str,
) -> Result<(), AllocError> {
    let text = format!(in rt.alloc(); "{deck}%TIMES\n{TIMES}%NOTES\n{notes}")?;
    holds(rt, |alloc| run_text(alloc, &text));
    Ok(())
}

#[test]
fn of_joined_forms(rt: HostRuntime) -> Result<(), Fail> {
    for subject in &SUBJECTS {
        joined_holds(&rt, subject.deck, &subject.notes(rt.alloc())?)?;
    }
    for (deck, notes) in [
        ("x\n", NOTES),
        (TWO_WORDS, "programmed = \n"),
        (BRANCH_BACK, NOTES),
    ] {
        joined_holds(&rt, deck, notes)?;
    }
    holds(&rt, |alloc| run_text(alloc, "%TIMES\n"));
    Ok(())
}

/// The texts of help and of refused words are made by `clap`.
#[test]
fn of_words(rt: HostRuntime) {
    for words in [
        ["--help"].as_slice(),
        ["bound", "--help"].as_slice(),
        ["replay", "-h"].as_slice(),
        ["boun", "deck", "times", "notes"].as_slice(),
        ["bound", "deck"].as_slice(),
        ["bound", "deck", "times", "notes", "inputs"].as_slice(),
        ["report", "--fast", "deck", "times", "notes"].as_slice(),
    ] {
        holds(&rt, |alloc| run_words(alloc, words, &[]));
    }
}
