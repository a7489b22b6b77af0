//! A source of files in memory, which tells what they hold and what is asked of it: that there is
//! one shows that what contracts ask to be told can be told.

ghost use Rattle.std.specs.Prelude.{◌≡◌, ◌^◌, ◌≤◌, ℕ, [], ◌∷◌, ◌++◌, Option, Some, IfSome};
ghost use Rattle.std.specs.Prelude.{IsSome, map, option_map};
ghost use Rattle.std.specs.Io.KnownBytes.{Appends};
ghost use Rattle.print_lines.specs.BoundText.{bound_text};
ghost use Rattle.program_run.specs.BoundOfFiles.{AreNames, IsBoundOfFiles};
ghost use Rattle.caller.specs.MemoryFiles.{asked_of, text_of};

use drum_core::{Input, Output, Reading};
use drum_tool::{Source, Status, run};
use program_run::laws::{bound_is_of_the_files, no_fault_is_done};
use std::alloc::Global;

/// A file in memory.
#[derive(Clone, Copy, Debug)]
pub struct File<'a> {
    pub name: &'a str,
    pub bytes: &'a [u8],
}

/// What was asked: a file, by its name; or to take a text back, with how often it was read, how
/// many of these reads failed and met the end, how many bytes they gave, and how many gave none.
#[derive(Debug, Drop)]
pub enum Event {
    Sought(String),
    Returned(u64, u64, u64, u128, u64),
}

/// Files in memory.
#[derive(Debug, Drop)]
pub struct MemoryFiles<'a> {
    pub alloc: Global,
    pub files: &'a [File<'a>],
    /// What was asked so far; `None` once there was no memory for it.
    pub events: Option<Vec<Event>>,
    /// How many reads failed.
    pub failures: u64,
}

/// The bytes of the first file of this name.
fn text_of<'a>(files: &[File<'a>], name: &str) -> Option<&'a [u8]>
    ensures { option_map (λ text. text.now) result ≡ text_of files.now name.now }
{
    let (file, others) = files.split_first()?;
    if file.name == name {
        Some(file.bytes)
    } else {
        text_of(others, name)
    }
}

impl<'a> MemoryFiles<'a> {
    /// These files, of which nothing was asked.
    pub fn of(alloc: Global, files: &'a [File<'a>]) -> MemoryFiles<'a>
        ensures files { result.files.now ≡ files.now }
        ensures failures { result.failures ≡ 0 }
    {
        MemoryFiles {
            alloc,
            files,
            events: Some(Vec::new(alloc)),
            failures: 0,
        }
    }

    /// Notes an event, while there is memory for it.
    fn note(&mut self, event: Event)
        ensures files { self.new.files ≡ self.old.files }
        ensures failures { self.new.failures ≡ self.old.failures }
        ensures noted { IfSome self.new.events (λ now. IfSome self.old.events (λ events.
            now.items ≡ events.items ++ event ∷ [])) }
        ensures goes_on { IsSome self.new.events → IsSome self.old.events }
    {
        let Some(events) = &mut self.events else {
            return;
        };
        if events.push(event).is_err() {
            self.events = None;
        }
    }
}

impl<'a> Source for MemoryFiles<'a> {
    type Text = Reading<&'a [u8]>;

    ghost files = { λ told _ name. Some (text_of told.files.now name) };

    ghost failed = { λ told. told.failures };

    ghost asked = { λ told. option_map (λ events. map asked_of events.items) told.events };

    fn fetch(&mut self, name: &str) -> Option<Reading<&'a [u8]>> {
        match String::from_str(self.alloc, name) {
            Ok(name) => self.note(Event::Sought(name)),
            Err(_) => self.events = None,
        }
        let text = text_of(self.files, name)?;
        Some(Reading::new(text))
    }

    fn failures(&self) -> u64 {
        self.failures
    }

    fn close(&mut self, text: Reading<&'a [u8]>) {
        let counts = (text.calls(), text.failures(), text.ends());
        self.note(Event::Returned(counts.0, counts.1, counts.2, text.bytes(), text.idle()));
        self.failures += text.failures();
    }
}

/// Runs `bound` with the names of three of these files. That it is done tells that standard output
/// got the line of their bound: the worst of what they hold, which no run that keeps to the notes
/// ever exceeds.
pub fn bound_of_files<O: Output, E: Output>(
    alloc: Global,
    files: &[File<'_>],
    deck: &str,
    times: &str,
    notes: &str,
    out: &mut O,
    err: &mut E,
) -> Status
    requires { AreNames (deck.now ∷ times.now ∷ notes.now ∷ []) }
    ensures printed { result ≡ Status.Done → (bound : ℕ)
        × IsBoundOfFiles (text_of files.now deck.now) (text_of files.now times.now)
        (text_of files.now notes.now) bound
        × Appends (O.device out.old).written (O.device out.new).written (bound_text bound)
        × ((O.device out.new).failures ≡ (O.device out.old).failures) }
{
    bound_is_of_the_files();
    no_fault_is_done();
    let mut source = MemoryFiles::of(alloc, files);
    let mut input = Reading::new(b"".as_slice());
    run(
        alloc,
        &["bound", deck, times, notes],
        &mut source,
        &mut input,
        out,
        err,
    )
}
