//! Each call that takes memory, in a window where it may be refused, and before and behind that
//! with all the memory that it wants. What it answers with memory is held by the cases and other
//! tests. A new call has a line here; where it has an error of its own, why that is lack of memory
//! is said in `answer`.

use crate::memory::answer::Answer;
use crate::memory::subjects::{SUBJECTS, documents};
use crate::memory::window::Round;
use crate::texts::{
    BRANCH_BACK, LONG_MARKS, NOTES, ROADS, STORES, TIMES, TWO_CALLS, TWO_ROADS, TWO_WORDS,
};
use base_devices::read_whole;
use drum_bound::{Refusal, accept, analyse, bound, flow, reached};
use drum_core::{Reading, Word, read_deck};
use drum_machine::{Machine, Setup};
use drum_times::{read_long_notes, read_notes, read_times};
use drum_tool::{Documents, Fault, Findings, Lacking, Verdict, read_inputs, replay};
use read_toml::long_notes_faults;
use std::alloc::Global;
use std::process::Abort;
use std::test::Fail;

/// What a call answers in a round; `None` where it answers that there is no memory.
fn told<A: Answer, F: Fn(Global) -> A>(
    rt: &(impl AllocGlobal + Abort),
    round: Round,
    call: &F,
) -> Option<String>
    requires { F.IsAlwaysCallable call.now }
{
    round.begin(rt);
    let answer = call(rt.alloc());
    let lacks_memory = answer.lacks_memory();
    round.end(rt, lacks_memory);
    if lacks_memory {
        return None;
    }
    let told = format!(in rt.alloc(); "{answer:?}");
    assert!(rt; told.is_ok(), "no memory to tell of an answer");
    told.ok()
}

/// That a call answers in each round that there is no memory, where it was refused, or what it
/// answers in the first.
pub(crate) fn holds<A: Answer, F: Fn(Global) -> A>(rt: &(impl AllocGlobal + Abort), call: F)
    requires { F.IsAlwaysCallable call }
{
    let free = told(rt, Round::Free, &call);
    let watched = told(rt, Round::Watched, &call);
    assert!(rt; watched.is_none() || watched == free, "{watched:?}");
    let again = told(rt, Round::Free, &call);
    assert_eq!(rt; again, free);
}

fn deck_holds(rt: &(impl AllocGlobal + Abort), text: &str) {
    holds(
        rt,
        |alloc| read_deck(alloc, &mut Reading::new(text.as_bytes())),
    );
}

fn times_hold(rt: &(impl AllocGlobal + Abort), text: &str) {
    holds(rt, |alloc| read_times(alloc, text.as_bytes()));
}

fn notes_hold(rt: &(impl AllocGlobal + Abort), text: &str) {
    holds(rt, |alloc| read_notes(alloc, text.as_bytes()));
}

fn long_notes_hold(rt: &(impl AllocGlobal + Abort), text: &str) {
    holds(rt, |alloc| read_long_notes(alloc, text.as_bytes()));
    holds(rt, |alloc| long_notes_faults(alloc, text.as_bytes()));
}

fn inputs_hold(rt: &(impl AllocGlobal + Abort), text: &str) {
    holds(
        rt,
        |alloc| read_inputs(alloc, &mut Reading::new(text.as_bytes())),
    );
}

/// Inputs with words, a card and waits.
const INPUTS: &str = "\
ANGLE 17\n\
LATCH ON\n\
0107 +0000000001 -0000000002\n\
CARD +0000000001 +0000000002 +0000000003 +0000000004 +0000000005 +0000000006 \
+0000000007 +0000000008 +0000000009 +0000000010\n\
WAIT 5\n\
WAIT 0000007\n\
";

#[test]
fn of_texts(rt: HostRuntime) -> Result<(), Fail> {
    holds(
        &rt,
        |alloc| read_whole(alloc, &mut Reading::new(b"abc".as_slice()), 65536),
    );
    // More bytes than are read at once.
    let long = "0123456789".repeat(rt.alloc(), 2000)?;
    holds(
        &rt,
        |alloc| read_whole(alloc, &mut Reading::new(long.as_bytes()), 65536),
    );
    times_hold(&rt, TIMES);
    for subject in &SUBJECTS {
        deck_holds(&rt, subject.deck);
        notes_hold(&rt, &subject.notes(rt.alloc())?);
    }
    inputs_hold(&rt, INPUTS);
    Ok(())
}

/// A fault names a key of the document, which takes memory too.
#[test]
fn of_documents_that_are_refused(rt: HostRuntime) {
    for text in [
        "op = \n",
        "",
        "[op]\n36 = {}\n",
        "[op]\n00 = 1\n",
        "[op]\n00 = { before = 1, after = 0 }\n",
        "[op]\n00 = { before = 0, after = 0, parity = \"any\" }\n",
    ] {
        times_hold(&rt, text);
    }
    for text in [
        "programmed = \n",
        "programmed = \"stop\"\n",
        "\"a.b\" = 1\n",
        "programmed = 1\nload_cards = \"none\"\n",
        "programmed = \"stop\"\nload_cards = \"any\"\n\
        mark = [{ from = 1, to = 1, most = 10000 }]\n",
        "programmed = \"stop\"\nload_cards = \"any\"\nlist = [{ location = 1, pattern = [7] }]\n",
        "programmed = \"stop\"\nload_cards = \"any\"\n\
        mark = [{ from = 1, to = 1, most = 1 }, { from = 1, to = 1, most = 2 }]\n",
    ] {
        notes_hold(&rt, text);
    }
}

/// Marks of long notes with faults of each kind.
const FAULTY: &str = "\
[[mark]]\nedges = [[1, 2], 5, [2000, 8]]\nmost = 10000\ninside = 1\nname = \"a b\"\n\
[[mark]]\nedges = []\nname = 3\ninside = \"d\"\nmore = 1\n\
";

/// Calls with faults of each kind, the last of which is there twice.
const FAULTY_CALLS: &str = "\
[[call]]\nfrom = 1\nto = 2000\nexit = \"a\"\nback = 2\n\
[[call]]\nto = 1\nmore = 1\n\
[[call]]\nfrom = 1\nto = 2\nexit = 3\nback = 4\n\
[[call]]\nfrom = 1\nto = 2\nexit = 3\nback = 5\n\
";

#[test]
fn of_long_notes(rt: HostRuntime) -> Result<(), Fail> {
    for more in [LONG_MARKS, FAULTY, TWO_CALLS, FAULTY_CALLS] {
        let text = format!(in rt.alloc(); "{NOTES}{more}")?;
        long_notes_hold(&rt, &text);
    }
    Ok(())
}

#[test]
fn of_lines_that_are_refused(rt: HostRuntime) {
    for text in ["x\n", "START 0100\n0100 +0000000000\nSTART 0100\n"] {
        deck_holds(&rt, text);
    }
    for text in [
        "0100 +0000000001\nWAIT 5\nANGLE 50\n",
        "0100 +0000000001\n0100 +0000000002\n",
        "WAIT 5\n1999 +0000000001 +0000000002\n",
    ] {
        inputs_hold(&rt, text);
    }
}

/// All that keeps a deck from a bound, and what is lacking.
fn findings(alloc: Global, of: &Documents) -> Result<(Findings, Lacking), Refusal> {
    let findings = Findings::of(alloc, &of.deck, &of.notes)?;
    let lacking = findings.lacking(alloc)?;
    Ok((findings, lacking))
}

/// A replay with these inputs, which are read first.
fn replayed(alloc: Global, of: &Documents, inputs: &str) -> Result<Verdict, Fault> {
    let inputs = read_inputs(alloc, &mut Reading::new(inputs.as_bytes()))?;
    replay(alloc, &of.deck, &of.times, &of.notes, inputs)
}

fn analysis_holds(rt: &(impl AllocGlobal + Abort), of: &Documents) {
    holds(rt, |alloc| analyse(alloc, &of.deck, &of.times, &of.notes));
}

fn bound_holds(rt: &(impl AllocGlobal + Abort), of: &Documents) {
    holds(rt, |alloc| bound(alloc, &of.deck, &of.times, &of.notes));
}

/// The calls of documents, whether they have a bound or not.
fn analyses_hold(rt: &(impl AllocGlobal + Abort), of: &Documents) {
    holds(rt, |alloc| accept(alloc, &of.deck, &of.notes));
    analysis_holds(rt, of);
    bound_holds(rt, of);
    holds(rt, |alloc| reached(alloc, &of.deck, &of.times, &of.notes));
    holds(rt, |alloc| findings(alloc, of));
}

/// A setup with all at zero.
fn setup(alloc: Global) -> Result<Setup, Fail> {
    let zero = Word::new(false, 0).ok_or("a word")?;
    let setup = Setup::new(1, zero, zero, 0, false, true, true, Vec::new(alloc));
    Ok(setup.ok_or("a setup")?)
}

#[test]
fn of_documents(rt: HostRuntime) -> Result<(), Fail> {
    let setup = setup(rt.alloc())?;
    for subject in &SUBJECTS {
        let documents = subject.documents(rt.alloc())?;
        let of = &documents;
        holds(&rt, |alloc| Machine::new(alloc, &of.deck, &setup));
        holds(&rt, |alloc| flow(alloc, &of.deck, &of.notes));
        analyses_hold(&rt, of);
        for inputs in [
            "ANGLE 01\n",
            "ANGLE 01\nACCUMULATOR +00000000000000000001\n",
        ] {
            holds(&rt, |alloc| replayed(alloc, of, inputs));
        }
    }
    Ok(())
}

/// Decks that aren't accepted, with lists that their notes have.
const REFUSED: [(&str, &str); 6] = [
    (STORES, ""),
    ("0100 +8400000106\nSTART 0100\n", ""),
    ("0100 +6901030106\nSTART 0100\n", ""),
    (BRANCH_BACK, ""),
    ("0100 +0000000106\n0106 +0000000100\nSTART 0106\n", ""),
    (TWO_ROADS, ROADS),
];

#[test]
fn of_refusals(rt: HostRuntime) -> Result<(), Fail> {
    for (deck, more) in REFUSED {
        let notes = format!(in rt.alloc(); "{NOTES}{more}")?;
        analyses_hold(&rt, &documents(rt.alloc(), deck, &notes)?);
    }
    Ok(())
}

#[test]
fn of_a_short_wait(rt: HostRuntime) -> Result<(), Fail> {
    analysis_holds(&rt, &documents(rt.alloc(), TWO_WORDS, NOTES)?);
    Ok(())
}

/// The first of two words waits for the card machine, up to 3125 word times.
const PUNCHES: &str = "0100 +7100000106\n0106 +0100000106\nSTART 0100\n";

/// It makes as many requests as [`of_a_short_wait`], though the clock goes on much further.
#[test]
fn of_a_long_wait(rt: HostRuntime) -> Result<(), Fail> {
    analysis_holds(&rt, &documents(rt.alloc(), PUNCHES, NOTES)?);
    Ok(())
}

/// It makes no more requests than [`of_a_short_wait`]: an analysis scans once, and makes a walk.
#[test]
fn of_a_bound_with_a_short_wait(rt: HostRuntime) -> Result<(), Fail> {
    bound_holds(&rt, &documents(rt.alloc(), TWO_WORDS, NOTES)?);
    Ok(())
}

/// It makes as many requests as [`of_a_bound_with_a_short_wait`].
#[test]
fn of_a_bound_with_a_long_wait(rt: HostRuntime) -> Result<(), Fail> {
    bound_holds(&rt, &documents(rt.alloc(), PUNCHES, NOTES)?);
    Ok(())
}
