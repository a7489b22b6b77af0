//! What comes in by the doors, one thing after the other: words, a machine under its monitor, and
//! an analysis. What they are to answer is worked out by hand.

use crate::texts::{NOTES, TIMES, TWO_WORDS};
use drum_bound::{Analysis, Flow, Hops, Visit, Way, Worst, accept, analyse, bound};
use drum_core::{
    Clockwork, Deck, Instruction, Kind, Location, Op, Operand, Reading, Seek, Word, read_deck,
};
use drum_machine::{Feed, Machine, Monitor, Setup, Step, Why};
use drum_times::{Entry, Mark, Notes, Programmed, Times, read_notes, read_times};
use std::test::Fail;

#[test]
fn words(rt: HostRuntime) -> Result<(), Fail> {
    let word = Word::read(b"+6901030106").ok_or("a word")?;
    let instruction = Instruction::of(word);
    assert_eq!(rt; (word.minus(), word.position(10)), (false, 6));
    assert_eq!(rt;
        (instruction.op(), instruction.d(), instruction.i()),
        (69, 103, 106)
    );
    let op = Op::of(instruction.op()).ok_or("an operation")?;
    assert_eq!(rt; op.operand(), Operand::Any);
    // 0103 is under the heads at angle 3, 8001 at once.
    let drum = Location::new(instruction.d()).ok_or("a location")?;
    let distributor = Location::new(8001).ok_or("a location")?;
    assert_eq!(rt;
        (drum.kind(), distributor.kind()),
        (Kind::Drum, Kind::Distributor)
    );
    assert_eq!(rt;
        (Seek::of(drum).go(4), Seek::of(distributor).go(4)),
        (53, 4)
    );
    Ok(())
}

#[test]
fn machine(rt: HostRuntime) -> Result<(), Fail> {
    let alloc = rt.alloc();
    let deck: Deck = read_deck(alloc, &mut Reading::new(TWO_WORDS.as_bytes()))?;
    let times: Times = read_times(alloc, TIMES.as_bytes())?;
    let notes: Notes = read_notes(alloc, NOTES.as_bytes())?;
    let zero = Word::new(false, 0).ok_or("a word")?;
    let setup = Setup::new(1, zero, zero, 0, false, true, true, Vec::new(alloc));
    let setup = setup.ok_or("a setup")?;
    let mut monitor = Monitor::new(&notes, &setup);
    let mut feed = Feed::new(Vec::new(alloc), Vec::new(alloc));
    let mut machine = Machine::new(alloc, &deck, &setup)?;
    assert_eq!(rt; machine.used(), 0);
    // Found at clock 50, D at 53, over at 56, from clock 1 on.
    let step = machine.step(&times, &mut feed);
    assert!(rt;
        matches!(
            &step,
            Step::Went {
                used: 55,
                load: false,
                ..
            }
        )
    );
    assert!(rt; monitor.check(&notes, &deck, &step).is_none());
    assert_eq!(rt; machine.used(), 55);
    let step = machine.step(&times, &mut feed);
    assert!(rt;
        matches!(
            &step,
            Step::Stopped {
                why: Why::Programmed,
                used: 56,
                ..
            }
        )
    );
    assert!(rt; monitor.left().is_none());
    Ok(())
}

#[test]
fn analysis(rt: HostRuntime) -> Result<(), Fail> {
    let alloc = rt.alloc();
    let deck = read_deck(alloc, &mut Reading::new(TWO_WORDS.as_bytes()))?;
    let times = read_times(alloc, TIMES.as_bytes())?;
    let notes = read_notes(alloc, NOTES.as_bytes())?;
    let marks: &[Mark] = notes.marks();
    assert_eq!(rt; (marks.len(), notes.programmed()), (0, Programmed::Stop));
    let entry: Entry = times.entry(Op::of(69).ok_or("an operation")?);
    assert_eq!(rt; (entry.before, entry.after), (3, 3));
    let flow: Flow<'_> = accept(alloc, &deck, &notes)?;
    let mut hops: Hops<'_> = flow.hops(deck.start());
    let hop = hops.next().ok_or("a hop")?;
    assert!(rt; matches!(hop.way, Way::To(next) if next.number() == 106));
    let analysis: Analysis = analyse(alloc, &deck, &times, &notes)?;
    let (table, walk): (&[Worst], &[Visit]) = (analysis.table(), analysis.walk());
    assert_eq!(rt; (table.len(), walk.len()), (2, 2));
    assert_eq!(rt;
        (analysis.bound(), bound(alloc, &deck, &times, &notes)?),
        (56, 56)
    );
    Ok(())
}
