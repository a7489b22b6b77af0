//! Calls of libraries whose answers no command shows: how many ends of hops an analysis makes, the
//! hops of a location one after the other, and waits in a row. What they are to answer is worked
//! out by hand.

use crate::texts::{
    BACK, BOTH_ROADS, BRANCH_BACK, LOOPS, NESTED, NOTES, ROADS, TIMES, TWO_ROADS, TWO_WORDS,
};
use drum_bound::{Hop, Way, analyse, flow};
use drum_core::{AtAngle, AtParity, Clockwork, Delay, Location, Parity, Reading, Then, read_deck};
use drum_times::{read_notes, read_times};
use std::alloc::{AllocError, Global};
use std::process::Abort;
use std::test::Fail;

// Analyses.

/// That an analysis of a deck, with what its notes say beside the least, makes so many ends of hops
/// for so many entries of the table: for each entry as many as its location has hops.
fn makes(
    rt: &(impl AllocGlobal + Abort),
    deck: &str,
    (lists, marks): (&str, &str),
    (entries, turns): (usize, u64),
) -> Result<(), Fail> {
    let notes = format!(in rt.alloc(); "{NOTES}{lists}{marks}")?;
    let deck = read_deck(rt.alloc(), &mut Reading::new(deck.as_bytes()))?;
    let times = read_times(rt.alloc(), TIMES.as_bytes())?;
    let notes = read_notes(rt.alloc(), notes.as_bytes())?;
    let analysis = analyse(rt.alloc(), &deck, &times, &notes)?;
    assert_eq!(rt;
        (analysis.table().len(), analysis.turns()),
        (entries, turns)
    );
    Ok(())
}

/// A mark that is never passed, on the edge of a word that goes on at itself.
const NEVER: &str = "[[mark]]\nfrom = 100\nto = 100\nmost = 0\n";

/// Marks on both edges of a branch: 10,000 counts of the first, of which each goes on once at most.
const MANY: &str = "\
[[mark]]\nfrom = 100\nto = 100\nmost = 9999\n[[mark]]\nfrom = 100\nto = 110\nmost = 3\n\
";

#[test]
fn turns(rt: HostRuntime) -> Result<(), Fail> {
    // One goes on, the other stops.
    makes(&rt, TWO_WORDS, ("", ""), (2, 2))?;
    // With each of four counts 0100 goes on in two ways, and 0110 stops.
    makes(&rt, BRANCH_BACK, ("", BACK), (8, 12))?;
    makes(&rt, BRANCH_BACK, ("", MANY), (20_000, 30_000))?;
    // A hop that no walk may take is looked at all the same.
    makes(&rt, "0100 +0000000100\nSTART 0100\n", ("", NEVER), (1, 1))?;
    // A read stops where there is no card, and a product where it overflows.
    let reads = "0100 +7000490011\n0011 +0100000011\nSTART 0100\n";
    makes(&rt, reads, ("", ""), (2, 3))?;
    let multiplies = "0100 +1901030106\n0106 +0100000106\nSTART 0100\n";
    makes(&rt, multiplies, ("", ""), (2, 3))?;
    // 0210 may be two words, and is come to with the first mark passed and without.
    makes(&rt, TWO_ROADS, (ROADS, BOTH_ROADS), (8, 10))?;
    // Of six counts each: 0100 and 0110 go on in two ways, and 0120 stops.
    makes(&rt, LOOPS, ("", NESTED), (18, 30))
}

// Hops.

/// What stands for an early stop and for a late one in a list of locations.
const EARLY: u16 = 10_000;

const LATE: u16 = 10_001;

/// Where a hop goes on, or how it stops.
fn end_of(hop: Hop) -> u16 {
    match hop.way {
        Way::Early => EARLY,
        Way::To(location) => location.number(),
        Way::Late => LATE,
    }
}

/// That the hops of a location end so, in this order.
fn ends(
    rt: &(impl AllocGlobal + Abort),
    (deck, notes): (&str, &str),
    location: u16,
    wanted: &[u16],
) -> Result<(), Fail> {
    let deck = read_deck(rt.alloc(), &mut Reading::new(deck.as_bytes()))?;
    let notes = read_notes(rt.alloc(), notes.as_bytes())?;
    let flow = flow(rt.alloc(), &deck, &notes)?;
    let mut hops = flow.hops(Location::new(location).ok_or("a location")?);
    for end in wanted {
        let hop = hops.next().ok_or("a hop")?;
        assert_eq!(rt; end_of(hop), *end);
    }
    assert!(rt; hops.next().is_none());
    Ok(())
}

#[test]
fn hops(rt: HostRuntime) -> Result<(), Fail> {
    // Both ways of a branch lead to one location.
    let both = "0100 +4401060106\n0106 +0100000106\nSTART 0100\n";
    ends(&rt, (both, NOTES), 100, &[106, 106])?;
    // What isn't executed has none.
    ends(&rt, (both, NOTES), 103, &[])?;
    // A load card leads to D.
    let cards = "\
0011 +0100000011\n0049 +0100000049 +0100000050\n0100 +0000000300\nSTART 0100\n\
";
    let reads = "\
programmed = \"stop\"\nload_cards = \"any\"\n[[list]]\nlocation = 300\n\
pattern = [{ op = 70, d_from = 49, d_to = 50, i = 11 }]\n\
";
    ends(&rt, (cards, reads), 300, &[EARLY, 49, 11, EARLY, 50, 11])?;
    // There is no 2000 to load from.
    let goes = "0100 +0000000300\nSTART 0100\n";
    let loads = "\
programmed = \"stop\"\nload_cards = \"none\"\n[[list]]\nlocation = 300\n\
pattern = [{ op = 69, d_from = 2000, d_to = 2000, i = 0 }]\n\
";
    ends(&rt, (goes, loads), 300, &[EARLY])
}

/// A deck that has a stop at all locations of the drum but 0100, which goes on at 0300, and 0300.
fn full_but_one(alloc: Global) -> Result<String, AllocError> {
    let mut text = String::from_str(alloc, "0100 +0000000300\nSTART 0100\n")?;
    for location in 0..=1999u16 {
        if location != 100 && location != 300 {
            write!(text, "{location:04} +0100000000\n")?;
        }
    }
    Ok(text)
}

/// Lists for 0300, a branch on any D and I 0000, and for what isn't on the drum, a stop each.
const BRANCHES: &str = "\
[[list]]\nlocation = 300\npattern = [{ op = 44, d_from = 0, d_to = 9999, i = 0 }]\n\
[[list]]\nlocation = 8000\npattern = [{ op = 1, d_from = 0, d_to = 0, i = 0 }]\n\
[[list]]\nlocation = 8001\npattern = [{ op = 1, d_from = 0, d_to = 0, i = 0 }]\n\
[[list]]\nlocation = 8002\npattern = [{ op = 1, d_from = 0, d_to = 0, i = 0 }]\n\
[[list]]\nlocation = 8003\npattern = [{ op = 1, d_from = 0, d_to = 0, i = 0 }]\n\
";

/// The 20,000 hops of a branch on any D: where D is a location, the branch is taken or not; else it
/// isn't taken, or the run stops.
#[test]
fn hops_of_any_branch(rt: HostRuntime) -> Result<(), Fail> {
    let deck = full_but_one(rt.alloc())?;
    let notes = format!(in rt.alloc(); "{NOTES}{BRANCHES}")?;
    let deck = read_deck(rt.alloc(), &mut Reading::new(deck.as_bytes()))?;
    let notes = read_notes(rt.alloc(), notes.as_bytes())?;
    let flow = flow(rt.alloc(), &deck, &notes)?;
    let mut hops = flow.hops(Location::new(300).ok_or("a location")?);
    for d in 0..=9999u16 {
        let first = hops.next().ok_or("a hop")?;
        let second = hops.next().ok_or("another hop")?;
        let is_location = d < 2000 || (8000..=8003).contains(&d);
        let wanted = if is_location { (d, 0) } else { (0, LATE) };
        assert_eq!(rt; (first.instruction.d(), second.instruction.d()), (d, d));
        assert_eq!(rt; (end_of(first), end_of(second)), wanted, "with D {d}");
    }
    assert!(rt; hops.next().is_none());
    Ok(())
}

// Waits.

/// The moment that a wait goes on to from a clock, within the limits of both.
fn moment<C: Clockwork>(wait: &C, clock: u64) -> Option<u64> {
    if wait.span() <= 1 << 40 && clock <= 1 << 62 {
        Some(wait.go(clock))
    } else {
        None
    }
}

#[test]
fn delays(rt: HostRuntime) -> Result<(), Fail> {
    let longest = Delay::new(1 << 40).ok_or("the longest delay")?;
    assert_eq!(rt; moment(&longest, 1 << 62), Some((1 << 62) + (1 << 40)));
    assert!(rt; Delay::new((1 << 40) + 1).is_none());
    let none = Delay::new(0).ok_or("no delay")?;
    assert!(rt; Then::new(longest, none).is_some());
    let one = Delay::new(1).ok_or("a delay")?;
    assert!(rt; Then::new(longest, one).is_none());
    Ok(())
}

#[test]
fn waits_in_a_row(rt: HostRuntime) -> Result<(), Fail> {
    assert!(rt; AtAngle::new(50).is_none());
    let angle = AtAngle::new(0).ok_or("an angle")?;
    let three = Delay::new(3).ok_or("a delay")?;
    // Angle 0 comes at 50 and at 100.
    let after_angle = Then::new(angle, three).ok_or("two waits")?;
    assert_eq!(rt; moment(&after_angle, 1), Some(53));
    assert_eq!(rt; moment(&after_angle, 50), Some(53));
    assert_eq!(rt; moment(&after_angle, 51), Some(103));
    // Angle 3 comes at 53, and 56 is even.
    let even = Then::new(three, AtParity::new(Parity::Even)).ok_or("two waits")?;
    let angle = AtAngle::new(3).ok_or("an angle")?;
    let all_three = Then::new(angle, even).ok_or("three waits")?;
    assert_eq!(rt; moment(&all_three, 4), Some(56));
    Ok(())
}
