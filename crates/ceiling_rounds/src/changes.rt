//! What hops do to the counts of all marks.

ghost use Rattle.std.specs.Prelude.{◌≡◌, ◌<◌, ◌≤◌, map, length, IfOk, IfSome, IsTrue};
ghost use Rattle.machine_steps.specs.Counts.{no_counts, AreWithin};
ghost use Rattle.ceiling_rounds.specs.Change as said;
ghost use Rattle.ceiling_rounds.specs.Change.{AreFollowedAt};
ghost use Rattle.ceiling_rounds.specs.Stretch as hop;

use crate::change::Change;
use base_notes::Mark;
use machine_steps::is_inside;
use std::alloc::{AllocError, Global};

/// What a hop does to the count of the mark with this index, by the index of the mark that it
/// passes.
fn change_by(marks: &[Mark], passed: Option<usize>, index: usize) -> Change
    requires { index < length marks.now }
    ensures { result ≡ hop.change_by marks.now passed index }
{
    let Some(passed) = passed else {
        return Change::Rise(0);
    };
    if index == passed {
        return Change::Rise(1);
    }
    if is_inside(marks, index, passed) {
        return Change::SetBack {
            passes: 0,
            rise: 0,
            highest: 0,
            last: 0,
        };
    }
    Change::Rise(0)
}

/// What a hop does to the counts of all marks, by the index of the mark that it passes.
pub fn changes_by(
    alloc: Global,
    marks: &[Mark],
    passed: Option<usize>,
) -> Result<Vec<Change>, AllocError>
    ensures { IfOk result (λ changes. changes.items ≡ hop.changes_by marks.now passed 0 marks.now) }
{
    let mut changes = Vec::new(alloc);
    for index in 0..marks.len() {
        changes.push(change_by(marks, passed, index))?;
    }
    Ok(changes)
}

/// The changes at an index, one after the other; `None` where there are none, or no room for so
/// many passes.
fn followed_at(changes: &[Change], others: &[Change], index: usize) -> Option<Change>
    ensures { IfSome result (λ both. AreFollowedAt changes.now others.now index both) }
{
    let one = changes.get(index)?;
    let other = others.get(index)?;
    let both = one.then(*other)?;
    Some(both)
}

/// Changes and then as many others; `None` where there is no room for so many passes.
pub fn followed(
    alloc: Global,
    changes: &[Change],
    others: &[Change],
) -> Result<Option<Vec<Change>>, AllocError>
    requires { length changes.now ≡ length others.now }
    ensures { IfOk result (λ made. IfSome made (λ all.
        all.items ≡ said.all_followed changes.now others.now)) }
{
    let mut all = Vec::new(alloc);
    for index in 0..changes.len() {
        let Some(both) = followed_at(changes, others, index) else {
            return Ok(None);
        };
        all.push(both)?;
    }
    Ok(Some(all))
}

/// So many rounds of changes, one at least; `None` where there is no room for so many passes.
pub fn over_rounds(
    alloc: Global,
    changes: &[Change],
    times: u16,
) -> Result<Option<Vec<Change>>, AllocError>
    ensures { IfOk result (λ made. IfSome made (λ all.
        all.items ≡ map (said.over_rounds times) changes.now)) }
{
    let mut all = Vec::new(alloc);
    for change in changes {
        let Some(whole) = change.over_rounds(times) else {
            return Ok(None);
        };
        all.push(whole)?;
    }
    Ok(Some(all))
}

/// Whether a count that begins at 0 never gets above this most.
fn is_within(change: Change, most: u16) -> bool
    ensures { IsTrue result → said.peak change 0 ≤ most }
{
    match change.peak_from(0) {
        Some(peak) => peak <= u32::from(most),
        None => false,
    }
}

/// Whether counts that begin at 0 are never above what the marks allow.
pub fn are_within(marks: &[Mark], changes: &[Change]) -> bool
    requires { length changes.now ≡ length marks.now }
    ensures { IsTrue result
        → AreWithin marks.now (said.peaks changes.now (no_counts marks.now)) }
{
    for (index, mark) in marks.iter().enumerate() {
        let Some(change) = changes.get(index) else {
            return false;
        };
        if !is_within(*change, mark.most) {
            return false;
        }
    }
    true
}

/// How often each mark is passed.
pub fn passes_of(alloc: Global, changes: &[Change]) -> Result<Vec<u128>, AllocError>
    ensures { IfOk result (λ passes. passes.items ≡ map said.passes_by changes.now) }
{
    changes.iter().map(|change| change.passes()).collect(alloc)
}
