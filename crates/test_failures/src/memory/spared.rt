//! Calls that take no memory, though what they are made on holds some: each answers as ever where
//! every request is refused, and `checks/refuse-memory` sees that there was none. What can't say
//! that memory is lacking, such as a step of the machine, has its answer by its contract, whatever
//! memory there is; here are those of which a document says that they take none: whole reports and
//! walks.

use crate::memory::subjects::{SUBJECTS, Subject};
use crate::memory::window::{close_spared, open};
use crate::page::Page;
use drum_bound::{Analysis, analyse};
use drum_core::Writing;
use drum_tool::{Documents, report};
use print_lines::Sheet;
use print_walks::put_walk;
use std::process::Abort;
use std::test::Fail;

/// The report of an analysis, where all of it went out.
fn reported(analysis: &Analysis, of: &Documents) -> Option<Page> {
    let mut out = Writing::new(Page::new());
    report(analysis, &of.deck, &of.notes, &mut out).ok()?;
    Some(out.writer)
}

/// The lines of the worst walk, where all of them went out.
fn listed(analysis: &Analysis, of: &Documents) -> Option<Page> {
    let mut out = Writing::new(Page::new());
    let mut sheet = Sheet::new();
    put_walk(&mut sheet, &mut out, analysis, &of.times);
    sheet.finish(&mut out).ok()?;
    Some(out.writer)
}

/// That a page is there and has this text.
fn reads(rt: &impl Abort, page: Option<Page>, text: &str) {
    assert!(rt; page.is_some_and(|page| page.is(text)), "{text}");
}

/// That the report and the worst walk of a subject are as they are known.
fn reports(rt: &(impl AllocGlobal + Abort), subject: &Subject) -> Result<(), Fail> {
    let documents = subject.documents(rt.alloc())?;
    let (deck, times, notes) = (&documents.deck, &documents.times, &documents.notes);
    let analysis = analyse(rt.alloc(), deck, times, notes)?;
    open(rt);
    let report = reported(&analysis, &documents);
    let walk = listed(&analysis, &documents);
    close_spared(rt);
    reads(rt, report, subject.report);
    reads(rt, walk, subject.walk);
    Ok(())
}

#[test]
fn of_subjects(rt: HostRuntime) -> Result<(), Fail> {
    for subject in &SUBJECTS {
        reports(&rt, subject)?;
    }
    Ok(())
}
