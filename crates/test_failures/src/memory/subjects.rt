//! Decks under notes, with the answers that are known of them.

use crate::texts::{
    BACK, BOTH_ROADS, BRANCH_BACK, LOOPS, NESTED, NOTES, ROADS, TIMES, TWO_ROADS, TWO_WORDS,
};
use drum_core::{Reading, read_deck};
use drum_times::{read_notes, read_times};
use drum_tool::Documents;
use std::alloc::{AllocError, Global};
use std::test::Fail;

/// A deck with what its notes say, and the texts about it, by the timing table that the tests
/// share.
#[derive(Debug)]
pub(crate) struct Subject {
    pub(crate) deck: &'static str,
    /// What the notes say beside the least: lists, and marks.
    pub(crate) lists: &'static str,
    pub(crate) marks: &'static str,
    pub(crate) report: &'static str,
    pub(crate) walk: &'static str,
}

/// The subjects. Their answers are worked out by hand. Of a walk, moment `m` is the drum's angle
/// `m + 1`, since it begins at angle 1; a location comes at its number, 69 and 24 are ready 3
/// later, seek their data and take 3, 45 takes 2 + 1, 00 and 01 take 1.
pub(crate) const SUBJECTS: [Subject; 4] = [
    Subject {
        deck: TWO_WORDS,
        lists: "",
        marks: "",
        report: "\
card 0001 visits 1 time 55\n\
card 0002 visits 1 time 1\n\
other visits 0 time 0\n\
bound 56\n",
        walk: "\
0100 69 0103 0106 to 0106 begun 0 found 49 ready 52 data 52 ended 55\n\
0106 01 0000 0106 late begun 55 found 55 ready 56 data 56 ended 56\n\
bound 56\n",
    },
    Subject {
        deck: BRANCH_BACK,
        lists: "",
        marks: BACK,
        report: "\
card 0001 visits 4 time 202\n\
card 0002 visits 1 time 8\n\
other visits 0 time 0\n\
mark 0100 0100 passed 3 of 3\n\
bound 210\n",
        walk: "\
0100 45 0100 0110 to 0100 begun 0 found 49 ready 51 data 51 ended 52\n\
0100 45 0100 0110 to 0100 begun 52 found 99 ready 101 data 101 ended 102\n\
0100 45 0100 0110 to 0100 begun 102 found 149 ready 151 data 151 ended 152\n\
0100 45 0100 0110 to 0110 begun 152 found 199 ready 201 data 201 ended 202\n\
0110 01 0000 0110 late begun 202 found 209 ready 210 data 210 ended 210\n\
bound 210\n",
    },
    Subject {
        deck: TWO_ROADS,
        lists: ROADS,
        marks: BOTH_ROADS,
        report: "\
card 0001 visits 1 time 102\n\
card 0002 visits 1 time 93\n\
card 0003 visits 1 time 10\n\
card 0004 visits 0 time 0\n\
card 0005 visits 2 time 119\n\
other visits 2 time 96\n\
mark 0210 0110 passed 1 of 1\n\
mark 0210 0120 passed 1 of 1\n\
bound 420\n",
        walk: "\
0100 69 0150 0200 to 0200 begun 0 found 49 ready 52 data 99 ended 102\n\
0200 24 0210 0210 to 0210 begun 102 found 149 ready 152 data 159 ended 162\n\
0210 00 0000 0110 to 0110 begun 162 found 209 ready 210 data 210 ended 210\n\
0110 69 0151 0200 to 0200 begun 210 found 259 ready 262 data 300 ended 303\n\
0200 24 0210 0210 to 0210 begun 303 found 349 ready 352 data 359 ended 362\n\
0210 00 0000 0120 to 0120 begun 362 found 409 ready 410 data 410 ended 410\n\
0120 01 0000 0120 late begun 410 found 419 ready 420 data 420 ended 420\n\
bound 420\n",
    },
    Subject {
        deck: LOOPS,
        lists: "",
        marks: NESTED,
        report: "\
card 0001 visits 6 time 292\n\
card 0002 visits 2 time 20\n\
card 0003 visits 1 time 8\n\
other visits 0 time 0\n\
mark 0110 0100 passed 1 of 1\n\
mark 0100 0100 passed 4 of 2\n\
bound 320\n",
        walk: "\
0100 45 0100 0110 to 0100 begun 0 found 49 ready 51 data 51 ended 52\n\
0100 45 0100 0110 to 0100 begun 52 found 99 ready 101 data 101 ended 102\n\
0100 45 0100 0110 to 0110 begun 102 found 149 ready 151 data 151 ended 152\n\
0110 45 0100 0120 to 0100 begun 152 found 159 ready 161 data 161 ended 162\n\
0100 45 0100 0110 to 0100 begun 162 found 199 ready 201 data 201 ended 202\n\
0100 45 0100 0110 to 0100 begun 202 found 249 ready 251 data 251 ended 252\n\
0100 45 0100 0110 to 0110 begun 252 found 299 ready 301 data 301 ended 302\n\
0110 45 0100 0120 to 0120 begun 302 found 309 ready 311 data 311 ended 312\n\
0120 01 0000 0120 late begun 312 found 319 ready 320 data 320 ended 320\n\
bound 320\n",
    },
];

impl Subject {
    /// Its notes.
    pub(crate) fn notes(&self, alloc: Global) -> Result<String, AllocError> {
        let lists = self.lists;
        let marks = self.marks;
        format!(in alloc; "{NOTES}{lists}{marks}")
    }

    /// Its documents.
    pub(crate) fn documents(&self, alloc: Global) -> Result<Documents, Fail> {
        documents(alloc, self.deck, self.notes(alloc)?.as_str())
    }
}

/// A deck with these notes and the timing table that the tests share.
pub(crate) fn documents(alloc: Global, deck: &str, notes: &str) -> Result<Documents, Fail> {
    Ok(Documents {
        deck: read_deck(alloc, &mut Reading::new(deck.as_bytes()))?,
        times: read_times(alloc, TIMES.as_bytes())?,
        notes: read_notes(alloc, notes.as_bytes())?,
    })
}
