//! Commands over files, with what they say. The answers are worked out by hand.

use crate::devices::Tap;
use crate::texts::{NOTES, STOPS, STORES, TIMES, TWO_WORDS};
use drum_tool::Status;

/// A command, its files but for the timing table, how it ends, and what goes out: a result, or a
/// complaint.
pub(crate) struct Subject {
    pub(crate) command: &'static str,
    pub(crate) files: Files,
    pub(crate) status: Status,
    pub(crate) out: &'static str,
    pub(crate) err: &'static str,
}

/// The deck, the notes and the inputs of a command; these are empty where it takes none.
pub(crate) type Files = (&'static str, &'static str, &'static str);

/// The report of the deck of two words, which has 84 bytes.
pub(crate) const REPORT: &str =
    "card 0001 visits 1 time 55\ncard 0002 visits 1 time 1\nother visits 0 time 0\nbound 56\n";

/// 8000 is no location to store at: from clock 50 on 24 is ready at 53, and stops there.
const NOWHERE: &str = "0100 +2480000106\nSTART 0100\n";

/// The same word twice behind the other.
const ROUND: &str = "0100 +0000000106\n0106 +0000000100\nSTART 0100\n";

/// What the two words wait for: the first is found at clock 50, 49 word times on, and its D is
/// there when it is wanted.
const WAITS: &str = "\
0100 69 0103 0106 to 0106 visits 1 time 55 instruction 49 data 0 work 6 data-at 3 next-at 6\n\
0106 01 0000 0106 late visits 1 time 1 instruction 0 data 0 work 1\n\
total work 7 instruction 49 data 0 cards 0\n\
bound 56\n\
";

/// The flow graph of the two words.
const GRAPH: &str = "\
digraph deck {\n\
node [shape=box]\n\
start [shape=point]\n\
start -> 0100\n\
0100 [label=\"0100 69\"]\n\
0100 -> 0106\n\
0106 [label=\"0106 01\" peripheries=2]\n\
}\n\
";

/// Its outline, of one box.
const OUTLINE: &str = "\
digraph deck {\n\
node [shape=box]\n\
start [shape=point]\n\
start -> 0100\n\
0100 [label=\"0100 .. 0106 2 words\" peripheries=2]\n\
}\n\
";

/// From angle 1, 24 is ready at clock 53, and 0106 comes at 56; 56 + 3 = 59, and 0106 comes at 106.
/// There 69 is ready at clock 109, and 0000 comes at 150. The list's one pattern is of 01.
const NO_STOP: &str = "\
step 1 0100 +2401060106 begun 0 found 49 ready 52 data 55 ended 58 \
 accumulator +00000000000000000000 distributor +6900000000 latch off wrote 0106 +6900000000\n\
step 2 0106 +6900000000 begun 58 found 105 ready 108 data 149 ended 152 \
 accumulator +00000000000000000000 distributor +0000000000 latch off\n\
list 0106 patterns-met 0 of 1\n\
left unlisted 0106 +6900000000 step 2 used 58\n\
";

/// The subjects, by each command and with each status.
pub(crate) const SUBJECTS: &[Subject] = &[
    Subject {
        command: "bound",
        files: (TWO_WORDS, NOTES, ""),
        status: Status::Done,
        out: "bound 56\n",
        err: "",
    },
    Subject {
        command: "report",
        files: (TWO_WORDS, NOTES, ""),
        status: Status::Done,
        out: REPORT,
        err: "",
    },
    Subject {
        command: "walk",
        files: (NOWHERE, NOTES, ""),
        status: Status::Done,
        out: "0100 24 8000 0106 early begun 0 found 49 ready 52 ended 52\nbound 52\n",
        err: "",
    },
    Subject {
        command: "waits",
        files: (TWO_WORDS, NOTES, ""),
        status: Status::Done,
        out: WAITS,
        err: "",
    },
    Subject {
        command: "table",
        files: (TWO_WORDS, NOTES, ""),
        status: Status::Done,
        out: "0100 angle 1 counts time 0\n0106 angle 6 counts time 55\n",
        err: "",
    },
    Subject {
        command: "size",
        files: (TWO_WORDS, NOTES, ""),
        status: Status::Done,
        out: "words 2\nhops 2\ncounts 1\nkeys 2\n",
        err: "",
    },
    Subject {
        command: "graph",
        files: (TWO_WORDS, NOTES, ""),
        status: Status::Done,
        out: GRAPH,
        err: "",
    },
    Subject {
        command: "outline",
        files: (TWO_WORDS, NOTES, ""),
        status: Status::Done,
        out: OUTLINE,
        err: "",
    },
    Subject {
        command: "replay",
        files: (TWO_WORDS, NOTES, "ANGLE 01\n"),
        status: Status::Done,
        out: "kept used 56 bound 56 stop programmed\n",
        err: "",
    },
    Subject {
        command: "replay",
        files: (STORES, STOPS, "ANGLE 01\nDISTRIBUTOR +6900000000\n"),
        status: Status::Left,
        out: "left unlisted 0106 +6900000000 step 2 used 58\n",
        err: "",
    },
    Subject {
        command: "replay",
        files: (TWO_WORDS, NOTES, "PROGRAMMED RUN\n"),
        status: Status::Left,
        out: "left switch step 0 used 0\n",
        err: "",
    },
    Subject {
        command: "trace",
        files: (STORES, STOPS, "ANGLE 01\nDISTRIBUTOR +6900000000\n"),
        status: Status::Left,
        out: NO_STOP,
        err: "",
    },
    Subject {
        command: "bound",
        files: (ROUND, NOTES, ""),
        status: Status::Refused,
        out: "",
        err: "fault 35 unbounded 0100 0106\n",
    },
    Subject {
        command: "report",
        files: ("0100 +8400000106\nSTART 0100\n", NOTES, ""),
        status: Status::Refused,
        out: "",
        err: "fault 32 notinprofile 0100 84\n",
    },
    Subject {
        command: "draw",
        files: (STORES, NOTES, ""),
        status: Status::Refused,
        out: "",
        err: "fault 34 alters 0100 0106\n",
    },
    Subject {
        command: "bound",
        files: (
            TWO_WORDS,
            "mark = [{ most = 1 }]\nprogrammed = \"stop\"\nload_cards = \"none\"\n",
            "",
        ),
        status: Status::Refused,
        out: "",
        err: "fault 13 notes missing mark.1.from\n",
    },
    Subject {
        command: "trace",
        files: (TWO_WORDS, NOTES, "0100 +0000000000\n"),
        status: Status::Refused,
        out: "",
        err: "fault 47 inputs loaded 0100\n",
    },
    Subject {
        command: "draw",
        files: (TWO_WORDS, NOTES, "0106 +0000000000\n"),
        status: Status::Refused,
        out: "",
        err: "fault 47 inputs loaded 0106\n",
    },
];

/// The words of a command, and the names of its files.
pub(crate) const WORDS: [&str; 5] = ["replay", "deck", "times", "notes", "inputs"];

/// The files of a command, each under its name.
pub(crate) fn shelf_of<'a>(
    (deck, notes, inputs): (&'a str, &'a str, &'a str),
) -> [(&'a str, Tap<'a>); 4] {
    [
        ("deck", Tap::of(deck.as_bytes())),
        ("times", Tap::of(TIMES.as_bytes())),
        ("notes", Tap::of(notes.as_bytes())),
        ("inputs", Tap::of(inputs.as_bytes())),
    ]
}

impl Subject {
    /// Its words.
    pub(crate) fn words(&self) -> [&'static str; 5] {
        let mut words = WORDS;
        words[0] = self.command;
        words
    }

    /// How many words its command takes.
    pub(crate) fn count(&self) -> usize {
        if self.files.2.is_empty() { 4 } else { 5 }
    }
}
