//! The commands that there are, each as one entry of a list.
ghost use Rattle.std.specs.Prelude.{◌≡◌, map};
ghost use Rattle.program_command.specs.Entry.{verb_of};
ghost use Rattle.program_command.specs.Line.{verbs};

/// A file that a command names.
#[derive(Clone, Copy)]
pub(crate) struct FileWord {
    /// What the help calls it, and what clap finds it by.
    pub(crate) name: &'static str,
    /// What it is.
    pub(crate) help: &'static str,
    /// Whether it has to be named.
    pub(crate) needed: bool,
}

/// A command: its name, what the help says of it, and the files that it names.
#[derive(Clone, Copy)]
pub(crate) struct Entry {
    pub(crate) name: &'static str,
    /// What it prints, in a line.
    pub(crate) about: &'static str,
    /// A line as an example.
    pub(crate) example: &'static str,
    pub(crate) files: &'static [FileWord],
}

pub(crate) const DECK: FileWord = FileWord {
    name: "DECK",
    help: "The deck: cards for the drum of an IBM 650, one on each line",
    needed: true,
};

pub(crate) const TIMES: FileWord = FileWord {
    name: "TIMES",
    help: "The timing table: TOML, how many word times each operation takes",
    needed: true,
};

pub(crate) const NOTES: FileWord = FileWord {
    name: "NOTES",
    help: "The notes: TOML, bounds on loops, and what altered words may become",
    needed: true,
};

pub(crate) const INPUTS: FileWord = FileWord {
    name: "INPUTS",
    help: "The inputs: what the replayed run finds in the machine, and the cards that it reads",
    needed: true,
};

/// The inputs of a run, for a command that may do without them.
const INPUTS_TOO: FileWord = FileWord {
    name: "INPUTS",
    help: "The inputs of a replay, to be looked at too",
    needed: false,
};

/// The inputs of a run, for a command that draws the worst walk without them.
const INPUTS_DRAWN: FileWord = FileWord {
    name: "INPUTS",
    help: "The inputs of a replay, whose run is drawn in place of the worst walk",
    needed: false,
};

/// The files that every command works on.
const COMMON_FILES: &[FileWord] = &[DECK, TIMES, NOTES];

/// The files of a command that lets the deck run.
const RUN_FILES: &[FileWord] = &[DECK, TIMES, NOTES, INPUTS];

/// The files of a command that looks at inputs where they are named.
const CHECK_FILES: &[FileWord] = &[DECK, TIMES, NOTES, INPUTS_TOO];

/// The files of a command that draws the run of inputs where they are named.
const DRAW_FILES: &[FileWord] = &[DECK, TIMES, NOTES, INPUTS_DRAWN];

/// Each command that there is.
pub(crate) fn entries() -> &'static [Entry]
    ensures { map verb_of result.now ≡ verbs }
{
    &[
        Entry {
            name: "bound",
            about: "Prints `bound W`: no run that keeps to the notes takes more than W word times",
            example: "Example: drum650 bound deck.txt times.toml notes.toml",
            files: COMMON_FILES,
        },
        Entry {
            name: "check",
            about: "Prints all that keeps the deck from a bound, and what the notes lack",
            example: "Example: drum650 check deck.txt times.toml notes.toml inputs.txt",
            files: CHECK_FILES,
        },
        Entry {
            name: "report",
            about: "Prints where the worst walk spends its word times, card by card",
            example: "Example: drum650 report deck.txt times.toml notes.toml",
            files: COMMON_FILES,
        },
        Entry {
            name: "walk",
            about: "Prints the worst walk, a line for each instruction, with its waits",
            example: "Example: drum650 walk deck.txt times.toml notes.toml",
            files: COMMON_FILES,
        },
        Entry {
            name: "waits",
            about: "Prints what each instruction of the worst walk waits for, the dearest first",
            example: "Example: drum650 waits deck.txt times.toml notes.toml",
            files: COMMON_FILES,
        },
        Entry {
            name: "table",
            about: "Prints when each location is come to at the latest, by the marks' counts",
            example: "Example: drum650 table deck.txt times.toml notes.toml",
            files: COMMON_FILES,
        },
        Entry {
            name: "size",
            about: "Prints how many words, hops, counts and entries of the table there are",
            example: "Example: drum650 size deck.txt times.toml notes.toml",
            files: COMMON_FILES,
        },
        Entry {
            name: "graph",
            about: "Prints the flow graph, in the language DOT",
            example: "Example: drum650 graph deck.txt times.toml notes.toml | dot -Tsvg > g.svg",
            files: COMMON_FILES,
        },
        Entry {
            name: "outline",
            about: "Prints the flow graph with straight runs of words as one box",
            example: "Example: drum650 outline deck.txt times.toml notes.toml | dot -Tsvg > o.svg",
            files: COMMON_FILES,
        },
        Entry {
            name: "draw",
            about: "Prints a picture, in SVG, of the drum and of the worst walk, or of a run",
            example: "Example: drum650 draw deck.txt times.toml notes.toml > picture.svg",
            files: DRAW_FILES,
        },
        Entry {
            name: "ceiling",
            about: "Prints `ceiling C`: a bound that may be too high, for counts of any size",
            example: "Example: drum650 ceiling deck.txt times.toml notes.toml",
            files: COMMON_FILES,
        },
        Entry {
            name: "replay",
            about: "Lets the deck run once on inputs, and prints the verdict on that run",
            example: "Example: drum650 replay deck.txt times.toml notes.toml inputs.txt",
            files: RUN_FILES,
        },
        Entry {
            name: "trace",
            about: "Lets the deck run as `replay` does, and prints each step, with the registers",
            example: "Example: drum650 trace deck.txt times.toml notes.toml inputs.txt",
            files: RUN_FILES,
        },
    ]
}
