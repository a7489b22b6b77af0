ghost use Rattle.std.specs.Prelude.{◌≡◌};
ghost use Rattle.print_lines.specs.Status.{code_of, status_of};

use machine_steps::Verdict;

/// How the program ends.
#[derive(Clone, Copy, Debug, PartialEq, Eq)]
pub enum Status {
    /// 0: done.
    Done,
    /// 1: the deck, the times, the notes, the inputs or the joined form were refused.
    Refused,
    /// 2: the command line was refused.
    Usage,
    /// 3: a file, the memory or a write failed.
    Failed,
    /// 4: a replay left the notes.
    Left,
}

impl Status {
    /// The exit code, 0 to 4.
    pub fn code(self) -> u8
        ensures { result ≡ code_of self }
    {
        match self {
            Status::Done => 0,
            Status::Refused => 1,
            Status::Usage => 2,
            Status::Failed => 3,
            Status::Left => 4,
        }
    }

    /// The status with which the program ends with this verdict.
    pub fn after(verdict: &Verdict) -> Status
        ensures { result ≡ status_of verdict.now }
    {
        match verdict {
            Verdict::Kept { .. } => Status::Done,
            Verdict::Left { .. } => Status::Left,
        }
    }
}
