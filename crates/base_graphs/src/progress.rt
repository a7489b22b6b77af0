ghost use Rattle.std.specs.Prelude.{◌≡◌, ◌↔◌, IsTrue};

/// How far a search has come with a node.
#[derive(Clone, Copy)]
pub enum Progress {
    /// Not met yet.
    New,
    /// On the path.
    Open,
    /// All nodes that its edges lead to are finished.
    Finished,
}

impl Progress {
    ghost use Rattle.base_graphs.specs.declared.progress.Progress.TheVariants.{Finished};

    /// Whether the node is finished.
    pub fn is_finished(self) -> bool
        ensures { IsTrue result ↔ (self ≡ Finished) }
    {
        match self {
            Progress::New | Progress::Open => false,
            Progress::Finished => true,
        }
    }
}
