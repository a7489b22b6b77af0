/// By what it is known how many word times a run that keeps to the notes uses at most.
#[derive(Clone, Copy, Debug)]
pub enum Limit {
    /// By the bound: some walk takes exactly as many word times, and none takes more.
    Bound,
    /// By a ceiling, which may lie above what any walk takes.
    Ceiling,
}
