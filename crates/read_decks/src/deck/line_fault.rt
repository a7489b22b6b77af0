ghost use Rattle.std.specs.Prelude.{◌≡◌, None};

/// The fault of a line.
#[derive(Clone, Copy, Debug, PartialEq, Eq)]
pub struct LineFault<F> {
    /// The fault.
    pub fault: F,
    /// The number of the earlier line that says what this one says again, if that is its fault.
    pub earlier: Option<u16>,
}

impl<F> LineFault<F> {
    /// A fault that no earlier line explains.
    pub fn alone(fault: F) -> LineFault<F>
        ensures { result ≡ record { fault = fault; earlier = None } }
    {
        LineFault {
            fault,
            earlier: None,
        }
    }
}
