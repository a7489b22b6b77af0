/// A device failed. What else the system says of it isn't looked at.
#[derive(Clone, Copy, Debug, PartialEq, Eq)]
pub struct Failed;
