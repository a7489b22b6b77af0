/// Which moments of the drum's rotation serve, by their angle.
#[derive(Clone, Copy, Debug, PartialEq, Eq)]
pub enum Parity {
    /// Every moment.
    Any,
    /// Those of even angles.
    Even,
    /// Those of odd angles.
    Odd,
}
