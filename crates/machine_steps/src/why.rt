/// Why a machine stops, in the order in which a step looks for it.
#[derive(Clone, Copy, Debug, PartialEq, Eq)]
pub enum Why {
    /// The operation isn't in the profile.
    Operation,
    /// D isn't an address that the operation takes.
    Operand,
    /// 70 found no card in the reader.
    Card,
    /// A quotient of more than ten digits, or a divisor of 0.
    Quotient,
    /// A sum or a product overflowed, with the overflow switch at STOP.
    Overflow,
    /// 90 to 99 met neither 8 nor 9.
    Digit,
    /// 01, with the programmed switch at STOP.
    Programmed,
    /// The next address is no location.
    Next,
}
