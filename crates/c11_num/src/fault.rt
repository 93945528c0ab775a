/// Why a computation has no result (ISO/IEC 9899:2011, 6.5, 6.5.5 and 6.5.7).
#[derive(Clone, Copy, Debug, PartialEq, Eq)]
pub enum NumFault {
    /// The exact result is outside its signed type.
    Overflow,
    /// A division by 0.
    Divide,
    /// A shift by a negative count, or by the width or more.
    Shift,
}
