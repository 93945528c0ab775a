/// What a read-modify-write makes of the old value and its operand (ISO/IEC 9899:2011, 7.17.7.3 and 7.17.7.5).
#[derive(Clone, Copy, Debug, PartialEq, Eq)]
pub enum RmwKind {
    /// The operand itself, as of `atomic_exchange`.
    Exchange,
    /// The sum.
    Add,
    /// The difference.
    Sub,
    /// The bits that both have.
    And,
    /// The bits that either has.
    Or,
    /// The bits that exactly one has.
    Xor,
}

/// A binary operator on numbers (ISO/IEC 9899:2011, 6.5.5 to 6.5.12).
#[derive(Clone, Copy, Debug, PartialEq, Eq)]
pub enum BinaryOp {
    /// `*`
    Mul,
    /// `/`
    Div,
    /// `%`
    Rem,
    /// `+`
    Add,
    /// `-`
    Sub,
    /// `<<`
    Shl,
    /// `>>`
    Shr,
    /// `<`
    Lt,
    /// `>`
    Gt,
    /// `<=`
    Le,
    /// `>=`
    Ge,
    /// `==`
    Eq,
    /// `!=`
    Ne,
    /// `&`
    And,
    /// `^`
    Xor,
    /// `|`
    Or,
}
