use crate::Many;
use crate::place::{Spot, Word};
use c11_num::{BinaryOp, Bytes, CType, CValue};
use sqlite_items::Boxed;

/// A variable, or an element of an array (ISO/IEC 9899:2011, 6.5.2.1).
#[cycle(expr)]
#[derive(Debug, Drop)]
pub struct Target {
    pub word: Word,
    pub index: Option<Boxed<Expr>>,
}

/// An operator between two operands.
#[derive(Clone, Copy, Debug, PartialEq, Eq)]
pub enum Infix {
    /// An operator on numbers.
    Number(BinaryOp),
    /// `&&`
    Both,
    /// `||`
    Either,
}

/// An operator of a chain, where it stands, and its right operand.
#[cycle(expr)]
#[derive(Debug, Drop)]
pub struct Link {
    pub op: Infix,
    /// The operator's place.
    pub spot: Spot,
    pub right: Expr,
}

/// An operator before its operand (ISO/IEC 9899:2011, 6.5.3.3).
#[derive(Clone, Copy, Debug, PartialEq, Eq)]
pub enum Prefix {
    /// `-`
    Minus,
    /// `+`
    Plus,
    /// `!`
    Not,
    /// `~`
    Flip,
}

/// What a cast leads to (ISO/IEC 9899:2011, 6.5.4).
#[derive(Clone, Copy, Debug, PartialEq, Eq)]
pub enum CastTo {
    /// An integer type.
    Number(CType),
    /// `void`
    Void,
    /// `void *`
    VoidPointer,
}

/// An argument of a call (ISO/IEC 9899:2011, 6.5.2.2).
#[cycle(expr)]
#[derive(Debug, Drop)]
pub enum Arg {
    /// `&` and a variable or an element.
    Address {
        /// The place of the `&`.
        spot: Spot,
        target: Target,
    },
    /// A string literal.
    Text {
        spot: Spot,
        /// The bytes that it stands for.
        bytes: Bytes,
    },
    Value(Expr),
}

/// An expression (ISO/IEC 9899:2011, 6.5).
#[cycle(expr)]
#[derive(Debug, Drop)]
pub enum Expr {
    /// `target = value`, or with an operator before the `=`.
    Assign {
        target: Target,
        /// The operator before the `=`, if there is one.
        op: Option<BinaryOp>,
        /// The place of the operator and `=`.
        op_spot: Spot,
        value: Boxed<Expr>,
    },
    /// `test ? yes : no`
    Cond {
        test: Boxed<Expr>,
        yes: Boxed<Expr>,
        no: Boxed<Expr>,
    },
    /// Operands with binary operators of one level between them, from left to right: one link at least.
    Chain {
        first: Boxed<Expr>,
        rest: Many<Link>,
    },
    /// An operator and its operand.
    Prefix {
        spot: Spot,
        op: Prefix,
        inner: Boxed<Expr>,
    },
    /// `++` or `--`, before or behind its target.
    Step {
        spot: Spot,
        /// The place of the `++` or `--`.
        op_spot: Spot,
        target: Target,
        /// Whether it is `++`.
        up: bool,
        /// Whether it stands before the target.
        before: bool,
    },
    /// `(type) inner`
    Cast {
        spot: Spot,
        to: CastTo,
        inner: Boxed<Expr>,
    },
    /// `word(args)`
    Call {
        word: Word,
        args: Many<Arg>,
    },
    /// An integer constant.
    Literal {
        spot: Spot,
        value: CValue,
    },
    /// The value of a variable or an element.
    Read(Target),
    /// `(inner)`
    Paren {
        spot: Spot,
        inner: Boxed<Expr>,
    },
}
