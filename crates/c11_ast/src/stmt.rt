use crate::Many;
use crate::expr::Expr;
use crate::place::{Place, Spot};
use c11_num::CType;
use sqlite_items::Boxed;

/// A declared local: an array, or a variable that may have a start.
#[derive(Debug, Drop)]
pub struct Local {
    pub place: Place,
    pub start: Option<Expr>,
}

/// A test, and what is done where it holds.
#[cycle(stmt)]
#[derive(Debug, Drop)]
pub struct Arm {
    pub test: Expr,
    pub body: Stmt,
}

/// Declarations and statements in braces (ISO/IEC 9899:2011, 6.8.2).
#[cycle(stmt)]
#[derive(Debug, Drop)]
pub struct Block {
    pub spot: Spot,
    pub items: Many<Stmt>,
    /// The place of the closing brace.
    pub close: Spot,
}

/// A statement, or a declaration in a block (ISO/IEC 9899:2011, 6.8 and 6.7).
#[cycle(stmt)]
#[derive(Debug, Drop)]
pub enum Stmt {
    Block(Block),
    /// `;`
    Empty(Spot),
    /// An expression and `;`.
    Expr(Expr),
    /// An `if`, with its chain of `else if`.
    If {
        spot: Spot,
        /// The tests in their order, one at least.
        arms: Many<Arm>,
        /// What the last `else` has.
        otherwise: Option<Boxed<Stmt>>,
    },
    While {
        spot: Spot,
        test: Expr,
        body: Boxed<Stmt>,
    },
    Do {
        spot: Spot,
        body: Boxed<Stmt>,
        test: Expr,
    },
    For {
        spot: Spot,
        /// An `Expr`, a `Locals` or a `Handles`.
        start: Option<Boxed<Stmt>>,
        test: Option<Expr>,
        next: Option<Expr>,
        body: Boxed<Stmt>,
    },
    Break(Spot),
    Continue(Spot),
    Return {
        spot: Spot,
        value: Option<Expr>,
    },
    /// Variables and arrays of an integer type.
    Locals {
        spot: Spot,
        ctype: CType,
        locals: Many<Local>,
    },
    /// `thrd_t` and its names.
    Handles {
        spot: Spot,
        places: Many<Place>,
    },
}
