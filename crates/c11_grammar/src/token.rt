use c11_ast::Spot;
use c11_num::{Bytes, CValue, Name};

/// A punctuator, a reserved word that the grammar uses, or the beginning of a directive.
#[derive(Clone, Copy, Debug, PartialEq, Eq)]
pub enum Mark {
    /// `*`
    Star,
    /// `/`
    Slash,
    /// `%`
    Percent,
    /// `+`
    Plus,
    /// `-`
    Minus,
    /// `<<`
    ShiftLeft,
    /// `>>`
    ShiftRight,
    /// `<`
    Less,
    /// `>`
    Greater,
    /// `<=`
    LessEqual,
    /// `>=`
    GreaterEqual,
    /// `==`
    EqualEqual,
    /// `!=`
    NotEqual,
    /// `&`
    Ampersand,
    /// `^`
    Caret,
    /// `|`
    Bar,
    /// `&&`
    Both,
    /// `||`
    Either,
    /// `=`
    Set,
    /// `*=`
    StarSet,
    /// `/=`
    SlashSet,
    /// `%=`
    PercentSet,
    /// `+=`
    PlusSet,
    /// `-=`
    MinusSet,
    /// `<<=`
    ShiftLeftSet,
    /// `>>=`
    ShiftRightSet,
    /// `&=`
    AmpersandSet,
    /// `^=`
    CaretSet,
    /// `|=`
    BarSet,
    /// `!`
    Bang,
    /// `~`
    Tilde,
    /// `++`
    Increment,
    /// `--`
    Decrement,
    /// `?`
    Question,
    /// `:`
    Colon,
    /// `,`
    Comma,
    /// `;`
    Semicolon,
    /// `(`
    LeftParen,
    /// `)`
    RightParen,
    /// `[`
    LeftSquare,
    /// `]`
    RightSquare,
    /// `{`
    LeftBrace,
    /// `}`
    RightBrace,
    /// `int`
    Int,
    /// `unsigned`
    Unsigned,
    /// `long`
    Long,
    /// `void`
    Void,
    /// `static`
    Static,
    /// `_Atomic`
    Atomic,
    /// `atomic_int`
    AtomicInt,
    /// `atomic_uint`
    AtomicUint,
    /// `atomic_long`
    AtomicLong,
    /// `atomic_ulong`
    AtomicUlong,
    /// `mtx_t`
    MtxT,
    /// `thrd_t`
    ThrdT,
    /// `ATOMIC_VAR_INIT`
    AtomicVarInit,
    /// `if`
    If,
    /// `else`
    Else,
    /// `while`
    While,
    /// `do`
    Do,
    /// `for`
    For,
    /// `break`
    Break,
    /// `continue`
    Continue,
    /// `return`
    Return,
    /// `#include <H>`, whole.
    Include,
    /// `#define`; its name and its literal follow.
    Define,
}

/// What a token is to the grammar.
#[derive(Debug, Drop)]
pub enum Sort {
    /// A word that is not reserved.
    Name(Name),
    /// An integer constant.
    Literal(CValue),
    /// A string literal, with the bytes that it stands for.
    Text(Bytes),
    Mark(Mark),
    /// A reserved word that no program has.
    Reserved,
}

/// A token as the grammar sees it, and where it stands.
#[derive(Debug, Drop)]
pub struct Lexeme {
    pub sort: Sort,
    pub spot: Spot,
}
