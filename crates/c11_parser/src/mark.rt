//! Punctuators and reserved words by their spelling (ISO/IEC 9899:2011, 6.4.1 and 6.4.6).

ghost use Rattle.std.specs.Prelude.{◌≡◌};
ghost use Rattle.c11_parser.specs.Sorting as spec;

use c11_grammar::Mark;

/// Operators on numbers.
fn operators(bytes: &[u8]) -> Option<Mark>
    ensures { result ≡ spec.look_up spec.operators bytes.now }
{
    if bytes == b"*".as_slice() {
        Some(Mark::Star)
    } else if bytes == b"/".as_slice() {
        Some(Mark::Slash)
    } else if bytes == b"%".as_slice() {
        Some(Mark::Percent)
    } else if bytes == b"+".as_slice() {
        Some(Mark::Plus)
    } else if bytes == b"-".as_slice() {
        Some(Mark::Minus)
    } else if bytes == b"<<".as_slice() {
        Some(Mark::ShiftLeft)
    } else if bytes == b">>".as_slice() {
        Some(Mark::ShiftRight)
    } else if bytes == b"<".as_slice() {
        Some(Mark::Less)
    } else if bytes == b">".as_slice() {
        Some(Mark::Greater)
    } else if bytes == b"<=".as_slice() {
        Some(Mark::LessEqual)
    } else if bytes == b">=".as_slice() {
        Some(Mark::GreaterEqual)
    } else if bytes == b"==".as_slice() {
        Some(Mark::EqualEqual)
    } else if bytes == b"!=".as_slice() {
        Some(Mark::NotEqual)
    } else {
        None
    }
}

/// The other operators.
fn bit_operators(bytes: &[u8]) -> Option<Mark>
    ensures { result ≡ spec.look_up spec.bit_operators bytes.now }
{
    if bytes == b"&".as_slice() {
        Some(Mark::Ampersand)
    } else if bytes == b"^".as_slice() {
        Some(Mark::Caret)
    } else if bytes == b"|".as_slice() {
        Some(Mark::Bar)
    } else if bytes == b"&&".as_slice() {
        Some(Mark::Both)
    } else if bytes == b"||".as_slice() {
        Some(Mark::Either)
    } else if bytes == b"!".as_slice() {
        Some(Mark::Bang)
    } else if bytes == b"~".as_slice() {
        Some(Mark::Tilde)
    } else if bytes == b"++".as_slice() {
        Some(Mark::Increment)
    } else if bytes == b"--".as_slice() {
        Some(Mark::Decrement)
    } else {
        None
    }
}

/// Operators that assign.
fn assignments(bytes: &[u8]) -> Option<Mark>
    ensures { result ≡ spec.look_up spec.assignments bytes.now }
{
    if bytes == b"=".as_slice() {
        Some(Mark::Set)
    } else if bytes == b"*=".as_slice() {
        Some(Mark::StarSet)
    } else if bytes == b"/=".as_slice() {
        Some(Mark::SlashSet)
    } else if bytes == b"%=".as_slice() {
        Some(Mark::PercentSet)
    } else if bytes == b"+=".as_slice() {
        Some(Mark::PlusSet)
    } else if bytes == b"-=".as_slice() {
        Some(Mark::MinusSet)
    } else if bytes == b"<<=".as_slice() {
        Some(Mark::ShiftLeftSet)
    } else if bytes == b">>=".as_slice() {
        Some(Mark::ShiftRightSet)
    } else if bytes == b"&=".as_slice() {
        Some(Mark::AmpersandSet)
    } else if bytes == b"^=".as_slice() {
        Some(Mark::CaretSet)
    } else if bytes == b"|=".as_slice() {
        Some(Mark::BarSet)
    } else {
        None
    }
}

/// Brackets and what separates.
fn brackets(bytes: &[u8]) -> Option<Mark>
    ensures { result ≡ spec.look_up spec.brackets bytes.now }
{
    if bytes == b"(".as_slice() {
        Some(Mark::LeftParen)
    } else if bytes == b")".as_slice() {
        Some(Mark::RightParen)
    } else if bytes == b"[".as_slice() {
        Some(Mark::LeftSquare)
    } else if bytes == b"]".as_slice() {
        Some(Mark::RightSquare)
    } else if bytes == b"{".as_slice() {
        Some(Mark::LeftBrace)
    } else if bytes == b"}".as_slice() {
        Some(Mark::RightBrace)
    } else if bytes == b",".as_slice() {
        Some(Mark::Comma)
    } else if bytes == b";".as_slice() {
        Some(Mark::Semicolon)
    } else if bytes == b"?".as_slice() {
        Some(Mark::Question)
    } else if bytes == b":".as_slice() {
        Some(Mark::Colon)
    } else {
        None
    }
}

/// Words of declarations.
fn type_words(bytes: &[u8]) -> Option<Mark>
    ensures { result ≡ spec.look_up spec.type_words bytes.now }
{
    if bytes == b"int".as_slice() {
        Some(Mark::Int)
    } else if bytes == b"unsigned".as_slice() {
        Some(Mark::Unsigned)
    } else if bytes == b"long".as_slice() {
        Some(Mark::Long)
    } else if bytes == b"void".as_slice() {
        Some(Mark::Void)
    } else if bytes == b"static".as_slice() {
        Some(Mark::Static)
    } else if bytes == b"_Atomic".as_slice() {
        Some(Mark::Atomic)
    } else if bytes == b"atomic_int".as_slice() {
        Some(Mark::AtomicInt)
    } else if bytes == b"atomic_uint".as_slice() {
        Some(Mark::AtomicUint)
    } else if bytes == b"atomic_long".as_slice() {
        Some(Mark::AtomicLong)
    } else if bytes == b"atomic_ulong".as_slice() {
        Some(Mark::AtomicUlong)
    } else if bytes == b"mtx_t".as_slice() {
        Some(Mark::MtxT)
    } else if bytes == b"thrd_t".as_slice() {
        Some(Mark::ThrdT)
    } else if bytes == b"ATOMIC_VAR_INIT".as_slice() {
        Some(Mark::AtomicVarInit)
    } else {
        None
    }
}

/// Words of statements.
fn statement_words(bytes: &[u8]) -> Option<Mark>
    ensures { result ≡ spec.look_up spec.statement_words bytes.now }
{
    if bytes == b"if".as_slice() {
        Some(Mark::If)
    } else if bytes == b"else".as_slice() {
        Some(Mark::Else)
    } else if bytes == b"while".as_slice() {
        Some(Mark::While)
    } else if bytes == b"do".as_slice() {
        Some(Mark::Do)
    } else if bytes == b"for".as_slice() {
        Some(Mark::For)
    } else if bytes == b"break".as_slice() {
        Some(Mark::Break)
    } else if bytes == b"continue".as_slice() {
        Some(Mark::Continue)
    } else if bytes == b"return".as_slice() {
        Some(Mark::Return)
    } else {
        None
    }
}

/// The punctuator with this spelling.
pub fn mark_of(bytes: &[u8]) -> Option<Mark>
    ensures { result ≡ spec.mark_of bytes.now }
{
    if let Some(mark) = brackets(bytes) {
        return Some(mark);
    }
    if let Some(mark) = operators(bytes) {
        return Some(mark);
    }
    if let Some(mark) = assignments(bytes) {
        return Some(mark);
    }
    bit_operators(bytes)
}

/// The reserved word with this spelling, where the grammar uses it.
pub fn word_mark(bytes: &[u8]) -> Option<Mark>
    ensures { result ≡ spec.word_mark bytes.now }
{
    if let Some(mark) = statement_words(bytes) {
        return Some(mark);
    }
    type_words(bytes)
}

fn is_other_keywords(bytes: &[u8]) -> bool
    ensures { result ≡ spec.is_one_of spec.other_keywords bytes.now }
{
    bytes == b"auto".as_slice()
        || bytes == b"case".as_slice()
        || bytes == b"char".as_slice()
        || bytes == b"const".as_slice()
        || bytes == b"default".as_slice()
        || bytes == b"double".as_slice()
        || bytes == b"enum".as_slice()
        || bytes == b"extern".as_slice()
        || bytes == b"float".as_slice()
        || bytes == b"goto".as_slice()
        || bytes == b"inline".as_slice()
        || bytes == b"register".as_slice()
        || bytes == b"restrict".as_slice()
        || bytes == b"short".as_slice()
        || bytes == b"signed".as_slice()
}

fn is_more_keywords(bytes: &[u8]) -> bool
    ensures { result ≡ spec.is_one_of spec.more_keywords bytes.now }
{
    bytes == b"sizeof".as_slice()
        || bytes == b"struct".as_slice()
        || bytes == b"switch".as_slice()
        || bytes == b"typedef".as_slice()
        || bytes == b"union".as_slice()
        || bytes == b"volatile".as_slice()
        || bytes == b"_Alignas".as_slice()
        || bytes == b"_Alignof".as_slice()
        || bytes == b"_Bool".as_slice()
        || bytes == b"_Complex".as_slice()
        || bytes == b"_Generic".as_slice()
        || bytes == b"_Imaginary".as_slice()
        || bytes == b"_Noreturn".as_slice()
        || bytes == b"_Static_assert".as_slice()
        || bytes == b"_Thread_local".as_slice()
}

fn is_foreign(bytes: &[u8]) -> bool
    ensures { result ≡ spec.is_foreign bytes.now }
{
    bytes.iter().any(|b| *b >= 128)
}

/// Whether a word that the grammar does not use is no name either.
pub fn is_reserved(bytes: &[u8]) -> bool
    ensures { result ≡ spec.is_reserved bytes.now }
{
    is_other_keywords(bytes) || is_more_keywords(bytes) || is_foreign(bytes)
}
