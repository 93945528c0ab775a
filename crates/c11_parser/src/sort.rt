//! What the tokens of a text are to the grammar.

ghost use Rattle.std.specs.Prelude.{◌≡◌, ◌≤◌, length, map, IfOk, All};
ghost use Rattle.c11_parser.specs.Sorting as spec;
ghost use Rattle.c11_parser.specs.Sorting.{IsInside};

use crate::mark::{is_reserved, mark_of, word_mark};
use c11_ast::Spot;
use c11_grammar::{Lexeme, Mark, Sort};
use c11_lexer::{Token, TokenKind};
use c11_num::{Name, NoMemory};
use std::alloc::Global;

/// A word: reserved, or a name.
fn word(alloc: Global, bytes: &[u8]) -> Result<Sort, NoMemory>
    ensures { IfOk result (λ sort. sort ≡ spec.named (spec.word_mark bytes.now) bytes.now) }
{
    if let Some(mark) = word_mark(bytes) {
        return Ok(Sort::Mark(mark));
    }
    if is_reserved(bytes) {
        return Ok(Sort::Reserved);
    }
    let bytes = Vec::from_slice(alloc, bytes)?;
    Ok(Sort::Name(Name::new(bytes)))
}

/// A punctuator.
fn punctuator(bytes: &[u8]) -> Sort
    ensures { result ≡ spec.marked (spec.mark_of bytes.now) }
{
    match mark_of(bytes) {
        Some(mark) => Sort::Mark(mark),
        None => Sort::Reserved,
    }
}

/// What a token with these bytes is.
fn sort(alloc: Global, kind: &TokenKind, bytes: &[u8]) -> Result<Sort, NoMemory>
    ensures { IfOk result (λ sort. sort ≡ spec.sort_of kind.now bytes.now) }
{
    match kind {
        TokenKind::Word => word(alloc, bytes),
        TokenKind::Literal(value) => Ok(Sort::Literal(*value)),
        TokenKind::Text(bytes) => Ok(Sort::Text(bytes.copy()?)),
        TokenKind::Mark => Ok(punctuator(bytes)),
        TokenKind::Include => Ok(Sort::Mark(Mark::Include)),
        TokenKind::Define => Ok(Sort::Mark(Mark::Define)),
    }
}

/// A token of the source as the grammar sees it.
fn lexeme(alloc: Global, source: &[u8], token: &Token) -> Result<Lexeme, NoMemory>
    requires { IsInside source.now token.now }
    ensures { IfOk result (λ lexeme. lexeme ≡ spec.lexeme_of source.now token.now) }
{
    let (_, from) = source.split_at(token.start as usize);
    let (bytes, _) = from.split_at((token.end - token.start) as usize);
    Ok(Lexeme {
        sort: sort(alloc, &token.kind, bytes)?,
        spot: Spot {
            line: token.line,
            column: token.column,
        },
    })
}

/// The tokens of the source as the grammar sees them.
pub fn lexemes(alloc: Global, source: &[u8], tokens: &[Token]) -> Result<Vec<Lexeme>, NoMemory>
    requires { All (IsInside source.now) tokens.now }
    ensures { IfOk result (λ all. all.items ≡ spec.lexemes source.now tokens.now) }
{
    let mut all = Vec::new(alloc);
    for token in tokens {
        all.push(lexeme(alloc, source, token)?)?;
    }
    Ok(all)
}
