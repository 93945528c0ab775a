//! The tokens of a text, piece after piece.

ghost use Rattle.std.specs.Prelude.{◌≡◌, ◌≢◌, ◌≤◌, ◌<◌, ◌+◌, ◌^◌, length, Ok, Err, IfOk, IfErr, MatchResult};
ghost use Rattle.c11_lexer.specs.declared.piece.Piece.TheVariants as p;
ghost use Rattle.c11_lexer.specs.declared.token.LexFault.TheVariants as fault_of;
ghost use Rattle.c11_lexer.specs.Scan as spec;

use crate::bytes::inline_run;
use crate::cursor::Cursor;
use crate::directive::{directive, is_word};
use crate::number::literal;
use crate::piece::{Piece, front};
use crate::place::advance;
use crate::token::{LexFault, Token, TokenKind};
use c11_num::NoMemory;
use std::alloc::Global;

/// What a piece gives.
#[derive(Debug, Drop)]
pub enum Outcome {
    /// No token.
    Gap,
    /// A token of this kind.
    Token(TokenKind),
    /// The end of the scan.
    Fault(LexFault),
}

/// The bytes before the next line feed.
fn line_of(text: &[u8]) -> &[u8]
    ensures { result.now ≡ spec.line_of text.now }
{
    let (line, _) = text.split_at(inline_run(text));
    line
}

/// Whether the text begins with a `#` that is the first of its line.
fn leads(at: Cursor, text: &[u8]) -> bool
    ensures { result ≡ spec.leads at text.now }
{
    match text {
        [b'#', ..] => at.token_line < at.line,
        _ => false,
    }
}

/// The piece here, and its length.
fn front_at(alloc: Global, at: Cursor, text: &[u8]) -> Result<(Piece, usize), NoMemory>
    requires { 0 < length text.now }
    ensures { IfOk result (λ found. spec.Front at text.now found.1 found.0) }
{
    if !leads(at, text) {
        return front(alloc, text);
    }
    match directive(alloc, line_of(text))? {
        Some(found) => Ok(found),
        None => Ok((Piece::NoDirective, 1)),
    }
}

/// What letters, digits and `_` give.
fn run_outcome(at: Cursor, text: &[u8]) -> Outcome
    ensures { spec.Means at p.Run text.now result }
{
    if is_word(text) {
        return Outcome::Token(TokenKind::Word);
    }
    match literal(text) {
        Some(value) => Outcome::Token(TokenKind::Literal(value)),
        None => Outcome::Fault(LexFault::Literal(at.line, at.column)),
    }
}

/// What a piece with these bytes gives.
fn outcome_of(at: Cursor, piece: Piece, text: &[u8]) -> Outcome
    ensures { spec.Means at piece text.now result }
{
    match piece {
        Piece::Blank => Outcome::Gap,
        Piece::LineComment => Outcome::Gap,
        Piece::Comment => Outcome::Gap,
        Piece::OpenComment => Outcome::Fault(LexFault::Comment(at.line, at.column)),
        Piece::Run => run_outcome(at, text),
        Piece::Mark => Outcome::Token(TokenKind::Mark),
        Piece::Text(value) => Outcome::Token(TokenKind::Text(value)),
        Piece::OpenText => Outcome::Fault(LexFault::Literal(at.line, at.column)),
        Piece::Stray => Outcome::Fault(LexFault::Byte(at.line, at.column)),
        Piece::Include => Outcome::Token(TokenKind::Include),
        Piece::Define => Outcome::Token(TokenKind::Define),
        Piece::NoDirective => Outcome::Fault(LexFault::Directive(at.line, at.column)),
    }
}

/// Adds the token here, if it is one. The place after the piece, and the length of the piece.
fn step(
    alloc: Global,
    tokens: &mut Vec<Token>,
    at: Cursor,
    rest: &[u8],
) -> Result<(Cursor, usize), LexFault>
    requires some { 0 < length rest.now }
    requires line { at.line + length rest.now < 2 ^ 32 }
    requires column { at.column + length rest.now < 2 ^ 32 }
    requires offset { at.offset + length rest.now < 2 ^ 32 }
    ensures steps { IfOk result (λ x. spec.Steps at rest.now x.1 tokens.old.items tokens.new.items x.0) }
    ensures moves { IfOk result (λ x. spec.Moves at rest.now x.1 x.0) }
    ensures fault { IfErr result (λ fault. fault ≢ fault_of.NoMemory → spec.FaultsAt at rest.now fault) }
{
    let (piece, len) = front_at(alloc, at, rest)?;
    let (text, _) = rest.split_at(len);
    let next = advance(at, text);
    match outcome_of(at, piece, text) {
        Outcome::Fault(fault) => Err(fault),
        Outcome::Gap => Ok((next, len)),
        Outcome::Token(kind) => {
            tokens.push(Token {
                kind,
                line: at.line,
                column: at.column,
                start: at.offset,
                end: next.offset,
            })?;
            Ok((
                Cursor {
                    line: next.line,
                    column: next.column,
                    offset: next.offset,
                    token_line: at.line,
                },
                len,
            ))
        }
    }
}

/// The tokens of a text of at most 65,536 bytes, in their order.
///
/// # Errors
///
/// The first fault of the text, or `NoMemory`.
pub fn lex(alloc: Global, bytes: &[u8]) -> Result<Vec<Token>, LexFault>
    requires { length bytes.now ≤ 65536 }
    ensures tokens { IfOk result (λ tokens. spec.Scan bytes.now (Ok tokens.items)) }
    ensures fault { IfErr result (λ fault. fault ≢ fault_of.NoMemory → spec.Scan bytes.now (Err fault)) }

    // What the text gives is what comes out, unless memory runs out.
    ensures exact { (scanned : spec.Scanned) → spec.Scan bytes.now scanned
        → MatchResult result (λ tokens. scanned ≡ Ok tokens.items) (λ fault. fault ≢ fault_of.NoMemory → scanned ≡ Err fault) }
    ensures slices { IfOk result (λ tokens. spec.Rise 0 tokens.items (length bytes.now)) }
{
    let mut tokens = Vec::new(alloc);
    let mut at = Cursor {
        line: 1,
        column: 1,
        offset: 0,
        token_line: 0,
    };
    let mut rest = bytes;
    'pieces: while !rest.is_empty() {
        match step(alloc, &mut tokens, at, rest) {
            Err(fault) => return Err(fault),
            Ok((next, len)) => {
                let (_, after) = rest.split_at(len);
                at = next;
                rest = after;
            }
        }
    }
    Ok(tokens)
}
