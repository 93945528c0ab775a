//! Whole programs.

ghost use Rattle.std.specs.Prelude.{◌≡◌, ◌≢◌, ℕ, length, IfOk, IfErr, MatchResult};
ghost use Rattle.c11_ast.specs.declared.item.Program.{Program};
ghost use Rattle.c11_lexer.specs.Scan.{Rise};
ghost use Rattle.c11_grammar.specs.Programs.{IsProgram};
ghost use Rattle.c11_parser.specs.declared.whole.SyntaxFault.TheVariants as fault_of;
ghost use Rattle.c11_parser.specs.Trees.{Tree, NoTree, IsFault, Misses};

use crate::item::item;
use crate::sort::lexemes;
use c11_ast::{Many, Program};
use c11_grammar::{Lexeme, Stop};
use c11_lexer::Token;
use c11_num::NoMemory;
use std::alloc::{AllocError, Global};

/// Why there is no program.
#[derive(Clone, Copy, Debug, PartialEq, Eq)]
pub enum SyntaxFault {
    /// The tokens are no program. On this line and in this column, both counted from 1, stands the first token after the
    /// longest run of whole items.
    Item(u32, u32),
    /// Memory ran out.
    NoMemory,
}

impl From<NoMemory> for SyntaxFault {
    ghost use Rattle.std.specs.Prelude.{◌≡◌};
    ghost use Rattle.c11_parser.specs.declared.whole.SyntaxFault.TheVariants as fault_of;

    ghost from_gives = { λ _ e. e ≡ fault_of.NoMemory };

    fn from(_: NoMemory) -> SyntaxFault {
        SyntaxFault::NoMemory
    }
}

impl From<AllocError> for SyntaxFault {
    ghost use Rattle.std.specs.Prelude.{◌≡◌};
    ghost use Rattle.c11_parser.specs.declared.whole.SyntaxFault.TheVariants as fault_of;

    ghost from_gives = { λ _ e. e ≡ fault_of.NoMemory };

    fn from(_: AllocError) -> SyntaxFault {
        SyntaxFault::NoMemory
    }
}

/// The program that these tokens are.
pub fn program(alloc: Global, tokens: &[Lexeme]) -> Result<Program, SyntaxFault>
    ensures tree { IfOk result (λ program. IsProgram tokens.now program.items) }
    ensures fault { IfErr result (λ fault. Misses tokens.now fault) }
{
    let mut items = Many::new(alloc);
    let mut rest = tokens;
    while let Some((first, _)) = rest.split_first() {
        match item(alloc, rest) {
            Ok((found, after)) => {
                items.push(found)?;
                rest = after;
            }
            Err(Stop::Syntax) => return Err(SyntaxFault::Item(first.spot.line, first.spot.column)),
            Err(Stop::Memory) => return Err(SyntaxFault::NoMemory),
        }
    }
    Ok(Program { items })
}

/// The program that the tokens of a source are. A text without tokens is the program without items. What `lex` gives
/// for a source meets the condition.
///
/// # Errors
///
/// `Item` where the tokens are no program, or `NoMemory`.
pub fn parse(alloc: Global, source: &[u8], tokens: &[Token]) -> Result<Program, SyntaxFault>
    requires { Rise 0 tokens.now (length source.now) }
    ensures tree { IfOk result (λ program. Tree source.now tokens.now program) }
    ensures fault { IfErr result (λ fault. IsFault source.now tokens.now fault) }

    // A program of the tokens is what comes out, unless memory runs out.
    ensures exact { (program : Program) → Tree source.now tokens.now program
        → MatchResult result (λ answer. answer ≡ program) (λ fault. fault ≡ fault_of.NoMemory) }

    // Where there is none, the place is what comes out, unless memory runs out.
    ensures refused { (line column : ℕ) → NoTree source.now tokens.now line column
        → MatchResult result (λ answer. ⊥) (λ fault. fault ≢ fault_of.NoMemory → fault ≡ fault_of.Item line column) }
{
    let lexemes = lexemes(alloc, source, tokens)?;
    program(alloc, lexemes.as_slice())
}
