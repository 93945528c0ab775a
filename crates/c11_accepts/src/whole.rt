//! From the bytes of a text to its program.

ghost use Rattle.std.specs.Prelude.{◌≡◌, ◌≢◌, ◌≤◌, length, Ok, IfOk, IfErr, MatchResult};
ghost use Rattle.c11_ast.specs.declared.item.Program.{Program};
ghost use Rattle.c11_lexer.specs.Scan.{Scan, Rise};
ghost use Rattle.c11_check.specs.Checked.{IsChecked};
ghost use Rattle.c11_report.specs.declared.refusal.Refusal.{Refusal};
ghost use Rattle.c11_accepts.specs.Texts.{Accepts, IsRefusedAs, IsStop, stop_of, lexer_refusal, check_refusal, refusal_at};

use c11_check::{CheckFault, Checked, check};
use c11_lexer::laws::one_scan;
use c11_lexer::{LexFault, Token, lex};
use c11_parser::{SyntaxFault, parse};
use c11_report::{Refusal, RefusalWord};
use std::alloc::Global;

/// Why a text is not accepted.
#[derive(Clone, Copy, Debug, PartialEq, Eq)]
pub enum AcceptStop {
    /// It is no program, or its program has faults.
    Refused(Refusal),
    /// Memory ran out.
    NoMemory,
}

// A text has at most so many bytes.
const LONGEST: usize = 65_536;

// The refusal with this word and place.
fn refused_at(word: RefusalWord, line: u32, column: u32) -> AcceptStop
    ensures { result ≡ AcceptStop.Refused (refusal_at word line column) }
{
    AcceptStop::Refused(Refusal {
        word,
        place: Some((line, column)),
    })
}

// What a fault of the lexer is to the whole.
fn by_lexer(fault: LexFault) -> AcceptStop
    ensures { result ≡ stop_of (lexer_refusal fault) }
{
    match fault {
        LexFault::Byte(line, column) => refused_at(RefusalWord::Byte, line, column),
        LexFault::Literal(line, column) => refused_at(RefusalWord::Literal, line, column),
        LexFault::Comment(line, column) => refused_at(RefusalWord::Comment, line, column),
        LexFault::Directive(line, column) => refused_at(RefusalWord::Directive, line, column),
        LexFault::NoMemory => AcceptStop::NoMemory,
    }
}

// What a fault of the checks is to the whole.
fn by_check(fault: CheckFault) -> AcceptStop
    ensures { result ≡ stop_of (check_refusal fault) }
{
    match fault {
        CheckFault::Unknown(line, column) => refused_at(RefusalWord::Unknown, line, column),
        CheckFault::Twice(line, column) => refused_at(RefusalWord::Twice, line, column),
        CheckFault::Kind(line, column) => refused_at(RefusalWord::Kind, line, column),
        CheckFault::Arguments(line, column) => refused_at(RefusalWord::Arguments, line, column),
        CheckFault::Order(line, column) => refused_at(RefusalWord::Order, line, column),
        CheckFault::NoMain(line, column) => refused_at(RefusalWord::NoMain, line, column),
        CheckFault::Size(line, column) => refused_at(RefusalWord::Size, line, column),
        CheckFault::TooMany(line, column) => refused_at(RefusalWord::TooMany, line, column),
        CheckFault::Typing(line, column) => refused_at(RefusalWord::Typing, line, column),
        CheckFault::NoMemory => AcceptStop::NoMemory,
    }
}

// The program that the tokens of a text are, checked.
fn accept_tokens(alloc: Global, text: &[u8], tokens: &[Token]) -> Result<Checked, AcceptStop>
    requires short { length text.now ≤ 65536 }
    requires scan { Scan text.now (Ok tokens.now) }
    requires slices { Rise 0 tokens.now (length text.now) }
    ensures accepted { IfOk result (λ checked. Accepts text.now checked.program) }
    ensures checked { IfOk result (λ checked. IsChecked checked.program checked) }
    ensures refused { IfErr result (λ stop. IsStop text.now stop) }
{
    match parse(alloc, text, tokens) {
        Ok(program) => match check(alloc, program) {
            Ok(checked) => Ok(checked),
            Err(fault) => Err(by_check(fault)),
        },
        Err(SyntaxFault::Item(line, column)) => Err(refused_at(RefusalWord::Item, line, column)),
        Err(SyntaxFault::NoMemory) => Err(AcceptStop::NoMemory),
    }
}

/// The program that a text is, checked, with its tables.
///
/// # Errors
///
/// Why the text is refused, which is the first that applies: it has more than 65,536 bytes; a fault in its tokens; tokens that are no
/// program; the first of all faults of its program. Or `NoMemory`, whatever the text is.
pub fn accept(alloc: Global, text: &[u8]) -> Result<Checked, AcceptStop>
    ensures accepted { IfOk result (λ checked. Accepts text.now checked.program) }
    ensures checked { IfOk result (λ checked. IsChecked checked.program checked) }
    ensures refused { IfErr result (λ stop. IsStop text.now stop) }

    // What becomes of the text is what comes out, unless memory runs out.
    ensures accepts { (program : Program) → Accepts text.now program
        → MatchResult result (λ checked. checked.program ≡ program) (λ stop. stop ≡ AcceptStop.NoMemory) }
    ensures refuses { (refusal : Refusal) → IsRefusedAs text.now refusal
        → MatchResult result (λ checked. ⊥) (λ stop. stop ≢ AcceptStop.NoMemory → stop ≡ AcceptStop.Refused refusal) }
{
    if text.len() > LONGEST {
        return Err(AcceptStop::Refused(Refusal {
            word: RefusalWord::Long,
            place: None,
        }));
    }
    one_scan();
    match lex(alloc, text) {
        Ok(tokens) => accept_tokens(alloc, text, tokens.as_slice()),
        Err(fault) => Err(by_lexer(fault)),
    }
}
