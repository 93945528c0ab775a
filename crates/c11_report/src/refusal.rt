ghost use Rattle.std.specs.Prelude.{◌≡◌, ◌++◌, ◌↔◌, OnOk, IfOk, IsTrue, Some};
ghost use Rattle.c11_report.specs.Refusals.{word_bytes, has_place, place_bytes, refusal_bytes};

use crate::text::Text;
use c11_num::NoMemory;
use std::alloc::Global;

/// Why a text is refused.
#[derive(Clone, Copy, Debug, PartialEq, Eq)]
pub enum RefusalWord {
    /// A byte that begins no token.
    Byte,
    /// What begins as a number, a word or a string literal and is none, or is too long.
    Literal,
    /// A comment without an end.
    Comment,
    /// A `#` that begins no directive of the language.
    Directive,
    /// Tokens that are no item of the grammar.
    Item,
    /// A name that is not declared.
    Unknown,
    /// A name that is declared already.
    Twice,
    /// A name of another kind than is needed, or a `break` or `continue` outside a loop.
    Kind,
    /// A call with other arguments than its function has.
    Arguments,
    /// A memory order that is missing or not allowed.
    Order,
    /// No function `main` that answers `int` and has no parameters.
    NoMain,
    /// The size of an array.
    Size,
    /// A declaration past a limit.
    TooMany,
    /// A value where there is none, or an operation that its type does not have; printed `type`.
    Typing,
    /// A text of more than 65,536 bytes.
    Long,
}

/// Why a text is refused, and where.
#[derive(Clone, Copy, Debug, PartialEq, Eq)]
pub struct Refusal {
    pub word: RefusalWord,
    /// The line and the column, in bytes, both from 1. `Long` has none.
    pub place: Option<(u32, u32)>,
}

/// The text of a refusal: one line, with its place where its word has one.
pub fn refusal_text(alloc: Global, refusal: &Refusal) -> Result<Vec<u8>, NoMemory>
    requires { IsTrue (has_place refusal.now.word) ↔ HasSome refusal.now.place }
    ensures { IfOk result (λ text. text.items ≡ refusal_bytes refusal.now) }
{
    let mut text = Text::new(alloc);
    text.word("refused ")?;
    text.word(refusal_word(refusal.word))?;
    push_place(&mut text, refusal.place)?;
    text.word("\n")?;
    Ok(text.into_bytes())
}

ghost use Rattle.c11_report.specs.Refusals.{HasSome};

fn refusal_word(word: RefusalWord) -> &'static str
    ensures { result.now ≡ word_bytes word }
{
    match word {
        RefusalWord::Byte => "byte",
        RefusalWord::Literal => "literal",
        RefusalWord::Comment => "comment",
        RefusalWord::Directive => "directive",
        RefusalWord::Item => "item",
        RefusalWord::Unknown => "unknown",
        RefusalWord::Twice => "twice",
        RefusalWord::Kind => "kind",
        RefusalWord::Arguments => "arguments",
        RefusalWord::Order => "order",
        RefusalWord::NoMain => "nomain",
        RefusalWord::Size => "size",
        RefusalWord::TooMany => "toomany",
        RefusalWord::Typing => "type",
        RefusalWord::Long => "long",
    }
}

fn push_place(text: &mut Text, place: Option<(u32, u32)>) -> Result<(), NoMemory>
    ensures { OnOk result (text.new ≡ text.old ++ place_bytes place) }
{
    match place {
        Some((line, column)) => {
            text.word(" ")?;
            text.number(u64::from(line))?;
            text.word(" ")?;
            text.number(u64::from(column))
        }
        None => Ok(()),
    }
}
