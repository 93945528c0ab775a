//! The laws of a session's memory, each a function whose contract is the law.
ghost use Rattle.c11_turn.specs.Asking.{AsksUntilOver};
ghost use Rattle.c11_turn.specs.Hand.{HistoriesAreShort, OpenedIsMemory};

use c11_check::laws::faultless_lies_within;
use c11_meaning::laws::{asks_again, asks_are_legal, asks_no_more};

/// A memory that is just opened is that of the Inits of its program, which follow.
pub fn opened_is_memory()
    ensures { OpenedIsMemory }
{}

/// A history that follows has no more steps than the bound, and beside them 4,096 entries at most.
pub fn histories_are_short()
    ensures { HistoriesAreShort }
{
    asks_are_legal();
}

/// In a history that follows, a thread asks for nothing once it has had the reply to its End or a Stop, or a Fault, and for something
/// until then.
pub fn asks_until_over()
    ensures { AsksUntilOver }
{
    asks_are_legal();
    asks_again();
    asks_no_more();
    faultless_lies_within();
}
