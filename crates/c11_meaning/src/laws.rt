//! The laws of the meaning, each a function whose contract is the law.

ghost use Rattle.c11_meaning.specs.Legal.{AsksAreLegal};
ghost use Rattle.c11_meaning.specs.Progress.{AsksAgain, AsksNoMore};

/// A program without a fault asks for operations on its own cells, mutexes and functions alone, with values of the types of their
/// cells, and for joins of the first thread or of a thread that a reply named as created.
pub fn asks_are_legal()
    ensures { AsksAreLegal }
{}

/// Where a thread of a program without a fault wants something, and is told what is of its kind, it wants something again: no other
/// reply than one to an End or a Stop and a Fault ends it.
pub fn asks_again()
    ensures { AsksAgain }
{}

/// Where a thread of a program without a fault wants something, nothing comes after a Fault, nor after the reply to an End or a Stop.
pub fn asks_no_more()
    ensures { AsksNoMore }
{}
