//! Laws of the grammar. Each function does nothing: its contract is the law.

ghost use Rattle.c11_grammar.specs.Laws.{OneTree, SomeOutcome, OnePlace};

/// Tokens are one program at most.
pub fn one_tree()
    ensures { OneTree }
{}

/// Tokens are a program, or there is a first token after the longest run of whole items.
pub fn some_outcome()
    ensures { SomeOutcome }
{}

/// There is one such place at most.
pub fn one_place()
    ensures { OnePlace }
{}
