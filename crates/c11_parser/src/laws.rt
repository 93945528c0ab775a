//! Laws of the trees of a source. Each function does nothing: its contract is the law.

ghost use Rattle.c11_parser.specs.Trees.{OneTree, OnePlace, SomeAnswer};

/// The tokens of a source are one program at most.
pub fn one_tree()
    ensures { OneTree }
{}

/// The tokens of a source are a program, or there is a first token after the longest run of whole items.
pub fn some_answer()
    ensures { SomeAnswer }
{}

/// There is one such place at most.
pub fn one_place()
    ensures { OnePlace }
{}
