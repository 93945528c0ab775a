//! Laws of the definitions. Each function does nothing: its contract is the law.

ghost use Rattle.c11_lexer.specs.Pieces.{SomeLongest, OneLongest};
ghost use Rattle.c11_lexer.specs.Scan.{SomeScan, OneScan, SlicesRise, SlicesAreSome};

/// Each text that is not empty begins with a longest piece.
pub fn some_longest()
    ensures { SomeLongest }
{}

/// A text begins with one longest piece at most.
pub fn one_longest()
    ensures { OneLongest }
{}

/// Each text has a Scan.
pub fn some_scan()
    ensures { SomeScan }
{}

/// A text has one Scan at most: its tokens or its first fault, never both, never two.
pub fn one_scan()
    ensures { OneScan }
{}

/// Slices that rise have a byte each.
pub fn slices_are_some()
    ensures { SlicesAreSome }
{}

/// The slices of a text's tokens rise and lie inside the text.
pub fn slices_rise()
    ensures { SlicesRise }
{}
