//! Laws of the definitions. Each function does nothing: its contract is the law.

ghost use Rattle.c11_accepts.specs.Laws.{OneProgram, OneRefusal, NotBoth, OneOfBoth, PlacesFit};

use c11_lexer::laws::{one_scan, some_scan};

/// A text is accepted as one program at most.
pub fn one_program()
    ensures { OneProgram }
{
    one_scan();
}

/// A text is refused in one way at most.
pub fn one_refusal()
    ensures { OneRefusal }
{
    one_scan();
}

/// No text is accepted and refused.
pub fn not_both()
    ensures { NotBoth }
{
    one_scan();
}

/// Each text is accepted or refused.
pub fn one_of_both()
    ensures { OneOfBoth }
{
    some_scan();
}

/// A refusal has a place exactly where its word is printed with one.
pub fn places_fit()
    ensures { PlacesFit }
{}
