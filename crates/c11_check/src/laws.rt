//! The laws of the checks, each a function whose contract is the law.

ghost use Rattle.c11_check.specs.Laws.{OneFirst, SomeFirst};
ghost use Rattle.c11_check.specs.Lies.{FaultlessLiesWithin};

/// Faults have one first fault at most.
pub fn one_first()
    ensures { OneFirst }
{}

/// Where there are faults, one of them is the first.
pub fn some_first()
    ensures { SomeFirst }
{}

/// In a program without a fault what names denote lies within its tables, at each place.
pub fn faultless_lies_within()
    ensures { FaultlessLiesWithin }
{}
