//! The first of the faults that were seen.

ghost use Rattle.std.specs.Prelude.{◌≡◌};
ghost use Rattle.c11_check.specs.Programs as spec;
ghost use Rattle.c11_check.specs.Faults as faults;

use crate::fault::{Fault, Rule};
use c11_ast::Spot;

// The number of a rule, which decides between faults of one place.
fn number(rule: Rule) -> u32
    ensures { result ≡ spec.number_of rule }
{
    match rule {
        Rule::Unknown => 1,
        Rule::Twice => 2,
        Rule::Kind => 3,
        Rule::Arguments => 4,
        Rule::Order => 5,
        Rule::NoMain => 6,
        Rule::Size => 7,
        Rule::TooMany => 8,
        Rule::Typing => 9,
    }
}

// Whether the one fault stands before the other.
fn precedes(a: Fault, b: Fault) -> bool
    ensures { result ≡ spec.precedes a b }
{
    a.spot.line < b.spot.line
        || (a.spot.line == b.spot.line
            && (a.spot.column < b.spot.column
                || (a.spot.column == b.spot.column && number(a.rule) < number(b.rule))))
}

// The earlier of the fault that was kept and the next.
fn earlier(kept: Option<Fault>, fault: Fault) -> Option<Fault>
    ensures { result ≡ spec.earlier kept fault }
{
    match kept {
        Some(kept) if !precedes(fault, kept) => Some(kept),
        _ => Some(fault),
    }
}

/// The first fault, also of the one that is there where the test holds.
pub(crate) fn found(first: Option<Fault>, holds: bool, rule: Rule, spot: Spot) -> Option<Fault>
    ensures { result ≡ spec.keep first (faults.when holds rule spot) }
{
    if holds {
        earlier(first, Fault { rule, spot })
    } else {
        first
    }
}
