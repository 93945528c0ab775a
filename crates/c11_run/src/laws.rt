//! The laws of runs, each a function whose contract is the law.

ghost use Rattle.c11_events.specs.Offered.{Offered};
ghost use Rattle.c11_run.specs.Laws.{OneRunIsLegal, LegalIsConsistent, LegalIsHistory, LegalIsOfLive, LegalLocksFindFree, CheckedAsksNoInit, OneRunIsOne};

use c11_meaning::laws::asks_are_legal;

/// The one run of a program, a seed and a bound is a legal history, and there is one at most, with one verdict.
pub fn one_run_is_one()
    ensures legal { OneRunIsLegal Offered }
    ensures one { OneRunIsOne }
{}

/// A legal history is consistent; it begins with the Inits of the program's cells, is numbered from 1, and has no further Init
/// where the program asks for none, as no checked program does. Each step is of a thread that is live then, and a Lock that takes its
/// mutex finds it free.
pub fn legal_histories()
    ensures consistent { LegalIsConsistent }
    ensures history { LegalIsHistory Offered }
    ensures live { LegalIsOfLive Offered }
    ensures locks { LegalLocksFindFree Offered }
    ensures checked { CheckedAsksNoInit }
{
    asks_are_legal();
}
