//! How the workers of a campaign are dealt their seats, and how what they tallied is put together.
ghost use Rattle.std.specs.Prelude.{◌≡◌, ◌+◌, ◌<◌, ◌≤◌, [], IfOk, length};
ghost use Rattle.c11_claims.specs.Claims.{hand};
ghost use Rattle.c11_machine.specs.Programs.{program_of};
ghost use Rattle.c11_campaign.specs.Workers.{AreDealt, AreWorked, HasRunAll};

use crate::hunt::{Hunt, Worked, Worker};
use c11_claims::{Claimer, Claims};
use c11_num::NoMemory;
use c11_tally::Tallied;
use std::alloc::Global;

/// Deals the seats to so many workers, from 1 to 64.
pub(crate) fn deal(
    alloc: Global,
    claims: &Claims,
    claimer: Claimer,
    workers: u32,
) -> Result<Vec<Worker>, NoMemory>
    requires some { 0 < workers }
    requires few { workers ≤ 64 }
    requires seat { claimer ≡ hand claims.now 64 [] }
    ensures dealt { IfOk result (λ dealt. AreDealt claims.now dealt.items) }
    ensures count { IfOk result (λ dealt. length dealt.items ≡ workers) }
{
    let mut claimer = claimer;
    let mut dealt = Vec::new(alloc);
    for number in 1..workers {
        let other = claims.another(&mut claimer);
        dealt.push(Worker {
            number,
            claimer: other,
        })?;
    }
    dealt.push(Worker { number: 0, claimer })?;
    Ok(dealt)
}

/// Puts together what the workers of the hunt tallied. Where one of them found no memory, there is none.
pub(crate) fn gather(_hunt: &Hunt, claims: Claims, worked: Vec<Worked>) -> Result<Tallied, NoMemory>
    requires some { 0 < length worked.items }
    requires few { length worked.items ≤ 64 }
    requires few_seeds { claims.count ≤ 1000000 }
    requires worked { AreWorked (program_of _hunt.now.checked.now) _hunt.now.first _hunt.now.steps claims worked.items }
    ensures { IfOk result (HasRunAll (program_of _hunt.now.checked.now) _hunt.now.first claims.count _hunt.now.steps) }
{
    let mut left = worked;
    let Some(last) = left.pop() else {
        unreachable!()
    };
    let Worked {
        mut claimer,
        tallied,
    } = last;
    let mut tallied = tallied?;
    while let Some(other) = left.pop() {
        let Worked {
            claimer: seat,
            tallied: more,
        } = other;
        claims.gather(&mut claimer, seat);
        tallied.merge(more?)?;
    }
    claims.close(claimer);
    Ok(tallied)
}
