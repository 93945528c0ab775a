ghost use Rattle.std.specs.Prelude.{◌≡◌, ◌+◌, ◌<◌, ◌^◌};
ghost use Rattle.c11_tally.specs.Joined.{least_of, joined, joined_tallies, no_tallies, with_seed, with_run};
ghost use Rattle.c11_tally.specs.Tallies.{runs};

use c11_events::Verdict;
use c11_report::{Tallies, Tally};

// The tallies of no run.
pub(crate) fn no_tallies() -> Tallies
    ensures { result ≡ no_tallies }
{
    let none = Tally {
        count: 0,
        least: None,
    };
    Tallies {
        done: none,
        bound: none,
        race: none,
        assert_: none,
        fault: none,
        local: none,
        deadlock: none,
    }
}

fn least_of(a: Option<u64>, b: Option<u64>) -> Option<u64>
    ensures { result ≡ least_of a b }
{
    match (a, b) {
        (None, b) => b,
        (a, None) => a,
        (Some(a), Some(b)) => Some(a.min(b)),
    }
}

// The runs of both.
fn joined(a: Tally, b: Tally) -> Tally
    requires { a.count + b.count < 2 ^ 64 }
    ensures { result ≡ joined a b }
{
    Tally {
        count: a.count + b.count,
        least: least_of(a.least, b.least),
    }
}

// The runs of both.
pub(crate) fn joined_tallies(a: Tallies, b: Tallies) -> Tallies
    requires { runs a + runs b < 2 ^ 64 }
    ensures { result ≡ joined_tallies a b }
{
    Tallies {
        done: joined(a.done, b.done),
        bound: joined(a.bound, b.bound),
        race: joined(a.race, b.race),
        assert_: joined(a.assert_, b.assert_),
        fault: joined(a.fault, b.fault),
        local: joined(a.local, b.local),
        deadlock: joined(a.deadlock, b.deadlock),
    }
}

// One more run, from this seed.
fn with_seed(tally: Tally, seed: u64) -> Tally
    requires { tally.count + 1 < 2 ^ 64 }
    ensures { result ≡ with_seed tally seed }
{
    let one = Tally {
        count: 1,
        least: Some(seed),
    };
    joined(tally, one)
}

// One more run, from this seed, with its verdict.
pub(crate) fn with_run(tallies: Tallies, seed: u64, verdict: Verdict) -> Tallies
    requires { runs tallies + 1 < 2 ^ 64 }
    ensures { result ≡ with_run tallies seed verdict }
{
    match verdict {
        Verdict::Done => Tallies {
            done: with_seed(tallies.done, seed),
            ..tallies
        },
        Verdict::Bound => Tallies {
            bound: with_seed(tallies.bound, seed),
            ..tallies
        },
        Verdict::Race { .. } => Tallies {
            race: with_seed(tallies.race, seed),
            ..tallies
        },
        Verdict::Assert => Tallies {
            assert_: with_seed(tallies.assert_, seed),
            ..tallies
        },
        Verdict::Fault(_) => Tallies {
            fault: with_seed(tallies.fault, seed),
            ..tallies
        },
        Verdict::Local => Tallies {
            local: with_seed(tallies.local, seed),
            ..tallies
        },
        Verdict::Deadlock => Tallies {
            deadlock: with_seed(tallies.deadlock, seed),
            ..tallies
        },
    }
}
