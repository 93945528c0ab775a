//! The laws of what a campaign keeps: empty functions whose contracts are the laws.
ghost use Rattle.c11_tally.specs.Laws.{TalliesJoin, OutputsJoin, OrderIsFree, KeptIsOne, RunsAreCounted, OutputsAreCounted, TalliesHaveLeasts};

/// The tallies of two lists of runs, put together, are those of all the runs.
pub fn tallies_join()
    ensures { TalliesJoin }
{}

/// So are their outputs.
pub fn outputs_join()
    ensures { OutputsJoin }
{}

/// The order of the runs does not matter.
pub fn order_is_free()
    ensures { OrderIsFree }
{}

/// What is to be kept of runs is one.
pub fn kept_is_one()
    ensures { KeptIsOne }
{}

/// Each run is counted for one word.
pub fn runs_are_counted()
    ensures { RunsAreCounted }
{}

/// Each run is counted for one output.
pub fn outputs_are_counted()
    ensures { OutputsAreCounted }
{}

/// There is a least seed exactly where a run was counted.
pub fn tallies_have_leasts()
    ensures { TalliesHaveLeasts }
{}
