//! The laws of summaries, each a function whose contract is the law.
ghost use Rattle.c11_campaign.specs.Laws.{OneSummary, CountsSumUp};

use c11_run::laws::one_run_is_one;
use c11_tally::laws::{kept_is_one, outputs_are_counted, runs_are_counted};

/// A program has one summary at most of the same seeds with the same bound, whoever made the runs and in whatever order.
pub fn one_summary()
    ensures { OneSummary }
{
    one_run_is_one();
    kept_is_one();
}

/// The counts of the seven words sum to the number of seeds, and so do those of the outputs.
pub fn counts_sum_up()
    ensures { CountsSumUp }
{
    runs_are_counted();
    outputs_are_counted();
}
