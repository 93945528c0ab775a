/// How many runs of a campaign ended one way, and the least of their seeds.
#[derive(Clone, Copy, Debug, PartialEq, Eq)]
pub struct Tally {
    pub count: u64,
    /// `None` exactly where the count is 0.
    pub least: Option<u64>,
}

/// How the runs of a campaign ended, each way apart.
#[derive(Clone, Copy, Debug, PartialEq, Eq)]
pub struct Tallies {
    pub done: Tally,
    pub bound: Tally,
    pub race: Tally,
    /// An `assert` of 0; printed `assert`.
    pub assert_: Tally,
    /// A fault of any kind.
    pub fault: Tally,
    pub local: Tally,
    pub deadlock: Tally,
}
