/// Where a store stands in its chain of read-modify-writes.
#[derive(Clone, Copy)]
pub(crate) struct Rank {
    /// The store that the chain begins with.
    pub(crate) head: u32,
    /// How many read-modify-writes lead from there.
    pub(crate) rank: u32,
}
