/// The rules of a lawful modification order, in their order: the one that is broken.
#[derive(Clone, Copy, Debug, PartialEq, Eq)]
pub enum Broken {
    /// The order has each store of the cell once and nothing else.
    ModificationOrder,
    /// Of two stores, one that happens before the other stands first.
    WriteWriteCoherence,
    /// A load reads nothing older than a store that happens before it.
    WriteReadCoherence,
    /// A store that happens after a load stands behind what the load reads.
    ReadWriteCoherence,
    /// Of two loads, the later reads nothing older than the earlier.
    ReadReadCoherence,
    /// A read-modify-write stands right behind what it reads.
    RmwAtomicity,
    /// The seq_cst stores stand in the order of the seq_cst events.
    SeqCstWriteOrder,
    /// A seq_cst load reads the last seq_cst store before it, or one that is not seq_cst and does not happen before that one.
    SeqCstRead,
    /// A load behind a fence reads nothing older than a seq_cst store before the fence.
    FenceBeforeRead,
    /// A seq_cst load reads nothing older than a store before a fence that stands before the load.
    FenceAfterWrite,
    /// A load behind a fence reads nothing older than a store before an earlier fence.
    FencesBetween,
    /// Two stores stand as the fences between them say.
    FencesBetweenWrites,
}
