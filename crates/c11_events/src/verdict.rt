use crate::reply::FaultKind;

/// How a run stands at its end.
#[derive(Clone, Copy, Debug, PartialEq, Eq)]
pub enum Verdict {
    /// `main` ended.
    Done,
    /// The bound on steps was reached.
    Bound,
    /// Two plain accesses of this cell race: the later ended the run, the earlier is the latest that races with it.
    Race { first: u32, second: u32, cell: u32 },
    /// An `assert` of 0.
    Assert,
    /// A fault of the program.
    Fault(FaultKind),
    /// Too much local work without an operation.
    Local,
    /// Each live thread is blocked.
    Deadlock,
}
