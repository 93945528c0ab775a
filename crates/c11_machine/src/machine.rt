//! Where a thread is in its code.

ghost use Rattle.std.specs.Prelude.{◌≡◌, None};

use c11_events::Reply;
use c11_flat::Slot;
use c11_num::{CType, CValue};
use std::alloc::Global;

/// Where a caller goes on, what it answers, and what its places hold.
#[derive(Debug, Drop)]
pub(crate) struct Caller {
    pub(crate) place: usize,
    pub(crate) answers: Option<CType>,
    pub(crate) locals: Vec<CValue>,
}

/// The place in the code, the stack of all calls, the callers, the running function's places, and the reply that was not taken yet.
/// The last item of the stack is its top, and the last caller the nearest.
#[derive(Debug, Drop)]
pub(crate) struct Machine {
    pub(crate) place: usize,
    pub(crate) stack: Vec<Slot>,
    pub(crate) callers: Vec<Caller>,
    pub(crate) answers: Option<CType>,
    pub(crate) locals: Vec<CValue>,
    pub(crate) turns: u32,
    pub(crate) pending: Option<Reply>,
}

impl Machine {
    // A machine that has done nothing.
    pub(crate) fn new(alloc: Global) -> Machine
        ensures { result.pending ≡ None }
    {
        Machine {
            place: 0,
            stack: Vec::new(alloc),
            callers: Vec::new(alloc),
            answers: None,
            locals: Vec::new(alloc),
            turns: 0,
            pending: None,
        }
    }
}
