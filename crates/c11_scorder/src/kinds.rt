//! What an event is to the order of the seq_cst events.
ghost use Rattle.std.specs.Prelude.{◌≡◌};
ghost use Rattle.c11_scorder.specs.Tables.{seq_cst_cell, is_seq_cst_fence};

use c11_events::EventKind;

/// The atomic cell that the event writes as a seq_cst event.
pub(crate) fn seq_cst_cell(kind: &EventKind) -> Option<u32>
    ensures { result ≡ seq_cst_cell kind.now }
{
    if kind.is_seq_cst() {
        kind.stored_cell()
    } else {
        None
    }
}

/// Whether the event is a seq_cst fence.
pub(crate) fn is_seq_cst_fence(kind: &EventKind) -> bool
    ensures { result ≡ is_seq_cst_fence kind.now }
{
    kind.is_fence() && kind.is_seq_cst()
}
