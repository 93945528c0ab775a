//! What an event is to the tables of mutexes.
ghost use Rattle.std.specs.Prelude.{◌≡◌};
ghost use Rattle.c11_happens.specs.Kinds.{mutex_of};

use c11_events::EventKind;

/// The mutex that the event locks or unlocks.
pub(crate) fn mutex_of(kind: &EventKind) -> Option<u32>
    ensures { result ≡ mutex_of kind.now }
{
    match kind {
        EventKind::Lock { mutex } | EventKind::TryLock { mutex } | EventKind::Unlock { mutex } => {
            Some(*mutex)
        }
        _ => None,
    }
}
