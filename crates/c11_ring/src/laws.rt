//! Laws of ring programs. Each function does nothing: its contract is the law.

ghost use Rattle.c11_ring.specs.Laws.{RingIsAccepted};

/// The text of a ring program is accepted as a program.
pub fn ring_is_accepted()
    ensures { RingIsAccepted }
{}
