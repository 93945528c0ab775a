//! What an event, or an order, is to the rules of the memory model.
ghost use Rattle.std.specs.Prelude.{◌≡◌};
ghost use Rattle.c11_events.specs.Events as spec;

use crate::event::EventKind;
use crate::order::Order;

impl Order {
    /// Whether the order is one of a release (ISO/IEC 9899:2011, 7.17.3).
    pub fn releases(self) -> bool
        ensures { result ≡ spec.releases self }
    {
        match self {
            Order::Release | Order::AcqRel | Order::SeqCst => true,
            Order::Relaxed | Order::Consume | Order::Acquire => false,
        }
    }

    /// Whether the order is one of an acquire (ISO/IEC 9899:2011, 7.17.3); consume counts as one.
    pub fn acquires(self) -> bool
        ensures { result ≡ spec.acquires self }
    {
        match self {
            Order::Consume | Order::Acquire | Order::AcqRel | Order::SeqCst => true,
            Order::Relaxed | Order::Release => false,
        }
    }

    /// Whether the order is seq_cst.
    pub fn is_seq_cst(self) -> bool
        ensures { result ≡ spec.is_seq_cst_order self }
    {
        match self {
            Order::SeqCst => true,
            _ => false,
        }
    }
}

impl EventKind {
    /// The atomic cell that the event writes.
    pub fn stored_cell(&self) -> Option<u32>
        ensures { result ≡ spec.stored_cell self.now }
    {
        match self {
            EventKind::Init { cell, value: _ } => Some(*cell),
            EventKind::AtomicStore {
                cell,
                order: _,
                value: _,
            } => Some(*cell),
            EventKind::Rmw {
                cell,
                order: _,
                kind: _,
                operand: _,
            } => Some(*cell),
            _ => None,
        }
    }

    /// The atomic cell that the event reads.
    pub fn loaded_cell(&self) -> Option<u32>
        ensures { result ≡ spec.loaded_cell self.now }
    {
        match self {
            EventKind::AtomicLoad { cell, order: _ } => Some(*cell),
            EventKind::Rmw {
                cell,
                order: _,
                kind: _,
                operand: _,
            } => Some(*cell),
            _ => None,
        }
    }

    /// The plain cell that the event reads.
    pub fn read_cell(&self) -> Option<u32>
        ensures { result ≡ spec.read_cell self.now }
    {
        match self {
            EventKind::PlainRead { cell } => Some(*cell),
            _ => None,
        }
    }

    /// The plain cell that the event writes.
    pub fn written_cell(&self) -> Option<u32>
        ensures { result ≡ spec.written_cell self.now }
    {
        match self {
            EventKind::PlainWrite { cell, value: _ } => Some(*cell),
            _ => None,
        }
    }

    /// The mutex that the event asks for.
    pub fn locked_mutex(&self) -> Option<u32>
        ensures { result ≡ spec.locked_mutex self.now }
    {
        match self {
            EventKind::Lock { mutex } => Some(*mutex),
            EventKind::TryLock { mutex } => Some(*mutex),
            _ => None,
        }
    }

    /// The mutex that the event gives back.
    pub fn unlocked_mutex(&self) -> Option<u32>
        ensures { result ≡ spec.unlocked_mutex self.now }
    {
        match self {
            EventKind::Unlock { mutex } => Some(*mutex),
            _ => None,
        }
    }

    /// The thread that the event joins.
    pub fn joined_thread(&self) -> Option<u32>
        ensures { result ≡ spec.joined_thread self.now }
    {
        match self {
            EventKind::Join { thread } => Some(*thread),
            _ => None,
        }
    }

    /// Whether the event creates a thread.
    pub fn is_create(&self) -> bool
        ensures { result ≡ spec.is_create self.now }
    {
        match self {
            EventKind::Create {
                function: _,
                argument: _,
            } => true,
            _ => false,
        }
    }

    /// Whether the event ends its thread.
    pub fn is_end(&self) -> bool
        ensures { result ≡ spec.is_end self.now }
    {
        match self {
            EventKind::End { value: _ } => true,
            _ => false,
        }
    }

    /// Whether the event is a store that releases.
    pub fn is_release_store(&self) -> bool
        ensures { result ≡ spec.is_release_store self.now }
    {
        match self {
            EventKind::AtomicStore {
                cell: _,
                order,
                value: _,
            } => order.releases(),
            EventKind::Rmw {
                cell: _,
                order,
                kind: _,
                operand: _,
            } => order.releases(),
            _ => false,
        }
    }

    /// Whether the event is a load that acquires.
    pub fn is_acquire_load(&self) -> bool
        ensures { result ≡ spec.is_acquire_load self.now }
    {
        match self {
            EventKind::AtomicLoad { cell: _, order } => order.acquires(),
            EventKind::Rmw {
                cell: _,
                order,
                kind: _,
                operand: _,
            } => order.acquires(),
            _ => false,
        }
    }

    /// Whether the event is a fence.
    pub fn is_fence(&self) -> bool
        ensures { result ≡ spec.is_fence self.now }
    {
        match self {
            EventKind::Fence { order: _ } => true,
            _ => false,
        }
    }

    /// Whether the event is a fence that releases.
    pub fn is_release_fence(&self) -> bool
        ensures { result ≡ spec.is_release_fence self.now }
    {
        match self {
            EventKind::Fence { order } => order.releases(),
            _ => false,
        }
    }

    /// Whether the event is a fence that acquires.
    pub fn is_acquire_fence(&self) -> bool
        ensures { result ≡ spec.is_acquire_fence self.now }
    {
        match self {
            EventKind::Fence { order } => order.acquires(),
            _ => false,
        }
    }

    /// Whether the event is a seq_cst one.
    pub fn is_seq_cst(&self) -> bool
        ensures { result ≡ spec.is_seq_cst self.now }
    {
        match self {
            EventKind::AtomicLoad { cell: _, order } => order.is_seq_cst(),
            EventKind::AtomicStore {
                cell: _,
                order,
                value: _,
            } => order.is_seq_cst(),
            EventKind::Rmw {
                cell: _,
                order,
                kind: _,
                operand: _,
            } => order.is_seq_cst(),
            EventKind::Fence { order } => order.is_seq_cst(),
            _ => false,
        }
    }
}
