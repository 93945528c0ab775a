ghost use Rattle.std.specs.Prelude.{◌≡◌};
ghost use Rattle.c11_events.specs.Orders.{is_allowed, is_allowed_failure};

/// The memory order of an atomic operation (ISO/IEC 9899:2011, 7.17.3).
#[derive(Clone, Copy, Debug, PartialEq, Eq)]
pub enum Order {
    /// `memory_order_relaxed`
    Relaxed,
    /// `memory_order_consume`, which is treated as acquire
    Consume,
    /// `memory_order_acquire`
    Acquire,
    /// `memory_order_release`
    Release,
    /// `memory_order_acq_rel`
    AcqRel,
    /// `memory_order_seq_cst`
    SeqCst,
}

/// Which operation an order is given to.
#[derive(Clone, Copy, Debug, PartialEq, Eq)]
pub enum OrderUse {
    /// An atomic load.
    Load,
    /// An atomic store.
    Store,
    /// A read-modify-write, a compare-exchange's success among them.
    ReadWrite,
    /// A fence.
    Fence,
}

/// Whether the operation may have this order (ISO/IEC 9899:2011, 7.17.7.1 and 7.17.7.2).
pub fn order_allowed(use_: OrderUse, order: Order) -> bool
    ensures { result ≡ is_allowed use_ order }
{
    match use_ {
        OrderUse::Load => !matches!(order, Order::Release | Order::AcqRel),
        OrderUse::Store => matches!(order, Order::Relaxed | Order::Release | Order::SeqCst),
        OrderUse::ReadWrite | OrderUse::Fence => true,
    }
}

/// Whether a compare-exchange with this order for success may have that order for failure.
///
/// ISO/IEC 9899:2011, 7.17.7.4 asks that the failure order is no release and no stronger than the success order; where
/// "stronger" is in doubt, the pair is allowed here.
pub fn failure_allowed(success: Order, failure: Order) -> bool
    ensures { result ≡ is_allowed_failure success failure }
{
    match failure {
        Order::Relaxed => true,
        Order::Consume => success != Order::Relaxed,
        Order::Acquire => !matches!(success, Order::Relaxed | Order::Consume),
        Order::SeqCst => success == Order::SeqCst,
        Order::Release | Order::AcqRel => false,
    }
}
