use crate::{Entry, EventKind, Offers, Op, Order, OrderUse, Reply, failure_allowed, order_allowed};
use c11_num::{CType, CValue, RmwKind};
use std::alloc::Global;
use std::test::Fail;

const ORDERS: [Order; 6] = [
    Order::Relaxed,
    Order::Consume,
    Order::Acquire,
    Order::Release,
    Order::AcqRel,
    Order::SeqCst,
];

#[test]
fn orders_are_allowed_as_the_standard_lists_them(rt: HostRuntime) {
    let uses: [(OrderUse, [bool; 6]); 4] = [
        (OrderUse::Load, [true, true, true, false, false, true]),
        (OrderUse::Store, [true, false, false, true, false, true]),
        (OrderUse::ReadWrite, [true; 6]),
        (OrderUse::Fence, [true; 6]),
    ];
    for (use_, allowed) in uses {
        for (i, order) in ORDERS.iter().enumerate() {
            assert!(rt;
                order_allowed(use_, *order) == allowed[i],
                "{use_:?} {order:?}"
            );
        }
    }
    let failures: [(Order, [bool; 6]); 6] = [
        (Order::Relaxed, [true, false, false, false, false, false]),
        (Order::Consume, [true, true, false, false, false, false]),
        (Order::Acquire, [true, true, true, false, false, false]),
        (Order::Release, [true, true, true, false, false, false]),
        (Order::AcqRel, [true, true, true, false, false, false]),
        (Order::SeqCst, [true, true, true, false, false, true]),
    ];
    for (success, allowed) in failures {
        for (i, failure) in ORDERS.iter().enumerate() {
            assert!(rt;
                failure_allowed(success, *failure) == allowed[i],
                "{success:?} {failure:?}"
            );
        }
    }
}

// A compare-exchange of cell 3 from 0 to 9 that read the store 2.
fn exchange(alloc: Global, success: bool) -> Entry {
    let zero = CValue::new(CType::Int, 0);
    Entry {
        number: 5,
        thread: 1,
        line: 12,
        op: Op::CompareExchange {
            cell: 3,
            success: Order::AcqRel,
            failure: Order::Acquire,
            weak: false,
            expected: zero,
            desired: CValue::new(CType::Int, 9),
        },
        reply: Reply::Exchanged { old: zero, success },
        from: 2,
        offered: Offers::new(Vec::new(alloc)),
    }
}

#[test]
fn a_compare_exchange_is_a_read_modify_write_or_a_load(rt: HostRuntime) -> Result<(), Fail> {
    let wrote = exchange(rt.alloc(), true).event()?;
    assert_eq!(rt; (wrote.number, wrote.thread, wrote.from), (5, 1, 2));
    let mut is_write = false;
    if let EventKind::Rmw {
        cell,
        order,
        kind,
        operand,
    } = &wrote.kind
    {
        is_write = *cell == 3
            && *order == Order::AcqRel
            && *kind == RmwKind::Exchange
            && operand.number() == 9;
    }
    assert!(rt; is_write);
    let failed = exchange(rt.alloc(), false).event()?;
    let mut is_load = false;
    if let EventKind::AtomicLoad { cell, order } = &failed.kind {
        is_load = *cell == 3 && *order == Order::Acquire;
    }
    assert!(rt; is_load);
    Ok(())
}
