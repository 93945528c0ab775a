//! Random lists of seq_cst events, answered as by scans of all that the threads did.
ghost use Rattle.std.specs.Prelude.{◌≡◌, ◌<◌};
ghost use Rattle.c11_scorder.specs.Tables.{cells_of, threads_of};

use super::mismatch::{Mismatch, expect};
use super::seq_cst::{Act, noted};
use c11_events::Order;
use c11_scorder::ScOrder;
use rand_core::utils::NextWord;
use rand_pcg::Pcg32;
use std::alloc::Global;

/// Whether the cell is stored to, by a seq_cst event where that is asked.
fn stores(act: Act, cell: u32, seq_cst: bool) -> bool {
    match act {
        Act::Init(its) => its == cell && !seq_cst,
        Act::Store(its, order) | Act::Add(its, order) => {
            its == cell && (!seq_cst || matches!(order, Order::SeqCst))
        }
        Act::Load(_, _) | Act::Fence(_) | Act::Begin => false,
    }
}

fn is_seq_cst_fence(act: Act) -> bool {
    matches!(act, Act::Fence(Order::SeqCst))
}

fn scan_store(acts: &[(u32, Act)], cell: u32) -> Option<u32> {
    let mut last = None;
    let mut number = 0u32;
    for (_, act) in acts.iter() {
        number = number.saturating_add(1);
        if stores(*act, cell, true) {
            last = Some(number);
        }
    }
    last
}

fn scan_fence(acts: &[(u32, Act)], thread: u32, from: u32, to: u32) -> Option<u32> {
    let mut last = None;
    let mut number = 0u32;
    for (its_thread, act) in acts.iter() {
        number = number.saturating_add(1);
        if is_seq_cst_fence(*act) && *its_thread == thread && from <= number && number <= to {
            last = Some(number);
        }
    }
    last
}

fn scan_before(acts: &[(u32, Act)], cell: u32, thread: u32, fence: u32) -> Option<u32> {
    let mut last = None;
    let mut number = 0u32;
    for (its_thread, act) in acts.iter() {
        number = number.saturating_add(1);
        let by_order = stores(*act, cell, true) && number < fence;
        let by_own = stores(*act, cell, false) && scan_fence(acts, thread, number, fence).is_some();
        if *its_thread == thread && (by_order || by_own) {
            last = Some(number);
        }
    }
    last
}

/// A number below the choices.
fn draw(words: &mut Pcg32, choices: u32) -> u32
    requires { 0 < choices }
    ensures { result < choices }
{
    words.next_word() % choices
}

fn drawn_order(words: &mut Pcg32) -> Order {
    match draw(words, 4) {
        0 | 1 => Order::SeqCst,
        2 => Order::Relaxed,
        _ => Order::AcqRel,
    }
}

fn drawn_act(words: &mut Pcg32) -> Act {
    let cell = draw(words, 2);
    let order = drawn_order(words);
    match draw(words, 9) {
        0 | 1 => Act::Store(cell, order),
        2 => Act::Add(cell, order),
        3 => Act::Load(cell, order),
        4 => Act::Init(cell),
        5 | 6 | 7 => Act::Fence(order),
        _ => Act::Begin,
    }
}

fn drawn_acts(alloc: Global, words: &mut Pcg32) -> Result<Vec<(u32, Act)>, Mismatch> {
    let mut acts = Vec::new(alloc);
    for _ in 0..24u32 {
        let thread = draw(words, 3);
        acts.push((thread, drawn_act(words)))?;
    }
    Ok(acts)
}

/// The stores that this fence holds are those of a scan.
fn compare_fence(
    alloc: Global,
    order: &ScOrder,
    acts: &[(u32, Act)],
    fence: u32,
) -> Result<(), Mismatch> {
    for place in 0..6 {
        let cell = place / 3;
        let thread = place % 3;
        let found = order.store_before_fence(cell, thread, fence);
        let wanted = scan_before(acts, cell, thread, fence);
        expect(alloc, "the last store before a fence", &found, &wanted)?;
    }
    Ok(())
}

/// The last seq_cst stores and fences are those of a scan.
fn compare_last(alloc: Global, order: &ScOrder, acts: &[(u32, Act)]) -> Result<(), Mismatch>
    requires cells { cells_of order.now ≡ 2 }
    requires threads { threads_of order.now ≡ 3 }
{
    for cell in 0..2 {
        let found = order.last_store(cell);
        let wanted = scan_store(acts, cell);
        expect(alloc, "the last seq_cst store", &found, &wanted)?;
    }
    for thread in 0..3 {
        let found = order.last_fence(thread);
        let wanted = scan_fence(acts, thread, 0, u32::MAX);
        expect(alloc, "the last seq_cst fence", &found, &wanted)?;
    }
    Ok(())
}

/// Each answer about these acts is that of a scan.
fn compare(alloc: Global, acts: &[(u32, Act)]) -> Result<(), Mismatch> {
    let order = noted(alloc, acts)?;
    compare_last(alloc, &order, acts)?;
    let mut fence = 0u32;
    for (_, act) in acts.iter() {
        fence = fence.saturating_add(1);
        if is_seq_cst_fence(*act) {
            compare_fence(alloc, &order, acts, fence)?;
        }
    }
    Ok(())
}

/// How many random lists were compared.
pub fn compared(alloc: Global) -> Result<u32, Mismatch> {
    let mut words = Pcg32::new(17, 5);
    let mut lists = 0u32;
    for _ in 0..400u32 {
        let acts = drawn_acts(alloc, &mut words)?;
        compare(alloc, acts.as_slice())?;
        lists = lists.saturating_add(1);
    }
    Ok(lists)
}
