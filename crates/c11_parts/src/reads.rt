//! What reads are offered, event by event.
ghost use Rattle.std.specs.Prelude.{◌≡◌, ◌<◌, ◌+◌, ℕ, List, Some, None, IsTrue, OnOk, IfOk};
ghost use Rattle.c11_events.specs.declared.event.Event.{Event};
ghost use Rattle.c11_events.specs.Events.{loaded_cell, stored_cell};
ghost use Rattle.c11_events.specs.Offered.{op_cell, op_reading};
ghost use Rattle.c11_events.specs.Values.{value_of};
ghost use Rattle.c11_mayread.specs.Played.{IsPlayed};
ghost use Rattle.c11_mayread.specs.Priors.{In};

use super::mismatch::Mismatch;
use super::row::{Row, int};
use c11_events::{Event, EventKind, Offers, Op, Order};
use c11_mayread::Reads;
use c11_num::{CValue, RmwKind};
use c11_tables::Part;
use std::alloc::Global;

/// Two cells, four threads.
fn open(alloc: Global) -> Result<Reads, Mismatch>
    ensures { IfOk result (λ reads. IsPlayed reads 0) }
{
    Ok(Reads::open(alloc, 2, 4, 64)?)
}

/// The thread's next event, which reads no atomic cell.
fn other(reads: &mut Reads, count: u32, thread: u32, kind: EventKind) -> Result<(), Mismatch>
    requires played { IsPlayed reads.old count }
    requires room { count < 64 }
    requires thread { thread < 4 }
    requires loads { loaded_cell kind ≡ None }
    requires stores { (cell : ℕ) → stored_cell kind ≡ Some cell → cell < 2 }
    ensures { OnOk result (IsPlayed reads.new (count + 1)) }
{
    reads.room(&Op::Begin)?;
    let number = count + 1;
    reads.commit(&Event {
        number,
        thread,
        kind,
        from: 0,
    });
    Ok(())
}

/// What the operation becomes where it reads this value.
fn reading(op: &Op, value: CValue) -> EventKind
    ensures { (events : List Event) (x cell : ℕ) → op_cell op.now ≡ Some cell → value ≡ value_of events x → result ≡ op_reading events op.now x }
{
    match op {
        Op::AtomicLoad { cell, order } => EventKind::AtomicLoad {
            cell: *cell,
            order: *order,
        },
        Op::Rmw {
            cell,
            order,
            kind,
            operand,
        } => EventKind::Rmw {
            cell: *cell,
            order: *order,
            kind: *kind,
            operand: *operand,
        },
        Op::CompareExchange {
            cell,
            success,
            failure,
            weak: _,
            expected,
            desired,
        } => {
            if value.number() == expected.number() {
                EventKind::Rmw {
                    cell: *cell,
                    order: *success,
                    kind: RmwKind::Exchange,
                    operand: *desired,
                }
            } else {
                EventKind::AtomicLoad {
                    cell: *cell,
                    order: *failure,
                }
            }
        }
        _ => EventKind::Begin,
    }
}

fn is_among(list: &[u32], x: u32) -> bool
    ensures { IsTrue result → In list.now x }
{
    for y in list {
        if *y == x {
            return true;
        }
    }
    false
}

/// The thread's next event, which reads one of these stores, which are all that are offered.
fn read(
    reads: &mut Reads,
    count: u32,
    row: &Row,
    thread: u32,
    op: &Op,
    offers: &[u32],
    from: u32,
) -> Result<(), Mismatch>
    requires played { IsPlayed reads.old count }
    requires room { count < 64 }
    requires thread { thread < 4 }
    requires cell { (cell : ℕ) → op_cell op.now ≡ Some cell → cell < 2 }
    requires reads { op_cell op.now ≡ None → ⊥ }
    ensures { OnOk result (IsPlayed reads.new (count + 1)) }
{
    let all = reads.offers(thread, op)?;
    row.expect(&all.as_slice(), &offers)?;
    if !is_among(all.as_slice(), from) {
        return Err(row.unread());
    }
    let kind = reading(op, reads.value(from));
    reads.room(op)?;
    let number = count + 1;
    reads.commit(&Event {
        number,
        thread,
        kind,
        from,
    });
    Ok(())
}

/// `load CELL ORDER`, `add CELL ORDER`, which adds 1, and `exchange CELL ORDER EXPECTED DESIRED`, a compare-exchange.
fn op_of(row: &Row, words: &[&str]) -> Result<Op, Mismatch>
    ensures cell { IfOk result (λ op. (cell : ℕ) → op_cell op ≡ Some cell → cell < 2) }
    ensures reads { IfOk result (λ op. op_cell op ≡ None → ⊥) }
{
    match words {
        ["load", cell, order] => Ok(Op::AtomicLoad {
            cell: row.cell(cell)?,
            order: row.order(order)?,
        }),
        ["add", cell, order] => Ok(Op::Rmw {
            cell: row.cell(cell)?,
            order: row.order(order)?,
            kind: RmwKind::Add,
            operand: int(1),
        }),
        ["exchange", cell, order, expected, desired] => Ok(Op::CompareExchange {
            cell: row.cell(cell)?,
            success: row.order(order)?,
            failure: row.order(order)?,
            weak: false,
            expected: int(row.int(expected)?),
            desired: int(row.int(desired)?),
        }),
        _ => Err(row.unread()),
    }
}

/// `init CELL` with 0, `store CELL ORDER` of 1, `write` of a plain cell, `fence ORDER`, `create`, `begin`, `end` and `join THREAD`.
fn kind_of(row: &Row, words: &[&str]) -> Result<EventKind, Mismatch>
    ensures loads { IfOk result (λ kind. loaded_cell kind ≡ None) }
    ensures stores { IfOk result (λ kind. (cell : ℕ) → stored_cell kind ≡ Some cell → cell < 2) }
{
    match words {
        ["init", cell] => Ok(EventKind::Init {
            cell: row.cell(cell)?,
            value: int(0),
        }),
        ["store", cell, order] => Ok(EventKind::AtomicStore {
            cell: row.cell(cell)?,
            order: row.order(order)?,
            value: int(1),
        }),
        ["write"] => Ok(EventKind::PlainWrite {
            cell: 0,
            value: int(1),
        }),
        ["fence", order] => Ok(EventKind::Fence {
            order: row.order(order)?,
        }),
        ["create"] => Ok(EventKind::Create {
            function: 0,
            argument: 0,
        }),
        ["begin"] => Ok(EventKind::Begin),
        ["end"] => Ok(EventKind::End { value: 0 }),
        ["join", thread] => Ok(EventKind::Join {
            thread: row.number(thread)?,
        }),
        _ => Err(row.unread()),
    }
}

/// The thread's next event. Behind one that reads are the stores that are offered and the one that is read.
fn act(
    reads: &mut Reads,
    count: u32,
    row: &Row,
    thread: u32,
    words: &[&str],
) -> Result<(), Mismatch>
    requires played { IsPlayed reads.old count }
    requires room { count < 64 }
    requires thread { thread < 4 }
    ensures { OnOk result (IsPlayed reads.new (count + 1)) }
{
    match words {
        ["load" | "add" | "exchange", ..] => {
            let [op @ .., offers, from] = words else {
                return Err(row.unread());
            };
            let op = op_of(row, op)?;
            let offers = row.numbers(offers)?;
            let from = row.number(from)?;
            read(reads, count, row, thread, &op, offers.as_slice(), from)
        }
        _ => other(reads, count, thread, kind_of(row, words)?),
    }
}

/// Whether the one event happens before the other, of so many.
fn happens(reads: &Reads, count: u32, row: &Row, a: u32, b: u32) -> Result<bool, Mismatch>
    requires { IsPlayed reads.now count }
{
    if a == 0 || b == 0 || a > count || b > count {
        return Err(row.unread());
    }
    Ok(reads.before(a, b))
}

/// What the one thread knows of the other.
fn known(reads: &Reads, count: u32, thread: u32, of: u32) -> u32
    requires played { IsPlayed reads.now count }
    requires thread { thread < 4 }
    requires of { of < 4 }
{
    reads.clock(thread).get(of)
}

/// The priors of a next load, or a next store, of the first cell by the thread.
fn priors(
    reads: &Reads,
    count: u32,
    thread: u32,
    order: Order,
    stores: bool,
) -> Result<Offers, Mismatch>
    requires played { IsPlayed reads.now count }
    requires thread { thread < 4 }
{
    if stores {
        Ok(reads.prior_write(thread, 0, order)?)
    } else {
        Ok(reads.prior_read(thread, 0, order)?)
    }
}

/// The row says these priors.
fn ask_priors(
    reads: &Reads,
    count: u32,
    row: &Row,
    asked: (&str, &str, &str),
    stores: bool,
) -> Result<(), Mismatch>
    requires { IsPlayed reads.now count }
{
    let (thread, order, wanted) = asked;
    let thread = row.below(thread, 4)?;
    let found = priors(reads, count, thread, row.order(order)?, stores)?;
    let wanted = row.numbers(wanted)?;
    row.expect(&found.as_slice(), &wanted.as_slice())
}

/// `before EVENT EVENT yes`, or `no`: whether the one happens before the other. `knows THREAD THREAD EVENT`: the last event of the
/// other thread that the one knows of. `read-priors THREAD ORDER STORES` and `write-priors THREAD ORDER STORES`: the priors of the
/// thread's next load and store of x.
fn ask(reads: &Reads, count: u32, row: &Row) -> Result<(), Mismatch>
    requires { IsPlayed reads.now count }
{
    match row.words() {
        ["before", a, b, before] => {
            let found = happens(reads, count, row, row.number(a)?, row.number(b)?)?;
            row.expect(&found, &row.is_yes(before)?)
        }
        ["knows", thread, of, event] => {
            let found = known(reads, count, row.below(thread, 4)?, row.below(of, 4)?);
            row.expect(&found, &row.number(event)?)
        }
        ["read-priors", thread, order, stores] => ask_priors(
            reads,
            count,
            row,
            (thread, order, stores),
            false,
        ),
        ["write-priors", thread, order, stores] => ask_priors(
            reads,
            count,
            row,
            (thread, order, stores),
            true,
        ),
        _ => Err(row.unread()),
    }
}

/// A further event, behind its thread, or a check. How many events there are then.
fn step(reads: &mut Reads, count: u32, row: &Row) -> Result<u32, Mismatch>
    requires { IsPlayed reads.old count }
    ensures { IfOk result (λ after. IsPlayed reads.new after) }
{
    match row.words() {
        ["before" | "knows" | "read-priors" | "write-priors", ..] => {
            ask(reads, count, row)?;
            Ok(count)
        }
        [thread, words @ ..] if count < 64 => {
            let thread = row.below(thread, 4)?;
            act(reads, count, row, thread, words)?;
            Ok(count + 1)
        }
        _ => Err(row.unread()),
    }
}

/// What comes first with two cells and three threads, with one cell and three threads, and with one cell and four threads. The next
/// event is the 8th, the 7th and the 9th.
fn first_events(line: &str) -> Option<&'static str> {
    match line {
        "two cells" => Some("0 init x,0 init y,0 begin,0 create,0 create,1 begin,2 begin"),
        "one cell" => Some("0 init x,0 begin,0 create,0 create,1 begin,2 begin"),
        "four threads" => Some(
            "0 init x,0 begin,0 create,0 create,0 create,1 begin,2 begin,3 begin",
        ),
        _ => None,
    }
}

/// Plays what comes first.
fn begin(alloc: Global, reads: &mut Reads, mut count: u32, events: &str) -> Result<u32, Mismatch>
    requires { IsPlayed reads.old count }
    ensures { IfOk result (λ after. IsPlayed reads.new after) }
{
    for event in events.split(',') {
        let row = Row::new(alloc, 0, event)?;
        count = step(reads, count, &row)?;
    }
    Ok(count)
}

/// What comes first, where the line names it and nothing came before, or one step.
fn follow(
    alloc: Global,
    reads: &mut Reads,
    count: u32,
    row: &Row,
    line: &str,
) -> Result<u32, Mismatch>
    requires { IsPlayed reads.old count }
    ensures { IfOk result (λ after. IsPlayed reads.new after) }
{
    match first_events(line) {
        Some(events) if count == 0 => begin(alloc, reads, count, events),
        _ => step(reads, count, row),
    }
}

/// `two cells`, `one cell` or `four threads`, which says what comes first, and then events, each behind its thread, and checks. Each
/// read is offered what its row says, and each check holds.
pub fn play(alloc: Global, part: &mut Part, lines: &str) -> Result<(), Mismatch> {
    let mut reads = open(alloc)?;
    let mut count = 0;
    for line in lines.lines() {
        let row = Row::new(alloc, part.next(), line)?;
        count = follow(alloc, &mut reads, count, &row, line)?;
    }
    Ok(())
}
