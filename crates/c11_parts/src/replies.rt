//! What threads and mutexes answer.
ghost use Rattle.std.specs.Prelude.{◌≡◌, IsTrue, length, IfOk};
ghost use Rattle.c11_replies.specs.Words.{HaveSameCounts, IsWithin, Words};

use super::mismatch::Mismatch;
use super::row::{Row, int};
use c11_events::{CellInfo, Event, EventKind, FaultKind, Holder, Op, Order, Reply};
use c11_num::{Name, RmwKind};
use c11_replies::Replies;
use c11_tables::Part;
use std::alloc::Global;

const MAIN: u32 = 7;

/// What a thread does; an atomic operation reads 5.
#[derive(Clone, Copy, Debug)]
enum Act {
    Load,
    Add,
    Exchange(i32),
    Read(u32),
    Write(u32, i32),
    Init(u32),
    Lock(u32),
    TryLock(u32),
    Unlock(u32),
    Create(u32, i64),
    Begin,
    End(i32),
    Join(u32),
}

fn op_of(act: Act) -> Op {
    let cell = 0;
    let order = Order::SeqCst;
    match act {
        Act::Load => Op::AtomicLoad { cell, order },
        Act::Add => Op::Rmw {
            cell,
            order,
            kind: RmwKind::Add,
            operand: int(1),
        },
        Act::Exchange(expected) => Op::CompareExchange {
            cell,
            success: order,
            failure: order,
            weak: false,
            expected: int(expected),
            desired: int(8),
        },
        Act::Read(cell) => Op::PlainRead { cell },
        Act::Write(cell, number) => Op::PlainWrite {
            cell,
            value: int(number),
        },
        Act::Init(mutex) => Op::MutexInit { mutex },
        Act::Lock(mutex) => Op::Lock { mutex },
        Act::TryLock(mutex) => Op::TryLock { mutex },
        Act::Unlock(mutex) => Op::Unlock { mutex },
        Act::Create(function, argument) => Op::Create { function, argument },
        Act::Begin => Op::Begin,
        Act::End(value) => Op::End { value },
        Act::Join(thread) => Op::Join { thread },
    }
}

/// What is noted of an act; of atomic operations and plain reads no row says that they are done.
fn kind_of(act: Act) -> Option<EventKind> {
    match act {
        Act::Write(cell, number) => Some(EventKind::PlainWrite {
            cell,
            value: int(number),
        }),
        Act::Init(mutex) => Some(EventKind::MutexInit { mutex }),
        Act::Lock(mutex) => Some(EventKind::Lock { mutex }),
        Act::TryLock(mutex) => Some(EventKind::TryLock { mutex }),
        Act::Unlock(mutex) => Some(EventKind::Unlock { mutex }),
        Act::Create(function, argument) => Some(EventKind::Create { function, argument }),
        Act::Begin => Some(EventKind::Begin),
        Act::End(value) => Some(EventKind::End { value }),
        Act::Join(thread) => Some(EventKind::Join { thread }),
        Act::Load | Act::Add | Act::Exchange(_) | Act::Read(_) => None,
    }
}

/// The mutex of a name: `m` is the first and `n` the second.
fn mutex(row: &Row, word: &str) -> Result<u32, Mismatch> {
    match word {
        "m" => Ok(0),
        "n" => Ok(1),
        _ => Err(row.unread()),
    }
}

/// The plain cell of a name: `a` is the first and `b` the second; `c` is one more than there are.
fn plain(row: &Row, word: &str) -> Result<u32, Mismatch> {
    match word {
        "a" => Ok(0),
        "b" => Ok(1),
        "c" => Ok(2),
        _ => Err(row.unread()),
    }
}

fn argument(row: &Row, word: &str) -> Result<i64, Mismatch> {
    match word.parse::<i64>() {
        Ok(argument) => Ok(argument),
        Err(_) => Err(row.unread()),
    }
}

/// `load`, `add`, `exchange EXPECTED`, `read PLAIN`, `write PLAIN NUMBER`, `init MUTEX`, `lock MUTEX`, `trylock MUTEX`, `unlock MUTEX`,
/// `create FUNCTION ARGUMENT`, `begin`, `end NUMBER` and `join THREAD`.
fn act_of(row: &Row, words: &[&str]) -> Result<Act, Mismatch> {
    match words {
        ["load"] => Ok(Act::Load),
        ["add"] => Ok(Act::Add),
        ["exchange", expected] => Ok(Act::Exchange(row.int(expected)?)),
        ["read", cell] => Ok(Act::Read(plain(row, cell)?)),
        ["write", cell, number] => Ok(Act::Write(plain(row, cell)?, row.int(number)?)),
        ["init", name] => Ok(Act::Init(mutex(row, name)?)),
        ["lock", name] => Ok(Act::Lock(mutex(row, name)?)),
        ["trylock", name] => Ok(Act::TryLock(mutex(row, name)?)),
        ["unlock", name] => Ok(Act::Unlock(mutex(row, name)?)),
        ["create", function, value] => Ok(Act::Create(
            row.number(function)?,
            argument(row, value)?,
        )),
        ["begin"] => Ok(Act::Begin),
        ["end", value] => Ok(Act::End(row.int(value)?)),
        ["join", thread] => Ok(Act::Join(row.below(thread, 16)?)),
        _ => Err(row.unread()),
    }
}

fn fault_of(row: &Row, word: &str) -> Result<FaultKind, Mismatch> {
    match word {
        "mutex" => Ok(FaultKind::Mutex),
        "unlock" => Ok(FaultKind::Unlock),
        "join" => Ok(FaultKind::Join),
        "threads" => Ok(FaultKind::Threads),
        _ => Err(row.unread()),
    }
}

/// `done`, `value NUMBER`, `exchanged NUMBER yes`, or `no`, `locked yes`, or `no`, `created THREAD`, `began FUNCTION ARGUMENT`, `joined
/// NUMBER` and `fault KIND`.
fn reply_of(row: &Row, words: &[&str]) -> Result<Reply, Mismatch> {
    match words {
        ["done"] => Ok(Reply::Done),
        ["value", number] => Ok(Reply::Value(int(row.int(number)?))),
        ["exchanged", old, success] => Ok(Reply::Exchanged {
            old: int(row.int(old)?),
            success: row.is_yes(success)?,
        }),
        ["locked", answer] => Ok(Reply::Locked(row.is_yes(answer)?)),
        ["created", thread] => Ok(Reply::Created(row.number(thread)?)),
        ["began", function, value] => Ok(Reply::Began {
            function: row.number(function)?,
            argument: argument(row, value)?,
        }),
        ["joined", value] => Ok(Reply::Joined(row.int(value)?)),
        ["fault", kind] => Ok(Reply::Fault(fault_of(row, kind)?)),
        _ => Err(row.unread()),
    }
}

/// `mutex MUTEX of THREAD`, `end of THREAD`, `birth` and `nothing`.
fn holder_of(row: &Row, words: &[&str]) -> Result<Option<Holder>, Mismatch> {
    match words {
        ["mutex", name, "of", owner] => Ok(Some(Holder::Mutex {
            mutex: mutex(row, name)?,
            owner: row.number(owner)?,
        })),
        ["end", "of", thread] => Ok(Some(Holder::Join {
            thread: row.number(thread)?,
        })),
        ["birth"] => Ok(Some(Holder::Unborn)),
        ["nothing"] => Ok(None),
        _ => Err(row.unread()),
    }
}

/// Whether 16 threads, 2 mutexes and 2 plain cells have all that the operation names.
fn is_within(op: &Op) -> bool
    ensures { (words : Words) → IsTrue result → length words.threads ≡ 16 → length words.mutexes ≡ 2 → length words.values ≡ 2 → IsWithin words op.now }
{
    match op {
        Op::PlainRead { cell } => *cell < 2,
        Op::MutexInit { mutex } => *mutex < 2,
        Op::Lock { mutex } => *mutex < 2,
        Op::TryLock { mutex } => *mutex < 2,
        Op::Unlock { mutex } => *mutex < 2,
        Op::Join { thread } => *thread < 16,
        _ => true,
    }
}

/// With the plain cells 4 and 9.
fn opened(alloc: Global) -> Result<Replies, Mismatch>
    ensures threads { IfOk result (λ replies. length replies.threads ≡ 16) }
    ensures mutexes { IfOk result (λ replies. length replies.mutexes ≡ 2) }
    ensures values { IfOk result (λ replies. length replies.values ≡ 2) }
{
    let plains = [
        CellInfo {
            name: Name::new(Vec::new(alloc)),
            index: None,
            initial: int(4),
        },
        CellInfo {
            name: Name::new(Vec::new(alloc)),
            index: None,
            initial: int(9),
        },
    ];
    Ok(Replies::open(alloc, &plains, 2, MAIN)?)
}

/// The thread is told this reply of its operation.
fn ask_reply(
    replies: &Replies,
    row: &Row,
    thread: u32,
    act: Act,
    wanted: Reply,
) -> Result<(), Mismatch>
    requires threads { length replies.now.threads ≡ 16 }
    requires mutexes { length replies.now.mutexes ≡ 2 }
    requires values { length replies.now.values ≡ 2 }
{
    let op = op_of(act);
    if thread >= 16 || !is_within(&op) {
        return Err(row.unread());
    }
    let found = replies.answer(thread, &op, int(5));
    row.expect(&found, &wanted)
}

/// The thread's operation waits for this, or for nothing.
fn ask_holder(
    replies: &Replies,
    row: &Row,
    thread: u32,
    act: Act,
    wanted: Option<Holder>,
) -> Result<(), Mismatch>
    requires threads { length replies.now.threads ≡ 16 }
    requires mutexes { length replies.now.mutexes ≡ 2 }
    requires values { length replies.now.values ≡ 2 }
{
    let op = op_of(act);
    if !is_within(&op) {
        return Err(row.unread());
    }
    let found = replies.blocked(thread, &op);
    row.expect(&found, &wanted)
}

/// What the thread does is done.
fn note(replies: &mut Replies, row: &Row, thread: u32, act: Act) -> Result<(), Mismatch>
    ensures { HaveSameCounts replies.old replies.new }
{
    match kind_of(act) {
        Some(kind) if replies.created() < 16 => {
            replies.note(&Event {
                number: 1,
                thread,
                kind,
                from: 0,
            });
            Ok(())
        }
        _ => Err(row.unread()),
    }
}

/// The words before the middle one, and those behind it.
fn parted<'a, 'b>(words: &'b [&'a str], middle: &str) -> Option<(&'b [&'a str], &'b [&'a str])> {
    let place = words.iter().position(|word| *word == middle)?;
    Some((&words[..place], &words[place + 1..]))
}

/// `ACT gets REPLY`: the thread would be told that. `ACT awaits HOLDER`: it would wait for that. `ACT`: it is done.
fn follow(replies: &mut Replies, row: &Row, thread: u32, words: &[&str]) -> Result<(), Mismatch>
    requires threads { length replies.old.threads ≡ 16 }
    requires mutexes { length replies.old.mutexes ≡ 2 }
    requires values { length replies.old.values ≡ 2 }
    ensures { HaveSameCounts replies.old replies.new }
{
    if let Some((act, reply)) = parted(words, "gets") {
        let wanted = reply_of(row, reply)?;
        return ask_reply(replies, row, thread, act_of(row, act)?, wanted);
    }
    if let Some((act, holder)) = parted(words, "awaits") {
        let wanted = holder_of(row, holder)?;
        return ask_holder(replies, row, thread, act_of(row, act)?, wanted);
    }
    note(replies, row, thread, act_of(row, words)?)
}

/// `THREAD ACT`, and what it gets or awaits if it is not done. `THREAD lives yes`, or `no`. `created NUMBER`: so many threads were.
fn step(replies: &mut Replies, row: &Row) -> Result<(), Mismatch>
    requires threads { length replies.old.threads ≡ 16 }
    requires mutexes { length replies.old.mutexes ≡ 2 }
    requires values { length replies.old.values ≡ 2 }
    ensures { HaveSameCounts replies.old replies.new }
{
    match row.words() {
        ["created", number] => row.expect(&replies.created(), &row.number(number)?),
        [thread, "lives", live] => {
            let found = replies.is_live(row.below(thread, 16)?);
            row.expect(&found, &row.is_yes(live)?)
        }
        [thread, words @ ..] => follow(replies, row, row.number(thread)?, words),
        [] => Err(row.unread()),
    }
}

/// What threads do, are told and wait for, with two mutexes and two plain cells.
pub fn play(alloc: Global, part: &mut Part, lines: &str) -> Result<(), Mismatch> {
    let mut replies = opened(alloc)?;
    for line in lines.lines() {
        let row = Row::new(alloc, part.next(), line)?;
        step(&mut replies, &row)?;
    }
    Ok(())
}
