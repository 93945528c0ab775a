//! What is kept step by step offers what the plain program offers, on random lists of events.
ghost use Rattle.std.specs.Prelude.{◌≡◌, ◌<◌, ℕ, [], Some, None, IfOk, OnOk};
ghost use Rattle.c11_events.specs.Events.{stored_cell, loaded_cell};
ghost use Rattle.c11_events.specs.Chains.{ChainLawful};
ghost use Rattle.c11_events.specs.Offered.{op_cell, op_reading, extended};
ghost use Rattle.c11_examples.specs.Both.{IsKept, IsOfTwoCells};

use super::acts::int;
use super::draws::{draw, drawn_order, drawn_read, drawn_value};
use super::stop::Stop;
use c11_events::{Event, Op};
use c11_mayread::Reads;
use c11_plain::{chain_offered, extended};
use rand_core::utils::NextWord;
use rand_pcg::Pcg32;
use std::alloc::Global;

const LISTS: u64 = 300;

// More reads than so many are drawn, and more with a choice.
const READS: u32 = 900;

const CHOICES: u32 = 300;

// How many reads were compared, and how many of them were offered two stores or more.
#[derive(Drop)]
struct Compared {
    reads: u32,
    choices: u32,
}

// Two cells, four threads.
fn open(alloc: Global) -> Result<Reads, Stop>
    ensures { IfOk result (λ reads. IsKept reads []) }
{
    Ok(Reads::open(alloc, 2, 4, 64)?)
}

// The thread's operation is the next event of both, and reads this store where it is a read.
fn extend(
    reads: &mut Reads,
    events: &mut Vec<Event>,
    thread: u32,
    op: &Op,
    from: u32,
) -> Result<(), Stop>
    requires kept { IsKept reads.old events.old.items }
    requires thread { thread < 4 }
    requires cells { IsOfTwoCells (op_reading events.old.items op.now from) }
    requires lawful { ChainLawful (extended events.old.items thread (op_reading events.old.items op.now) from) }
    ensures { OnOk result (IsKept reads.new events.new.items) }
{
    let count = events.len();
    if count >= 64 {
        return Err(Stop::found(*events.allocator(), "there is no room"));
    }
    let longer = extended(*events.allocator(), events.as_slice(), thread, op, from)?;
    let Some(event) = longer.get(count) else {
        return Err(Stop::found(*events.allocator(), "there is no event more"));
    };
    reads.room(op)?;
    reads.commit(event);
    *events = longer;
    Ok(())
}

// The thread's operation, which reads no atomic cell, is the next event of both.
fn other(reads: &mut Reads, events: &mut Vec<Event>, thread: u32, op: &Op) -> Result<(), Stop>
    requires kept { IsKept reads.old events.old.items }
    requires thread { thread < 4 }
    requires loads { loaded_cell (op_reading events.old.items op.now 0) ≡ None }
    requires stores { (cell : ℕ) → stored_cell (op_reading events.old.items op.now 0) ≡ Some cell → cell < 2 }
    ensures { OnOk result (IsKept reads.new events.new.items) }
{
    extend(reads, events, thread, op, 0)
}

// The operation is offered other stores than by the plain program.
fn differ(alloc: Global, offers: &[u32], expected: &[u32], op: &Op, events: &[Event]) -> Stop {
    match format!(in alloc;
        "offered {offers:?}, by the plain program {expected:?}: {op:?} behind {events:?}"
    ) {
        Ok(words) => Stop::Found(words),
        Err(_) => Stop::NoMemory,
    }
}

// The thread's operation on the cell is offered the same stores by both, one at least, and reads one of them by a draw.
fn read(
    words: &mut Pcg32,
    reads: &mut Reads,
    events: &mut Vec<Event>,
    thread: u32,
    cell: u32,
    op: &Op,
    compared: &mut Compared,
) -> Result<(), Stop>
    requires kept { IsKept reads.old events.old.items }
    requires thread { thread < 4 }
    requires cell { cell < 2 }
    requires reads { op_cell op.now ≡ Some cell }
    ensures { OnOk result (IsKept reads.new events.new.items) }
{
    let offers = reads.offers(thread, op)?;
    let expected = chain_offered(*events.allocator(), events.as_slice(), thread, op)?;
    if offers.as_slice() != expected.as_slice() {
        let (offers, expected) = (offers.as_slice(), expected.as_slice());
        return Err(differ(*events.allocator(), offers, expected, op, events.as_slice()));
    }
    compared.reads = compared.reads.saturating_add(1);
    if expected.len() > 1 {
        compared.choices = compared.choices.saturating_add(1);
    }
    let place = words.next_word() as usize % expected.len().max(1);
    match expected.get(place) {
        Some(from) => extend(reads, events, thread, op, *from),
        None => Err(Stop::found(*events.allocator(), "no store is offered")),
    }
}

// A fence of the thread, or its access of a plain cell, is the next event.
fn fence_or_plain(
    words: &mut Pcg32,
    reads: &mut Reads,
    events: &mut Vec<Event>,
    thread: u32,
) -> Result<(), Stop>
    requires kept { IsKept reads.old events.old.items }
    requires thread { thread < 4 }
    ensures { OnOk result (IsKept reads.new events.new.items) }
{
    let cell = draw(words, 2);
    match draw(words, 4) {
        0 => other(reads, events, thread, &Op::PlainRead { cell }),
        1 => {
            let value = int(drawn_value(words));
            other(reads, events, thread, &Op::PlainWrite { cell, value })
        }
        _ => {
            let order = drawn_order(words);
            other(reads, events, thread, &Op::Fence { order })
        }
    }
}

// An operation of the thread on a mutex is the next event.
fn mutex(
    words: &mut Pcg32,
    reads: &mut Reads,
    events: &mut Vec<Event>,
    thread: u32,
) -> Result<(), Stop>
    requires kept { IsKept reads.old events.old.items }
    requires thread { thread < 4 }
    ensures { OnOk result (IsKept reads.new events.new.items) }
{
    let mutex = draw(words, 2);
    match draw(words, 6) {
        0 => other(reads, events, thread, &Op::MutexInit { mutex }),
        1 => other(reads, events, thread, &Op::TryLock { mutex }),
        2 | 3 => other(reads, events, thread, &Op::Lock { mutex }),
        _ => other(reads, events, thread, &Op::Unlock { mutex }),
    }
}

// The thread ends, or joins another, as the next event.
fn end_or_join(
    words: &mut Pcg32,
    reads: &mut Reads,
    events: &mut Vec<Event>,
    thread: u32,
) -> Result<(), Stop>
    requires kept { IsKept reads.old events.old.items }
    requires thread { thread < 4 }
    ensures { OnOk result (IsKept reads.new events.new.items) }
{
    if draw(words, 2) == 0 {
        return other(reads, events, thread, &Op::End { value: 0 });
    }
    let joined = draw(words, 4);
    other(reads, events, thread, &Op::Join { thread: joined })
}

// A store of the thread to the cell is the next event.
fn store(
    words: &mut Pcg32,
    reads: &mut Reads,
    events: &mut Vec<Event>,
    thread: u32,
    cell: u32,
) -> Result<(), Stop>
    requires kept { IsKept reads.old events.old.items }
    requires thread { thread < 4 }
    requires cell { cell < 2 }
    ensures { OnOk result (IsKept reads.new events.new.items) }
{
    let order = drawn_order(words);
    let value = int(drawn_value(words));
    other(
        reads,
        events,
        thread,
        &Op::AtomicStore { cell, order, value },
    )
}

// The next event, of one of so many threads.
fn draw_step(
    words: &mut Pcg32,
    reads: &mut Reads,
    events: &mut Vec<Event>,
    threads: u32,
    compared: &mut Compared,
) -> Result<(), Stop>
    requires kept { IsKept reads.old events.old.items }
    requires some { 0 < threads }
    requires few { threads < 5 }
    ensures { OnOk result (IsKept reads.new events.new.items) }
{
    let thread = draw(words, threads);
    let cell = draw(words, 2);
    match draw(words, 12) {
        0 | 1 | 2 | 3 | 4 => {
            let op = drawn_read(words, cell);
            read(words, reads, events, thread, cell, &op, compared)
        }
        5 | 6 | 7 => store(words, reads, events, thread, cell),
        8 | 9 => fence_or_plain(words, reads, events, thread),
        10 => mutex(words, reads, events, thread),
        _ => end_or_join(words, reads, events, thread),
    }
}

// The events before the first step: the Inits of both cells, and then main and the threads that it creates.
fn begin(reads: &mut Reads, events: &mut Vec<Event>, threads: u32) -> Result<(), Stop>
    requires kept { IsKept reads.old events.old.items }
    requires few { threads < 5 }
    ensures { OnOk result (IsKept reads.new events.new.items) }
{
    for cell in 0..2 {
        let value = int(0);
        other(reads, events, 0, &Op::Init { cell, value })?;
    }
    other(reads, events, 0, &Op::Begin)?;
    for thread in 1..threads {
        let function = 0;
        let argument = 0;
        other(reads, events, 0, &Op::Create { function, argument })?;
        other(reads, events, thread, &Op::Begin)?;
    }
    Ok(())
}

// A list of events by draws of this seed, of three or four threads.
fn play(alloc: Global, seed: u64, compared: &mut Compared) -> Result<(), Stop> {
    let mut words = Pcg32::new(seed, 1_442_695_040_888_963_407);
    let threads = 3 + draw(&mut words, 2);
    let steps = 8 + draw(&mut words, 7);
    let mut reads = open(alloc)?;
    let mut events = Vec::new(alloc);
    begin(&mut reads, &mut events, threads)?;
    for _ in 0..steps {
        draw_step(&mut words, &mut reads, &mut events, threads, compared)?;
    }
    Ok(())
}

/// Random lists of events: each read is offered the same by what is kept step by step and by the plain program.
pub fn each_step_offers_the_same(alloc: Global) -> Result<String, Stop> {
    let mut compared = Compared {
        reads: 0,
        choices: 0,
    };
    for seed in 0..LISTS {
        play(alloc, seed, &mut compared)?;
    }
    let Compared { reads, choices } = compared;
    if reads <= READS || choices <= CHOICES {
        return Err(Stop::Found(format!(in alloc;
            "{reads} reads, {choices} with a choice, in {LISTS} random lists"
        )?));
    }
    Ok(format!(in alloc;
        "each step offers what the plain program offers: {LISTS} random lists, over {READS} reads, over {CHOICES} with a choice"
    )?)
}
