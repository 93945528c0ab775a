ghost use Rattle.std.specs.Prelude.{◌≡◌, ◌+◌, ◌<◌, ◌↔◌, ℕ, Some, IsTrue, length};
ghost use Rattle.std.specs.Option.{option_copied};
ghost use Rattle.c11_events.specs.Events.{IsStore, event_at, loaded_cell};

use super::Happens;
use c11_events::{Event, EventKind, Order};
use c11_num::{CType, CValue, RmwKind};
use rand_core::utils::NextWord;
use rand_pcg::Pcg32;
use std::process::Abort;
use std::test::Fail;

const RELAXED: Order = Order::Relaxed;

const ACQUIRE: Order = Order::Acquire;

const RELEASE: Order = Order::Release;

// What a thread does; a read names the store that is read.
#[derive(Clone, Copy, Debug)]
enum Act {
    Init,
    Load(u32, Order, u32),
    Add(u32, Order, u32),
    Store(u32, Order),
    Fence(Order),
    Read,
    Write,
    Lock(u32),
    TryLock(u32),
    Unlock(u32),
    Create,
    Begin,
    End,
    Join(u32),
}

fn event(number: u32, thread: u32, act: Act) -> Event {
    let value = CValue::new(CType::Int, 1);
    let (kind, from) = match act {
        Act::Init => (EventKind::Init { cell: 0, value }, 0),
        Act::Load(cell, order, from) => (EventKind::AtomicLoad { cell, order }, from),
        Act::Add(cell, order, from) => {
            let kind = RmwKind::Add;
            let operand = value;
            (
                EventKind::Rmw {
                    cell,
                    order,
                    kind,
                    operand,
                },
                from,
            )
        }
        Act::Store(cell, order) => (EventKind::AtomicStore { cell, order, value }, 0),
        Act::Fence(order) => (EventKind::Fence { order }, 0),
        Act::Read => (EventKind::PlainRead { cell: 0 }, 0),
        Act::Write => (EventKind::PlainWrite { cell: 0, value }, 0),
        Act::Lock(mutex) => (EventKind::Lock { mutex }, 0),
        Act::TryLock(mutex) => (EventKind::TryLock { mutex }, 0),
        Act::Unlock(mutex) => (EventKind::Unlock { mutex }, 0),
        Act::Create => {
            let kind = EventKind::Create {
                function: 0,
                argument: 0,
            };
            (kind, 0)
        }
        Act::Begin => (EventKind::Begin, 0),
        Act::End => (EventKind::End { value: 0 }, 0),
        Act::Join(thread) => (EventKind::Join { thread }, 0),
    };
    Event {
        number,
        thread,
        kind,
        from,
    }
}

// The event with this number, if there is one.
fn event_at(events: &[Event], number: u32) -> Option<&Event>
    ensures { option_copied result ≡ event_at events.now number }
{
    let place = number.checked_sub(1)?;
    events.get(place as usize)
}

// Whether x is a store of the cell.
fn is_store(events: &[Event], cell: u32, x: u32) -> bool
    ensures { IsTrue result ↔ IsStore events.now cell x }
{
    match event_at(events, x) {
        Some(event) => event.kind.stored_cell() == Some(cell),
        None => false,
    }
}

impl Happens {
    // Whether the event may be noted next.
    fn may_note(&self, event: &Event) -> bool
        ensures number { IsTrue result → event.now.number ≡ length self.now.events + 1 }
        ensures room { IsTrue result → length self.now.events < self.now.room }
        ensures thread { IsTrue result → event.now.thread < self.now.threads }
        ensures reads { IsTrue result → (cell : ℕ) → loaded_cell event.now.kind ≡ Some cell → IsStore self.now.events cell event.now.from }
    {
        let place = self.events.len();
        event.number as usize == place + 1
            && place < self.room as usize
            && event.thread < self.threads
            && match event.kind.loaded_cell() {
                Some(cell) => is_store(&self.events, cell, event.from),
                None => true,
            }
    }

    // Notes the event, where it may be noted.
    fn noted(&mut self, event: &Event) -> bool {
        let may = self.may_note(event);
        if may {
            self.note(event);
        }
        may
    }

    // Whether a happens before b, where both are noted.
    fn answer(&self, a: u32, b: u32) -> Option<bool> {
        let place = self.events.len();
        let both = 0 < a && a as usize <= place && 0 < b && b as usize <= place;
        if both { Some(self.before(a, b)) } else { None }
    }

    // Whether the thread's clock covers this number of another thread, where there are both.
    fn knows(&self, thread: u32, other: u32, number: u32) -> Option<bool> {
        if thread < self.threads && other < self.threads {
            Some(self.clock(thread).covers(other, number))
        } else {
            None
        }
    }
}

// The store that the cell begins with, main, and the two threads that main creates.
const TWO: &[(u32, Act)] = &[
    (0, Act::Init),
    (0, Act::Begin),
    (0, Act::Create),
    (0, Act::Create),
    (1, Act::Begin),
    (2, Act::Begin),
];

// The same with three threads.
const THREE: &[(u32, Act)] = &[
    (0, Act::Init),
    (0, Act::Begin),
    (0, Act::Create),
    (0, Act::Create),
    (0, Act::Create),
    (1, Act::Begin),
    (2, Act::Begin),
    (3, Act::Begin),
];

// A beginning, the events behind it, and which of them happens before which.
type Row<'a> = (&'a [(u32, Act)], &'a [(u32, Act)], &'a [(u32, u32, bool)]);

#[test]
fn rows_are_ordered_as_the_standard_says(rt: HostRuntime) -> Result<(), Fail> {
    let rows: [Row; 7] = [
        // A release fence and an acquire fence synchronize through relaxed accesses, the accesses themselves do not.
        (
            TWO,
            &[
                (1, Act::Write),
                (1, Act::Fence(RELEASE)),
                (1, Act::Store(0, RELAXED)),
                (2, Act::Load(0, RELAXED, 9)),
                (2, Act::Fence(ACQUIRE)),
                (2, Act::Read),
            ],
            &[(7, 12, true), (7, 10, false), (9, 12, false)],
        ),
        // A release sequence is broken by a store of its own thread.
        (
            TWO,
            &[
                (1, Act::Write),
                (1, Act::Store(0, RELEASE)),
                (1, Act::Store(0, RELAXED)),
                (2, Act::Load(0, ACQUIRE, 9)),
                (2, Act::Read),
            ],
            &[(7, 11, false), (8, 10, false)],
        ),
        // Its head itself synchronizes.
        (
            TWO,
            &[
                (1, Act::Write),
                (1, Act::Store(0, RELEASE)),
                (1, Act::Store(0, RELAXED)),
                (2, Act::Load(0, ACQUIRE, 8)),
                (2, Act::Read),
            ],
            &[(7, 11, true), (8, 10, true), (9, 11, false)],
        ),
        // A release sequence is carried by a read-modify-write of another thread.
        (
            THREE,
            &[
                (1, Act::Write),
                (1, Act::Store(0, RELEASE)),
                (3, Act::Add(0, RELAXED, 10)),
                (2, Act::Load(0, ACQUIRE, 11)),
                (2, Act::Read),
            ],
            &[(9, 13, true), (10, 12, true), (11, 12, false)],
        ),
        // Each unlock comes before each later lock that finds the mutex free, that of a thread that did not hold it too.
        (
            THREE,
            &[
                (1, Act::Lock(7)),
                (3, Act::Unlock(7)),
                (1, Act::Unlock(7)),
                (2, Act::TryLock(7)),
                (3, Act::Lock(7)),
                (3, Act::Unlock(8)),
            ],
            &[
                (10, 12, true),
                (11, 12, true),
                (9, 12, true),
                (11, 13, false),
                (12, 13, false),
            ],
        ),
        // Each End comes before a later Join, and what the thread does after it does not.
        (
            THREE,
            &[
                (1, Act::Write),
                (1, Act::End),
                (1, Act::Write),
                (1, Act::End),
                (1, Act::Read),
                (0, Act::Join(1)),
                (0, Act::Join(9)),
            ],
            &[(9, 14, true), (12, 14, true), (13, 14, false)],
        ),
        // A Create comes before the first event of its thread, where it comes first.
        (
            THREE,
            &[(4, Act::Begin), (0, Act::Create), (4, Act::Read)],
            &[(5, 8, true), (5, 7, false), (10, 11, false), (2, 6, true)],
        ),
    ];
    for (row, (begin, steps, pairs)) in rows.iter().enumerate() {
        let mut happens = Happens::open(rt.alloc(), 5, 16)?;
        let mut number = 0u32;
        for (thread, act) in begin.iter().chain(steps.iter()) {
            number = number.saturating_add(1);
            assert!(rt;
                happens.noted(&event(number, *thread, *act)),
                "row {row}, event {number}"
            );
        }
        for (a, b, before) in pairs.iter() {
            assert!(rt;
                happens.answer(*a, *b) == Some(*before),
                "row {row}: {a} before {b}"
            );
        }
    }
    Ok(())
}

// The definition, pair by pair, over the events so far.

// Whether a releases what one takes over that reads from the release sequence with the store x.
fn releases(events: &[Event], a: usize, mut x: usize) -> bool {
    for _ in 0..events.len() {
        match (events.get(a), events.get(x)) {
            (Some(first), Some(head)) => {
                let store = a == x && first.kind.is_release_store();
                let fence = first.kind.is_release_fence();
                if store || fence && a < x && first.thread == head.thread {
                    return true;
                }
                if head.kind.stored_cell().is_none() || head.from == 0 {
                    return false;
                }
                x = head.from as usize - 1;
            }
            _ => return false,
        }
    }
    false
}

// Whether b takes over what is released to one of its thread's loads, or to itself.
fn takes_read(events: &[Event], a: usize, b: &Event) -> bool {
    for load in events.iter() {
        let own = load.number == b.number && b.kind.is_acquire_load();
        let earlier = load.thread == b.thread && load.number < b.number;
        let fenced = earlier && b.kind.is_acquire_fence();
        if (own || fenced) && 0 < load.from && releases(events, a, load.from as usize - 1) {
            return true;
        }
    }
    false
}

// Whether the events leave the mutex free.
fn is_free(events: &[Event], mutex: u32) -> bool {
    let mut owner = None;
    for event in events.iter() {
        let unlocks = event.kind.unlocked_mutex() == Some(mutex);
        if owner.is_none() && event.kind.locked_mutex() == Some(mutex) {
            owner = Some(event.thread);
        } else if unlocks && owner == Some(event.thread) {
            owner = None;
        }
    }
    owner.is_none()
}

// Whether the event is its thread's first, and the Creates of the events make the thread.
fn is_begun_by(creates: &[Event], before: &[Event], b: &Event) -> bool {
    let mut made = 0u32;
    for event in creates.iter() {
        if event.kind.is_create() {
            made = made.saturating_add(1);
        }
    }
    for event in before.iter() {
        if event.thread == b.thread {
            return false;
        }
    }
    made == b.thread
}

// Whether the event at place a comes directly before that at the later place b.
fn is_direct(events: &[Event], a: usize, b: usize) -> bool {
    let (first, second) = match (events.get(a), events.get(b)) {
        (Some(first), Some(second)) => (first, second),
        _ => return false,
    };
    let before = events.get(..b).unwrap_or(&[]);
    let mutex = first.kind.unlocked_mutex();
    let locks = mutex.is_some() && second.kind.locked_mutex() == mutex;
    let ends = first.kind.is_end();
    first.thread == second.thread
        || takes_read(events, a, second)
        || locks && is_free(before, mutex.unwrap_or(0))
        || first.kind.is_create() && is_begun_by(events.get(..a + 1).unwrap_or(&[]), before, second)
        || ends && second.kind.joined_thread() == Some(first.thread)
}

// A number below the choices.
fn draw(words: &mut Pcg32, choices: u32) -> u32
    requires { 0 < choices }
    ensures { result < choices }
{
    words.next_word() % choices
}

fn drawn_order(words: &mut Pcg32) -> Order {
    match draw(words, 6) {
        0 => Order::Relaxed,
        1 => Order::Consume,
        2 => Order::Acquire,
        3 => Order::Release,
        4 => Order::AcqRel,
        _ => Order::SeqCst,
    }
}

// One of the stores of the cell, 0 where there is none.
fn drawn_store(words: &mut Pcg32, events: &[Event], cell: u32) -> u32 {
    let mut found = 0;
    for event in events.iter() {
        let stores = event.kind.stored_cell() == Some(cell);
        if stores && (found == 0 || draw(words, 2) == 0) {
            found = event.number;
        }
    }
    found
}

// What any of four threads may do next, also what none does in a run.
fn drawn_act(words: &mut Pcg32, events: &[Event]) -> Act {
    let cell = draw(words, 2);
    let order = drawn_order(words);
    let from = drawn_store(words, events, cell);
    match draw(words, 12) {
        0 | 1 if from > 0 => Act::Load(cell, order, from),
        2 | 3 if from > 0 => Act::Add(cell, order, from),
        0..=4 => Act::Store(cell, order),
        5 | 6 => Act::Fence(order),
        7 => Act::Lock(cell),
        8 => Act::Unlock(cell),
        9 => Act::Create,
        10 => Act::End,
        _ => Act::Join(draw(words, 6)),
    }
}

// The last of the thread's events, or where it has none its Create.
fn last_known(events: &[Event], thread: u32) -> Option<usize> {
    let mut made = 0u32;
    let mut create = None;
    let mut last = None;
    for (place, event) in events.iter().enumerate() {
        if event.thread == thread {
            last = Some(place);
        }
        if event.kind.is_create() {
            made = made.saturating_add(1);
            if made == thread {
                create = Some(place);
            }
        }
    }
    last.or(create)
}

const EVENTS: usize = 14;

#[test]
fn random_lists_are_ordered_as_the_standard_says(rt: HostRuntime) -> Result<(), Fail> {
    let mut words = Pcg32::new(5, 1_442_695_040_888_963_407);
    for list in 0..500 {
        let mut happens = Happens::open(rt.alloc(), 4, 14)?;
        let mut events = Vec::new(rt.alloc());
        let mut before = [[false; EVENTS]; EVENTS];
        for b in 0..EVENTS {
            let act = drawn_act(&mut words, events.as_slice());
            let next = event(b as u32 + 1, draw(&mut words, 4), act);
            assert!(rt; happens.noted(&next), "list {list}, event {b}");
            events.push(next)?;
            for m in 0..b {
                if is_direct(events.as_slice(), m, b) {
                    before[b][m] = true;
                    for a in 0..m {
                        before[b][a] = before[b][a] || before[m][a];
                    }
                }
            }
        }
        for b in 0..EVENTS {
            for a in 0..EVENTS {
                assert!(rt;
                    happens.answer(a as u32 + 1, b as u32 + 1) == Some(before[b][a]),
                    "list {list}: {a} before {b} of {events:?}"
                );
            }
        }
        for thread in 0..4 {
            let last = last_known(events.as_slice(), thread);
            for (a, event) in events.iter().enumerate() {
                let known = match last {
                    Some(b) if b < EVENTS && a < EVENTS => a == b || before[b][a],
                    _ => false,
                };
                assert!(rt;
                    happens.knows(thread, event.thread, event.number) == Some(known),
                    "list {list}: thread {thread}, {a} of {events:?}"
                );
            }
        }
    }
    Ok(())
}
