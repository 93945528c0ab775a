ghost use Rattle.std.specs.Prelude.{◌≡◌, ◌≤◌, ◌<◌, ◌-◌, ◌↔◌, ◌++◌, ◌∷◌, [], Some, IsTrue, IsSome, IfOk, OnErr, false, is_some, length, ◌^◌};
ghost use Rattle.c11_events.specs.EventOf.{events_of};
ghost use Rattle.c11_events.specs.Lawful.{Consistent};
ghost use Rattle.c11_events.specs.Offered.{Offered, op_cell};
ghost use Rattle.c11_events.specs.Replies.{answer, thread_limit};
ghost use Rattle.c11_events.specs.Steps.{IsStep};
ghost use Rattle.c11_events.specs.Threads.{blocked_by, created, IsLive};
ghost use Rattle.c11_events.specs.declared.op.Ask.{Ask};
ghost use Rattle.c11_history.specs.Past.{AreOffers, IsRaceOfLast, IsWithin, opened};

use crate::adding::{commit, make_room, note_access, put};
use crate::opening::{add_inits, copy_cells};
use c11_check::Checked;
use c11_events::{CellInfo, Entry, Holder, Offers, Op, Reply};
use c11_mayread::Reads;
use c11_num::NoMemory;
use c11_replies::Replies;
use c11_shadow::Shadow;
use std::alloc::Global;
use std::marker::Model;

/// A race of the last access of a plain cell with an earlier one.
#[derive(Clone, Copy, Debug, PartialEq, Eq)]
pub struct Race {
    /// The number of the latest earlier access that races.
    pub first: u32,
    pub cell: u32,
}

/// The history of an execution: its entries, and what is kept of them to tell what comes next.
#[derive(Drop)]
pub struct History {
    atomics: Vec<CellInfo>,
    plains: Vec<CellInfo>,
    main: u32,
    // How many entries more there may be.
    room: u32,
    entries: Vec<Entry>,
    reads: Reads,
    shadow: Shadow,
    replies: Replies,
    // Whether the last entry races.
    raced: bool,
}

impl Model for History {
    ghost use Rattle.c11_history.specs.Past.{Past};
    ghost use Rattle.c11_history.specs.Sound.{past_of, IsSoundHistory};

    ghost Value = { Past };

    ghost view = { past_of };

    ghost invariant = { IsSoundHistory };
}

// How many threads there may be, with main.
const THREADS: u32 = 16;

impl History {
    /// The history before the first step, with one Init for each atomic cell of the program, and room for so many entries more, at
    /// most 10,000.
    pub fn open(alloc: Global, checked: &Checked, room: u32) -> Result<History, NoMemory>
        requires { room ≤ 10000 }
        ensures { IfOk result (λ history. history ≡ opened checked.now room) }
    {
        let atomics = copy_cells(alloc, checked.atomics())?;
        let plains = copy_cells(alloc, checked.plains())?;
        let count = checked.atomic_count();
        let main = checked.main();
        let mut entries = Vec::with_capacity(alloc, (count + room) as usize)?;
        let mut reads = Reads::open(alloc, count, THREADS, count + room)?;
        let mut replies = Replies::open(alloc, plains.as_slice(), checked.mutex_count(), main)?;
        let shadow = Shadow::open(alloc, checked.plain_count(), THREADS)?;
        add_inits(
            alloc,
            atomics.as_slice(),
            &mut entries,
            &mut reads,
            &mut replies,
        )?;
        Ok(History {
            atomics,
            plains,
            main,
            room,
            entries,
            reads,
            shadow,
            replies,
            raced: false,
        })
    }

    /// Whether the thread is created, as `main` is from the start, and has not ended.
    pub fn is_live(&self, thread: u32) -> bool
        requires { thread < thread_limit }
        ensures { IsTrue result ↔ IsLive (events_of self.now.entries) thread }
    {
        self.replies.is_live(thread)
    }

    /// How many threads were created, without `main`.
    pub fn created(&self) -> u32
        ensures count { result ≡ created (events_of self.now.entries) }
        ensures few { result ≤ 14096 }
    {
        self.replies.created()
    }

    /// What the thread's operation waits for, if it is blocked. Takes no memory.
    pub fn blocked(&self, thread: u32, op: &Op) -> Option<Holder>
        requires { IsWithin self.now.setting self.now.mutexes op.now }
        ensures { result ≡ blocked_by (events_of self.now.entries) thread op.now }
    {
        self.replies.blocked(thread, op)
    }

    /// The stores that the thread's operation may read next, in rising order: those whose reading keeps the history consistent. There
    /// is one at least; none where the operation reads no atomic cell.
    pub fn offers(&self, thread: u32, op: &Op) -> Result<Offers, NoMemory>
        requires thread { thread < thread_limit }
        requires within { IsWithin self.now.setting self.now.mutexes op.now }
        ensures offers { IfOk result (λ offers. AreOffers (events_of self.now.entries) thread op.now offers) }
        ensures some { IfOk result (λ offers. IsSome (op_cell op.now) → 0 < length offers) }
        ensures few { IfOk result (λ offers. length offers < 2 ^ 32) }
    {
        self.reads.offers(thread, op)
    }

    /// What the thread is told of its operation, which reads this store; of one that reads no atomic cell, with any number. Takes no
    /// memory.
    pub fn answer(&self, thread: u32, op: &Op, from: u32) -> Reply
        requires thread { thread < thread_limit }
        requires within { IsWithin self.now.setting self.now.mutexes op.now }
        requires noted { from ≤ length self.now.entries }
        ensures { result ≡ answer self.now.setting (events_of self.now.entries) thread op.now from }
    {
        self.replies.answer(thread, op, self.reads.value(from))
    }

    /// How many entries there are.
    pub fn count(&self) -> u32
        ensures count { result ≡ length self.now.entries }
        ensures few { result ≤ 14096 }
    {
        self.entries.len() as u32
    }

    /// Adds the next entry, a step that a thread makes, and answers the latest earlier access that races with it, if one does. All
    /// memory is taken before the first change.
    ///
    /// No earlier entry was answered a race.
    pub fn add(&mut self, entry: Entry) -> Result<Option<Race>, NoMemory>
        requires quiet { self.old.raced ≡ false }
        requires room { 0 < self.old.room }
        requires thread { entry.thread < thread_limit }
        requires within { IsWithin self.old.setting self.old.mutexes entry.op }
        requires step { (ask : Ask) × IsStep Offered self.old.setting self.old.entries entry.thread ask entry }
        ensures added { IfOk result (λ race. self.new ≡ record self.old { entries = self.old.entries ++ entry ∷ []; room = self.old.room - 1; raced = is_some race }) }
        ensures race { IfOk result (λ race. IsRaceOfLast (events_of self.new.entries) race) }
        ensures refused { OnErr result (self.new ≡ self.old) }
    {
        let event = entry.event()?;
        self.reads.room(&entry.op)?;
        make_room(&mut self.shadow, &event.kind)?;
        commit(&mut self.reads, &mut self.replies, &event);
        let race = note_access(&mut self.shadow, &self.reads, &event);
        put(&mut self.entries, entry);
        self.room -= 1;
        self.raced = race.is_some();
        Ok(race)
    }

    /// The entries, in order.
    pub fn entries(&self) -> &[Entry]
        ensures entries { result.now ≡ self.now.entries }
        ensures consistent { Consistent (events_of self.now.entries) }
    {
        self.entries.as_slice()
    }

    /// The entries by themselves. Takes no memory.
    pub fn into_entries(self) -> Vec<Entry>
        ensures entries { result.items ≡ self.entries }
        ensures consistent { Consistent (events_of self.entries) }
    {
        self.entries
    }
}
