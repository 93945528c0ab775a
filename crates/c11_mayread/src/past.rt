ghost use Rattle.std.specs.Prelude.{◌≡◌, ◌<◌, ◌≤◌, ◌*◌, ◌+◌, ◌++◌, ◌∷◌, [], ◌⊎◌, ◌↔◌, ◌&&◌, ℕ, List, Some, None, IsTrue, IfOk, MatchOption, length, true, false, vec_capacity};
ghost use Rattle.c11_events.specs.declared.event.Event.{Event};
ghost use Rattle.c11_events.specs.Events.{IsStore, ReadsEarlier, loaded_cell, stored_cell};
ghost use Rattle.c11_events.specs.Values.{value_of};
ghost use Rattle.c11_events.specs.HappensBefore.{HappensBefore, IsSeqCst};
ghost use Rattle.c11_happens.specs.Covers.{UpTo, CoversExactly, HasNoEvent, IsLastOf, IsCreateOf};
ghost use Rattle.c11_scorder.specs.SeqCst.{Answers, IsSeqCstStore, IsSeqCstFenceOf, IsBeforeFence};
ghost use Rattle.c11_scorder.specs.Tables.{cells_of, threads_of};
ghost use Rattle.c11_mayread.specs.Facts.{IsPastOf, Facts, CanNote, HaveSameCounts};
ghost use Rattle.c11_mayread.specs.Priors.{IsNextOf, ArePriors, AddsPriorsBy, KnowsUpTo, IsLastRead, IsBeforeLastFence, KeepsReadRule};

use crate::kept::Kept;
use crate::kinds::{no_value, written};
use crate::lists::{last_up_to, note_at, put, put_some};
use c11_clock::Clock;
use c11_events::Event;
use c11_happens::Happens;
use c11_latest::Latest;
use c11_num::{CValue, NoMemory};
use c11_scorder::ScOrder;
use c11_scorder::laws::{answers_decide, fences_decide, last_store_stands_for_all};
use std::alloc::Global;
use std::marker::Model;

/// What is kept of the events but for the graph: clocks, the order of the seq_cst events, the stores and the loads of each cell and
/// thread, and of each event what it read and wrote.
///
/// Contracts see of it what it keeps, and the lists of events for which that stands.
#[derive(Drop)]
pub(crate) struct Past {
    threads: u32,
    // One more than the largest thread that has an event. No thread from there on is asked for prior stores.
    top: u32,
    happens: Happens,
    order: ScOrder,
    stores: Latest,
    loads: Latest,
    kept: Vec<Kept>,
}

impl Model for Past {
    ghost use Rattle.c11_mayread.specs.Facts.{Facts};
    ghost use Rattle.c11_mayread.specs.Sound.{facts_of, IsSoundPast};

    ghost Value = { Facts };

    ghost view = { facts_of };

    ghost invariant = { IsSoundPast };
}

impl Past {
    /// No event yet, with room for so many, of so many atomic cells and threads. All memory is taken here.
    pub(crate) fn open(
        alloc: Global,
        cells: u32,
        threads: u32,
        events: u32,
    ) -> Result<Past, NoMemory>
        ensures threads { IfOk result (λ past. past.threads ≡ threads) }
        ensures cells { IfOk result (λ past. cells_of past.order ≡ cells) }
        ensures room { IfOk result (λ past. past.happens.room ≡ events) }
        ensures stands { IfOk result (λ past. IsPastOf past []) }
    {
        Ok(Past {
            threads,
            top: 0,
            happens: Happens::open(alloc, threads, events)?,
            order: ScOrder::open(alloc, cells, threads, events)?,
            stores: Latest::open(alloc, events)?,
            loads: Latest::open(alloc, events)?,
            kept: Vec::with_capacity(alloc, events as usize)?,
        })
    }

    /// Adds the next event. Takes no memory.
    pub(crate) fn note(&mut self, event: &Event)
        requires next { (events : List Event) × (IsPastOf self.old events × CanNote self.old events event.now) }
        ensures same { HaveSameCounts self.old self.new }
        ensures stands { (events : List Event) → IsPastOf self.old events → ReadsEarlier (events ++ event.now ∷ []) → IsPastOf self.new (events ++ event.now ∷ []) }
    {
        let kept = Kept {
            from: event.from,
            seq_cst: event.kind.is_seq_cst(),
            value: written(&event.kind, self.value(event.from)),
        };
        put(&mut self.kept, kept);
        self.top = self.top.max(event.thread + 1);
        note_at(
            &mut self.stores,
            event.kind.stored_cell(),
            event.thread,
            event.number,
        );
        note_at(
            &mut self.loads,
            event.kind.loaded_cell(),
            event.thread,
            event.number,
        );
        self.order.note(event);
        self.happens.note(event);
    }

    /// The value that the store x wrote.
    pub(crate) fn value(&self, x: u32) -> CValue
        ensures { (events : List Event) → IsPastOf self.now events → x ≤ length events → result ≡ value_of events x }
    {
        if x == 0 || x as usize > self.kept.len() {
            return no_value();
        }
        self.kept[x as usize - 1].value
    }

    /// How many threads there are.
    pub(crate) fn threads(&self) -> u32
        ensures { result ≡ self.now.threads }
    {
        self.threads
    }

    /// Whether the event a happens before the event b. Both are noted.
    pub(crate) fn happens_before(&self, a: u32, b: u32) -> bool
        requires first { 0 < a }
        requires first_noted { a ≤ length self.now.kept }
        requires second { 0 < b }
        requires second_noted { b ≤ length self.now.kept }
        ensures { (events : List Event) → IsPastOf self.now events → IsTrue result ↔ HappensBefore events a b }
    {
        let answer = self.happens.before(a, b);
        answer
    }

    /// The clock of the thread now.
    pub(crate) fn clock(&self, thread: u32) -> &Clock
        requires { thread < self.now.threads }
        ensures places { length result.now ≡ self.now.threads }
        ensures last { (events : List Event) → IsPastOf self.now events → (b : ℕ) → IsLastOf events thread b → CoversExactly events result.now (UpTo events b) }
        ensures started { (events : List Event) → IsPastOf self.now events → (c : ℕ) → HasNoEvent events thread → IsCreateOf events thread c → CoversExactly events result.now (UpTo events c) }
        ensures unborn { (events : List Event) → IsPastOf self.now events → HasNoEvent events thread → ((c : ℕ) → IsCreateOf events thread c → ⊥) → CoversExactly events result.now (λ a. ⊥) }
    {
        self.happens.clock(thread)
    }

    // The last event of the thread `of` that a next event of the thread knows of.
    fn known(&self, thread: u32, of: u32) -> u32
        requires thread { thread < self.now.threads }
        requires of { of < self.now.threads }
        ensures { (events : List Event) (e : Event) → IsPastOf self.now events → e.thread ≡ thread → KnowsUpTo events e of result }
    {
        self.clock(thread).get(of)
    }

    // What the last load of the cell by the thread up to the number read.
    fn last_read(&self, cell: u32, of: u32, number: u32) -> Option<u32>
        ensures { (events : List Event) → IsPastOf self.now events → IsLastRead events cell of number result }
    {
        match last_up_to(&self.loads, cell, of, number) {
            Some(load) => Some(self.kept[load as usize - 1].from),
            None => None,
        }
    }

    // The last store of the cell by the thread `of` that is before the last seq_cst fence of the thread.
    fn before_fence_of(&self, thread: u32, cell: u32, of: u32) -> Option<u32>
        requires { thread < self.now.threads }
        ensures { (events : List Event) → IsPastOf self.now events → IsBeforeLastFence events thread cell of result }
    {
        match self.order.last_fence(thread) {
            Some(fence) => self.order.store_before_fence(cell, of, fence),
            None => None,
        }
    }

    // The same for the thread's own fence, where the condition holds.
    fn before_own_fence(&self, cell: u32, of: u32, asked: bool) -> Option<u32>
        requires { of < self.now.threads }
        ensures asked { (events : List Event) → IsPastOf self.now events → asked ≡ true → IsBeforeLastFence events of cell of result }
        ensures none { asked ≡ false → result ≡ None }
    {
        if asked {
            self.before_fence_of(of, cell, of)
        } else {
            None
        }
    }

    // Adds the stores of the thread `of` that stand for all of its stores and loads which must not follow what a next event of the
    // thread, seq_cst or not, reads or writes.
    fn list_priors_of(&self, of: u32, thread: u32, cell: u32, seq_cst: bool, priors: &mut Vec<u32>)
        requires of { of < self.now.threads }
        requires thread { thread < self.now.threads }
        requires room { length priors.old.items + 4 ≤ vec_capacity priors.old }
        ensures count { length priors.new.items ≤ length priors.old.items + 4 }
        ensures capacity { vec_capacity priors.old ≤ vec_capacity priors.new }
        ensures added { (events : List Event) (e : Event) → IsPastOf self.now events → IsNextOf thread seq_cst e → AddsPriorsBy events e cell of priors.old.items priors.new.items }
    {
        fences_decide();
        answers_decide();
        let known = self.known(thread, of);
        let store = last_up_to(&self.stores, cell, of, known);
        let read = self.last_read(cell, of, known);
        let fenced = self.before_fence_of(thread, cell, of);
        let answered = self.before_own_fence(cell, of, seq_cst);
        put_some(priors, store);
        put_some(priors, read);
        put_some(priors, fenced);
        put_some(priors, answered);
    }

    // Adds the stores of all threads that stand for all that must not follow what a next event of the thread reads.
    fn list_read_priors(&self, thread: u32, cell: u32, seq_cst: bool, priors: &mut Vec<u32>)
        requires thread { thread < self.now.threads }
        requires empty { priors.old.items ≡ [] }
        requires room { 4 * self.now.threads ≤ vec_capacity priors.old }
        ensures count { length priors.new.items ≤ 4 * self.now.threads }
        ensures capacity { vec_capacity priors.old ≤ vec_capacity priors.new }
        ensures priors { (events : List Event) (e : Event) → IsPastOf self.now events → IsNextOf thread seq_cst e → ArePriors events e cell false priors.new.items }
    {
        for of in 0..self.top {
            self.list_priors_of(of, thread, cell, seq_cst, priors);
        }
    }

    // The last seq_cst store of the cell, where the condition holds.
    fn last_store_if(&self, cell: u32, asked: bool) -> Option<u32>
        requires { cell < cells_of self.now.order }
        ensures asked { (events : List Event) → IsPastOf self.now events → asked ≡ true → Answers (IsSeqCstStore events cell) result }
        ensures none { asked ≡ false → result ≡ None }
    {
        if asked {
            self.order.last_store(cell)
        } else {
            None
        }
    }

    /// Makes the list that of some stores of the cell which stand for all those that must not follow what a next event of the thread
    /// reads, or writes where it stores.
    pub(crate) fn list_priors(
        &self,
        thread: u32,
        cell: u32,
        seq_cst: bool,
        stores: bool,
        priors: &mut Vec<u32>,
    )
        requires thread { thread < self.now.threads }
        requires cell { cell < cells_of self.now.order }
        requires room { 4 * self.now.threads + 1 ≤ vec_capacity priors.old }
        ensures capacity { vec_capacity priors.old ≤ vec_capacity priors.new }
        ensures priors { (events : List Event) (e : Event) → IsPastOf self.now events → IsNextOf thread seq_cst e → ArePriors events e cell stores priors.new.items }
    {
        last_store_stands_for_all();
        priors.clear();
        self.list_read_priors(thread, cell, seq_cst, priors);
        put_some(priors, self.last_store_if(cell, both(seq_cst, stores)));
    }

    /// Whether a seq_cst event may read the store x of the cell as far as the last seq_cst store goes (ISO/IEC 9899:2011, 7.17.3,
    /// paragraph 6).
    pub(crate) fn keeps_read_rule(&self, cell: u32, x: u32) -> bool
        requires cell { cell < cells_of self.now.order }
        requires store { 0 < x }
        requires noted { x ≤ length self.now.kept }
        ensures { (events : List Event) → IsPastOf self.now events → IsTrue result ↔ KeepsReadRule events cell x }
    {
        match self.order.last_store(cell) {
            None => true,
            Some(last) => x == last || self.stands_apart(x, last),
        }
    }

    // Whether the store x is not seq_cst and does not happen before the store `last`.
    fn stands_apart(&self, x: u32, last: u32) -> bool
        requires first { 0 < x }
        requires first_noted { x ≤ length self.now.kept }
        requires second { 0 < last }
        requires second_noted { last ≤ length self.now.kept }
        ensures { (events : List Event) → IsPastOf self.now events → IsTrue result ↔ ((IsSeqCst events x → ⊥) × (HappensBefore events x last → ⊥)) }
    {
        if self.kept[x as usize - 1].seq_cst {
            false
        } else {
            !self.happens_before(x, last)
        }
    }
}

// Whether both hold.
fn both(first: bool, second: bool) -> bool
    ensures { result ≡ (first && second) }
{
    first && second
}
