ghost use Rattle.std.specs.Prelude.{◌≡◌, ◌<◌, ◌≤◌, ◌⊎◌, ◌↔◌, ◌++◌, ◌∷◌, ◌*◌, ◌+◌, [], ℕ, Bool, List, Some, None, true, false, IsTrue, IfOk, OnOk, length, vec_capacity, slice_get};
ghost use Rattle.c11_events.specs.declared.event.Event.{Event};
ghost use Rattle.c11_events.specs.declared.event.EventKind.{EventKind};
ghost use Rattle.c11_events.specs.Events.{IsStore, is_seq_cst_order};
ghost use Rattle.c11_events.specs.Chains.{ChainLawful};
ghost use Rattle.c11_events.specs.HappensBefore.{HappensBefore};
ghost use Rattle.c11_events.specs.Values.{value_of};
ghost use Rattle.c11_events.specs.Offered.{op_cell, op_reading, IsChainOffered, ChainOffered, IsRisingList, Offered};
ghost use Rattle.c11_happens.specs.Covers.{UpTo, CoversExactly, HasNoEvent, IsLastOf, IsCreateOf};
ghost use Rattle.c11_mayread.specs.Asks.{stores_by};
ghost use Rattle.c11_mayread.specs.Standing.{Words, StandsFor, CanCommit, HaveSameCounts, IsReady, cells_of, threads_of, room_of, committed};
ghost use Rattle.c11_mayread.specs.Choosing.{MayFollow, IsAskedAt};
ghost use Rattle.c11_mayread.specs.Listed.{PriorReads, PriorWrites};
ghost use Rattle.c11_mayread.specs.Priors.{IsNextOf, ListsPriors};

use crate::asked::{Asked, asked_of, may_only_load, may_store, stores_by};
use crate::linking::link_event;
use crate::past::Past;
use c11_clock::Clock;
use c11_events::{Event, Offers, Op, Order};
use c11_mograph::Graph;
use c11_num::{CValue, NoMemory};
use c11_scorder::laws::last_store_decides;
use std::alloc::Global;
use std::marker::Model;

/// The events of one execution as far as they decide what a next read may take: clocks, chains, and the order of the seq_cst events.
///
/// Contracts see of it what it keeps, and the lists of events for which that stands.
#[derive(Drop)]
pub struct Reads {
    past: Past,
    graph: Graph,
    // What must precede the event that is being committed.
    priors: Vec<u32>,
}

impl Model for Reads {
    ghost use Rattle.c11_mayread.specs.Standing.{Words};
    ghost use Rattle.c11_mayread.specs.SoundReads.{words_of, IsSoundReads};

    ghost Value = { Words };

    ghost view = { words_of };

    ghost invariant = { IsSoundReads };
}

impl Reads {
    /// No event yet, with room for so many, of so many atomic cells and threads, each numbered from 0. All memory is taken here but
    /// that of `room` and of the lists that are answered.
    pub fn open(alloc: Global, cells: u32, threads: u32, events: u32) -> Result<Reads, NoMemory>
        ensures cells { IfOk result (λ reads. cells_of reads ≡ cells) }
        ensures threads { IfOk result (λ reads. threads_of reads ≡ threads) }
        ensures events { IfOk result (λ reads. room_of reads ≡ events) }
        ensures stands { IfOk result (λ reads. StandsFor reads []) }
    {
        Ok(Reads {
            past: Past::open(alloc, cells, threads, events)?,
            graph: Graph::open(alloc, cells, threads, events)?,
            priors: Vec::with_capacity(alloc, most_priors(threads))?,
        })
    }

    // Some stores that stand for all that must not follow what a next event of the thread reads, or writes.
    fn priors(
        &self,
        thread: u32,
        cell: u32,
        seq_cst: bool,
        stores: bool,
    ) -> Result<Vec<u32>, NoMemory>
        requires thread { thread < threads_of self.now }
        requires cell { cell < cells_of self.now }
        ensures { IfOk result (λ priors. (events : List Event) → StandsFor self.now events → ListsPriors events thread cell seq_cst stores priors.items) }
    {
        let alloc = *self.priors.allocator();
        let mut priors = Vec::with_capacity(alloc, most_priors(self.past.threads()))?;
        self.past
            .list_priors(thread, cell, seq_cst, stores, &mut priors);
        Ok(priors)
    }

    // The same where they are needed; else none, which takes no memory.
    fn priors_if(
        &self,
        needed: bool,
        thread: u32,
        cell: u32,
        seq_cst: bool,
        stores: bool,
    ) -> Result<Vec<u32>, NoMemory>
        requires thread { thread < threads_of self.now }
        requires cell { cell < cells_of self.now }
        ensures needed { IfOk result (λ priors. needed ≡ true → (events : List Event) → StandsFor self.now events → ListsPriors events thread cell seq_cst stores priors.items) }
        ensures none { IfOk result (λ priors. needed ≡ false → priors.items ≡ []) }
    {
        if needed {
            self.priors(thread, cell, seq_cst, stores)
        } else {
            Ok(Vec::new(*self.priors.allocator()))
        }
    }

    /// Stores of the cell that must not follow what a next load of the thread with this order reads: each one that must not is one of
    /// these or must precede one. So each other one that must precede what is read reaches one of these, or what is read, already.
    pub fn prior_read(&self, thread: u32, cell: u32, order: Order) -> Result<Offers, NoMemory>
        requires thread { thread < threads_of self.now }
        requires cell { cell < cells_of self.now }
        ensures priors { IfOk result (λ priors. (events : List Event) → StandsFor self.now events → ListsPriors events thread cell (is_seq_cst_order order) false priors) }
        ensures decides { IfOk result (λ priors. (events : List Event) → StandsFor self.now events → PriorReads events thread cell (is_seq_cst_order order) priors) }
    {
        Ok(Offers::new(self.priors(thread, cell, order.is_seq_cst(), false)?))
    }

    /// Stores of the cell that must precede a next store of the thread with this order: each one that must is one of these or must
    /// precede one. What a read-modify-write reads is not listed for that.
    pub fn prior_write(&self, thread: u32, cell: u32, order: Order) -> Result<Offers, NoMemory>
        requires thread { thread < threads_of self.now }
        requires cell { cell < cells_of self.now }
        ensures priors { IfOk result (λ priors. (events : List Event) → StandsFor self.now events → ListsPriors events thread cell (is_seq_cst_order order) true priors) }
        ensures decides { IfOk result (λ priors. (events : List Event) → StandsFor self.now events → PriorWrites events thread cell (is_seq_cst_order order) priors) }
    {
        Ok(Offers::new(self.priors(thread, cell, order.is_seq_cst(), true)?))
    }

    // Whether the chains and, for a seq_cst event, the read rule let an event with these priors read x.
    fn may_follow(&self, cell: u32, seq_cst: bool, priors: &[u32], x: u32) -> bool
        requires cell { cell < cells_of self.now }
        requires store { 0 < x }
        requires noted { x ≤ committed self.now }
        ensures { (events : List Event) (e : Event) (stores : Bool) → StandsFor self.now events → IsStore events cell x → e.from ≡ x → IsNextOf e.thread seq_cst e → ListsPriors events e.thread cell seq_cst stores priors.now → IsTrue result ↔ MayFollow events e cell stores }
    {
        if self.graph.may_precede(priors, x) {
            !seq_cst || self.past.keeps_read_rule(cell, x)
        } else {
            false
        }
    }

    // Whether x is offered to what is asked, by the priors of a store where it writes behind x, and those of a load where it does not.
    fn is_offered(&self, asked: &Asked, as_store: &[u32], as_load: &[u32], x: u32) -> bool
        requires cell { asked.now.cell < cells_of self.now }
        requires store { 0 < x }
        requires noted { x ≤ committed self.now }
        ensures { (events : List Event) (e : Event) → StandsFor self.now events → IsStore events asked.now.cell x → e.from ≡ x → IsAskedAt asked.now events e.kind x
            → (stores_by asked.now.writes (value_of events x) ≡ true → ListsPriors events e.thread asked.now.cell asked.now.seq_cst_store true as_store.now)
            → (stores_by asked.now.writes (value_of events x) ≡ false → ListsPriors events e.thread asked.now.cell asked.now.seq_cst_load false as_load.now)
            → IsTrue result ↔ ChainLawful (events ++ e ∷ []) }
    {
        last_store_decides();
        let stores = stores_by(&asked.writes, self.past.value(x));
        if stores {
            if self.graph.ends_chain(x) {
                self.may_follow(asked.cell, asked.seq_cst_store, as_store, x)
            } else {
                false
            }
        } else {
            self.may_follow(asked.cell, asked.seq_cst_load, as_load, x)
        }
    }

    // The stores that are offered to what is asked.
    fn offers_of(&self, thread: u32, asked: &Asked) -> Result<Vec<u32>, NoMemory>
        requires thread { thread < threads_of self.now }
        requires cell { asked.now.cell < cells_of self.now }
        ensures { IfOk result (λ offers. (events : List Event) (reading : ℕ → EventKind) → StandsFor self.now events → ((x : ℕ) → IsAskedAt asked.now events (reading x) x)
            → IsRisingList (IsChainOffered events thread reading asked.now.cell) offers.items) }
    {
        let stores = may_store(&asked.writes);
        let as_store = self.priors_if(stores, thread, asked.cell, asked.seq_cst_store, true)?;
        let loads = may_only_load(&asked.writes);
        let as_load = self.priors_if(loads, thread, asked.cell, asked.seq_cst_load, false)?;
        let candidates = self.graph.stores(asked.cell);
        let mut offers = Vec::new(*self.priors.allocator());
        for x in candidates {
            if self.is_offered(asked, as_store.as_slice(), as_load.as_slice(), *x) {
                offers.push(*x)?;
            }
        }
        Ok(offers)
    }

    /// The stores that the thread's operation may read next, in rising order: those whose reading keeps the events consistent, which are
    /// those whose reading keeps them chain-lawful. There is one where the cell has a store. None where the operation reads no atomic cell.
    pub fn offers(&self, thread: u32, op: &Op) -> Result<Offers, NoMemory>
        requires thread { thread < threads_of self.now }
        requires cell { (cell : ℕ) → op_cell op.now ≡ Some cell → cell < cells_of self.now }
        ensures offers { IfOk result (λ offers. (events : List Event) (cell : ℕ) → StandsFor self.now events → op_cell op.now ≡ Some cell → Offered events thread (op_reading events op.now) cell offers) }
        ensures chain_offers { IfOk result (λ offers. (events : List Event) (cell : ℕ) → StandsFor self.now events → op_cell op.now ≡ Some cell → ChainOffered events thread (op_reading events op.now) cell offers) }
        ensures some { IfOk result (λ offers. (events : List Event) (cell s : ℕ) → StandsFor self.now events → op_cell op.now ≡ Some cell → IsStore events cell s → 0 < length offers) }
        ensures none { IfOk result (λ offers. op_cell op.now ≡ None → offers ≡ []) }
    {
        match asked_of(op) {
            Some(asked) => Ok(Offers::new(self.offers_of(thread, &asked)?)),
            None => Ok(Offers::new(Vec::new(*self.priors.allocator()))),
        }
    }

    /// Makes room for one event; then `commit` takes no memory. `Err` only where memory runs out. The events are the same in both cases,
    /// and room that was there stays.
    pub fn room(&mut self, _op: &Op) -> Result<(), NoMemory>
        ensures ready { OnOk result (IsReady self.new) }
        ensures stays { IsReady self.old → IsReady self.new }
        ensures stands { (events : List Event) → StandsFor self.old events → StandsFor self.new events }
        ensures same { HaveSameCounts self.old self.new }
    {
        self.graph.room(1)
    }

    /// Adds the next event, for which room was made since the last one. Takes no memory.
    ///
    /// The events with it are chain-lawful, as they are where it reads what was offered, or nothing.
    pub fn commit(&mut self, event: &Event)
        requires ready { IsReady self.old }
        requires next { (events : List Event) × (StandsFor self.old events × CanCommit self.old events event.now) }
        ensures stands { (events : List Event) → StandsFor self.old events → ChainLawful (events ++ event.now ∷ []) → StandsFor self.new (events ++ event.now ∷ []) }
        ensures same { HaveSameCounts self.old self.new }
    {
        link_event(&mut self.graph, &self.past, &mut self.priors, event);
        self.past.note(event);
    }

    /// The value that the store x wrote.
    pub fn value(&self, x: u32) -> CValue
        ensures { (events : List Event) → StandsFor self.now events → x ≤ length events → result ≡ value_of events x }
    {
        self.past.value(x)
    }

    /// Whether the event a happens before the event b (ISO/IEC 9899:2011, 5.1.2.4). Both are committed.
    pub fn before(&self, a: u32, b: u32) -> bool
        requires first { 0 < a }
        requires first_committed { a ≤ committed self.now }
        requires second { 0 < b }
        requires second_committed { b ≤ committed self.now }
        ensures { (events : List Event) → StandsFor self.now events → IsTrue result ↔ HappensBefore events a b }
    {
        self.past.happens_before(a, b)
    }

    /// The clock of the thread now, with a place for each thread.
    ///
    /// It covers the thread's last event and what happens before it. That of a thread with no event covers its Create and what
    /// happens before that, and nothing where it was not created.
    pub fn clock(&self, thread: u32) -> &Clock
        requires { thread < threads_of self.now }
        ensures places { length result.now ≡ threads_of self.now }
        ensures last { (events : List Event) → StandsFor self.now events → (b : ℕ) → IsLastOf events thread b → CoversExactly events result.now (UpTo events b) }
        ensures started { (events : List Event) → StandsFor self.now events → (c : ℕ) → HasNoEvent events thread → IsCreateOf events thread c → CoversExactly events result.now (UpTo events c) }
        ensures unborn { (events : List Event) → StandsFor self.now events → HasNoEvent events thread → ((c : ℕ) → IsCreateOf events thread c → ⊥) → CoversExactly events result.now (λ a. ⊥) }
    {
        self.past.clock(thread)
    }
}

// The most stores that stand for all prior ones.
fn most_priors(threads: u32) -> usize
    ensures { result ≡ 4 * threads + 1 }
{
    4 * threads as usize + 1
}
