ghost use Rattle.std.specs.Prelude.{◌≡◌, ◌+◌, ◌<◌, ℕ, Some, None, List, [], ◌∷◌, ◌++◌, IfOk, replicate};
ghost use Rattle.c11_events.specs.declared.event.Event.{Event};
ghost use Rattle.c11_events.specs.Events.{stored_cell};
ghost use Rattle.c11_scorder.specs.SeqCst.{Answers, IsSeqCstStore, IsSeqCstFence, IsSeqCstFenceOf, IsBeforeFence};
ghost use Rattle.c11_scorder.specs.Tables.{StandsFor, AreAlike, AreSame, cells_of, threads_of, some_if, IsLastStoreUpTo};

use crate::kinds::{is_seq_cst_fence, seq_cst_cell};
use crate::tables::{later, note_at, set_at};
use c11_events::Event;
use c11_latest::Latest;
use c11_num::NoMemory;
use std::alloc::Global;
use std::marker::Model;

// A fence is of no cell; those of a thread are noted as of this one.
const FENCES: u32 = 0;

/// The stores, and the seq_cst events, of a list of events that are noted one after the other.
///
/// Contracts see of it the counts and the tables, and the lists of events for which these stand.
#[derive(Drop)]
pub struct ScOrder {
    room: u32,
    noted: u32,
    stores: Latest,
    seq_cst_stores: Latest,
    fences: Latest,
    // The last seq_cst store of each cell, and the last seq_cst fence of each thread.
    last_stores: Vec<Option<u32>>,
    last_fences: Vec<Option<u32>>,
}

impl Model for ScOrder {
    ghost use Rattle.c11_scorder.specs.Tables.{Tables, AreSound};

    ghost Value = { Tables };

    ghost view = { λ s. record {
      room = s.room;
      noted = s.noted;
      stores = s.stores;
      seq_cst_stores = s.seq_cst_stores;
      fences = s.fences;
      last_stores = s.last_stores.items;
      last_fences = s.last_fences.items;
    } };

    ghost invariant = { λ s. AreSound s.room s.noted s.stores s.seq_cst_stores s.fences };
}

impl ScOrder {
    /// No event yet, with room for so many, of so many atomic cells and threads, each numbered from 0. All memory is taken here.
    pub fn open(alloc: Global, cells: u32, threads: u32, events: u32) -> Result<ScOrder, NoMemory>
        ensures cells { IfOk result (λ order. cells_of order ≡ cells) }
        ensures threads { IfOk result (λ order. threads_of order ≡ threads) }
        ensures room { IfOk result (λ order. order.room ≡ events) }
        ensures none { IfOk result (λ order. order.noted ≡ 0) }
        ensures stands { IfOk result (λ order. StandsFor order []) }
    {
        Ok(ScOrder {
            room: events,
            noted: 0,
            stores: Latest::open(alloc, events)?,
            seq_cst_stores: Latest::open(alloc, events)?,
            fences: Latest::open(alloc, events)?,
            last_stores: none_yet(alloc, cells)?,
            last_fences: none_yet(alloc, threads)?,
        })
    }

    /// Adds the next event, whose number is one more than the last. Takes no memory.
    ///
    /// The tables then stand for the events with it, or with an event that differs from it in nothing that they keep.
    pub fn note(&mut self, event: &Event)
        requires number { event.now.number ≡ self.old.noted + 1 }
        requires room { self.old.noted < self.old.room }
        requires thread { event.now.thread < threads_of self.old }
        requires cell { (cell : ℕ) → stored_cell event.now.kind ≡ Some cell → cell < cells_of self.old }
        ensures noted { self.new.noted ≡ self.old.noted + 1 }
        ensures same { AreSame self.old self.new }
        ensures stands { (events : List Event) (e : Event) → StandsFor self.old events → AreAlike e event.now → StandsFor self.new (events ++ e ∷ []) }
    {
        let number = event.number;
        let thread = event.thread;
        let seq_cst = seq_cst_cell(&event.kind);
        let fence = is_seq_cst_fence(&event.kind);
        note_at(&mut self.stores, event.kind.stored_cell(), thread, number);
        note_at(&mut self.seq_cst_stores, seq_cst, thread, number);
        note_at(&mut self.fences, some_if(fence, FENCES), thread, number);
        set_at(&mut self.last_stores, seq_cst, number);
        set_at(&mut self.last_fences, some_if(fence, thread), number);
        self.noted = number;
    }

    /// The last seq_cst store of the cell (ISO/IEC 9899:2011, 7.17.3).
    pub fn last_store(&self, cell: u32) -> Option<u32>
        requires { cell < cells_of self.now }
        ensures { (events : List Event) → StandsFor self.now events → Answers (IsSeqCstStore events cell) result }
    {
        self.last_stores[cell as usize]
    }

    /// The last seq_cst fence of the thread.
    pub fn last_fence(&self, thread: u32) -> Option<u32>
        requires { thread < threads_of self.now }
        ensures { (events : List Event) → StandsFor self.now events → Answers (IsSeqCstFenceOf events thread) result }
    {
        self.last_fences[thread as usize]
    }

    /// The last store of the cell by the thread that is seq_cst and before the fence, or that is followed in its thread by a seq_cst
    /// fence which is this one or before it (ISO/IEC 9899:2011, 7.17.3, paragraphs 9 to 11). The fence is a noted seq_cst fence.
    pub fn store_before_fence(&self, cell: u32, thread: u32, fence: u32) -> Option<u32>
        ensures { (events : List Event) → StandsFor self.now events → IsSeqCstFence events fence → Answers (IsBeforeFence events cell thread fence) result }
    {
        let seq_cst = self.seq_cst_stores.last_up_to(cell, thread, fence);
        let own = self.fences.last_up_to(FENCES, thread, fence);
        later(seq_cst, last_store_up_to(&self.stores, cell, thread, own))
    }
}

// So many places, with no last event yet.
fn none_yet(alloc: Global, count: u32) -> Result<Vec<Option<u32>>, NoMemory>
    ensures { IfOk result (λ lasts. lasts.items ≡ replicate count None) }
{
    Ok(Vec::from_elem(alloc, None, count as usize)?)
}

// The value, where the condition holds.
fn some_if(condition: bool, value: u32) -> Option<u32>
    ensures { result ≡ some_if condition value }
{
    if condition { Some(value) } else { None }
}

// The last store of the cell and the thread up to the bound, where there is one.
fn last_store_up_to(stores: &Latest, cell: u32, thread: u32, bound: Option<u32>) -> Option<u32>
    ensures { IsLastStoreUpTo stores.now.notes cell thread bound result }
{
    stores.last_up_to(cell, thread, bound?)
}
