ghost use Rattle.std.specs.Prelude.{◌≡◌, ◌+◌, ◌<◌, ◌≤◌, ◌↔◌, ℕ, Some, [], ◌∷◌, ◌++◌, IsTrue, IfOk, length};
ghost use Rattle.c11_events.specs.Events.{IsStore, loaded_cell};
ghost use Rattle.c11_events.specs.HappensBefore.{HappensBefore};
ghost use Rattle.c11_happens.specs.Covers.{UpTo, CoversExactly, HasNoEvent, IsLastOf, IsCreateOf};
ghost use Rattle.c11_happens.specs.Trace.{textless};

#[cfg(test)]
mod tests;

use crate::copy::textless;
use crate::tables::Tables;
use c11_clock::Clock;
use c11_events::Event;
use c11_num::NoMemory;
use std::alloc::Global;
use std::marker::Model;

/// The events of a list, noted one after the other, and which of them happens before which.
///
/// Contracts see it as the list of the events noted, without the texts of Outs, with the count of threads and the room for events.
#[derive(Drop)]
pub struct Happens {
    threads: u32,
    room: u32,
    events: Vec<Event>,
    tables: Tables,
}

impl Model for Happens {
    ghost use Rattle.std.specs.Prelude.{vec_capacity};
    ghost use Rattle.std.specs.HashMap.{spare};
    ghost use Rattle.c11_happens.specs.Trace.{Trace};
    ghost use Rattle.c11_happens.specs.Sound.{IsSound, contents};

    ghost Value = { Trace };

    ghost view = { λ h. record { threads = h.threads; room = h.room; events = h.events.items } };

    ghost invariant = { λ h. IsSound h.threads h.room h.events.items (vec_capacity h.events) (spare h.tables.mutexes) (contents h.tables) };
}

impl Happens {
    /// No event yet, with room for so many events of so many threads. All memory is taken here.
    pub fn open(alloc: Global, threads: u32, events: u32) -> Result<Happens, NoMemory>
        ensures { IfOk result (λ happens. happens ≡ record { threads = threads; room = events; events = [] }) }
    {
        let list = Vec::with_capacity(alloc, events as usize)?;
        let tables = Tables::open(alloc, threads, events)?;
        Ok(Happens {
            threads,
            room: events,
            events: list,
            tables,
        })
    }

    /// Adds the next event. Takes no memory.
    ///
    /// Its number is one more than the last, and where it reads an atomic cell, it reads an earlier store of that cell.
    pub fn note(&mut self, event: &Event)
        requires number { event.now.number ≡ length self.old.events + 1 }
        requires room { length self.old.events < self.old.room }
        requires thread { event.now.thread < self.old.threads }
        requires reads { (cell : ℕ) → loaded_cell event.now.kind ≡ Some cell → IsStore self.old.events cell event.now.from }
        ensures { self.new ≡ record self.old { events = self.old.events ++ textless event.now ∷ [] } }
    {
        let event = textless(*self.events.allocator(), event);
        self.tables.note(&event);
        match self.events.push(event) {
            Ok(()) => {}
            Err(_) => unreachable!(),
        }
    }

    /// Whether the event a happens before the event b (ISO/IEC 9899:2011, 5.1.2.4). Both are noted.
    pub fn before(&self, a: u32, b: u32) -> bool
        requires first { 0 < a }
        requires first_noted { a ≤ length self.now.events }
        requires second { 0 < b }
        requires second_noted { b ≤ length self.now.events }
        ensures { IsTrue result ↔ HappensBefore self.now.events a b }
    {
        let thread = self.events[a as usize - 1].thread;
        a != b && self.tables.clocks[b as usize].covers(thread, a)
    }

    /// The clock of the thread now, with a place for each thread.
    ///
    /// It covers the thread's last event and what happens before it. That of a thread with no event covers its Create and what
    /// happens before that, and nothing where it was not created.
    pub fn clock(&self, thread: u32) -> &Clock
        requires { thread < self.now.threads }
        ensures places { length result.now ≡ self.now.threads }
        ensures last { (b : ℕ) → IsLastOf self.now.events thread b → CoversExactly self.now.events result.now (UpTo self.now.events b) }
        ensures started { (c : ℕ) → HasNoEvent self.now.events thread → IsCreateOf self.now.events thread c → CoversExactly self.now.events result.now (UpTo self.now.events c) }
        ensures unborn { HasNoEvent self.now.events thread → ((c : ℕ) → IsCreateOf self.now.events thread c → ⊥) → CoversExactly self.now.events result.now (λ a. ⊥) }
    {
        &self.tables.known[thread as usize]
    }
}
