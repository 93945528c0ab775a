ghost use Rattle.std.specs.Prelude.{◌≡◌, ◌<◌, ◌≤◌, ◌↔◌, ◌++◌, ◌∷◌, ℕ, List, [], IfOk, OnOk, Some, None, length};
ghost use Rattle.c11_events.specs.declared.event.Event.{Event};

use crate::cell::{Kept, latest_apart, make_room, no_accesses, note};
use crate::epoch::pack;
use c11_clock::Clock;
use c11_num::NoMemory;
use std::alloc::Global;
use std::marker::Model;

/// The kept words of the plain cells of one execution. Contracts see of it the words, and the accesses for which they stand.
#[derive(Debug, Drop)]
pub struct Shadow {
    threads: u32,
    cells: Vec<Kept>,
}

impl Model for Shadow {
    ghost use Rattle.c11_shadow.specs.Words.{Words, AreSafe};

    ghost Value = { Words };

    ghost view = { λ s. record { threads = s.threads; cells = s.cells.items } };

    ghost invariant = { λ s. AreSafe s.threads s.cells.items };
}

impl Shadow {
    ghost use Rattle.c11_shadow.specs.Words.{StandsFor, HasRoom, AreSame, IsAccess, Answers};

    /// No access yet, for so many plain cells and threads, each numbered from 0. An access takes its memory by `room`.
    pub fn open(alloc: Global, cells: u32, threads: u32) -> Result<Shadow, NoMemory>
        ensures threads { IfOk result (λ shadow. shadow.threads ≡ threads) }
        ensures cells { IfOk result (λ shadow. length shadow.cells ≡ cells) }
        ensures none { IfOk result (λ shadow. StandsFor shadow []) }
    {
        let cells = no_accesses(alloc, cells)?;
        Ok(Shadow { threads, cells })
    }

    /// Makes room for the reads of a cell; then no access of the cell takes memory. `Err` only where memory runs out, and then too
    /// the accesses stay as they were.
    pub fn room(&mut self, cell: u32) -> Result<(), NoMemory>
        requires { cell < length self.old.cells }
        ensures room { OnOk result (HasRoom self.new cell) }
        ensures same { AreSame self.old self.new }
        ensures stands { (events : List Event) → StandsFor self.old events → StandsFor self.new events }
        ensures other_room { (other : ℕ) → HasRoom self.old other → HasRoom self.new other }
    {
        let kept = &mut self.cells[cell as usize];
        make_room(kept, self.threads as usize)
    }

    /// Adds an access, a write or a read, of a thread's event with this number, and answers the latest earlier access that races
    /// with it, if one does (C11 5.1.2.4). `clock` is the thread's, just before the event or just after it.
    ///
    /// Room was made for the cell, and no earlier access was answered a number. Takes no memory.
    pub fn access(
        &mut self,
        cell: u32,
        thread: u32,
        number: u32,
        clock: &Clock,
        write: bool,
    ) -> Option<u32>
        requires cell { cell < length self.old.cells }
        requires thread { thread < self.old.threads }
        requires clock { length clock.now ≡ self.old.threads }
        requires room { HasRoom self.old cell }
        ensures answer { (events : List Event) (e : Event) → StandsFor self.old events → IsAccess events e cell thread number write clock.now
            → Answers (events ++ e ∷ []) cell number result }
        ensures stands { (events : List Event) (e : Event) → StandsFor self.old events → IsAccess events e cell thread number write clock.now
            → result ≡ None → StandsFor self.new (events ++ e ∷ []) }
        ensures threads { self.new.threads ≡ self.old.threads }
        ensures cells { length self.new.cells ≡ length self.old.cells }
        ensures room { (other : ℕ) → HasRoom self.old other → HasRoom self.new other }
    {
        let kept = &mut self.cells[cell as usize];
        let latest = latest_apart(kept, thread, clock, write);
        note(kept, pack(thread, number), write);
        some_number(latest)
    }
}

// The number, where it is one: events count from 1.
fn some_number(number: u32) -> Option<u32>
    ensures none { number ≡ 0 → result ≡ None }
    ensures some { 0 < number → result ≡ Some number }
{
    if number == 0 { None } else { Some(number) }
}
