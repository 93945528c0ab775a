ghost use Rattle.std.specs.Prelude.{◌≡◌, IfOk};
ghost use Rattle.c11_events.specs.EventOf.{event_of};

use crate::event::{Event, kind_of};
use crate::op::Op;
use crate::reply::Reply;
use c11_num::NoMemory;
use std::marker::Model;

/// The numbers of the stores that were offered to a read, which contracts see as a list.
#[derive(Debug, Drop)]
pub struct Offers {
    numbers: Vec<u32>,
}

impl Model for Offers {
    ghost use Rattle.std.specs.Prelude.{List, ℕ};

    ghost Value = { List ℕ };

    ghost view = { λ o. o.numbers.items };
}

impl Offers {
    /// These numbers. It takes no memory.
    pub fn new(numbers: Vec<u32>) -> Offers
        ensures { result ≡ numbers.items }
    {
        Offers { numbers }
    }

    /// The numbers as a slice.
    pub fn as_slice(&self) -> &[u32]
        ensures { result.now ≡ self.now }
    {
        self.numbers.as_slice()
    }
}

/// One line of a history: an operation of a thread and what became of it.
#[derive(Debug, Drop)]
pub struct Entry {
    /// The entry's place in the history, from 1.
    pub number: u32,
    /// The thread, from 0, which is `main`.
    pub thread: u32,
    /// The line of the program, from 1; 0 where none asks for the operation.
    pub line: u32,
    pub op: Op,
    pub reply: Reply,
    /// The number of the store that was read, and 0 where nothing was read from an atomic cell.
    pub from: u32,
    /// The stores that the read might have taken, and none where nothing was read from an atomic cell.
    pub offered: Offers,
}

impl Entry {
    /// What the memory model sees of the entry.
    pub fn event(&self) -> Result<Event, NoMemory>
        ensures { IfOk result (λ event. event ≡ event_of self.now) }
    {
        Ok(Event {
            number: self.number,
            thread: self.thread,
            kind: kind_of(&self.op, self.reply)?,
            from: self.from,
        })
    }
}
