ghost use Rattle.std.specs.Prelude.{◌≡◌, ◌<◌, ◌≤◌, ◌+◌, ℕ, [], ◌∷◌, ◌++◌, Some, IfOk, MatchOption, length, vec_capacity, if◌then◌else◌};
ghost use Rattle.std.specs.HashMap.{spare};
ghost use Rattle.c11_latest.specs.Notes.{note, IsNoted, HasNoneUpTo, IsLastUpTo};
ghost use Rattle.c11_latest.specs.Linked.{last_in, same_pair};

use crate::links::{Link, earlier, link_after};
use c11_num::NoMemory;
use std::alloc::Global;
use std::collections::HashMap;
use std::marker::Model;

/// The number of an event, noted of a cell and a thread. None of the three is bounded by a count.
#[derive(Clone, Copy, Debug)]
pub struct Note {
    pub cell: u32,
    pub thread: u32,
    pub number: u32,
}

/// Numbers noted of pairs of a cell and a thread, rising in each pair.
///
/// Contracts see it as the list of all notes in their order, with the room for them.
#[derive(Drop)]
pub struct Latest {
    room: u32,
    notes: Vec<Note>,
    links: Vec<Link>,
    // The place of the last note of each pair.
    last: HashMap<(u32, u32), u32>,
}

impl Model for Latest {
    ghost use Rattle.std.specs.Prelude.{vec_capacity};
    ghost use Rattle.std.specs.HashMap.{spare};
    ghost use Rattle.c11_latest.specs.Notes.{Notes};
    ghost use Rattle.c11_latest.specs.Linked.{IsSound, last_in};

    ghost Value = { Notes };

    ghost view = { λ l. record { room = l.room; notes = l.notes.items } };

    ghost invariant = { λ l. IsSound l.room l.notes.items l.links.items (last_in l.last) (vec_capacity l.notes) (vec_capacity l.links) (spare l.last) };
}

impl Latest {
    /// No note yet, with room for so many. All memory is taken here.
    pub fn open(alloc: Global, events: u32) -> Result<Latest, NoMemory>
        ensures { IfOk result (λ latest. latest ≡ record { room = events; notes = [] }) }
    {
        let count = events as usize;
        Ok(Latest {
            room: events,
            notes: Vec::with_capacity(alloc, count)?,
            links: Vec::with_capacity(alloc, count)?,
            last: HashMap::with_capacity(alloc, count)?,
        })
    }

    /// Notes the number, which is larger than all noted before of the cell and the thread. Takes no memory.
    pub fn note(&mut self, cell: u32, thread: u32, number: u32)
        requires room { length self.old.notes < self.old.room }
        requires rises { (y : ℕ) → IsNoted self.old.notes cell thread y → y < number }
        ensures { self.new ≡ record self.old { notes = self.old.notes ++ note cell thread number ∷ [] } }
    {
        let place = self.notes.len() as u32;
        let before = last_place(&self.last, cell, thread);
        let link = link_after(&self.links, before);
        put(
            &mut self.notes,
            Note {
                cell,
                thread,
                number,
            },
        );
        put(&mut self.links, link);
        put_last(&mut self.last, cell, thread, place);
    }

    /// The largest number noted of the cell and the thread that is at most `number`, in time logarithmic in the notes of the two.
    pub fn last_up_to(&self, cell: u32, thread: u32, number: u32) -> Option<u32>
        ensures { MatchOption result (HasNoneUpTo self.now.notes cell thread number) (λ x. IsLastUpTo self.now.notes cell thread number x) }
    {
        let mut place = last_place(&self.last, cell, thread);
        while let Some(at) = place {
            let found = self.notes[at as usize].number;
            if found <= number {
                return Some(found);
            }
            place = earlier(&self.notes, &self.links, at, number);
        }
        None
    }
}

// The place of the last note of the pair.
fn last_place(last: &HashMap<(u32, u32), u32>, cell: u32, thread: u32) -> Option<u32>
    ensures { result ≡ last_in last.now cell thread }
{
    match last.get(&(cell, thread)) {
        Some(place) => Some(*place),
        None => None,
    }
}

// Keeps the place of the last note of the pair. There is room for it.
fn put_last(last: &mut HashMap<(u32, u32), u32>, cell: u32, thread: u32, place: u32)
    requires { 0 < spare last.old }
    ensures last { (c t : ℕ) → last_in last.new c t ≡ (if same_pair (cell, thread) (c, t) then Some place else last_in last.old c t) }
    ensures spare { spare last.old ≤ spare last.new + 1 }
{
    match last.insert((cell, thread), place) {
        Ok(_) => {}
        Err(_) => unreachable!(),
    }
}

// Adds the item. There is room for it.
fn put<T: Drop>(list: &mut Vec<T>, item: T)
    requires { length list.old.items < vec_capacity list.old }
    ensures items { list.new.items ≡ list.old.items ++ item ∷ [] }
    ensures capacity { vec_capacity list.old ≤ vec_capacity list.new }
{
    match list.push(item) {
        Ok(()) => {}
        Err(_) => unreachable!(),
    }
}
