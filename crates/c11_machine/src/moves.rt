//! How a machine is changed by an effect.

ghost use Rattle.std.specs.Prelude.{◌≡◌, ◌∷◌, ◌+◌, ◌<◌, ◌^◌, OnOk, OnErr, drop, reverse};
ghost use Rattle.c11_machine.specs.Answers.{wrote};
ghost use Rattle.c11_machine.specs.Effects as spec;
ghost use Rattle.c11_machine.specs.Views.{config_of, numbers_of};

use crate::effect::{Budget, Change, Written};
use crate::machine::Machine;
use c11_events::Reply;
use c11_flat::Slot;
use c11_num::{CValue, NoMemory};

// Puts a slot in the place of so many. Where there are some, it takes no memory.
pub(crate) fn put(stack: &mut Vec<Slot>, takes: usize, slot: Slot) -> Result<(), NoMemory>
    ensures ok { OnOk result (reverse stack.new.items ≡ slot ∷ drop takes (reverse stack.old.items)) }
    ensures err { OnErr result (stack.new.items ≡ stack.old.items) }
{
    let kept = stack.len().saturating_sub(takes);
    if kept < stack.len() {
        stack[kept] = slot;
        stack.truncate(kept + 1);
    } else {
        stack.push(slot)?;
    }
    Ok(())
}

// Takes so many slots off.
pub(crate) fn take(stack: &mut Vec<Slot>, takes: usize)
    ensures { reverse stack.new.items ≡ drop takes (reverse stack.old.items) }
{
    let kept = stack.len().saturating_sub(takes);
    stack.truncate(kept);
}

// Takes so many slots off, and puts one there, if any.
fn change_stack(stack: &mut Vec<Slot>, takes: usize, puts: Option<Slot>) -> Result<(), NoMemory>
    ensures ok { OnOk result (reverse stack.new.items ≡ spec.put puts (drop takes (reverse stack.old.items))) }
    ensures err { OnErr result (stack.new.items ≡ stack.old.items) }
{
    match puts {
        Some(slot) => put(stack, takes, slot),
        None => {
            take(stack, takes);
            Ok(())
        }
    }
}

// Writes to a place, where there is one.
pub(crate) fn write_place(locals: &mut Vec<CValue>, writes: Option<Written>)
    ensures { numbers_of locals.new.items ≡ wrote writes (numbers_of locals.old.items) }
{
    if let Some(written) = writes {
        let place = written.place as usize;
        if place < locals.len() {
            locals[place] = written.value;
        }
    }
}

// Where it goes from this place.
fn place_after(place: usize, to: Option<usize>) -> usize
    requires { place + 1 < 2 ^ 64 }
    ensures { result ≡ spec.target to place }
{
    match to {
        None => place + 1,
        Some(to) => to,
    }
}

fn turns_after(turns: u32, budget: Budget) -> u32
    ensures { result ≡ spec.turns_after budget turns }
{
    match budget {
        Budget::Kept => turns,
        Budget::Turn => turns.saturating_sub(1),
        Budget::Reply => TURN_LIMIT,
    }
}

fn reply_after(pending: Option<Reply>, budget: Budget) -> Option<Reply>
    ensures { result ≡ spec.reply_after budget pending }
{
    match budget {
        Budget::Kept => pending,
        Budget::Turn => pending,
        Budget::Reply => None,
    }
}

/// How many turns and calls may come between two replies.
pub(crate) const TURN_LIMIT: u32 = 100000;

impl Machine {
    // Takes a step inside one function. Where memory is short, nothing changes.
    pub(crate) fn apply(&mut self, change: Change) -> Result<(), NoMemory>
        requires { self.old.place + 1 < 2 ^ 64 }
        ensures ok { OnOk result (config_of self.new ≡ spec.moved change (config_of self.old)) }
        ensures err { OnErr result (config_of self.new ≡ config_of self.old) }
    {
        change_stack(&mut self.stack, change.takes, change.puts)?;
        write_place(&mut self.locals, change.writes);
        self.place = place_after(self.place, change.to);
        self.turns = turns_after(self.turns, change.budget);
        self.pending = reply_after(self.pending, change.budget);
        Ok(())
    }
}
