//! Calls, returns, and the beginning of a thread.

ghost use Rattle.std.specs.Prelude.{◌≡◌, ◌+◌, ◌-◌, ◌<◌, ◌≤◌, ◌^◌, ◌++◌, ◌∷◌, [], Some, IfOk, OnOk, pos, replicate, drop, take, length, reverse, slice_get, map};
ghost use Rattle.c11_flat.specs.Code as flat;
ghost use Rattle.c11_flat.specs.Flat.{act, answer_in, beginning, entering, numbers_in, returning, start};
ghost use Rattle.c11_machine.specs.Effects.{meant};
ghost use Rattle.c11_machine.specs.Slots.{values_of};
ghost use Rattle.c11_machine.specs.Steps.{Begins, Took, places_for};
ghost use Rattle.c11_machine.specs.Views.{config_of, listed, numbers_of};

use crate::clear::clear_places;
use crate::code::start_of;
use crate::effect::Effect;
use crate::machine::{Caller, Machine};
use crate::moves::{TURN_LIMIT, put};
use crate::numbers::{int_number, nothing};
use crate::slots::value_in;
use crate::step::Step;
use c11_events::{Ask, Op, Reply, StopKind};
use c11_flat::{Code, Instr, Slot, Start};
use c11_num::{CType, CValue, NoMemory, convert};
use std::alloc::Global;
use std::mem;

/// How many callers a call may have.
const FRAME_LIMIT: usize = 63;

// The values, each in the type of its parameter, with room for so many.
fn given(
    alloc: Global,
    params: &[CType],
    values: &[Slot],
    room: usize,
) -> Result<Vec<CValue>, NoMemory>
    ensures { IfOk result (λ given. numbers_of given.items ≡ numbers_in params.now (values_of values.now)) }
{
    let mut given = Vec::with_capacity(alloc, room)?;
    for i in 0..params.len().min(values.len()) {
        given.push(convert(value_in(values[i]), params[i]))?;
    }
    Ok(given)
}

// The places of a function, of which the parameters take the first; the others are 0.
fn first_places(alloc: Global, start: &Start, values: &[Slot]) -> Result<Vec<CValue>, NoMemory>
    ensures { IfOk result (λ locals. numbers_of locals.items ≡ places_for start.now.params start.now.places (values_of values.now)) }
{
    let mut locals = given(
        alloc,
        start.params.as_slice(),
        values,
        start.places as usize,
    )?;
    let others = (start.places as usize).saturating_sub(start.params.len());
    add_zeros(&mut locals, others)?;
    Ok(locals)
}

// Adds so many places that are 0.
fn add_zeros(locals: &mut Vec<CValue>, count: usize) -> Result<(), NoMemory>
    ensures { OnOk result (numbers_of locals.new.items ≡ numbers_of locals.old.items ++ replicate count (pos 0)) }
{
    let Some(len) = locals.len().checked_add(count) else {
        return Err(NoMemory);
    };
    locals.resize(len, nothing())?;
    Ok(())
}

// What a function that answers this type answers.
fn answer_as(answers: Option<CType>, value: CValue) -> CValue
    ensures { result ≡ answer_in answers value }
{
    match answers {
        None => nothing(),
        Some(ctype) => convert(value, ctype),
    }
}

impl Machine {
    // Calls a function with the last so many values.
    pub(crate) fn call(
        &mut self,
        code: &Code,
        line: u32,
        function: u32,
        count: usize,
    ) -> Result<Step, NoMemory>
        requires { self.old.place + 1 < 2 ^ 64 }
        ensures { Took (act code.now (Instr.Call line function count) (config_of self.old)) (config_of self.old) (config_of self.new) result }
    {
        let Some(bottom) = self.values_from(count) else {
            return Ok(Step::Stuck);
        };
        if self.turns == 0 {
            let effect = self.stops(line, StopKind::Local);
            return self.perform(effect);
        }
        if self.callers.len() >= FRAME_LIMIT {
            let effect = self.stops(line, StopKind::Depth);
            return self.perform(effect);
        }
        match start_of(code, function) {
            None => Ok(Step::Stuck),
            Some(start) => self.enter(start, bottom),
        }
    }

    // Begins a function with the values from this item of the stack on.
    fn enter(&mut self, start: &Start, bottom: usize) -> Result<Step, NoMemory>
        requires place { self.old.place + 1 < 2 ^ 64 }
        requires within { bottom ≤ length self.old.stack.items }
        ensures { let c = config_of self.old in
            Took (entering (Some start.now) c (values_of (drop bottom self.old.stack.items)) (reverse (take bottom self.old.stack.items)) (record c.state { turns = c.state.turns - 1 })) c (config_of self.new) result }
    {
        let alloc = *self.locals.allocator();
        let locals = first_places(alloc, start, self.slots_from(bottom))?;
        self.callers.try_reserve(1)?;
        let caller = Caller {
            place: self.place + 1,
            answers: self.answers,
            locals: mem::replace(&mut self.locals, locals),
        };
        if self.callers.push(caller).is_err() {
            unreachable!();
        }
        self.stack.truncate(bottom);
        self.place = start.place;
        self.answers = start.answers;
        self.turns = self.turns.saturating_sub(1);
        Ok(Step::On)
    }

    // Returns to the caller, or ends the thread.
    pub(crate) fn return_value(&mut self, code: &Code, line: u32) -> Result<Step, NoMemory>
        requires { self.old.place + 1 < 2 ^ 64 }
        ensures { Took (act code.now (Instr.Return line) (config_of self.old)) (config_of self.old) (config_of self.new) result }
    {
        let Some(value) = self.value_at(0) else {
            return Ok(Step::Stuck);
        };
        let answer = answer_as(self.answers, value);
        if self.callers.is_empty() {
            let effect = self.ends(line, answer);
            self.perform(effect)
        } else {
            self.leave(line, answer)
        }
    }

    // The End of the thread with this value.
    fn ends(&self, line: u32, value: CValue) -> Effect
        ensures { let c = config_of self.now in returning line value (drop 1 c.stack) [] c.state ≡ meant result c }
    {
        match self.pending {
            None => Effect::Asks(Ask {
                line,
                op: Op::End {
                    value: int_number(value),
                },
            }),
            Some(_) => Effect::Stuck,
        }
    }

    // Goes back to the caller with this value.
    fn leave(&mut self, line: u32, value: CValue) -> Result<Step, NoMemory>
        requires { 0 < length self.old.callers.items }
        ensures { let c = config_of self.old in Took (returning line value (drop 1 c.stack) c.callers c.state) c (config_of self.new) result }
    {
        put(&mut self.stack, 1, Slot::Value(value))?;
        match self.callers.pop() {
            None => unreachable!(),
            Some(caller) => {
                self.place = caller.place;
                self.answers = caller.answers;
                self.locals = caller.locals;
                Ok(Step::On)
            }
        }
    }

    // Makes so many places 0, from this one on.
    pub(crate) fn clear(&mut self, code: &Code, place: u32, count: u32) -> Result<Step, NoMemory>
        requires { self.old.place + 1 < 2 ^ 64 }
        ensures { Took (act code.now (Instr.Clear place count) (config_of self.old)) (config_of self.old) (config_of self.new) result }
    {
        clear_places(&mut self.locals, place, count);
        self.place += 1;
        Ok(Step::On)
    }

    // Begins the thread with the reply to its Begin; false where that is of another kind, or names no function.
    #[tactic(auto, unfolding(c11_flat::specs::Flat::asking))]
    pub(crate) fn begin(&mut self, code: &Code, reply: Reply) -> Result<bool, NoMemory>
        requires { self.old.pending ≡ Some reply }
        ensures { Begins (start code.now (listed self.old.pending)) (config_of self.old) (config_of self.new) result }
    {
        match reply {
            Reply::Began { function, argument } => self.begin_at(code, function, argument),
            Reply::Done
            | Reply::Value(_)
            | Reply::Exchanged { .. }
            | Reply::Locked(_)
            | Reply::Created(_)
            | Reply::Joined(_)
            | Reply::Fault(_) => Ok(false),
        }
    }

    // Begins the thread's function with its argument.
    fn begin_at(&mut self, code: &Code, function: u32, argument: i64) -> Result<bool, NoMemory>
        requires { self.old.pending ≡ Some (Reply.Began function argument) }
        ensures { Begins (start code.now (listed self.old.pending)) (config_of self.old) (config_of self.new) result }
    {
        let Some(start) = start_of(code, function) else {
            return Ok(false);
        };
        let argument = Slot::Value(CValue::new(CType::Long, i128::from(argument)));
        self.locals = first_places(*self.locals.allocator(), start, &[argument])?;
        self.place = start.place;
        self.stack.clear();
        self.callers.clear();
        self.answers = start.answers;
        self.turns = TURN_LIMIT;
        self.pending = None;
        Ok(true)
    }
}
