//! Operations on atomic objects, mutexes and threads.

ghost use Rattle.std.specs.Prelude.{◌≡◌, drop};
ghost use Rattle.c11_events.specs.declared.op.Op.TheVariants as op;
ghost use Rattle.c11_meaning.specs.Outcome.{operation};
ghost use Rattle.c11_meaning.specs.Library.{joined, thread_of};
ghost use Rattle.c11_flat.specs.Flat.{from, giving, mutex_act, on_value};
ghost use Rattle.c11_machine.specs.Effects.{ActsAs, meant};
ghost use Rattle.c11_machine.specs.Views.{config_of};

use crate::answer::Wanted;
use crate::effect::Effect;
use crate::machine::Machine;
use crate::numbers::{long_number, nothing, thread_number};
use c11_events::{Op, Order};
use c11_flat::{Acts, Instr, Place};
use c11_num::{CType, RmwKind, convert};

/// Of a compare-exchange, all but where its objects are.
#[derive(Clone, Copy)]
pub(crate) struct Exchange {
    pub(crate) weak: bool,
    pub(crate) success: Order,
    pub(crate) failure: Order,
    pub(crate) ctype: CType,
    pub(crate) expected: CType,
}

impl Machine {
    pub(crate) fn load(&self, line: u32, order: Order, cell: Place) -> Effect
        ensures { ActsAs (Instr.Load line order cell) result (config_of self.now) }
    {
        let Some(found) = self.found(cell, 0) else {
            return Effect::Stuck;
        };
        let op = Op::AtomicLoad {
            cell: found.place,
            order,
        };
        self.operates(line, op, Wanted::Told, found.below)
    }

    pub(crate) fn store(&self, line: u32, order: Order, ctype: CType, cell: Place) -> Effect
        ensures { ActsAs (Instr.Store line order ctype cell) result (config_of self.now) }
    {
        let Some(value) = self.value_at(0) else {
            return Effect::Stuck;
        };
        let Some(found) = self.found(cell, 1) else {
            return Effect::Stuck;
        };
        let stored = convert(value, ctype);
        let op = Op::AtomicStore {
            cell: found.place,
            order,
            value: stored,
        };
        self.operates(line, op, Wanted::Done(stored), found.below)
    }

    pub(crate) fn modify(
        &self,
        line: u32,
        order: Order,
        kind: RmwKind,
        ctype: CType,
        cell: Place,
        old: bool,
    ) -> Effect
        ensures { ActsAs (Instr.Modify line order kind ctype cell old) result (config_of self.now) }
    {
        let Some(value) = self.value_at(0) else {
            return Effect::Stuck;
        };
        let Some(found) = self.found(cell, 1) else {
            return Effect::Stuck;
        };
        let operand = convert(value, ctype);
        let op = Op::Rmw {
            cell: found.place,
            order,
            kind,
            operand,
        };
        self.operates(
            line,
            op,
            Wanted::Updated { old, kind, operand },
            found.below,
        )
    }

    // The local with the expected value is read last.
    pub(crate) fn compare(&self, line: u32, exchange: Exchange, cell: Place, local: Place) -> Effect
        ensures { ActsAs (Instr.Compare line exchange.weak exchange.success exchange.failure exchange.ctype exchange.expected cell local) result (config_of self.now) }
    {
        let Some(value) = self.value_at(0) else {
            return Effect::Stuck;
        };
        let Some(place) = self.found(local, 1) else {
            return Effect::Stuck;
        };
        let Some(found) = self.found(cell, place.below) else {
            return Effect::Stuck;
        };
        let op = Op::CompareExchange {
            cell: found.place,
            success: exchange.success,
            failure: exchange.failure,
            weak: exchange.weak,
            expected: self.local(exchange.expected, place.place),
            desired: convert(value, exchange.ctype),
        };
        self.operates(line, op, Wanted::Exchanged(place.place), found.below)
    }

    pub(crate) fn fence(&self, line: u32, order: Order) -> Effect
        ensures { ActsAs (Instr.Fence line order) result (config_of self.now) }
    {
        self.operates(line, Op::Fence { order }, Wanted::Done(nothing()), 0)
    }

    pub(crate) fn mutex(&self, line: u32, acts: Acts, mutex: Place) -> Effect
        ensures { ActsAs (Instr.Mutex line acts mutex) result (config_of self.now) }
    {
        let Some(found) = self.found(mutex, 0) else {
            return Effect::Stuck;
        };
        self.acts(line, acts, found.place, found.below)
    }

    // What is done to a mutex, whose value takes the place of so many slots.
    fn acts(&self, line: u32, acts: Acts, mutex: u32, takes: usize) -> Effect
        ensures { let c = config_of self.now in from (mutex_act acts line mutex c.state) (giving c (drop takes c.stack)) ≡ meant result c }
    {
        match acts {
            Acts::Init => self.operates(
                line,
                Op::MutexInit { mutex },
                Wanted::Done(nothing()),
                takes,
            ),
            Acts::Lock => self.operates(line, Op::Lock { mutex }, Wanted::Locked, takes),
            Acts::TryLock => self.operates(line, Op::TryLock { mutex }, Wanted::Tried, takes),
            Acts::Unlock => self.operates(
                line,
                Op::Unlock { mutex },
                Wanted::Done(nothing()),
                takes,
            ),
        }
    }

    pub(crate) fn create(&self, line: u32, function: u32, handle: Place) -> Effect
        ensures { ActsAs (Instr.Create line function handle) result (config_of self.now) }
    {
        let Some(value) = self.value_at(0) else {
            return Effect::Stuck;
        };
        let Some(found) = self.found(handle, 1) else {
            return Effect::Stuck;
        };
        let op = Op::Create {
            function,
            argument: long_number(value),
        };
        self.operates(line, op, Wanted::Created(found.place), found.below)
    }

    pub(crate) fn join(&self, line: u32, answer: Option<Place>) -> Effect
        ensures { ActsAs (Instr.Join line answer) result (config_of self.now) }
    {
        match answer {
            None => self.joins(line, None, 0),
            Some(place) => {
                let Some(found) = self.found(place, 0) else {
                    return Effect::Stuck;
                };
                self.joins(line, Some(found.place), found.below)
            }
        }
    }

    // A join of the thread whose handle lies so far below the top.
    fn joins(&self, line: u32, place: Option<u32>, depth: usize) -> Effect
        ensures { let c = config_of self.now in
            on_value (drop depth c.stack) (λ thread stack. from (operation line (op.Join (thread_of thread)) c.state (joined place)) (giving c stack)) ≡ meant result c }
    {
        let Some(handle) = self.value_at(depth) else {
            return Effect::Stuck;
        };
        let op = Op::Join {
            thread: thread_number(handle),
        };
        self.operates(line, op, Wanted::Joined(place), depth + 1)
    }
}
