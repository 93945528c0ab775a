//! Instructions that compute, and that read and write objects which are not atomic.

ghost use Rattle.std.specs.Prelude.{◌≡◌, drop};
ghost use Rattle.c11_meaning.specs.Objects.{new_or_old};
ghost use Rattle.c11_meaning.specs.Expressions.{prefixed};
ghost use Rattle.c11_flat.specs.Flat.{from, giving, read_at, write_at};
ghost use Rattle.c11_machine.specs.Effects.{ActsAs, meant};
ghost use Rattle.c11_machine.specs.Views.{config_of};

use crate::answer::Wanted;
use crate::effect::{Budget, Change, Effect, Written};
use crate::machine::Machine;
use crate::numbers::{
    cast_to, element_of, flip, is_zero, kept_of, nothing, one, step_op, truth, zero_in,
};
use c11_ast::{CastTo, Prefix};
use c11_events::{Op, StopKind};
use c11_flat::{Instr, Place, Slot, Span, Storage};
use c11_num::{BinaryOp, CType, CValue, binary, convert};

/// An object that is not atomic.
#[derive(Clone, Copy)]
struct Object {
    storage: Storage,
    ctype: CType,
    place: u32,
}

impl Machine {
    pub(crate) fn element(&self, line: u32, span: Span) -> Effect
        ensures { ActsAs (Instr.Element line span) result (config_of self.now) }
    {
        let Some(index) = self.value_at(0) else {
            return Effect::Stuck;
        };
        match element_of(span, index) {
            Some(place) => Effect::puts(1, Slot::Place(place)),
            None => self.stops(line, StopKind::Bounds),
        }
    }

    // Reads an object, whose value takes the place of so many slots.
    fn reads(&self, line: u32, storage: Storage, ctype: CType, place: u32, takes: usize) -> Effect
        ensures { let c = config_of self.now in from (read_at storage ctype line place c.state) (giving c (drop takes c.stack)) ≡ meant result c }
    {
        match storage {
            Storage::Local => Effect::gives(takes, self.local(ctype, place)),
            Storage::Plain => {
                self.operates(line, Op::PlainRead { cell: place }, Wanted::Told, takes)
            }
        }
    }

    pub(crate) fn read(&self, line: u32, storage: Storage, ctype: CType, place: Place) -> Effect
        ensures { ActsAs (Instr.Read line storage ctype place) result (config_of self.now) }
    {
        let Some(found) = self.found(place, 0) else {
            return Effect::Stuck;
        };
        self.reads(line, storage, ctype, found.place, found.below)
    }

    pub(crate) fn fetch(&self, line: u32, storage: Storage, ctype: CType, place: Place) -> Effect
        ensures { ActsAs (Instr.Fetch line storage ctype place) result (config_of self.now) }
    {
        let Some(found) = self.found(place, 0) else {
            return Effect::Stuck;
        };
        self.reads(line, storage, ctype, found.place, 0)
    }

    pub(crate) fn compute(&self, line: u32, op: BinaryOp) -> Effect
        ensures { ActsAs (Instr.Compute line op) result (config_of self.now) }
    {
        let Some(right) = self.value_at(0) else {
            return Effect::Stuck;
        };
        let Some(left) = self.value_at(1) else {
            return Effect::Stuck;
        };
        self.computes(line, binary(op, left, right), 2)
    }

    // Writes a value to an object. What takes the place of so many slots is the value in the type of the object, or the old one.
    fn writes(
        &self,
        line: u32,
        object: Object,
        value: CValue,
        new: bool,
        old: CValue,
        takes: usize,
    ) -> Effect
        ensures { let c = config_of self.now in
            from (write_at object.storage object.ctype line object.place value c.state) (λ z st. giving c (drop takes c.stack) (new_or_old new z old) st) ≡ meant result c }
    {
        let written = convert(value, object.ctype);
        let kept = kept_of(new, written, old);
        match object.storage {
            Storage::Local => Effect::Moves(Change {
                takes,
                puts: Some(Slot::Value(kept)),
                writes: Some(Written {
                    place: object.place,
                    value: written,
                }),
                to: None,
                budget: Budget::Kept,
            }),
            Storage::Plain => self.operates(
                line,
                Op::PlainWrite {
                    cell: object.place,
                    value: written,
                },
                Wanted::Done(kept),
                takes,
            ),
        }
    }

    pub(crate) fn write(&self, line: u32, storage: Storage, ctype: CType, place: Place) -> Effect
        ensures { ActsAs (Instr.Write line storage ctype place) result (config_of self.now) }
    {
        let Some(value) = self.value_at(0) else {
            return Effect::Stuck;
        };
        let Some(found) = self.found(place, 1) else {
            return Effect::Stuck;
        };
        let object = Object {
            storage,
            ctype,
            place: found.place,
        };
        self.writes(line, object, value, true, value, found.below)
    }

    pub(crate) fn step_up_or_down(&self, line: u32, up: bool) -> Effect
        ensures { ActsAs (Instr.Step line up) result (config_of self.now) }
    {
        let Some(value) = self.value_at(0) else {
            return Effect::Stuck;
        };
        self.computes(line, binary(step_op(up), value, one()), 0)
    }

    pub(crate) fn stepped(
        &self,
        line: u32,
        storage: Storage,
        ctype: CType,
        place: Place,
        before: bool,
    ) -> Effect
        ensures { ActsAs (Instr.Stepped line storage ctype place before) result (config_of self.now) }
    {
        let Some(value) = self.value_at(0) else {
            return Effect::Stuck;
        };
        let Some(old) = self.value_at(1) else {
            return Effect::Stuck;
        };
        let Some(found) = self.found(place, 2) else {
            return Effect::Stuck;
        };
        let object = Object {
            storage,
            ctype,
            place: found.place,
        };
        self.writes(line, object, value, before, old, found.below)
    }

    pub(crate) fn prefix(&self, line: u32, op: Prefix) -> Effect
        ensures { ActsAs (Instr.Prefix line op) result (config_of self.now) }
    {
        let Some(value) = self.value_at(0) else {
            return Effect::Stuck;
        };
        self.prefixes(line, op, value)
    }

    // An operator before its operand, whose value takes the place of the top.
    fn prefixes(&self, line: u32, op: Prefix, value: CValue) -> Effect
        ensures { let c = config_of self.now in from (prefixed op line value c.state) (giving c (drop 1 c.stack)) ≡ meant result c }
    {
        match op {
            Prefix::Minus => {
                self.computes(
                    line,
                    binary(BinaryOp::Sub, zero_in(value.ctype()), value),
                    1,
                )
            }
            Prefix::Plus => Effect::gives(1, value),
            Prefix::Not => Effect::gives(1, truth(is_zero(value))),
            Prefix::Flip => Effect::gives(1, flip(value)),
        }
    }

    pub(crate) fn cast(&self, to: CastTo) -> Effect
        ensures { ActsAs (Instr.Cast to) result (config_of self.now) }
    {
        let Some(value) = self.value_at(0) else {
            return Effect::Stuck;
        };
        Effect::gives(1, cast_to(to, value))
    }

    pub(crate) fn truth_of(&self) -> Effect
        ensures { ActsAs Instr.Truth result (config_of self.now) }
    {
        let Some(value) = self.value_at(0) else {
            return Effect::Stuck;
        };
        Effect::gives(1, truth(!is_zero(value)))
    }

    pub(crate) fn drop_slot(&self) -> Effect
        ensures { ActsAs Instr.Drop result (config_of self.now) }
    {
        let Some(_slot) = self.slot_at(0) else {
            return Effect::Stuck;
        };
        Effect::goes(1, None, Budget::Kept)
    }

    pub(crate) fn assert(&self, line: u32) -> Effect
        ensures { ActsAs (Instr.Assert line) result (config_of self.now) }
    {
        let Some(value) = self.value_at(0) else {
            return Effect::Stuck;
        };
        if is_zero(value) {
            self.stops(line, StopKind::Assert)
        } else {
            Effect::gives(1, nothing())
        }
    }
}
