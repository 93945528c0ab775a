//! The commonest instructions, done in place, which spares the making of an `Effect`.
//!
//! Each answers whether the instruction was done. Where it was not, nothing has changed, and its effect says what it does: it stops,
//! wants a reply, memory is short, or there is no answer.

ghost use Rattle.std.specs.Prelude.{◌≡◌, ◌+◌, ◌<◌, ◌^◌, ℕ, drop};
ghost use Rattle.c11_flat.specs.Flat.{To, counted, jumping, next};
ghost use Rattle.c11_machine.specs.Effects.{meant, replaces};
ghost use Rattle.c11_machine.specs.Steps.{Did, DidAs};
ghost use Rattle.c11_machine.specs.Views.{config_of};

use crate::code::instr_at;
use crate::effect::Written;
use crate::machine::Machine;
use crate::moves::{put, take, write_place};
use crate::numbers::{is_zero, kept_of, one, step_op};
use c11_flat::{Code, Instr, Place, Slot, Storage};
use c11_num::{BinaryOp, CType, CValue, binary, convert};

impl Machine {
    // Puts a slot in the place of so many, writes, and goes to the next instruction.
    fn quick_puts(&mut self, takes: usize, slot: Slot, writes: Option<Written>) -> bool
        requires { self.old.place + 1 < 2 ^ 64 }
        ensures { let c = config_of self.old in Did (meant (replaces takes slot writes) c) c (config_of self.new) result }
    {
        if put(&mut self.stack, takes, slot).is_err() {
            return false;
        }
        write_place(&mut self.locals, writes);
        self.place += 1;
        true
    }

    // Takes so many slots off, and goes to the place.
    fn quick_goes(&mut self, takes: usize, to: usize)
        ensures { let c = config_of self.old in config_of self.new ≡ record c { place = to; stack = drop takes c.stack } }
    {
        take(&mut self.stack, takes);
        self.place = to;
    }

    fn quick_push(&mut self, value: CValue) -> bool
        requires { self.old.place + 1 < 2 ^ 64 }
        ensures { DidAs (Instr.Push value) (config_of self.old) (config_of self.new) result }
    {
        self.quick_puts(0, Slot::Value(value), None)
    }

    fn quick_drop(&mut self) -> bool
        requires { self.old.place + 1 < 2 ^ 64 }
        ensures { DidAs Instr.Drop (config_of self.old) (config_of self.new) result }
    {
        let Some(_slot) = self.slot_at(0) else {
            return false;
        };
        self.quick_goes(1, self.place + 1);
        true
    }

    fn quick_read(&mut self, storage: Storage, ctype: CType, place: Place) -> bool
        requires { self.old.place + 1 < 2 ^ 64 }
        ensures { (line : ℕ) → DidAs (Instr.Read line storage ctype place) (config_of self.old) (config_of self.new) result }
    {
        let Storage::Local = storage else {
            return false;
        };
        let Some(found) = self.found(place, 0) else {
            return false;
        };
        let value = self.local(ctype, found.place);
        self.quick_puts(found.below, Slot::Value(value), None)
    }

    fn quick_fetch(&mut self, storage: Storage, ctype: CType, place: Place) -> bool
        requires { self.old.place + 1 < 2 ^ 64 }
        ensures { (line : ℕ) → DidAs (Instr.Fetch line storage ctype place) (config_of self.old) (config_of self.new) result }
    {
        let Storage::Local = storage else {
            return false;
        };
        let Some(found) = self.found(place, 0) else {
            return false;
        };
        let value = self.local(ctype, found.place);
        self.quick_puts(0, Slot::Value(value), None)
    }

    fn quick_write(&mut self, storage: Storage, ctype: CType, place: Place) -> bool
        requires { self.old.place + 1 < 2 ^ 64 }
        ensures { (line : ℕ) → DidAs (Instr.Write line storage ctype place) (config_of self.old) (config_of self.new) result }
    {
        let Storage::Local = storage else {
            return false;
        };
        let Some(value) = self.value_at(0) else {
            return false;
        };
        let Some(found) = self.found(place, 1) else {
            return false;
        };
        let written = Written {
            place: found.place,
            value: convert(value, ctype),
        };
        self.quick_puts(found.below, Slot::Value(written.value), Some(written))
    }

    fn quick_compute(&mut self, op: BinaryOp) -> bool
        requires { self.old.place + 1 < 2 ^ 64 }
        ensures { (line : ℕ) → DidAs (Instr.Compute line op) (config_of self.old) (config_of self.new) result }
    {
        let Some(right) = self.value_at(0) else {
            return false;
        };
        let Some(left) = self.value_at(1) else {
            return false;
        };
        match binary(op, left, right) {
            Ok(value) => self.quick_puts(2, Slot::Value(value), None),
            Err(_) => false,
        }
    }

    fn quick_step(&mut self, up: bool) -> bool
        requires { self.old.place + 1 < 2 ^ 64 }
        ensures { (line : ℕ) → DidAs (Instr.Step line up) (config_of self.old) (config_of self.new) result }
    {
        let Some(value) = self.value_at(0) else {
            return false;
        };
        match binary(step_op(up), value, one()) {
            Ok(value) => self.quick_puts(0, Slot::Value(value), None),
            Err(_) => false,
        }
    }

    fn quick_stepped(&mut self, storage: Storage, ctype: CType, place: Place, before: bool) -> bool
        requires { self.old.place + 1 < 2 ^ 64 }
        ensures { (line : ℕ) → DidAs (Instr.Stepped line storage ctype place before) (config_of self.old) (config_of self.new) result }
    {
        let Storage::Local = storage else {
            return false;
        };
        let Some(value) = self.value_at(0) else {
            return false;
        };
        let Some(old) = self.value_at(1) else {
            return false;
        };
        let Some(found) = self.found(place, 2) else {
            return false;
        };
        let written = Written {
            place: found.place,
            value: convert(value, ctype),
        };
        let kept = kept_of(before, written.value, old);
        self.quick_puts(found.below, Slot::Value(kept), Some(written))
    }

    // Takes so many slots off, and goes forward to the place.
    fn quick_jump(&mut self, to: usize, takes: usize) -> bool
        ensures { let c = config_of self.old in Did (jumping c to (drop takes c.stack)) c (config_of self.new) result }
    {
        if self.place < to {
            self.quick_goes(takes, to);
            true
        } else {
            false
        }
    }

    fn quick_jump_if_zero(&mut self, to: usize) -> bool
        requires { self.old.place + 1 < 2 ^ 64 }
        ensures { DidAs (Instr.JumpIfZero to) (config_of self.old) (config_of self.new) result }
    {
        let Some(value) = self.value_at(0) else {
            return false;
        };
        if is_zero(value) {
            self.quick_jump(to, 1)
        } else {
            self.quick_goes(1, self.place + 1);
            true
        }
    }

    // Counts a turn, takes so many slots off, and goes to the place.
    fn quick_turn(&mut self, to: usize, takes: usize) -> bool
        ensures { let c = config_of self.old in (line : ℕ) → Did (counted line c.state (λ st. To (record c { place = to; stack = drop takes c.stack; state = st }))) c (config_of self.new) result }
    {
        if self.turns == 0 {
            return false;
        }
        self.turns -= 1;
        self.quick_goes(takes, to);
        true
    }

    fn quick_turn_if(&mut self, to: usize) -> bool
        requires { self.old.place + 1 < 2 ^ 64 }
        ensures { (line : ℕ) → DidAs (Instr.TurnIf line to) (config_of self.old) (config_of self.new) result }
    {
        let Some(value) = self.value_at(0) else {
            return false;
        };
        if is_zero(value) {
            self.quick_goes(1, self.place + 1);
            true
        } else {
            self.quick_turn(to, 1)
        }
    }

    // Does the instruction, if it is one of those above.
    fn quick_does(&mut self, instr: &Instr) -> bool
        requires { self.old.place + 1 < 2 ^ 64 }
        ensures { DidAs instr.now (config_of self.old) (config_of self.new) result }
    {
        match instr {
            Instr::Push(value) => self.quick_push(*value),
            Instr::Drop => self.quick_drop(),
            Instr::Read {
                storage,
                ctype,
                place,
                ..
            } => self.quick_read(*storage, *ctype, *place),
            Instr::Fetch {
                storage,
                ctype,
                place,
                ..
            } => self.quick_fetch(*storage, *ctype, *place),
            Instr::Write {
                storage,
                ctype,
                place,
                ..
            } => self.quick_write(*storage, *ctype, *place),
            Instr::Compute { op, .. } => self.quick_compute(*op),
            Instr::Step { up, .. } => self.quick_step(*up),
            Instr::Stepped {
                storage,
                ctype,
                place,
                before,
                ..
            } => self.quick_stepped(*storage, *ctype, *place, *before),
            Instr::JumpIfZero(to) => self.quick_jump_if_zero(*to),
            Instr::Jump(to) => self.quick_jump(*to, 0),
            Instr::Turn { .. } => self.quick_turn(self.place + 1, 0),
            Instr::TurnIf { to, .. } => self.quick_turn_if(*to),
            _ => false,
        }
    }

    // Does the next instruction, if it is one of these.
    pub(crate) fn quick(&mut self, code: &Code) -> bool
        ensures { let c = config_of self.old in Did (next code.now (To c)) c (config_of self.new) result }
    {
        match instr_at(code, self.place) {
            Some(instr) => self.quick_does(instr),
            None => false,
        }
    }
}
