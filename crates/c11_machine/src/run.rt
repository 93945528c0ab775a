//! Runs flat code until it wants a reply.

ghost use Rattle.std.specs.Prelude.{◌≡◌, ◌+◌, ◌<◌, ◌^◌, IfOk, OnOk, MatchOption, None};
ghost use Rattle.c11_events.specs.declared.op.Ask.{Ask as SpecAsk};
ghost use Rattle.c11_flat.specs.Flat.{To, Says, act, next};
ghost use Rattle.c11_machine.specs.Effects.{ActsAs};
ghost use Rattle.c11_machine.specs.Stands.{Reaches};
ghost use Rattle.c11_machine.specs.Steps.{IsOuter, Took};
ghost use Rattle.c11_machine.specs.Views.{config_of};

use crate::answer::Wanted;
use crate::code::instr_at;
use crate::effect::Effect;
use crate::library::Exchange;
use crate::machine::Machine;
use crate::print::print_text;
use crate::step::Step;
use c11_events::{Ask, Op};
use c11_flat::{Code, Instr};
use c11_num::{Bytes, CType, CValue, NoMemory};

impl Machine {
    // What an instruction does that stays inside of its function and takes no memory.
    fn effect(&self, instr: &Instr) -> Option<Effect>
        ensures { MatchOption result (IsOuter instr.now) (λ effect. ActsAs instr.now effect (config_of self.now)) }
    {
        match instr {
            Instr::Push(value) => Some(self.push(*value)),
            Instr::Drop => Some(self.drop_slot()),
            Instr::Element { line, span } => Some(self.element(*line, *span)),
            Instr::Read {
                line,
                storage,
                ctype,
                place,
            } => Some(self.read(*line, *storage, *ctype, *place)),
            Instr::Fetch {
                line,
                storage,
                ctype,
                place,
            } => Some(self.fetch(*line, *storage, *ctype, *place)),
            Instr::Write {
                line,
                storage,
                ctype,
                place,
            } => Some(self.write(*line, *storage, *ctype, *place)),
            Instr::Compute { line, op } => Some(self.compute(*line, *op)),
            Instr::Step { line, up } => Some(self.step_up_or_down(*line, *up)),
            Instr::Stepped {
                line,
                storage,
                ctype,
                place,
                before,
            } => Some(self.stepped(*line, *storage, *ctype, *place, *before)),
            Instr::Prefix { line, op } => Some(self.prefix(*line, *op)),
            Instr::Cast(to) => Some(self.cast(*to)),
            Instr::Truth => Some(self.truth_of()),
            Instr::JumpIfZero(to) => Some(self.jump_if_zero(*to)),
            Instr::Jump(to) => Some(self.jump(*to)),
            Instr::Turn { line } => Some(self.turn(*line)),
            Instr::TurnIf { line, to } => Some(self.turn_if(*line, *to)),
            Instr::Load { line, order, cell } => Some(self.load(*line, *order, *cell)),
            Instr::Store {
                line,
                order,
                ctype,
                cell,
            } => Some(self.store(*line, *order, *ctype, *cell)),
            Instr::Modify {
                line,
                order,
                kind,
                ctype,
                cell,
                old,
            } => Some(self.modify(*line, *order, *kind, *ctype, *cell, *old)),
            Instr::Compare {
                line,
                weak,
                success,
                failure,
                ctype,
                expected,
                cell,
                local,
            } => {
                let exchange = Exchange {
                    weak: *weak,
                    success: *success,
                    failure: *failure,
                    ctype: *ctype,
                    expected: *expected,
                };
                Some(self.compare(*line, exchange, *cell, *local))
            }
            Instr::Fence { line, order } => Some(self.fence(*line, *order)),
            Instr::Mutex { line, acts, mutex } => Some(self.mutex(*line, *acts, *mutex)),
            Instr::Create {
                line,
                function,
                handle,
            } => Some(self.create(*line, *function, *handle)),
            Instr::Join { line, answer } => Some(self.join(*line, *answer)),
            Instr::Assert { line } => Some(self.assert(*line)),
            Instr::Print { .. } => None,
            Instr::Call { .. } => None,
            Instr::Return { .. } => None,
            Instr::Clear { .. } => None,
        }
    }

    // Puts a value on the stack.
    fn push(&self, value: CValue) -> Effect
        ensures { ActsAs (Instr.Push value) result (config_of self.now) }
    {
        Effect::gives(0, value)
    }

    // What a `printf` does. Of 2 GB or more it cannot answer how much it writes; that counts as want of memory.
    fn print(&self, line: u32, text: &Bytes, count: usize) -> Result<Effect, NoMemory>
        ensures { IfOk result (λ effect. ActsAs (Instr.Print line text.now count) effect (config_of self.now)) }
    {
        let Some(bottom) = self.values_from(count) else {
            return Ok(Effect::Stuck);
        };
        let alloc = *self.stack.allocator();
        let bytes = print_text(alloc, text.as_slice(), self.slots_from(bottom))?;
        if bytes.len() > 0x7fff_ffff {
            return Err(NoMemory);
        }
        let size = CValue::new(CType::Int, bytes.len() as i128);
        let op = Op::Out {
            bytes: Bytes::new(bytes),
        };
        Ok(self.operates(line, op, Wanted::Done(size), count))
    }

    // Does an instruction that may take memory for more than a slot, or leaves its function.
    fn does(&mut self, code: &Code, instr: &Instr) -> Result<Step, NoMemory>
        requires outer { IsOuter instr.now }
        requires place { self.old.place + 1 < 2 ^ 64 }
        ensures { Took (act code.now instr.now (config_of self.old)) (config_of self.old) (config_of self.new) result }
    {
        match instr {
            Instr::Print { line, text, count } => {
                let effect = self.print(*line, text, *count)?;
                self.perform(effect)
            }
            Instr::Call {
                line,
                function,
                count,
            } => self.call(code, *line, *function, *count),
            Instr::Return { line } => self.return_value(code, *line),
            Instr::Clear { place, count } => self.clear(code, *place, *count),
            _ => unreachable!(),
        }
    }

    // Does one instruction by its effect.
    fn step_by_effect(&mut self, code: &Code) -> Result<Step, NoMemory>
        ensures { Took (next code.now (To (config_of self.old))) (config_of self.old) (config_of self.new) result }
    {
        let Some(instr) = instr_at(code, self.place) else {
            return Ok(Step::Stuck);
        };
        match self.effect(instr) {
            Some(effect) => self.perform(effect),
            None => self.does(code, instr),
        }
    }

    // Does one instruction.
    pub(crate) fn step(&mut self, code: &Code) -> Result<Step, NoMemory>
        ensures { Took (next code.now (To (config_of self.old))) (config_of self.old) (config_of self.new) result }
    {
        if self.quick(code) {
            Ok(Step::On)
        } else {
            self.step_by_effect(code)
        }
    }

    // Runs until it wants a reply.
    pub(crate) fn run(&mut self, code: &Code) -> Result<Ask, NoMemory>
        requires { (ask : SpecAsk) × Reaches code.now (To (config_of self.old)) (Says ask) }
        ensures reaches { Reaches code.now (To (config_of self.old)) (To (config_of self.new)) }
        ensures asks { IfOk result (λ ask. next code.now (To (config_of self.new)) ≡ Says ask) }
        ensures taken { OnOk result (self.new.pending ≡ None) }
    {
        'work: loop {
            match self.step(code)? {
                Step::On => {}
                Step::Asks(ask) => return Ok(ask),
                Step::Stuck => unreachable!(),
            }
        }
    }
}
