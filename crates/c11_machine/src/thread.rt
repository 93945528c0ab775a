ghost use Rattle.std.specs.Prelude.{◌≡◌, ◌++◌, ◌∷◌, [], List, IfOk, OnOk, Some};
ghost use Rattle.c11_ast.specs.declared.item.Program.{Program};
ghost use Rattle.c11_events.specs.declared.op.Ask.{Ask as SpecAsk};
ghost use Rattle.c11_events.specs.declared.reply.Reply.{Reply as SpecReply};
ghost use Rattle.c11_flat.specs.Code.{Whole, whole_of};
ghost use Rattle.c11_meaning.specs.Asks.{asks_of};
ghost use Rattle.c11_machine.specs.Stands.{CanAsk, Comes, Stands};

use crate::machine::Machine;
use c11_events::{Ask, Op, Reply};
use c11_flat::Code;
use c11_num::NoMemory;
use std::alloc::Global;
use std::marker::Model;

/// One thread of a tested program. Contracts see its number, whether it has begun, and where it is in its code.
#[derive(Debug, Drop)]
pub struct Thread {
    number: u32,
    begun: bool,
    machine: Machine,
}

impl Model for Thread {
    ghost use Rattle.c11_machine.specs.Views.{config_of};
    ghost use Rattle.c11_machine.specs.Stands.{Standing};

    ghost Value = { Standing };

    ghost view = { λ t. record { number = t.number; begun = t.begun; config = config_of t.machine } };
}

impl Thread {
    /// The thread with this number before its Begin. It takes no memory until it goes on.
    pub fn start(alloc: Global, number: u32) -> Thread
        ensures stands { (code : Whole) → Stands code result [] }
        ensures number { result.number ≡ number }
    {
        Thread {
            number,
            begun: false,
            machine: Machine::new(alloc),
        }
    }

    /// The thread's number.
    pub fn number(&self) -> u32
        ensures { result ≡ self.now.number }
    {
        self.number
    }

    /// Keeps the reply to what the thread wants, which `advance` goes on with. It takes no memory.
    pub fn give(&mut self, reply: &Reply)
        requires { self.old.config.state.replies ≡ [] }
        ensures stands { (code : Whole) (replies : List SpecReply) → Stands code self.old replies → Stands code self.new (replies ++ reply.now ∷ []) }
        ensures number { self.new.number ≡ self.old.number }
    {
        self.machine.pending = Some(*reply);
    }

    /// Runs local work until the next operation. Without a reply between them, a second call answers the same.
    ///
    /// # Errors
    ///
    /// Memory ran out; what a single `printf` writes counts as too much from 2 GB on. The thread stands for the replies for which it
    /// stood, and a later call answers as this one should have.
    pub fn advance(&mut self, code: &Code) -> Result<Ask, NoMemory>
        requires { CanAsk code.now self.old }
        ensures keeps { (replies : List SpecReply) → Stands code.now self.old replies → Stands code.now self.new replies }
        ensures asks { IfOk result (λ ask. (program : Program) (replies : List SpecReply) → code.now ≡ whole_of program → Stands code.now self.old replies → asks_of program replies ≡ Some ask) }
        ensures comes { IfOk result (λ ask. Comes code.now self.old ask) }
        ensures again { (ask : SpecAsk) → Comes code.now self.old ask → Comes code.now self.new ask }
        ensures taken { OnOk result (self.new.config.state.replies ≡ []) }
        ensures number { self.new.number ≡ self.old.number }
    {
        if self.begun {
            return self.machine.run(code);
        }
        let Some(reply) = self.machine.pending else {
            return Ok(Ask {
                line: 0,
                op: Op::Begin,
            });
        };
        if !self.machine.begin(code, reply)? {
            unreachable!();
        }
        self.begun = true;
        self.machine.run(code)
    }
}
