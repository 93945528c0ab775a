//! The threads of a run.

ghost use Rattle.std.specs.Prelude.{◌≡◌, ◌<◌, ◌≤◌, ◌++◌, ◌∷◌, [], ℕ, List, Some, None, IfOk, OnOk, IsTrue, ◌↔◌, length, slice_get};
ghost use Rattle.c11_check.specs.Lies.{signatures_in};
ghost use Rattle.c11_events.specs.declared.reply.Reply.{Reply as SpecReply};
ghost use Rattle.c11_events.specs.EventOf.{events_of};
ghost use Rattle.c11_events.specs.Offered.{IsRisingList};
ghost use Rattle.c11_events.specs.Replies.{thread_limit};
ghost use Rattle.c11_events.specs.Threads.{IsLive};
ghost use Rattle.c11_flat.specs.Code.{whole_of};
ghost use Rattle.c11_memory.specs.Execution.{HasDrawn, IsWithin};
ghost use Rattle.c11_meaning.specs.Progress.{IsReplyTo};
ghost use Rattle.c11_run.specs.Going.{AreWaiting, CanGo, GoesOn, IsTurn, IsWaiting, AreWithin};

use c11_check::Checked;
use c11_events::{Ask, Reply};
use c11_machine::laws::asks_where_wanted;
use c11_machine::{Code, Thread};
use c11_meaning::laws::asks_again;
use c11_memory::{Memory, StepStop};
use c11_num::NoMemory;
use std::alloc::Global;

/// How many threads there are at most, with `main`.
const THREADS: u32 = 16;

/// A thread of the program, and what it wants next. One that has ended keeps its End.
#[derive(Debug, Drop)]
pub(crate) struct Member {
    pub(crate) thread: Thread,
    pub(crate) ask: Ask,
}

impl Member {
    // The thread with this number, which wants to begin.
    fn open(alloc: Global, number: u32, checked: &Checked, code: &Code) -> Result<Member, NoMemory>
        requires { code.now ≡ whole_of checked.now.program }
        ensures waiting { IfOk result (λ member. IsWaiting checked.now.program member []) }
        ensures number { IfOk result (λ member. member.thread.number ≡ number) }
    {
        let mut thread = Thread::start(alloc, number);
        asks_where_wanted();
        let ask = thread.advance(code)?;
        Ok(Member { thread, ask })
    }

    /// The thread is told the reply to what it wants, which is no End, and goes on to what it wants next.
    pub(crate) fn tell(
        &mut self,
        reply: &Reply,
        checked: &Checked,
        code: &Code,
    ) -> Result<(), NoMemory>
        requires code { code.now ≡ whole_of checked.now.program }
        requires waits { (replies : List SpecReply) × IsWaiting checked.now.program self.old replies }
        requires kind { IsReplyTo (signatures_in checked.now.program.items) self.old.ask.op reply.now }
        ensures { OnOk result ((replies : List SpecReply) → IsWaiting checked.now.program self.old replies
            → IsWaiting checked.now.program self.new (replies ++ reply.now ∷ [])) }
    {
        let _program = checked.program();
        asks_where_wanted();
        asks_again();
        self.thread.give(reply);
        self.ask = self.thread.advance(code)?;
        Ok(())
    }

    // Whether the thread, which has this number, can make its next step.
    fn can_go(&self, memory: &Memory, number: u32) -> bool
        requires number { number < thread_limit }
        requires within { IsLive (events_of memory.now.history) number → IsWithin memory.now self.now.ask.op }
        ensures { IsTrue result ↔ CanGo (events_of memory.now.history) number self.now.ask }
    {
        memory.live(number) && memory.blocked(number, &self.ask).is_none()
    }
}

/// The threads of the program by their numbers, created or not.
#[derive(Debug, Drop)]
pub(crate) struct Team {
    pub(crate) members: Vec<Member>,
}

impl Team {
    /// The threads before any step.
    pub(crate) fn open(alloc: Global, checked: &Checked, code: &Code) -> Result<Team, NoMemory>
        requires { code.now ≡ whole_of checked.now.program }
        ensures count { IfOk result (λ team. length team.members.items ≡ thread_limit) }
        ensures waiting { IfOk result (λ team. (u : ℕ) (member : Member) → slice_get team.members.items u ≡ Some member → IsWaiting checked.now.program member []) }
        ensures numbered { IfOk result (λ team. (u : ℕ) (member : Member) → slice_get team.members.items u ≡ Some member → member.thread.number ≡ u) }
    {
        let mut members = Vec::with_capacity(alloc, THREADS as usize)?;
        for number in 0..THREADS {
            members.push(Member::open(alloc, number, checked, code)?)?;
        }
        Ok(Team { members })
    }

    /// The numbers of the threads that can make their next step, rising.
    pub(crate) fn enabled(&self, alloc: Global, memory: &Memory) -> Result<Vec<u32>, NoMemory>
        requires count { length self.now.members.items ≡ thread_limit }
        requires within { AreWithin memory.now self.now.members.items }
        ensures few { IfOk result (λ enabled. length enabled.items ≤ thread_limit) }
        ensures all { IfOk result (λ enabled. IsRisingList (GoesOn (events_of memory.now.history) self.now.members.items) enabled.items) }
    {
        let mut enabled = Vec::with_capacity(alloc, self.members.len())?;
        for number in 0..THREADS {
            if self.members[number as usize].can_go(memory, number) {
                enabled.push(number)?;
            }
        }
        Ok(enabled)
    }

    /// Makes the next step of a thread: of those that can go, the one at the place that is drawn. Answers its number and its reply.
    pub(crate) fn step(
        &self,
        memory: &mut Memory,
        enabled: &[u32],
    ) -> Result<(u32, Reply), NoMemory>
        requires count { length self.now.members.items ≡ thread_limit }
        requires within { AreWithin memory.old self.now.members.items }
        requires enabled { IsRisingList (GoesOn (events_of memory.old.history) self.now.members.items) enabled.now }
        requires some { 0 < length enabled.now }
        requires few { length enabled.now ≤ thread_limit }
        requires goes_on { memory.old.verdict ≡ None }
        ensures { IfOk result (λ went. (words : ℕ) → HasDrawn memory.old words
            → IsTurn memory.old memory.new self.now.members.items enabled.now words went.0 went.1) }
    {
        let place = memory.draw(enabled.len() as u32);
        let thread = enabled[place as usize];
        let member = &self.members[thread as usize];
        let reply = match memory.step(thread, &member.ask) {
            Ok(reply) => reply,
            Err(StepStop::NoMemory) => return Err(NoMemory),
            Err(StepStop::Stopped(_)) => unreachable!(),
            Err(StepStop::NotOffered(_)) => unreachable!(),
        };
        Ok((thread, reply))
    }
}
