ghost use Rattle.std.specs.Prelude.{◌≡◌, ◌≤◌, ◌<◌, ◌+◌, ◌↔◌, ℕ, List, Some, None, ◌^◌, [], Contains, IsTrue, IsSome, IfOk, OnErr, length, slice_get};
ghost use Rattle.c11_events.specs.Draws.{after_words, chosen, words_for};
ghost use Rattle.c11_events.specs.EventOf.{events_of};
ghost use Rattle.c11_events.specs.Lawful.{Consistent};
ghost use Rattle.c11_events.specs.Offered.{Offered, op_cell};
ghost use Rattle.c11_events.specs.Replies.{thread_limit};
ghost use Rattle.c11_events.specs.Steps.{ReadsOffered};
ghost use Rattle.c11_events.specs.Threads.{blocked_by, created, IsLive};
ghost use Rattle.c11_memory.specs.Execution.{HasDrawn, IsWithin, opened};
ghost use Rattle.c11_history.specs.Past.{AreOffers};
ghost use Rattle.c11_memory.specs.Steps.{AddsStep, AddsStepFrom, CanStep};
ghost use Rattle.c11_memory.specs.Sound.{Makes};
ghost use Rattle.c11_memory.specs.Waits.{AllAreStuck, IsStanding, marked};

use crate::marks::{Mark, THREADS, all_stuck};
use crate::verdicts::{said, verdict_after};
use c11_check::Checked;
use c11_draws::Draws;
use c11_events::{Ask, Entry, Holder, Offers, Reply, Verdict};
use c11_history::History;
use c11_num::NoMemory;
use std::alloc::Global;
use std::marker::Model;

/// Why a step was not made.
#[derive(Debug, Drop)]
pub enum StepStop {
    /// Memory ran out.
    NoMemory,
    /// The run has ended with this verdict.
    Stopped(Verdict),
    /// The store is not among those that are offered, which are these.
    NotOffered(Offers),
}

/// One execution: what it did so far, and how it ended if it did.
#[derive(Drop)]
pub struct Memory {
    history: History,
    seed: u64,
    bound: u32,
    steps: u32,
    draws: Draws,
    verdict: Option<Verdict>,
    marks: Vec<Option<Mark>>,
}

impl Model for Memory {
    ghost use Rattle.c11_memory.specs.Execution.{Execution};
    ghost use Rattle.c11_memory.specs.Sound.{execution, IsSound};

    ghost Value = { Execution };

    ghost view = { λ m. execution m.history m.seed m.bound m.draws m.verdict m.marks.items };

    ghost invariant = { λ m. IsSound (execution m.history m.seed m.bound m.draws m.verdict m.marks.items) m.history m.steps m.marks.items };
}

impl Memory {
    /// An execution before its first step, with one Init for each atomic cell of the program.
    ///
    /// `steps` is the bound on steps, from 1 to 10,000. Memory for the whole history is taken here; what a step takes beside it is a
    /// list of offers, a link for the store, and room for the reads of a plain cell.
    pub fn open(alloc: Global, checked: &Checked, seed: u64, steps: u32) -> Result<Memory, NoMemory>
        requires some_step { 0 < steps }
        requires few_steps { steps ≤ 10000 }
        ensures { IfOk result (λ memory. memory ≡ opened checked.now seed steps) }
    {
        Ok(Memory {
            history: History::open(alloc, checked, steps)?,
            seed,
            bound: steps,
            steps: 0,
            draws: Draws::new(seed),
            verdict: None,
            marks: Vec::from_slice(alloc, &[None; THREADS as usize])?,
        })
    }

    /// Whether the thread is created, as `main` is from the start, and has not ended.
    pub fn live(&self, thread: u32) -> bool
        requires { thread < thread_limit }
        ensures { IsTrue result ↔ IsLive (events_of self.now.history) thread }
    {
        self.history.is_live(thread)
    }

    /// How many threads were created, with `main`.
    pub fn threads(&self) -> u32
        ensures { result ≡ created (events_of self.now.history) + 1 }
    {
        self.history.created() + 1
    }

    /// What the thread's operation waits for, if it is blocked. Takes no memory.
    pub fn blocked(&self, thread: u32, ask: &Ask) -> Option<Holder>
        requires { IsWithin self.now ask.now.op }
        ensures { result ≡ blocked_by (events_of self.now.history) thread ask.now.op }
    {
        self.history.blocked(thread, &ask.op)
    }

    /// A choice among so many, from 0: with the next word of the seed where there are two or more. Takes no memory.
    pub fn draw(&mut self, choices: u32) -> u32
        requires { 0 < choices }
        ensures within { result < choices }
        ensures chosen { (words : ℕ) → HasDrawn self.old words
            → (result ≡ chosen self.old.seed words choices) × HasDrawn self.new (words + words_for choices) }
        ensures one { choices ≡ 1 → self.new ≡ self.old }
        ensures same { self.new ≡ record self.old { generator = self.new.generator } }
    {
        self.draws.draw(choices)
    }

    /// Makes the thread's next step: adds one entry for what it asks for, and keeps the verdict that the step or the bound gives. A
    /// read takes the member of its offers that the next draw gives.
    ///
    /// Where no verdict is kept, the thread is live and what it asks for is not blocked. A refusal leaves the execution as it was.
    pub fn step(&mut self, thread: u32, ask: &Ask) -> Result<Reply, StepStop>
        requires { CanStep self.old thread ask.now }
        ensures went { IfOk result (λ reply. (self.old.verdict ≡ None) × AddsStep self.old self.new thread ask.now reply) }
        ensures stopped { (v : Verdict) → (result ≡ Err (StepStop.Stopped v)) ↔ (self.old.verdict ≡ Some v) }
        ensures offered { (offers : List ℕ) → result ≡ Err (StepStop.NotOffered offers) → ⊥ }
        ensures refused { OnErr result (self.new ≡ self.old) }
    {
        match self.verdict {
            Some(verdict) => Err(StepStop::Stopped(verdict)),
            None => match self.step_drawn(thread, ask) {
                Ok(reply) => Ok(reply),
                Err(_) => Err(StepStop::NoMemory),
            },
        }
    }

    /// The same with what is read given, and without a draw. What is asked for reads an atomic cell.
    pub fn step_from(&mut self, thread: u32, ask: &Ask, from: u32) -> Result<Reply, StepStop>
        requires can { CanStep self.old thread ask.now }
        requires reads { IsSome (op_cell ask.now.op) }
        ensures went { IfOk result (λ reply. (self.old.verdict ≡ None) × AddsStepFrom self.old self.new thread ask.now from reply) }
        ensures stopped { (v : Verdict) → (result ≡ Err (StepStop.Stopped v)) ↔ (self.old.verdict ≡ Some v) }
        ensures not_offered { (offers : List ℕ) → result ≡ Err (StepStop.NotOffered offers)
            → (self.old.verdict ≡ None) × AreOffers (events_of self.old.history) thread ask.now.op offers × (Contains offers from → ⊥) }
        ensures refused { OnErr result (self.new ≡ self.old) }
    {
        if let Some(verdict) = self.verdict {
            return Err(StepStop::Stopped(verdict));
        }
        self.step_chosen(thread, ask, from)
    }

    // The step, where no verdict is kept. The place is drawn from a copy, so that nothing changes before all memory is taken.
    fn step_drawn(&mut self, thread: u32, ask: &Ask) -> Result<Reply, NoMemory>
        requires can { CanStep self.old thread ask.now }
        requires none { self.old.verdict ≡ None }
        ensures went { IfOk result (λ reply. AddsStep self.old self.new thread ask.now reply) }
        ensures refused { OnErr result (self.new ≡ self.old) }
    {
        let offers = self.history.offers(thread, &ask.op)?;
        let mut draws = self.draws.copy()?;
        let from = drawn(&mut draws, offers.as_slice());
        let reply = self.make(thread, ask, offers, from)?;
        self.draws = draws;
        Ok(reply)
    }

    // The step that reads what is given, where no verdict is kept.
    fn step_chosen(&mut self, thread: u32, ask: &Ask, from: u32) -> Result<Reply, StepStop>
        requires can { CanStep self.old thread ask.now }
        requires none { self.old.verdict ≡ None }
        requires reads { IsSome (op_cell ask.now.op) }
        ensures went { IfOk result (λ reply. AddsStepFrom self.old self.new thread ask.now from reply) }
        ensures stopped { (v : Verdict) → result ≡ Err (StepStop.Stopped v) → ⊥ }
        ensures not_offered { (offers : List ℕ) → result ≡ Err (StepStop.NotOffered offers)
            → AreOffers (events_of self.old.history) thread ask.now.op offers × (Contains offers from → ⊥) }
        ensures refused { OnErr result (self.new ≡ self.old) }
    {
        let Ok(offers) = self.history.offers(thread, &ask.op) else {
            return Err(StepStop::NoMemory);
        };
        if !is_among(offers.as_slice(), from) {
            return Err(StepStop::NotOffered(offers));
        }
        match self.make(thread, ask, offers, from) {
            Ok(reply) => Ok(reply),
            Err(_) => Err(StepStop::NoMemory),
        }
    }

    // The step that reads this store of these, where no verdict is kept.
    fn make(
        &mut self,
        thread: u32,
        ask: &Ask,
        offered: Offers,
        from: u32,
    ) -> Result<Reply, NoMemory>
        requires can { CanStep self.old thread ask.now }
        requires none { self.old.verdict ≡ None }
        requires reads { ReadsOffered Offered (events_of self.old.history) thread ask.now.op offered from }
        ensures made { IfOk result (λ reply. Makes self.old self.new thread ask.now offered from reply) }
        ensures refused { OnErr result (self.new ≡ self.old) }
    {
        let reply = self.history.answer(thread, &ask.op, from);
        let number = self.history.count() + 1;
        let entry = Entry {
            number,
            thread,
            line: ask.line,
            op: ask.op.copy()?,
            reply,
            from,
            offered,
        };
        let race = self.history.add(entry)?;
        self.steps += 1;
        self.marks[thread as usize] = None;
        let said = said(thread, &ask.op, reply);
        self.verdict = verdict_after(race, number, said, self.steps, self.bound);
        Ok(reply)
    }

    /// Marks that the thread waits with what it asks for, which is blocked. Where then each live thread is marked with what is still
    /// blocked, the verdict Deadlock is kept and answered. Takes no memory.
    pub fn wait(&mut self, thread: u32, ask: &Ask) -> Option<Verdict>
        requires within { IsWithin self.old ask.now.op }
        requires thread { thread < thread_limit }
        requires live { IsLive (events_of self.old.history) thread }
        requires blocked { IsSome (blocked_by (events_of self.old.history) thread ask.now.op) }
        requires none { self.old.verdict ≡ None }
        ensures deadlock { result ≡ Some Verdict.Deadlock → AllAreStuck self.new }
        ensures waits { result ≡ None → AllAreStuck self.new → ⊥ }
        ensures kept { self.new ≡ record (marked self.old thread ask.now) { verdict = result } }
        ensures only { (v : Verdict) → result ≡ Some v → v ≡ Verdict.Deadlock }
    {
        self.marks[thread as usize] = Some(Mark::of(ask));
        if !all_stuck(&self.history, self.marks.as_slice()) {
            return None;
        }
        self.verdict = Some(Verdict::Deadlock);
        Some(Verdict::Deadlock)
    }

    /// What happened so far, in order.
    pub fn history(&self) -> &[Entry]
        ensures history { result.now ≡ self.now.history }
        ensures consistent { Consistent (events_of self.now.history) }
    {
        self.history.entries()
    }

    /// How the execution has ended, if it has.
    pub fn verdict(&self) -> Option<Verdict>
        ensures kept { result ≡ self.now.verdict }
        ensures stands { IsStanding self.now }
    {
        self.verdict
    }

    /// The entries of the history. Takes no memory.
    pub fn into_history(self) -> Vec<Entry>
        ensures history { result.items ≡ self.history }
        ensures consistent { Consistent (events_of self.history) }
    {
        self.history.into_entries()
    }
}

// The member of the offers at the next choice; 0 where there are none, and then no word is used.
fn drawn(draws: &mut Draws, offers: &[u32]) -> u32
    requires { length offers.now < 2 ^ 32 }
    ensures none { offers.now ≡ [] → (result ≡ 0) × (draws.new ≡ draws.old) }
    ensures chosen { (seed words : ℕ) → 0 < length offers.now → draws.old ≡ after_words seed words
        → (slice_get offers.now (chosen seed words (length offers.now)) ≡ Some result) × (draws.new ≡ after_words seed (words + words_for (length offers.now))) }
    ensures member { 0 < length offers.now → Contains offers.now result }
{
    if offers.is_empty() {
        return 0;
    }
    offers[draws.draw(offers.len() as u32) as usize]
}

// Whether the store is one of these.
fn is_among(offers: &[u32], store: u32) -> bool
    ensures { IsTrue result ↔ Contains offers.now store }
{
    offers.contains(&store)
}
