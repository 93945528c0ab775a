//! The steps of a row are made on a memory, and what becomes of each is compared with the row.
ghost use Rattle.std.specs.Prelude.{◌≡◌, IsTrue, IsSome, length};
ghost use Rattle.c11_events.specs.Offered.{op_cell};
ghost use Rattle.c11_history.specs.Past.{setting_of};
ghost use Rattle.c11_memory.specs.Execution.{IsWithin};
ghost use Rattle.c11_memory.specs.Steps.{CanStep};

use super::operations::step_of;
use super::scene::Start;
use super::words::{push_holder, push_numbers, push_reply, push_verdict, split};
use c11_accepts::accept;
use c11_check::Checked;
use c11_events::{Ask, Op, Reply};
use c11_memory::{Holder, Memory, StepStop};
use c11_tables::number;
use std::alloc::{AllocError, Global};

/// How a step is to be made, by what the row says of it.
#[derive(Clone, Copy)]
enum Way {
    /// It reads this store.
    Given(u32),
    /// It reads a drawn store, or none.
    Drawn,
    /// It is not made, since the thread waits.
    Waits,
    /// It is not made, since the thread has ended.
    Gone,
}

impl Way {
    /// The way of these words. A step that is stopped is told a store if it reads one, so that both kinds of steps are tried.
    fn of(words: &[&str], op: &Op) -> Way {
        match words {
            ["offers", _, "reads" | "refuses", store, ..] => match number(store) {
                Some(store) => Way::Given(store),
                None => Way::Drawn,
            },
            ["stopped," | "stopped", ..] if reads(op) => Way::Given(1),
            ["waits", ..] => Way::Waits,
            ["gone", ..] => Way::Gone,
            _ => Way::Drawn,
        }
    }
}

/// Whether the operation reads an atomic cell.
fn reads(op: &Op) -> bool
    ensures { IsTrue result → IsSome (op_cell op.now) }
{
    matches!(
        op,
        Op::AtomicLoad { .. } | Op::Rmw { .. } | Op::CompareExchange { .. }
    )
}

/// A memory of a text's program.
#[derive(Drop)]
struct Player {
    checked: Checked,
    memory: Memory,
    ghost setting: { memory.setting ≡ setting_of checked },
    ghost mutexes: { memory.mutexes ≡ length checked.tables.mutexes },
}

impl Player {
    /// Nothing where the text is not accepted, or there is no such bound.
    fn open(
        alloc: Global,
        text: &str,
        seed: u64,
        bound: u32,
    ) -> Result<Option<Player>, AllocError> {
        if bound == 0 || bound > 10_000 {
            return Ok(None);
        }
        let Ok(checked) = accept(alloc, text.as_bytes()) else {
            return Ok(None);
        };
        match Memory::open(alloc, &checked, seed, bound) {
            Ok(memory) => Ok(Some(Player { checked, memory })),
            Err(_) => Err(AllocError),
        }
    }

    /// Whether the operation is no Init, and names what the program has.
    fn is_within(&self, op: &Op) -> bool
        ensures { IsTrue result → IsWithin self.now.memory op.now }
    {
        match op {
            Op::Init { .. } => false,
            Op::AtomicLoad { cell, .. }
            | Op::AtomicStore { cell, .. }
            | Op::Rmw { cell, .. }
            | Op::CompareExchange { cell, .. } => *cell < self.checked.atomic_count(),
            Op::PlainRead { cell } | Op::PlainWrite { cell, .. } => {
                *cell < self.checked.plain_count()
            }
            Op::MutexInit { mutex }
            | Op::Lock { mutex }
            | Op::TryLock { mutex }
            | Op::Unlock { mutex } => *mutex < self.checked.mutex_count(),
            Op::Join { thread } => *thread < 16,
            Op::Fence { .. }
            | Op::Create { .. }
            | Op::Begin
            | Op::End { .. }
            | Op::Out { .. }
            | Op::Stop { .. } => true,
        }
    }

    /// Whether the thread may make the step.
    fn can_step(&self, thread: u32, ask: &Ask) -> bool
        ensures { IsTrue result → CanStep self.now.memory thread ask.now }
    {
        if thread >= 16 || !self.is_within(&ask.op) {
            return false;
        }
        self.memory.verdict().is_some()
            || self.memory.live(thread) && self.memory.blocked(thread, ask).is_none()
    }

    /// The thread makes the step, which reads the given store or a drawn one; nothing where it cannot.
    fn make(
        &mut self,
        thread: u32,
        ask: &Ask,
        given: Option<u32>,
    ) -> Option<Result<Reply, StepStop>> {
        if !self.can_step(thread, ask) {
            return None;
        }
        match given {
            Some(from) if reads(&ask.op) => Some(self.memory.step_from(thread, ask, from)),
            Some(_) => None,
            None => Some(self.memory.step(thread, ask)),
        }
    }

    /// What becomes of the step that reads the given store or a drawn one.
    fn made(
        &mut self,
        alloc: Global,
        thread: u32,
        ask: &Ask,
        given: Option<u32>,
    ) -> Result<String, AllocError> {
        match self.make(thread, ask, given) {
            Some(Ok(reply)) => self.added(alloc, thread, ask.line, given, reply),
            Some(Err(StepStop::NotOffered(offered))) => {
                let mut words = String::from_str(alloc, "offers ")?;
                push_numbers(&mut words, offered.as_slice())?;
                write!(words, " refuses {}", given.unwrap_or(0))?;
                Ok(words)
            }
            Some(Err(StepStop::Stopped(verdict))) if self.memory.verdict() == Some(verdict) => {
                String::from_str(alloc, "stopped")
            }
            Some(Err(StepStop::Stopped(verdict))) => format!(in alloc; "stopped by {verdict:?}"),
            Some(Err(StepStop::NoMemory)) => Err(AllocError),
            None => String::from_str(alloc, "the thread cannot make the step"),
        }
    }

    /// The last entry, which is the thread's for this line: what it was offered, what it read, and what it was told.
    fn added(
        &self,
        alloc: Global,
        thread: u32,
        line: u32,
        given: Option<u32>,
        reply: Reply,
    ) -> Result<String, AllocError> {
        let Some(entry) = self.memory.history().last() else {
            return String::from_str(alloc, "no entry");
        };
        if (entry.number, entry.line, entry.thread) != (line, line, thread)
            || entry.reply != reply
        {
            return format!(in alloc; "{entry:?} for {reply:?}");
        }
        let mut words = String::new(alloc);
        if !entry.offered.as_slice().is_empty() || entry.from != 0 {
            words.push_str("offers ")?;
            push_numbers(&mut words, entry.offered.as_slice())?;
            let verb = if given.is_some() { "reads" } else { "draws" };
            write!(words, " {verb} {} ", entry.from)?;
        }
        push_reply(&mut words, reply)?;
        Ok(words)
    }

    /// What the thread waits for. It is marked, and the verdict that the mark answers is the one that is kept.
    fn waits(&mut self, alloc: Global, thread: u32, ask: &Ask) -> Result<String, AllocError> {
        if thread >= 16 || !self.is_within(&ask.op) || self.memory.verdict().is_some() {
            return String::from_str(alloc, "the thread cannot wait");
        }
        let Some(holder) = self.memory.blocked(thread, ask) else {
            return String::from_str(alloc, "nothing to wait for");
        };
        if !self.memory.live(thread) {
            return String::from_str(alloc, "gone");
        }
        let mut words = String::new(alloc);
        push_holder(&mut words, self.checked.mutexes(), holder)?;
        let verdict = self.memory.wait(thread, ask);
        if verdict != self.memory.verdict() {
            write!(words, ", answered {verdict:?}")?;
        }
        Ok(words)
    }

    /// Whether the thread has ended.
    fn gone(&self, alloc: Global, thread: u32) -> Result<String, AllocError> {
        if thread >= 16 {
            return String::from_str(alloc, "no such thread");
        }
        let live = self.memory.live(thread);
        String::from_str(alloc, if live { "live" } else { "gone" })
    }

    /// What is found where the step becomes something else than what the words say, or leads to another verdict.
    fn becomes(
        &mut self,
        alloc: Global,
        thread: u32,
        ask: &Ask,
        wanted: &str,
    ) -> Result<Option<String>, AllocError> {
        let next = self.memory.history().len().saturating_add(1);
        if next != ask.line as usize {
            return Ok(Some(format!(in alloc; "the next entry is {next}")?));
        }
        let way = Way::of(split(alloc, wanted)?.as_slice(), &ask.op);
        let mut words = match way {
            Way::Given(from) => self.made(alloc, thread, ask, Some(from))?,
            Way::Drawn => self.made(alloc, thread, ask, None)?,
            Way::Waits => self.waits(alloc, thread, ask)?,
            Way::Gone => self.gone(alloc, thread)?,
        };
        if let Some(verdict) = self.memory.verdict() {
            words.push_str(", verdict ")?;
            push_verdict(&mut words, self.checked.plains(), verdict)?;
        }
        Ok(if words.as_str() == wanted {
            None
        } else {
            Some(words)
        })
    }

    /// `NUMBER THREAD OPERATION: WORDS`: what becomes of the operation, and the verdict that is kept behind it if there is one, as
    /// `, verdict race FIRST SECOND CELL`, `, verdict deadlock`, `, verdict bound` or `, verdict done`.
    ///
    /// It reads no atomic cell, and is told `done`, `value NUMBER`, `locked` or `joined NUMBER`; `offers STORES reads STORE value NUMBER`
    /// where the store is given, and `draws` where it is drawn, with `succeeds` or `fails` for an exchange; `offers STORES refuses STORE`
    /// where the store is given and not offered; `waits for mutex NAME of THREAD` or `waits for thread THREAD`; `gone` where the thread has
    /// ended; `stopped` where the run has.
    fn take(&mut self, alloc: Global, line: &str) -> Result<Option<String>, AllocError> {
        let (step, wanted) = line.split_once(": ").unwrap_or((line, ""));
        let Some(step) = step_of(&self.checked, split(alloc, step)?.as_slice()) else {
            return Ok(Some(String::from_str(alloc, "cannot be read")?));
        };
        let ask = Ask {
            line: step.number,
            op: step.op,
        };
        self.becomes(alloc, step.thread, &ask, wanted)
    }

    /// What is found where main does not begin, create so many threads, or they do not begin.
    fn begin(&mut self, alloc: Global, threads: u32) -> Result<Option<String>, AllocError> {
        let next = self.checked.atomic_count().saturating_add(1);
        let ask = Ask {
            line: next,
            op: Op::Begin,
        };
        let wanted = format!(in alloc; "began {} with 0", self.checked.main())?;
        match self.becomes(alloc, 0, &ask, wanted.as_str())? {
            None => self.create(alloc, next, threads),
            found => Ok(found),
        }
    }

    /// The same of the creation behind this entry, and of what follows.
    fn create(
        &mut self,
        alloc: Global,
        last: u32,
        threads: u32,
    ) -> Result<Option<String>, AllocError> {
        for before in 0..threads {
            let thread = before.saturating_add(1);
            if let Some(found) = self.unborn(alloc, thread)? {
                return Ok(Some(found));
            }
            let ask = Ask {
                line: last.saturating_add(thread),
                op: Op::Create {
                    function: 0,
                    argument: 0,
                },
            };
            let wanted = format!(in alloc; "created {thread}")?;
            if let Some(found) = self.becomes(alloc, 0, &ask, wanted.as_str())? {
                return Ok(Some(found));
            }
        }
        let count = self.memory.threads();
        if count != threads.saturating_add(1) {
            return Ok(Some(format!(in alloc; "{count} threads")?));
        }
        self.begin_threads(alloc, last.saturating_add(threads), threads)
    }

    /// The same of the beginnings of the threads behind this entry.
    fn begin_threads(
        &mut self,
        alloc: Global,
        last: u32,
        threads: u32,
    ) -> Result<Option<String>, AllocError> {
        for before in 0..threads {
            let thread = before.saturating_add(1);
            let ask = Ask {
                line: last.saturating_add(thread),
                op: Op::Begin,
            };
            if let Some(found) = self.becomes(alloc, thread, &ask, "began 0 with 0")? {
                return Ok(Some(found));
            }
        }
        Ok(None)
    }

    /// What is found where the thread is not the next to be created, or what it asks for is not blocked until then.
    fn unborn(&self, alloc: Global, thread: u32) -> Result<Option<String>, AllocError> {
        let ask = Ask {
            line: 0,
            op: Op::Begin,
        };
        if thread >= 16 || !self.is_within(&ask.op) {
            return Ok(Some(String::from_str(alloc, "no such thread")?));
        }
        let is_unborn = !self.memory.live(thread)
            && self.memory.blocked(thread, &ask) == Some(Holder::Unborn)
            && self.memory.threads() == thread;
        if is_unborn {
            return Ok(None);
        }
        Ok(Some(format!(in alloc; "thread {thread} is not the next to be created")?))
    }

    /// What is found where the row does not begin, or in the first step that becomes something else than it says.
    fn play(
        &mut self,
        alloc: Global,
        threads: u32,
        steps: &[String],
    ) -> Result<Option<String>, AllocError> {
        if let Some(found) = self.begin(alloc, threads)? {
            return Ok(Some(found));
        }
        for step in steps {
            if let Some(found) = self.take(alloc, step.as_str())? {
                return Ok(Some(found));
            }
        }
        Ok(None)
    }
}

/// What is found in the steps of a row, on a new memory of the text's program.
pub fn play(
    alloc: Global,
    text: &str,
    start: Start,
    steps: &[String],
) -> Result<Option<String>, AllocError> {
    match Player::open(alloc, text, start.seed, start.bound)? {
        Some(mut player) => player.play(alloc, start.threads, steps),
        None => Ok(Some(String::from_str(alloc, "no program that is accepted, or no such bound")?)),
    }
}
