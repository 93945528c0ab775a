//! The call that does all that the program does.
ghost use Rattle.std.specs.Prelude.{Some, map, string_bytes};
ghost use Rattle.c11_commands.specs.Answers.{Answers, PrintsWhole};
ghost use Rattle.c11_commands.specs.Jobs.{job_of};
ghost use Rattle.c11_commands.specs.Statuses.{IsWhole};
ghost use Rattle.c11_commands.specs.Words.{HasGoodNumbers, reading};

use crate::campaigns::{campaign_command, trial_command};
use crate::runs::run_command;
use crate::usage::usage;
use crate::words::{Command, Status, read_words};
use c11_io::{Gate, Sink, Source};
use std::alloc::Global;
use std::thread::Threads;

/// Does all that the program does: reads the words, which leave out the program's own name, and answers with the exit status.
///
/// Words that ask for nothing get the usage text, and the source is left as it was. The workers of a campaign pass the gate.
pub fn c11t<R: Threads + Sync, S: Source, K: Sink, G: Gate + Sync>(
    rt: &R,
    alloc: Global,
    words: &[String],
    source: &mut S,
    sink: &mut K,
    gate: &G,
) -> Status
    // The headline: what was printed is what the command of the words owes for the text that the source held; of `run` the one run, of
    // `campaign` and `trial` the summary of the one runs.
    ensures headline { IsWhole result → PrintsWhole (job_of (reading (map string_bytes words.now)))
        (S.left source.old) (S.left source.new) result (K.taken sink.old) (K.taken sink.new) }
    // The same with all else that an answer tells.
    ensures answers { Answers S.left S.faults K.taken K.faults K.empties (job_of (reading (map string_bytes words.now)))
        source.old source.new sink.old sink.new result }
{
    match read_words(words) {
        Some(command) => execute(rt, alloc, command, source, sink, gate),
        None => usage(sink, Status::Usage),
    }
}

// Executes a command that the words ask for.
fn execute<R: Threads + Sync, S: Source, K: Sink, G: Gate + Sync>(
    rt: &R,
    alloc: Global,
    command: Command,
    source: &mut S,
    sink: &mut K,
    gate: &G,
) -> Status
    requires { HasGoodNumbers command }
    ensures { Answers S.left S.faults K.taken K.faults K.empties (job_of (Some command))
        source.old source.new sink.old sink.new result }
{
    match command {
        Command::Help => usage(sink, Status::Done),
        Command::Run { seed, steps } => run_command(alloc, seed, steps, source, sink),
        Command::Campaign {
            first,
            count,
            steps,
            workers,
        } => campaign_command(rt, alloc, first, count, steps, workers, source, sink, gate),
        Command::Trial {
            number,
            size,
            first,
            count,
            steps,
            workers,
        } => trial_command(
            rt, alloc, number, size, first, count, steps, workers, sink, gate,
        ),
    }
}
