//! How the program is called.
ghost use Rattle.c11_commands.specs.Answers.{AnswersAlone};
ghost use Rattle.c11_commands.specs.Jobs.{usage_job};
ghost use Rattle.c11_commands.specs.Statuses.{IsAnswer};

use crate::due::write_due;
use crate::words::Status;
use c11_io::Sink;

const USAGE: &str = "c11t run [--seed S] [--steps B]
c11t threads [--seed S] [--steps B] [--workers W]
c11t campaign [--first S] [--count N] [--steps B] [--workers W]
c11t trial [--number N] [--size Z] [--first S] [--count N] [--steps B] [--workers W]
c11t help
";

/// Writes how the program is called, and answers this status, which says that a text was written.
pub(crate) fn usage<K: Sink>(sink: &mut K, status: Status) -> Status
    requires { IsAnswer status }
    ensures { AnswersAlone K.taken K.faults K.empties (usage_job status) sink.old sink.new result }
{
    write_due(sink, USAGE.as_bytes(), status)
}
