//! The program that a source holds.
ghost use Rattle.std.specs.Prelude.{◌≡◌, ◌↔◌, IsTrue, IfOk, OnOk, IfErr};
ghost use Rattle.c11_report.specs.Refusals.{has_place, HasSome};
ghost use Rattle.c11_commands.specs.Answers.{HasDueCause};
ghost use Rattle.c11_commands.specs.Programs.{IsHeld, IsJudged, IsRefusedWith};

use crate::due::{Due, DueStop};
use crate::words::Status;
use c11_accepts::{AcceptStop, accept};
use c11_check::Checked;
use c11_io::{ReadStop, Source, read_all};
use c11_report::{Refusal, RefusalWord, refusal_text};
use std::alloc::Global;

/// What becomes of a text: a program, or the text of its refusal.
#[derive(Drop)]
pub(crate) enum Judged {
    Accepted(Checked),
    Refused(Due),
}

// A program text has at most so many bytes.
const LONGEST: usize = 65_536;

// The refusal of a text of too many bytes.
const TOO_LONG: Refusal = Refusal {
    word: RefusalWord::Long,
    place: None,
};

/// Reads a text from the source, and tells what becomes of it.
pub(crate) fn read_program<S: Source>(alloc: Global, source: &mut S) -> Result<Judged, DueStop>
    ensures held { IfOk result (IsHeld (S.left source.old) (S.left source.new)) }
    ensures kept { OnOk result (S.faults source.new ≡ S.faults source.old) }
    ensures stop { IfErr result (HasDueCause (S.faults source.old) (S.faults source.new)) }
{
    match read_all(alloc, source, LONGEST) {
        Ok(text) => judge_text(alloc, text.as_slice()),
        Err(ReadStop::TooLong) => refuse(alloc, TOO_LONG),
        Err(ReadStop::Fault) => Err(DueStop::Fault),
        Err(ReadStop::NoMemory) => Err(DueStop::NoMemory),
    }
}

// What becomes of a text that is short enough to be read whole.
fn judge_text(alloc: Global, text: &[u8]) -> Result<Judged, DueStop>
    ensures judged { IfOk result (IsJudged text.now) }
    ensures stop { IfErr result (λ stop. stop ≡ DueStop.NoMemory) }
{
    match accept(alloc, text) {
        Ok(checked) => Ok(Judged::Accepted(checked)),
        Err(AcceptStop::Refused(why)) => refuse(alloc, why),
        Err(AcceptStop::NoMemory) => Err(DueStop::NoMemory),
    }
}

// What is due for a text that is refused so.
fn refuse(alloc: Global, why: Refusal) -> Result<Judged, DueStop>
    requires { IsTrue (has_place why.word) ↔ HasSome why.place }
    ensures due { IfOk result (IsRefusedWith why) }
    ensures stop { IfErr result (λ stop. stop ≡ DueStop.NoMemory) }
{
    match refusal_text(alloc, &why) {
        Ok(text) => Ok(Judged::Refused(Due {
            text,
            status: Status::Refused,
        })),
        Err(_) => Err(DueStop::NoMemory),
    }
}
