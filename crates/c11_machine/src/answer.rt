//! What an operation makes of its reply.

ghost use Rattle.std.specs.Prelude.{◌≡◌};
ghost use Rattle.c11_meaning.specs.Outcome.{State};
ghost use Rattle.c11_meaning.specs.Outcome.{and_then, told, when_done};
ghost use Rattle.c11_meaning.specs.Objects.{old_or_new, updated};
ghost use Rattle.c11_meaning.specs.Library.{exchanged, when_locked, tried, created, joined};
ghost use Rattle.c11_machine.specs.Answers as spec;

use crate::effect::Written;
use c11_events::Reply;
use c11_num::{CType, CValue, RmwKind, wrapping};

/// Which replies an operation goes on with, and how.
#[derive(Clone, Copy)]
pub(crate) enum Wanted {
    /// The value that is told.
    Told,
    /// This value, where the operation was done.
    Done(CValue),
    /// The old value, or the new one.
    Updated {
        old: bool,
        kind: RmwKind,
        operand: CValue,
    },
    /// Whether it wrote; else the place gets the value that was read.
    Exchanged(u32),
    /// 0, where the mutex is the thread's.
    Locked,
    /// 0 or 1.
    Tried,
    /// 0; the place gets the number of the thread.
    Created(u32),
    /// 0; the place, where there is one, gets the value of the thread.
    Joined(Option<u32>),
}

/// The value of an operation, and what it writes.
#[derive(Clone, Copy)]
pub(crate) struct Answer {
    pub(crate) value: CValue,
    pub(crate) writes: Option<Written>,
}

// What the operation makes of the reply; none for one that does not go with it.
pub(crate) fn answer_to(wanted: Wanted, reply: Reply) -> Option<Answer>
    ensures { (st : State) → spec.answer_of wanted reply st ≡ spec.answered result st }
{
    match wanted {
        Wanted::Told => told(reply),
        Wanted::Done(value) => when_done(value, reply),
        Wanted::Updated { old, kind, operand } => updated(old, kind, operand, reply),
        Wanted::Exchanged(place) => exchanged(place, reply),
        Wanted::Locked => when_locked(reply),
        Wanted::Tried => tried(reply),
        Wanted::Created(place) => created(place, reply),
        Wanted::Joined(place) => joined(place, reply),
    }
}

// The number as an `int`.
fn int(number: bool) -> CValue
    ensures { result ≡ spec.int_of_bool number }
{
    CValue::new(CType::Int, i128::from(number))
}

// This value, and nothing is written.
fn only(value: CValue) -> Option<Answer>
    ensures { result ≡ spec.only value }
{
    Some(Answer {
        value,
        writes: None,
    })
}

// 0, and this value is written.
fn zero_and(place: u32, value: CValue) -> Option<Answer>
    ensures { result ≡ spec.zero_and place value }
{
    Some(Answer {
        value: int(false),
        writes: Some(Written { place, value }),
    })
}

fn told(reply: Reply) -> Option<Answer>
    ensures { (st : State) → told reply st ≡ spec.answered result st }
{
    match reply {
        Reply::Value(value) => only(value),
        Reply::Done
        | Reply::Exchanged { .. }
        | Reply::Locked(_)
        | Reply::Created(_)
        | Reply::Began { .. }
        | Reply::Joined(_)
        | Reply::Fault(_) => None,
    }
}

fn when_done(value: CValue, reply: Reply) -> Option<Answer>
    ensures { (st : State) → when_done value reply st ≡ spec.answered result st }
{
    match reply {
        Reply::Done => only(value),
        Reply::Value(_)
        | Reply::Exchanged { .. }
        | Reply::Locked(_)
        | Reply::Created(_)
        | Reply::Began { .. }
        | Reply::Joined(_)
        | Reply::Fault(_) => None,
    }
}

fn old_or_new(old: bool, kind: RmwKind, value: CValue, operand: CValue) -> CValue
    ensures { result ≡ old_or_new old kind value operand }
{
    if old {
        value
    } else {
        wrapping(kind, value, operand)
    }
}

#[tactic(auto, unfolding(c11_meaning::specs::Outcome::and_then))]
fn updated(old: bool, kind: RmwKind, operand: CValue, reply: Reply) -> Option<Answer>
    ensures { (st : State) → and_then (told reply st) (updated old kind operand) ≡ spec.answered result st }
{
    match reply {
        Reply::Value(value) => only(old_or_new(old, kind, value, operand)),
        Reply::Done
        | Reply::Exchanged { .. }
        | Reply::Locked(_)
        | Reply::Created(_)
        | Reply::Began { .. }
        | Reply::Joined(_)
        | Reply::Fault(_) => None,
    }
}

fn exchanged(place: u32, reply: Reply) -> Option<Answer>
    ensures { (st : State) → exchanged place reply st ≡ spec.answered result st }
{
    match reply {
        Reply::Exchanged { old, success } => {
            if success {
                only(int(true))
            } else {
                zero_and(place, old)
            }
        }
        Reply::Value(_)
        | Reply::Done
        | Reply::Locked(_)
        | Reply::Created(_)
        | Reply::Began { .. }
        | Reply::Joined(_)
        | Reply::Fault(_) => None,
    }
}

fn when_locked(reply: Reply) -> Option<Answer>
    ensures { (st : State) → when_locked reply st ≡ spec.answered result st }
{
    match reply {
        Reply::Locked(true) => only(int(false)),
        Reply::Locked(false) => None,
        Reply::Value(_)
        | Reply::Done
        | Reply::Exchanged { .. }
        | Reply::Created(_)
        | Reply::Began { .. }
        | Reply::Joined(_)
        | Reply::Fault(_) => None,
    }
}

fn tried(reply: Reply) -> Option<Answer>
    ensures { (st : State) → tried reply st ≡ spec.answered result st }
{
    match reply {
        Reply::Locked(taken) => only(int(!taken)),
        Reply::Value(_)
        | Reply::Done
        | Reply::Exchanged { .. }
        | Reply::Created(_)
        | Reply::Began { .. }
        | Reply::Joined(_)
        | Reply::Fault(_) => None,
    }
}

fn created(place: u32, reply: Reply) -> Option<Answer>
    ensures { (st : State) → created place reply st ≡ spec.answered result st }
{
    match reply {
        Reply::Created(thread) => { zero_and(place, CValue::new(CType::Long, i128::from(thread))) }
        Reply::Value(_)
        | Reply::Done
        | Reply::Exchanged { .. }
        | Reply::Locked(_)
        | Reply::Began { .. }
        | Reply::Joined(_)
        | Reply::Fault(_) => None,
    }
}

fn joined(place: Option<u32>, reply: Reply) -> Option<Answer>
    ensures { (st : State) → joined place reply st ≡ spec.answered result st }
{
    match reply {
        Reply::Joined(value) => match place {
            None => only(int(false)),
            Some(place) => zero_and(place, CValue::new(CType::Int, i128::from(value))),
        },
        Reply::Value(_)
        | Reply::Done
        | Reply::Exchanged { .. }
        | Reply::Locked(_)
        | Reply::Created(_)
        | Reply::Began { .. }
        | Reply::Fault(_) => None,
    }
}
