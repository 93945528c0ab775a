//! What a further entry changes.
ghost use Rattle.std.specs.Prelude.{◌≡◌, ◌<◌, ◌≤◌, ◌+◌, ◌^◌, ◌++◌, ◌∷◌, [], ℕ, List, Some, None, IfOk, OnOk, MatchOption, length, vec_capacity, ⊤};
ghost use Rattle.c11_events.specs.declared.event.Event.{Event};
ghost use Rattle.c11_events.specs.Chains.{ChainLawful};
ghost use Rattle.c11_events.specs.Replies.{Setting};
ghost use Rattle.c11_mayread.specs.Standing as reading;
ghost use Rattle.c11_replies.specs.Words as replying;
ghost use Rattle.c11_shadow.specs.Words as shadows;
ghost use Rattle.c11_history.specs.Past.{IsRaceOfLast};
ghost use Rattle.c11_history.specs.Sound.{access_of, HasRoomFor, HaveSameShadowCounts};

use crate::history::Race;
use c11_events::{Entry, Event, EventKind};
use c11_mayread::Reads;
use c11_num::NoMemory;
use c11_replies::Replies;
use c11_shadow::Shadow;

/// An access of a plain cell.
#[derive(Clone, Copy, Debug)]
pub(crate) struct Access {
    pub(crate) cell: u32,
    pub(crate) write: bool,
}

// Adds the entry. There is room for it.
pub(crate) fn put(entries: &mut Vec<Entry>, entry: Entry)
    requires { length entries.old.items < vec_capacity entries.old }
    ensures items { entries.new.items ≡ entries.old.items ++ entry ∷ [] }
    ensures capacity { vec_capacity entries.old ≤ vec_capacity entries.new }
{
    match entries.push(entry) {
        Ok(()) => {}
        Err(_) => unreachable!(),
    }
}

// Adds the next event, for which room was made.
pub(crate) fn commit(reads: &mut Reads, replies: &mut Replies, event: &Event)
    requires ready { reading.IsReady reads.old }
    requires next { (events : List Event) × (reading.StandsFor reads.old events × reading.CanCommit reads.old events event.now) }
    requires few { replies.old.created + 1 < 2 ^ 32 }
    ensures reads { (events : List Event) → reading.StandsFor reads.old events → ChainLawful (events ++ event.now ∷ []) → reading.StandsFor reads.new (events ++ event.now ∷ []) }
    ensures replies { (setting : Setting) (events : List Event) → replying.StandsFor replies.old setting events → replying.StandsFor replies.new setting (events ++ event.now ∷ []) }
    ensures reads_counts { reading.HaveSameCounts reads.old reads.new }
    ensures replies_counts { replying.HaveSameCounts replies.old replies.new }
{
    reads.commit(event);
    replies.note(event);
}

// The access of a plain cell that an event of this kind is.
pub(crate) fn access_of(kind: &EventKind) -> Option<Access>
    ensures { result ≡ access_of kind.now }
{
    match kind {
        EventKind::PlainRead { cell } => Some(Access {
            cell: *cell,
            write: false,
        }),
        EventKind::PlainWrite { cell, value: _ } => Some(Access {
            cell: *cell,
            write: true,
        }),
        _ => None,
    }
}

// Makes room for the access, where the event is one.
pub(crate) fn make_room(shadow: &mut Shadow, kind: &EventKind) -> Result<(), NoMemory>
    requires { MatchOption (access_of kind.now) ⊤ (λ access. access.cell < length shadow.old.cells) }
    ensures room { OnOk result (HasRoomFor shadow.new (access_of kind.now)) }
    ensures stands { (events : List Event) → shadows.StandsFor shadow.old events → shadows.StandsFor shadow.new events }
    ensures counts { HaveSameShadowCounts shadow.old shadow.new }
{
    match access_of(kind) {
        Some(access) => shadow.room(access.cell),
        None => Ok(()),
    }
}

// Notes the access, where the event is one, and answers the race with it. The event is committed.
pub(crate) fn note_access(shadow: &mut Shadow, reads: &Reads, event: &Event) -> Option<Race>
    requires cell { MatchOption (access_of event.now.kind) ⊤ (λ access. access.cell < length shadow.old.cells) }
    requires thread { event.now.thread < shadow.old.threads }
    requires threads { shadow.old.threads ≡ reading.threads_of reads.now }
    requires room { HasRoomFor shadow.old (access_of event.now.kind) }
    ensures race { (events : List Event) → event.now.number ≡ length events + 1 → reading.StandsFor reads.now (events ++ event.now ∷ []) → shadows.StandsFor shadow.old events → IsRaceOfLast (events ++ event.now ∷ []) result }
    ensures stands { (events : List Event) → event.now.number ≡ length events + 1 → reading.StandsFor reads.now (events ++ event.now ∷ []) → shadows.StandsFor shadow.old events → result ≡ None → shadows.StandsFor shadow.new (events ++ event.now ∷ []) }
    ensures counts { HaveSameShadowCounts shadow.old shadow.new }
{
    match access_of(&event.kind) {
        Some(access) => {
            let clock = reads.clock(event.thread);
            match shadow.access(access.cell, event.thread, event.number, clock, access.write) {
                Some(first) => Some(Race {
                    first,
                    cell: access.cell,
                }),
                None => None,
            }
        }
        None => None,
    }
}
