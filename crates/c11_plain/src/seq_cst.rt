ghost use Rattle.std.specs.Prelude.{◌↔◌, IsTrue};
ghost use Rattle.c11_events.specs.HappensBefore.{HappensBefore, SeqCstBefore};
ghost use Rattle.c11_events.specs.Lawful.{IsLastSeqCst, SeqCstReads};
ghost use Rattle.c11_plain.specs.Pairs.{IsTableOf};
ghost use Rattle.c11_plain.specs.SeqCst.{IsLaterStore, HasNoLater, MayRead, MayReadIt};

use crate::direct::seq_cst_before;
use crate::events::{is_seq_cst, is_store};
use crate::pairs::Pairs;
use crate::rules::load_of;
use crate::search::some_below;
use c11_events::Event;

// Whether b is a seq_cst store of the cell before l, and later than a.
fn is_later_store(events: &[Event], cell: u32, l: u32, a: u32, b: u32) -> bool
    ensures { IsTrue result ↔ IsLaterStore events.now cell l a b }
{
    a < b && is_store(events, cell, b) && seq_cst_before(events, b, l)
}

// Whether no seq_cst store of the cell before l is later than a.
fn has_no_later(events: &[Event], cell: u32, l: u32, a: u32) -> bool
    ensures { IsTrue result ↔ HasNoLater events.now cell l a }
{
    !some_below(l, |b| is_later_store(events, cell, l, a, b))
}

// Whether a is the last seq_cst store of the cell before the seq_cst event l.
fn is_last_seq_cst(events: &[Event], cell: u32, l: u32, a: u32) -> bool
    ensures { IsTrue result ↔ IsLastSeqCst events.now cell l a }
{
    if !has_no_later(events, cell, l, a) {
        return false;
    }
    is_store(events, cell, a) && seq_cst_before(events, a, l)
}

// Whether l may read x, if a is the last seq_cst store before it.
fn may_read(events: &[Event], cell: u32, before: &Pairs, l: u32, x: u32, a: u32) -> bool
    requires { IsTableOf before.now (HappensBefore events.now) }
    ensures { IsTrue result ↔ MayRead events.now cell l x a }
{
    if x == a || !is_last_seq_cst(events, cell, l, a) {
        return true;
    }
    !is_seq_cst(events, x) && !before.holds(x, a)
}

// Whether l may read what it reads, if a is the last seq_cst store before it.
fn may_read_it(events: &[Event], cell: u32, before: &Pairs, a: u32, l: u32) -> bool
    requires { IsTableOf before.now (HappensBefore events.now) }
    ensures { IsTrue result ↔ MayReadIt events.now cell a l }
{
    match load_of(events, cell, l) {
        Some(x) => may_read(events, cell, before, l, x, a),
        None => true,
    }
}

/// Whether each seq_cst load may read what it reads, by the tables of happens-before and of the seq_cst order.
pub(crate) fn seq_cst_reads(events: &[Event], cell: u32, before: &Pairs, order: &Pairs) -> bool
    requires before { IsTableOf before.now (HappensBefore events.now) }
    requires order { IsTableOf order.now (SeqCstBefore events.now) }
    ensures { IsTrue result ↔ SeqCstReads events.now cell }
{
    order.all(|a, l| may_read_it(events, cell, before, a, l))
}
