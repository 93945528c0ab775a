//! Calls of the library: the form of their arguments, and the instructions behind their operands.

ghost use Rattle.std.specs.Prelude.{◌≡◌, map, OnOk};
ghost use Rattle.c11_flat.specs.Pieces as pieces;
ghost use Rattle.c11_flat.specs.Pieces.{plain};
ghost use Rattle.c11_pieces.specs.Calls as spec;
ghost use Rattle.c11_pieces.specs.Growth.{Grows};
ghost use Rattle.c11_pieces.specs.Sizes as sizes;
ghost use Rattle.c11_pieces.specs.Trees.{given_of};

use crate::access::{nothing, put_instead};
use crate::arguments::{entity_of, function_in, order_in, place_in, second_order_in};
use crate::growing::put;
use crate::lengths::dropped_size;
use crate::types::entity_type;
use c11_ast::{Arg, CastTo};
use c11_check::Library;
use c11_check::scopes::Scopes;
use c11_flat::{Acts, Instr, Place};
use c11_num::{CType, NoMemory, RmwKind};

/// The arguments have the form that the function takes.
pub(crate) fn fits(library: Library, args: &[Arg]) -> bool
    ensures { result ≡ spec.fits library (map given_of args.now) }
{
    match library {
        Library::Load { .. }
        | Library::MutexInit
        | Library::MutexLock
        | Library::MutexTryLock
        | Library::MutexUnlock
        | Library::MutexDestroy => matches!(args, [Arg::Address { .. }, ..]),
        Library::Store { .. } | Library::ReadWrite { .. } => {
            matches!(args, [Arg::Address { .. }, _, ..])
        }
        Library::CompareExchange { .. } => {
            matches!(args, [Arg::Address { .. }, Arg::Address { .. }, _, ..])
        }
        Library::Create => matches!(args, [Arg::Address { .. }, _, _, ..]),
        Library::Join => matches!(args, [_, _, ..]),
        Library::Assert => matches!(args, [_, ..]),
        Library::Print => matches!(args, [Arg::Text { .. }, ..]),
        Library::Fence => true,
        Library::Yield => false,
    }
}

// Where the object behind an `&` is.
fn place_given(scopes: &Scopes, arg: &Arg) -> Place
    ensures { result ≡ spec.place_given (given_of arg.now) scopes.now }
{
    match arg {
        Arg::Address { target, .. } => place_in(scopes, target),
        _ => Place::At(0),
    }
}

fn type_given(scopes: &Scopes, arg: &Arg) -> CType
    ensures { result ≡ spec.type_given (given_of arg.now) scopes.now }
{
    match arg {
        Arg::Address { target, .. } => entity_type(&entity_of(scopes, target)),
        _ => CType::Int,
    }
}

// Where the answer of a join goes, if anywhere.
fn answer_place(scopes: &Scopes, arg: &Arg) -> Option<Place>
    ensures { result ≡ pieces.answer_place (given_of arg.now) scopes.now }
{
    match arg {
        Arg::Address { target, .. } => Some(place_in(scopes, target)),
        _ => None,
    }
}

// An atomic load.
#[tactic(auto, using(crate::proofs::Joins::grows_none))]
fn put_load(code: &mut Vec<Instr>, scopes: &Scopes, line: u32, args: &[Arg]) -> Result<(), NoMemory>
    ensures { OnOk result (Grows code.old.items code.new.items (plain (spec.loads line (map given_of args.now) scopes.now))) }
{
    match args {
        [object, orders @ ..] => put(
            code,
            Instr::Load {
                line,
                order: order_in(scopes, orders),
                cell: place_given(scopes, object),
            },
        ),
        [] => Ok(()),
    }
}

// An atomic store. It gives no value.
#[tactic(auto, using(crate::proofs::Joins::grows_none, crate::proofs::Joins::grows_cons))]
fn put_store(
    code: &mut Vec<Instr>,
    scopes: &Scopes,
    line: u32,
    args: &[Arg],
) -> Result<(), NoMemory>
    ensures { OnOk result (Grows code.old.items code.new.items (plain (spec.stores line (map given_of args.now) scopes.now))) }
{
    match args {
        [object, _, orders @ ..] => {
            let instr = Instr::Store {
                line,
                order: order_in(scopes, orders),
                ctype: type_given(scopes, object),
                cell: place_given(scopes, object),
            };
            put(code, instr)?;
            put(code, Instr::Cast(CastTo::Void))?;
            Ok(())
        }
        _ => Ok(()),
    }
}

// A read-modify-write, which gives the old value.
#[tactic(auto, using(crate::proofs::Joins::grows_none))]
fn put_modify(
    code: &mut Vec<Instr>,
    scopes: &Scopes,
    kind: RmwKind,
    line: u32,
    args: &[Arg],
) -> Result<(), NoMemory>
    ensures { OnOk result (Grows code.old.items code.new.items (plain (spec.modifies kind line (map given_of args.now) scopes.now))) }
{
    match args {
        [object, _, orders @ ..] => put(
            code,
            Instr::Modify {
                line,
                order: order_in(scopes, orders),
                kind,
                ctype: type_given(scopes, object),
                cell: place_given(scopes, object),
                old: true,
            },
        ),
        _ => Ok(()),
    }
}

// A compare-exchange.
#[tactic(auto, using(crate::proofs::Joins::grows_none))]
fn put_compare(
    code: &mut Vec<Instr>,
    scopes: &Scopes,
    weak: bool,
    line: u32,
    args: &[Arg],
) -> Result<(), NoMemory>
    ensures { OnOk result (Grows code.old.items code.new.items (plain (spec.compares weak line (map given_of args.now) scopes.now))) }
{
    match args {
        [object, expected, _, orders @ ..] => put(
            code,
            Instr::Compare {
                line,
                weak,
                success: order_in(scopes, orders),
                failure: second_order_in(scopes, orders),
                ctype: type_given(scopes, object),
                expected: type_given(scopes, expected),
                cell: place_given(scopes, object),
                local: place_given(scopes, expected),
            },
        ),
        _ => Ok(()),
    }
}

// What is done to a mutex.
#[tactic(auto, using(crate::proofs::Joins::grows_none))]
fn put_mutex(
    code: &mut Vec<Instr>,
    scopes: &Scopes,
    acts: Acts,
    line: u32,
    args: &[Arg],
) -> Result<(), NoMemory>
    ensures { OnOk result (Grows code.old.items code.new.items (plain (spec.on_mutex acts line (map given_of args.now) scopes.now))) }
{
    match args {
        [mutex, ..] => {
            let mutex = place_given(scopes, mutex);
            put(code, Instr::Mutex { line, acts, mutex })
        }
        [] => Ok(()),
    }
}

// The end of a mutex, which asks for nothing.
#[tactic(auto, using(crate::proofs::Joins::grows_none))]
fn put_destroy(code: &mut Vec<Instr>, scopes: &Scopes, args: &[Arg]) -> Result<(), NoMemory>
    ensures { OnOk result (Grows code.old.items code.new.items (plain (spec.destroys (map given_of args.now) scopes.now))) }
{
    match args {
        [mutex, ..] => put_instead(code, place_given(scopes, mutex), nothing()),
        [] => Ok(()),
    }
}

// A new thread.
#[tactic(auto, using(crate::proofs::Joins::grows_none))]
fn put_create(
    code: &mut Vec<Instr>,
    scopes: &Scopes,
    line: u32,
    args: &[Arg],
) -> Result<(), NoMemory>
    ensures { OnOk result (Grows code.old.items code.new.items (plain (spec.creates line (map given_of args.now) scopes.now))) }
{
    match args {
        [handle, function, ..] => put(
            code,
            Instr::Create {
                line,
                function: function_in(scopes, function),
                handle: place_given(scopes, handle),
            },
        ),
        _ => Ok(()),
    }
}

// A join of a thread.
#[tactic(auto, using(crate::proofs::Joins::grows_none))]
fn put_join(code: &mut Vec<Instr>, scopes: &Scopes, line: u32, args: &[Arg]) -> Result<(), NoMemory>
    ensures { OnOk result (Grows code.old.items code.new.items (plain (spec.joins line (map given_of args.now) scopes.now))) }
{
    match args {
        [_, answer, ..] => {
            let answer = answer_place(scopes, answer);
            put(code, Instr::Join { line, answer })
        }
        _ => Ok(()),
    }
}

// A text that is written, and the values in it.
#[tactic(auto, using(crate::proofs::Joins::grows_none))]
fn put_print(code: &mut Vec<Instr>, line: u32, args: &[Arg]) -> Result<(), NoMemory>
    ensures { OnOk result (Grows code.old.items code.new.items (plain (spec.prints line (map given_of args.now)))) }
{
    match args {
        [Arg::Text { bytes, .. }, values @ ..] => {
            let text = bytes.copy()?;
            let count = values.len();
            put(code, Instr::Print { line, text, count })?;
            Ok(())
        }
        _ => Ok(()),
    }
}

/// The instructions of a call of the library behind its operands, where the arguments fit.
#[tactic(auto, using(crate::proofs::Joins::grows_none))]
pub(crate) fn put_library(
    code: &mut Vec<Instr>,
    scopes: &Scopes,
    library: Library,
    line: u32,
    args: &[Arg],
) -> Result<(), NoMemory>
    ensures { OnOk result (Grows code.old.items code.new.items (plain (spec.finals library line (map given_of args.now) scopes.now))) }
{
    match library {
        Library::Load { .. } => put_load(code, scopes, line, args),
        Library::Store { .. } => put_store(code, scopes, line, args),
        Library::ReadWrite { kind, .. } => put_modify(code, scopes, kind, line, args),
        Library::CompareExchange { weak, .. } => put_compare(code, scopes, weak, line, args),
        Library::Fence => {
            let order = order_in(scopes, args);
            put(code, Instr::Fence { line, order })
        }
        Library::MutexInit => put_mutex(code, scopes, Acts::Init, line, args),
        Library::MutexLock => put_mutex(code, scopes, Acts::Lock, line, args),
        Library::MutexTryLock => put_mutex(code, scopes, Acts::TryLock, line, args),
        Library::MutexUnlock => put_mutex(code, scopes, Acts::Unlock, line, args),
        Library::MutexDestroy => put_destroy(code, scopes, args),
        Library::Create => put_create(code, scopes, line, args),
        Library::Join => put_join(code, scopes, line, args),
        Library::Assert => put(code, Instr::Assert { line }),
        Library::Print => put_print(code, line, args),
        Library::Yield => Ok(()),
    }
}

/// The size of the instructions behind the operands, where the arguments fit.
pub(crate) fn finals_size(scopes: &Scopes, library: Library, args: &[Arg]) -> usize
    ensures { result ≡ sizes.finals_size library (map given_of args.now) scopes.now }
{
    match library {
        Library::Store { .. } => 2,
        Library::MutexDestroy => match args {
            [mutex, ..] => dropped_size(place_given(scopes, mutex)) + 1,
            [] => 1,
        },
        _ => 1,
    }
}
