//! The faults of globals, functions and programs.

ghost use Rattle.std.specs.Prelude.{◌≡◌, OnOk, OnErr, length, IfOk, None};
ghost use Rattle.c11_check.specs.Programs as spec;
ghost use Rattle.c11_check.specs.Programs.{keep};
ghost use Rattle.c11_check.specs.Scopes as scope;
ghost use Rattle.c11_check.specs.Faults as faults;
ghost use Rattle.c11_check.specs.Walks.{Walks};

use crate::around::Around;
use crate::declarations::{
    ATOMIC_LIMIT, FUNCTION_LIMIT, MUTEX_LIMIT, PLACE_LIMIT, PLAIN_LIMIT, counted, misconstant,
    missized, size_faults, size_in, too_many, twice,
};
use crate::entity::{Counts, Entity, Signature};
use crate::fault::{Fault, Rule};
use crate::first::found;
use crate::kinds::answers_int;
use crate::scopes::Scopes;
use crate::statements::{declare_local, in_order};
use c11_ast::{Constant, Function, GlobalKind, Item, Param, Program, Spot, Start, Var};
use c11_num::{CType, CValue, NoMemory};
use std::alloc::Global;

pub(crate) fn limit_of(kind: GlobalKind) -> u32
    ensures { result ≡ spec.limit_of kind }
{
    match kind {
        GlobalKind::Plain(_) => PLAIN_LIMIT,
        GlobalKind::Atomic(_) => ATOMIC_LIMIT,
        GlobalKind::Mutex => MUTEX_LIMIT,
    }
}

pub(crate) fn count_of(kind: GlobalKind, counts: Counts) -> u32
    ensures { result ≡ spec.count_of kind counts }
{
    match kind {
        GlobalKind::Plain(_) => counts.plains,
        GlobalKind::Atomic(_) => counts.atomics,
        GlobalKind::Mutex => counts.mutexes,
    }
}

/// Declares an object of file scope. After an error the scopes are as before.
pub(crate) fn declare_global<'a>(
    scopes: &mut Scopes<'a>,
    name: &'a [u8],
    kind: GlobalKind,
    size: Option<u64>,
) -> Result<(), NoMemory>
    ensures declared { OnOk result (scopes.new ≡ scope.with_global scopes.old name.now kind size) }
    ensures unchanged { OnErr result (scopes.new ≡ scopes.old) }
{
    let counts = scopes.counts();
    match kind {
        GlobalKind::Plain(ctype) => {
            let cell = counts.plains;
            let plains = counted(PLAIN_LIMIT, cell, size);
            let entity = Entity::Plain { ctype, cell, size };
            scopes.declare(name, entity, Counts { plains, ..counts })
        }
        GlobalKind::Atomic(ctype) => {
            let cell = counts.atomics;
            let atomics = counted(ATOMIC_LIMIT, cell, size);
            let entity = Entity::Atomic { ctype, cell, size };
            scopes.declare(name, entity, Counts { atomics, ..counts })
        }
        GlobalKind::Mutex => {
            let mutex = counts.mutexes;
            let mutexes = counted(MUTEX_LIMIT, mutex, size);
            let entity = Entity::Mutex { mutex, size };
            scopes.declare(name, entity, Counts { mutexes, ..counts })
        }
    }
}

/// Declares the name of a `#define`. After an error the scopes are as before.
pub(crate) fn declare_define<'a>(
    scopes: &mut Scopes<'a>,
    name: &'a [u8],
    value: CValue,
) -> Result<(), NoMemory>
    ensures declared { OnOk result (scopes.new ≡ scope.with_define scopes.old name.now value) }
    ensures unchanged { OnErr result (scopes.new ≡ scopes.old) }
{
    let counts = scopes.counts();
    scopes.declare(name, Entity::Defined(value), counts)
}

// The parameters are one `void *`.
fn is_pointer(params: &[Param]) -> bool
    ensures { result ≡ scope.is_pointer params.now }
{
    match params {
        [param] => param.ctype.is_none(),
        _ => false,
    }
}

fn signature_of(function: &Function) -> Signature
    ensures { result ≡ scope.signature_of function.now }
{
    let params = function.params.as_slice();
    Signature {
        answers: function.answers,
        params: params.len(),
        pointer: is_pointer(params),
    }
}

/// Declares a function, with the next number. After an error the scopes are as before.
pub fn declare_function<'a>(scopes: &mut Scopes<'a>, function: &'a Function) -> Result<(), NoMemory>
    ensures declared { OnOk result (scopes.new ≡ scope.with_function scopes.old function.now) }
    ensures unchanged { OnErr result (scopes.new ≡ scopes.old) }
{
    let counts = scopes.counts();
    let functions = counted(FUNCTION_LIMIT, counts.functions, None);
    let entity = Entity::Function {
        function: counts.functions,
        signature: signature_of(function),
    };
    let name = function.word.name.as_slice();
    scopes.declare(
        name,
        entity,
        Counts {
            functions,
            ..counts
        },
    )
}

// A start in braces stands on no array, or one without braces on an array.
fn misstarted(first: Option<Fault>, var: &Var) -> Option<Fault>
    ensures { result ≡ keep first (faults.misstarted var.now.place var.now.start) }
{
    let array = var.place.size.is_some();
    let wrong = match &var.start {
        Start::Absent => false,
        Start::One(_) => array,
        Start::Brace(_) => !array,
    };
    found(first, wrong, Rule::Kind, var.place.word.spot)
}

// How many starts there are.
fn start_count(start: &Start) -> usize
    ensures { result ≡ length (spec.starts_of start.now) }
{
    match start {
        Start::Absent => 0,
        Start::One(_) => 1,
        Start::Brace(constants) => constants.as_slice().len(),
    }
}

// The faults of constants, one after the other.
#[tactic(auto, using(crate::proofs::Keeps::keep_append))]
fn constants(scopes: &Scopes, first: Option<Fault>, constants: &[Constant]) -> Option<Fault>
    ensures { result ≡ keep first (spec.starts_faults scopes.now constants.now) }
{
    let mut first = first;
    for constant in constants {
        first = misconstant(scopes, first, &constant.value);
    }
    first
}

// The faults of starts.
#[tactic(auto, using(crate::proofs::Keeps::keep_append))]
fn starts(scopes: &Scopes, first: Option<Fault>, start: &Start) -> Option<Fault>
    ensures { result ≡ keep first (spec.starts_faults scopes.now (spec.starts_of start.now)) }
{
    match start {
        Start::Absent => first,
        Start::One(constant) => misconstant(scopes, first, &constant.value),
        Start::Brace(list) => constants(scopes, first, list.as_slice()),
    }
}

// The faults of a declared global, but for those of its starts.
#[tactic(auto, using(crate::proofs::Keeps::keep_append))]
fn declarator(scopes: &Scopes, first: Option<Fault>, kind: GlobalKind, var: &Var) -> Option<Fault>
    ensures { result ≡ keep first (spec.var_faults kind var.now scopes.now) }
{
    let place = &var.place;
    let first = twice(scopes, first, &place.word);
    let first = size_faults(scopes, first, &place.size);
    let first = missized(scopes, first, place, start_count(&var.start));
    let count = count_of(kind, scopes.counts());
    let size = size_in(scopes, &place.size);
    let first = too_many(first, limit_of(kind), count, size, &place.word);
    misstarted(first, var)
}

// A declared global. It is declared when its starts are read.
#[tactic(auto, using(crate::proofs::Keeps::keep_append))]
fn var<'a>(
    scopes: &mut Scopes<'a>,
    first: Option<Fault>,
    kind: GlobalKind,
    var: &'a Var,
) -> Result<Option<Fault>, NoMemory>
    ensures { Walks (spec.var_walk kind var.now scopes.old) first result scopes.new }
{
    let first = declarator(scopes, first, kind, var);
    let size = size_in(scopes, &var.place.size);
    declare_global(scopes, var.place.word.name.as_slice(), kind, size)?;
    Ok(starts(scopes, first, &var.start))
}

// Declared globals, one after the other.
fn vars<'a>(
    scopes: &mut Scopes<'a>,
    first: Option<Fault>,
    kind: GlobalKind,
    vars: &'a [Var],
) -> Result<Option<Fault>, NoMemory>
    ensures { Walks (spec.vars_walk kind vars.now scopes.old) first result scopes.new }
{
    let mut first = first;
    for declared in vars {
        first = var(scopes, first, kind, declared)?;
    }
    Ok(first)
}

/// The type of a parameter: `void *` is a spelling of `long`.
pub fn param_type(ctype: Option<CType>) -> CType
    ensures { result ≡ scope.param_type ctype }
{
    match ctype {
        Some(ctype) => ctype,
        None => CType::Long,
    }
}

// A parameter.
#[tactic(auto, using(crate::proofs::Keeps::keep_append))]
fn param<'a>(
    scopes: &mut Scopes<'a>,
    first: Option<Fault>,
    param: &'a Param,
) -> Result<Option<Fault>, NoMemory>
    ensures { Walks (spec.param_walk param.now scopes.old) first result scopes.new }
{
    let first = twice(scopes, first, &param.word);
    let places = scopes.counts().places;
    let first = too_many(first, PLACE_LIMIT, places, None, &param.word);
    declare_local(scopes, &param.word, param_type(param.ctype), None)?;
    Ok(first)
}

/// The first fault, also of those of the parameters; they are declared, one after the other.
pub fn params<'a>(
    scopes: &mut Scopes<'a>,
    first: Option<Fault>,
    params: &'a [Param],
) -> Result<Option<Fault>, NoMemory>
    ensures { Walks (spec.params_walk params.now scopes.old) first result scopes.new }
{
    let mut first = first;
    for declared in params {
        first = param(scopes, first, declared)?;
    }
    Ok(first)
}

// A function: its parameters and its outermost block are one scope.
fn function<'a>(
    scopes: &mut Scopes<'a>,
    first: Option<Fault>,
    function: &'a Function,
) -> Result<Option<Fault>, NoMemory>
    ensures { Walks (spec.function_walk function.now scopes.old) first result scopes.new }
{
    let first = twice(scopes, first, &function.word);
    declare_function(scopes, function)?;
    let mark = scopes.enter_function();
    let first = params(scopes, first, function.params.as_slice())?;
    let around = Around {
        answers: function.answers,
        in_loop: false,
    };
    let first = in_order(scopes, first, around, function.body.items.as_slice())?;
    scopes.leave(mark);
    Ok(first)
}

/// The first fault, also of those of the item; its declarations are made.
pub fn item<'a>(
    scopes: &mut Scopes<'a>,
    first: Option<Fault>,
    item: &'a Item,
) -> Result<Option<Fault>, NoMemory>
    ensures { Walks (spec.item_walk item.now scopes.old) first result scopes.new }
{
    match item {
        Item::Include(_) => Ok(first),
        Item::Define { word, value, .. } => {
            let first = twice(scopes, first, word);
            declare_define(scopes, word.name.as_slice(), *value)?;
            Ok(first)
        }
        Item::Global {
            kind,
            vars: declared,
            ..
        } => vars(scopes, first, *kind, declared.as_slice()),
        Item::Function(defined) => function(scopes, first, defined),
    }
}

/// The function is a `main` that answers `int` and has no parameters.
pub(crate) fn is_main_function(function: &Function) -> bool
    ensures { result ≡ spec.is_main_function function.now }
{
    function.word.name.as_slice() == b"main".as_slice()
        && answers_int(function.answers)
        && function.params.as_slice().is_empty()
}

fn is_main(item: &Item) -> bool
    ensures { result ≡ spec.is_main item.now }
{
    match item {
        Item::Function(function) => is_main_function(function),
        _ => false,
    }
}

// Some item is such a `main`.
fn has_main(items: &[Item]) -> bool
    ensures { result ≡ spec.has_main items.now }
{
    items.iter().any(|item| is_main(item))
}

// Items, one after the other.
fn items<'a>(
    scopes: &mut Scopes<'a>,
    first: Option<Fault>,
    items: &'a [Item],
) -> Result<Option<Fault>, NoMemory>
    ensures { Walks (spec.items_walk items.now scopes.old) first result scopes.new }
{
    let mut first = first;
    for each in items {
        first = item(scopes, first, each)?;
    }
    Ok(first)
}

/// The first fault of the items, if they have one.
#[tactic(auto, using(crate::proofs::Keeps::keep_append))]
pub(crate) fn first_fault(alloc: Global, program: &Program) -> Result<Option<Fault>, NoMemory>
    ensures { IfOk result (λ first. first ≡ keep None (spec.faults_of program.now)) }
{
    let all = program.items();
    let start = Spot { line: 1, column: 1 };
    let first = found(None, !has_main(all), Rule::NoMain, start);
    let mut scopes = Scopes::new(alloc);
    items(&mut scopes, first, all)
}
