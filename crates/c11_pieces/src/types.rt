//! The types of expressions (ISO/IEC 9899:2011, 6.3.1.8 and 6.5).

ghost use Rattle.std.specs.Prelude.{◌≡◌, map};
ghost use Rattle.c11_check.specs.Library as library;
ghost use Rattle.c11_check.specs.Types as spec;
ghost use Rattle.c11_meaning.specs.Parts.{type_of_given, type_of_link};
ghost use Rattle.c11_flat.specs.Pieces.{part_of};
ghost use Rattle.c11_pieces.specs.Trees.{given_of, linked_of, links_of};

use crate::arguments::entity_of;
use c11_ast::{Arg, CastTo, Expr, Infix, Prefix};
use c11_check::scopes::Scopes;
use c11_check::{Entity, Library, LibraryConstant};
use c11_num::{BinaryOp, CType, usual};

fn constant_type(constant: LibraryConstant) -> CType
    ensures { result ≡ (library.constant_value constant).ctype }
{
    match constant {
        LibraryConstant::Null => CType::Long,
        _ => CType::Int,
    }
}

/// The type of the value that a name stands for; `int` where it has none.
pub(crate) fn entity_type(entity: &Option<Entity>) -> CType
    ensures { result ≡ spec.entity_type entity.now }
{
    match entity {
        Some(
            Entity::Local { ctype, .. }
            | Entity::Atomic { ctype, .. }
            | Entity::Plain { ctype, .. },
        ) => *ctype,
        Some(Entity::Defined(value)) => value.ctype(),
        Some(Entity::Constant(constant)) => constant_type(*constant),
        _ => CType::Int,
    }
}

// What a function of the library answers, where an atomic object that it is given has type `object`.
fn library_answers(called: Library, object: CType) -> Option<CType>
    ensures { result ≡ library.library_answers called object }
{
    match called {
        Library::Load { .. } | Library::ReadWrite { .. } => Some(object),
        Library::Store { .. }
        | Library::Fence
        | Library::MutexDestroy
        | Library::Yield
        | Library::Assert => None,
        Library::CompareExchange { .. }
        | Library::MutexInit
        | Library::MutexLock
        | Library::MutexTryLock
        | Library::MutexUnlock
        | Library::Create
        | Library::Join
        | Library::Print => Some(CType::Int),
    }
}

// What a call of the name answers.
fn call_type(entity: &Option<Entity>, object: CType) -> Option<CType>
    ensures { result ≡ spec.call_type entity.now object }
{
    match entity {
        Some(Entity::Function { signature, .. }) => signature.answers,
        Some(Entity::Library(called)) => library_answers(*called, object),
        _ => Some(CType::Int),
    }
}

fn binary_type(op: BinaryOp, left: CType, right: CType) -> CType
    ensures { result ≡ spec.binary_type op left right }
{
    match op {
        BinaryOp::Mul
        | BinaryOp::Div
        | BinaryOp::Rem
        | BinaryOp::Add
        | BinaryOp::Sub
        | BinaryOp::And
        | BinaryOp::Xor
        | BinaryOp::Or => usual(left, right),
        BinaryOp::Shl | BinaryOp::Shr => left,
        BinaryOp::Lt | BinaryOp::Gt | BinaryOp::Le | BinaryOp::Ge | BinaryOp::Eq | BinaryOp::Ne =>
            CType::Int,
    }
}

fn infix_type(op: Infix, left: CType, right: CType) -> CType
    ensures { result ≡ spec.infix_type op left right }
{
    match op {
        Infix::Number(op) => binary_type(op, left, right),
        Infix::Both | Infix::Either => CType::Int,
    }
}

fn prefix_type(op: Prefix, inner: CType) -> CType
    ensures { result ≡ spec.prefix_type op inner }
{
    match op {
        Prefix::Not => CType::Int,
        Prefix::Minus | Prefix::Plus | Prefix::Flip => inner,
    }
}

/// The type of `?:`, by the types of its branches.
pub(crate) fn branches_type(one: Option<CType>, other: Option<CType>) -> Option<CType>
    ensures { result ≡ spec.branches_type one other }
{
    match (one, other) {
        (Some(one), Some(other)) => Some(usual(one, other)),
        _ => None,
    }
}

fn cast_type(to: CastTo) -> Option<CType>
    ensures { result ≡ spec.cast_type to }
{
    match to {
        CastTo::Number(ctype) => Some(ctype),
        CastTo::Void => None,
        CastTo::VoidPointer => Some(CType::Long),
    }
}

fn or_int(ctype: Option<CType>) -> CType
    ensures { result ≡ spec.or_int ctype }
{
    ctype.unwrap_or(CType::Int)
}

// The type of a chain, whose first operand has type `left`.
#[cycle(types)]
fn links_type(scopes: &Scopes, left: CType, chain: &Expr) -> CType
    ensures { result ≡ spec.links_type left (map type_of_link (map linked_of (links_of chain.now))) scopes.now }
{
    let mut left = left;
    if let Expr::Chain { rest, .. } = chain {
        for link in rest.as_slice() {
            let right = or_int(value_type(scopes, &link.right));
            left = infix_type(link.op, left, right);
        }
    }
    left
}

#[cycle(types)]
fn type_of_arg(scopes: &Scopes, arg: &Arg) -> Option<CType>
    ensures { result ≡ type_of_given (given_of arg.now) scopes.now }
{
    match arg {
        Arg::Address { target, .. } => Some(entity_type(&entity_of(scopes, target))),
        Arg::Text { .. } => None,
        Arg::Value(expr) => value_type(scopes, expr),
    }
}

// The type of the object behind the `&` of the first argument.
#[cycle(types)]
fn first_type(scopes: &Scopes, args: &[Arg]) -> CType
    ensures { result ≡ spec.first_type (map type_of_given (map given_of args.now)) scopes.now }
{
    match args {
        [arg, ..] => or_int(type_of_arg(scopes, arg)),
        [] => CType::Int,
    }
}

// The type of an expression's value; none where it has no value.
#[cycle(types)]
fn value_type(scopes: &Scopes, expr: &Expr) -> Option<CType>
    ensures { result ≡ (part_of expr.now).typed scopes.now }
{
    match expr {
        Expr::Assign { target, .. } | Expr::Step { target, .. } | Expr::Read(target) => {
            Some(entity_type(&entity_of(scopes, target)))
        }
        Expr::Cond { yes, no, .. } => {
            let one = value_type(scopes, yes.get());
            branches_type(one, value_type(scopes, no.get()))
        }
        Expr::Chain { first, .. } => {
            let left = or_int(value_type(scopes, first.get()));
            Some(links_type(scopes, left, expr))
        }
        Expr::Prefix { op, inner, .. } => {
            Some(prefix_type(*op, or_int(value_type(scopes, inner.get()))))
        }
        Expr::Cast { to, .. } => cast_type(*to),
        Expr::Call { word, args } => {
            let object = first_type(scopes, args.as_slice());
            call_type(&scopes.denoted(word.name.as_slice()), object)
        }
        Expr::Literal { value, .. } => Some(value.ctype()),
        Expr::Paren { inner, .. } => value_type(scopes, inner.get()),
    }
}

/// The type of an expression's value; none where it has no value. The checks and the code have the same.
pub fn type_of(scopes: &Scopes, expr: &Expr) -> Option<CType>
    ensures typed { result ≡ (part_of expr.now).typed scopes.now }
    ensures checked { result ≡ spec.type_of scopes.now expr.now }
{
    value_type(scopes, expr)
}
