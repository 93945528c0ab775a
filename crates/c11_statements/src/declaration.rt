//! Declarations (ISO/IEC 9899:2011, 6.7).

ghost use Rattle.std.specs.Prelude.{◌≡◌, [], length};
ghost use Rattle.c11_grammar.specs.Reading as spec;
ghost use Rattle.c11_grammar.specs.Gives.{Seen, Gives};

use c11_ast::{Constant, Known, Local, Many, Param, Place, Spot, Start, Stmt, Var};
use c11_expressions::assign;
use c11_grammar::front::{expect, literal, name, spot, take};
use c11_grammar::types::expect_integer;
use c11_grammar::{Lexeme, Mark, Stop};
use std::alloc::Global;

/// What a constant is written as, and where it begins.
#[tactic(auto, unfolding(c11_grammar::specs::Reading::given, c11_grammar::specs::Reading::and_then, c11_grammar::specs::Reading::known_of))]
fn known(tokens: &[Lexeme]) -> Result<(Known, Spot, &[Lexeme]), Stop>
    ensures { Gives (λ x. ((x.0, x.1), x.2.now)) result (spec.known_of tokens.now) }
{
    if let Some((value, spot, rest)) = literal(tokens) {
        return Ok((Known::Literal(value), spot, rest));
    }
    let (word, rest) = name(tokens)?;
    let spot = word.spot;
    Ok((Known::Named(word), spot, rest))
}

/// A constant without a sign.
#[tactic(auto, unfolding(c11_grammar::specs::Reading::and_then, c11_grammar::specs::Reading::constant_of))]
fn constant(tokens: &[Lexeme]) -> Result<(Constant, &[Lexeme]), Stop>
    ensures { Gives (λ x. (x.0, x.1.now)) result (spec.constant_of tokens.now) }
{
    let (value, spot, rest) = known(tokens)?;
    let negative = false;
    Ok((
        Constant {
            spot,
            negative,
            value,
        },
        rest,
    ))
}

/// A constant, which may have a `-` before it.
#[tactic(auto, unfolding(c11_grammar::specs::Reading::given, c11_grammar::specs::Reading::and_then, c11_grammar::specs::Reading::signed_of))]
fn signed(tokens: &[Lexeme]) -> Result<(Constant, &[Lexeme]), Stop>
    ensures { Gives (λ x. (x.0, x.1.now)) result (spec.signed_of tokens.now) }
{
    let Some((spot, rest)) = take(Mark::Minus, tokens) else {
        return constant(tokens);
    };
    let (value, _, rest) = known(rest)?;
    let negative = true;
    Ok((
        Constant {
            spot,
            negative,
            value,
        },
        rest,
    ))
}

/// What one object starts with.
#[tactic(auto, unfolding(c11_grammar::specs::Reading::given, c11_grammar::specs::Reading::and_then, c11_grammar::specs::Reading::start_of))]
fn start(tokens: &[Lexeme]) -> Result<(Constant, &[Lexeme]), Stop>
    ensures { Gives (λ x. (x.0, x.1.now)) result (spec.start_of tokens.now) }
{
    let Some((spot, rest)) = take(Mark::AtomicVarInit, tokens) else {
        return signed(tokens);
    };
    let (_, rest) = expect(Mark::LeftParen, rest)?;
    let (inner, rest) = signed(rest)?;
    let (_, rest) = expect(Mark::RightParen, rest)?;
    let Constant {
        negative,
        value,
        ..
    } = inner;
    Ok((
        Constant {
            spot,
            negative,
            value,
        },
        rest,
    ))
}

/// The size of an array, if there is one.
#[tactic(auto, unfolding(c11_grammar::specs::Reading::given, c11_grammar::specs::Reading::and_then, c11_grammar::specs::Reading::size_after))]
fn size(tokens: &[Lexeme]) -> Result<(Option<Constant>, &[Lexeme]), Stop>
    ensures { Gives (λ x. (x.0, x.1.now)) result (spec.size_after tokens.now) }
{
    let Some((_, rest)) = take(Mark::LeftSquare, tokens) else {
        return Ok((None, tokens));
    };
    let (size, rest) = constant(rest)?;
    let (_, rest) = expect(Mark::RightSquare, rest)?;
    Ok((Some(size), rest))
}

/// A declared name, which may be an array's.
#[tactic(auto, unfolding(c11_grammar::specs::Reading::and_then, c11_grammar::specs::Reading::place_of))]
fn place(tokens: &[Lexeme]) -> Result<(Place, &[Lexeme]), Stop>
    ensures { Gives (λ x. (x.0, x.1.now)) result (spec.place_of tokens.now) }
{
    let (word, rest) = name(tokens)?;
    let (size, rest) = size(rest)?;
    Ok((Place { word, size }, rest))
}

/// Constants up to the closing brace, before which a comma may stand.
fn starts<'a>(alloc: Global, tokens: &'a [Lexeme]) -> Result<(Many<Constant>, &'a [Lexeme]), Stop>
    ensures { Gives (λ x. (x.0, x.1.now)) result (spec.starts (length tokens.now) [] tokens.now) }
{
    let mut found = Many::new(alloc);
    let mut rest = tokens;
    for _turn in 0..tokens.len() {
        let (part, after) = start(rest)?;
        found.push(part)?;
        let Some((_, next)) = take(Mark::Comma, after) else {
            let (_, after) = expect(Mark::RightBrace, after)?;
            return Ok((found, after));
        };
        if let Some((_, after)) = take(Mark::RightBrace, next) {
            return Ok((found, after));
        }
        rest = next;
    }
    Err(Stop::Syntax)
}

/// What stands behind the `=` of a global.
#[tactic(auto, unfolding(c11_grammar::specs::Reading::given, c11_grammar::specs::Reading::and_then, c11_grammar::specs::Reading::initializer_of))]
fn initializer<'a>(alloc: Global, tokens: &'a [Lexeme]) -> Result<(Start, &'a [Lexeme]), Stop>
    ensures { Gives (λ x. (x.0, x.1.now)) result (spec.initializer_of tokens.now) }
{
    if let Some((_, rest)) = take(Mark::LeftBrace, tokens) {
        let (all, rest) = starts(alloc, rest)?;
        return Ok((Start::Brace(all), rest));
    }
    let (value, rest) = start(tokens)?;
    Ok((Start::One(value), rest))
}

/// A global that may have a start.
#[tactic(auto, unfolding(c11_grammar::specs::Reading::given, c11_grammar::specs::Reading::and_then, c11_grammar::specs::Reading::started_var))]
fn started_var<'a>(alloc: Global, tokens: &'a [Lexeme]) -> Result<(Var, &'a [Lexeme]), Stop>
    ensures { Gives (λ x. (x.0, x.1.now)) result (spec.started_var tokens.now) }
{
    let (place, rest) = place(tokens)?;
    let Some((_, rest)) = take(Mark::Set, rest) else {
        let start = Start::Absent;
        return Ok((Var { place, start }, rest));
    };
    let (start, rest) = initializer(alloc, rest)?;
    Ok((Var { place, start }, rest))
}

/// A mutex.
#[tactic(auto, unfolding(c11_grammar::specs::Reading::and_then, c11_grammar::specs::Reading::mutex_var))]
fn mutex_var(tokens: &[Lexeme]) -> Result<(Var, &[Lexeme]), Stop>
    ensures { Gives (λ x. (x.0, x.1.now)) result (spec.mutex_var tokens.now) }
{
    let (place, rest) = place(tokens)?;
    let start = Start::Absent;
    Ok((Var { place, start }, rest))
}

/// A global of either kind.
fn var<'a>(alloc: Global, tokens: &'a [Lexeme], mutex: bool) -> Result<(Var, &'a [Lexeme]), Stop>
    ensures { Gives (λ x. (x.0, x.1.now)) result (spec.var_of mutex tokens.now) }
{
    if mutex {
        return mutex_var(tokens);
    }
    started_var(alloc, tokens)
}

/// Globals of one kind, with commas between them.
pub fn vars<'a>(
    alloc: Global,
    tokens: &'a [Lexeme],
    mutex: bool,
) -> Result<(Many<Var>, &'a [Lexeme]), Stop>
    ensures { Gives (λ x. (x.0, x.1.now)) result (spec.commas (spec.var_of mutex) (length tokens.now) [] tokens.now) }
{
    let mut found = Many::new(alloc);
    let mut rest = tokens;
    for _turn in 0..tokens.len() {
        let (part, after) = var(alloc, rest, mutex)?;
        found.push(part)?;
        let Some((_, next)) = take(Mark::Comma, after) else {
            return Ok((found, after));
        };
        rest = next;
    }
    Err(Stop::Syntax)
}

/// A parameter.
#[tactic(auto, unfolding(c11_grammar::specs::Reading::given, c11_grammar::specs::Reading::and_then, c11_grammar::specs::Reading::param_of))]
fn param(tokens: &[Lexeme]) -> Result<(Param, &[Lexeme]), Stop>
    ensures { Gives (λ x. (x.0, x.1.now)) result (spec.param_of tokens.now) }
{
    if let Some((spot, rest)) = take(Mark::Void, tokens) {
        let (_, rest) = expect(Mark::Star, rest)?;
        let (word, rest) = name(rest)?;
        let ctype = None;
        return Ok((Param { spot, word, ctype }, rest));
    }
    let spot = spot(tokens).ok_or(Stop::Syntax)?;
    let (ctype, rest) = expect_integer(tokens)?;
    let (word, rest) = name(rest)?;
    let ctype = Some(ctype);
    Ok((Param { spot, word, ctype }, rest))
}

/// Parameters with commas between them.
fn comma_params<'a>(
    alloc: Global,
    tokens: &'a [Lexeme],
) -> Result<(Many<Param>, &'a [Lexeme]), Stop>
    ensures { Gives (λ x. (x.0, x.1.now)) result (spec.commas spec.param_of (length tokens.now) [] tokens.now) }
{
    let mut found = Many::new(alloc);
    let mut rest = tokens;
    for _turn in 0..tokens.len() {
        let (part, after) = param(rest)?;
        found.push(part)?;
        let Some((_, next)) = take(Mark::Comma, after) else {
            return Ok((found, after));
        };
        rest = next;
    }
    Err(Stop::Syntax)
}

/// `void` and a closing parenthesis.
#[tactic(auto, unfolding(c11_grammar::specs::Reading::and_then, c11_grammar::specs::Reading::void_only))]
fn void_only(tokens: &[Lexeme]) -> Option<(Spot, &[Lexeme])>
    ensures { Seen (λ p. ((tt, p.0), p.1.now)) result (spec.void_only tokens.now) }
{
    let (_, rest) = take(Mark::Void, tokens)?;
    take(Mark::RightParen, rest)
}

/// The parameters of a function, behind its opening parenthesis, and the closing one.
#[tactic(auto, unfolding(c11_grammar::specs::Reading::given, c11_grammar::specs::Reading::and_then, c11_grammar::specs::Reading::params_of))]
pub fn params<'a>(alloc: Global, tokens: &'a [Lexeme]) -> Result<(Many<Param>, &'a [Lexeme]), Stop>
    ensures { Gives (λ x. (x.0, x.1.now)) result (spec.params_of tokens.now) }
{
    if let Some((_, rest)) = take(Mark::RightParen, tokens) {
        return Ok((Many::new(alloc), rest));
    }
    if let Some((_, rest)) = void_only(tokens) {
        return Ok((Many::new(alloc), rest));
    }
    let (found, rest) = comma_params(alloc, tokens)?;
    let (_, rest) = expect(Mark::RightParen, rest)?;
    Ok((found, rest))
}

/// A local.
#[tactic(auto, unfolding(c11_grammar::specs::Reading::given, c11_grammar::specs::Reading::and_then, c11_grammar::specs::Reading::local_of))]
fn local<'a>(
    alloc: Global,
    tokens: &'a [Lexeme],
    deeper: u32,
) -> Result<(Local, &'a [Lexeme]), Stop>
    ensures { Gives (λ x. (x.0, x.1.now)) result (spec.local_of (spec.assign_of (spec.readers deeper)) tokens.now) }
{
    let (word, rest) = name(tokens)?;
    if let Some((_, rest)) = take(Mark::Set, rest) {
        let (start, rest) = assign(alloc, rest, deeper)?;
        let place = Place { word, size: None };
        let start = Some(start);
        return Ok((Local { place, start }, rest));
    }
    let (size, rest) = size(rest)?;
    let place = Place { word, size };
    let start = None;
    Ok((Local { place, start }, rest))
}

/// Locals with commas between them.
fn locals<'a>(
    alloc: Global,
    tokens: &'a [Lexeme],
    deeper: u32,
) -> Result<(Many<Local>, &'a [Lexeme]), Stop>
    ensures { Gives (λ x. (x.0, x.1.now)) result (spec.commas (spec.local_of (spec.assign_of (spec.readers deeper))) (length tokens.now) [] tokens.now) }
{
    let mut found = Many::new(alloc);
    let mut rest = tokens;
    for _turn in 0..tokens.len() {
        let (part, after) = local(alloc, rest, deeper)?;
        found.push(part)?;
        let Some((_, next)) = take(Mark::Comma, after) else {
            return Ok((found, after));
        };
        rest = next;
    }
    Err(Stop::Syntax)
}

/// Handles of threads with commas between them.
fn places<'a>(alloc: Global, tokens: &'a [Lexeme]) -> Result<(Many<Place>, &'a [Lexeme]), Stop>
    ensures { Gives (λ x. (x.0, x.1.now)) result (spec.commas spec.place_of (length tokens.now) [] tokens.now) }
{
    let mut found = Many::new(alloc);
    let mut rest = tokens;
    for _turn in 0..tokens.len() {
        let (part, after) = place(rest)?;
        found.push(part)?;
        let Some((_, next)) = take(Mark::Comma, after) else {
            return Ok((found, after));
        };
        rest = next;
    }
    Err(Stop::Syntax)
}

/// A declaration in a block, with room for `deeper` levels below it.
#[tactic(auto, unfolding(c11_grammar::specs::Reading::given, c11_grammar::specs::Reading::and_then, c11_grammar::specs::Reading::decl_of))]
pub fn declaration<'a>(
    alloc: Global,
    tokens: &'a [Lexeme],
    deeper: u32,
) -> Result<(Stmt, &'a [Lexeme]), Stop>
    ensures { Gives (λ x. (x.0, x.1.now)) result (spec.decl_of (spec.assign_of (spec.readers deeper)) tokens.now) }
{
    if let Some((spot, rest)) = take(Mark::ThrdT, tokens) {
        let (places, rest) = places(alloc, rest)?;
        let (_, rest) = expect(Mark::Semicolon, rest)?;
        return Ok((Stmt::Handles { spot, places }, rest));
    }
    let spot = spot(tokens).ok_or(Stop::Syntax)?;
    let (ctype, rest) = expect_integer(tokens)?;
    let (locals, rest) = locals(alloc, rest, deeper)?;
    let (_, rest) = expect(Mark::Semicolon, rest)?;
    Ok((
        Stmt::Locals {
            spot,
            ctype,
            locals,
        },
        rest,
    ))
}
