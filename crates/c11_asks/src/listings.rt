//! The instructions that a text has, in words.
use super::block::{Row, stop_at_first};
use super::stop::Stop;
use super::words::{lines_of, value_words};
use c11_accepts::accept;
use c11_ast::{CastTo, Expr, Item, Program, Stmt};
use c11_check::Entity;
use c11_check::scopes::Scopes;
use c11_flat::{Instr, Place, Storage};
use c11_lexer::lex;
use c11_lower::lower;
use c11_num::{CType, NoMemory};
use c11_parser::parse;
use c11_pieces::{emit_expr, expr_size, type_of};
use std::alloc::{AllocError, Global};

fn declare<'a>(scopes: &mut Scopes<'a>, name: &'a [u8], entity: Entity) -> Result<(), NoMemory> {
    let counts = scopes.counts();
    scopes.declare(name, entity, counts)
}

/// `int a` at place 0 of the function, `long b` at plain cell 3, and `atomic_int v[4]` from cell 5 on.
fn declare_all<'a>(scopes: &mut Scopes<'a>) -> Result<(), NoMemory> {
    let a = Entity::Local {
        ctype: CType::Int,
        place: 0,
        size: None,
    };
    declare(scopes, b"a", a)?;
    let b = Entity::Plain {
        ctype: CType::Long,
        cell: 3,
        size: None,
    };
    declare(scopes, b"b", b)?;
    let v = Entity::Atomic {
        ctype: CType::Int,
        cell: 5,
        size: Some(4),
    };
    declare(scopes, b"v", v)
}

/// The program of a function with the expression, if it is one.
fn program_with(alloc: Global, expr: &str) -> Result<Option<Program>, AllocError> {
    let text = format!(in alloc; "void f(void) {{ {expr}; }}")?;
    let text = text.as_bytes();
    if text.len() > 65536 {
        return Ok(None);
    }
    match lex(alloc, text) {
        Ok(tokens) => Ok(parse(alloc, text, tokens.as_slice()).ok()),
        Err(_) => Ok(None),
    }
}

/// The expression that is the first statement of the first function.
fn first_expr(program: &Program) -> Option<&Expr> {
    match program.items().get(0)? {
        Item::Function(function) => match function.body.items.get(0)? {
            Stmt::Expr(expr) => Some(expr),
            _ => None,
        },
        _ => None,
    }
}

/// Where an object is.
fn place_words(alloc: Global, place: Place) -> Result<String, AllocError> {
    match place {
        Place::At(place) => format!(in alloc; "at {place}"),
        Place::OnStack => format!(in alloc; "on the stack"),
    }
}

/// An instruction that goes on elsewhere, or is of no line.
fn move_words(alloc: Global, instr: &Instr) -> Result<String, AllocError> {
    match instr {
        Instr::Push(value) => format!(in alloc; "push {}", value_words(alloc, *value)?),
        Instr::Drop => format!(in alloc; "drop"),
        Instr::Cast(CastTo::Number(ctype)) => format!(in alloc; "cast to {ctype:?}"),
        Instr::Truth => format!(in alloc; "truth"),
        Instr::JumpIfZero(to) => format!(in alloc; "jump if zero to {to}"),
        Instr::Jump(to) => format!(in alloc; "jump to {to}"),
        Instr::Turn { line } => format!(in alloc; "turn, line {line}"),
        Instr::TurnIf { line, to } => format!(in alloc; "turn if to {to}, line {line}"),
        Instr::Return { line } => format!(in alloc; "return, line {line}"),
        Instr::Clear { place, count } => format!(in alloc; "clear {count} from {place}"),
        _ => format!(in alloc; "{instr:?}"),
    }
}

/// An instruction.
fn instr_words(alloc: Global, instr: &Instr) -> Result<String, AllocError> {
    match instr {
        Instr::Read {
            line,
            storage,
            ctype,
            place,
        } => {
            let place = place_words(alloc, *place)?;
            format!(in alloc; "read {storage:?} {ctype:?} {place}, line {line}")
        }
        Instr::Store {
            line,
            order,
            ctype,
            cell,
        } => {
            let cell = place_words(alloc, *cell)?;
            format!(in alloc; "store {order:?} {ctype:?} {cell}, line {line}")
        }
        Instr::Compute { line, op } => format!(in alloc; "compute {op:?}, line {line}"),
        Instr::Element { line, span } => {
            format!(in alloc;
                "element of {} from {}, line {line}",
                span.size(),
                span.base()
            )
        }
        _ => move_words(alloc, instr),
    }
}

/// Instructions, each behind its place.
fn listed(alloc: Global, instrs: &[Instr]) -> Result<Vec<String>, AllocError> {
    let mut lines = Vec::new(alloc);
    for (place, instr) in instrs.iter().enumerate() {
        let words = instr_words(alloc, instr)?;
        lines.push(format!(in alloc; "{place} {words}")?)?;
    }
    Ok(lines)
}

/// The rows are these lines.
fn compare(alloc: Global, lines: &[String], rows: &[Row]) -> Result<(), Stop> {
    for (line, row) in lines.iter().zip(rows.iter()) {
        if line.as_str() != row.words.as_str() {
            return Err(row.stop(alloc, line.as_str()));
        }
    }
    let (found, wanted) = (lines.len(), rows.len());
    if found != wanted {
        let words = format!(in alloc; "{found} lines, but {wanted} rows")?;
        return Err(stop_at_first(alloc, rows, words.as_str()));
    }
    Ok(())
}

/// `PLACE INSTRUCTION`: the code of the text, which is an expression of `int a` at place 0, `long b` at plain cell 3 and
/// `atomic_int v[4]` from cell 5 on, behind one other instruction.
pub fn emits(alloc: Global, text: &str, rows: &[Row]) -> Result<(), Stop> {
    let Some(program) = program_with(alloc, text)? else {
        return Err(stop_at_first(alloc, rows, "no program"));
    };
    let Some(expr) = first_expr(&program) else {
        return Err(stop_at_first(alloc, rows, "no expression"));
    };
    let mut scopes = Scopes::new(alloc);
    declare_all(&mut scopes)?;
    let mut code = Vec::new(alloc);
    code.push(Instr::Drop)?;
    emit_expr(&mut code, &scopes, expr)?;
    let lines = listed(alloc, code.as_slice())?;
    compare(alloc, lines.as_slice(), rows)
}

/// The type of the expression, and how many instructions it has.
fn measured(alloc: Global, expr: &Expr) -> Result<String, Stop> {
    let mut scopes = Scopes::new(alloc);
    declare_all(&mut scopes)?;
    let size = expr_size(&scopes, expr)?;
    let words = match type_of(&scopes, expr) {
        Some(ctype) => format!(in alloc; "{ctype:?} {size}")?,
        None => format!(in alloc; "no type {size}")?,
    };
    Ok(words)
}

/// `TYPE SIZE EXPRESSION`: the expression of the same objects has this type and so many instructions.
pub fn measures(alloc: Global, number: u32, row: &str) -> Result<(), Stop> {
    let (wanted, text) = row.split_once('\t').unwrap_or((row, ""));
    let text = lines_of(alloc, text)?;
    let row = Row {
        number,
        words: String::from_str(alloc, row)?,
    };
    let Some(program) = program_with(alloc, text.as_str())? else {
        return Err(row.stop(alloc, "no program"));
    };
    let Some(expr) = first_expr(&program) else {
        return Err(row.stop(alloc, "no expression"));
    };
    let found = measured(alloc, expr)?;
    if found.as_str() == wanted {
        Ok(())
    } else {
        Err(row.stop(alloc, found.as_str()))
    }
}

/// `PLACE INSTRUCTION`: the code of the text's program, behind which stand the starts of its functions: where each begins, and how
/// many places and parameters it has.
pub fn has_code(alloc: Global, text: &str, rows: &[Row]) -> Result<(), Stop> {
    let checked = match accept(alloc, text.as_bytes()) {
        Ok(checked) => checked,
        Err(stop) => {
            let found = format!(in alloc; "{stop:?}")?;
            return Err(stop_at_first(alloc, rows, found.as_str()));
        }
    };
    let code = lower(alloc, &checked)?;
    let mut lines = listed(alloc, code.instrs.as_slice())?;
    for start in code.starts.as_slice() {
        let (place, places) = (start.place, start.places);
        let params = start.params.len();
        let words = format!(in alloc; "starts at {place}, {places} places, {params} parameters")?;
        lines.push(words)?;
    }
    compare(alloc, lines.as_slice(), rows)
}
