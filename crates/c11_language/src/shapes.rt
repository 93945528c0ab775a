//! The trees of programs, in words.
use super::syntax::read;
use c11_ast::{Expr, Function, Item, Program, Start, Stmt};
use std::alloc::{AllocError, Global};

/// The one function of a program.
fn only_function(program: &Program) -> Option<&Function> {
    match program.items() {
        [Item::Function(function)] => Some(function),
        _ => None,
    }
}

/// The first statement of a program's one function.
fn first_stmt(program: &Program) -> Option<&Stmt> {
    only_function(program)?.body.items.get(0)
}

/// The expression that the first statement is.
fn first_expr(program: &Program) -> Option<&Expr> {
    match first_stmt(program)? {
        Stmt::Expr(expr) => Some(expr),
        _ => None,
    }
}

/// Of `x ONE y OTHER z`: the links of its chain, and whether its first operand and its first right one are chains.
pub fn grouping(program: &Program) -> Option<(usize, bool, bool)> {
    match first_expr(program)? {
        Expr::Chain { first, rest } => Some((
            rest.len(),
            matches!(first.get(), Expr::Chain { .. }),
            matches!(&rest.get(0)?.right, Expr::Chain { .. }),
        )),
        _ => None,
    }
}

fn expr_name(expr: &Expr) -> &'static str {
    match expr {
        Expr::Assign { .. } => "assignment",
        Expr::Cond { .. } => "choice",
        Expr::Chain { .. } => "chain",
        Expr::Prefix { .. } => "prefix",
        Expr::Step { before: true, .. } => "step before",
        Expr::Step { before: false, .. } => "step behind",
        Expr::Cast { .. } => "cast",
        Expr::Call { .. } => "call",
        Expr::Literal { .. } => "literal",
        Expr::Read(_) => "read",
        Expr::Paren { .. } => "brackets",
    }
}

/// An expression, and what it is made of.
fn expr_shape(alloc: Global, expr: &Expr) -> Result<String, AllocError> {
    match expr {
        Expr::Assign { value, .. } => format!(in alloc; "assignment of {}", expr_name(value.get())),
        Expr::Prefix { op, inner, .. } => format!(in alloc; "{op:?} of {}", expr_name(inner.get())),
        Expr::Chain { first, rest } => {
            let mut words = String::new(alloc);
            write!(words, "chain of {}", expr_name(first.get()))?;
            for link in rest.as_slice() {
                write!(words, ", {}", expr_name(&link.right))?;
            }
            Ok(words)
        }
        _ => String::from_str(alloc, expr_name(expr)),
    }
}

/// A statement, and what it is made of.
fn stmt_shape(alloc: Global, stmt: &Stmt) -> Result<String, AllocError> {
    match stmt {
        Stmt::Expr(expr) => expr_shape(alloc, expr),
        Stmt::If {
            arms,
            otherwise,
            ..
        } => {
            let inner = match arms.get(0) {
                Some(arm) => matches!(
                    &arm.body,
                    Stmt::If {
                        otherwise: Some(_),
                        ..
                    }
                ),
                None => false,
            };
            let otherwise = otherwise.is_some();
            format!(in alloc;
                "if of {}, else {otherwise}, inner else {inner}",
                arms.len()
            )
        }
        _ => String::from_str(alloc, "statement"),
    }
}

/// The columns of what the first item declares: of a global's item, its name and the constant that it starts with, of a step and its
/// `++` or `--`, or of a function, its name and its braces.
fn places(alloc: Global, program: &Program) -> Result<String, AllocError> {
    match program.items().get(0) {
        Some(Item::Global { spot, vars, .. }) => {
            let mut words = String::new(alloc);
            write!(words, "{}", spot.column)?;
            for var in vars.as_slice() {
                write!(words, " {}", var.place.word.spot.column)?;
                if let Start::One(constant) = &var.start {
                    write!(words, " {}", constant.spot.column)?;
                }
            }
            Ok(words)
        }
        Some(Item::Function(function)) => match function.body.items.get(0) {
            Some(Stmt::Expr(Expr::Step { spot, op_spot, .. })) => format!(in alloc;
                "{} {}",
                spot.column, op_spot.column
            ),
            _ => {
                let (name, body) = (&function.word, &function.body);
                format!(in alloc;
                    "{} {} {} {}",
                    function.spot.column, name.spot.column, body.spot.column, body.close.column
                )
            }
        },
        _ => String::from_str(alloc, "no such item"),
    }
}

/// What is found where it is not what is wanted.
fn unless(wanted: &str, found: String) -> Option<String> {
    if found.as_str() == wanted {
        None
    } else {
        Some(found)
    }
}

/// `STATEMENT SHAPE`: what the statement is made of.
pub fn has_shape(alloc: Global, row: &str) -> Result<Option<String>, AllocError> {
    let (statement, wanted) = row.split_once('\t').unwrap_or((row, ""));
    let text = format!(in alloc; "void f(void) {{ {statement} }}")?;
    let found = match read(alloc, text.as_bytes()) {
        Ok(program) => match first_stmt(&program) {
            Some(stmt) => stmt_shape(alloc, stmt)?,
            None => String::from_str(alloc, "no statement")?,
        },
        Err(fault) => format!(in alloc; "{fault:?}")?,
    };
    Ok(unless(wanted, found))
}

/// `TEXT COLUMNS`: where the parts of the first item stand.
pub fn has_places(alloc: Global, row: &str) -> Result<Option<String>, AllocError> {
    let (text, wanted) = row.split_once('\t').unwrap_or((row, ""));
    let found = match read(alloc, text.as_bytes()) {
        Ok(program) => places(alloc, &program)?,
        Err(fault) => format!(in alloc; "{fault:?}")?,
    };
    Ok(unless(wanted, found))
}

/// `WORDS TYPE`: what the names of a declaration with these words are.
pub fn has_type(alloc: Global, row: &str) -> Result<Option<String>, AllocError> {
    let (words, wanted) = row.split_once('\t').unwrap_or((row, ""));
    let text = format!(in alloc; "{words} x;")?;
    let found = match read(alloc, text.as_bytes()) {
        Ok(program) => match program.items().get(0) {
            Some(Item::Global { kind, .. }) => format!(in alloc; "{kind:?}")?,
            _ => String::from_str(alloc, "no declaration")?,
        },
        Err(fault) => format!(in alloc; "{fault:?}")?,
    };
    Ok(unless(wanted, found))
}

/// `WORDS TYPE`: what a cast with these words leads to.
pub fn casts_to(alloc: Global, row: &str) -> Result<Option<String>, AllocError> {
    let (words, wanted) = row.split_once('\t').unwrap_or((row, ""));
    let text = format!(in alloc; "void f(void) {{ ({words}) x; }}")?;
    let found = match read(alloc, text.as_bytes()) {
        Ok(program) => match first_expr(&program) {
            Some(Expr::Cast { to, .. }) => format!(in alloc; "{to:?}")?,
            _ => String::from_str(alloc, "no cast")?,
        },
        Err(fault) => format!(in alloc; "{fault:?}")?,
    };
    Ok(unless(wanted, found))
}
