//! Texts that are programs, and texts that are none.
use super::marked::Marked;
use super::shapes::grouping;
use c11_ast::Program;
use c11_lexer::lex;
use c11_parser::{SyntaxFault, parse};
use std::alloc::{AllocError, Global};

/// The program that a text is, or its fault.
pub fn read(alloc: Global, text: &[u8]) -> Result<Program, SyntaxFault> {
    if text.len() > 65536 {
        return Err(SyntaxFault::NoMemory);
    }
    match lex(alloc, text) {
        Ok(tokens) => parse(alloc, text, tokens.as_slice()),
        Err(_) => Err(SyntaxFault::NoMemory),
    }
}

/// What is found where the text is no program, or where it has no fault at the place, if there is one.
fn told(
    alloc: Global,
    text: &[u8],
    place: Option<(u32, u32)>,
) -> Result<Option<String>, AllocError> {
    match (read(alloc, text), place) {
        (Ok(_), None) => Ok(None),
        (Ok(_), Some(_)) => Ok(Some(String::from_str(alloc, "a program")?)),
        (Err(SyntaxFault::Item(line, column)), Some(place)) if place == (line, column) => Ok(None),
        (Err(fault), _) => Ok(Some(format!(in alloc; "{fault:?}")?)),
    }
}

/// A text in a function's block.
fn in_block(alloc: Global, statements: &str) -> Result<String, AllocError> {
    format!(in alloc; "void f(void) {{ {statements} }}")
}

/// `TEXT`: it is a program, or has its fault at its mark.
pub fn is_item(alloc: Global, row: &str) -> Result<Option<String>, AllocError> {
    let marked = Marked::new(alloc, row)?;
    told(alloc, marked.text.as_slice(), marked.place)
}

/// `STATEMENTS`: a function with them is a program, or, behind a mark, has its fault at its first token.
pub fn is_in_block(alloc: Global, row: &str) -> Result<Option<String>, AllocError> {
    let (statements, place) = match row.strip_prefix("@") {
        Some(rest) => (rest, Some((1, 1))),
        None => (row, None),
    };
    let text = in_block(alloc, statements)?;
    told(alloc, text.as_bytes(), place)
}

/// What is found where the three parts are no program, or the first and the last have no fault in this column of the first line.
fn needs(
    alloc: Global,
    (before, token, after): (&str, &str, &str),
    column: u32,
) -> Result<Option<String>, AllocError> {
    let whole = format!(in alloc; "{before}{token}{after}")?;
    let broken = format!(in alloc; "{before}{after}")?;
    let whole = Marked::new(alloc, whole.as_str())?;
    let broken = Marked::new(alloc, broken.as_str())?;
    match told(alloc, whole.text.as_slice(), None)? {
        None => told(alloc, broken.text.as_slice(), Some((1, column))),
        found => Ok(found),
    }
}

/// The three parts of a row, and what is behind them.
fn parts(row: &str) -> (&str, &str, &str, &str) {
    let (before, rest) = row.split_once('\t').unwrap_or((row, ""));
    let (token, rest) = rest.split_once('\t').unwrap_or((rest, ""));
    let (after, rest) = rest.split_once('\t').unwrap_or((rest, ""));
    (before, token, after, rest)
}

/// `BEFORE TOKEN AFTER COLUMN`: they are a program, which without the token has its fault in this column.
pub fn item_needs(alloc: Global, row: &str) -> Result<Option<String>, AllocError> {
    let (before, token, after, column) = parts(row);
    let column = column.parse::<u32>().unwrap_or(0);
    needs(alloc, (before, token, after), column)
}

/// `BEFORE TOKEN AFTER`: the same in a function's block. Without the token the function is no item, and the fault is at its first token.
pub fn block_needs(alloc: Global, row: &str) -> Result<Option<String>, AllocError> {
    let (before, token, after, _) = parts(row);
    let before = format!(in alloc; "void f(void) {{ {before}")?;
    let after = format!(in alloc; "{after} }}")?;
    needs(alloc, (before.as_str(), token, after.as_str()), 1)
}

/// `WORD`: it is no name, but with one letter more it is.
pub fn reserves(alloc: Global, row: &str) -> Result<Option<String>, AllocError> {
    let text = format!(in alloc; "int x = {row};")?;
    match told(alloc, text.as_bytes(), Some((1, 1)))? {
        None => {
            let text = format!(in alloc; "int x = {row}_;")?;
            told(alloc, text.as_bytes(), None)
        }
        found => Ok(found),
    }
}

/// `begin`, the part so many times, and `end`.
fn repeated(
    alloc: Global,
    begin: &str,
    part: &str,
    count: u32,
    end: &str,
) -> Result<String, AllocError> {
    let mut text = String::new(alloc);
    text.push_str(begin)?;
    for _ in 0..count {
        text.push_str(part)?;
    }
    text.push_str(end)?;
    Ok(text)
}

/// What is found where the part, so many times in itself, has this fault or none.
fn nested(
    alloc: Global,
    (open, inner, close): (&str, &str, &str),
    count: u32,
    place: Option<(u32, u32)>,
) -> Result<Option<String>, AllocError> {
    let text = repeated(alloc, "void f(void) {", open, count, inner)?;
    let text = repeated(alloc, text.as_str(), close, count, "; }")?;
    told(alloc, text.as_bytes(), place)
}

/// `OPEN INNER CLOSE MOST`: in a function, so many of these in each other are read, and one more is not. The function's block has
/// depth 1, its statements have depth 2, and 64 is the last depth.
pub fn nests(alloc: Global, row: &str) -> Result<Option<String>, AllocError> {
    let (open, inner, close, most) = parts(row);
    let most = most.parse::<u32>().unwrap_or(0);
    match nested(alloc, (open, inner, close), most, None)? {
        None => nested(
            alloc,
            (open, inner, close),
            most.saturating_add(1),
            Some((1, 1)),
        ),
        found => Ok(found),
    }
}

/// `BEGIN PART END COUNT`: with the part so many times it is a program, or, behind a mark, has its fault at its first token.
pub fn repeats(alloc: Global, row: &str) -> Result<Option<String>, AllocError> {
    let (begin, part, end, count) = parts(row);
    let count = count.parse::<u32>().unwrap_or(0);
    let (begin, place) = match begin.strip_prefix("@") {
        Some(rest) => (rest, Some((1, 1))),
        None => (begin, None),
    };
    let text = repeated(alloc, begin, part, count, end)?;
    told(alloc, text.as_bytes(), place)
}

/// `OPERATOR LEVEL OPERATOR LEVEL`: how `x OPERATOR y OPERATOR z` is grouped, where level 1 binds tightest (ISO/IEC 9899:2011, 6.5.5
/// to 6.5.14).
pub fn binds(alloc: Global, row: &str) -> Result<Option<String>, AllocError> {
    let (one, level, other, other_level) = parts(row);
    let wanted = match (level.parse::<u32>(), other_level.parse::<u32>()) {
        (Ok(level), Ok(other_level)) if level == other_level => (2, false, false),
        (Ok(level), Ok(other_level)) if level < other_level => (1, true, false),
        (Ok(_), Ok(_)) => (1, false, true),
        _ => (0, false, false),
    };
    let text = format!(in alloc; "void f(void) {{ x {one} y {other} z; }}")?;
    match read(alloc, text.as_bytes()) {
        Ok(program) => {
            let found = grouping(&program);
            if found == Some(wanted) {
                Ok(None)
            } else {
                Ok(Some(format!(in alloc; "{found:?}")?))
            }
        }
        Err(fault) => Ok(Some(format!(in alloc; "{fault:?}")?)),
    }
}
