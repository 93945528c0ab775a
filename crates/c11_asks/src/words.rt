//! Words of rows.
use c11_num::{CType, CValue, in_range};
use std::alloc::{AllocError, Global};

/// A value in words: its number and its type.
pub fn value_words(alloc: Global, value: CValue) -> Result<String, AllocError> {
    format!(in alloc; "{} {:?}", value.number(), value.ctype())
}

/// The value of such words.
pub fn value_of(number: &str, ctype: &str) -> Option<CValue> {
    let ctype = match ctype {
        "Int" => CType::Int,
        "Unsigned" => CType::Unsigned,
        "Long" => CType::Long,
        "ULong" => CType::ULong,
        _ => return None,
    };
    let number = number.parse::<i128>().ok()?;
    if in_range(ctype, number) {
        Some(CValue::new(ctype, number))
    } else {
        None
    }
}

/// Bytes as C has them in a string.
pub fn quoted(alloc: Global, bytes: &[u8]) -> Result<String, AllocError> {
    let mut words = String::new(alloc);
    words.push('"')?;
    for byte in bytes {
        match *byte {
            b'\n' => words.push_str("\\n")?,
            b'\t' => words.push_str("\\t")?,
            b'"' => words.push_str("\\\"")?,
            b'\\' => words.push_str("\\\\")?,
            other => words.push(char::from(other))?,
        }
    }
    words.push('"')?;
    Ok(words)
}

/// The text of a row, in which a backtick stands for the end of a line.
pub fn lines_of(alloc: Global, row: &str) -> Result<String, AllocError> {
    let mut text = String::new(alloc);
    for line in row.split('`') {
        text.push_str(line)?;
        text.push('\n')?;
    }
    Ok(text)
}
