//! Texts that are accepted or refused.
use super::marked::Marked;
use c11_accepts::{AcceptStop, accept};
use c11_check::Checked;
use c11_events::CellInfo;
use c11_num::Name;
use c11_report::RefusalWord;
use std::alloc::{AllocError, Global};

/// The end of a text that needs a `main`.
pub const MAIN: &str = "\nint main(void) { return 0; }\n";

/// A word as a row has it.
fn word_of(word: RefusalWord) -> &'static str {
    match word {
        RefusalWord::Byte => "byte",
        RefusalWord::Literal => "literal",
        RefusalWord::Comment => "comment",
        RefusalWord::Directive => "directive",
        RefusalWord::Item => "item",
        RefusalWord::Unknown => "unknown",
        RefusalWord::Twice => "twice",
        RefusalWord::Kind => "kind",
        RefusalWord::Arguments => "arguments",
        RefusalWord::Order => "order",
        RefusalWord::NoMain => "nomain",
        RefusalWord::Size => "size",
        RefusalWord::TooMany => "toomany",
        RefusalWord::Typing => "type",
        RefusalWord::Long => "long",
    }
}

/// What is found where the text is not accepted, or not refused with the word at the place of its mark.
fn told(
    alloc: Global,
    word: &str,
    text: &[u8],
    place: Option<(u32, u32)>,
) -> Result<Option<String>, AllocError> {
    match accept(alloc, text) {
        Ok(_) if word == "accepted" => Ok(None),
        Ok(_) => Ok(Some(String::from_str(alloc, "accepted")?)),
        Err(AcceptStop::Refused(found)) if word_of(found.word) == word && found.place == place =>
            Ok(None),
        Err(stop) => Ok(Some(format!(in alloc; "{stop:?}")?)),
    }
}

/// `WORD TEXT`: the text and this end are accepted, or refused with this word at the place of its mark.
pub fn accepts(alloc: Global, row: &str, end: &str) -> Result<Option<String>, AllocError> {
    let (word, text) = row.split_once('\t').unwrap_or((row, ""));
    let mut marked = Marked::new(alloc, text)?;
    marked.text.extend_from_slice(end.as_bytes())?;
    told(alloc, word, marked.text.as_slice(), marked.place)
}

/// `WORD BYTES TEXT`: the same of a text behind as many line feeds as make it so long.
pub fn accepts_length(alloc: Global, row: &str) -> Result<Option<String>, AllocError> {
    let (word, rest) = row.split_once('\t').unwrap_or((row, ""));
    let (bytes, text) = rest.split_once('\t').unwrap_or((rest, ""));
    let bytes = bytes.parse::<usize>().unwrap_or(0);
    let end = Marked::new(alloc, text)?;
    let mut whole = Vec::new(alloc);
    for _ in end.text.len()..bytes {
        whole.push(b'\n')?;
    }
    let lines = u32::try_from(whole.len()).unwrap_or(u32::MAX);
    whole.extend_from_slice(end.text.as_slice())?;
    let place = match end.place {
        Some((line, column)) => Some((line.saturating_add(lines), column)),
        None => None,
    };
    told(alloc, word, whole.as_slice(), place)
}

fn push_name(words: &mut String, name: &Name) -> Result<(), AllocError> {
    for byte in name.as_slice() {
        words.push(char::from(*byte))?;
    }
    Ok(())
}

/// Each cell's name, place in its array and initial value.
fn push_cells(words: &mut String, kind: &str, cells: &[CellInfo]) -> Result<(), AllocError> {
    for cell in cells {
        write!(words, "{kind} ")?;
        push_name(words, &cell.name)?;
        if let Some(index) = cell.index {
            write!(words, "[{index}]")?;
        }
        write!(words, " {}, ", cell.initial.number())?;
    }
    Ok(())
}

/// All that a program declares, in words.
fn declared(alloc: Global, checked: &Checked) -> Result<String, AllocError> {
    let mut words = String::new(alloc);
    push_cells(&mut words, "atomic", checked.atomics())?;
    push_cells(&mut words, "plain", checked.plains())?;
    push_cells(&mut words, "mutex", checked.mutexes())?;
    for function in checked.functions() {
        words.push_str("function ")?;
        push_name(&mut words, &function.name)?;
        write!(words, " {}, ", function.line)?;
    }
    let items = checked.program().items().len();
    write!(words, "main {}, items {items}", checked.main())?;
    Ok(words)
}

/// `TEXT WORDS`: what the program of the text declares.
pub fn has_cells(alloc: Global, row: &str) -> Result<Option<String>, AllocError> {
    let (text, wanted) = row.split_once('\t').unwrap_or((row, ""));
    let marked = Marked::new(alloc, text)?;
    match accept(alloc, marked.text.as_slice()) {
        Ok(checked) => {
            let words = declared(alloc, &checked)?;
            Ok(if words.as_str() == wanted {
                None
            } else {
                Some(words)
            })
        }
        Err(stop) => Ok(Some(format!(in alloc; "{stop:?}")?)),
    }
}
