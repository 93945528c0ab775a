//! A thread of a text is led through its rows (ISO/IEC 9899:2011, 6.5, 6.8, 7.17.7, 7.21.6.3, 7.26.4 and 7.26.5).
ghost use Rattle.std.specs.Prelude.{◌≡◌, IfOk, OnOk, length, []};
ghost use Rattle.c11_check.specs.Lies.{signatures_in};
ghost use Rattle.c11_flat.specs.Code.{whole_of};
ghost use Rattle.c11_asks.specs.Asking.{IsAsking, IsAskingFor};

use super::block::{Row, stop_at_first};
use super::operations::ask_words;
use super::replies::{fits, reply_of};
use super::stop::Stop;
use super::words::lines_of;
use c11_accepts::accept;
use c11_ast::Item;
use c11_check::Checked;
use c11_events::{Ask, Reply};
use c11_lower::lower;
use c11_machine::laws::asks_where_wanted;
use c11_machine::{Code, Thread};
use c11_meaning::laws::asks_again;
use c11_num::NoMemory;
use std::alloc::Global;

/// How many functions the program has.
fn function_count(checked: &Checked) -> u32
    ensures { result ≡ length (signatures_in checked.now.program.items) }
{
    let mut count = 0;
    for item in checked.program().items() {
        if let Item::Function(_) = item {
            count += 1;
        }
    }
    count
}

/// What the thread asks for.
fn ask_of(thread: &mut Thread, code: &Code, checked: &Checked) -> Result<Ask, NoMemory>
    requires code { code.now ≡ whole_of checked.now.program }
    requires asking { IsAsking checked.now.program thread.old }
    ensures asks { IfOk result (λ ask. IsAskingFor checked.now.program thread.new ask) }
    ensures taken { OnOk result (thread.new.config.state.replies ≡ []) }
{
    asks_where_wanted();
    thread.advance(code)
}

/// The thread is told the reply to what it asks for, if it is one.
fn answer(
    alloc: Global,
    row: &Row,
    thread: &mut Thread,
    checked: &Checked,
    ask: &Ask,
    reply: &Reply,
) -> Result<(), Stop>
    requires asks { IsAskingFor checked.now.program thread.old ask.now }
    requires taken { thread.old.config.state.replies ≡ [] }
    ensures { OnOk result (IsAsking checked.now.program thread.new) }
{
    if !fits(&ask.op, reply, function_count(checked)) {
        return Err(row.stop(alloc, "asked for what has another reply"));
    }
    let _program = checked.program();
    asks_again();
    thread.give(reply);
    Ok(())
}

/// The thread asks for what the row says, also when it is asked again, and is told the row's reply, unless it is the last.
fn step(
    alloc: Global,
    thread: &mut Thread,
    code: &Code,
    checked: &Checked,
    row: &Row,
) -> Result<bool, Stop>
    requires code { code.now ≡ whole_of checked.now.program }
    requires asking { IsAsking checked.now.program thread.old }
    ensures { OnOk result (IsAsking checked.now.program thread.new) }
{
    let (wanted, told) = row.words.as_str().split_once('\t').unwrap_or(("", ""));
    let first = ask_of(thread, code, checked)?;
    let found = ask_words(alloc, &first)?;
    if found.as_str() != wanted {
        return Err(row.stop(alloc, found.as_str()));
    }
    let ask = ask_of(thread, code, checked)?;
    let found = ask_words(alloc, &ask)?;
    if found.as_str() != wanted {
        return Err(row.stop(alloc, found.as_str()));
    }
    if told == "last" {
        return Ok(false);
    }
    let Some(reply) = reply_of(alloc, told)? else {
        return Err(row.stop(alloc, "no such reply"));
    };
    answer(alloc, row, thread, checked, &ask, &reply)?;
    Ok(true)
}

/// `LINE OPERATION REPLY`: a thread of the text's program asks for what the rows say, one after another, and is told the replies. In
/// the last row, which is an End or a Stop, `last` stands for a reply.
pub fn tells(alloc: Global, text: &str, rows: &[Row]) -> Result<(), Stop> {
    let checked = match accept(alloc, text.as_bytes()) {
        Ok(checked) => checked,
        Err(stop) => {
            let found = format!(in alloc; "{stop:?}")?;
            return Err(stop_at_first(alloc, rows, found.as_str()));
        }
    };
    let code = lower(alloc, &checked)?;
    let mut thread = Thread::start(alloc, 0);
    let mut goes_on = true;
    for row in rows {
        if !goes_on {
            return Err(row.stop(alloc, "behind the last row"));
        }
        goes_on = step(alloc, &mut thread, &code, &checked, row)?;
    }
    if goes_on {
        return Err(stop_at_first(alloc, rows, "begun without a last row"));
    }
    Ok(())
}

/// `BEGUN LASTLY TEXT`: after its Begin, which is told this, a thread of the text's program asks for this at once, and lastly.
pub fn ends(alloc: Global, number: u32, row: &str) -> Result<(), Stop> {
    let (begun, rest) = row.split_once('\t').unwrap_or((row, ""));
    let (lastly, text) = rest.split_once('\t').unwrap_or((rest, ""));
    let text = lines_of(alloc, text)?;
    let begin = Row {
        number,
        words: format!(in alloc; "0 begin\t{begun}")?,
    };
    let last = Row {
        number,
        words: format!(in alloc; "{lastly}\tlast")?,
    };
    tells(alloc, text.as_str(), &[begin, last])
}
