ghost use Rattle.std.specs.Prelude.{◌≡◌, ◌++◌, ◌<◌, [], OnOk, flat_map, codes};
ghost use Rattle.std.specs.Fmt.{decimal, signed_decimal};
ghost use Rattle.c11_report.specs.Execution.{hex_digit, hex_bytes, reply_bytes, began_bytes, access_bytes, op_bytes, told_bytes, read_bytes, entry_bytes, names_in, cell_bytes, order_bytes, exchange_word};

use crate::object::{Objects, push_cell, push_function};
use crate::spelling::{kind_word, order_word, stop_word};
use crate::text::Text;
use c11_events::{CellInfo, Entry, Op, Order, Reply};
use c11_num::{CValue, NoMemory};

// Adds a word and an object's name.
fn push_object(text: &mut Text, word: &str, cells: &[CellInfo], cell: u32) -> Result<(), NoMemory>
    ensures { OnOk result (text.new ≡ text.old ++ (word.now ++ cell_bytes cells.now cell)) }
{
    text.word(word)?;
    push_cell(text, cells, cell)
}

// Adds a blank and a number.
fn push_signed(text: &mut Text, number: i128) -> Result<(), NoMemory>
    ensures { OnOk result (text.new ≡ text.old ++ (codes " " ++ signed_decimal number)) }
{
    text.word(" ")?;
    text.signed(number)
}

// Adds a word, an atomic cell and an order.
fn push_access(
    text: &mut Text,
    objects: Objects,
    word: &str,
    cell: u32,
    order: Order,
) -> Result<(), NoMemory>
    ensures { OnOk result (text.new ≡ text.old ++ access_bytes (names_in objects.entry) word.now cell order) }
{
    push_object(text, word, objects.atomic, cell)?;
    text.word(" ")?;
    text.word(order_word(order))
}

fn exchange_word(weak: bool) -> &'static str
    ensures { result.now ≡ exchange_word weak }
{
    if weak { "wcas " } else { "cas " }
}

// Adds the order of a failed compare-exchange.
fn push_failure(text: &mut Text, failure: Order) -> Result<(), NoMemory>
    ensures { OnOk result (text.new ≡ text.old ++ (codes " " ++ order_bytes failure)) }
{
    text.word(" ")?;
    text.word(order_word(failure))
}

// Adds a byte in hexadecimal.
fn push_hex(text: &mut Text, byte: u8) -> Result<(), NoMemory>
    ensures { OnOk result (text.new ≡ text.old ++ (hex_digit (byte / 16) ∷ hex_digit (byte % 16) ∷ [])) }
{
    text.bytes(&[hex_digit(byte / 16), hex_digit(byte % 16)])
}

ghost use Rattle.std.specs.Prelude.{◌∷◌, ◌/◌, ◌%◌};

fn hex_digit(digit: u8) -> u8
    requires { digit < 16 }
    ensures { result ≡ hex_digit digit }
{
    if digit < 10 {
        b'0' + digit
    } else {
        b'a' - 10 + digit
    }
}

// Adds bytes in hexadecimal, and `-` for none.
pub(crate) fn push_bytes(text: &mut Text, bytes: &[u8]) -> Result<(), NoMemory>
    ensures { OnOk result (text.new ≡ text.old ++ hex_bytes bytes.now) }
{
    if bytes.is_empty() {
        return text.word("-");
    }
    for byte in bytes {
        push_hex(text, *byte)?;
    }
    Ok(())
}

// Adds what a reply tells.
fn push_reply(text: &mut Text, reply: Reply) -> Result<(), NoMemory>
    ensures { OnOk result (text.new ≡ text.old ++ reply_bytes reply) }
{
    match reply {
        Reply::Value(value) => push_told(text, value.number(), ""),
        Reply::Exchanged { old, success } => {
            let outcome = if success { " yes" } else { " no" };
            push_told(text, old.number(), outcome)
        }
        Reply::Locked(true) => text.word(" = 0"),
        Reply::Locked(false) => text.word(" = 1"),
        Reply::Created(thread) => {
            text.word(" = t")?;
            text.number(u64::from(thread))
        }
        Reply::Joined(value) => push_told(text, i128::from(value), ""),
        Reply::Done | Reply::Began { .. } | Reply::Fault(_) => Ok(()),
    }
}

fn push_told(text: &mut Text, number: i128, outcome: &str) -> Result<(), NoMemory>
    ensures { OnOk result (text.new ≡ text.old ++ (codes " = " ++ signed_decimal number ++ outcome.now)) }
{
    text.word(" = ")?;
    text.signed(number)?;
    text.word(outcome)
}

// Adds the words of an operation on atomic cells.
fn push_op(text: &mut Text, objects: Objects, op: &Op) -> Result<(), NoMemory>
    ensures { OnOk result (text.new ≡ text.old ++ op_bytes (names_in objects.entry) op.now) }
{
    match op {
        Op::Init { cell, value } => {
            push_object(text, "init ", objects.atomic, *cell)?;
            push_signed(text, value.number())
        }
        Op::AtomicLoad { cell, order } => push_access(text, objects, "load ", *cell, *order),
        Op::AtomicStore { cell, order, value } => {
            push_access(text, objects, "store ", *cell, *order)?;
            push_signed(text, value.number())
        }
        Op::Rmw {
            cell,
            order,
            kind,
            operand,
        } => {
            push_access(text, objects, "rmw ", *cell, *order)?;
            text.word(" ")?;
            text.word(kind_word(*kind))?;
            push_signed(text, operand.number())
        }
        Op::CompareExchange {
            cell,
            success,
            failure,
            weak,
            expected,
            desired,
        } => {
            push_access(text, objects, exchange_word(*weak), *cell, *success)?;
            push_failure(text, *failure)?;
            push_signed(text, expected.number())?;
            push_signed(text, desired.number())
        }
        Op::Fence { order } => {
            text.word("fence ")?;
            text.word(order_word(*order))
        }
        Op::PlainRead { cell } => push_object(text, "read ", objects.plain, *cell),
        Op::PlainWrite { cell, value } => {
            push_object(text, "write ", objects.plain, *cell)?;
            push_signed(text, value.number())
        }
        Op::MutexInit { mutex } => push_object(text, "minit ", objects.mutexes, *mutex),
        Op::Lock { mutex } => push_object(text, "lock ", objects.mutexes, *mutex),
        Op::TryLock { mutex } => push_object(text, "trylock ", objects.mutexes, *mutex),
        Op::Unlock { mutex } => push_object(text, "unlock ", objects.mutexes, *mutex),
        Op::Create { function, argument } => {
            text.word("create ")?;
            push_function(text, objects.functions, *function)?;
            push_signed(text, i128::from(*argument))
        }
        Op::Begin => text.word("begin"),
        Op::End { value } => {
            text.word("end")?;
            push_signed(text, i128::from(*value))
        }
        Op::Join { thread } => {
            text.word("join t")?;
            text.number(u64::from(*thread))
        }
        Op::Out { bytes } => {
            text.word("out ")?;
            push_bytes(text, bytes.as_slice())
        }
        Op::Stop { kind } => {
            text.word("stop ")?;
            text.word(stop_word(*kind))
        }
    }
}

// Adds the words for the reply to an operation.
fn push_outcome(text: &mut Text, objects: Objects, op: &Op, reply: Reply) -> Result<(), NoMemory>
    ensures { OnOk result (text.new ≡ text.old ++ told_bytes (names_in objects.entry) op.now reply) }
{
    match op {
        Op::Lock { .. } => Ok(()),
        Op::Begin => push_began(text, objects, reply),
        _ => push_reply(text, reply),
    }
}

// Adds the function that a thread runs, and its argument.
fn push_began(text: &mut Text, objects: Objects, reply: Reply) -> Result<(), NoMemory>
    ensures { OnOk result (text.new ≡ text.old ++ began_bytes (names_in objects.entry) reply) }
{
    match reply {
        Reply::Began { function, argument } => {
            text.word(" ")?;
            push_function(text, objects.functions, function)?;
            push_signed(text, i128::from(argument))
        }
        _ => Ok(()),
    }
}

// Adds the store that was read and those that were offered, where the operation read an atomic cell.
fn push_read(text: &mut Text, from: u32, offered: &[u32]) -> Result<(), NoMemory>
    ensures { OnOk result (text.new ≡ text.old ++ read_bytes from offered.now) }
{
    if offered.is_empty() {
        return Ok(());
    }
    text.word(" from ")?;
    text.number(u64::from(from))?;
    text.word(" of")?;
    push_stores(text, offered)
}

fn push_stores(text: &mut Text, stores: &[u32]) -> Result<(), NoMemory>
    ensures { OnOk result (text.new ≡ text.old ++ flat_map (λ store. codes " " ++ decimal store) stores.now) }
{
    for store in stores {
        text.word(" ")?;
        text.number(u64::from(*store))?;
    }
    Ok(())
}

// Adds the line of an entry.
pub(crate) fn push_entry(text: &mut Text, objects: Objects, entry: &Entry) -> Result<(), NoMemory>
    ensures { OnOk result (text.new ≡ text.old ++ entry_bytes (names_in objects.entry) entry.now) }
{
    push_place(text, entry.number, entry.thread, entry.line)?;
    push_op(text, objects, &entry.op)?;
    push_outcome(text, objects, &entry.op, entry.reply)?;
    push_read(text, entry.from, entry.offered.as_slice())?;
    text.word("\n")
}

ghost use Rattle.c11_report.specs.Execution.{place_bytes};

fn push_place(text: &mut Text, number: u32, thread: u32, line: u32) -> Result<(), NoMemory>
    ensures { OnOk result (text.new ≡ text.old ++ place_bytes number thread line) }
{
    text.number(u64::from(number))?;
    text.word(" t")?;
    text.number(u64::from(thread))?;
    text.word(" l")?;
    text.number(u64::from(line))?;
    text.word(" ")
}
