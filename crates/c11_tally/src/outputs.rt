ghost use Rattle.std.specs.Prelude.{◌≡◌, ◌+◌, ◌<◌, ◌≤◌, ◌^◌, ◌++◌, List, ℕ, None, OnOk, OnErr, IfOk, length, MatchBool, ⊤};
ghost use Rattle.std.specs.Cmp.Lexicographic.{slice_cmp};
ghost use Rattle.std.specs.Ordering.{nat_cmp};
ghost use Rattle.std.specs.BTreeMap.{get_by};
ghost use Rattle.c11_tally.specs.Tallies.{cut, listed, output_of};
ghost use Rattle.c11_tally.specs.Pairs.{pairs_of, Raises, Adds, AddsAtMost};

use c11_events::{Entry, Op};
use c11_num::{Bytes, NoMemory};
use c11_report::OutputList;
use std::alloc::Global;
use std::collections::BTreeMap;

const OUTPUT_LIMIT: usize = 256;

// Writes the run's output, cut, into the buffer.
pub(crate) fn read_output(buffer: &mut Vec<u8>, entries: &[Entry]) -> Result<(), NoMemory>
    ensures { OnOk result (buffer.new.items ≡ cut (output_of entries.now)) }
{
    buffer.clear();
    for entry in entries {
        if let Op::Out { bytes } = &entry.op {
            push_cut(buffer, bytes.as_slice())?;
        }
    }
    Ok(())
}

// Adds as many of the bytes as there is room for.
fn push_cut(buffer: &mut Vec<u8>, more: &[u8]) -> Result<(), NoMemory>
    requires { length buffer.old.items ≤ 256 }
    ensures { OnOk result (buffer.new.items ≡ cut (buffer.old.items ++ more.now)) }
{
    let room = OUTPUT_LIMIT - buffer.len();
    let taken = room.min(more.len());
    buffer.extend_from_slice(&more[..taken])?;
    Ok(())
}

// Counts an output once more. It takes memory only for one that is not there.
pub(crate) fn count_output(
    alloc: Global,
    outputs: &mut BTreeMap<Vec<u8>, u64>,
    output: &[u8],
) -> Result<(), NoMemory>
    requires { listed (pairs_of outputs.old.entries) output.now + 1 < 2 ^ 64 }
    ensures ok { OnOk result (Raises output.now 1 (pairs_of outputs.old.entries) (pairs_of outputs.new.entries)) }
    ensures err { OnErr result (outputs.new.entries ≡ outputs.old.entries) }
{
    if raise(outputs, output, 1) {
        return Ok(());
    }
    put(outputs, Vec::from_slice(alloc, output)?, 1)
}

// Adds to the count of an output that is there, and tells whether it is.
fn raise(outputs: &mut BTreeMap<Vec<u8>, u64>, output: &[u8], by: u64) -> bool
    requires { listed (pairs_of outputs.old.entries) output.now + by < 2 ^ 64 }
    ensures found { MatchBool result (Raises output.now by (pairs_of outputs.old.entries) (pairs_of outputs.new.entries)) (outputs.new.entries ≡ outputs.old.entries) }
    ensures absent { MatchBool result ⊤ (get_by (λ k. slice_cmp nat_cmp output.now k.items) outputs.new ≡ None) }
{
    match outputs.get_mut(output) {
        Some(count) => {
            *count += by;
            true
        }
        None => false,
    }
}

// Adds an output that is not there.
fn put(outputs: &mut BTreeMap<Vec<u8>, u64>, output: Vec<u8>, count: u64) -> Result<(), NoMemory>
    requires { get_by (λ k. slice_cmp nat_cmp output.items k.items) outputs.old ≡ None }
    ensures ok { OnOk result (Raises output.items count (pairs_of outputs.old.entries) (pairs_of outputs.new.entries)) }
    ensures err { OnErr result (outputs.new.entries ≡ outputs.old.entries) }
{
    outputs.insert(output, count)?;
    Ok(())
}

// Adds the counts of the others.
pub(crate) fn add_outputs(
    outputs: &mut BTreeMap<Vec<u8>, u64>,
    others: BTreeMap<Vec<u8>, u64>,
) -> Result<(), NoMemory>
    requires { (bytes : List ℕ) → listed (pairs_of outputs.old.entries) bytes + listed (pairs_of others.entries) bytes < 2 ^ 64 }
    ensures ok { OnOk result (Adds (pairs_of others.entries) (pairs_of outputs.old.entries) (pairs_of outputs.new.entries)) }
    ensures most { AddsAtMost (pairs_of others.entries) (pairs_of outputs.old.entries) (pairs_of outputs.new.entries) }
{
    for (output, count) in others {
        add_output(outputs, output, count)?;
    }
    Ok(())
}

// Adds the count of an output.
fn add_output(
    outputs: &mut BTreeMap<Vec<u8>, u64>,
    output: Vec<u8>,
    count: u64,
) -> Result<(), NoMemory>
    requires { listed (pairs_of outputs.old.entries) output.items + count < 2 ^ 64 }
    ensures ok { OnOk result (Raises output.items count (pairs_of outputs.old.entries) (pairs_of outputs.new.entries)) }
    ensures err { OnErr result (outputs.new.entries ≡ outputs.old.entries) }
{
    if raise(outputs, output.as_slice(), count) {
        return Ok(());
    }
    put(outputs, output, count)
}

// The list of the outputs.
pub(crate) fn output_list(
    alloc: Global,
    outputs: BTreeMap<Vec<u8>, u64>,
) -> Result<OutputList, NoMemory>
    ensures { IfOk result (λ list. list ≡ pairs_of outputs.entries) }
{
    let mut pairs = Vec::with_capacity(alloc, outputs.len())?;
    for (output, count) in outputs {
        pairs.push((Bytes::new(output), count))?;
    }
    Ok(OutputList::new(pairs))
}
