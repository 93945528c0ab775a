//! What `printf` writes (ISO/IEC 9899:2011, 7.21.6.1).

ghost use Rattle.std.specs.Prelude.{◌≡◌, ◌++◌, ◌≤◌, IfOk, OnOk, MatchResult, drop, length};
ghost use Rattle.std.specs.Fmt.{signed_decimal};
ghost use Rattle.c11_num.specs.Wrapping.{converted};
ghost use Rattle.c11_meaning.specs.Prints.{printed};
ghost use Rattle.c11_machine.specs.Slots.{values_of};
ghost use Rattle.c11_machine.specs.Texts as spec;

use crate::slots::value_in;
use c11_check::Within;
use c11_flat::Slot;
use c11_num::{CType, CValue, NoMemory, convert};
use std::alloc::Global;

/// What a byte of the text stands for.
#[derive(Clone, Copy)]
enum Part {
    /// Itself.
    Byte(u8),
    /// The next value, in this type.
    Number(CType),
    /// Nothing by itself.
    Nothing,
}

// What the byte stands for.
fn part_at(within: Within, byte: u8) -> Part
    ensures { result ≡ spec.part_at within byte }
{
    match within {
        Within::Plain => {
            if byte == b'%' {
                Part::Nothing
            } else {
                Part::Byte(byte)
            }
        }
        Within::AfterPercent => {
            if byte == b'%' {
                Part::Byte(b'%')
            } else if byte == b'd' {
                Part::Number(CType::Int)
            } else if byte == b'u' {
                Part::Number(CType::Unsigned)
            } else {
                Part::Nothing
            }
        }
        Within::AfterLong => {
            if byte == b'd' {
                Part::Number(CType::Long)
            } else {
                Part::Number(CType::ULong)
            }
        }
    }
}

// Where the byte behind this one stands.
fn within_after(within: Within, byte: u8) -> Within
    ensures { result ≡ spec.within_after within byte }
{
    match within {
        Within::Plain => {
            if byte == b'%' {
                Within::AfterPercent
            } else {
                Within::Plain
            }
        }
        Within::AfterPercent => {
            if byte == b'%' {
                Within::Plain
            } else if byte == b'd' {
                Within::Plain
            } else if byte == b'u' {
                Within::Plain
            } else {
                Within::AfterLong
            }
        }
        Within::AfterLong => Within::Plain,
    }
}

// Writes the number of the value in decimal.
fn write_number(alloc: Global, bytes: &mut Vec<u8>, value: CValue) -> Result<(), NoMemory>
    ensures { OnOk result (bytes.new.items ≡ bytes.old.items ++ signed_decimal value.number) }
{
    let digits = value.number().to_string(alloc)?;
    bytes.extend_from_slice(digits.as_bytes())?;
    Ok(())
}

// Writes what the byte stands for, and says from where on the values are left.
fn write_part(
    alloc: Global,
    bytes: &mut Vec<u8>,
    part: Part,
    slots: &[Slot],
    used: usize,
) -> Result<usize, NoMemory>
    requires { used ≤ length slots.now }
    ensures bytes { OnOk result (bytes.new.items ≡ bytes.old.items ++ spec.shown part (values_of (drop used slots.now))) }
    ensures rest { IfOk result (λ used'. values_of (drop used' slots.now) ≡ spec.left_by part (values_of (drop used slots.now))) }
    ensures within { IfOk result (λ used'. used' ≤ length slots.now) }
{
    match part {
        Part::Byte(byte) => {
            bytes.push(byte)?;
            Ok(used)
        }
        Part::Number(ctype) => {
            if used == slots.len() {
                return Ok(used);
            }
            let value = convert(value_in(slots[used]), ctype);
            write_number(alloc, bytes, value)?;
            Ok(used + 1)
        }
        Part::Nothing => Ok(used),
    }
}

// The bytes of the text, where each conversion prints the next of the values.
pub(crate) fn print_text(alloc: Global, text: &[u8], slots: &[Slot]) -> Result<Vec<u8>, NoMemory>
    ensures { IfOk result (λ bytes. bytes.items ≡ printed Within.Plain text.now (values_of slots.now)) }
{
    let mut bytes = Vec::new(alloc);
    let mut within = Within::Plain;
    let mut used = 0;
    for byte in text {
        used = write_part(alloc, &mut bytes, part_at(within, *byte), slots, used)?;
        within = within_after(within, *byte);
    }
    Ok(bytes)
}
