//! The texts of `printf` (ISO/IEC 9899:2011, 7.21.6.1).

ghost use Rattle.std.specs.Prelude.{◌≡◌};
ghost use Rattle.c11_check.specs.Formats as spec;

use c11_num::CType;

/// Where in a text a byte stands.
#[derive(Clone, Copy, Debug)]
pub enum Within {
    Plain,
    /// Behind a `%` that begins a conversion.
    AfterPercent,
    /// Behind a `%l`.
    AfterLong,
}

/// Where the byte behind this one stands, and the type of the value that this byte asks for, if it ends a conversion; none where
/// the conversion is none of `%d`, `%u`, `%ld`, `%lu` and `%%`.
pub fn format_step(within: Within, byte: u8) -> Option<(Within, Option<CType>)>
    ensures { result ≡ spec.format_step within byte }
{
    match within {
        Within::Plain => {
            if byte == b'%' {
                Some((Within::AfterPercent, None))
            } else {
                Some((Within::Plain, None))
            }
        }
        Within::AfterPercent => {
            if byte == b'%' {
                Some((Within::Plain, None))
            } else if byte == b'd' {
                Some((Within::Plain, Some(CType::Int)))
            } else if byte == b'u' {
                Some((Within::Plain, Some(CType::Unsigned)))
            } else if byte == b'l' {
                Some((Within::AfterLong, None))
            } else {
                None
            }
        }
        Within::AfterLong => {
            if byte == b'd' {
                Some((Within::Plain, Some(CType::Long)))
            } else if byte == b'u' {
                Some((Within::Plain, Some(CType::ULong)))
            } else {
                None
            }
        }
    }
}

/// How many values the text asks for; none where a `%` in it begins no conversion.
pub fn values_of_format(bytes: &[u8]) -> Option<usize>
    ensures { result ≡ spec.values_of_format bytes.now }
{
    let mut within = Within::Plain;
    let mut values = 0;
    for byte in bytes {
        let (next, asked) = format_step(within, *byte)?;
        within = next;
        if asked.is_some() {
            values += 1;
        }
    }
    match within {
        Within::Plain => Some(values),
        Within::AfterPercent | Within::AfterLong => None,
    }
}
