//! Values as they are written in a table: each byte stands for itself, but for `%`, which stands with
//! two hexadecimal digits for a byte, and in a repetition with `k` for its number and with `n` for the
//! next one.

use crate::fault::Fault;
use ila_base::bytes::digit_value;
use std::alloc::Global;

fn digit(byte: u8) -> Option<u8> {
    match digit_value(byte) {
        value @ 0..=15 => Some(value),
        _ => None,
    }
}

fn byte_of(high: u8, low: u8) -> Option<u8> {
    let high = digit(high)?;
    let low = digit(low)?;
    Some(high.wrapping_mul(16).wrapping_add(low))
}

fn push_number(alloc: Global, value: &mut Vec<u8>, number: u32) -> Result<(), Fault> {
    let digits = format!(in alloc; "{number}")?;
    value.extend_from_slice(digits.as_bytes())?;
    Ok(())
}

// What stands behind a `%`, up to the next one.
fn push_behind(alloc: Global, value: &mut Vec<u8>, piece: &[u8], number: u32) -> Result<(), Fault> {
    let rest = match piece {
        [b'k', rest @ ..] => {
            push_number(alloc, value, number)?;
            rest
        }
        [b'n', rest @ ..] => {
            push_number(alloc, value, number.saturating_add(1))?;
            rest
        }
        [high, low, rest @ ..] => {
            let byte = byte_of(*high, *low).ok_or(Fault::Form("no byte behind a %"))?;
            value.push(byte)?;
            rest
        }
        _ => return Err(Fault::Form("no byte behind a %")),
    };
    value.extend_from_slice(rest)?;
    Ok(())
}

/// Appends a value as it is written, in the repetition of this number.
pub fn push_written(
    alloc: Global,
    value: &mut Vec<u8>,
    written: &str,
    number: u32,
) -> Result<(), Fault> {
    let mut pieces = written.split('%');
    if let Some(first) = pieces.next() {
        value.extend_from_slice(first.as_bytes())?;
    }
    for piece in pieces {
        push_behind(alloc, value, piece.as_bytes(), number)?;
    }
    Ok(())
}

fn push_numbered(
    alloc: Global,
    value: &mut Vec<u8>,
    written: &str,
    count: u32,
) -> Result<(), Fault> {
    for number in 0..count {
        push_written(alloc, value, written, number.saturating_add(1))?;
    }
    Ok(())
}

/// Appends a value as it is written so many times, with the numbers from 1 on.
pub fn push_repeated(
    alloc: Global,
    value: &mut Vec<u8>,
    written: &str,
    count: u32,
) -> Result<(), Fault> {
    if written.contains("%k") || written.contains("%n") {
        return push_numbered(alloc, value, written, count);
    }
    let mut part = Vec::new(alloc);
    push_written(alloc, &mut part, written, 0)?;
    for _ in 0..count {
        value.extend_from_slice(part.as_slice())?;
    }
    Ok(())
}
