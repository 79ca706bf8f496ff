ghost use Rattle.std.specs.Prelude.{◌≡◌, ℕ, ◌+◌, ◌-◌, ◌*◌, ◌^◌, ◌<◌, ◌≤◌, List, length, take, drop, reverse, IfOk, IfSome};
ghost use Rattle.std.specs.List.{prefix_len, list_all};
ghost use Rattle.std.specs.Option.{SomeIff};
ghost use Rattle.tsm_parse.specs.declared.bytes.Base.TheVariants.{Binary};
ghost use Rattle.tsm_parse.specs.Constants as constants;

use crate::bytes::{Base, base_of, is_digit, is_place, written_digit};
use crate::types::Constant;
use ila_base::bytes::is_underscore;
use ila_base::limits::CONSTANT_BITS;
use ila_base::{Digit, Digits, NoMemory, numeral_value};
use std::alloc::Global;

/// The constant that the text is (UG908, compare values). None comes exactly where it is none.
pub fn constant(alloc: Global, text: &[u8]) -> Result<Option<Constant>, NoMemory>
    ensures { IfOk result (λ found. found ≡ constants.constant_of text.now) }
{
    if is_numeral(Base::Decimal, text) {
        let digits = digits_with(alloc, Base::Decimal, text)?;
        return Ok(Some(Constant {
            width: None,
            digits,
        }));
    }
    let quote = quote_at(text);
    sized(alloc, &text[..quote], behind(text, quote + 1))
}

// How many bytes stand before the first quote, or how many there are where there is none.
fn quote_at(text: &[u8]) -> usize
    ensures value { result ≡ prefix_len constants.is_no_quote text.now }
    ensures within { result ≤ length text.now }
{
    text.iter().take_while(|byte| **byte != b'\'').count()
}

// What stands behind so many bytes.
fn behind(text: &[u8], count: usize) -> &[u8]
    ensures { result.now ≡ drop count text.now }
{
    if count <= text.len() {
        return &text[count..];
    }
    &text[text.len()..]
}

// The constant with the width that stands before the quote, and what stands behind it.
fn sized(alloc: Global, width: &[u8], behind: &[u8]) -> Result<Option<Constant>, NoMemory>
    ensures { IfOk result (λ found. found ≡ constants.sized_of width.now behind.now) }
{
    let Some((letter, digits)) = behind.split_first() else {
        return Ok(None);
    };
    let Some(base) = base_of(*letter) else {
        return Ok(None);
    };
    if !is_numeral(Base::Decimal, width) || !is_numeral(base, digits) {
        return Ok(None);
    }
    let digits = digits_with(alloc, base, digits)?;
    Ok(Some(Constant {
        width: Some(width_of(width)),
        digits,
    }))
}

/// Whether the bytes are digits of the base and `_`, of which the first and the last are digits.
pub fn is_numeral(base: Base, bytes: &[u8]) -> bool
    ensures { result ≡ constants.is_numeral base bytes.now }
{
    if !are_places(base, bytes) {
        return false;
    }
    begins_as(base, bytes) && ends_as(base, bytes)
}

fn are_places(base: Base, bytes: &[u8]) -> bool
    ensures { result ≡ list_all (constants.is_place base) bytes.now }
{
    bytes.iter().all(|byte| is_place(base, *byte))
}

/// Whether the first byte is a digit of the base.
pub fn begins_as(base: Base, bytes: &[u8]) -> bool
    ensures { result ≡ constants.passes_at (constants.is_digit base) bytes.now 0 }
{
    match bytes.first() {
        Some(byte) => is_digit(base, *byte),
        None => false,
    }
}

fn ends_as(base: Base, bytes: &[u8]) -> bool
    ensures { result ≡ constants.passes_at (constants.is_digit base) bytes.now (length bytes.now - 1) }
{
    match bytes.last() {
        Some(byte) => is_digit(base, *byte),
        None => false,
    }
}

// What the width before a quote is kept as.
fn width_of(bytes: &[u8]) -> u32
    ensures { result ≡ constants.width_of bytes.now }
{
    match numeral_value(10, bytes) {
        Some(width) if width <= u128::from(CONSTANT_BITS) => width as u32,
        _ => u32::from(CONSTANT_BITS) + 1,
    }
}

// The digits that a numeral stands for.
fn digits_with(alloc: Global, base: Base, bytes: &[u8]) -> Result<Digits, NoMemory>
    ensures { IfOk result (λ digits. digits ≡ constants.digits_with base bytes.now) }
{
    let list = match base {
        Base::Binary => written(alloc, bytes)?,
        Base::Decimal => digits_of_value(alloc, numeral_value(10, bytes))?,
        Base::Hexadecimal => digits_of_value(alloc, numeral_value(16, bytes))?,
    };
    Ok(Digits::new(list))
}

// The binary digits as written, the lowest first.
fn written(alloc: Global, bytes: &[u8]) -> Result<Vec<Digit>, NoMemory>
    ensures { IfOk result (λ list. list.items ≡ constants.digits_with Binary bytes.now) }
{
    let mut list = Vec::new(alloc);
    for byte in bytes {
        if !is_underscore(*byte) {
            list.push(written_digit(*byte))?;
        }
    }
    list.reverse();
    Ok(list)
}

// The digits of a value, or one more digit 1 than a constant has bits where it is 2 to the 128 or more.
fn digits_of_value(alloc: Global, value: Option<u128>) -> Result<Vec<Digit>, NoMemory>
    ensures { (n : ℕ) → SomeIff value (n < 2 ^ 128) n → IfOk result (λ list. list.items ≡ constants.digits_of_number n) }
{
    match value {
        Some(number) => bits_of(alloc, number),
        None => Ok(vec![in alloc; Digit::One; usize::from(CONSTANT_BITS) + 1]?),
    }
}

// The digits of a number, the lowest first.
fn bits_of(alloc: Global, number: u128) -> Result<Vec<Digit>, NoMemory>
    ensures { IfOk result (λ list. list.items ≡ constants.digits_of_number number) }
{
    let mut list = Vec::new(alloc);
    let mut rest = number;
    while rest > 0 {
        list.push(bit_digit(rest % 2))?;
        rest /= 2;
    }
    Ok(list)
}

fn bit_digit(bit: u128) -> Digit
    ensures { result ≡ constants.bit_digit bit }
{
    if bit == 0 { Digit::Zero } else { Digit::One }
}
