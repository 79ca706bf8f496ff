ghost use Rattle.std.specs.Prelude.{◌≡◌, ℕ, ◌+◌, ◌^◌, ◌<◌, ◌≤◌, length};
ghost use Rattle.std.specs.List.{prefix_len};
ghost use Rattle.ila_base.specs.Bytes.{is_word_byte};
ghost use Rattle.tsm_parse.specs.Reading.{digits_end, numeral_length, based_length, suffix_length, constant_length, register_length, mark_length, token_length, skip_length};

use crate::bytes::{Base, base_of, is_digit as is_digit_of, is_place};
use crate::digits::begins_as;
use crate::letters::{is_double, is_single};
use ila_base::bytes::{is_blank, is_digit, is_letter, is_word_byte, line_length};

/// How many bytes of the text are digits of the base and `_`, of which the last is a digit.
fn digits_end(base: Base, text: &[u8]) -> usize
    ensures value { result ≡ digits_end base text.now }
    ensures within { result ≤ length text.now }
{
    let mut end = 0;
    for (at, byte) in text.iter().enumerate() {
        if !is_place(base, *byte) {
            return end;
        }
        if is_digit_of(base, *byte) {
            end = at + 1;
        }
    }
    end
}

/// How many bytes the numeral has that the text begins with. 0 where it begins with none.
fn numeral_length(base: Base, text: &[u8]) -> usize
    ensures value { result ≡ numeral_length base text.now }
    ensures within { result ≤ length text.now }
{
    if !begins_as(base, text) {
        return 0;
    }
    digits_end(base, text)
}

/// How many bytes a constant has behind its width, of whose base these are the digits.
fn based_length(base: Option<Base>, digits: &[u8]) -> usize
    requires { length digits.now + 2 < 2 ^ 64 }
    ensures value { result ≡ based_length base digits.now }
    ensures within { result ≤ length digits.now + 2 }
{
    let Some(base) = base else {
        return 0;
    };
    match numeral_length(base, digits) {
        0 => 0,
        count => count + 2,
    }
}

/// How many bytes a constant has behind its width: the quote, the letter of a base, and its digits.
fn suffix_length(text: &[u8]) -> usize
    ensures value { result ≡ suffix_length text.now }
    ensures within { result ≤ length text.now }
{
    match text {
        [b'\'', letter, digits @ ..] => based_length(base_of(*letter), digits),
        _ => 0,
    }
}

fn constant_length(text: &[u8]) -> usize
    ensures value { result ≡ constant_length text.now }
    ensures within { result ≤ length text.now }
{
    let width = numeral_length(Base::Decimal, text);
    width + suffix_length(&text[width..])
}

fn word_length(text: &[u8]) -> usize
    ensures value { result ≡ prefix_len is_word_byte text.now }
    ensures within { result ≤ length text.now }
{
    text.iter().take_while(|byte| is_word_byte(**byte)).count()
}

/// How many bytes the register has whose `$` the text stands behind.
fn register_length(text: &[u8]) -> usize
    requires { length text.now + 1 < 2 ^ 64 }
    ensures value { result ≡ register_length text.now }
    ensures within { result ≤ length text.now + 1 }
{
    match text {
        [byte, ..] if is_letter(*byte) => 1 + word_length(text),
        _ => 0,
    }
}

fn mark_length(text: &[u8]) -> usize
    ensures value { result ≡ mark_length text.now }
    ensures within { result ≤ length text.now }
{
    match text {
        [first, second, ..] if is_double(*first, *second) => 2,
        [first, ..] if is_single(*first) => 1,
        _ => 0,
    }
}

/// How many bytes the token has that the text begins with. 0 where it begins with none.
pub fn token_length(text: &[u8]) -> usize
    ensures value { result ≡ token_length text.now }
    ensures within { result ≤ length text.now }
{
    let [byte, rest @ ..] = text else {
        return 0;
    };
    if is_digit(*byte) {
        constant_length(text)
    } else if is_letter(*byte) {
        word_length(text)
    } else if *byte == b'$' {
        register_length(rest)
    } else {
        mark_length(text)
    }
}

/// How many bytes are skipped that the text begins with: a byte of white space, or a comment, which
/// goes from `#` or `//` to the end of its line.
pub fn skip_length(text: &[u8]) -> usize
    ensures value { result ≡ skip_length text.now }
    ensures within { result ≤ length text.now }
{
    match text {
        [b'#', rest @ ..] => 1 + line_length(rest),
        [b'/', b'/', rest @ ..] => 2 + line_length(rest),
        [byte, ..] if is_blank(*byte) => 1,
        _ => 0,
    }
}
