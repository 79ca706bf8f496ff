ghost use Rattle.std.specs.Prelude.{◌≡◌, ◌+◌, ◌*◌, ◌^◌, ◌<◌, ◌≤◌, length, IfSome, ◌%◌};
ghost use Rattle.std.specs.List.{list_any, list_all};
ghost use Rattle.vlog_lex.specs.Numbers.{is_unknown};
ghost use Rattle.ila_base.specs.Bytes.{is_underscore, value};
ghost use Rattle.ila_base.specs.declared.limits.TheConstants.{CONSTANT_BITS, GREATEST_NUMBER};
ghost use Rattle.vlog_lex.specs.Reading.{IsSuffixWithin, digits_at, suffix_behind, suffix_at, capped, whole_piece, constant_piece, number_with, number_at};

use crate::number::{base_of, is_unknown};
use crate::packed::PackedWord;
use crate::runs::{blank_length, number_length, place_length};
use crate::token::{Flaw, Piece, TokenKind};
use ila_base::bytes::is_underscore;
use ila_base::limits::{CONSTANT_BITS, GREATEST_NUMBER};
use ila_base::{Word, numeral_value};

/// The part of a sized constant behind the number of its width (IEEE 1364-2005, 3.5.1).
#[derive(Clone, Copy, Debug)]
pub struct Suffix {
    /// The base: 2, 8, 10 or 16.
    pub base: u8,
    /// How many bytes stand between the number and the digits.
    pub digits: usize,
    /// How many bytes stand between the number and the end of the digits.
    pub end: usize,
}

/// An unsized number from here on is too large, and a width from here on is told by this number.
const TOO_LARGE: u64 = GREATEST_NUMBER as u64 + 1;

fn are_underscores(digits: &[u8]) -> bool
    ensures { result ≡ list_all is_underscore digits.now }
{
    digits.iter().all(|byte| is_underscore(*byte))
}

fn has_unknown(digits: &[u8]) -> bool
    ensures { result ≡ list_any is_unknown digits.now }
{
    digits.iter().any(|byte| is_unknown(*byte))
}

/// The white space and digits behind the base of a constant, if one of them is a digit.
fn digits_at(base: u8, behind: usize, text: &[u8]) -> Option<Suffix>
    requires positive { 0 < base }
    requires room { behind + length text.now < 2 ^ 64 }
    ensures value { result ≡ digits_at base behind text.now }
    ensures within { IfSome result (IsSuffixWithin (behind + length text.now)) }
{
    let blanks = blank_length(text);
    let places = &text[blanks..];
    let count = place_length(base, places);
    if are_underscores(&places[..count]) {
        return None;
    }
    Some(Suffix {
        base,
        digits: behind + blanks,
        end: behind + blanks + count,
    })
}

/// The quote and what follows it, behind blanks, if that is of a constant.
fn suffix_behind(blanks: usize, text: &[u8]) -> Option<Suffix>
    requires { blanks + length text.now < 2 ^ 64 }
    ensures value { result ≡ suffix_behind blanks text.now }
    ensures within { IfSome result (IsSuffixWithin (blanks + length text.now)) }
{
    match text {
        [b'\'', letter, digits @ ..] => match base_of(*letter) {
            Some(base) => digits_at(base, blanks + 2, digits),
            None => None,
        },
        _ => None,
    }
}

/// The rest of a sized constant, if there is one behind a number.
fn suffix_at(text: &[u8]) -> Option<Suffix>
    ensures value { result ≡ suffix_at text.now }
    ensures within { IfSome result (IsSuffixWithin (length text.now)) }
{
    let blanks = blank_length(text);
    suffix_behind(blanks, &text[blanks..])
}

/// What the digits of a number stand for, and 2 to the 32 for all that is more.
fn capped_value(number: &[u8]) -> u64
    ensures { result ≡ capped (value 10 number.now) }
{
    match numeral_value(10, number) {
        Some(all) if all < u128::from(TOO_LARGE) => all as u64,
        _ => TOO_LARGE,
    }
}

/// The number of so many bytes.
fn whole_piece(number: u64, count: usize) -> Piece
    requires { number ≤ GREATEST_NUMBER + 1 }
    ensures { result ≡ whole_piece number count }
{
    if number == TOO_LARGE {
        return Piece::Refused(Flaw::Constant(number));
    }
    Piece::Token(TokenKind::Number(number as u32), count)
}

/// The constant of so many bytes.
fn constant_piece(width: u64, base: u8, digits: &[u8], count: usize) -> Piece
    requires { 0 < base }
    ensures { result ≡ constant_piece width base digits.now count }
{
    if has_unknown(digits) {
        return Piece::Refused(Flaw::XZ);
    }
    if width > u64::from(CONSTANT_BITS) {
        return Piece::Refused(Flaw::Constant(width));
    }
    match numeral_value(base, digits) {
        Some(all) => {
            let word = PackedWord::new(cut(width as u8, all));
            Piece::Token(TokenKind::Sized(word), count)
        }
        // The digits need more bits.
        None => Piece::Refused(Flaw::Constant(u64::from(CONSTANT_BITS) + 1)),
    }
}

/// The word of the width with as many of the value's low bits.
fn cut(width: u8, value: u128) -> Word
    requires { width ≤ CONSTANT_BITS }
    ensures { result ≡ record { width = width; value = value % 2 ^ width } }
{
    if width == CONSTANT_BITS {
        return Word { width, value };
    }
    Word {
        width,
        value: value % (1 << width),
    }
}

/// The number that what follows makes a constant, or leaves a number.
fn number_with(width: u64, count: usize, behind: &[u8], suffix: Option<Suffix>) -> Piece
    requires width { width ≤ GREATEST_NUMBER + 1 }
    requires room { count + length behind.now < 2 ^ 64 }
    requires within { IfSome suffix (IsSuffixWithin (length behind.now)) }
    ensures { result ≡ number_with width count behind.now suffix }
{
    match suffix {
        Some(suffix) => {
            if width == 0 {
                return whole_piece(width, count);
            }
            let digits = &behind[suffix.digits..suffix.end];
            constant_piece(width, suffix.base, digits, count + suffix.end)
        }
        None => whole_piece(width, count),
    }
}

/// The number or sized constant that the text begins with.
pub fn number_at(text: &[u8]) -> Piece
    ensures { result ≡ number_at text.now }
{
    let count = number_length(text);
    let width = capped_value(&text[..count]);
    let behind = &text[count..];
    number_with(width, count, behind, suffix_at(behind))
}
