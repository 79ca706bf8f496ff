ghost use Rattle.std.specs.Prelude.{◌≡◌};
ghost use Rattle.tsm_parse.specs.Constants as constants;

use ila_base::Digit;
use ila_base::bytes::{digit_value, is_underscore};

/// The base of a constant's digits.
#[derive(Clone, Copy, Debug, PartialEq, Eq)]
pub enum Base {
    Binary,
    Decimal,
    Hexadecimal,
}

/// What the letter behind a constant's quote stands for.
pub fn base_of(letter: u8) -> Option<Base>
    ensures { result ≡ constants.base_of letter }
{
    match letter {
        b'b' | b'B' => Some(Base::Binary),
        b'u' | b'U' | b'd' | b'D' => Some(Base::Decimal),
        b'h' | b'H' => Some(Base::Hexadecimal),
        _ => None,
    }
}

fn is_binary(byte: u8) -> bool
    ensures { result ≡ constants.is_binary byte }
{
    matches!(
        byte,
        b'0' | b'1' | b'x' | b'X' | b'r' | b'R' | b'f' | b'F' | b'b' | b'B' | b'n' | b'N'
    )
}

/// Whether the byte is a digit of the base.
pub fn is_digit(base: Base, byte: u8) -> bool
    ensures { result ≡ constants.is_digit base byte }
{
    match base {
        Base::Binary => is_binary(byte),
        Base::Decimal => byte.is_ascii_digit(),
        Base::Hexadecimal => digit_value(byte) < 16,
    }
}

/// Whether the byte may stand in a numeral of the base.
pub fn is_place(base: Base, byte: u8) -> bool
    ensures { result ≡ constants.is_place base byte }
{
    is_digit(base, byte) || is_underscore(byte)
}

/// A binary digit as written.
pub fn written_digit(byte: u8) -> Digit
    ensures { result ≡ constants.written_digit byte }
{
    match byte {
        b'0' => Digit::Zero,
        b'1' => Digit::One,
        b'x' | b'X' => Digit::Any,
        b'r' | b'R' => Digit::Rise,
        b'f' | b'F' => Digit::Fall,
        b'b' | b'B' => Digit::Both,
        _ => Digit::Steady,
    }
}
