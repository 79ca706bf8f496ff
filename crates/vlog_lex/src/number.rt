ghost use Rattle.std.specs.Prelude.{◌≡◌, ◌+◌, ◌*◌, ◌^◌, ◌<◌, IfSome};
ghost use Rattle.std.specs.Option.{SomeIff};
ghost use Rattle.ila_base.specs.Bytes.{digit_value, is_underscore, value, with_digit};
ghost use Rattle.vlog_lex.specs.Numbers.{base_of, is_unknown, is_place};

use ila_base::bytes::{digit_value, is_underscore};

/// What the letter of a base stands for.
pub fn base_of(letter: u8) -> Option<u8>
    ensures value { result ≡ base_of letter }
    ensures positive { IfSome result (λ base. 0 < base) }
{
    match letter {
        b'b' | b'B' => Some(2),
        b'o' | b'O' => Some(8),
        b'd' | b'D' => Some(10),
        b'h' | b'H' => Some(16),
        _ => None,
    }
}

/// Whether the byte is a digit that stands for no known value.
pub fn is_unknown(byte: u8) -> bool
    ensures { result ≡ is_unknown byte }
{
    matches!(byte, b'x' | b'X' | b'z' | b'Z' | b'?')
}

/// Whether the byte may stand among the digits of a constant of the base.
pub fn is_place(base: u8, byte: u8) -> bool
    ensures { result ≡ is_place base byte }
{
    digit_value(byte) < base || is_underscore(byte) || is_unknown(byte)
}
