ghost use Rattle.std.specs.Prelude.{◌≡◌, ◌^◌, ◌<◌};
ghost use Rattle.std.specs.Option.{SomeIff};
ghost use Rattle.ila_base.specs.Bytes as bytes;

use crate::bytes::{digit_value, is_underscore};

/// A number with one more digit behind it, or as it was where the byte is a `_`. None where that
/// has no 128 bits.
fn with_digit(total: u128, base: u8, byte: u8) -> Option<u128>
    ensures { SomeIff result (bytes.with_digit total base byte < 2 ^ 128) (bytes.with_digit total base byte) }
{
    if is_underscore(byte) {
        return Some(total);
    }
    total
        .checked_mul(u128::from(base))?
        .checked_add(u128::from(digit_value(byte)))
}

/// What the digits stand for in the base, apart from each `_`. None for 2 to the 128 and more.
pub fn numeral_value(base: u8, digits: &[u8]) -> Option<u128>
    requires { 0 < base }
    ensures { SomeIff result (bytes.value base digits.now < 2 ^ 128) (bytes.value base digits.now) }
{
    let mut total = 0;
    for byte in digits {
        total = with_digit(total, base, *byte)?;
    }
    Some(total)
}
