//! Sized constants in few bytes.

ghost use Rattle.std.specs.Prelude.{◌≡◌};

use ila_base::Word;
use std::marker::Model;

/// 2 to the 32.
const QUARTER: u64 = 4_294_967_296;
/// 2 to the 64.
const HALF: u128 = 18_446_744_073_709_551_616;

/// A sized constant (IEEE 1364-2005, 3.5.1) where many are kept. Its value is in four parts of 32
/// bits, the most significant one first, so that it takes 20 bytes and not the 32 of a `Word`.
/// Clauses see the `Word`.
#[derive(Clone, Copy, Debug, PartialEq, Eq)]
pub struct PackedWord {
    width: u8,
    first: u32,
    second: u32,
    third: u32,
    fourth: u32,
}

impl Model for PackedWord {
    ghost use Rattle.ila_base.specs.declared.place.Word.{Word};

    ghost Value = { Word };

    ghost use Rattle.vlog_lex.specs.Packed.{packed, unpacked, AreParts};
    ghost use Rattle.vlog_lex.specs.PackedLaws.{packed_unpacked};

    ghost view = { unpacked };

    ghost invariant = { AreParts };

    ghost inverse = { packed };

    ghost inverse_ok = { packed_unpacked };
}

impl PackedWord {
    /// The constant of a word.
    pub fn new(word: Word) -> PackedWord
        ensures { result ≡ word }
    {
        let high = (word.value / HALF) as u64;
        let low = (word.value % HALF) as u64;
        PackedWord {
            width: word.width,
            first: (high / QUARTER) as u32,
            second: (high % QUARTER) as u32,
            third: (low / QUARTER) as u32,
            fourth: (low % QUARTER) as u32,
        }
    }

    /// How many bits it has.
    pub fn width(&self) -> u8
        ensures { result ≡ self.now.width }
    {
        self.width
    }

    /// The word.
    pub fn word(&self) -> Word
        ensures { result ≡ self.now }
    {
        let high = self.first as u64 * QUARTER + self.second as u64;
        let low = self.third as u64 * QUARTER + self.fourth as u64;
        Word {
            width: self.width,
            value: high as u128 * HALF + low as u128,
        }
    }
}
