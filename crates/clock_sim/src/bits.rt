//! Bits in little memory.
ghost use Rattle.std.specs.Prelude.{◌≡◌, ◌≢◌, ℕ, ◌<◌, ◌==◌, false, length, replicate, slice_set, IfOk};
ghost use Rattle.std.specs.Int.{bit_at as bit_at_number};
ghost use Rattle.clock_sim.specs.Reading.{bit_at_place};

use ila_base::NoMemory;
use std::alloc::Global;
use std::marker::Model;

/// A list of bits that keeps its length, packed 64 to a word: bit `i` is bit `i % 64` of word
/// `i / 64`, the lowest bit of a word the first. Clauses see the list of the bits.
#[derive(Drop)]
pub struct Bits {
    words: Vec<u64>,
    count: usize,
}

impl Model for Bits {
    ghost use Rattle.std.specs.Prelude.{List, Bool};
    ghost use Rattle.clock_sim.specs.Packed.{packed_bits, HasRoom};

    ghost Value = { List Bool };

    ghost view = { λ bits. packed_bits bits.words.items bits.count };

    ghost invariant = { λ bits. HasRoom bits.words.items bits.count };
}

impl Bits {
    /// So many bits, each 0.
    pub fn zeros(alloc: Global, count: usize) -> Result<Bits, NoMemory>
        ensures { IfOk result (λ bits. bits ≡ replicate count false) }
    {
        let words = vec![in alloc; 0u64; count / 64 + 1]?;
        Ok(Bits { words, count })
    }

    /// The bit at a place, or 0 where there is no such place.
    pub fn get(&self, at: usize) -> bool
        ensures { result ≡ bit_at_place self.now at }
    {
        at < self.count && bit_of_word(self.words[at / 64], (at % 64) as u32)
    }

    /// Puts a bit at a place. It takes no memory.
    pub fn set(&mut self, at: usize, bit: bool)
        requires { at < length self.old }
        ensures { self.new ≡ slice_set self.old at bit }
    {
        let word = &mut self.words[at / 64];
        *word = with_bit(*word, (at % 64) as u32, bit);
    }
}

// Whether a bit of the word is 1.
fn bit_of_word(word: u64, place: u32) -> bool
    requires { place < 64 }
    ensures { result ≡ (bit_at_number word place == 1) }
{
    (word >> place) % 2 == 1
}

// The word with one bit changed.
fn with_bit(word: u64, place: u32, bit: bool) -> u64
    requires { place < 64 }
    ensures here { (bit_at_number result place == 1) ≡ bit }
    ensures others { (k : ℕ) → k < 64 → k ≢ place → bit_at_number result k ≡ bit_at_number word k }
{
    if bit {
        word | (1 << place)
    } else {
        word & !(1 << place)
    }
}

#[cfg(test)]
mod tests {
    use super::*;
    use std::test::Fail;

    // Bits of two words, each set and cleared alone.
    #[test]
    fn sets_one_bit(rt: HostRuntime) -> Result<(), Fail> {
        let mut bits = Bits::zeros(rt.alloc(), 130)?;
        bits.set(64, true);
        bits.set(129, true);
        bits.set(129, false);
        assert!(rt; bits.get(64));
        assert!(rt; !bits.get(0));
        assert!(rt; !bits.get(129));
        assert!(rt; !bits.get(130));
        Ok(())
    }
}
