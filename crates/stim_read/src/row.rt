ghost use Rattle.std.specs.Prelude.{◌≡◌, ℕ, ◌+◌, ◌-◌, ◌*◌, ◌<◌, ◌≤◌, ◌↔◌, Bool, true, false, List, [], ◌∷◌, ◌++◌, length, take, drop, replicate, get_or, All, IsTrue, MatchOption};
ghost use Rattle.std.specs.Char.{digit_value};
ghost use Rattle.stim_read.specs.Stimulus.{space, digit_bit, word_bits, digits_of, padding_of, value_of, bits_at, IsWord, IsRow};
ghost use Rattle.stim_read.specs.Words.{NoWord, TakesWord, IsTail, Apart, AllApart, AllFit};
ghost use Rattle.stim_read.specs.declared.inputs.Field.{Field};

use crate::inputs::Field;

// The value of a hexadecimal digit in either case, and 16 or more for any other byte.
fn value_of_digit(digit: u8) -> u8
    ensures value { result ≡ digit_value digit }
    ensures bound { result ≤ 36 }
{
    match digit {
        b'0'..=b'9' => digit - b'0',
        b'A'..=b'Z' => digit - b'A' + 10,
        b'a'..=b'z' => digit - b'a' + 10,
        _ => 36,
    }
}

// A bit of a digit, the highest first.
fn bit_of_digit(digit: u8, at: usize) -> bool
    requires { at < 4 }
    ensures { result ≡ digit_bit digit at }
{
    let value = value_of_digit(digit);
    match at {
        0 => value / 8 % 2 == 1,
        1 => value / 4 % 2 == 1,
        2 => value / 2 % 2 == 1,
        _ => value % 2 == 1,
    }
}

// A bit of a word, the highest first.
fn bit_of_word(word: &[u8], at: usize) -> bool
    requires { at < 4 * length word.now }
    ensures { result ≡ get_or (word_bits word.now) at false }
{
    bit_of_digit(word[at / 4], at % 4)
}

// Whether the highest bits of a word are 0, as many as are asked for.
fn is_padded(word: &[u8], padding: usize) -> bool
    requires { padding ≤ 4 * length word.now }
    ensures { IsTrue result ↔ (take padding (word_bits word.now) ≡ replicate padding false) }
{
    for at in 0..padding {
        if bit_of_word(word, at) {
            return false;
        }
    }
    true
}

// Whether all bytes are hexadecimal digits.
fn is_hexadecimal(word: &[u8]) -> bool
    ensures { IsTrue result ↔ All (λ digit. digit_value digit < 16) word.now }
{
    word.iter().all(|digit| value_of_digit(*digit) < 16)
}

// The lowest bits of a word, as many as the slice has, the highest first.
fn put_value(word: &[u8], padding: usize, value: &mut [bool])
    requires all { padding + length value.old ≡ 4 * length word.now }
    requires short { padding < 4 }
    ensures { value.new ≡ drop padding (word_bits word.now) }
{
    for (at, bit) in value.iter_mut().enumerate() {
        *bit = bit_of_word(word, padding + at);
    }
}

// Whether the bytes, as many as the field has digits, are a word for it.
fn is_word(field: Field, word: &[u8]) -> bool
    requires { length word.now ≡ digits_of field.width }
    ensures { IsTrue result ↔ IsWord field.width word.now }
{
    is_hexadecimal(word) && is_padded(word, field.padding())
}

// Takes a word for the field from the front of the text, and puts its value into the field's place.
// It answers what follows the word.
fn take_word<'a>(field: Field, text: &'a [u8], bits: &mut [bool]) -> Option<&'a [u8]>
    requires { field.place + field.width ≤ length bits.old }
    ensures word { MatchOption result (NoWord field.width text.now
        × (bits.new ≡ bits.old)) (λ rest. TakesWord field text.now rest.now bits.old bits.new) }
    ensures long { length bits.new ≡ length bits.old }
{
    if text.len() < field.digits() {
        return None;
    }
    let (word, rest) = text.split_at(field.digits());
    if !is_word(field, word) {
        return None;
    }
    let end = field.place + field.width as usize;
    put_value(word, field.padding(), &mut bits[field.place..end]);
    Some(rest)
}

// What follows a space at the front of the text.
fn after_space(text: &[u8]) -> Option<&[u8]>
    ensures { MatchOption result ((rest : List ℕ) → text.now ≡ space ∷ rest
        → ⊥) (λ rest. text.now ≡ space ∷ rest.now) }
{
    match text {
        [b' ', rest @ ..] => Some(rest),
        _ => None,
    }
}

// Reads words for the fields, each behind a space, and puts their values into the fields' places.
fn read_tail(fields: &[Field], text: &[u8], bits: &mut [bool]) -> bool
    requires fit { AllFit fields.now (length bits.old) }
    requires apart { AllApart fields.now }
    ensures read { result ≡ true → IsTail fields.now text.now bits.new }
    ensures refused { result ≡ false → (row : List Bool) → IsTail fields.now text.now row → ⊥ }
    ensures kept { (other : Field) → All (Apart other) fields.now
        → bits_at other bits.new ≡ bits_at other bits.old }
    ensures long { length bits.new ≡ length bits.old }
{
    let mut rest = text;
    for field in fields {
        let Some(spaced) = after_space(rest) else {
            return false;
        };
        let Some(more) = take_word(*field, spaced, bits) else {
            return false;
        };
        rest = more;
    }
    rest.is_empty()
}

/// Whether the line stands for a row, whose bits are then put into the slice. Else the slice's bits
/// are any. It takes no memory.
pub(crate) fn read_row(fields: &[Field], line: &[u8], bits: &mut [bool]) -> bool
    requires fit { AllFit fields.now (length bits.old) }
    requires apart { AllApart fields.now }
    ensures read { result ≡ true → IsRow fields.now (length bits.old) line.now bits.new }
    ensures refused { result ≡ false → (row : List Bool)
        → IsRow fields.now (length bits.old) line.now row → ⊥ }
    ensures long { length bits.new ≡ length bits.old }
{
    let Some((first, others)) = fields.split_first() else {
        return line.is_empty();
    };
    let Some(rest) = take_word(*first, line, bits) else {
        return false;
    };
    read_tail(others, rest, bits)
}
