ghost use Rattle.std.specs.Prelude.{◌≡◌, ◌≤◌, length};
ghost use Rattle.std.specs.List.{prefix_len};
ghost use Rattle.vlog_lex.specs.Bytes.{is_number_byte, is_printable};
ghost use Rattle.vlog_lex.specs.Numbers.{is_place};
ghost use Rattle.vlog_lex.specs.Reading.{line_length, blank_length, name_length};

use crate::bytes::{is_name_byte, is_number_byte, is_printable};
use crate::number::is_place;
use ila_base::bytes::is_blank;

/// How many blanks the text begins with.
pub fn blank_length(text: &[u8]) -> usize
    ensures value { result ≡ blank_length text.now }
    ensures within { result ≤ length text.now }
{
    text.iter().take_while(|byte| is_blank(**byte)).count()
}

/// How many bytes of a name the text begins with.
pub fn name_length(text: &[u8]) -> usize
    ensures value { result ≡ name_length text.now }
    ensures within { result ≤ length text.now }
{
    text.iter().take_while(|byte| is_name_byte(**byte)).count()
}

/// How many bytes of a decimal number the text begins with.
pub fn number_length(text: &[u8]) -> usize
    ensures value { result ≡ prefix_len is_number_byte text.now }
    ensures within { result ≤ length text.now }
{
    text.iter()
        .take_while(|byte| is_number_byte(**byte))
        .count()
}

/// How many bytes of an escaped name the text begins with.
pub fn printable_length(text: &[u8]) -> usize
    ensures value { result ≡ prefix_len is_printable text.now }
    ensures within { result ≤ length text.now }
{
    text.iter().take_while(|byte| is_printable(**byte)).count()
}

/// How many bytes of a constant's digits the text begins with.
pub fn place_length(base: u8, text: &[u8]) -> usize
    ensures value { result ≡ prefix_len (is_place base) text.now }
    ensures within { result ≤ length text.now }
{
    text.iter()
        .take_while(|byte| is_place(base, **byte))
        .count()
}
