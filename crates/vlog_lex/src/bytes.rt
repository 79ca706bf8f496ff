ghost use Rattle.std.specs.Prelude.{◌≡◌};
ghost use Rattle.ila_base.specs.Bytes.{is_blank, is_letter, is_digit, is_newline};
ghost use Rattle.vlog_lex.specs.Bytes.{is_name_byte, is_number_byte, is_printable, is_mark, is_operator, class_of, class_of_other};

use ila_base::bytes::{is_blank, is_digit, is_letter, is_word_byte};

/// What a byte outside comments, strings and names may begin.
#[derive(Clone, Copy, Debug)]
pub enum Class {
    /// White space (IEEE 1364-2005, 3.2).
    Blank,
    /// A letter or `_`: an identifier (3.7).
    Letter,
    /// A decimal digit: a number (3.5).
    Digit,
    /// A mark of this profile's grammar that begins nothing else.
    Mark,
    /// `(`: a mark, or an attribute (3.8).
    Parenthesis,
    /// `/`: an operator, or a comment (3.3).
    Slash,
    /// An operator outside this profile.
    Operator,
    /// `"`: a string (3.6).
    Quote,
    /// `\`: an escaped identifier (3.7.1).
    Backslash,
    /// The backquote of a compiler directive (clause 19).
    Backquote,
    /// Any other byte, which begins nothing.
    Other,
}

pub fn is_name_byte(byte: u8) -> bool
    ensures { result ≡ is_name_byte byte }
{
    is_word_byte(byte) || byte == b'$'
}

pub fn is_number_byte(byte: u8) -> bool
    ensures { result ≡ is_number_byte byte }
{
    is_digit(byte) || byte == b'_'
}

pub fn is_printable(byte: u8) -> bool
    ensures { result ≡ is_printable byte }
{
    byte.is_ascii_graphic()
}

fn is_mark(byte: u8) -> bool
    ensures { result ≡ is_mark byte }
{
    matches!(
        byte,
        b')' | b'[' | b']' | b'{' | b'}' | b',' | b';' | b':' | b'.' | b'=' | b'#'
    )
}

fn is_operator(byte: u8) -> bool
    ensures { result ≡ is_operator byte }
{
    matches!(
        byte,
        b'~' | b'&'
            | b'|'
            | b'^'
            | b'+'
            | b'-'
            | b'*'
            | b'%'
            | b'?'
            | b'<'
            | b'>'
            | b'!'
            | b'@'
            | b'$'
    )
}

impl Class {
    /// The class of a byte.
    pub fn of(byte: u8) -> Class
        ensures { result ≡ class_of byte }
    {
        if is_blank(byte) {
            Class::Blank
        } else if is_letter(byte) {
            Class::Letter
        } else if is_digit(byte) {
            Class::Digit
        } else if is_mark(byte) {
            Class::Mark
        } else if is_operator(byte) {
            Class::Operator
        } else {
            Class::of_other(byte)
        }
    }

    fn of_other(byte: u8) -> Class
        ensures { result ≡ class_of_other byte }
    {
        match byte {
            b'(' => Class::Parenthesis,
            b'/' => Class::Slash,
            b'"' => Class::Quote,
            b'\\' => Class::Backslash,
            b'`' => Class::Backquote,
            _ => Class::Other,
        }
    }
}
