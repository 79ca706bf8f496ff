ghost use Rattle.std.specs.Prelude.{◌≡◌};
ghost use Rattle.tsm_parse.specs.Words.{is_single, is_double, lower};

/// The lower-case letter of a letter in either case. Any other byte is as it is.
pub fn lower(byte: u8) -> u8
    ensures { result ≡ lower byte }
{
    match byte {
        b'A'..=b'Z' => byte + 32,
        _ => byte,
    }
}

/// Whether the byte alone is a mark.
pub fn is_single(byte: u8) -> bool
    ensures { result ≡ is_single byte }
{
    matches!(byte, b':' | b';' | b'(' | b')' | b'<' | b'>')
}

/// Whether the two bytes are a mark.
pub fn is_double(first: u8, second: u8) -> bool
    ensures { result ≡ is_double first second }
{
    match first {
        b'=' | b'!' | b'<' | b'>' => second == b'=',
        b'&' => second == b'&',
        b'|' => second == b'|',
        _ => false,
    }
}
