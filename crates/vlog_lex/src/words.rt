ghost use Rattle.std.specs.Prelude.{◌≡◌, ◌+◌, ◌^◌, ◌<◌, length};
ghost use Rattle.vlog_lex.specs.Pieces.{ends_escaped};
ghost use Rattle.vlog_lex.specs.Reading.{word_at, escaped_with, escaped_behind};

use crate::construct::is_construct;
use crate::runs::{name_length, printable_length};
use crate::token::{Flaw, Piece, TokenKind};
use ila_base::bytes::is_blank;
use ila_base::limits::NAME_BYTES;

/// The identifier or keyword that the text begins with (IEEE 1364-2005, 3.7, 3.7.2).
pub fn word_at(text: &[u8]) -> Piece
    ensures { result ≡ word_at text.now }
{
    let count = name_length(text);
    if is_construct(&text[..count]) {
        return Piece::Token(TokenKind::Outside, count);
    }
    if count > NAME_BYTES {
        return Piece::Refused(Flaw::NameLength(count as u64));
    }
    Piece::Token(TokenKind::Ident, count)
}

fn ends_escaped(text: &[u8]) -> bool
    ensures { result ≡ ends_escaped text.now }
{
    match text.first() {
        Some(byte) => is_blank(*byte),
        None => true,
    }
}

/// The identifier of so many bytes behind its `\`, if a blank or the end of the text ends it.
fn escaped_with(name: usize, ends: bool) -> Piece
    requires { name + 1 < 2 ^ 64 }
    ensures { result ≡ escaped_with name ends }
{
    if name == 0 {
        return Piece::Refused(Flaw::BadByte);
    }
    if !ends {
        return Piece::Refused(Flaw::BadByte);
    }
    if name > NAME_BYTES {
        return Piece::Refused(Flaw::NameLength(name as u64));
    }
    Piece::Token(TokenKind::Escaped, name + 1)
}

/// The escaped identifier whose `\` the text stands behind (3.7.1).
pub fn escaped_behind(text: &[u8]) -> Piece
    requires { length text.now + 1 < 2 ^ 64 }
    ensures { result ≡ escaped_behind text.now }
{
    let count = printable_length(text);
    escaped_with(count, ends_escaped(&text[count..]))
}
