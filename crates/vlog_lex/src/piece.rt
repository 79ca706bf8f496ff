ghost use Rattle.std.specs.Prelude.{◌≡◌, ℕ, ◌+◌, ◌^◌, ◌<◌, false, length, drop, not};
ghost use Rattle.vlog_lex.specs.declared.closed.Inside.TheVariants.{Text as InText};
ghost use Rattle.vlog_lex.specs.declared.token.Piece.TheVariants.{Skip, Token};
ghost use Rattle.vlog_lex.specs.declared.token.TokenKind.TheVariants.{Text};
ghost use Rattle.vlog_lex.specs.Closed.{closed_length};
ghost use Rattle.vlog_lex.specs.Skipped.{is_endif};
ghost use Rattle.vlog_lex.specs.Pieces.{opens_attribute};
ghost use Rattle.vlog_lex.specs.Reading.{closed_piece, slash_behind, parenthesis_behind, by_class, piece_at};

use crate::bytes::Class;
use crate::closed::{Inside, closed_length};
use crate::constant::number_at;
use crate::directive::directive_behind;
use crate::token::{Flaw, Piece, TokenKind};
use crate::words::{escaped_behind, word_at};
use ila_base::bytes::line_length;

/// What is closed from here on and skipped, with the two bytes that open it.
fn skipped(inside: Inside, text: &[u8]) -> Piece
    requires { length text.now + 2 < 2 ^ 64 }
    ensures { result ≡ closed_piece (λ n. Skip (n + 2)) (closed_length inside text.now) }
{
    match closed_length(inside, text) {
        Some(count) => Piece::Skip(count + 2),
        None => Piece::Refused(Flaw::BadByte),
    }
}

/// The string whose quote the text stands behind (IEEE 1364-2005, 3.6).
fn string_behind(text: &[u8]) -> Piece
    requires { length text.now + 1 < 2 ^ 64 }
    ensures { result ≡ closed_piece (λ n. Token Text (n + 1)) (closed_length InText text.now) }
{
    match closed_length(Inside::Text, text) {
        Some(count) => Piece::Token(TokenKind::Text, count + 1),
        None => Piece::Refused(Flaw::BadByte),
    }
}

/// The comment or operator whose `/` the text stands behind (3.3).
fn slash_behind(text: &[u8]) -> Piece
    requires { length text.now + 1 < 2 ^ 64 }
    ensures { result ≡ slash_behind text.now }
{
    match text {
        [b'/', ..] => Piece::Skip(line_length(text) + 1),
        [b'*', rest @ ..] => skipped(Inside::Comment, rest),
        _ => Piece::Token(TokenKind::Outside, 1),
    }
}

fn opens_attribute(text: &[u8]) -> bool
    ensures { result ≡ opens_attribute text.now }
{
    match text {
        [b'*'] => true,
        [b'*', next, ..] => *next != b')',
        _ => false,
    }
}

/// The attribute or mark whose `(` the text stands behind (3.8).
fn parenthesis_behind(text: &[u8]) -> Piece
    requires { length text.now + 1 < 2 ^ 64 }
    ensures { result ≡ parenthesis_behind text.now }
{
    if opens_attribute(text) {
        return skipped(Inside::Attribute, &text[1..]);
    }
    Piece::Token(TokenKind::Mark(b'('), 1)
}

/// The piece that the text begins with, by the class of its first byte. `closes` is false only where
/// no end of a conditional part follows.
pub fn piece_at(text: &[u8], closes: bool) -> Piece
    requires some { 0 < length text.now }
    requires none { closes ≡ false → (at : ℕ) → is_endif (drop at text.now) ≡ false }
    ensures { result ≡ piece_at text.now }
{
    let byte = text[0];
    match Class::of(byte) {
        Class::Blank => Piece::Skip(1),
        Class::Letter => word_at(text),
        Class::Digit => number_at(text),
        Class::Mark => Piece::Token(TokenKind::Mark(byte), 1),
        Class::Parenthesis => parenthesis_behind(&text[1..]),
        Class::Slash => slash_behind(&text[1..]),
        Class::Operator => Piece::Token(TokenKind::Outside, 1),
        Class::Quote => string_behind(&text[1..]),
        Class::Backslash => escaped_behind(&text[1..]),
        Class::Backquote => directive_behind(&text[1..], closes),
        Class::Other => Piece::Refused(Flaw::BadByte),
    }
}
