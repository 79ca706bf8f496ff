ghost use Rattle.std.specs.Prelude.{◌≡◌, ◌≢◌, ℕ, ◌+◌, ◌^◌, ◌<◌, ◌≤◌, false, length, drop, IsTrue, None, IfSome};
ghost use Rattle.ila_base.specs.Bytes.{is_letter};
ghost use Rattle.vlog_lex.specs.Skipped.{ends_word, is_endif};
ghost use Rattle.vlog_lex.specs.Pieces.{begins_as};
ghost use Rattle.vlog_lex.specs.Reading.{first_at, glbl_behind, glbl_length, part_piece, directive_with, directive_behind};

use crate::bytes::is_name_byte;
use crate::runs::{blank_length, name_length};
use crate::token::{Flaw, Piece, TokenKind};
use ila_base::bytes::{is_letter, line_length};

fn ends_word(text: &[u8]) -> bool
    ensures { result ≡ ends_word text.now }
{
    match text.first() {
        Some(byte) => !is_name_byte(*byte),
        None => true,
    }
}

/// Whether the text begins with the directive that ends a conditional part (IEEE 1364-2005, 19.4).
fn is_endif(text: &[u8]) -> bool
    ensures value { result ≡ is_endif text.now }
    ensures long { IsTrue result → 6 ≤ length text.now }
{
    if !matches!(text, [b'`', ..]) {
        return false;
    }
    if !text.starts_with(b"`endif") {
        return false;
    }
    ends_word(&text[6..])
}

/// How far it is to the first such directive.
fn first_endif(text: &[u8]) -> Option<usize>
    ensures value { result ≡ first_at is_endif text.now }
    ensures within { IfSome result (λ n. n + 6 ≤ length text.now) }
{
    for at in 0..text.len() {
        if is_endif(&text[at..]) {
            return Some(at);
        }
    }
    None
}

/// How many bytes of the text there are to the end of the last such directive. No further place
/// begins one.
pub fn last_endif(text: &[u8]) -> usize
    ensures { (at : ℕ) → result ≤ at → is_endif (drop at text.now) ≡ false }
{
    let mut last = 0;
    for at in 0..text.len() {
        if is_endif(&text[at..]) {
            last = at + 1;
        }
    }
    last
}

/// The same behind so many blanks.
fn glbl_behind(blanks: usize, text: &[u8], closes: bool) -> Option<usize>
    requires room { blanks + length text.now < 2 ^ 64 }
    requires none { closes ≡ false → first_at is_endif (drop 4 text.now) ≡ None }
    ensures value { result ≡ glbl_behind blanks text.now }
    ensures within { IfSome result (λ n. n ≤ blanks + length text.now) }
{
    if !closes || &text[..name_length(text)] != b"GLBL".as_slice() {
        return None;
    }
    match first_endif(&text[4..]) {
        Some(count) => Some(blanks + 4 + count + 6),
        None => None,
    }
}

/// How far the part for simulation goes on behind the word `ifndef`. None where there is no such
/// part, or where it isn't ended.
fn glbl_length(text: &[u8], closes: bool) -> Option<usize>
    requires none { closes ≡ false → (at : ℕ) → is_endif (drop at text.now) ≡ false }
    ensures value { result ≡ glbl_length text.now }
    ensures within { IfSome result (λ n. n ≤ length text.now) }
{
    let blanks = blank_length(text);
    glbl_behind(blanks, &text[blanks..], closes)
}

/// The part that goes on so far behind its directive, or the directive alone.
fn part_piece(count: usize, part: Option<usize>) -> Piece
    requires { IfSome part (λ n. count + n < 2 ^ 64) }
    ensures { result ≡ part_piece count part }
{
    match part {
        Some(more) => Piece::Skip(count + more),
        None => Piece::Token(TokenKind::Outside, count),
    }
}

/// The directive of the word, with what it skips.
fn directive_with(count: usize, word: &[u8], behind: &[u8], closes: bool) -> Piece
    requires room { count + 1 + length behind.now < 2 ^ 64 }
    requires none { closes ≡ false → (at : ℕ) → is_endif (drop at behind.now) ≡ false }
    ensures { result ≡ directive_with count word.now behind.now }
{
    if word == b"timescale".as_slice() {
        return Piece::Skip(count + 1 + line_length(behind));
    }
    if word == b"ifndef".as_slice() {
        return part_piece(count + 1, glbl_length(behind, closes));
    }
    Piece::Token(TokenKind::Outside, count + 1)
}

fn begins_name(text: &[u8]) -> bool
    ensures { result ≡ begins_as is_letter text.now }
{
    match text.first() {
        Some(byte) => is_letter(*byte),
        None => false,
    }
}

/// The compiler directive whose backquote the text stands behind (clause 19). `closes` is false only
/// where no end of a conditional part follows.
pub fn directive_behind(text: &[u8], closes: bool) -> Piece
    requires room { length text.now + 1 < 2 ^ 64 }
    requires none { closes ≡ false → (at : ℕ) → is_endif (drop at text.now) ≡ false }
    ensures { result ≡ directive_behind text.now }
{
    if !begins_name(text) {
        return Piece::Refused(Flaw::BadByte);
    }
    let count = name_length(text);
    directive_with(count, &text[..count], &text[count..], closes)
}
