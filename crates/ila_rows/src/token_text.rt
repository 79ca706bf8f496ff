use crate::fault::Fault;
use crate::line::Line;
use crate::outcome::Outcome;
use crate::refusal_text::placed_text;
use crate::table::Entry;
use std::alloc::Global;
use vlog_lex::{Token, TokenKind, tokens};

/// Gives the tokens of a row's text: of each its kind and the bytes from its start to its end. A text
/// that is refused gives the refusal and its place.
pub fn token_list(alloc: Global, entry: &Entry<'_>, outcome: &mut Outcome) -> Result<(), Fault> {
    let value = match tokens(alloc, entry.bytes("text")) {
        Ok(list) => written(alloc, list.as_slice())?,
        Err(stop) => placed_text(alloc, stop)?,
    };
    outcome.push("tokens", value)
}

/// Gives the places of the tokens of a row's text.
pub fn places(alloc: Global, entry: &Entry<'_>, outcome: &mut Outcome) -> Result<(), Fault> {
    let value = match tokens(alloc, entry.bytes("text")) {
        Ok(list) => written_places(alloc, list.as_slice())?,
        Err(stop) => placed_text(alloc, stop)?,
    };
    outcome.push("places", value)
}

fn written(alloc: Global, list: &[Token]) -> Result<Vec<u8>, Fault> {
    let mut line = Line::new(alloc);
    for token in list {
        write_token(&mut line, token)?;
    }
    Ok(line.into_bytes())
}

fn written_places(alloc: Global, list: &[Token]) -> Result<Vec<u8>, Fault> {
    let mut line = Line::new(alloc);
    for token in list {
        line.blank_between()?;
        line.place(token.place)?;
    }
    Ok(line.into_bytes())
}

fn write_token(line: &mut Line, token: &Token) -> Result<(), Fault> {
    line.blank_between()?;
    write_kind(line, token.kind)?;
    line.bytes(b"[")?;
    line.number(u64::from(token.start))?;
    line.bytes(b"..")?;
    line.number(u64::from(token.end))?;
    line.bytes(b"]")
}

fn write_kind(line: &mut Line, kind: TokenKind) -> Result<(), Fault> {
    match kind {
        TokenKind::Ident => line.bytes(b"I"),
        TokenKind::Escaped => line.bytes(b"E"),
        TokenKind::Number(value) => line.number(u64::from(value)),
        TokenKind::Sized(packed) => line.constant(packed.width(), packed.word().value),
        TokenKind::Text => line.bytes(b"T"),
        TokenKind::Mark(byte) => {
            line.bytes(b"M")?;
            line.number(u64::from(byte))
        }
        TokenKind::Outside => line.bytes(b"O"),
    }
}
