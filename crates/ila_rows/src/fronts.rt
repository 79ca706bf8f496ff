use crate::design::tree_of;
use crate::fault::Fault;
use crate::line::Line;
use crate::marked::place_behind;
use crate::outcome::Outcome;
use crate::refusal_text::{fault_of, placed_text};
use crate::table::Entry;
use ila_base::NetRefusal;
use std::alloc::Global;
use vlog_lex::{Token, tokens};

/// Gives the numbers of bytes of those fronts of a row's text, up to the end of a token but the last,
/// that are not refused as a syntax error behind their last byte (behind a `#`, as a construct), and
/// the refusal of the whole text, if it is refused.
pub fn fronts(alloc: Global, entry: &Entry<'_>, outcome: &mut Outcome) -> Result<(), Fault> {
    let text = entry.bytes("text");
    let value = match tree_of(alloc, text) {
        Ok(_) => wrong_fronts(alloc, text)?,
        Err(stop) => placed_text(alloc, stop)?,
    };
    outcome.push("fronts", value)
}

fn wrong_fronts(alloc: Global, text: &[u8]) -> Result<Vec<u8>, Fault> {
    let list = match tokens(alloc, text) {
        Ok(list) => list,
        Err(stop) => return placed_text(alloc, stop),
    };
    let mut line = Line::new(alloc);
    if let Some((_, others)) = list.as_slice().split_last() {
        write_fronts(alloc, &mut line, text, others)?;
    }
    Ok(line.into_bytes())
}

fn write_fronts(
    alloc: Global,
    line: &mut Line,
    text: &[u8],
    others: &[Token],
) -> Result<(), Fault> {
    for token in others {
        let front = text.get(..token.end as usize).unwrap_or(text);
        if !is_refused_behind(alloc, front)? {
            line.blank_between()?;
            line.number(u64::from(token.end))?;
        }
    }
    Ok(())
}

fn is_refused_behind(alloc: Global, front: &[u8]) -> Result<bool, Fault> {
    let fault = match tree_of(alloc, front) {
        Ok(_) => return Ok(false),
        Err(stop) => fault_of(stop)?,
    };
    if front.last().is_some_and(|byte| *byte == b'#') {
        return Ok(matches!(fault.refusal, NetRefusal::Construct(_)));
    }
    Ok(matches!(fault.refusal, NetRefusal::Syntax) && fault.place == place_behind(front))
}
