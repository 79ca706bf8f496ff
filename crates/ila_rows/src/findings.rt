use crate::design::design_of;
use crate::fault::Fault;
use crate::line::Line;
use crate::marked::unmarked;
use crate::outcome::Outcome;
use crate::refusal_text::{fault_of, write_refusal};
use crate::table::Entry;
use ila_base::{NetFault, Place};
use std::alloc::Global;

/// Gives the finding with which a row's text is refused where its top is the row's, `m` where it names
/// none; nothing where the text is accepted. The place is added where it is not that of the mark.
pub fn finding(alloc: Global, entry: &Entry<'_>, outcome: &mut Outcome) -> Result<(), Fault> {
    let marked = unmarked(alloc, entry.bytes("text"))?;
    let top = entry.text("top", "m")?;
    let value = match design_of(alloc, marked.text.as_slice(), top) {
        Ok(design) if design.top().bytes() == top.as_bytes() => Vec::new(alloc),
        Ok(_) => Vec::from_slice(alloc, b"another top")?,
        Err(stop) => finding_text(alloc, &fault_of(stop)?, marked.place)?,
    };
    outcome.push("finds", value)
}

fn finding_text(alloc: Global, fault: &NetFault, place: Place) -> Result<Vec<u8>, Fault> {
    let mut line = Line::new(alloc);
    write_refusal(&mut line, &fault.refusal)?;
    if fault.place != place {
        line.bytes(b" at ")?;
        line.place(fault.place)?;
    }
    Ok(line.into_bytes())
}
