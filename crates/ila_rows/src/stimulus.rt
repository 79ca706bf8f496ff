use crate::command::source;
use crate::design::flat_of;
use crate::fault::Fault;
use crate::line::Line;
use crate::outcome::Outcome;
use crate::refusal_text::placed_text;
use crate::table::Entry;
use ila_base::{MemSource, StimRefusal};
use net_core::Flat;
use std::alloc::Global;
use stim_read::{Stim, StimFault, StimStop};

// How many rows are asked for at most.
const MOST_CALLS: u32 = 1000;

/// Gives what each call for a row of the stimulus answers, a line for each: the bits, `fault` where the
/// read failed, `end`, or the refusal. A row is asked for until there is none or it is refused.
pub fn stimulus(alloc: Global, entry: &Entry<'_>, outcome: &mut Outcome) -> Result<(), Fault> {
    let text = entry.bytes("text");
    let value = match flat_of(
        alloc,
        text,
        entry.text("top", "m")?,
        entry.text("clock", "clk")?,
    ) {
        Ok(flat) => calls_text(alloc, &flat, source(alloc, entry)?)?,
        Err(stop) => placed_text(alloc, stop)?,
    };
    outcome.push("calls", value)
}

fn calls_text(alloc: Global, flat: &Flat, mut source: MemSource) -> Result<Vec<u8>, Fault> {
    let mut line = Line::new(alloc);
    match Stim::new(alloc, &mut source, flat) {
        Ok(mut stim) => write_calls(&mut line, &mut stim, &mut source)?,
        Err(StimStop::Refused(why)) => write_why(&mut line, why)?,
        Err(StimStop::ReadFault) => line.bytes(b"fault\n")?,
        Err(StimStop::NoMemory) => return Err(Fault::NoMemory),
    }
    Ok(line.into_bytes())
}

fn write_calls(line: &mut Line, stim: &mut Stim, source: &mut MemSource) -> Result<(), Fault> {
    for _ in 0..MOST_CALLS {
        match stim.next(source) {
            Ok(true) => write_bits(line, stim.bits())?,
            Ok(false) => return line.bytes(b"end\n"),
            Err(StimFault::ReadFault) => line.bytes(b"fault\n")?,
            Err(StimFault::Refused(why)) => return write_why(line, why),
        }
    }
    Ok(())
}

fn write_bits(line: &mut Line, bits: &[bool]) -> Result<(), Fault> {
    for bit in bits {
        line.bytes(if *bit { b"1" } else { b"0" })?;
    }
    line.bytes(b"\n")
}

fn write_why(line: &mut Line, why: StimRefusal) -> Result<(), Fault> {
    match why {
        StimRefusal::Header => line.bytes(b"S1\n"),
        StimRefusal::Line(number) => {
            line.bytes(b"S2 ")?;
            line.number(number)?;
            line.bytes(b"\n")
        }
        StimRefusal::Limit(number) => {
            line.bytes(b"S3 ")?;
            line.number(number)?;
            line.bytes(b"\n")
        }
    }
}
