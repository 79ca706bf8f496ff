use crate::fault::Fault;
use crate::line::Line;
use ila_base::{Name, NetFault, NetRefusal, NetStop};
use std::alloc::Global;

/// The fault with which a text is refused.
pub fn fault_of(stop: NetStop) -> Result<NetFault, Fault> {
    match stop {
        NetStop::Refused(fault) => Ok(fault),
        NetStop::NoMemory => Err(Fault::NoMemory),
    }
}

/// A refusal as the rows write it, with its place behind it.
pub fn placed_text(alloc: Global, stop: NetStop) -> Result<Vec<u8>, Fault> {
    let fault = fault_of(stop)?;
    let mut line = Line::new(alloc);
    write_refusal(&mut line, &fault.refusal)?;
    line.bytes(b" ")?;
    line.place(fault.place)?;
    Ok(line.into_bytes())
}

/// A refusal as the rows write it: `N`, its number and what it carries.
pub fn write_refusal(line: &mut Line, refusal: &NetRefusal) -> Result<(), Fault> {
    line.bytes(b"N")?;
    line.number(number_of(refusal))?;
    match refusal {
        NetRefusal::Width { want, have } => write_width(line, *want, *have),
        NetRefusal::Limit(kind, count) => {
            let text = format!(in line.alloc(); " {kind:?} {count}")?;
            line.bytes(text.as_bytes())
        }
        NetRefusal::Loop(names) => write_names(line, names.as_slice()),
        _ => match name_of(refusal) {
            Some(name) => line.word(name),
            None => Ok(()),
        },
    }
}

fn write_width(line: &mut Line, want: u64, have: u64) -> Result<(), Fault> {
    line.bytes(b" ")?;
    line.number(want)?;
    line.bytes(b" ")?;
    line.number(have)
}

fn write_names(line: &mut Line, names: &[Name]) -> Result<(), Fault> {
    for name in names {
        line.word(name)?;
    }
    Ok(())
}

fn number_of(refusal: &NetRefusal) -> u64 {
    match refusal {
        NetRefusal::BadByte => 1,
        NetRefusal::Construct(_) => 2,
        NetRefusal::Syntax => 3,
        NetRefusal::Duplicate(_) => 4,
        NetRefusal::Undeclared(_) => 5,
        NetRefusal::UnknownModule(_) => 6,
        NetRefusal::Pin(_) => 7,
        NetRefusal::Width { .. } => 8,
        NetRefusal::OpenInput(_) => 9,
        NetRefusal::ManyDrivers(_) => 10,
        NetRefusal::Undriven(_) => 11,
        NetRefusal::Recursion(_) => 12,
        NetRefusal::TopOrClock(_) => 13,
        NetRefusal::SecondClock(_) => 14,
        NetRefusal::ClockAsData(_) => 15,
        NetRefusal::XZ => 16,
        NetRefusal::Limit(_, _) => 17,
        NetRefusal::Loop(_) => 18,
    }
}

// The one name that a refusal carries.
fn name_of(refusal: &NetRefusal) -> Option<&Name> {
    match refusal {
        NetRefusal::Construct(name)
        | NetRefusal::Duplicate(name)
        | NetRefusal::Undeclared(name)
        | NetRefusal::UnknownModule(name)
        | NetRefusal::Pin(name)
        | NetRefusal::OpenInput(name)
        | NetRefusal::ManyDrivers(name)
        | NetRefusal::Undriven(name)
        | NetRefusal::Recursion(name)
        | NetRefusal::TopOrClock(name)
        | NetRefusal::SecondClock(name)
        | NetRefusal::ClockAsData(name) => Some(name),
        _ => None,
    }
}
