ghost use Rattle.std.specs.Prelude.{◌≤◌, [], ◌∷◌, ◌++◌, map, drop, length, decimal, OnErr, if◌then◌else◌};
ghost use Rattle.std.specs.List.{flat_map};
ghost use Rattle.ila_base.specs.Faults.{Writes, Rose};
ghost use Rattle.ila_top.specs.ErrorLine as spell;

use crate::code::{limit_text, net_code, program_code, project_code};
use crate::status::Status;
use ila_base::{
    Failed, Name, NetRefusal, Place, ProjRefusal, ResRefusal, SetRefusal, Sink, StimRefusal,
    write_all, write_pieces,
};
use itoa::Buffer;

/// A detail of an error line.
#[derive(Clone, Copy)]
pub enum Detail<'a> {
    Text(&'a [u8]),
    Number(u64),
    At(Place),
}

/// Writes the error line of a status to the sink, and nothing for Done. `core` is the name of the
/// core that the status speaks of. It takes no memory; after a refusal a front of the line was
/// written.
pub fn write_error<E: Sink>(errors: &mut E, status: &Status, core: &[u8]) -> Result<(), Failed>
    ensures bytes { Writes (E.written errors.old) (E.written errors.new) result (spell.error_line status.now core.now) }
    ensures later { E.faults errors.old ≤ E.faults errors.new }
    ensures cause { OnErr result (Rose (E.faults errors.old) (E.faults errors.new)) }
{
    match status {
        Status::Done => Ok(()),
        Status::Usage => write_line(errors, b"usage", &[], &[]),
        Status::Netlist(refusal, place) => write_net(errors, refusal, *place),
        Status::Project(refusal) => write_project(errors, refusal),
        Status::Tsm(_, refusal, place) => {
            let details = [Detail::Text(core), Detail::At(*place)];
            write_line(errors, program_code(*refusal), &details, &[])
        }
        Status::Resource(_, refusal) => write_resource(errors, *refusal, core),
        Status::Settings(refusal) => write_settings(errors, *refusal),
        Status::Stimulus(refusal) => write_stimulus(errors, *refusal),
        Status::NoFile(name) => {
            write_line(errors, b"no file", &[Detail::Text(name.bytes())], &[])
        }
        Status::ShelfFault => write_line(errors, b"file fault", &[], &[]),
        Status::ReadFault => write_line(errors, b"read fault", &[], &[]),
        Status::WriteFault => write_line(errors, b"write fault", &[], &[]),
        Status::NoMemory => write_line(errors, b"no memory", &[], &[]),
    }
}

// Writes `ila: `, the code, the details and then the names, each with a space before it, and a
// newline.
fn write_line<E: Sink>(
    errors: &mut E,
    code: &[u8],
    details: &[Detail],
    names: &[Name],
) -> Result<(), Failed>
    ensures bytes { Writes (E.written errors.old) (E.written errors.new) result (spell.line_of code.now (map spell.detail_text details.now ++ names.now)) }
    ensures later { E.faults errors.old ≤ E.faults errors.new }
    ensures cause { OnErr result (Rose (E.faults errors.old) (E.faults errors.new)) }
{
    write_pieces(errors, &[b"ila: ", code])?;
    write_details(errors, details)?;
    write_names(errors, names)?;
    write_all(errors, b"\n")
}

// Writes the details, each with a space before it.
fn write_details<E: Sink>(errors: &mut E, details: &[Detail]) -> Result<(), Failed>
    ensures bytes { Writes (E.written errors.old) (E.written errors.new) result (flat_map (λ detail. spell.spaced (spell.detail_text detail)) details.now) }
    ensures later { E.faults errors.old ≤ E.faults errors.new }
    ensures cause { OnErr result (Rose (E.faults errors.old) (E.faults errors.new)) }
{
    for detail in details {
        write_detail(errors, detail)?;
    }
    Ok(())
}

// Writes a detail with the space before it.
fn write_detail<E: Sink>(errors: &mut E, detail: &Detail) -> Result<(), Failed>
    ensures bytes { Writes (E.written errors.old) (E.written errors.new) result (spell.spaced (spell.detail_text detail.now)) }
    ensures later { E.faults errors.old ≤ E.faults errors.new }
    ensures cause { OnErr result (Rose (E.faults errors.old) (E.faults errors.new)) }
{
    match *detail {
        Detail::Text(bytes) => write_pieces(errors, &[b" ", bytes]),
        Detail::Number(n) => {
            let mut number = Buffer::new();
            write_pieces(errors, &[b" ", number.format(n).as_bytes()])
        }
        Detail::At(place) => {
            let mut line = Buffer::new();
            let mut col = Buffer::new();
            let line = line.format(place.line).as_bytes();
            let col = col.format(place.col).as_bytes();
            write_pieces(errors, &[b" ", line, b":", col])
        }
    }
}

// Writes the names, each with a space before it.
fn write_names<E: Sink>(errors: &mut E, names: &[Name]) -> Result<(), Failed>
    ensures bytes { Writes (E.written errors.old) (E.written errors.new) result (flat_map spell.spaced names.now) }
    ensures later { E.faults errors.old ≤ E.faults errors.new }
    ensures cause { OnErr result (Rose (E.faults errors.old) (E.faults errors.new)) }
{
    for name in names {
        write_pieces(errors, &[b" ", name.bytes()])?;
    }
    Ok(())
}

fn write_net<E: Sink>(errors: &mut E, refusal: &NetRefusal, place: Place) -> Result<(), Failed>
    ensures bytes { Writes (E.written errors.old) (E.written errors.new) result (spell.line_of (spell.net_code refusal.now) (spell.net_details refusal.now place)) }
    ensures later { E.faults errors.old ≤ E.faults errors.new }
    ensures cause { OnErr result (Rose (E.faults errors.old) (E.faults errors.new)) }
{
    let code = net_code(refusal);
    match refusal {
        NetRefusal::BadByte | NetRefusal::Syntax | NetRefusal::XZ => {
            write_at(errors, code, place, &[Detail::At(place)])
        }
        NetRefusal::Construct(name)
        | NetRefusal::Duplicate(name)
        | NetRefusal::Undeclared(name)
        | NetRefusal::UnknownModule(name)
        | NetRefusal::Pin(name)
        | NetRefusal::OpenInput(name)
        | NetRefusal::ManyDrivers(name)
        | NetRefusal::Undriven(name)
        | NetRefusal::Recursion(name)
        | NetRefusal::TopOrClock(name)
        | NetRefusal::SecondClock(name)
        | NetRefusal::ClockAsData(name) => {
            let details = [Detail::At(place), Detail::Text(name.bytes())];
            write_at(errors, code, place, &details)
        }
        NetRefusal::Width { want, have } => {
            let details = [
                Detail::At(place),
                Detail::Number(*want),
                Detail::Number(*have),
            ];
            write_at(errors, code, place, &details)
        }
        NetRefusal::Limit(kind, count) => {
            let details = [Detail::Text(limit_text(*kind)), Detail::Number(*count)];
            write_line(errors, code, &details, &[])
        }
        NetRefusal::Loop(names) => write_line(errors, code, &[], names.as_slice()),
    }
}

// Writes a line whose first detail is a place that is left out where there is none.
fn write_at<E: Sink>(
    errors: &mut E,
    code: &[u8],
    place: Place,
    details: &[Detail],
) -> Result<(), Failed>
    requires { 1 ≤ length details.now }
    ensures bytes { Writes (E.written errors.old) (E.written errors.new) result
        (spell.line_of code.now (map spell.detail_text (if spell.is_nowhere place then drop 1 details.now else details.now))) }
    ensures later { E.faults errors.old ≤ E.faults errors.new }
    ensures cause { OnErr result (Rose (E.faults errors.old) (E.faults errors.new)) }
{
    if place.line == 0 && place.col == 0 {
        return write_line(errors, code, &details[1..], &[]);
    }
    write_line(errors, code, details, &[])
}

fn write_project<E: Sink>(errors: &mut E, refusal: &ProjRefusal) -> Result<(), Failed>
    ensures bytes { Writes (E.written errors.old) (E.written errors.new) result (spell.line_of (spell.project_code refusal.now) (spell.project_details refusal.now)) }
    ensures later { E.faults errors.old ≤ E.faults errors.new }
    ensures cause { OnErr result (Rose (E.faults errors.old) (E.faults errors.new)) }
{
    let code = project_code(refusal);
    match refusal {
        ProjRefusal::NotToml => write_line(errors, code, &[], &[]),
        ProjRefusal::MissingKey(name)
        | ProjRefusal::WrongType(name)
        | ProjRefusal::UnknownKey(name)
        | ProjRefusal::BadValue(name)
        | ProjRefusal::DuplicateName(name)
        | ProjRefusal::UnknownNet(name)
        | ProjRefusal::ClockProbe(name)
        | ProjRefusal::UnknownCore(name)
        | ProjRefusal::NameTaken(name) => write_name(errors, code, name.bytes()),
    }
}

// Writes a line with a name that is left out where it is empty.
fn write_name<E: Sink>(errors: &mut E, code: &[u8], name: &[u8]) -> Result<(), Failed>
    ensures bytes { Writes (E.written errors.old) (E.written errors.new) result (spell.line_of code.now (spell.name_if_any name.now)) }
    ensures later { E.faults errors.old ≤ E.faults errors.new }
    ensures cause { OnErr result (Rose (E.faults errors.old) (E.faults errors.new)) }
{
    match name {
        [] => write_line(errors, code, &[], &[]),
        [_, ..] => write_line(errors, code, &[Detail::Text(name)], &[]),
    }
}

fn write_resource<E: Sink>(errors: &mut E, refusal: ResRefusal, core: &[u8]) -> Result<(), Failed>
    ensures bytes { Writes (E.written errors.old) (E.written errors.new) result (spell.line_of (spell.resource_code refusal) (core.now ∷ spell.resource_details refusal)) }
    ensures later { E.faults errors.old ≤ E.faults errors.new }
    ensures cause { OnErr result (Rose (E.faults errors.old) (E.faults errors.new)) }
{
    match refusal {
        ResRefusal::States(count) => {
            let details = [Detail::Text(core), Detail::Number(count as u64)];
            write_line(errors, b"M1", &details, &[])
        }
        ResRefusal::Comparators { probe, count } => {
            let probe = Detail::Number(probe as u64);
            let details = [Detail::Text(core), probe, Detail::Number(count as u64)];
            write_line(errors, b"M2", &details, &[])
        }
        ResRefusal::Terms { state, cond, count } => {
            write_condition(errors, b"M3", core, state, cond, count)
        }
        ResRefusal::CounterTests { state, cond, count } => {
            write_condition(errors, b"M4", core, state, cond, count)
        }
    }
}

// Writes a line about a condition of a state of a core.
fn write_condition<E: Sink>(
    errors: &mut E,
    code: &[u8],
    core: &[u8],
    state: u8,
    cond: u8,
    count: u32,
) -> Result<(), Failed>
    ensures bytes { Writes (E.written errors.old) (E.written errors.new) result
        (spell.line_of code.now (core.now ∷ decimal state ∷ decimal cond ∷ decimal count ∷ [])) }
    ensures later { E.faults errors.old ≤ E.faults errors.new }
    ensures cause { OnErr result (Rose (E.faults errors.old) (E.faults errors.new)) }
{
    let state = Detail::Number(state as u64);
    let cond = Detail::Number(cond as u64);
    let count = Detail::Number(count as u64);
    let details = [Detail::Text(core), state, cond, count];
    write_line(errors, code, &details, &[])
}

fn write_settings<E: Sink>(errors: &mut E, refusal: SetRefusal) -> Result<(), Failed>
    ensures bytes { Writes (E.written errors.old) (E.written errors.new) result (spell.line_of (spell.settings_code refusal) (spell.settings_details refusal)) }
    ensures later { E.faults errors.old ≤ E.faults errors.new }
    ensures cause { OnErr result (Rose (E.faults errors.old) (E.faults errors.new)) }
{
    match refusal {
        SetRefusal::Form(line) => write_line(errors, b"W1", &[Detail::Number(line as u64)], &[]),
        SetRefusal::Shape { field, file, core } => {
            let field = Detail::Number(field as u64);
            let details = [field, Detail::Number(file), Detail::Number(core)];
            write_line(errors, b"W2", &details, &[])
        }
    }
}

fn write_stimulus<E: Sink>(errors: &mut E, refusal: StimRefusal) -> Result<(), Failed>
    ensures bytes { Writes (E.written errors.old) (E.written errors.new) result (spell.line_of (spell.stimulus_code refusal) (spell.stimulus_details refusal)) }
    ensures later { E.faults errors.old ≤ E.faults errors.new }
    ensures cause { OnErr result (Rose (E.faults errors.old) (E.faults errors.new)) }
{
    match refusal {
        StimRefusal::Header => write_line(errors, b"S1", &[], &[]),
        StimRefusal::Line(line) => write_line(errors, b"S2", &[Detail::Number(line)], &[]),
        StimRefusal::Limit(count) => write_line(errors, b"S3", &[Detail::Number(count)], &[]),
    }
}
