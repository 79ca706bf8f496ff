use crate::fault::Fault;
use crate::field::Field;
use crate::line::Line;
use crate::outcome::Outcome;
use crate::table::{Entry, text_of};
use ila_base::{MemShelf, MemSink, MemSource, Name};
use ila_top::{exit_code, ila};
use std::alloc::Global;

/// How many bytes a read of the stimulus gives at most, where a row says nothing else.
pub const READ: usize = 4;

/// How many bytes a write of the trace takes at most, where a row says nothing else.
const WRITE: usize = 64;

// How many bytes a write of the error line takes at most.
const LINE_WRITE: usize = 3;

// How many bytes the trace and the error line may have.
const ROOM: usize = 65536;

/// Calls the program as a row says, and gives the trace, the error line, the exit status and the files
/// that the row asks for.
pub fn command(alloc: Global, entry: &Entry<'_>, outcome: &mut Outcome) -> Result<(), Fault> {
    let mut shelf = shelf(alloc, entry)?;
    let mut trace = trace(alloc, entry)?;
    call(alloc, entry, &mut shelf, &mut trace, outcome)?;
    give_files(&shelf, entry.fields, outcome)?;
    give_files(&shelf, entry.common, outcome)
}

// Calls the program over this shelf and this trace, and gives the exit status, the trace and the
// error line.
fn call(
    alloc: Global,
    entry: &Entry<'_>,
    shelf: &mut MemShelf,
    trace: &mut MemSink,
    outcome: &mut Outcome,
) -> Result<(), Fault> {
    let mut errors = MemSink::new(alloc, LINE_WRITE, ROOM, Vec::new(alloc))?;
    let exit = exit(alloc, entry, shelf, trace, &mut errors)?;
    push_number(alloc, "exit", exit, outcome)?;
    outcome.push_copy("trace", trace.bytes())?;
    outcome.push_copy("line", errors.bytes())
}

// Calls the program with the words and the stimulus of a row, and gives its exit status.
fn exit(
    alloc: Global,
    entry: &Entry<'_>,
    shelf: &mut MemShelf,
    trace: &mut MemSink,
    errors: &mut MemSink,
) -> Result<u8, Fault> {
    let words = words(alloc, entry)?;
    let mut stimulus = source(alloc, entry)?;
    Ok(ended(alloc, words.as_slice(), shelf, &mut stimulus, trace, errors))
}

// The exit status of the program.
fn ended(
    alloc: Global,
    words: &[String],
    shelf: &mut MemShelf,
    stimulus: &mut MemSource,
    trace: &mut MemSink,
    errors: &mut MemSink,
) -> u8 {
    let status = ila(alloc, words, shelf, stimulus, trace, errors);
    exit_code(&status)
}

// Gives a number under a key.
fn push_number(alloc: Global, key: &str, number: u8, outcome: &mut Outcome) -> Result<(), Fault> {
    let mut line = Line::new(alloc);
    line.number(u64::from(number))?;
    outcome.push(key, line.into_bytes())
}

// The shelf of a row.
fn shelf(alloc: Global, entry: &Entry<'_>) -> Result<MemShelf, Fault> {
    let files = files(alloc, entry)?;
    let fails = entry.numbers(alloc, "fails shelf")?;
    Ok(MemShelf::new(files, fails))
}

// The trace of a row, empty.
fn trace(alloc: Global, entry: &Entry<'_>) -> Result<MemSink, Fault> {
    let piece = entry.number("writes", WRITE)?.max(1);
    let fails = entry.numbers(alloc, "fails writes")?;
    Ok(MemSink::new(alloc, piece, ROOM, fails)?)
}

/// The stimulus of a row, in its pieces, with the reads that fail.
pub fn source(alloc: Global, entry: &Entry<'_>) -> Result<MemSource, Fault> {
    let bytes = Vec::from_slice(alloc, entry.bytes("stimulus"))?;
    let piece = entry.number("reads", READ)?.max(1);
    let fails = entry.numbers(alloc, "fails reads")?;
    Ok(MemSource::new(bytes, piece, fails))
}

fn words(alloc: Global, entry: &Entry<'_>) -> Result<Vec<String>, Fault> {
    let mut words = Vec::new(alloc);
    for word in text_of(entry.bytes("words"))?.split_whitespace() {
        words.push(String::from_str(alloc, word)?)?;
    }
    Ok(words)
}

// The files of a row, and behind them those of all rows, so that the row's own are found first.
fn files(alloc: Global, entry: &Entry<'_>) -> Result<Vec<(Name, Vec<u8>)>, Fault> {
    let mut files = Vec::new(alloc);
    push_files(alloc, &mut files, entry.fields)?;
    push_files(alloc, &mut files, entry.common)?;
    Ok(files)
}

fn push_files(
    alloc: Global,
    files: &mut Vec<(Name, Vec<u8>)>,
    fields: &[Field],
) -> Result<(), Fault> {
    for field in fields {
        if let Some(name) = field.name_behind("file") {
            let bytes = Vec::from_slice(alloc, field.value.as_slice())?;
            files.push((Name::new(alloc, name.as_bytes())?, bytes))?;
        }
    }
    Ok(())
}

// The files that must be held at the end.
fn give_files(shelf: &MemShelf, fields: &[Field], outcome: &mut Outcome) -> Result<(), Fault> {
    for field in fields {
        if let Some(name) = field.name_behind("holds")
            && let Some(bytes) = shelf.file(name)
        {
            outcome.push_copy(field.key.as_str(), bytes)?;
        }
    }
    Ok(())
}
