use crate::command::command;
use crate::fault::Fault;
use crate::field::{Field, word_of};
use crate::findings::finding;
use crate::flat_text::flat;
use crate::fronts::fronts;
use crate::kind::Kind;
use crate::outcome::Outcome;
use crate::report::Report;
use crate::stimulus::stimulus;
use crate::table::{Entry, Table};
use crate::token_text::{places, token_list};
use crate::tree_text::{sizes, tree};
use std::alloc::Global;

/// Walks the rows of a table, and reports how many there are and each one that differs.
pub fn walk_table(alloc: Global, table: &Table, report: &mut Report) -> Result<(), Fault> {
    for row in table.rows.as_slice() {
        walk_row(alloc, table.kind, &table.entry(row), report)?;
    }
    report.rows(table.name.as_str(), table.rows.len())
}

fn walk_row(
    alloc: Global,
    kind: Kind,
    entry: &Entry<'_>,
    report: &mut Report,
) -> Result<(), Fault> {
    let mut outcome = Outcome::new(alloc);
    match give(alloc, kind, entry, &mut outcome) {
        Ok(()) => {}
        Err(Fault::Form(what)) => return report.wrong(entry.line, what, ""),
        Err(Fault::NoMemory) => return Err(Fault::NoMemory),
    }
    for key in kind.wanted() {
        compare(entry, key, &outcome, report)?;
    }
    compare_further(kind, entry, entry.common, &outcome, report)?;
    compare_further(kind, entry, entry.fields, &outcome, report)
}

// What comes out of a row.
fn give(alloc: Global, kind: Kind, entry: &Entry<'_>, outcome: &mut Outcome) -> Result<(), Fault> {
    match kind {
        Kind::Command => command(alloc, entry, outcome),
        Kind::Tokens => token_list(alloc, entry, outcome),
        Kind::Places => places(alloc, entry, outcome),
        Kind::Finding => finding(alloc, entry, outcome),
        Kind::Fronts => fronts(alloc, entry, outcome),
        Kind::Tree => tree(alloc, entry, outcome),
        Kind::Sizes => sizes(alloc, entry, outcome),
        Kind::Flat => flat(alloc, entry, outcome),
        Kind::Stimulus => stimulus(alloc, entry, outcome),
    }
}

// Compares what came out under a key with what had to.
fn compare(
    entry: &Entry<'_>,
    key: &str,
    outcome: &Outcome,
    report: &mut Report,
) -> Result<(), Fault> {
    match (outcome.find(key), entry.find(key)) {
        (_, None) => report.wrong(entry.line, "it lacks", key),
        (None, Some(_)) => report.wrong(entry.line, "nothing came out as", key),
        (Some(given), Some(wanted)) if given == wanted => Ok(()),
        (Some(given), Some(wanted)) => report.differs(entry.line, key, given, wanted),
    }
}

// Compares the fields of what comes out only where a row has them.
fn compare_further(
    kind: Kind,
    entry: &Entry<'_>,
    fields: &[Field],
    outcome: &Outcome,
    report: &mut Report,
) -> Result<(), Fault> {
    for field in fields {
        let key = field.key.as_str();
        if kind.wanted_too().contains(&word_of(key)) {
            compare(entry, key, outcome, report)?;
        }
    }
    Ok(())
}
