//! Walks tables of rows: each row says what is given and what must come out. The words of the command
//! line are names of files of tables; docs/ROWS.md describes them. It prints a line for each table with
//! the number of its rows, and a line for each difference, and ends with status 1 where there is one.
#![tactic(auto)]

mod command;
mod design;
mod fault;
mod field;
mod findings;
mod flat_text;
mod fronts;
mod kind;
mod line;
mod marked;
mod outcome;
mod reader;
mod refusal_text;
mod report;
mod stimulus;
mod table;
mod token_text;
mod tree_text;
mod value;
mod walk;

use anyhow::{Context, Result};
use reader::read_tables;
use report::Report;
use std::process::ExitCode;
use std::{env, fs};
use walk::walk_table;

fn main(rt: HostRuntime) -> Result<ExitCode> {
    let mut differences = 0u64;
    for file in env::args(&rt)?.skip(1) {
        differences = differences.saturating_add(walk_file(&rt, file.as_str())?);
    }
    Ok(ExitCode::from(u8::from(differences > 0)))
}

// Walks the tables of a file, and answers how many differences there are.
fn walk_file(rt: &HostRuntime, file: &str) -> Result<u64> {
    let text = fs::read_to_string(rt, file).context(format_args!("{file}"))?;
    let tables = match read_tables(rt, text.as_str()) {
        Ok(tables) => tables,
        Err(stop) => anyhow::bail!("{file}:{stop}"),
    };
    let mut report = Report::new(rt.alloc(), file)?;
    for table in tables.as_slice() {
        walk_table(rt.alloc(), table, &mut report)?;
    }
    print!(rt; "{}", report.text())?;
    Ok(report.differences())
}
