//! Tables as they are written, line by line: see docs/ROWS.md.

use crate::fault::{Fault, FaultAt};
use crate::field::{Field, word_of};
use crate::kind::Kind;
use crate::table::{Row, Table};
use crate::value::{push_repeated, push_written};
use std::alloc::Global;
use std::fs;
use std::rt::Files;

/// What was read of a file of tables so far.
#[derive(Drop)]
struct Reader {
    alloc: Global,
    line: u32,
    tables: Vec<Table>,
}

/// The tables of a text, or its first line that has not their form. A line may take in a file.
pub fn read_tables<R: Files + AllocGlobal>(rt: &R, text: &str) -> Result<Vec<Table>, FaultAt> {
    let alloc = rt.alloc();
    let mut reader = Reader {
        alloc,
        line: 0,
        tables: Vec::new(alloc),
    };
    for line in text.lines() {
        reader.line = reader.line.saturating_add(1);
        if let Err(fault) = reader.take(rt, line) {
            return Err(FaultAt {
                line: reader.line,
                fault,
            });
        }
    }
    let Reader {
        alloc: _,
        line: _,
        tables,
    } = reader;
    Ok(tables)
}

impl Reader {
    // Takes a line. One that is empty or begins with `#` says nothing.
    fn take<R: Files + AllocGlobal>(&mut self, rt: &R, line: &str) -> Result<(), Fault> {
        if line.is_empty() || line.starts_with('#') {
            return Ok(());
        }
        if let Some(written) = line.strip_prefix("| ") {
            self.push(written, 1)?;
            return self.push("%0a", 1);
        }
        if line == "|" {
            return self.push("%0a", 1);
        }
        if let Some(written) = line.strip_prefix("> ") {
            return self.push(written, 1);
        }
        if let Some(counted) = line.strip_prefix("* ") {
            return self.repeat(counted);
        }
        if let Some(file) = line.strip_prefix("< ") {
            return self.take_in(rt, file);
        }
        self.begin(line)
    }

    // Begins a table or a field.
    fn begin(&mut self, line: &str) -> Result<(), Fault> {
        let Some((key, written)) = line.split_once(':') else {
            return Err(Fault::Form("no key with a colon"));
        };
        let written = written.strip_prefix(' ').unwrap_or(written);
        match key.strip_prefix("table ") {
            Some(name) => self.begin_table(name, written),
            None => self.begin_field(key, written),
        }
    }

    fn begin_table(&mut self, name: &str, kind: &str) -> Result<(), Fault> {
        let table = Table {
            name: String::from_str(self.alloc, name)?,
            kind: Kind::named(kind).ok_or(Fault::Form("no kind of table"))?,
            common: Vec::new(self.alloc),
            rows: Vec::new(self.alloc),
        };
        self.tables.push(table)?;
        Ok(())
    }

    // Begins a field, and with the first key of the table's kind a row.
    fn begin_field(&mut self, key: &str, written: &str) -> Result<(), Fault> {
        let Some(table) = self.tables.last_mut() else {
            return Err(Fault::Form("no table above"));
        };
        if !table.kind.has_key(word_of(key)) {
            return Err(Fault::Form("no key of this kind of table"));
        }
        if key == table.kind.first_key() {
            table.rows.push(Row {
                line: self.line,
                fields: Vec::new(self.alloc),
            })?;
        }
        let fields = table.last_fields();
        if fields.iter().any(|field| field.key.as_str() == key) {
            return Err(Fault::Form("a key twice"));
        }
        let mut field = Field::new(self.alloc, key)?;
        push_written(self.alloc, &mut field.value, written, 1)?;
        fields.push(field)?;
        Ok(())
    }

    // Appends to the value of the last field, so many times.
    fn repeat(&mut self, counted: &str) -> Result<(), Fault> {
        match counted.split_once(' ') {
            Some((count, written)) => match count.parse::<u32>() {
                Ok(count) => self.push(written, count),
                Err(_) => Err(Fault::Form("no count")),
            },
            None => Err(Fault::Form("no count")),
        }
    }

    // Appends what a file holds to the value of the last field.
    fn take_in<R: Files + AllocGlobal>(&mut self, rt: &R, file: &str) -> Result<(), Fault> {
        match fs::read(rt, file) {
            Ok(bytes) => {
                self.last_value()?.extend_from_slice(bytes.as_slice())?;
                Ok(())
            }
            Err(_) => Err(Fault::Form("no such file")),
        }
    }

    fn push(&mut self, written: &str, count: u32) -> Result<(), Fault> {
        let alloc = self.alloc;
        push_repeated(alloc, self.last_value()?, written, count)
    }

    fn last_value(&mut self) -> Result<&mut Vec<u8>, Fault> {
        let Some(table) = self.tables.last_mut() else {
            return Err(Fault::Form("no table above"));
        };
        match table.last_fields().last_mut() {
            Some(field) => Ok(&mut field.value),
            None => Err(Fault::Form("no field above")),
        }
    }
}
