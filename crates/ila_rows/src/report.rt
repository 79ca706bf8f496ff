use crate::fault::Fault;
use std::alloc::{AllocError, Global};

/// The lines on the tables of a file, and how many differences they tell of.
#[derive(Drop)]
pub struct Report {
    file: String,
    text: String,
    differences: u64,
}

// A value as it may be written in a table.
fn write_value(text: &mut String, value: &[u8]) -> Result<(), AllocError> {
    for byte in value {
        match *byte {
            b'%' => text.push_str("%25")?,
            0x20..=0x7e => text.push(char::from(*byte))?,
            _ => write!(text, "%{byte:02x}")?,
        }
    }
    Ok(())
}

impl Report {
    /// No line so far on the file of this name.
    pub fn new(alloc: Global, file: &str) -> Result<Report, Fault> {
        Ok(Report {
            file: String::from_str(alloc, file)?,
            text: String::new(alloc),
            differences: 0,
        })
    }

    pub fn text(&self) -> &str {
        self.text.as_str()
    }

    pub fn differences(&self) -> u64 {
        self.differences
    }

    /// How many rows a table has.
    pub fn rows(&mut self, table: &str, count: usize) -> Result<(), Fault> {
        writeln!(self.text, "{table}: {count} rows")?;
        Ok(())
    }

    /// What is wrong with the row on this line.
    pub fn wrong(&mut self, line: u32, what: &str, key: &str) -> Result<(), Fault> {
        self.differences = self.differences.saturating_add(1);
        let file = self.file.as_str();
        writeln!(self.text, "{file}:{line}: {what} {key}")?;
        Ok(())
    }

    /// What came out under a key of the row on this line, and what had to.
    pub fn differs(
        &mut self,
        line: u32,
        key: &str,
        given: &[u8],
        wanted: &[u8],
    ) -> Result<(), Fault> {
        self.differences = self.differences.saturating_add(1);
        let file = self.file.as_str();
        writeln!(self.text, "{file}:{line}: {key} differs")?;
        self.text.push_str("  is      ")?;
        write_value(&mut self.text, given)?;
        self.text.push_str("\n  must be ")?;
        write_value(&mut self.text, wanted)?;
        self.text.push_str("\n")?;
        Ok(())
    }
}
