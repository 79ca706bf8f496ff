use crate::fault::Fault;
use crate::field::{Field, value_of};
use crate::kind::Kind;
use std::alloc::Global;
use std::str::from_utf8;

/// A row, with the line on which it begins, counted from 1.
#[derive(Drop)]
pub struct Row {
    pub line: u32,
    pub fields: Vec<Field>,
}

/// A table of rows. What stands above the rows holds of each row that says nothing else.
#[derive(Drop)]
pub struct Table {
    pub name: String,
    pub kind: Kind,
    pub common: Vec<Field>,
    pub rows: Vec<Row>,
}

/// A row with what its table says of all rows.
#[derive(Clone, Copy)]
pub struct Entry<'a> {
    pub line: u32,
    pub fields: &'a [Field],
    pub common: &'a [Field],
}

impl Table {
    /// The row with what the table says of all rows.
    pub fn entry<'a>(&'a self, row: &'a Row) -> Entry<'a> {
        Entry {
            line: row.line,
            fields: row.fields.as_slice(),
            common: self.common.as_slice(),
        }
    }

    /// The fields of the last row, or those that stand above the first row.
    pub fn last_fields(&mut self) -> &mut Vec<Field> {
        match self.rows.last_mut() {
            Some(row) => &mut row.fields,
            None => &mut self.common,
        }
    }
}

impl<'a> Entry<'a> {
    /// The value of the field with this key, if there is one.
    pub fn find(&self, key: &str) -> Option<&'a [u8]> {
        match value_of(self.fields, key) {
            Some(value) => Some(value),
            None => value_of(self.common, key),
        }
    }

    /// The value of the field with this key. It is empty where there is none.
    pub fn bytes(&self, key: &str) -> &'a [u8] {
        self.find(key).unwrap_or(b"")
    }

    /// The value of the field with this key as text, or else this one.
    pub fn text(&self, key: &str, other: &'a str) -> Result<&'a str, Fault> {
        match self.find(key) {
            Some(value) => text_of(value),
            None => Ok(other),
        }
    }

    /// The value of the field with this key as a number, or else this one.
    pub fn number(&self, key: &str, other: usize) -> Result<usize, Fault> {
        match self.find(key) {
            Some(value) => match text_of(value)?.parse::<usize>() {
                Ok(number) => Ok(number),
                Err(_) => Err(Fault::Form("no number")),
            },
            None => Ok(other),
        }
    }

    /// The value of the field with this key as numbers with blanks between them.
    pub fn numbers(&self, alloc: Global, key: &str) -> Result<Vec<u32>, Fault> {
        let mut numbers = Vec::new(alloc);
        for word in text_of(self.bytes(key))?.split_whitespace() {
            match word.parse::<u32>() {
                Ok(number) => numbers.push(number)?,
                Err(_) => return Err(Fault::Form("no number")),
            }
        }
        Ok(numbers)
    }
}

/// A value as text.
pub fn text_of(value: &[u8]) -> Result<&str, Fault> {
    match from_utf8(value) {
        Ok(text) => Ok(text),
        Err(_) => Err(Fault::Form("no text")),
    }
}
