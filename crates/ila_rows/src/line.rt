use crate::fault::Fault;
use ila_base::{Name, Place};
use std::alloc::Global;

/// A text that is written piece by piece.
#[derive(Drop)]
pub struct Line {
    alloc: Global,
    bytes: Vec<u8>,
}

impl Line {
    pub fn new(alloc: Global) -> Line {
        Line {
            alloc,
            bytes: Vec::new(alloc),
        }
    }

    pub fn alloc(&self) -> Global {
        self.alloc
    }

    /// What was written.
    pub fn into_bytes(self) -> Vec<u8> {
        let Line { alloc: _, bytes } = self;
        bytes
    }

    pub fn bytes(&mut self, bytes: &[u8]) -> Result<(), Fault> {
        self.bytes.extend_from_slice(bytes)?;
        Ok(())
    }

    /// A blank, unless nothing was written before.
    pub fn blank_between(&mut self) -> Result<(), Fault> {
        if self.bytes.is_empty() {
            return Ok(());
        }
        self.bytes(b" ")
    }

    pub fn number(&mut self, number: u64) -> Result<(), Fault> {
        let digits = format!(in self.alloc; "{number}")?;
        self.bytes(digits.as_bytes())
    }

    /// A constant: its width, a quote and its value in decimal digits.
    pub fn constant(&mut self, width: u8, value: u128) -> Result<(), Fault> {
        let digits = format!(in self.alloc; "{width}'{value}")?;
        self.bytes(digits.as_bytes())
    }

    /// A line and a column.
    pub fn place(&mut self, place: Place) -> Result<(), Fault> {
        self.number(u64::from(place.line))?;
        self.bytes(b":")?;
        self.number(u64::from(place.col))
    }

    /// A blank and a name.
    pub fn word(&mut self, name: &Name) -> Result<(), Fault> {
        self.bytes(b" ")?;
        self.bytes(name.bytes())
    }

    /// A range or part, from its left index to its right one.
    pub fn span(&mut self, left: u32, right: u32) -> Result<(), Fault> {
        self.bytes(b"[")?;
        self.number(u64::from(left))?;
        self.bytes(b":")?;
        self.number(u64::from(right))?;
        self.bytes(b"]")
    }
}
