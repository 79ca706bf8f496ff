use crate::fault::Fault;
use crate::field::{Field, value_of};
use std::alloc::Global;

/// What came out of a row: a value for each key.
#[derive(Drop)]
pub struct Outcome {
    alloc: Global,
    fields: Vec<Field>,
}

impl Outcome {
    pub fn new(alloc: Global) -> Outcome {
        Outcome {
            alloc,
            fields: Vec::new(alloc),
        }
    }

    /// Adds what came out under a key.
    pub fn push(&mut self, key: &str, value: Vec<u8>) -> Result<(), Fault> {
        let key = String::from_str(self.alloc, key)?;
        self.fields.push(Field { key, value })?;
        Ok(())
    }

    /// Adds a copy of what came out under a key.
    pub fn push_copy(&mut self, key: &str, value: &[u8]) -> Result<(), Fault> {
        let value = Vec::from_slice(self.alloc, value)?;
        self.push(key, value)
    }

    /// What came out under a key, if anything did.
    pub fn find(&self, key: &str) -> Option<&[u8]> {
        value_of(self.fields.as_slice(), key)
    }
}
