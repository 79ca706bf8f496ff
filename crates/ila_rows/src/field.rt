use crate::fault::Fault;
use std::alloc::Global;

/// A field of a row: what its key names is given, or must come out.
#[derive(Drop)]
pub struct Field {
    pub key: String,
    pub value: Vec<u8>,
}

impl Field {
    pub fn new(alloc: Global, key: &str) -> Result<Field, Fault> {
        Ok(Field {
            key: String::from_str(alloc, key)?,
            value: Vec::new(alloc),
        })
    }

    /// What stands behind the word in a key of two words, as the name in `file NAME`.
    pub fn name_behind(&self, word: &str) -> Option<&str> {
        match self.key.as_str().split_once(' ') {
            Some((first, name)) if first == word => Some(name),
            _ => None,
        }
    }
}

/// The first word of a key.
pub fn word_of(key: &str) -> &str {
    match key.split_once(' ') {
        Some((word, _)) => word,
        None => key,
    }
}

/// The value of the first of the fields with this key.
pub fn value_of<'a>(fields: &'a [Field], key: &str) -> Option<&'a [u8]> {
    match fields.iter().find(|field| field.key.as_str() == key) {
        Some(field) => Some(field.value.as_slice()),
        None => None,
    }
}
