use crate::fault::Fault;
use ila_base::Place;
use ila_base::limits::FILE_BYTES;
use std::alloc::Global;

/// A text without its mark `@`, and the place where that stood, which is none where there is no mark.
#[derive(Drop)]
pub struct Marked {
    pub text: Vec<u8>,
    pub place: Place,
}

/// The place behind the last byte of a text, and none of a text that is too long to be read.
pub fn place_behind(text: &[u8]) -> Place {
    if text.len() > FILE_BYTES {
        return Place::NOWHERE;
    }
    Place::behind(text)
}

/// Takes the mark out of a text.
pub fn unmarked(alloc: Global, marked: &[u8]) -> Result<Marked, Fault> {
    match marked.iter().position(|byte| *byte == b'@') {
        Some(at) => {
            let mut text = Vec::from_slice(alloc, &marked[..at])?;
            let place = place_behind(text.as_slice());
            text.extend_from_slice(&marked[at + 1..])?;
            Ok(Marked { text, place })
        }
        None => Ok(Marked {
            text: Vec::from_slice(alloc, marked)?,
            place: Place::NOWHERE,
        }),
    }
}
