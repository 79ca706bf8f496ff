use ila_base::NoMemory;
use std::alloc::{AllocError, AllocFailed};
use thiserror::Error;

/// Why a table is not read or a row not walked.
#[derive(Clone, Copy, Debug, Error)]
pub enum Fault {
    /// Memory was not found.
    #[error("no memory")]
    NoMemory,
    /// What is wrong with a line of a table, or with a field of a row.
    #[error("{0}")]
    Form(&'static str),
}

impl From<AllocError> for Fault {
    fn from(_error: AllocError) -> Fault {
        Fault::NoMemory
    }
}

impl<T: Drop> From<AllocFailed<T>> for Fault {
    fn from(_failed: AllocFailed<T>) -> Fault {
        Fault::NoMemory
    }
}

impl From<NoMemory> for Fault {
    fn from(_no_memory: NoMemory) -> Fault {
        Fault::NoMemory
    }
}

/// A fault of a file of tables, and the line where it stands, counted from 1.
#[derive(Clone, Copy, Debug, Error)]
#[error("{line}: {fault}")]
pub struct FaultAt {
    pub line: u32,
    pub fault: Fault,
}
