ghost use Rattle.std.specs.Prelude.{◌≡◌};
ghost use Rattle.grammar.specs.declared.stop.Stop.TheVariants.{NoMemory};

use ila_base::NoMemory as MemoryFault;
use std::alloc::{AllocError, AllocFailed};

/// Why a rule gives nothing.
#[derive(Clone, Copy, Debug)]
pub enum Stop {
    /// The parser stands at a token that isn't in the grammar there, or at the end of the text.
    Syntax,
    /// Memory was not found.
    NoMemory,
}

impl From<AllocError> for Stop {
    ghost from_gives = { λ _ stop. stop ≡ NoMemory };

    fn from(_failed: AllocError) -> Stop {
        Stop::NoMemory
    }
}

impl<T: Drop> From<AllocFailed<T>> for Stop {
    ghost from_gives = { λ _ stop. stop ≡ NoMemory };

    fn from(_failed: AllocFailed<T>) -> Stop {
        Stop::NoMemory
    }
}

impl From<MemoryFault> for Stop {
    ghost from_gives = { λ _ stop. stop ≡ NoMemory };

    fn from(_failed: MemoryFault) -> Stop {
        Stop::NoMemory
    }
}
