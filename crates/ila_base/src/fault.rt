ghost use Rattle.std.specs.Prelude.{◌≡◌};
ghost use Rattle.ila_base.specs.declared.fault.NetStop.TheVariants.{NoMemory};

use crate::memory::NoMemory as MemoryFault;
use crate::place::Place;
use crate::refusal::NetRefusal;
use std::alloc::{AllocError, AllocFailed};

/// Why a netlist is refused, and where.
#[derive(Debug, Drop)]
pub struct NetFault {
    pub refusal: NetRefusal,
    /// 0:0 where the refusal has no place in the text.
    pub place: Place,
}

/// Why a call on a netlist gives none.
#[derive(Debug, Drop)]
pub enum NetStop {
    /// The netlist is refused.
    Refused(NetFault),
    /// Memory was not found.
    NoMemory,
}

impl From<AllocError> for NetStop {
    ghost from_gives = { λ _ stop. stop ≡ NoMemory };

    fn from(_failed: AllocError) -> NetStop {
        NetStop::NoMemory
    }
}

impl<T: Drop> From<AllocFailed<T>> for NetStop {
    ghost from_gives = { λ _ stop. stop ≡ NoMemory };

    fn from(_failed: AllocFailed<T>) -> NetStop {
        NetStop::NoMemory
    }
}

impl From<MemoryFault> for NetStop {
    ghost from_gives = { λ _ stop. stop ≡ NoMemory };

    fn from(_failed: MemoryFault) -> NetStop {
        NetStop::NoMemory
    }
}
