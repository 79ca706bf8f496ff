ghost use Rattle.std.specs.Prelude.{◌≡◌};
ghost use Rattle.stim_read.specs.declared.faults.StimFault.TheVariants as fault;
ghost use Rattle.stim_read.specs.declared.faults.StimStop.TheVariants as stop;

use ila_base::{Failed, NoMemory, StimRefusal};

/// Why a stimulus was not begun.
#[derive(Clone, Copy, Debug, PartialEq, Eq)]
pub enum StimStop {
    /// Its first line is no header.
    Refused(StimRefusal),
    /// The source failed.
    ReadFault,
    /// Memory was not found.
    NoMemory,
}

/// Why no row was taken.
#[derive(Clone, Copy, Debug, PartialEq, Eq)]
pub enum StimFault {
    /// The next line is no row, or one too many.
    Refused(StimRefusal),
    /// The source failed.
    ReadFault,
}

impl From<Failed> for StimStop {
    ghost from_gives = { λ _ fault. fault ≡ stop.ReadFault };

    fn from(_failed: Failed) -> StimStop {
        StimStop::ReadFault
    }
}

impl From<NoMemory> for StimStop {
    ghost from_gives = { λ _ fault. fault ≡ stop.NoMemory };

    fn from(_no_memory: NoMemory) -> StimStop {
        StimStop::NoMemory
    }
}

impl From<Failed> for StimFault {
    ghost from_gives = { λ _ given. given ≡ fault.ReadFault };

    fn from(_failed: Failed) -> StimFault {
        StimFault::ReadFault
    }
}
