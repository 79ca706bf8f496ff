ghost use Rattle.std.specs.Prelude.{◌≡◌};
ghost use Rattle.stim_read.specs.declared.faults.StimFault.{StimFault};
ghost use Rattle.stim_read.specs.declared.faults.StimFault.TheVariants as stim;
ghost use Rattle.ila_session.specs.declared.fault.SessionFault.{SessionFault};
ghost use Rattle.ila_session.specs.declared.fault.SessionFault.TheVariants as fault;

use ila_base::{Failed, NoMemory, StimRefusal};
use stim_read::StimFault;

/// Why a stimulus was not simulated to its end.
#[derive(Clone, Copy, Debug, PartialEq, Eq)]
pub enum SessionFault {
    /// A line of the stimulus is no row, or one too many.
    Stimulus(StimRefusal),
    /// The source of the stimulus failed.
    ReadFault,
    /// The sink of the trace failed.
    WriteFault,
    /// Memory was not found.
    NoMemory,
}

impl From<NoMemory> for SessionFault {
    ghost from_gives = { λ _ given. given ≡ fault.NoMemory };

    fn from(_no_memory: NoMemory) -> SessionFault {
        SessionFault::NoMemory
    }
}

impl From<Failed> for SessionFault {
    ghost from_gives = { λ _ given. given ≡ fault.WriteFault };

    fn from(_failed: Failed) -> SessionFault {
        SessionFault::WriteFault
    }
}
