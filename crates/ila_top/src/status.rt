use ila_base::{
    Name, NetRefusal, Place, ProjRefusal, ResRefusal, SetRefusal, StimRefusal, TsmRefusal,
};

/// How a command ended. A core is told by its number in the project, from 0.
#[derive(Debug, Drop)]
pub enum Status {
    /// All was done: the stimulus was read to its end and all files were stored.
    Done,
    /// The words are of no command.
    Usage,
    /// The netlist is refused, at this place of its text where it has one.
    Netlist(NetRefusal, Place),
    /// The project is refused.
    Project(ProjRefusal),
    /// A core's trigger program is refused, at this place of its text where it has one.
    Tsm(u8, TsmRefusal, Place),
    /// A core has not enough resources for its trigger program.
    Resource(u8, ResRefusal),
    /// Settings are refused.
    Settings(SetRefusal),
    /// The stimulus is refused.
    Stimulus(StimRefusal),
    /// The shelf has no file of this name, which the command needs.
    NoFile(Name),
    /// The shelf failed.
    ShelfFault,
    /// The stimulus could not be read.
    ReadFault,
    /// The trace could not be written.
    WriteFault,
    /// Memory was not found.
    NoMemory,
}

/// An ending of a command: its status, and the name of the core that the status speaks of, if it speaks of one.
#[derive(Debug, Drop)]
pub struct Ended {
    pub status: Status,
    pub core: Option<Name>,
}
