ghost use Rattle.std.specs.Prelude.{◌≡◌, ◌≤◌, [], unwrap_or};
ghost use Rattle.ila_top.specs.Answers.{IsReported, exit_code_of};
ghost use Rattle.ila_top.specs.Stage as stage;

use crate::line::write_error;
use crate::status::{Ended, Status};
use ila_base::{Name, Sink};

/// An ending that speaks of no core.
pub fn plain(status: Status) -> Ended
    ensures { result ≡ stage.plain status }
{
    Ended { status, core: None }
}

// The bytes of the name of the core that an ending speaks of, and none where it speaks of none.
fn name_of(core: &Option<Name>) -> &[u8]
    ensures { result.now ≡ unwrap_or core.now [] }
{
    match core {
        Some(name) => name.bytes(),
        None => b"",
    }
}

/// Writes the error line of an ending, and gives its status. A fault of the sink changes no status.
pub fn report<E: Sink>(errors: &mut E, ended: Ended) -> Status
    ensures same { result ≡ ended.status }
    ensures line { IsReported (E.written errors.old) (E.written errors.new) (E.faults errors.old) (E.faults errors.new) ended }
    ensures later { E.faults errors.old ≤ E.faults errors.new }
{
    let Ended { status, core } = ended;
    let _ = write_error(errors, &status, name_of(&core));
    status
}

/// The exit status of the program.
pub fn exit_code(status: &Status) -> u8
    ensures { result ≡ exit_code_of status.now }
{
    match status {
        Status::Done => 0,
        Status::Usage => 1,
        Status::Netlist(..) => 2,
        Status::Project(_) => 3,
        Status::Tsm(..) => 4,
        Status::Resource(..) => 5,
        Status::Settings(_) => 6,
        Status::Stimulus(_) => 7,
        Status::ShelfFault => 8,
        Status::ReadFault => 9,
        Status::WriteFault => 10,
        Status::NoMemory => 11,
        Status::NoFile(_) => 12,
    }
}
