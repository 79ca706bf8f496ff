//! The loading of a file, with its limit and its refusals.

ghost use Rattle.std.specs.Prelude.{◌≤◌, ◌≡◌, Some, IfOk, IfErr, vec_len};
ghost use Rattle.ila_base.specs.Files.{KeepsFiles};
ghost use Rattle.ila_top.specs.Stage.{Halts, plain};
ghost use Rattle.ila_top.specs.Loading as loading;
ghost use Rattle.ila_top.specs.Loading.{load, most_bytes, IsEndedAs};
ghost use Rattle.ila_top.specs.declared.status.Status.TheVariants as status;

use crate::ending::plain;
use crate::status::{Ended, Status};
use ila_base::limits::{FILE_BYTES, SMALL_FILE_BYTES};
use ila_base::{
    LimitKind, LoadFault, Name, NetRefusal, Place, ProjRefusal, SetRefusal, Shelf, TsmRefusal,
};
use std::alloc::Global;

/// What a file is loaded as.
#[derive(Clone, Copy, Debug, PartialEq, Eq)]
pub enum FileKind {
    Netlist,
    Project,
    /// The trigger program of the core with this number.
    Program(u8),
    Settings,
}

// The greatest length of a file of a kind, in bytes.
fn most_of(kind: FileKind) -> u64
    ensures { result ≡ most_bytes kind }
{
    match kind {
        FileKind::Netlist => FILE_BYTES as u64,
        FileKind::Project | FileKind::Program(_) | FileKind::Settings => SMALL_FILE_BYTES as u64,
    }
}

// How the command ends where a file of a kind is longer.
fn too_long(alloc: Global, kind: FileKind, core: &[u8]) -> Ended
    ensures { IsEndedAs (loading.too_long kind core.now) result }
{
    match kind {
        FileKind::Netlist => {
            let refusal = NetRefusal::Limit(LimitKind::FileBytes, FILE_BYTES as u64 + 1);
            plain(Status::Netlist(refusal, Place::NOWHERE))
        }
        FileKind::Project => match Name::new(alloc, b"") {
            Ok(name) => plain(Status::Project(ProjRefusal::BadValue(name))),
            Err(_) => plain(Status::NoMemory),
        },
        FileKind::Program(number) => match Name::new(alloc, core) {
            Ok(name) => Ended {
                status: Status::Tsm(number, TsmRefusal::Syntax, Place::NOWHERE),
                core: Some(name),
            },
            Err(_) => plain(Status::NoMemory),
        },
        FileKind::Settings => plain(Status::Settings(SetRefusal::Form(0))),
    }
}

// How the command ends where there is no file of this name.
fn missing(alloc: Global, name: &str) -> Ended
    ensures { IsEndedAs (plain (status.NoFile name.now)) result }
{
    match Name::new(alloc, name.as_bytes()) {
        Ok(name) => plain(Status::NoFile(name)),
        Err(_) => plain(Status::NoMemory),
    }
}

/// The bytes of a file. It changes no file. `core` is the name of the core whose program it is, for the
/// error line, and says nothing for other kinds.
pub fn load<H: Shelf>(
    alloc: Global,
    shelf: &mut H,
    kind: FileKind,
    core: &[u8],
    name: &str,
) -> Result<Vec<u8>, Ended>
    ensures given { IfOk result (λ bytes. (load kind core.now name.now).gives (H.files shelf.old) bytes.items) }
    ensures short { IfOk result (λ bytes. vec_len bytes ≤ most_bytes kind) }
    ensures halted { IfErr result (Halts ((load kind core.now name.now).refuses (H.files shelf.old)) (H.faults shelf.old) (H.faults shelf.new)) }
    ensures kept { KeepsFiles (H.files shelf.old) (H.files shelf.new) }
    ensures later { H.faults shelf.old ≤ H.faults shelf.new }
{
    match shelf.load(alloc, name, most_of(kind)) {
        Ok(bytes) => Ok(bytes),
        Err(LoadFault::Failed) => Err(plain(Status::ShelfFault)),
        Err(LoadFault::Missing) => Err(missing(alloc, name)),
        Err(LoadFault::TooLong(_)) => Err(too_long(alloc, kind, core)),
        Err(LoadFault::NoMemory) => Err(plain(Status::NoMemory)),
    }
}
