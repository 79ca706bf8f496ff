ghost use Rattle.std.specs.Prelude.{◌≡◌, ℕ, ◌+◌, ◌<◌, ◌≤◌, List, length, Option, OnOk, OnErr, IfOk, Err, vec_len};
ghost use Rattle.std.specs.List.{flat_map};
ghost use Rattle.std.specs.Io.{ReadsAtMost};
ghost use Rattle.std.specs.Io.KnownBytes.{ReadConsumes, WriteAppends};
ghost use Rattle.ila_base.specs.Faults.{Rose, Writes};
ghost use Rattle.ila_base.specs.Files.{File, TellsKnown, KeepsFiles, KeepsOthers, NowHolds};
ghost use Rattle.ila_base.specs.declared.outside.LoadFault.TheVariants as load;
ghost use Rattle.ila_base.specs.declared.outside.StoreFault.TheVariants as store;

use crate::memory::NoMemory;
use std::alloc::Global;
use thiserror::Error;

/// A call on the outside failed.
#[derive(Clone, Copy, Debug, PartialEq, Eq, Error)]
#[error("failed")]
pub struct Failed;

/// Where bytes come from, as standard input. It tells what is left, where it tells at all, and has
/// a count of faults that never falls.
pub trait Source {
    ghost left: { Self → Option (List ℕ) };

    ghost faults: { Self → ℕ };

    /// Gives the next bytes, at most as many as the buffer has. For a buffer that isn't empty it
    /// answers 0 only where nothing is left, which is the end. A failed read takes nothing of what
    /// is left.
    fn read(&mut self, into: &mut [u8]) -> Result<usize, Failed>
        ensures bound { ReadsAtMost result into.new }
        ensures bytes { ReadConsumes (left self.old) (left self.new) result into.new }
        ensures later { faults self.old ≤ faults self.new }
        ensures cause { OnErr result (Rose (faults self.old) (faults self.new)) };
}

/// Where bytes go, as standard output. It tells what was written, where it tells at all, and has a
/// count of faults that never falls.
pub trait Sink {
    ghost written: { Self → Option (List ℕ) };

    ghost faults: { Self → ℕ };

    /// Appends as many first bytes of the piece as it answers, at least one of a piece that isn't
    /// empty. A failed write appends nothing.
    fn write(&mut self, piece: &[u8]) -> Result<usize, Failed>
        ensures bound { IfOk result (λ n. n ≤ length piece.now) }
        ensures some { 0 < length piece.now → IfOk result (λ n. 0 < n) }
        ensures bytes { WriteAppends (written self.old) (written self.new) result piece.now }
        ensures later { faults self.old ≤ faults self.new }
        ensures cause { OnErr result (Rose (faults self.old) (faults self.new)) };
}

/// Why a file was not loaded.
#[derive(Clone, Copy, Debug, PartialEq, Eq, Error)]
pub enum LoadFault {
    /// The shelf failed.
    #[error("failed")]
    Failed,
    /// There is no file of that name.
    #[error("no such file")]
    Missing,
    /// The file has more bytes than were asked for at most. One more than that number were taken,
    /// which is carried.
    #[error("more than {0} bytes")]
    TooLong(u64),
    /// Memory was not found.
    #[error("no memory")]
    NoMemory,
}

/// Why a file was not stored.
#[derive(Clone, Copy, Debug, PartialEq, Eq, Error)]
pub enum StoreFault {
    /// The shelf failed.
    #[error("failed")]
    Failed,
    /// Memory was not found.
    #[error("no memory")]
    NoMemory,
}

impl From<Failed> for LoadFault {
    ghost from_gives = { λ _ fault. fault ≡ load.Failed };

    fn from(_failed: Failed) -> LoadFault {
        LoadFault::Failed
    }
}

impl From<Failed> for StoreFault {
    ghost from_gives = { λ _ fault. fault ≡ store.Failed };

    fn from(_failed: Failed) -> StoreFault {
        StoreFault::Failed
    }
}

impl From<NoMemory> for StoreFault {
    ghost from_gives = { λ _ fault. fault ≡ store.NoMemory };

    fn from(_no_memory: NoMemory) -> StoreFault {
        StoreFault::NoMemory
    }
}

/// Where files are. It tells them as a list of pairs of name and bytes, where it tells at all, and
/// has a count of faults that never falls.
pub trait Shelf {
    ghost files: { Self → Option (List File) };

    ghost faults: { Self → ℕ };

    /// The bytes of the file of this name, of which there are at most so many. It changes no file,
    /// and where there is none of the name the count of faults stays.
    fn load(&mut self, alloc: Global, name: &str, most: u64) -> Result<Vec<u8>, LoadFault>
        ensures tells { TellsKnown (files self.old) name.now most result }
        ensures bound { IfOk result (λ bytes. vec_len bytes ≤ most) }
        ensures count { (taken : ℕ) → result ≡ Err (LoadFault.TooLong taken) → taken ≡ most + 1 }
        ensures kept { KeepsFiles (files self.old) (files self.new) }
        ensures later { faults self.old ≤ faults self.new }
        ensures missing { result ≡ Err LoadFault.Missing → faults self.new ≡ faults self.old }
        ensures cause { result ≡ Err LoadFault.Failed → Rose (faults self.old) (faults self.new) };

    /// Makes the file of this name hold the bytes, and leaves all others as they were. After a
    /// refusal nothing is known of the named file, and the others stand.
    fn store(&mut self, alloc: Global, name: &str, bytes: &[u8]) -> Result<(), StoreFault>
        ensures stored { OnOk result (NowHolds (files self.old) (files self.new) name.now bytes.now) }
        ensures others { KeepsOthers (files self.old) (files self.new) name.now }
        ensures later { faults self.old ≤ faults self.new }
        ensures cause { result ≡ Err StoreFault.Failed → Rose (faults self.old) (faults self.new) };
}

/// Writes all bytes to the sink, in as many pieces as it takes. It takes no memory. After a refusal
/// a front of the bytes was written.
pub fn write_all<K: Sink>(sink: &mut K, bytes: &[u8]) -> Result<(), Failed>
    ensures bytes { Writes (K.written sink.old) (K.written sink.new) result bytes.now }
    ensures later { K.faults sink.old ≤ K.faults sink.new }
    ensures cause { OnErr result (Rose (K.faults sink.old) (K.faults sink.new)) }
{
    let mut at = 0;
    while at < bytes.len() {
        at += sink.write(&bytes[at..])?;
    }
    Ok(())
}

/// Writes the bytes of the pieces to the sink, one piece after the other. It takes no memory. After
/// a refusal a front of these bytes was written.
pub fn write_pieces<K: Sink>(sink: &mut K, pieces: &[&[u8]]) -> Result<(), Failed>
    ensures bytes { Writes (K.written sink.old) (K.written sink.new) result (flat_map (λ piece. piece.now) pieces.now) }
    ensures later { K.faults sink.old ≤ K.faults sink.new }
    ensures cause { OnErr result (Rose (K.faults sink.old) (K.faults sink.new)) }
{
    for piece in pieces {
        write_all(sink, piece)?;
    }
    Ok(())
}
