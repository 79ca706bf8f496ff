ghost use Rattle.std.specs.Prelude.{◌≡◌, ℕ, ◌+◌, ◌≤◌, ◌↔◌, true, MatchOption, None, Some, Err, OnOk, OnErr, IfOk, vec_len};
ghost use Rattle.std.specs.Option.{option_map};
ghost use Rattle.std.specs.List.{position_from};
ghost use Rattle.std.specs.Str.{bytes_eq};
ghost use Rattle.ila_base.specs.Faults.{Rose};
ghost use Rattle.ila_base.specs.Fakes.{no_calls, fails_next, after_call};
ghost use Rattle.ila_base.specs.Files.{Tells, TellsKnown, KeepsFiles, KeepsOthers, NowHolds, file_of, told, IsSplit};

use crate::memory::NoMemory;
use crate::name::Name;
use crate::outside::{LoadFault, Shelf, StoreFault};
use crate::schedule::Schedule;
use std::alloc::Global;
use std::marker::Model;

/// A shelf over memory. The calls whose numbers are listed fail, counted from 0, and no others.
/// Refused memory is told as such and leaves the shelf as it was.
#[derive(Debug, Drop)]
pub struct MemShelf {
    files: Vec<(Name, Vec<u8>)>,
    schedule: Schedule,
}

impl Model for MemShelf {
    ghost use Rattle.ila_base.specs.Fakes.{MemoryShelf};
    ghost use Rattle.ila_base.specs.Files.{told};

    ghost Value = { MemoryShelf };

    ghost view = { λ s. record { files = told s.files.items; calls = s.schedule } };
}

impl MemShelf {
    /// A shelf with these files. Of two with one name the first counts. It takes no memory.
    pub fn new(files: Vec<(Name, Vec<u8>)>, fails: Vec<u32>) -> MemShelf
        ensures { result ≡ record { files = told files.items; calls = no_calls fails.items } }
    {
        MemShelf {
            files,
            schedule: Schedule::new(fails),
        }
    }

    /// The bytes of the file of this name. None comes exactly where there is no such file. It takes
    /// no memory.
    pub fn file(&self, name: &str) -> Option<&[u8]>
        ensures { option_map (λ bytes. bytes.now) result ≡ file_of self.now.files name.now }
    {
        match place_of(self.files.as_slice(), name) {
            Some(at) => Some(self.files[at].1.as_slice()),
            None => None,
        }
    }
}

impl Shelf for MemShelf {
    ghost files = { λ s. Some s.files };

    ghost faults = { λ s. s.calls.faults };

    fn load(&mut self, alloc: Global, name: &str, most: u64) -> Result<Vec<u8>, LoadFault>
        ensures tells { TellsKnown (Some self.old.files) name.now most result }
        ensures bound { IfOk result (λ bytes. vec_len bytes ≤ most) }
        ensures count { (taken : ℕ) → result ≡ Err (LoadFault.TooLong taken) → taken ≡ most + 1 }
        ensures kept { KeepsFiles (Some self.old.files) (Some self.new.files) }
        ensures later { self.old.calls.faults ≤ self.new.calls.faults }
        ensures missing { result ≡ Err LoadFault.Missing → self.new.calls.faults ≡ self.old.calls.faults }
        ensures cause { result ≡ Err LoadFault.Failed → Rose self.old.calls.faults self.new.calls.faults }

        // It fails exactly in the listed calls.
        ensures fails { (result ≡ Err LoadFault.Failed) ↔ (fails_next self.old.calls ≡ true) }
        ensures calls { self.new.calls ≡ after_call self.old.calls (fails_next self.old.calls) }
    {
        let fails = self.schedule.fails_next();
        self.schedule.count(fails)?;
        copy_of(alloc, self.files.as_slice(), name, most)
    }

    fn store(&mut self, alloc: Global, name: &str, bytes: &[u8]) -> Result<(), StoreFault>
        ensures stored { OnOk result (NowHolds (Some self.old.files) (Some self.new.files) name.now bytes.now) }
        ensures others { KeepsOthers (Some self.old.files) (Some self.new.files) name.now }
        ensures later { self.old.calls.faults ≤ self.new.calls.faults }
        ensures cause { result ≡ Err StoreFault.Failed → Rose self.old.calls.faults self.new.calls.faults }

        // It fails exactly in the listed calls, and a refusal leaves the files as they were.
        ensures fails { (result ≡ Err StoreFault.Failed) ↔ (fails_next self.old.calls ≡ true) }
        ensures calls { self.new.calls ≡ after_call self.old.calls (fails_next self.old.calls) }
        ensures unchanged { OnErr result (self.new.files ≡ self.old.files) }
    {
        let fails = self.schedule.fails_next();
        self.schedule.count(fails)?;
        put(alloc, &mut self.files, name, bytes)?;
        Ok(())
    }
}

// The place of the first file of this name, among the files as they are kept.
fn first_named(files: &[(Name, Vec<u8>)], name: &str) -> Option<usize>
    ensures { result ≡ position_from (λ file. bytes_eq file.0 name.now) 0 files.now }
{
    files
        .iter()
        .position(|file| file.0.bytes() == name.as_bytes())
}

// The place of the first file of this name.
fn place_of(files: &[(Name, Vec<u8>)], name: &str) -> Option<usize>
    ensures { MatchOption result (file_of (told files.now) name.now ≡ None) (IsSplit (told files.now) name.now) }
{
    first_named(files, name)
}

// A copy of the bytes of the file of this name.
fn copy_of(
    alloc: Global,
    files: &[(Name, Vec<u8>)],
    name: &str,
    most: u64,
) -> Result<Vec<u8>, LoadFault>
    ensures tells { Tells (told files.now) name.now most result }
    ensures bound { IfOk result (λ bytes. vec_len bytes ≤ most) }
    ensures count { (taken : ℕ) → result ≡ Err (LoadFault.TooLong taken) → taken ≡ most + 1 }
    ensures serves { result ≡ Err LoadFault.Failed → ⊥ }
{
    let Some(at) = place_of(files, name) else {
        return Err(LoadFault::Missing);
    };
    let bytes = files[at].1.as_slice();
    if bytes.len() as u64 > most {
        return Err(LoadFault::TooLong(most + 1));
    }
    match Vec::from_slice(alloc, bytes) {
        Ok(copy) => Ok(copy),
        Err(_) => Err(LoadFault::NoMemory),
    }
}

// Puts the bytes in the place of the first file of this name, or a new file at the end.
fn put(
    alloc: Global,
    files: &mut Vec<(Name, Vec<u8>)>,
    name: &str,
    bytes: &[u8],
) -> Result<(), NoMemory>
    ensures stored { OnOk result (file_of (told files.new.items) name.now ≡ Some bytes.now) }
    ensures others { KeepsOthers (Some (told files.old.items)) (Some (told files.new.items)) name.now }
    ensures err { OnErr result (files.new.items ≡ files.old.items) }
{
    let bytes = Vec::from_slice(alloc, bytes)?;
    match place_of(files.as_slice(), name) {
        Some(at) => files[at].1 = bytes,
        None => {
            let name = Name::new(alloc, name.as_bytes())?;
            files.push((name, bytes))?;
        }
    }
    Ok(())
}
