ghost use Rattle.std.specs.Prelude.{◌≡◌, ℕ, ◌+◌, ◌≤◌, None, Err, IfOk, vec_len};

use ila_base::{LoadFault, Shelf, StoreFault};
use std::alloc::Global;
use std::fs;
use std::io::{ErrorKind, Read, Write};
use std::rt::Files;

/// A shelf over the system's files. It tells nothing of what they hold.
pub struct FileShelf<'a, R: Files> {
    files: &'a R,
    faults: u64,
}

impl<'a, R: Files> Drop for FileShelf<'a, R> {
    fn drop(self) {
        let FileShelf {
            files: _,
            faults: _,
        } = self;
    }
}

impl<'a, R: Files> FileShelf<'a, R> {
    pub fn new(files: &'a R) -> FileShelf<'a, R> {
        FileShelf { files, faults: 0 }
    }
}

impl<'a, R: Files> Shelf for FileShelf<'a, R> {
    ghost files = { λ _. None };

    ghost faults = { λ s. s.faults };

    fn load(&mut self, alloc: Global, name: &str, most: u64) -> Result<Vec<u8>, LoadFault> {
        let loaded = match fs::open(self.files, name) {
            Ok(file) => read_file(alloc, file, most),
            Err(e) if e.kind() == ErrorKind::NotFound => Err(LoadFault::Missing),
            Err(_) => Err(LoadFault::Failed),
        };
        if matches!(loaded, Err(LoadFault::Failed)) {
            self.faults = self.faults.saturating_add(1);
        }
        loaded
    }

    fn store(&mut self, _alloc: Global, name: &str, bytes: &[u8]) -> Result<(), StoreFault> {
        let stored = match fs::create(self.files, name) {
            Ok(mut file) => file.write_all(bytes).is_ok(),
            Err(_) => false,
        };
        if !stored {
            self.faults = self.faults.saturating_add(1);
            return Err(StoreFault::Failed);
        }
        Ok(())
    }
}

// All that a file gives, where that is at most so many bytes. One more is taken where it is more.
fn read_file<F: Read + Drop>(alloc: Global, file: F, most: u64) -> Result<Vec<u8>, LoadFault>
    ensures bound { IfOk result (λ bytes. vec_len bytes ≤ most) }
    ensures count { (taken : ℕ) → result ≡ Err (LoadFault.TooLong taken) → taken ≡ most + 1 }
    ensures found { result ≡ Err LoadFault.Missing → ⊥ }
{
    let mut bytes = Vec::new(alloc);
    match file.take(most.saturating_add(1)).read_to_end(&mut bytes) {
        Ok(_) => {
            if bytes.len() as u64 > most {
                return Err(LoadFault::TooLong(most + 1));
            }
            Ok(bytes)
        }
        Err(e) if e.kind() == ErrorKind::OutOfMemory => Err(LoadFault::NoMemory),
        Err(_) => Err(LoadFault::Failed),
    }
}
