ghost use Rattle.std.specs.Prelude.{◌≡◌, ◌↔◌, IsTrue, IfOk};

use crate::memory::NoMemory;
use std::alloc::Global;
use std::marker::Model;

/// A name: a list of bytes. An escaped identifier's name has neither the backslash nor the blank
/// that ends it (IEEE 1364-2005, 3.7.1).
#[derive(Debug, Drop)]
pub struct Name {
    bytes: Vec<u8>,
}

impl Model for Name {
    ghost use Rattle.std.specs.Prelude.{List, ℕ};
    ghost use Rattle.std.specs.Coded.{coded_list, coded_ℕ};

    ghost Value = { List ℕ };

    ghost coded = { coded_list coded_ℕ };

    ghost view = { λ name. name.bytes.items };
}

impl Name {
    /// The name with these bytes.
    pub fn new(alloc: Global, text: &[u8]) -> Result<Name, NoMemory>
        ensures { IfOk result (λ name. name ≡ text.now) }
    {
        let bytes = Vec::from_slice(alloc, text)?;
        Ok(Name { bytes })
    }

    /// The bytes. It takes no memory.
    pub fn bytes(&self) -> &[u8]
        ensures { result.now ≡ self.now }
    {
        self.bytes.as_slice()
    }

    /// A name with the same bytes.
    pub fn copied(&self, alloc: Global) -> Result<Name, NoMemory>
        ensures { IfOk result (λ name. name ≡ self.now) }
    {
        Name::new(alloc, self.bytes())
    }

    /// Whether the two names have equal bytes.
    pub fn is(&self, other: &Name) -> bool
        ensures { IsTrue result ↔ (self.now ≡ other.now) }
    {
        self.bytes() == other.bytes()
    }
}
