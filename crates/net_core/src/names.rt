ghost use Rattle.std.specs.Prelude.{◌≡◌, [], ◌∷◌, ◌++◌, None, OnOk, OnErr};
ghost use Rattle.std.specs.Str.{bytes_eq};
ghost use Rattle.std.specs.Map.{lookup};

use ila_base::NoMemory;
use indexmap::IndexMap;
use std::alloc::Global;
use std::marker::Model;

/// Numbers by name. Clauses see the list of the names with their numbers. A look-up hashes the name
/// once and takes no memory.
#[derive(Drop)]
pub struct NameTable {
    numbers: IndexMap<Vec<u8>, u32>,
}

impl Model for NameTable {
    ghost use Rattle.std.specs.Prelude.{ℕ, List, map};
    ghost use Rattle.std.specs.Coded.{coded_list, coded_ℕ, coded×};

    ghost Value = { List (List ℕ × ℕ) };

    ghost coded = { coded_list (coded× (coded_list coded_ℕ) coded_ℕ) };

    ghost view = { λ table. map (λ entry. (entry.0.items, entry.1)) table.numbers.entries };
}

impl NameTable {
    /// The empty table. It takes no memory.
    pub fn new(alloc: Global) -> NameTable
        ensures { result ≡ [] }
    {
        NameTable {
            numbers: IndexMap::new(alloc),
        }
    }

    /// The number of a name.
    pub fn number_of(&self, name: &[u8]) -> Option<u32>
        ensures { result ≡ lookup (bytes_eq name.now) self.now }
    {
        self.numbers.get(name).copied()
    }

    /// Gives a new name its number. Without memory the table stays as it was.
    pub fn add(&mut self, alloc: Global, name: &[u8], number: u32) -> Result<(), NoMemory>
        requires { lookup (bytes_eq name.now) self.old ≡ None }
        ensures ok { OnOk result (self.new ≡ self.old ++ (name.now, number) ∷ []) }
        ensures err { OnErr result (self.new ≡ self.old) }
    {
        let key = Vec::from_slice(alloc, name)?;
        self.numbers.insert(key, number)?;
        Ok(())
    }
}
