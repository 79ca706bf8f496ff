ghost use Rattle.std.specs.Prelude.{◌≡◌, ℕ, List, [], ◌∷◌, OnOk};
ghost use Rattle.std.specs.Option.{option_or};
ghost use Rattle.vlog_check.specs.Scope.{value_of};

use ila_base::NoMemory;
use indexmap::IndexMap;
use std::alloc::Global;
use std::marker::Model;

/// What names stand for, the first mention of a name counting. A look-up hashes the name once and
/// takes no memory.
#[derive(Drop)]
pub struct Table<'a, V> {
    entries: IndexMap<&'a [u8], V>,
}

impl<'a, V> Model for Table<'a, V> {
    ghost use Rattle.std.specs.Prelude.{ℕ, List, map};
    ghost use Rattle.std.specs.Coded.{coded_list, coded_ℕ, coded×};

    ghost Value = { List (List ℕ × V) };

    ghost coded = { coded_list (coded× (coded_list coded_ℕ) V.code) };

    ghost view = { λ table. map (λ entry. (entry.0.now, entry.1)) table.entries.entries };
}

impl<'a, V: Copy> Table<'a, V> {
    /// The table that knows no name. It takes no memory.
    pub fn new(alloc: Global) -> Table<'a, V>
        ensures { result ≡ [] }
    {
        Table {
            entries: IndexMap::new(alloc),
        }
    }

    /// What a name stands for.
    pub fn get(&self, name: &[u8]) -> Option<V>
        ensures { result ≡ value_of self.now name.now }
    {
        self.entries.get(&name).copied()
    }

    /// Says what a name stands for, if nothing was said of it before.
    pub fn put(&mut self, name: &'a [u8], value: V) -> Result<(), NoMemory>
        ensures { OnOk result ((other : List ℕ) → value_of self.new other ≡ option_or (value_of self.old other) (value_of ((name.now, value) ∷ []) other)) }
    {
        if self.entries.contains_key(&name) {
            return Ok(());
        }
        self.entries.insert(name, value)?;
        Ok(())
    }
}
