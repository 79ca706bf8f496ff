//! Numbers for names.
ghost use Rattle.std.specs.Prelude.{◌≡◌, ◌≤◌, ◌+◌, [], IfOk, OnOk, length, slice_get, Some};
ghost use Rattle.net_graph.specs.Lists.{AllDiffer};
ghost use Rattle.flat_settle.specs.Naming.{Grows};

use ila_base::NoMemory;
use indexmap::IndexSet;
use std::alloc::Global;
use std::marker::Model;

/// Names by number, from 0 in the order in which they are met. Clauses see the list of the names.
/// A name is borrowed, and no bytes are copied.
#[derive(Drop)]
pub struct Numbers<'a> {
    names: IndexSet<&'a [u8]>,
}

impl<'a> Model for Numbers<'a> {
    ghost use Rattle.std.specs.Prelude.{ℕ, List, map};
    ghost use Rattle.std.specs.Coded.{coded_list, coded_ℕ};

    ghost Value = { List (List ℕ) };

    ghost coded = { coded_list (coded_list coded_ℕ) };

    ghost view = { λ numbers. map (λ name. name.now) numbers.names.keys };
}

impl<'a> Numbers<'a> {
    /// No names. It takes no memory.
    pub fn new(alloc: Global) -> Numbers<'a>
        ensures { result ≡ [] }
    {
        Numbers {
            names: IndexSet::new(alloc),
        }
    }

    /// The number of a name, which is a new one where it wasn't met yet.
    pub fn number(&mut self, name: &'a [u8]) -> Result<usize, NoMemory>
        ensures at { IfOk result (λ number. slice_get self.new number ≡ Some name.now) }
        ensures grows { OnOk result (Grows self.old self.new) }
        ensures few { OnOk result (length self.new ≤ length self.old + 1) }
        ensures differ { OnOk result (AllDiffer self.new) }
    {
        let (number, _added) = self.names.insert_full(name)?;
        Ok(number)
    }
}
