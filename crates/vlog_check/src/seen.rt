ghost use Rattle.std.specs.Prelude.{◌≡◌, ◌+◌, ◌<◌, List, [], ℕ, length, take, is_some, IfOk};
ghost use Rattle.vlog_check.specs.Kinds.{AreSeen};
ghost use Rattle.vlog_check.specs.Scope.{value_of};

use crate::table::Table;
use ila_base::{Name, NoMemory};
use std::alloc::Global;

/// How many parameters or connections are gone through for a name. Of more there is a table.
const FEW: usize = 16;

/// Which names the first parameters or connections of an instance have.
#[derive(Drop)]
pub enum Seen<'a, V> {
    /// The first of a short list.
    Few(&'a [(Name, V)]),
    /// The names of the first of a long list.
    Many(Table<'a, bool>),
}

/// Whether a parameter or connection has this name.
pub fn has_name<V>(given: &[(Name, V)], name: &[u8]) -> bool
    ensures { result ≡ is_some (value_of given.now name.now) }
{
    for own in given {
        if name == own.0.bytes() {
            return true;
        }
    }
    false
}

impl<'a, V> Seen<'a, V> {
    /// No name of a list. It takes no memory.
    pub fn none_of(alloc: Global, given: &'a [(Name, V)]) -> Seen<'a, V>
        ensures { AreSeen result [] }
    {
        if given.len() <= FEW {
            Seen::Few(&given[..0])
        } else {
            Seen::Many(Table::new(alloc))
        }
    }

    /// Whether a name is among them.
    pub fn has(&self, name: &[u8]) -> bool
        ensures { (given : List (List ℕ × V)) → AreSeen self.now given → result ≡ is_some (value_of given name.now) }
    {
        match self {
            Seen::Few(given) => has_name(given, name),
            Seen::Many(table) => table.get(name).is_some(),
        }
    }

    /// The same with the name behind the first `k` of a list.
    pub fn with(self, given: &'a [(Name, V)], k: usize) -> Result<Seen<'a, V>, NoMemory>
        requires { k < length given.now }
        ensures { IfOk result (λ seen. AreSeen self.entry (take k given.now) → AreSeen seen (take (k + 1) given.now)) }
    {
        match self {
            Seen::Few(_) => Ok(Seen::Few(&given[..k + 1])),
            Seen::Many(mut table) => {
                table.put(given[k].0.bytes(), true)?;
                Ok(Seen::Many(table))
            }
        }
    }
}
