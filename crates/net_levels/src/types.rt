//! Level numbers, and why a netlist has none.
ghost use Rattle.std.specs.Prelude.{◌≡◌, ◌<◌, length, slice_index};

use ila_base::{Items, NoMemory};
use net_core::NetId;
use std::marker::Model;

/// A number for each net of a flat netlist, above those of all nets on which the net depends
/// combinationally. Contracts see it as the list of the numbers.
#[derive(Drop)]
pub struct Levels {
    numbers: Vec<u32>,
}

impl Model for Levels {
    ghost use Rattle.std.specs.Prelude.{List, ℕ};

    ghost Value = { List ℕ };

    ghost view = { λ levels. levels.numbers.items };
}

impl Levels {
    // The levels with these numbers.
    pub(crate) fn from_numbers(numbers: Vec<u32>) -> Levels
        ensures { result ≡ numbers.items }
    {
        Levels { numbers }
    }

    /// The number of a net.
    pub fn number(&self, net: NetId) -> u32
        requires { net.0 < length self.now }
        ensures { result ≡ slice_index self.now net.0 }
    {
        self.numbers[net.0 as usize]
    }
}

/// Why there are no level numbers.
#[derive(Debug, Drop)]
pub enum LevelFault {
    /// A combinational cycle: distinct nets, each of which the next depends on, and the first on the
    /// last. The first is the least in flat order.
    Loop(Items<NetId>),
    NoMemory,
}

impl From<NoMemory> for LevelFault {
    ghost use Rattle.std.specs.Prelude.{◌≡◌};
    ghost use Rattle.net_levels.specs.declared.types.LevelFault.TheVariants as faults;

    ghost from_gives = { λ _ fault. fault ≡ faults.NoMemory };

    fn from(_failed: NoMemory) -> LevelFault {
        LevelFault::NoMemory
    }
}
