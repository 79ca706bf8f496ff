//! Raw cells, and why raw parts can't be settled.

use ila_base::{Items, Name, NoMemory};
use net_core::{CellKind, Group, NetId, Pin, Port};

/// A cell before the links are settled. `ins` and `outs` have the pins in the order that `CellKind`
/// tells.
#[derive(Debug, Drop)]
pub struct RawCell {
    /// Whether it is a link: one bit of an assign or of a port's connection, as a `buf` without a
    /// name (IEEE 1364-2005, 6.1 and 12.3).
    pub link: bool,
    pub kind: CellKind,
    /// The flat identifier of the instance. Only a gate may have none.
    pub name: Option<Name>,
    pub ins: Items<Pin>,
    /// The net of each output pin. `None` is an open pin.
    pub outs: Items<Option<NetId>>,
    /// What the C pin of a register or memory is on.
    pub clock: Option<Pin>,
}

/// What unfolding a hierarchy gives: the groups, ports and cells, with every link as a cell, and the
/// clock port's bit.
#[derive(Debug, Drop)]
pub struct Raw {
    pub groups: Items<Group>,
    pub cells: Items<RawCell>,
    pub ports: Items<Port>,
    pub clock: NetId,
}

/// Why raw parts can't be settled, with a flat identifier or the name of a net bit, each time the first
/// in flat order.
#[derive(Debug, Drop)]
pub enum Unsettled {
    /// An identifier or bit has the name of an earlier one.
    Duplicate(Name),
    /// A net bit has two sources.
    ManyDrivers(Name),
    /// A net bit is read and not driven.
    Undriven(Name),
    /// A clock pin is on a net bit outside the clock set. The name is `C` where only constants are on
    /// such pins.
    SecondClock(Name),
    /// A bit of the clock set is read as data.
    ClockAsData(Name),
    NoMemory,
}

impl From<NoMemory> for Unsettled {
    ghost use Rattle.std.specs.Prelude.{◌≡◌};
    ghost use Rattle.flat_settle.specs.declared.raw.Unsettled.TheVariants as faults;

    ghost from_gives = { λ _ fault. fault ≡ faults.NoMemory };

    fn from(_failed: NoMemory) -> Unsettled {
        Unsettled::NoMemory
    }
}
