ghost use Rattle.std.specs.Prelude.{◌≡◌, ◌↔◌, IsTrue, IfOk, IfSome, IfNone, IsSome, Some, slice_get};
ghost use Rattle.net_core.specs.Netlist.{parts_of, is_clock, is_driven, IsClock, IsDriven, IsIn};
ghost use Rattle.net_core.specs.WellFormed.{IsFlat, IsWellFormed, indexed_name, range_indices};
ghost use Rattle.net_core.specs.WellFormed.{amount};
ghost use Rattle.ila_base.specs.declared.refusal.LimitKind.TheVariants as limits;
ghost use Rattle.net_core.specs.Lookup.{IsGroupNamed, IsCellNamed, IsNetNamed};

use crate::bit_split::split_bit_name;
use crate::limits::{count_name_bytes, count_nets, count_pins};
use crate::lists::item_at;
use crate::names::NameTable;
use crate::numbers::{number_cells, number_groups};
use crate::parts::{Cell, CellId, Group, NetId, Port};
use crate::tables::{clock_table, driven_table};
use ila_base::NoMemory;
use std::alloc::Global;
use std::marker::Model;

/// A flat netlist: one module without instances of modules (IEEE 1364-2005, 12), as its nets, cells
/// and ports. It is well formed by its type: each net bit has at most one source and each that is
/// read has one, there is one clock, names differ, and counts are within the limits.
#[derive(Drop)]
pub struct Flat {
    groups: Vec<Group>,
    cells: Vec<Cell>,
    ports: Vec<Port>,
    clock: NetId,
    clocked: Vec<bool>,
    driven: Vec<bool>,
    group_numbers: NameTable,
    cell_numbers: NameTable,
}

impl Model for Flat {
    ghost use Rattle.net_core.specs.Netlist.{Netlist};
    ghost use Rattle.net_core.specs.Lookup.{IsKept};

    ghost Value = { Netlist };

    ghost view = { λ flat. record { groups = flat.groups.items; cells = flat.cells.items; ports = flat.ports.items; clock = flat.clock; clocked = flat.clocked.items; driven = flat.driven.items } };

    ghost invariant = { λ flat. IsKept (record { groups = flat.groups.items; cells = flat.cells.items; ports = flat.ports.items; clock = flat.clock; clocked = flat.clocked.items; driven = flat.driven.items }) flat.group_numbers flat.cell_numbers };
}

impl Flat {
    /// The netlist of these parts, which have to be well formed. It takes time linear in the cells,
    /// pins, net bits and bytes of names.
    pub fn from_parts(
        alloc: Global,
        groups: Vec<Group>,
        cells: Vec<Cell>,
        ports: Vec<Port>,
        clock: NetId,
    ) -> Result<Flat, NoMemory>
        requires { IsWellFormed (record { groups = groups.items; cells = cells.items; ports = ports.items; clock = clock }) }
        ensures { IfOk result (λ flat. parts_of flat ≡ record { groups = groups.items; cells = cells.items; ports = ports.items; clock = clock }) }
    {
        let count = count_nets(groups.as_slice());
        let group_numbers = number_groups(alloc, groups.as_slice())?;
        let cell_numbers = number_cells(alloc, cells.as_slice())?;
        let clocked = clock_table(alloc, count as u32, cells.as_slice(), clock)?;
        let driven = driven_table(
            alloc,
            count,
            groups.as_slice(),
            cells.as_slice(),
            ports.as_slice(),
        )?;
        Ok(Flat {
            groups,
            cells,
            ports,
            clock,
            clocked,
            driven,
            group_numbers,
            cell_numbers,
        })
    }

    /// The groups of nets. Net numbers rise through them from 0, and the ports' groups come first,
    /// in port order.
    pub fn groups(&self) -> &[Group]
        ensures value { result.now ≡ self.now.groups }
        ensures kept { IsFlat self.now }
    {
        self.groups.as_slice()
    }

    /// The cells.
    pub fn cells(&self) -> &[Cell]
        ensures value { result.now ≡ self.now.cells }
        ensures kept { IsFlat self.now }
    {
        self.cells.as_slice()
    }

    /// The ports of the top, in the order of its header.
    pub fn ports(&self) -> &[Port]
        ensures value { result.now ≡ self.now.ports }
        ensures kept { IsFlat self.now }
    {
        self.ports.as_slice()
    }

    /// The clock net of the first cell that has one, or the clock port's bit where no cell has.
    pub fn clock(&self) -> NetId
        ensures value { result ≡ self.now.clock }
        ensures kept { IsFlat self.now }
    {
        self.clock
    }

    /// How many cells there are.
    pub fn cell_count(&self) -> usize
        ensures { result ≡ amount limits.Cells (parts_of self.now) }
    {
        self.cells.len()
    }

    /// How many pins the cells have: input pins, output pins, open ones too, and clock pins. It takes
    /// time linear in the cells.
    pub fn pin_count(&self) -> usize
        ensures { result ≡ amount limits.Pins (parts_of self.now) }
    {
        count_pins(self.cells.as_slice())
    }

    /// How many net bits there are. It takes time linear in the groups.
    pub fn net_count(&self) -> usize
        ensures { result ≡ amount limits.Nets (parts_of self.now) }
    {
        count_nets(self.groups.as_slice())
    }

    /// How many bytes all flat identifiers have. It takes time linear in the groups and cells.
    pub fn name_bytes(&self) -> usize
        ensures { result ≡ amount limits.AllNames (parts_of self.now) }
    {
        count_name_bytes(self.groups.as_slice(), self.cells.as_slice())
    }

    /// Whether the net bit is in the clock set: the clock port's bit and what IBUF, BUFG and buf
    /// make of it.
    pub fn is_clock(&self, net: NetId) -> bool
        ensures value { result ≡ is_clock self.now net.0 }
        ensures means { IsTrue result ↔ IsClock (parts_of self.now) net.0 }
    {
        self.clocked.get(net.0 as usize).copied().unwrap_or(false)
    }

    /// Whether the net bit is driven: a bit of a top's input or on an output pin of a cell.
    pub fn is_driven(&self, net: NetId) -> bool
        ensures value { result ≡ is_driven self.now net.0 }
        ensures means { IsTrue result ↔ IsDriven (parts_of self.now) net.0 }
    {
        self.driven.get(net.0 as usize).copied().unwrap_or(false)
    }

    /// The group with this flat identifier, or `None` where no group has it.
    pub fn group(&self, name: &str) -> Option<&Group>
        ensures found { IfSome result (λ group. IsGroupNamed self.now name.now group.now) }
        ensures missing { IfNone result ((group : _) → ¬ IsGroupNamed self.now name.now group) }
    {
        self.group_named(name.as_bytes())
    }

    /// The cell with this flat identifier, or `None` where no cell has it.
    pub fn cell(&self, name: &str) -> Option<CellId>
        ensures found { IfSome result (λ cell. IsCellNamed self.now name.now cell.0) }
        ensures missing { IfNone result ((number : _) → ¬ IsCellNamed self.now name.now number) }
    {
        let number = self.cell_numbers.number_of(name.as_bytes())?;
        Some(CellId(number))
    }

    /// The net bit with this flat name, as `name` of a scalar or `name[3]` of a vector's bit, or
    /// `None` where no net bit has it.
    pub fn find(&self, name: &str) -> Option<NetId>
        ensures found { IfSome result (λ net. IsNetNamed self.now name.now net.0) }
        ensures missing { IfNone result ((number : _) → ¬ IsNetNamed self.now name.now number) }
    {
        let scalar = self.scalar_named(name.as_bytes());
        if scalar.is_some() {
            return scalar;
        }
        let (front, index) = split_bit_name(name)?;
        self.vector_bit(front.as_bytes(), index)
    }

    // The bit of the scalar with this name.
    fn scalar_named(&self, name: &[u8]) -> Option<NetId>
        ensures found { IfSome result (λ net. IsNetNamed self.now name.now net.0) }
        ensures missing { IfNone result ((group : _) → IsGroupNamed self.now name.now group → IsSome group.range) }
        ensures kept { IsFlat self.now }
    {
        let group = self.group_named(name)?;
        match group.range {
            None => group.bits.get(0).copied(),
            Some(_) => None,
        }
    }

    // The bit with this index of the vector with this name.
    fn vector_bit(&self, front: &[u8], index: u32) -> Option<NetId>
        ensures found { IfSome result (λ net. IsNetNamed self.now (indexed_name front.now index) net.0) }
        ensures missing { IfNone result ((group : _) (range : _) → IsGroupNamed self.now front.now group → group.range ≡ Some range → ¬ IsIn (range_indices range.0 range.1) index) }
    {
        let group = self.group_named(front)?;
        let (left, right) = group.range?;
        let place = place_in_range(left, right, index)?;
        group.bits.get(place).copied()
    }

    // The group with this flat identifier.
    fn group_named(&self, name: &[u8]) -> Option<&Group>
        ensures found { IfSome result (λ group. IsGroupNamed self.now name.now group.now) }
        ensures missing { IfNone result ((group : _) → ¬ IsGroupNamed self.now name.now group) }
        ensures kept { IsFlat self.now }
    {
        let number = self.group_numbers.number_of(name)?;
        item_at(self.groups.as_slice(), number as usize)
    }
}

// How many bits of a vector stand left of the one with this index.
fn place_in_range(left: u32, right: u32, index: u32) -> Option<usize>
    ensures found { IfSome result (λ place. slice_get (range_indices left right) place ≡ Some index) }
    ensures missing { IfNone result (¬ IsIn (range_indices left right) index) }
{
    if right <= index && index <= left {
        Some((left - index) as usize)
    } else if left <= index && index <= right {
        Some((index - left) as usize)
    } else {
        None
    }
}
