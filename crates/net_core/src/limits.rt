//! How large a flat netlist is.
ghost use Rattle.std.specs.Prelude.{◌≡◌, ◌+◌, ◌<◌, ◌^◌, length, sum_by};
ghost use Rattle.std.specs.Option.{option_map_or};
ghost use Rattle.net_core.specs.WellFormed.{pin_count, group_bytes, cell_bytes};
ghost use Rattle.net_core.specs.Netlist.{net_count};

use crate::parts::{Cell, Group};

/// How many net bits the groups have.
pub fn count_nets(groups: &[Group]) -> usize
    requires { net_count groups.now < 2 ^ 32 }
    ensures { result ≡ net_count groups.now }
{
    groups.iter().map(|group| group.bits.len()).sum()
}

// How many pins a cell has.
fn count_cell_pins(cell: &Cell) -> usize
    requires { pin_count cell.now < 2 ^ 32 }
    ensures { result ≡ pin_count cell.now }
{
    let clocks = if cell.clock.is_some() { 1 } else { 0 };
    cell.ins.len() + cell.outs.len() + clocks
}

/// How many pins the cells have.
pub fn count_pins(cells: &[Cell]) -> usize
    requires { sum_by pin_count cells.now < 2 ^ 32 }
    ensures { result ≡ sum_by pin_count cells.now }
{
    let mut total = 0usize;
    for cell in cells {
        total += count_cell_pins(cell);
    }
    total
}

// How many bytes the name of a cell has, and none where it has no name.
fn count_name(cell: &Cell) -> usize
    ensures { result ≡ cell_bytes cell.now }
{
    match &cell.name {
        Some(name) => name.bytes().len(),
        None => 0,
    }
}

// How many bytes the names of the groups have.
fn count_group_bytes(groups: &[Group]) -> usize
    requires { sum_by group_bytes groups.now < 2 ^ 32 }
    ensures { result ≡ sum_by group_bytes groups.now }
{
    let mut total = 0usize;
    for group in groups {
        total += group.name.bytes().len();
    }
    total
}

// How many bytes the names of the cells have.
fn count_cell_bytes(cells: &[Cell]) -> usize
    requires { sum_by cell_bytes cells.now < 2 ^ 32 }
    ensures { result ≡ sum_by cell_bytes cells.now }
{
    let mut total = 0usize;
    for cell in cells {
        total += count_name(cell);
    }
    total
}

/// How many bytes the names of the groups and cells have.
pub fn count_name_bytes(groups: &[Group], cells: &[Cell]) -> usize
    requires { sum_by group_bytes groups.now + sum_by cell_bytes cells.now < 2 ^ 32 }
    ensures { result ≡ sum_by group_bytes groups.now + sum_by cell_bytes cells.now }
{
    count_group_bytes(groups) + count_cell_bytes(cells)
}
