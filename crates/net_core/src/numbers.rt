//! The tables of names of a netlist.
ghost use Rattle.std.specs.Prelude.{◌≡◌, ◌≤◌, ◌^◌, IfOk, map, filter_map, length};
ghost use Rattle.net_core.specs.WellFormed.{AllDiffer};
ghost use Rattle.net_core.specs.Lookup.{named_groups, named_cells};
ghost use Rattle.net_core.specs.declared.parts.Group.{Group as GroupOf};
ghost use Rattle.net_core.specs.declared.parts.Cell.{Cell as CellOf};

use crate::names::NameTable;
use crate::parts::{Cell, Group};
use ila_base::NoMemory;
use std::alloc::Global;

/// The number of each group by its name. It takes time linear in the bytes of the names.
pub fn number_groups(alloc: Global, groups: &[Group]) -> Result<NameTable, NoMemory>
    requires differ { AllDiffer (map (λ (group : GroupOf). group.name) groups.now) }
    requires few { length groups.now ≤ 2 ^ 32 }
    ensures { IfOk result (λ table. table ≡ named_groups groups.now) }
{
    let mut table = NameTable::new(alloc);
    for (number, group) in groups.iter().enumerate() {
        table.add(alloc, group.name.bytes(), number as u32)?;
    }
    Ok(table)
}

/// The number of each cell that has a name, by its name. It takes time linear in the cells and the
/// bytes of the names.
pub fn number_cells(alloc: Global, cells: &[Cell]) -> Result<NameTable, NoMemory>
    requires differ { AllDiffer (filter_map (λ (cell : CellOf). cell.name) cells.now) }
    requires few { length cells.now ≤ 2 ^ 32 }
    ensures { IfOk result (λ table. table ≡ named_cells cells.now) }
{
    let mut table = NameTable::new(alloc);
    for (number, cell) in cells.iter().enumerate() {
        match &cell.name {
            Some(name) => table.add(alloc, name.bytes(), number as u32)?,
            None => {}
        }
    }
    Ok(table)
}
