ghost use Rattle.std.specs.Prelude.{◌≡◌, ℕ, ◌<◌, IfOk, length};
ghost use Rattle.net_core.specs.Netlist.{HasDriver};
ghost use Rattle.net_core.specs.Drivers.{IsOutOn, NamesOutputs, AreDrivers};

use crate::parts::{Cell, NetId};
use ila_base::NoMemory;
use std::alloc::Global;

/// An output pin, by its number in its cell and the cell's.
#[derive(Clone, Copy, Debug, Drop)]
pub struct Output {
    pub cell: usize,
    pub pin: usize,
}

// Names the output pins of a cell for their nets.
fn feed(table: &mut Vec<Option<Output>>, outs: &[Option<NetId>], cell: usize)
    requires { (k n : ℕ) → IsOutOn outs.now k n → n < length table.old.items }
    ensures { NamesOutputs outs.now cell (length outs.now) table.old.items table.new.items }
{
    for (pin, out) in outs.iter().enumerate() {
        match out {
            Some(net) => table[net.0 as usize] = Some(Output { cell, pin }),
            None => {}
        }
    }
}

/// For each net the output pin that drives it.
pub fn driver_table(
    alloc: Global,
    count: usize,
    cells: &[Cell],
) -> Result<Vec<Option<Output>>, NoMemory>
    requires { (n : ℕ) → HasDriver cells.now n → n < count }
    ensures size { IfOk result (λ table. length table.items ≡ count) }
    ensures named { IfOk result (λ table. AreDrivers cells.now (length cells.now) table.items) }
{
    let mut table = vec![in alloc; None; count]?;
    for (number, cell) in cells.iter().enumerate() {
        feed(&mut table, cell.outs.as_slice(), number);
    }
    Ok(table)
}
