//! The level numbers of a netlist.
ghost use Rattle.std.specs.Prelude.{◌≡◌, IfOk, IfErr, OnOk};
ghost use Rattle.net_core.specs.Netlist.{numbers};
ghost use Rattle.net_core.specs.Cycle.{HasCycle};
ghost use Rattle.net_levels.specs.Levels.{AreLevels, HasOneRun, IsFaultOf};

use crate::sources::graph_of;
use crate::types::{LevelFault, Levels};
use ila_base::{Items, NoMemory};
use net_core::{Flat, NetId, driver_table};
use net_graph::{Order, ranks};
use std::alloc::Global;

// The nets with these numbers.
fn nets_of(alloc: Global, nodes: &[u32]) -> Result<Items<NetId>, NoMemory>
    ensures { IfOk result (λ nets. numbers nets ≡ nodes.now) }
{
    let mut nets = Items::new(alloc);
    for node in nodes {
        nets.push(NetId(*node))?;
    }
    Ok(nets)
}

/// The level numbers of a flat netlist, or a combinational cycle where it has one. An output depends
/// on its inputs as the cell table tells, output by output: a register's on none but CLR of FDCE and
/// PRE of FDPE. Where there are level numbers there is exactly one run over every list of input
/// rows. It takes time linear in the cells and pins, and no recursion.
pub fn levels(alloc: Global, flat: &Flat) -> Result<Levels, LevelFault>
    ensures levels { IfOk result (λ levels. AreLevels flat.now levels) }
    ensures no_cycle { OnOk result (¬ HasCycle flat.now) }
    ensures one_run { OnOk result (HasOneRun flat.now) }
    ensures fault { IfErr result (IsFaultOf flat.now) }
{
    let table = driver_table(alloc, flat.net_count(), flat.cells())?;
    let graph = graph_of(alloc, flat, table.as_slice())?;
    match ranks(alloc, &graph)? {
        Order::Ranked(numbers) => Ok(Levels::from_numbers(numbers)),
        Order::Cycle(nodes) => Err(LevelFault::Loop(nets_of(alloc, nodes.as_slice())?)),
    }
}
