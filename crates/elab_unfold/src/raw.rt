//! The raw netlist of a design.
ghost use Rattle.std.specs.Prelude.{◌≡◌, ◌≤◌, ◌<◌, ◌^◌, length, Some, IfOk};
ghost use Rattle.ila_base.specs.declared.limits.TheConstants.{NETS};
ghost use Rattle.vlog_check.specs.Checked.{IsChecked};
ghost use Rattle.vlog_check.specs.Scope.{module_number};
ghost use Rattle.elab_count.specs.Counting.{AreCounts, count_at};
ghost use Rattle.elab_scope.specs.Nets.{AreNetsOfAll};
ghost use Rattle.elab_design.specs.Limits.{HasClock};
ghost use Rattle.elab_design.specs.Raw.{IsRawOf};
ghost use Rattle.elab_unfold.specs.Shapes.{IsPlan, shape_size, design_of};
ghost use Rattle.elab_unfold.specs.Parts.{ports_of, clock_of, IsWithin};

use crate::deep::shape_at;
use crate::read_plan::read_plan;
use crate::shape::{Plan, PortNet};
use crate::state::State;
use crate::whole::unfold_plan;
use elab_count::Counts;
use elab_scope::Nets;
use flat_settle::Raw;
use ila_base::{Items, NoMemory};
use net_core::{NetId, Port};
use std::alloc::Global;
use vlog_parse::Tree;

// The ports of a module: the first groups are those of the names of its header.
fn ports_of(alloc: Global, ports: &[PortNet]) -> Result<Items<Port>, NoMemory>
    requires { length ports.now < 2 ^ 32 }
    ensures { IfOk result (λ out. out ≡ ports_of 0 ports.now) }
{
    let mut out = Items::new(alloc);
    for (k, port) in ports.iter().enumerate() {
        out.push(Port {
            group: k as u32,
            output: port.output,
        })?;
    }
    Ok(out)
}

// The number of the first bit of the port with a name.
fn clock_of(ports: &[PortNet], name: &[u8]) -> NetId
    ensures { result ≡ clock_of ports.now name.now }
{
    for port in ports {
        if port.name == name {
            return match port.net {
                None => NetId(0),
                Some(net) => NetId(net.first),
            };
        }
    }
    NetId(0)
}

// The raw netlist of a plan.
fn raw_of(alloc: Global, plan: &Plan) -> Result<Raw, NoMemory>
    requires plan { IsPlan plan.now }
    requires few { shape_size plan.now plan.now.top ≤ NETS }
    requires checked { IsChecked plan.now.tree.now plan.now.name.now }
    requires clock { HasClock (design_of plan.now) }
    requires top { module_number plan.now.tree.now plan.now.name.now ≡ Some plan.now.top }
    ensures { IfOk result (IsRawOf (design_of plan.now)) }
{
    let State {
        groups,
        cells,
        nets: _,
        prefix: _,
    } = unfold_plan(alloc, plan)?;
    let ports = shape_at(plan, plan.top).ports.as_slice();
    Ok(Raw {
        groups,
        cells,
        ports: ports_of(alloc, ports)?,
        clock: clock_of(ports, plan.clock),
    })
}

/// A checked design with these nets unfolded: its groups, ports and cells in flat order, with a cell for each link. It
/// takes time linear in what comes out.
pub fn unfold(
    alloc: Global,
    tree: &Tree,
    name: &[u8],
    clock: &[u8],
    top: usize,
    nets: &[Nets],
    counts: &Counts,
) -> Result<Raw, NoMemory>
    requires checked { IsChecked tree.now name.now }
    requires top { module_number tree.now name.now ≡ Some top }
    requires nets { AreNetsOfAll tree.now.modules nets.now }
    requires counts { AreCounts tree.now top counts.now.table.items }
    requires few { IsWithin (count_at counts.now.table.items top) }
    requires clock { HasClock (record { tree = tree.now; top = name.now; clock = clock.now }) }
    ensures { IfOk result (IsRawOf (record { tree = tree.now; top = name.now; clock = clock.now })) }
{
    let plan = read_plan(alloc, tree, name, clock, top, nets, counts)?;
    raw_of(alloc, &plan)
}
