ghost use Rattle.std.specs.Prelude.{◌≡◌, ◌+◌, ◌<◌, ◌^◌, ◌++◌, [], ◌∷◌, map, IfOk, OnOk};
ghost use Rattle.std.specs.List.{range_with_len};
ghost use Rattle.std.specs.Option.{option_map};
ghost use Rattle.vlog_check.specs.Scope.{range_width};
ghost use Rattle.elab_design.specs.Raw.{net_id, pair_of};
ghost use Rattle.elab_unfold.specs.Places.{group_from, groups_from, rows_width};

use crate::prefix::name_behind;
use crate::state::State;
use ila_base::{Items, NoMemory};
use net_core::{Group, NetId};
use std::alloc::Global;
use vlog_check::range_width;
use vlog_parse::Range;

fn ends_of(range: Option<Range>) -> Option<(u32, u32)>
    ensures { result ≡ option_map pair_of range }
{
    match range {
        None => None,
        Some(range) => Some((range.left, range.right)),
    }
}

// Consecutive numbers of nets.
fn numbers_from(alloc: Global, first: u32, count: u32) -> Result<Items<NetId>, NoMemory>
    requires { first + count < 2 ^ 32 }
    ensures { IfOk result (λ bits. bits ≡ map net_id (range_with_len first count)) }
{
    let mut bits = Items::new(alloc);
    for k in 0..count {
        bits.push(NetId(first + k))?;
    }
    Ok(bits)
}

// Adds a net, whose bits have the next numbers.
fn push_group(
    alloc: Global,
    name: &[u8],
    range: Option<Range>,
    state: &mut State,
) -> Result<(), NoMemory>
    requires { state.old.nets + range_width range < 2 ^ 32 }
    ensures prefix { OnOk result (state.new.prefix.items ≡ state.old.prefix.items) }
    ensures cells { OnOk result (state.new.cells ≡ state.old.cells) }
    ensures nets { OnOk result (state.new.nets ≡ state.old.nets + range_width range) }
    ensures groups { OnOk result (state.new.groups ≡ state.old.groups ++ group_from state.old.prefix.items state.old.nets (name.now, range) ∷ []) }
{
    let width = range_width(range) as u32;
    let name = name_behind(alloc, &mut state.prefix, name)?;
    let bits = numbers_from(alloc, state.nets, width)?;
    let group = Group {
        name,
        range: ends_of(range),
        bits,
    };
    state.groups.push(group)?;
    state.nets += width;
    Ok(())
}

/// Adds the nets of a module.
pub fn push_groups(
    alloc: Global,
    order: &[(&[u8], Option<Range>)],
    state: &mut State,
) -> Result<(), NoMemory>
    requires { state.old.nets + rows_width (map (λ net. (net.0.now, net.1)) order.now) < 2 ^ 32 }
    ensures prefix { OnOk result (state.new.prefix.items ≡ state.old.prefix.items) }
    ensures cells { OnOk result (state.new.cells ≡ state.old.cells) }
    ensures nets { OnOk result (state.new.nets ≡ state.old.nets + rows_width (map (λ net. (net.0.now, net.1)) order.now)) }
    ensures groups { OnOk result (state.new.groups ≡ state.old.groups ++ groups_from state.old.prefix.items state.old.nets (map (λ net. (net.0.now, net.1)) order.now)) }
{
    for row in order {
        let name = row.0;
        let range = row.1;
        push_group(alloc, name, range, state)?;
    }
    Ok(())
}
