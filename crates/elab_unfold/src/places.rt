ghost use Rattle.std.specs.Prelude.{◌≡◌, ◌<◌, ◌^◌, map, IfOk};
ghost use Rattle.elab_scope.specs.Nets.{named_nets};
ghost use Rattle.elab_unfold.specs.Places.{ArePlaces, rows_width};

use ila_base::NoMemory;
use std::alloc::Global;
use vlog_check::{Table, range_width};
use vlog_parse::{Module, Range};

/// A net of a module: its range, and how many bits the nets before it have.
#[derive(Clone, Copy, Debug)]
pub struct Net {
    pub range: Option<Range>,
    pub first: u32,
}

/// Where the bits of a module's nets stand among all of them.
#[derive(Drop)]
pub struct Places<'a> {
    pub holder: &'a Module,
    pub nets: Table<'a, Net>,
}

/// The places of the nets of a module, which are given in their order.
pub fn place_nets<'a>(
    alloc: Global,
    holder: &'a Module,
    order: &[(&'a [u8], Option<Range>)],
) -> Result<Places<'a>, NoMemory>
    requires order { map (λ net. (net.0.now, net.1)) order.now ≡ named_nets holder.now }
    requires room { rows_width (named_nets holder.now) < 2 ^ 32 }
    ensures places { IfOk result ArePlaces }
    ensures own { IfOk result (λ places. places.holder.now ≡ holder.now) }
{
    let mut nets = Table::new(alloc);
    let mut first: u32 = 0;
    for row in order {
        let net = Net {
            range: row.1,
            first,
        };
        nets.put(row.0, net)?;
        first += range_width(row.1) as u32;
    }
    Ok(Places { holder, nets })
}
