//! One netlist that settles: a link from an input to an output.
ghost use Rattle.std.specs.Prelude.{◌≡◌, [], ◌∷◌, None, IfOk};
ghost use Rattle.flat_settle.specs.Sample.{sample_link, sample_raw};

use crate::{Raw, RawCell, Unsettled, settle};
use ila_base::{Items, Name, NoMemory};
use net_core::{CellKind, Flat, GateCode, Group, NetId, Pin, Port, net_names};
use std::alloc::Global;
use std::test::Fail;

// A scalar.
fn scalar(alloc: Global, name: &[u8], net: u32) -> Result<Group, NoMemory>
    ensures { IfOk result (λ group. group ≡ record { name = name.now; range = None; bits = record { 0 = net } ∷ [] }) }
{
    Ok(Group {
        name: Name::new(alloc, name)?,
        range: None,
        bits: Items::from_slice(alloc, &[NetId(net)])?,
    })
}

// A link from net 1 to net 2.
fn link(alloc: Global) -> Result<RawCell, NoMemory>
    ensures { IfOk result (λ cell. cell ≡ sample_link) }
{
    Ok(RawCell {
        link: true,
        kind: CellKind::Gate(GateCode::Buf),
        name: None,
        ins: Items::from_slice(alloc, &[Pin::Net(NetId(1))])?,
        outs: Items::from_slice(alloc, &[Some(NetId(2))])?,
        clock: None,
    })
}

// The inputs `c` and `a`, the output `y`, and a link from `a` to `y`.
fn sample(alloc: Global) -> Result<Raw, NoMemory>
    ensures { IfOk result (λ raw. raw ≡ sample_raw) }
{
    let mut groups = Items::new(alloc);
    groups.push(scalar(alloc, b"c", 0)?)?;
    groups.push(scalar(alloc, b"a", 1)?)?;
    groups.push(scalar(alloc, b"y", 2)?)?;
    let mut cells = Items::new(alloc);
    cells.push(link(alloc)?)?;
    let ports = [
        Port {
            group: 0,
            output: false,
        },
        Port {
            group: 1,
            output: false,
        },
        Port {
            group: 2,
            output: true,
        },
    ];
    Ok(Raw {
        groups,
        cells,
        ports: Items::from_slice(alloc, &ports)?,
        clock: NetId(0),
    })
}

// Its netlist.
fn settled(alloc: Global) -> Result<Flat, Unsettled> {
    let raw = sample(alloc)?;
    settle(alloc, raw)
}

#[test]
fn settles_a_link(rt: HostRuntime) -> Result<(), Fail> {
    match settled(rt.alloc()) {
        Ok(flat) => {
            assert!(rt; flat.cells().len() == 1);
            assert!(rt; flat.clock().0 == 0);
            assert!(rt; flat.is_driven(NetId(2)));
        }
        Err(_fault) => assert!(rt; false),
    }
    Ok(())
}

// The name of its last net bit.
fn last_name(alloc: Global) -> Result<Items<Name>, NoMemory> {
    let raw = sample(alloc)?;
    net_names(alloc, raw.groups.as_slice(), &[NetId(2)])
}

#[test]
fn names_a_net_bit(rt: HostRuntime) -> Result<(), Fail> {
    match last_name(rt.alloc()) {
        Ok(names) => {
            assert!(rt; names.len() == 1);
            for name in names.as_slice() {
                assert!(rt; name.bytes() == b"y".as_slice());
            }
        }
        Err(_fault) => assert!(rt; false),
    }
    Ok(())
}
