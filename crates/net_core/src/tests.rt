//! The names of primitives, by their data sheets, and of a vector's bits.
use crate::{
    CellKind, GateCode, Primitive, Role, index_at, indexed, parameters, port_named, ports,
    primitive_named, split_bit_name,
};
use ila_base::NoMemory;

#[test]
fn primitives_by_name(rt: HostRuntime) {
    assert!(rt; primitive_named(b"FDCE") == Some(Primitive::Fdce));
    assert!(rt; primitive_named(b"CARRY4") == Some(Primitive::Carry4));
    assert!(rt; primitive_named(b"and").is_none());
    assert!(rt; ports(Primitive::Gnd).len() == 1);
    assert!(rt; parameters(Primitive::Mem).len() == 2);
}

#[test]
fn ports_by_name(rt: HostRuntime) {
    match port_named(Primitive::Fdpe, b"C") {
        Some(port) => assert!(rt; port.role == Role::Clock),
        None => assert!(rt; false),
    }
    assert!(rt; port_named(Primitive::Fdpe, b"CLR").is_none());
}

#[test]
fn kinds(rt: HostRuntime) {
    assert!(rt; CellKind::Gate(GateCode::Buf).is_clock_buffer());
    assert!(rt; !CellKind::Inv.is_clock_buffer());
    assert!(rt; CellKind::Mem { aw: 3, dw: 5 }.content_size() == 40);
}

#[test]
fn bits_of_a_vector(rt: HostRuntime) -> Result<(), NoMemory> {
    assert!(rt; index_at(7, 0, 2) == 5);
    assert!(rt; index_at(4, 9, 2) == 6);
    let name = indexed(rt.alloc(), b"bus", 12)?;
    assert!(rt; name.bytes() == b"bus[12]".as_slice());
    match split_bit_name("bus[12]") {
        Some((front, index)) => {
            assert!(rt; front == "bus");
            assert!(rt; index == 12);
        }
        None => assert!(rt; false),
    }
    Ok(())
}
