//! What the cells do, by their data sheets. The places 0 and 1 hold the constants, so that a list of
//! pins is a list of bits.
use crate::{next_bit, output};
use net_core::{CellKind, GateCode};

#[test]
fn a_carry_chain(rt: HostRuntime) {
    let bits = [false, true];
    // CI 0, CYINIT 1, DI 0000 and S 0011 give CO 0011 and O 0100.
    let pins = [0, 1, 0, 0, 0, 0, 0, 0, 1, 1];
    assert!(rt; !output(CellKind::Carry4, &bits, &pins, false, 0));
    assert!(rt; !output(CellKind::Carry4, &bits, &pins, false, 1));
    assert!(rt; output(CellKind::Carry4, &bits, &pins, false, 2));
    assert!(rt; output(CellKind::Carry4, &bits, &pins, false, 3));
    assert!(rt; !output(CellKind::Carry4, &bits, &pins, false, 4));
    assert!(rt; output(CellKind::Carry4, &bits, &pins, false, 5));
    assert!(rt; !output(CellKind::Carry4, &bits, &pins, false, 6));
    assert!(rt; !output(CellKind::Carry4, &bits, &pins, false, 7));
}

#[test]
fn outputs(rt: HostRuntime) {
    let bits = [false, true];
    // Bit I0 + 2*I1 + 4*I2 of INIT.
    let lut = CellKind::Lut { n: 3, init: 2 };
    assert!(rt; output(lut, &bits, &[1, 0, 0], false, 0));
    assert!(rt; !output(lut, &bits, &[0, 0, 1], false, 0));
    // I1 where S is 1, else I0.
    assert!(rt; output(CellKind::Muxf7, &bits, &[0, 1, 1], false, 0));
    assert!(rt; !output(CellKind::Muxf8, &bits, &[0, 1, 0], false, 0));
    assert!(rt; output(CellKind::Gate(GateCode::Xor), &bits, &[1, 1, 1], false, 0));
    assert!(rt; !output(CellKind::Gate(GateCode::Nand), &bits, &[1, 1], false, 0));
    // CE, CLR, D: 0 where CLR is 1. CE, D, PRE: 1 where PRE is 1.
    assert!(rt; !output(CellKind::Fdce(false), &bits, &[1, 1, 1], true, 0));
    assert!(rt; output(CellKind::Fdpe(false), &bits, &[1, 0, 1], false, 0));
}

#[test]
fn next_bits(rt: HostRuntime) {
    let bits = [false, true];
    // CE, D, R: R goes before CE.
    assert!(rt; !next_bit(CellKind::Fdre(false), &bits, &[0, 1, 1], true));
    assert!(rt; next_bit(CellKind::Fdre(false), &bits, &[1, 1, 0], false));
    assert!(rt; !next_bit(CellKind::Fdre(false), &bits, &[0, 1, 0], false));
    // CE, D, S.
    assert!(rt; next_bit(CellKind::Fdse(true), &bits, &[0, 0, 1], false));
    // CE, CLR, D.
    assert!(rt; next_bit(CellKind::Fdce(false), &bits, &[1, 0, 1], false));
    // CE, D, PRE.
    assert!(rt; !next_bit(CellKind::Fdpe(true), &bits, &[1, 0, 0], true));
}
