//! What one cell does: the bit of an output pin, and the next stored bit of a flip-flop.
ghost use Rattle.std.specs.Prelude.{◌≡◌, ◌≤◌, ◌<◌, ◌^◌, ◌==◌, ◌&&◌, ◌||◌, false, length, reverse, if◌then◌else◌};
ghost use Rattle.std.specs.Bool.{xor};
ghost use Rattle.std.specs.Int.{bit_at as bit_at_number};
ghost use Rattle.ila_base.specs.declared.limits.TheConstants.{ADDRESS_BITS};
ghost use Rattle.net_core.specs.declared.kind.GateCode.TheVariants.{And, Or, Xor};
ghost use Rattle.net_core.specs.CellTable as table;
ghost use Rattle.clock_sim.specs.Reading.{bit_at_place, read_all, HasPins, is_memory};

use net_core::{CellKind, GateCode};

/// The bit at a place.
pub fn bit_at(values: &[bool], place: u32) -> bool
    ensures { result ≡ bit_at_place values.now place }
{
    values.get(place as usize).copied().unwrap_or(false)
}

/// The bit with a number.
pub fn bit_number(bits: &[bool], number: usize) -> bool
    ensures { result ≡ bit_at_place bits.now number }
{
    bits.get(number).copied().unwrap_or(false)
}

/// The bit of input pin `pin`, or 0 where there is no such pin.
pub fn read(values: &[bool], pins: &[u32], pin: usize) -> bool
    ensures { result ≡ table.pin (read_all values.now pins.now) pin }
{
    match pins.get(pin) {
        Some(place) => bit_at(values, *place),
        None => false,
    }
}

fn both(a: bool, b: bool) -> bool
    ensures { result ≡ (a && b) }
{
    a && b
}

fn either(a: bool, b: bool) -> bool
    ensures { result ≡ (a || b) }
{
    a || b
}

fn differ(a: bool, b: bool) -> bool
    ensures { result ≡ xor a b }
{
    a != b
}

// Whether all pins are 1.
fn all(values: &[bool], pins: &[u32]) -> bool
    ensures { result ≡ table.gate_output And (read_all values.now pins.now) }
{
    let mut all = true;
    for place in pins {
        all = both(all, bit_at(values, *place));
    }
    all
}

// Whether some pin is 1.
fn any(values: &[bool], pins: &[u32]) -> bool
    ensures { result ≡ table.gate_output Or (read_all values.now pins.now) }
{
    let mut any = false;
    for place in pins {
        any = either(any, bit_at(values, *place));
    }
    any
}

// Whether an odd number of pins is 1.
fn odd(values: &[bool], pins: &[u32]) -> bool
    ensures { result ≡ table.gate_output Xor (read_all values.now pins.now) }
{
    pins.iter().filter(|place| bit_at(values, **place)).count() % 2 == 1
}

/// The output of a gate (IEEE 1364-2005, 7.2 and 7.3).
pub fn gate_output(code: GateCode, values: &[bool], pins: &[u32]) -> bool
    ensures { result ≡ table.gate_output code (read_all values.now pins.now) }
{
    match code {
        GateCode::And => all(values, pins),
        GateCode::Nand => !all(values, pins),
        GateCode::Or => any(values, pins),
        GateCode::Nor => !any(values, pins),
        GateCode::Xor => odd(values, pins),
        GateCode::Xnor => !odd(values, pins),
        GateCode::Buf => read(values, pins, 0),
        GateCode::Not => !read(values, pins, 0),
    }
}

// The number that the pins are in binary, the last pin the highest bit.
fn address(values: &[bool], pins: &[u32]) -> u32
    requires { length pins.now ≤ 6 }
    ensures number { result ≡ table.binary (reverse (read_all values.now pins.now)) }
    ensures small { result < 64 }
{
    let mut value = 0u32;
    for pin in (0..pins.len()).rev() {
        value = 2 * value + u32::from(bit_at(values, pins[pin]));
    }
    value
}

/// The number that the pins are in binary, the first pin the highest bit.
pub fn row_number(values: &[bool], pins: &[u32]) -> u32
    requires { length pins.now ≤ ADDRESS_BITS }
    ensures number { result ≡ table.binary (read_all values.now pins.now) }
    ensures small { result < 2 ^ length pins.now }
{
    let mut value = 0u32;
    for pin in pins {
        value = 2 * value + u32::from(bit_at(values, *pin));
    }
    value
}

/// Bit `pins` of a LUT's table, the first pin the lowest bit of the number.
pub fn lut_output(init: u64, values: &[bool], pins: &[u32]) -> bool
    requires { length pins.now ≤ 6 }
    ensures { result ≡ (bit_at_number init (table.binary (reverse (read_all values.now pins.now))) == 1) }
{
    let index = address(values, pins);
    (init >> index) % 2 == 1
}

// The carry into a stage of CARRY4.
fn carry(values: &[bool], pins: &[u32], stage: usize) -> bool
    requires { stage ≤ 4 }
    ensures { result ≡ table.carry (read_all values.now pins.now) stage }
{
    let mut carried = read(values, pins, 0) || read(values, pins, 1);
    for below in 0..stage {
        if !read(values, pins, 9 - below) {
            carried = read(values, pins, 5 - below);
        }
    }
    carried
}

// An output of CARRY4: CO[3:0], O[3:0].
fn carry_output(values: &[bool], pins: &[u32], out: usize) -> bool
    requires { out < 8 }
    ensures { result ≡ table.carry_output (read_all values.now pins.now) out }
{
    if out < 4 {
        carry(values, pins, 4 - out)
    } else {
        differ(read(values, pins, out + 2), carry(values, pins, 7 - out))
    }
}

/// The bit of output pin `out` of a cell, from the places of its input pins and, for a flip-flop, its
/// stored bit.
pub fn output(kind: CellKind, values: &[bool], pins: &[u32], stored: bool, out: usize) -> bool
    requires { HasPins kind (length pins.now) out }
    ensures { result ≡ table.output kind (read_all values.now pins.now) (λ _. stored) out }
{
    match kind {
        CellKind::Gate(code) => gate_output(code, values, pins),
        CellKind::Lut { n: _, init } => lut_output(init, values, pins),
        CellKind::Inv => !read(values, pins, 0),
        CellKind::Ibuf | CellKind::Obuf | CellKind::Bufg => read(values, pins, 0),
        CellKind::Gnd => false,
        CellKind::Vcc => true,
        CellKind::Muxf7 | CellKind::Muxf8 => {
            if read(values, pins, 2) {
                read(values, pins, 1)
            } else {
                read(values, pins, 0)
            }
        }
        CellKind::Carry4 => carry_output(values, pins, out),
        CellKind::Fdre(_) | CellKind::Fdse(_) => stored,
        CellKind::Fdce(_) => !read(values, pins, 1) && stored,
        CellKind::Fdpe(_) => read(values, pins, 2) || stored,
        CellKind::Mem { aw: _, dw: _ } => false,
    }
}

/// The next stored bit of a flip-flop, from the places of its input pins and its stored bit.
pub fn next_bit(kind: CellKind, values: &[bool], pins: &[u32], stored: bool) -> bool
    requires { is_memory kind ≡ false }
    ensures { result ≡ table.next_content kind (read_all values.now pins.now) (λ _. stored) 0 }
{
    match kind {
        CellKind::Fdre(_) => !read(values, pins, 2) && enabled(values, pins, 1, stored),
        CellKind::Fdse(_) => read(values, pins, 2) || enabled(values, pins, 1, stored),
        CellKind::Fdce(_) => !read(values, pins, 1) && enabled(values, pins, 2, stored),
        CellKind::Fdpe(_) => read(values, pins, 2) || enabled(values, pins, 1, stored),
        _ => stored,
    }
}

// The bit of the D pin where CE is 1, else the stored bit.
fn enabled(values: &[bool], pins: &[u32], d: usize, stored: bool) -> bool
    ensures { result ≡ (if table.pin (read_all values.now pins.now) 0 then table.pin (read_all values.now pins.now) d else stored) }
{
    if read(values, pins, 0) {
        read(values, pins, d)
    } else {
        stored
    }
}
