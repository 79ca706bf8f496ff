//! The primitives of the Xilinx 7 series (UG953) and a core's sample memory, by name.

ghost use Rattle.std.specs.Prelude.{◌≡◌, map, find};
ghost use Rattle.std.specs.Map.{lookup};
ghost use Rattle.std.specs.Option.{option_map};
ghost use Rattle.std.specs.Str.{bytes_eq};
ghost use Rattle.net_core.specs.Primitives.{primitives, ports, parameters, PortRow, port_row};
ghost use Rattle.net_core.specs.PrimitiveLaws.{WidthsAgree, RulesByName};

/// A kind of cell that a netlist names, without its parameters.
#[derive(Clone, Copy, Debug, PartialEq, Eq)]
pub enum Primitive {
    Lut1,
    Lut2,
    Lut3,
    Lut4,
    Lut5,
    Lut6,
    Inv,
    Ibuf,
    Obuf,
    Bufg,
    Gnd,
    Vcc,
    Muxf7,
    Muxf8,
    Carry4,
    Fdre,
    Fdse,
    Fdce,
    Fdpe,
    /// ILAMEM.
    Mem,
}

/// What a port is for. A clock port's pin is the cell's clock and none of its inputs.
#[derive(Clone, Copy, Debug, PartialEq, Eq)]
pub enum Role {
    Input,
    Clock,
    Output,
}

/// How many pins a port has.
#[derive(Clone, Copy, Debug, PartialEq, Eq)]
pub enum PortSize {
    One,
    Four,
    /// As many as the parameter AW says.
    Address,
    /// As many as the parameter DW says.
    Data,
}

/// A port of a primitive.
#[derive(Clone, Copy, Debug)]
pub struct CellPort {
    pub name: &'static [u8],
    pub role: Role,
    pub size: PortSize,
}

// The primitives by name.
fn primitives() -> &'static [(&'static [u8], Primitive)]
    ensures { map (λ cell. (cell.0.now, cell.1)) result.now ≡ primitives }
{
    &[
        (b"LUT1", Primitive::Lut1),
        (b"LUT2", Primitive::Lut2),
        (b"LUT3", Primitive::Lut3),
        (b"LUT4", Primitive::Lut4),
        (b"LUT5", Primitive::Lut5),
        (b"LUT6", Primitive::Lut6),
        (b"INV", Primitive::Inv),
        (b"IBUF", Primitive::Ibuf),
        (b"OBUF", Primitive::Obuf),
        (b"BUFG", Primitive::Bufg),
        (b"GND", Primitive::Gnd),
        (b"VCC", Primitive::Vcc),
        (b"MUXF7", Primitive::Muxf7),
        (b"MUXF8", Primitive::Muxf8),
        (b"CARRY4", Primitive::Carry4),
        (b"FDRE", Primitive::Fdre),
        (b"FDSE", Primitive::Fdse),
        (b"FDCE", Primitive::Fdce),
        (b"FDPE", Primitive::Fdpe),
        (b"ILAMEM", Primitive::Mem),
    ]
}

// The primitive of a name, by the whole list.
fn listed(name: &[u8]) -> Option<Primitive>
    ensures { result ≡ lookup (bytes_eq name.now) primitives }
{
    for cell in primitives() {
        if name == cell.0 {
            return Some(cell.1);
        }
    }
    None
}

/// The primitive of a name. Most names are those of LUTs and of registers, so these are told by their
/// bytes alone.
pub fn primitive_named(name: &[u8]) -> Option<Primitive>
    ensures { result ≡ lookup (bytes_eq name.now) primitives }
{
    match name {
        b"LUT1" => Some(Primitive::Lut1),
        b"LUT2" => Some(Primitive::Lut2),
        b"LUT3" => Some(Primitive::Lut3),
        b"LUT4" => Some(Primitive::Lut4),
        b"LUT5" => Some(Primitive::Lut5),
        b"LUT6" => Some(Primitive::Lut6),
        b"FDRE" => Some(Primitive::Fdre),
        b"FDSE" => Some(Primitive::Fdse),
        b"FDCE" => Some(Primitive::Fdce),
        b"FDPE" => Some(Primitive::Fdpe),
        _ => listed(name),
    }
}

const I0: CellPort = CellPort {
    name: b"I0",
    role: Role::Input,
    size: PortSize::One,
};

const O: CellPort = CellPort {
    name: b"O",
    role: Role::Output,
    size: PortSize::One,
};

const I1: CellPort = CellPort {
    name: b"I1",
    role: Role::Input,
    size: PortSize::One,
};

const I2: CellPort = CellPort {
    name: b"I2",
    role: Role::Input,
    size: PortSize::One,
};

const I3: CellPort = CellPort {
    name: b"I3",
    role: Role::Input,
    size: PortSize::One,
};

const I4: CellPort = CellPort {
    name: b"I4",
    role: Role::Input,
    size: PortSize::One,
};

const I5: CellPort = CellPort {
    name: b"I5",
    role: Role::Input,
    size: PortSize::One,
};

const I: CellPort = CellPort {
    name: b"I",
    role: Role::Input,
    size: PortSize::One,
};

const G: CellPort = CellPort {
    name: b"G",
    role: Role::Output,
    size: PortSize::One,
};

const P: CellPort = CellPort {
    name: b"P",
    role: Role::Output,
    size: PortSize::One,
};

const S: CellPort = CellPort {
    name: b"S",
    role: Role::Input,
    size: PortSize::One,
};

const CI: CellPort = CellPort {
    name: b"CI",
    role: Role::Input,
    size: PortSize::One,
};

const CYINIT: CellPort = CellPort {
    name: b"CYINIT",
    role: Role::Input,
    size: PortSize::One,
};

const DI_4: CellPort = CellPort {
    name: b"DI",
    role: Role::Input,
    size: PortSize::Four,
};

const S_4: CellPort = CellPort {
    name: b"S",
    role: Role::Input,
    size: PortSize::Four,
};

const CO_4: CellPort = CellPort {
    name: b"CO",
    role: Role::Output,
    size: PortSize::Four,
};

const O_4: CellPort = CellPort {
    name: b"O",
    role: Role::Output,
    size: PortSize::Four,
};

const CE: CellPort = CellPort {
    name: b"CE",
    role: Role::Input,
    size: PortSize::One,
};

const D: CellPort = CellPort {
    name: b"D",
    role: Role::Input,
    size: PortSize::One,
};

const R: CellPort = CellPort {
    name: b"R",
    role: Role::Input,
    size: PortSize::One,
};

const C: CellPort = CellPort {
    name: b"C",
    role: Role::Clock,
    size: PortSize::One,
};

const Q: CellPort = CellPort {
    name: b"Q",
    role: Role::Output,
    size: PortSize::One,
};

const CLR: CellPort = CellPort {
    name: b"CLR",
    role: Role::Input,
    size: PortSize::One,
};

const PRE: CellPort = CellPort {
    name: b"PRE",
    role: Role::Input,
    size: PortSize::One,
};

const WE: CellPort = CellPort {
    name: b"WE",
    role: Role::Input,
    size: PortSize::One,
};

const A_BITS: CellPort = CellPort {
    name: b"A",
    role: Role::Input,
    size: PortSize::Address,
};

const D_BITS: CellPort = CellPort {
    name: b"D",
    role: Role::Input,
    size: PortSize::Data,
};

/// The ports of a primitive: its inputs, its clock and its outputs, in the order of `CellKind`.
pub fn ports(cell: Primitive) -> &'static [CellPort]
    ensures { map port_row result.now ≡ ports cell }
{
    match cell {
        Primitive::Lut1 => &[I0, O],
        Primitive::Lut2 => &[I0, I1, O],
        Primitive::Lut3 => &[I0, I1, I2, O],
        Primitive::Lut4 => &[I0, I1, I2, I3, O],
        Primitive::Lut5 => &[I0, I1, I2, I3, I4, O],
        Primitive::Lut6 => &[I0, I1, I2, I3, I4, I5, O],
        Primitive::Inv => &[I, O],
        Primitive::Ibuf => &[I, O],
        Primitive::Obuf => &[I, O],
        Primitive::Bufg => &[I, O],
        Primitive::Gnd => &[G],
        Primitive::Vcc => &[P],
        Primitive::Muxf7 => &[I0, I1, S, O],
        Primitive::Muxf8 => &[I0, I1, S, O],
        Primitive::Carry4 => &[CI, CYINIT, DI_4, S_4, CO_4, O_4],
        Primitive::Fdre => &[CE, D, R, C, Q],
        Primitive::Fdse => &[CE, D, S, C, Q],
        Primitive::Fdce => &[CE, CLR, D, C, Q],
        Primitive::Fdpe => &[CE, D, PRE, C, Q],
        Primitive::Mem => &[WE, A_BITS, D_BITS, C],
    }
}

/// The port of a primitive with this name.
pub fn port_named(cell: Primitive, name: &[u8]) -> Option<CellPort>
    ensures { option_map port_row result ≡ find (λ row. bytes_eq name.now row.name) (ports cell) }
{
    for port in ports(cell) {
        if name == port.name {
            return Some(*port);
        }
    }
    None
}

/// The names of the parameters of a primitive.
pub fn parameters(cell: Primitive) -> &'static [&'static [u8]]
    ensures { map (λ name. name.now) result.now ≡ parameters cell }
{
    match cell {
        Primitive::Lut1 => &[b"INIT"],
        Primitive::Lut2 => &[b"INIT"],
        Primitive::Lut3 => &[b"INIT"],
        Primitive::Lut4 => &[b"INIT"],
        Primitive::Lut5 => &[b"INIT"],
        Primitive::Lut6 => &[b"INIT"],
        Primitive::Fdre => &[b"INIT"],
        Primitive::Fdse => &[b"INIT"],
        Primitive::Fdce => &[b"INIT"],
        Primitive::Fdpe => &[b"INIT"],
        Primitive::Mem => &[b"AW", b"DW"],
        _ => &[],
    }
}

/// The table by names and that by the numbers of pins are one.
pub fn names_agree()
    ensures widths { WidthsAgree }
    ensures rules { RulesByName }
{}
