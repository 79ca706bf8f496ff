//! The primitives of the Xilinx 7 series (UG953) and a core's sample memory, by name.

ghost use Rattle.std.specs.Prelude.{◌≡◌, map, find};
ghost use Rattle.std.specs.Option.{option_map};
ghost use Rattle.std.specs.Str.{bytes_eq};
ghost use Rattle.vlog_check.specs.Cells.{cells, pins, PinRow, pin_row};
ghost use Rattle.vlog_check.specs.Scope.{cell_of};

use vlog_parse::Dir;

/// A cell of the table, by its name.
#[derive(Clone, Copy, Debug, PartialEq, Eq)]
pub enum Primitive {
    Lut1,
    Lut2,
    Lut3,
    Lut4,
    Lut5,
    Lut6,
    Inv,
    Ibuf,
    Obuf,
    Bufg,
    Gnd,
    Vcc,
    Muxf7,
    Muxf8,
    Carry4,
    Fdre,
    Fdse,
    Fdce,
    Fdpe,
    /// ILAMEM.
    Mem,
}

/// How many bits a pin has.
#[derive(Clone, Copy, Debug, PartialEq, Eq)]
pub enum Size {
    One,
    Four,
    /// As many as the parameter AW says.
    Address,
    /// As many as the parameter DW says.
    Data,
}

/// A pin of a cell.
#[derive(Clone, Copy, Debug)]
pub struct CellPin {
    pub name: &'static [u8],
    pub way: Dir,
    pub size: Size,
}

// The cells by name.
fn cells() -> &'static [(&'static [u8], Primitive)]
    ensures { map (λ cell. (cell.0.now, cell.1)) result.now ≡ cells }
{
    &[
        (b"LUT1", Primitive::Lut1),
        (b"LUT2", Primitive::Lut2),
        (b"LUT3", Primitive::Lut3),
        (b"LUT4", Primitive::Lut4),
        (b"LUT5", Primitive::Lut5),
        (b"LUT6", Primitive::Lut6),
        (b"INV", Primitive::Inv),
        (b"IBUF", Primitive::Ibuf),
        (b"OBUF", Primitive::Obuf),
        (b"BUFG", Primitive::Bufg),
        (b"GND", Primitive::Gnd),
        (b"VCC", Primitive::Vcc),
        (b"MUXF7", Primitive::Muxf7),
        (b"MUXF8", Primitive::Muxf8),
        (b"CARRY4", Primitive::Carry4),
        (b"FDRE", Primitive::Fdre),
        (b"FDSE", Primitive::Fdse),
        (b"FDCE", Primitive::Fdce),
        (b"FDPE", Primitive::Fdpe),
        (b"ILAMEM", Primitive::Mem),
    ]
}

// The cell of a name, by the whole list.
fn listed_cell(name: &[u8]) -> Option<Primitive>
    ensures { result ≡ cell_of name.now }
{
    for cell in cells() {
        if name == cell.0 {
            return Some(cell.1);
        }
    }
    None
}

/// The cell of a name. Most names are those of LUTs and of registers, so these are told by their bytes alone.
pub fn cell_of(name: &[u8]) -> Option<Primitive>
    ensures { result ≡ cell_of name.now }
{
    match name {
        b"LUT1" => Some(Primitive::Lut1),
        b"LUT2" => Some(Primitive::Lut2),
        b"LUT3" => Some(Primitive::Lut3),
        b"LUT4" => Some(Primitive::Lut4),
        b"LUT5" => Some(Primitive::Lut5),
        b"LUT6" => Some(Primitive::Lut6),
        b"FDRE" => Some(Primitive::Fdre),
        b"FDSE" => Some(Primitive::Fdse),
        b"FDCE" => Some(Primitive::Fdce),
        b"FDPE" => Some(Primitive::Fdpe),
        _ => listed_cell(name),
    }
}

const I0: CellPin = CellPin {
    name: b"I0",
    way: Dir::Input,
    size: Size::One,
};

const O: CellPin = CellPin {
    name: b"O",
    way: Dir::Output,
    size: Size::One,
};

const I1: CellPin = CellPin {
    name: b"I1",
    way: Dir::Input,
    size: Size::One,
};

const I2: CellPin = CellPin {
    name: b"I2",
    way: Dir::Input,
    size: Size::One,
};

const I3: CellPin = CellPin {
    name: b"I3",
    way: Dir::Input,
    size: Size::One,
};

const I4: CellPin = CellPin {
    name: b"I4",
    way: Dir::Input,
    size: Size::One,
};

const I5: CellPin = CellPin {
    name: b"I5",
    way: Dir::Input,
    size: Size::One,
};

const I: CellPin = CellPin {
    name: b"I",
    way: Dir::Input,
    size: Size::One,
};

const G: CellPin = CellPin {
    name: b"G",
    way: Dir::Output,
    size: Size::One,
};

const P: CellPin = CellPin {
    name: b"P",
    way: Dir::Output,
    size: Size::One,
};

const S: CellPin = CellPin {
    name: b"S",
    way: Dir::Input,
    size: Size::One,
};

const CI: CellPin = CellPin {
    name: b"CI",
    way: Dir::Input,
    size: Size::One,
};

const CYINIT: CellPin = CellPin {
    name: b"CYINIT",
    way: Dir::Input,
    size: Size::One,
};

const DI_4: CellPin = CellPin {
    name: b"DI",
    way: Dir::Input,
    size: Size::Four,
};

const S_4: CellPin = CellPin {
    name: b"S",
    way: Dir::Input,
    size: Size::Four,
};

const CO_4: CellPin = CellPin {
    name: b"CO",
    way: Dir::Output,
    size: Size::Four,
};

const O_4: CellPin = CellPin {
    name: b"O",
    way: Dir::Output,
    size: Size::Four,
};

const CE: CellPin = CellPin {
    name: b"CE",
    way: Dir::Input,
    size: Size::One,
};

const D: CellPin = CellPin {
    name: b"D",
    way: Dir::Input,
    size: Size::One,
};

const R: CellPin = CellPin {
    name: b"R",
    way: Dir::Input,
    size: Size::One,
};

const C: CellPin = CellPin {
    name: b"C",
    way: Dir::Input,
    size: Size::One,
};

const Q: CellPin = CellPin {
    name: b"Q",
    way: Dir::Output,
    size: Size::One,
};

const CLR: CellPin = CellPin {
    name: b"CLR",
    way: Dir::Input,
    size: Size::One,
};

const PRE: CellPin = CellPin {
    name: b"PRE",
    way: Dir::Input,
    size: Size::One,
};

const WE: CellPin = CellPin {
    name: b"WE",
    way: Dir::Input,
    size: Size::One,
};

const A_BITS: CellPin = CellPin {
    name: b"A",
    way: Dir::Input,
    size: Size::Address,
};

const D_BITS: CellPin = CellPin {
    name: b"D",
    way: Dir::Input,
    size: Size::Data,
};

/// The pins of a cell: its inputs, its clock and its outputs.
pub fn pins(cell: Primitive) -> &'static [CellPin]
    ensures { map pin_row result.now ≡ pins cell }
{
    match cell {
        Primitive::Lut1 => &[I0, O],
        Primitive::Lut2 => &[I0, I1, O],
        Primitive::Lut3 => &[I0, I1, I2, O],
        Primitive::Lut4 => &[I0, I1, I2, I3, O],
        Primitive::Lut5 => &[I0, I1, I2, I3, I4, O],
        Primitive::Lut6 => &[I0, I1, I2, I3, I4, I5, O],
        Primitive::Inv => &[I, O],
        Primitive::Ibuf => &[I, O],
        Primitive::Obuf => &[I, O],
        Primitive::Bufg => &[I, O],
        Primitive::Gnd => &[G],
        Primitive::Vcc => &[P],
        Primitive::Muxf7 => &[I0, I1, S, O],
        Primitive::Muxf8 => &[I0, I1, S, O],
        Primitive::Carry4 => &[CI, CYINIT, DI_4, S_4, CO_4, O_4],
        Primitive::Fdre => &[CE, D, R, C, Q],
        Primitive::Fdse => &[CE, D, S, C, Q],
        Primitive::Fdce => &[CE, CLR, D, C, Q],
        Primitive::Fdpe => &[CE, D, PRE, C, Q],
        Primitive::Mem => &[WE, A_BITS, D_BITS, C],
    }
}

/// The pin of a cell with this name.
pub fn pin_of(cell: Primitive, name: &[u8]) -> Option<CellPin>
    ensures { option_map pin_row result ≡ find (λ row. bytes_eq name.now row.name) (pins cell) }
{
    for pin in pins(cell) {
        if name == pin.name {
            return Some(*pin);
        }
    }
    None
}
