//! The kinds of cells: the gates of IEEE 1364-2005, section 7, the Xilinx primitives of the 7 series
//! (UG953), and the sample memory of a core.
ghost use Rattle.std.specs.Prelude.{◌≡◌};
ghost use Rattle.net_core.specs.CellTable as table;

/// A gate of IEEE 1364-2005: 7.2 has `and` to `xnor`, 7.3 has `buf` and `not`.
#[derive(Clone, Copy, Debug, PartialEq, Eq)]
pub enum GateCode {
    And,
    Nand,
    Or,
    Nor,
    Xor,
    Xnor,
    Buf,
    Not,
}

/// The kind of a cell with its parameters. The pins of a kind stand in this order in `Cell::ins` and
/// `Cell::outs`, a vector with its leftmost bit first.
///
/// | Kind | `ins` | `outs` |
/// |---|---|---|
/// | `And` to `Xnor` | one or more terminals | the first terminal |
/// | `Buf`, `Not` | the last terminal | one or more terminals |
/// | `Lut` | I0, I1, .. | O |
/// | `Inv`, `Ibuf`, `Obuf`, `Bufg` | I | O |
/// | `Gnd`, `Vcc` | | G; P |
/// | `Muxf7`, `Muxf8` | I0, I1, S | O |
/// | `Carry4` | CI, CYINIT, DI\[3:0\], S\[3:0\] | CO\[3:0\], O\[3:0\] |
/// | `Fdre` | CE, D, R | Q |
/// | `Fdse` | CE, D, S | Q |
/// | `Fdce` | CE, CLR, D | Q |
/// | `Fdpe` | CE, D, PRE | Q |
/// | `Mem` | WE, A\[aw-1:0\], D\[dw-1:0\] | |
#[derive(Clone, Copy, Debug, PartialEq, Eq)]
pub enum CellKind {
    Gate(GateCode),
    /// LUT1 to LUT6 with `n` inputs. Bit `I0 + 2*I1 + 4*I2 + ..` of `init` is the output.
    Lut { n: u8, init: u64 },
    Inv,
    Ibuf,
    Obuf,
    Bufg,
    Gnd,
    Vcc,
    Muxf7,
    Muxf8,
    Carry4,
    /// A register with clock enable and synchronous reset, and its bit at clock 0.
    Fdre(bool),
    /// A register with clock enable and synchronous set, and its bit at clock 0.
    Fdse(bool),
    /// A register with clock enable and asynchronous clear, and its bit at clock 0.
    Fdce(bool),
    /// A register with clock enable and asynchronous preset, and its bit at clock 0.
    Fdpe(bool),
    /// The sample memory ILAMEM: `2^aw` rows of `dw` bits, written and never read by the netlist.
    Mem { aw: u8, dw: u16 },
}

impl CellKind {
    /// Whether the kind leads the clock on, as IBUF, BUFG and the gate buf do.
    pub fn is_clock_buffer(self) -> bool
        ensures { result ≡ table.is_clock_buffer self }
    {
        matches!(
            self,
            CellKind::Ibuf | CellKind::Bufg | CellKind::Gate(GateCode::Buf)
        )
    }

    /// How many bits a cell of the kind stores.
    pub fn content_size(self) -> usize
        requires { table.IsAllowed self }
        ensures { result ≡ table.content_size self }
    {
        match self {
            CellKind::Fdre(_) | CellKind::Fdse(_) | CellKind::Fdce(_) | CellKind::Fdpe(_) => 1,
            CellKind::Mem { aw, dw } => (1usize << aw) * dw as usize,
            _ => 0,
        }
    }
}
