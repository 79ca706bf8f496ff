use crate::items::Items;
use crate::name::Name;

/// Why a netlist is refused, with what the refusal carries. The numbers are those that the program
/// prints behind `N`, in this order from 1.
#[derive(Debug, Drop)]
pub enum NetRefusal {
    /// N1: a byte outside comments, strings and escaped names begins no token, or a comment, string
    /// or attribute is not closed.
    BadByte,
    /// N2: a word or byte of the language outside this profile, which it carries.
    Construct(Name),
    /// N3: the tokens are those of no design.
    Syntax,
    /// N4: a name, flat identifier or net bit stands for two things.
    Duplicate(Name),
    /// N5: a name, bit or part is not declared.
    Undeclared(Name),
    /// N6: an instance names no module of the text and no cell.
    UnknownModule(Name),
    /// N7: a pin or parameter is unknown, given twice, missing or out of range.
    Pin(Name),
    /// N8: an expression has another width than its place, both in bits.
    Width { want: u64, have: u64 },
    /// N9: an input pin is open.
    OpenInput(Name),
    /// N10: a net bit has two sources.
    ManyDrivers(Name),
    /// N11: a net bit is read and not driven.
    Undriven(Name),
    /// N12: a module contains itself, at any depth.
    Recursion(Name),
    /// N13: no module has the top's name, or the clock is no one-bit input of the top.
    TopOrClock(Name),
    /// N14: a clock pin has a constant or a net outside the clock set.
    SecondClock(Name),
    /// N15: a bit of the clock set is read as data.
    ClockAsData(Name),
    /// N16: a constant has a digit x, z or ?.
    XZ,
    /// N17: a count is above its limit. The count is carried.
    Limit(LimitKind, u64),
    /// N18: a combinational cycle exists. The nets of one are carried, each feeding the next.
    Loop(Items<Name>),
}

/// Which count of a netlist is above its limit.
#[derive(Clone, Copy, Debug, PartialEq, Eq)]
pub enum LimitKind {
    /// Bytes of the file, at most 67,108,864.
    FileBytes,
    /// Bytes of an identifier, at most 1,024.
    NameLength,
    /// The width of a constant, at most 128 bits, or an unsized number, at most 4,294,967,295.
    Constant,
    /// Concatenations open at once, at most 32.
    Nesting,
    /// An index in a range or a select, at most 1,048,575.
    Index,
    /// Instance names in a path, at most 256.
    Depth,
    /// Cells of the flat netlist, at most 1,048,576.
    Cells,
    /// Pins of these cells, at most 16,777,216.
    Pins,
    /// Net bits of the flat netlist, at most 1,048,576.
    Nets,
    /// Bytes of all flat identifiers, at most 67,108,864.
    AllNames,
}

/// Why a project is refused. The numbers are those behind `P`, in this order from 1.
#[derive(Debug, Drop)]
pub enum ProjRefusal {
    /// P1: the bytes are no TOML document.
    NotToml,
    /// P2: a needed key is not there.
    MissingKey(Name),
    /// P3: a value is not of its key's type.
    WrongType(Name),
    /// P4: a key is not in the list of its table.
    UnknownKey(Name),
    /// P5: a value breaks its rule.
    BadValue(Name),
    /// P6: two cores, two probes of a core or two files have one name.
    DuplicateName(Name),
    /// P7: a name is that of no driven net, or of no net or cell of a core.
    UnknownNet(Name),
    /// P8: a probe's net is in the clock set.
    ClockProbe(Name),
    /// P9: a name is that of no core.
    UnknownCore(Name),
    /// P10: an identifier of the netlist begins as a core's names do.
    NameTaken(Name),
}

/// Why a trigger program is refused. The numbers are those behind `Q`, in this order from 1.
#[derive(Clone, Copy, Debug, PartialEq, Eq)]
pub enum TsmRefusal {
    /// Q1: a byte outside white space and comments begins no token.
    BadByte,
    /// Q2: the program is not in the grammar, or too long.
    Syntax,
    /// Q3: a state's name was declared before.
    DuplicateState,
    /// Q4: a `goto` names no state.
    UnknownState,
    /// Q5: a comparison names no probe.
    UnknownProbe,
    /// Q6: a register's word is no counter or flag where it stands.
    UnknownRegister,
    /// Q7: a block names one counter or flag twice.
    RepeatedAction,
    /// Q8: a constant is too wide.
    ConstantTooWide,
    /// Q9: an edge or don't-care digit stands with an order operator or a counter.
    EdgeWithOrder,
}

/// Why a program does not fit into its core. The numbers are those behind `M`, in this order from 1.
#[derive(Clone, Copy, Debug, PartialEq, Eq)]
pub enum ResRefusal {
    /// M1: more than 16 states; how many.
    States(u32),
    /// M2: more distinct comparisons of a probe than it has comparators; how many.
    Comparators { probe: u8, count: u32 },
    /// M3: more product terms of a condition than the core has; how many.
    Terms { state: u8, cond: u8, count: u32 },
    /// M4: two or more distinct counter comparisons in a condition; how many.
    CounterTests { state: u8, cond: u8, count: u32 },
}

/// Why a stimulus is refused. The numbers are those behind `S`, in this order from 1.
#[derive(Clone, Copy, Debug, PartialEq, Eq)]
pub enum StimRefusal {
    /// S1: line 1 does not name the inputs.
    Header,
    /// S2: this line, counted from 1, is no row.
    Line(u64),
    /// S3: a row follows this greatest number of rows.
    Limit(u64),
}

/// Why settings are refused. The numbers are those behind `W`, in this order from 1.
#[derive(Clone, Copy, Debug, PartialEq, Eq)]
pub enum SetRefusal {
    /// W1: this line, counted from 1, is not in its form.
    Form(u32),
    /// W2: the two shapes differ first in this field; both its numbers.
    Shape { field: u32, file: u64, core: u64 },
}
