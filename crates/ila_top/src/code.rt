ghost use Rattle.std.specs.Prelude.{◌≡◌};
ghost use Rattle.ila_top.specs.ErrorLine as spell;

use ila_base::{LimitKind, NetRefusal, ProjRefusal, TsmRefusal};

/// How a kind of limit is spelled.
pub fn limit_text(kind: LimitKind) -> &'static [u8]
    ensures { result.now ≡ spell.limit_text kind }
{
    match kind {
        LimitKind::FileBytes => b"FileBytes",
        LimitKind::NameLength => b"NameLength",
        LimitKind::Constant => b"Constant",
        LimitKind::Nesting => b"Nesting",
        LimitKind::Index => b"Index",
        LimitKind::Depth => b"Depth",
        LimitKind::Cells => b"Cells",
        LimitKind::Pins => b"Pins",
        LimitKind::Nets => b"Nets",
        LimitKind::AllNames => b"AllNames",
    }
}

/// The code of a refused netlist.
pub fn net_code(refusal: &NetRefusal) -> &'static [u8]
    ensures { result.now ≡ spell.net_code refusal.now }
{
    match refusal {
        NetRefusal::BadByte => b"N1",
        NetRefusal::Construct(_) => b"N2",
        NetRefusal::Syntax => b"N3",
        NetRefusal::Duplicate(_) => b"N4",
        NetRefusal::Undeclared(_) => b"N5",
        NetRefusal::UnknownModule(_) => b"N6",
        NetRefusal::Pin(_) => b"N7",
        NetRefusal::Width { .. } => b"N8",
        NetRefusal::OpenInput(_) => b"N9",
        NetRefusal::ManyDrivers(_) => b"N10",
        NetRefusal::Undriven(_) => b"N11",
        NetRefusal::Recursion(_) => b"N12",
        NetRefusal::TopOrClock(_) => b"N13",
        NetRefusal::SecondClock(_) => b"N14",
        NetRefusal::ClockAsData(_) => b"N15",
        NetRefusal::XZ => b"N16",
        NetRefusal::Limit(..) => b"N17",
        NetRefusal::Loop(_) => b"N18",
    }
}

/// The code of a refused project.
pub fn project_code(refusal: &ProjRefusal) -> &'static [u8]
    ensures { result.now ≡ spell.project_code refusal.now }
{
    match refusal {
        ProjRefusal::NotToml => b"P1",
        ProjRefusal::MissingKey(_) => b"P2",
        ProjRefusal::WrongType(_) => b"P3",
        ProjRefusal::UnknownKey(_) => b"P4",
        ProjRefusal::BadValue(_) => b"P5",
        ProjRefusal::DuplicateName(_) => b"P6",
        ProjRefusal::UnknownNet(_) => b"P7",
        ProjRefusal::ClockProbe(_) => b"P8",
        ProjRefusal::UnknownCore(_) => b"P9",
        ProjRefusal::NameTaken(_) => b"P10",
    }
}

/// The code of a refused trigger program.
pub fn program_code(refusal: TsmRefusal) -> &'static [u8]
    ensures { result.now ≡ spell.program_code refusal }
{
    match refusal {
        TsmRefusal::BadByte => b"Q1",
        TsmRefusal::Syntax => b"Q2",
        TsmRefusal::DuplicateState => b"Q3",
        TsmRefusal::UnknownState => b"Q4",
        TsmRefusal::UnknownProbe => b"Q5",
        TsmRefusal::UnknownRegister => b"Q6",
        TsmRefusal::RepeatedAction => b"Q7",
        TsmRefusal::ConstantTooWide => b"Q8",
        TsmRefusal::EdgeWithOrder => b"Q9",
    }
}
