ghost use Rattle.std.specs.Prelude.{◌≡◌};

use crate::items::Items;
use crate::name::Name;
use std::marker::Model;

/// What a comparison asks of two values (UG908, trigger state machine language).
#[derive(Clone, Copy, Debug, PartialEq, Eq)]
pub enum Op {
    Eq,
    Ne,
    Lt,
    Le,
    Gt,
    Ge,
}

/// What a digit of a compare value asks of its bit (UG908, compare values).
#[derive(Clone, Copy, Debug, PartialEq, Eq)]
pub enum Digit {
    /// The bit is 0.
    Zero,
    /// The bit is 1.
    One,
    /// `X`: any bit.
    Any,
    /// `R`: 0 at the clock before, and 1 at this one.
    Rise,
    /// `F`: 1 at the clock before, and 0 at this one.
    Fall,
    /// `B`: the two bits differ.
    Both,
    /// `N`: the two bits are equal.
    Steady,
}

/// The digits of a compare value, the lowest bit's first.
#[derive(Debug, Drop)]
pub struct Digits {
    list: Vec<Digit>,
}

impl Model for Digits {
    ghost use Rattle.std.specs.Prelude.{List};
    ghost use Rattle.std.specs.Coded.{coded_list};
    ghost use Rattle.ila_base.specs.declared.compare.Digit.{Digit};

    ghost Value = { List Digit };

    ghost view = { λ digits. digits.list.items };
}

impl Digits {
    /// The digits of the list. It takes no memory.
    pub fn new(list: Vec<Digit>) -> Digits
        ensures { result ≡ list.items }
    {
        Digits { list }
    }

    /// The digits, the lowest bit's first. It takes no memory.
    pub fn list(&self) -> &[Digit]
        ensures { result.now ≡ self.now }
    {
        self.list.as_slice()
    }
}

/// A comparison of a probe, by its number in the core, with digits.
#[derive(Debug, Drop)]
pub struct Compare {
    pub probe: u8,
    pub op: Op,
    pub digits: Digits,
}

/// How the comparisons of a basic condition are joined.
#[derive(Clone, Copy, Debug, PartialEq, Eq)]
pub enum Join {
    And,
    Or,
    Nand,
    Nor,
}

/// A condition without a program: comparisons, and how they are joined (UG908, basic trigger mode).
#[derive(Debug, Drop)]
pub struct BasicCond {
    pub join: Join,
    pub compares: Items<Compare>,
}

/// A probe of a core: its name, and its width in bits, from 1 to 128.
#[derive(Debug, Drop)]
pub struct ProbeInfo {
    pub name: Name,
    pub width: u8,
}
