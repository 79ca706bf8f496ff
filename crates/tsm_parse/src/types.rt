//! Constants and the tree of a trigger program.

ghost use Rattle.std.specs.Prelude.{◌≡◌};
ghost use Rattle.tsm_parse.specs.declared.types.TsmStop.TheVariants.{NoMemory};

use ila_base::{Digits, Items, Name, NoMemory as MemoryFault, Op, Place, TsmRefusal};
use std::alloc::{AllocError, AllocFailed};

/// A constant of a trigger program.
#[derive(Debug, Drop)]
pub struct Constant {
    /// The width before the quote, if there is one. A width above 128 is kept as 129.
    pub width: Option<u32>,
    /// As written in binary, or those of the value without leading zeros. A value of 2 to the 128 or
    /// more is kept as 129 digits 1.
    pub digits: Digits,
}

/// A trigger program (UG908, trigger state machine language).
#[derive(Debug, Drop)]
pub struct Ast {
    pub states: Items<AstState>,
}

/// A state: its conditions in order, a block for each, and that of its `else` where it has one. A
/// state without conditions has one block, and counts as having an `else`.
#[derive(Debug, Drop)]
pub struct AstState {
    pub name: Name,
    /// That of the state's name.
    pub place: Place,
    pub conds: Items<AstFormula>,
    pub blocks: Items<AstBlock>,
    pub has_else: bool,
}

/// A condition: a comparison, or several of which all or any hold.
#[derive(Debug, Drop)]
pub enum AstFormula {
    Test(AstTest),
    All(Items<AstFormula>),
    Any(Items<AstFormula>),
}

/// A comparison of a probe or counter with a constant. One that is written with the constant on the
/// left is turned round.
#[derive(Debug, Drop)]
pub struct AstTest {
    /// The name of a probe, or a register with its `$`.
    pub left: Name,
    pub left_place: Place,
    pub op: Op,
    pub constant: Constant,
    pub constant_place: Place,
}

/// What a branch does, and how it ends. A register has its `$`.
#[derive(Debug, Drop)]
pub struct AstBlock {
    pub actions: Items<(Act, Name, Place)>,
    pub end: End,
}

/// What is done with a counter or flag.
#[derive(Clone, Copy, Debug, PartialEq, Eq)]
pub enum Act {
    SetFlag,
    ClearFlag,
    Increment,
    Reset,
}

/// How a branch ends.
#[derive(Debug, Drop)]
pub enum End {
    /// In the state of this name.
    Goto(Name, Place),
    Trigger,
}

/// Why a trigger program is refused, and where.
#[derive(Clone, Copy, Debug, PartialEq, Eq)]
pub struct TsmFault {
    pub refusal: TsmRefusal,
    /// 0:0 where the refusal has no place in the program.
    pub place: Place,
}

/// Why a call on a trigger program gives none.
#[derive(Clone, Copy, Debug, PartialEq, Eq)]
pub enum TsmStop {
    /// The program is refused.
    Refused(TsmFault),
    /// Memory was not found.
    NoMemory,
}

impl From<AllocError> for TsmStop {
    ghost from_gives = { λ _ stop. stop ≡ NoMemory };

    fn from(_failed: AllocError) -> TsmStop {
        TsmStop::NoMemory
    }
}

impl<T: Drop> From<AllocFailed<T>> for TsmStop {
    ghost from_gives = { λ _ stop. stop ≡ NoMemory };

    fn from(_failed: AllocFailed<T>) -> TsmStop {
        TsmStop::NoMemory
    }
}

impl From<MemoryFault> for TsmStop {
    ghost from_gives = { λ _ stop. stop ≡ NoMemory };

    fn from(_failed: MemoryFault) -> TsmStop {
        TsmStop::NoMemory
    }
}
