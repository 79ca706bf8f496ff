ghost use Rattle.std.specs.Prelude.{◌≡◌};
ghost use Rattle.tsm_parse.specs.Lexemes.{same};
ghost use Rattle.tsm_parse.specs.Conditions.{is_left, is_operator, op_of};
ghost use Rattle.tsm_parse.specs.Programs.{is_act, act_of};

use crate::types::Act;
use ila_base::{Op, Place};

/// What a token of a trigger program is to the grammar.
#[derive(Clone, Copy, Debug, PartialEq, Eq)]
pub enum Sort {
    /// A word that is no keyword.
    Name,
    State,
    If,
    Then,
    ElseIf,
    Else,
    EndIf,
    Goto,
    Trigger,
    SetFlag,
    ClearFlag,
    IncrementCounter,
    ResetCounter,
    /// `$` and a word.
    Register,
    Constant,
    /// `:`.
    Colon,
    /// `;`.
    Semicolon,
    /// `(`.
    LeftParenthesis,
    /// `)`.
    RightParenthesis,
    /// `==`.
    Equal,
    /// `!=`.
    NotEqual,
    /// `<`.
    Less,
    /// `<=`.
    LessEqual,
    /// `>`.
    Greater,
    /// `>=`.
    GreaterEqual,
    /// `&&`.
    AndAnd,
    /// `||`.
    OrOr,
}

/// A token of a trigger program. Its text is `&text[start..end]`.
#[derive(Clone, Copy, Debug, PartialEq, Eq)]
pub struct Token {
    pub sort: Sort,
    /// The place of the token's first byte.
    pub place: Place,
    pub start: u32,
    pub end: u32,
}

impl Sort {
    pub fn is(self, sort: Sort) -> bool
        ensures { result ≡ same sort self }
    {
        self as u8 == sort as u8
    }

    /// Whether the left side of a comparison begins so.
    pub fn is_left(self) -> bool
        ensures { result ≡ is_left self }
    {
        matches!(self, Sort::Name | Sort::Register)
    }

    pub fn is_operator(self) -> bool
        ensures { result ≡ is_operator self }
    {
        matches!(
            self,
            Sort::Equal
                | Sort::NotEqual
                | Sort::Less
                | Sort::LessEqual
                | Sort::Greater
                | Sort::GreaterEqual
        )
    }

    /// The operator that a token of this sort is.
    pub fn op(self) -> Op
        ensures { result ≡ op_of self }
    {
        match self {
            Sort::NotEqual => Op::Ne,
            Sort::Less => Op::Lt,
            Sort::LessEqual => Op::Le,
            Sort::Greater => Op::Gt,
            Sort::GreaterEqual => Op::Ge,
            _ => Op::Eq,
        }
    }

    pub fn is_act(self) -> bool
        ensures { result ≡ is_act self }
    {
        matches!(
            self,
            Sort::SetFlag | Sort::ClearFlag | Sort::IncrementCounter | Sort::ResetCounter
        )
    }

    /// What a token of this sort does with a register.
    pub fn act(self) -> Act
        ensures { result ≡ act_of self }
    {
        match self {
            Sort::ClearFlag => Act::ClearFlag,
            Sort::IncrementCounter => Act::Increment,
            Sort::ResetCounter => Act::Reset,
            _ => Act::SetFlag,
        }
    }
}
