ghost use Rattle.std.specs.Prelude.{◌≡◌};
ghost use Rattle.vlog_parse.specs.Sorts.{same, is_direction, is_gate, begins_item, begins_expr, is_value};
ghost use Rattle.vlog_parse.specs.Items.{dir_of, gate_of};

use crate::tree::{Dir, GateKind};

/// What a token is to the grammar.
#[derive(Clone, Copy, Debug)]
pub enum Sort {
    /// An identifier that is no keyword, or an escaped one (IEEE 1364-2005, 3.7).
    Name,
    /// The keyword `module` (12.1).
    Module,
    /// The keyword `endmodule`.
    EndModule,
    /// The keyword `input` (12.3.3).
    Input,
    /// The keyword `output`.
    Output,
    /// The keyword `wire` (4.2).
    Wire,
    /// The keyword `assign` (6.1).
    Assign,
    /// The keyword `and`, as the next ones of a gate (7.2, 7.3).
    And,
    /// The keyword `nand`.
    Nand,
    /// The keyword `or`.
    Or,
    /// The keyword `nor`.
    Nor,
    /// The keyword `xor`.
    Xor,
    /// The keyword `xnor`.
    Xnor,
    /// The keyword `buf`.
    Buf,
    /// The keyword `not`.
    Not,
    /// An unsized number (3.5.1).
    Number,
    /// A sized constant (3.5.1).
    Sized,
    /// A string (3.6).
    Text,
    /// `(`.
    LeftParenthesis,
    /// `)`.
    RightParenthesis,
    /// `[`.
    LeftBracket,
    /// `]`.
    RightBracket,
    /// `{`.
    LeftBrace,
    /// `}`.
    RightBrace,
    /// `,`.
    Comma,
    /// `;`.
    Semicolon,
    /// `:`.
    Colon,
    /// `.`.
    Dot,
    /// `=`.
    Equals,
    /// `#`.
    Hash,
    /// What stands for no construct of this profile.
    Outside,
}

impl Sort {
    /// Whether it is the other sort.
    pub fn is(self, sort: Sort) -> bool
        ensures { result ≡ same sort self }
    {
        self as u8 == sort as u8
    }

    pub fn is_direction(self) -> bool
        ensures { result ≡ is_direction self }
    {
        matches!(self, Sort::Input | Sort::Output)
    }

    /// The direction that a keyword is. Any other sort counts as `output`.
    pub fn dir(self) -> Dir
        ensures { result ≡ dir_of self }
    {
        match self {
            Sort::Input => Dir::Input,
            _ => Dir::Output,
        }
    }

    pub fn is_gate(self) -> bool
        ensures { result ≡ is_gate self }
    {
        matches!(
            self,
            Sort::And
                | Sort::Nand
                | Sort::Or
                | Sort::Nor
                | Sort::Xor
                | Sort::Xnor
                | Sort::Buf
                | Sort::Not
        )
    }

    /// The kind of gate that a keyword is. Any other sort counts as `and`.
    pub fn gate(self) -> GateKind
        ensures { result ≡ gate_of self }
    {
        match self {
            Sort::Nand => GateKind::Nand,
            Sort::Or => GateKind::Or,
            Sort::Nor => GateKind::Nor,
            Sort::Xor => GateKind::Xor,
            Sort::Xnor => GateKind::Xnor,
            Sort::Buf => GateKind::Buf,
            Sort::Not => GateKind::Not,
            _ => GateKind::And,
        }
    }

    /// Whether an item of a module may begin so.
    pub fn begins_item(self) -> bool
        ensures { result ≡ begins_item self }
    {
        self.is_direction()
            || self.is_gate()
            || matches!(self, Sort::Name | Sort::Wire | Sort::Assign)
    }

    /// Whether an expression may begin so.
    pub fn begins_expr(self) -> bool
        ensures { result ≡ begins_expr self }
    {
        matches!(self, Sort::Name | Sort::Sized | Sort::LeftBrace)
    }

    /// Whether it is the value of a parameter.
    pub fn is_value(self) -> bool
        ensures { result ≡ is_value self }
    {
        matches!(self, Sort::Number | Sort::Sized | Sort::Text)
    }
}
