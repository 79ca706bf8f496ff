ghost use Rattle.std.specs.Prelude.{◌≡◌};
ghost use Rattle.vlog_lex.specs.Cutting.{refusal_of};

use crate::packed::PackedWord;
use ila_base::{LimitKind, NetRefusal, Place};

/// A token of a netlist text (IEEE 1364-2005, clause 3).
#[derive(Clone, Copy, Debug, PartialEq, Eq)]
pub struct Token {
    pub kind: TokenKind,
    /// The place of the token's first byte.
    pub place: Place,
    /// How many bytes of the text stand before the token.
    pub start: u32,
    /// How many bytes of the text stand before the end of the token, so that the token's text is
    /// `&text[start..end]`.
    pub end: u32,
}

/// What kind a token is of.
#[derive(Clone, Copy, Debug, PartialEq, Eq)]
pub enum TokenKind {
    /// An identifier or a keyword of this profile (3.7, 3.7.2). Its text is the name.
    Ident,
    /// An escaped identifier (3.7.1). Its text begins with the `\`, which isn't part of the name.
    Escaped,
    /// An unsized decimal number (3.5.1), with what it stands for.
    Number(u32),
    /// A sized constant (3.5.1): its width, from 1 to 128, and its value, below two to the width.
    Sized(PackedWord),
    /// A string (3.6). Its text has both quotes.
    Text,
    /// A mark of this profile's grammar: `(` `)` `[` `]` `{` `}` `,` `;` `:` `.` `=` or `#`. A `#`
    /// is a mark only where the next token is `(`.
    Mark(u8),
    /// What stands for no construct of this profile: a keyword or an operator's byte, which is the
    /// token's text; a compiler directive (clause 19), whose text is a backquote and then its word;
    /// or a `#` whose next token isn't `(`. A part from `` `ifndef GLBL `` that no `` `endif `` ends
    /// is such a directive and then whatever follows it.
    Outside,
}

/// What keeps a piece of text from being cut off.
#[derive(Clone, Copy, Debug)]
pub enum Flaw {
    /// Nothing begins here.
    BadByte,
    /// A constant has a digit x, z or ?.
    XZ,
    /// An identifier is longer than it may be. Its length is carried.
    NameLength(u64),
    /// A constant is wider or a number larger than it may be. The number is carried that says so.
    Constant(u64),
}

impl Flaw {
    /// The refusal that tells of the flaw.
    pub fn refusal(self) -> NetRefusal
        ensures { result ≡ refusal_of self }
    {
        match self {
            Flaw::BadByte => NetRefusal::BadByte,
            Flaw::XZ => NetRefusal::XZ,
            Flaw::NameLength(count) => NetRefusal::Limit(LimitKind::NameLength, count),
            Flaw::Constant(count) => NetRefusal::Limit(LimitKind::Constant, count),
        }
    }
}

/// A piece that a text begins with, and how many bytes it has.
#[derive(Clone, Copy, Debug)]
pub enum Piece {
    /// White space, a comment, an attribute or a directive that is skipped.
    Skip(usize),
    /// A token.
    Token(TokenKind, usize),
    /// No piece: the text is refused here.
    Refused(Flaw),
}
