//! The tokens of structural Verilog: what a text is cut into (IEEE 1364-2005, clause 3), with the
//! kind, place and bytes of each token, and the first fault of a text that can't be cut.
#![tactic(auto)]

mod bytes;
mod closed;
mod constant;
mod construct;
mod cutting;
mod directive;
mod laws;
mod lexer;
mod marks;
mod number;
mod packed;
mod piece;
mod runs;
mod token;
mod words;

pub use laws::{one_list, one_reading, refused_for_size};
pub use lexer::tokens;
pub use packed::PackedWord;
pub use token::{Token, TokenKind};
