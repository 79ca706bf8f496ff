//! The words that grammars are written with, and what makes a reading with one token of lookahead
//! exact: it takes just what the grammar says, and stops at the first token that no text goes on with.
#![tactic(auto)]

mod stop;

pub use stop::Stop;
