//! Trigger programs as texts: their constants, their tokens, and the tree that a program stands for
//! (UG908, trigger state machine language, in this project's profile).
#![tactic(auto)]

mod bytes;
pub mod calls;
mod conditions;
mod digits;
mod fitting;
mod keywords;
mod laws;
mod lengths;
mod letters;
mod lexer;
mod parser;
mod parts;
mod piece;
mod programs;
#[cfg(test)]
mod rows;
mod source;
#[cfg(test)]
mod tests;
mod token;
pub mod types;
