//! A trigger program with numbers for its names.

use ila_base::{Compare, Items, Name, Op};

/// A trigger program (UG908, trigger state machine language). A state's number is its place.
#[derive(Debug, Drop)]
pub struct Program {
    pub states: Items<State>,
}

/// A state: 0 to 2 conditions in order, a branch for each, and behind these the one that is taken
/// where none is true.
#[derive(Debug, Drop)]
pub struct State {
    pub name: Name,
    pub conds: Items<Cond>,
    pub branches: Items<Branch>,
}

/// A condition: a formula, or that it is not true.
#[derive(Debug, Drop)]
pub struct Cond {
    pub negated: bool,
    pub formula: Formula,
}

/// A comparison of a probe, one of a counter, or several formulas of which all or any hold.
#[derive(Debug, Drop)]
pub enum Formula {
    Probe(Compare),
    Counter(CounterTest),
    All(Items<Formula>),
    Any(Items<Formula>),
}

/// A comparison of a counter, by its number from 0 to 3, with a value.
#[derive(Clone, Copy, Debug, PartialEq, Eq)]
pub struct CounterTest {
    pub counter: u8,
    pub op: Op,
    pub value: u16,
}

/// What a branch does. Bit n of a mask stands for the flag or counter n.
#[derive(Clone, Copy, Debug, PartialEq, Eq)]
pub struct Branch {
    /// The state that the program is in next.
    pub next: u32,
    pub trigger: bool,
    /// The flags that become 1.
    pub set: u8,
    /// The flags that become 0.
    pub clear: u8,
    /// The counters that gain one.
    pub inc: u8,
    /// The counters that become 0.
    pub reset: u8,
}

/// Where a program is: the number of its state, its counters, and its flags, of which flag n is bit n.
#[derive(Clone, Copy, Debug, PartialEq, Eq)]
pub struct Config {
    pub state: u32,
    pub counters: [u16; 4],
    pub flags: u8,
}
