//! What rules of the grammar give before it stands in the tree.

use crate::types::{AstBlock, AstFormula, Constant};
use ila_base::{Items, Name, Place};

/// A name or register, and its place.
#[derive(Debug, Drop)]
pub struct Named {
    pub name: Name,
    pub place: Place,
}

/// A condition and its block.
#[derive(Debug, Drop)]
pub struct Branch {
    pub cond: AstFormula,
    pub block: AstBlock,
}

/// What stands behind a state's name.
#[derive(Debug, Drop)]
pub struct Body {
    pub conds: Items<AstFormula>,
    pub blocks: Items<AstBlock>,
    pub has_else: bool,
}

/// A constant and its place.
#[derive(Debug, Drop)]
pub struct Valued {
    pub constant: Constant,
    pub place: Place,
}
