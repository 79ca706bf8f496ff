//! The checks of a netlist's names, pins and widths: of all findings the first one (IEEE 1364-2005,
//! clauses 4, 5, 6, 7 and 12; UG953 for the primitives' pins and parameters).
#![tactic(auto)]

mod checked;
mod connect;
mod contained;
mod design;
mod expr;
mod found;
mod inst;
mod kind;
mod laws;
mod missing;
mod modules;
mod names;
mod params;
mod primitive;
mod seen;
mod spell;
mod table;
mod whole;
mod width;

pub use checked::{Checked, check};
pub use expr::range_width;
pub use laws::{one_finding, one_refusal, one_refusal_of_text, rows_agree};
pub use primitive::{CellPin, Primitive, Size, cell_of, pins};
pub use table::Table;
