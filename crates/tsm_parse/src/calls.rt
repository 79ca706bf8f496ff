//! The calls of this crate.

pub use crate::digits::constant;
pub use crate::fitting::fit;
pub use crate::laws::{one_program, one_reading, one_refusal};
pub use crate::source::program;
