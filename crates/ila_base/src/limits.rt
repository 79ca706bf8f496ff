//! The greatest sizes that texts, netlists, projects, programs and stimuli may have. Clauses and
//! specifications name them by these constants.

/// Bytes of a netlist text.
pub const FILE_BYTES: usize = 67_108_864;

/// Bytes of a project, of a trigger program and of a settings text.
pub const SMALL_FILE_BYTES: usize = 1_048_576;

/// Bytes of an identifier, and of a name of a file, net or module in a project.
pub const NAME_BYTES: usize = 1024;

/// Bits of a constant.
pub const CONSTANT_BITS: u8 = 128;

/// The greatest unsized number (IEEE 1364-2005, 3.5.1: at least 32 bits are kept).
pub const GREATEST_NUMBER: u32 = 4_294_967_295;

/// Concatenations that are open at once.
pub const NESTING: u32 = 32;

/// The greatest index in a range or a select.
pub const GREATEST_INDEX: u32 = 1_048_575;

/// Instance names in the path of a cell.
pub const DEPTH: u64 = 256;

/// Cells of a flat netlist.
pub const CELLS: u64 = 1_048_576;

/// Pins of the cells of a flat netlist.
pub const PINS: u64 = 16_777_216;

/// Net bits of a flat netlist.
pub const NETS: u64 = 1_048_576;

/// Bytes of all identifiers of a flat netlist.
pub const ALL_NAME_BYTES: u64 = 67_108_864;

/// A count of a hierarchy that is carried: a greater one is carried as this.
pub const GREATEST_COUNT: u64 = 1_000_000_000_000;

/// The number of the last row of a stimulus.
pub const LAST_ROW: u64 = 4_294_967_295;

/// Cores of a project.
pub const CORES: usize = 8;

/// Bytes of the name of a core.
pub const CORE_NAME_BYTES: usize = 32;

/// Probes of a core.
pub const PROBES: usize = 64;

/// Bytes of the name of a probe.
pub const PROBE_NAME_BYTES: usize = 64;

/// Entries of a probe's list of nets.
pub const ENTRIES: usize = 128;

/// Bits of a sample: of all probes of a core.
pub const SAMPLE_BITS: u32 = 1024;

/// Bits of a probe.
pub const PROBE_BITS: usize = 128;

/// Comparators of a probe.
pub const COMPARATORS: u8 = 16;

/// Comparators of all probes of a core.
pub const ALL_COMPARATORS: u32 = 256;

/// Comparisons of a basic condition.
pub const COMPARES: usize = 64;

/// Product terms of a condition.
pub const TERMS: u8 = 64;

/// States of a program that a core can hold.
pub const STATES: usize = 16;

/// Conditions of a state.
pub const CONDITIONS: usize = 2;

/// Parentheses of a condition that are open at once; the one of `if` counts.
pub const PARENTHESES: u8 = 64;

/// Counters of a core, and flags of a core.
pub const REGISTERS: usize = 4;

/// Bits of a counter.
pub const COUNTER_BITS: usize = 16;

/// Samples of the least core.
pub const LEAST_DATA_DEPTH: u32 = 1024;

/// Samples of the greatest core.
pub const GREATEST_DATA_DEPTH: u32 = 131_072;

/// Bits of an address of a memory.
pub const ADDRESS_BITS: u64 = 17;

/// Bits of a row of a memory.
pub const DATA_BITS: u64 = 1024;
