//! The parameters of cells (UG953).

ghost use Rattle.std.specs.Prelude.{◌≡◌, ◌≢◌, ◌<◌, ◌^◌, ℕ, List, MatchOption, map};
ghost use Rattle.std.specs.Str.{bytes_eq};
ghost use Rattle.vlog_check.specs.Cells as table;

use crate::primitive::{CellPin, Primitive, pins};
use ila_base::Name;
use vlog_parse::Value;

/// How large AW of a memory may be.
pub const ADDRESS_LIMIT: u64 = 17;

/// How large DW of a memory may be.
pub const DATA_LIMIT: u64 = 1024;

// INIT is below this; a cell without it has no INIT.
fn init_limit(cell: Primitive) -> Option<u128>
    ensures { result ≡ table.init_limit cell }
{
    match cell {
        Primitive::Lut1 => Some(4),
        Primitive::Lut2 => Some(16),
        Primitive::Lut3 => Some(256),
        Primitive::Lut4 => Some(65_536),
        Primitive::Lut5 => Some(4_294_967_296),
        Primitive::Lut6 => Some(18_446_744_073_709_551_616),
        Primitive::Fdre | Primitive::Fdse | Primitive::Fdce | Primitive::Fdpe => Some(2),
        _ => None,
    }
}

fn accepts_all(cell: Primitive) -> bool
    ensures { result ≡ table.accepts_all cell }
{
    match cell {
        Primitive::Ibuf | Primitive::Obuf | Primitive::Bufg => true,
        _ => false,
    }
}

/// Whether the cell is the sample memory, which must have AW and DW.
pub fn is_memory(cell: Primitive) -> bool
    ensures { result ≡ table.is_memory cell }
{
    match cell {
        Primitive::Mem => true,
        _ => false,
    }
}

// The number of a value, where it is one.
fn number_in(value: &Value) -> Option<u128>
    ensures { result ≡ table.number_in value.now }
{
    match value {
        Value::Whole(n) => Some(*n as u128),
        Value::Sized(word) => Some(word.word().value),
        Value::Text => None,
    }
}

fn is_below(limit: u128, value: &Value) -> bool
    ensures { result ≡ table.is_below limit value.now }
{
    match number_in(value) {
        None => false,
        Some(n) => n < limit,
    }
}

// The number of a value, where it is one from 1 to the limit.
fn amount_in(limit: u64, value: &Value) -> Option<u64>
    ensures { result ≡ table.amount_in limit value.now }
{
    match number_in(value) {
        None => None,
        Some(n) => {
            if 0 < n && n <= limit as u128 {
                Some(n as u64)
            } else {
                None
            }
        }
    }
}

// What stands for a pin in `IS_x_INVERTED`.
fn middle_of(name: &[u8]) -> Option<&[u8]>
    ensures { MatchOption result ((pin : List ℕ) → name.now ≢ table.inverted_name pin) (λ middle. name.now ≡ table.inverted_name middle.now) }
{
    match name.strip_prefix(b"IS_") {
        None => None,
        Some(rest) => rest.strip_suffix(b"_INVERTED"),
    }
}

fn is_inverted(name: &[u8], pin: &[u8]) -> bool
    ensures { result ≡ bytes_eq name.now (table.inverted_name pin.now) }
{
    match middle_of(name) {
        None => false,
        Some(middle) => middle == pin,
    }
}

fn is_inverter(rows: &[CellPin], name: &[u8]) -> bool
    ensures { result ≡ table.is_inverter (map table.pin_row rows.now) name.now }
{
    for row in rows {
        if is_inverted(name, row.name) {
            return true;
        }
    }
    false
}

fn is_init(limit: Option<u128>, name: &[u8], value: &Value) -> bool
    ensures { result ≡ table.is_init limit name.now value.now }
{
    match limit {
        None => false,
        Some(n) => name == b"INIT".as_slice() && is_below(n, value),
    }
}

fn is_amount(own: &[u8], limit: u64, name: &[u8], value: &Value) -> bool
    ensures { result ≡ table.is_amount own.now limit name.now value.now }
{
    name == own && amount_in(limit, value).is_some()
}

fn is_size(name: &[u8], value: &Value) -> bool
    ensures { result ≡ table.is_size name.now value.now }
{
    is_amount(b"AW", ADDRESS_LIMIT, name, value) || is_amount(b"DW", DATA_LIMIT, name, value)
}

/// Whether a cell accepts a parameter with a value.
pub fn accepts(cell: Primitive, name: &[u8], value: &Value) -> bool
    ensures { result ≡ table.accepts cell name.now value.now }
{
    accepts_all(cell)
        || is_init(init_limit(cell), name, value)
        || (is_memory(cell) && is_size(name, value))
        || (is_inverter(pins(cell), name) && is_below(1, value))
}

/// The value of a parameter that must be an amount up to a limit, where it is given once and is one.
pub fn only_amount(own: &[u8], limit: u64, params: &[(Name, Value)]) -> Option<u64>
    ensures { result ≡ table.only_amount limit (table.values_of own.now params.now) }
{
    let mut seen = None;
    for param in params {
        if param.0.bytes() == own {
            if seen.is_some() {
                return None;
            }
            seen = Some(param.1);
        }
    }
    match seen {
        None => None,
        Some(value) => amount_in(limit, &value),
    }
}
