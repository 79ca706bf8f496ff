ghost use Rattle.std.specs.Prelude.{◌≡◌, ℕ, ◌≤◌, ◌<◌, ◌+◌, ◌*◌, ◌^◌, length, slice_get, slice_range, Some};
ghost use Rattle.ila_base.specs.declared.limits.TheConstants.{ADDRESS_BITS};
ghost use Rattle.net_core.specs.CellTable as kinds;
ghost use Rattle.clock_sim.specs.Reading.{bit_at_place, read_all, HasMemoryPins};
ghost use Rattle.net_core.specs.declared.kind.CellKind.TheVariants.{Mem};
ghost use Rattle.net_core.specs.Netlist.{Netlist};
ghost use Rattle.clock_sim.specs.Plan.{IsPlan, IsWithin, HasPinsWithin, AreWithin, IsSettledTo, HasConstants, IsPlaced, AreApart, AdvancesRow, WritesRow, IsAdvancedTo};

use crate::bits::Bits;
use crate::evaluate::{lut_output, next_bit, output, read, row_number};
use crate::plan::{Formula, Row};
use net_core::CellKind;

/// Gives each net of the formulas the bit of its output, one after the other. Where they are those of the
/// data outputs of a netlist in the order of levels, each output then has the bit that the bits of all
/// nets make.
pub fn settle(values: &mut Vec<bool>, pins: &[u32], formulas: &[Formula], stored: &Bits)
    requires formulas { AreWithin pins.now formulas.now (length values.old.items) }
    requires constants { HasConstants values.old.items }
    ensures { (net : Netlist) (rank : ℕ → ℕ) (slots : _) → IsPlan net rank slots pins.now formulas.now → IsSettledTo net slots stored.now (length slots) values.old.items values.new.items }
{
    for formula in formulas {
        let bit = formula_bit(values.as_slice(), pins, formula, stored);
        values[formula.net as usize + 2] = bit;
    }
}

// The bit of an output, as the bits of the nets and the stored bits are now.
fn formula_bit(values: &[bool], pins: &[u32], formula: &Formula, stored: &Bits) -> bool
    requires { HasPinsWithin pins.now formula.now }
    ensures { result ≡ kinds.output formula.now.kind (read_all values.now (slice_range pins.now formula.now.first formula.now.last)) (λ _. bit_at_place stored.now formula.now.base) formula.now.out }
{
    let own = &pins[formula.first..formula.last];
    match formula.kind {
        // Most cells are LUTs, and a LUT stores nothing.
        CellKind::Lut { n: _, init } => lut_output(init, values, own),
        kind => {
            let kept = stored.get(formula.base);
            output(kind, values, own, kept, formula.out as usize)
        }
    }
}

/// Puts the row of bits on the nets of the inputs.
pub fn place_inputs(values: &mut Vec<bool>, inputs: &[u32], row: &[bool])
    requires size { length inputs.now ≡ length row.now }
    requires within { (i n : ℕ) → slice_get inputs.now i ≡ Some n → n + 2 < length values.old.items }
    ensures { IsPlaced inputs.now row.now (length inputs.now) values.old.items values.new.items }
{
    for (i, net) in inputs.iter().enumerate() {
        values[*net as usize + 2] = row[i];
    }
}

/// Gives each register the stored bits of the next clock. Their stored bits stand one after the other, so
/// that no register's are changed by another.
pub fn advance(stored: &mut Bits, values: &[bool], pins: &[u32], registers: &[Row])
    requires within { IsWithin pins.now registers.now (length stored.old) }
    requires apart { AreApart registers.now }
    ensures { IsAdvancedTo values.now pins.now registers.now (length registers.now) stored.old stored.new }
{
    for row in registers {
        let own = &pins[row.first as usize..row.last as usize];
        advance_row(stored, values, own, row);
    }
}

// The stored bits of one register.
fn advance_row(stored: &mut Bits, values: &[bool], own: &[u32], row: &Row)
    requires few { length stored.old < 2 ^ 64 }
    requires base { row.now.base + kinds.content_size row.now.kind ≤ length stored.old }
    requires memory { HasMemoryPins row.now.kind (length own.now) }
    ensures { AdvancesRow row.now.kind row.now.base (read_all values.now own.now) stored.old stored.new }
{
    match row.kind {
        CellKind::Mem { aw, dw } => {
            write_memory(stored, values, own, row.base, aw as usize, dw as usize)
        }
        CellKind::Fdre(_) | CellKind::Fdse(_) | CellKind::Fdce(_) | CellKind::Fdpe(_) => {
            let bit = next_bit(row.kind, values, own, stored.get(row.base));
            stored.set(row.base, bit);
        }
        _ => {}
    }
}

// Writes the row of a memory, where WE is 1.
fn write_memory(stored: &mut Bits, values: &[bool], own: &[u32], base: usize, aw: usize, dw: usize)
    requires few { length stored.old < 2 ^ 64 }
    requires base { base + 2 ^ aw * dw ≤ length stored.old }
    requires pins { length own.now ≡ 1 + aw + dw }
    requires address { aw ≤ ADDRESS_BITS }
    requires width { 0 < dw }
    requires small { dw < 2 ^ 16 }
    ensures { AdvancesRow (Mem aw dw) base (read_all values.now own.now) stored.old stored.new }
{
    if !read(values, own, 0) {
        return;
    }
    let start = base + row_number(values, &own[1..1 + aw]) as usize * dw;
    write_row(stored, values, own, start, aw + dw, dw);
}

// Writes a row from its first bit on. The lowest bit is that of the last pin.
fn write_row(stored: &mut Bits, values: &[bool], own: &[u32], start: usize, last: usize, dw: usize)
    requires few { length stored.old < 2 ^ 64 }
    requires room { start + dw ≤ length stored.old }
    requires last { dw ≤ last }
    ensures { WritesRow start last dw (read_all values.now own.now) stored.old stored.new }
{
    for bit in 0..dw {
        stored.set(start + bit, read(values, own, last - bit));
    }
}
