ghost use Rattle.std.specs.Prelude.{◌≡◌, ℕ, ◌+◌, ◌<◌, ◌^◌, ◌++◌, ◌==◌, true, map, slice_get, Some, OnOk};
ghost use Rattle.std.specs.Int.{bit_at};
ghost use Rattle.std.specs.List.{range_with_len};
ghost use Rattle.vlog_parse.specs.Leaves.{Net as NetLeaf, Bit as BitLeaf, Part as PartLeaf};
ghost use Rattle.vlog_check.specs.Scope.{range_width, has_index, is_declared, is_sound};
ghost use Rattle.elab_design.specs.Design.{Path, Bit, indices, word_bits, sources, leaf_sources};
ghost use Rattle.elab_design.specs.Raw.{pin};
ghost use Rattle.elab_unfold.specs.Places.{net_pin, bit_pin, own_width, ArePlaces, Fits};

use crate::places::{Net, Places};
use ila_base::{Items, NoMemory, Place, Word};
use net_core::{NetId, Pin};
use vlog_check::range_width;
use vlog_lex::PackedWord;
use vlog_parse::{Expr, Range};

/// Adds nets with consecutive numbers.
pub fn push_nets(first: u32, count: u32, out: &mut Items<Pin>) -> Result<(), NoMemory>
    requires { first + count < 2 ^ 32 }
    ensures { OnOk result (out.new ≡ out.old ++ map net_pin (range_with_len first count)) }
{
    for k in 0..count {
        out.push(Pin::Net(NetId(first + k)))?;
    }
    Ok(())
}

// How many bits stand left of the one with an index.
fn place_of(range: Option<Range>, index: u32) -> u32
    requires { has_index range index ≡ true }
    ensures { slice_get (indices range) result ≡ Some index }
{
    match range {
        None => 0,
        Some(range) => {
            if index < range.left {
                range.left - index
            } else {
                index - range.left
            }
        }
    }
}

fn push_whole(
    places: &Places,
    base: u32,
    name: &[u8],
    place: Place,
    out: &mut Items<Pin>,
) -> Result<(), NoMemory>
    requires places { ArePlaces places.now }
    requires room { base + own_width places.now.holder.now < 2 ^ 32 }
    requires sound { is_declared places.now.holder.now (NetLeaf name.now place) ≡ true }
    ensures { OnOk result ((path : Path) (number : Bit → ℕ) → Fits places.now.holder.now path base number → out.new ≡ out.old ++ map (pin number) (leaf_sources places.now.holder.now path (NetLeaf name.now place))) }
{
    match places.nets.get(name) {
        None => Ok(()),
        Some(net) => {
            push_nets(base + net.first, range_width(net.range) as u32, out)?;
            Ok(())
        }
    }
}

fn push_bit(
    places: &Places,
    base: u32,
    name: &[u8],
    index: u32,
    place: Place,
    out: &mut Items<Pin>,
) -> Result<(), NoMemory>
    requires places { ArePlaces places.now }
    requires room { base + own_width places.now.holder.now < 2 ^ 32 }
    requires sound { is_declared places.now.holder.now (BitLeaf name.now index place) ≡ true }
    ensures { OnOk result ((path : Path) (number : Bit → ℕ) → Fits places.now.holder.now path base number → out.new ≡ out.old ++ map (pin number) (leaf_sources places.now.holder.now path (BitLeaf name.now index place))) }
{
    match places.nets.get(name) {
        None => Ok(()),
        Some(net) => {
            let first = base + net.first + place_of(net.range, index);
            push_nets(first, 1, out)?;
            Ok(())
        }
    }
}

fn push_part(
    places: &Places,
    base: u32,
    name: &[u8],
    part: Range,
    place: Place,
    out: &mut Items<Pin>,
) -> Result<(), NoMemory>
    requires places { ArePlaces places.now }
    requires room { base + own_width places.now.holder.now < 2 ^ 32 }
    requires sound { is_declared places.now.holder.now (PartLeaf name.now part.left part.right place) ≡ true }
    ensures { OnOk result ((path : Path) (number : Bit → ℕ) → Fits places.now.holder.now path base number → out.new ≡ out.old ++ map (pin number) (leaf_sources places.now.holder.now path (PartLeaf name.now part.left part.right place))) }
{
    match places.nets.get(name) {
        None => Ok(()),
        Some(net) => {
            let first = base + net.first + place_of(net.range, part.left);
            push_nets(first, range_width(Some(part)) as u32, out)?;
            Ok(())
        }
    }
}

fn has_bit(value: u128, i: u8) -> bool
    ensures { result ≡ (bit_at value i == 1) }
{
    if i < 128 { value >> i & 1 == 1 } else { false }
}

fn bit_pin(bit: bool) -> Pin
    ensures { result ≡ bit_pin bit }
{
    if bit { Pin::One } else { Pin::Zero }
}

// Adds the bits of a word, the most significant first.
fn push_word(word: Word, out: &mut Items<Pin>) -> Result<(), NoMemory>
    ensures { OnOk result (out.new ≡ out.old ++ map bit_pin (word_bits word)) }
{
    for k in 0..word.width {
        out.push(bit_pin(has_bit(word.value, word.width - 1 - k)))?;
    }
    Ok(())
}

// Adds the bits of a constant, the most significant first.
fn push_constant(constant: &PackedWord, out: &mut Items<Pin>) -> Result<(), NoMemory>
    ensures { OnOk result (out.new ≡ out.old ++ map bit_pin (word_bits constant.now)) }
{
    push_word(constant.word(), out)?;
    Ok(())
}

/// Adds what the bits of an expression of a module are on, the most significant first, where the
/// numbers of the module's net bits begin with `base`. It recurses as deep as concatenations are nested.
pub fn push_pins(places: &Places, base: u32, e: &Expr, out: &mut Items<Pin>) -> Result<(), NoMemory>
    requires places { ArePlaces places.now }
    requires room { base + own_width places.now.holder.now < 2 ^ 32 }
    requires sound { is_sound places.now.holder.now e.now ≡ true }
    ensures { OnOk result ((path : Path) (number : Bit → ℕ) → Fits places.now.holder.now path base number → out.new ≡ out.old ++ map (pin number) (sources places.now.holder.now path e.now)) }
{
    match e {
        Expr::Whole(name, place) => {
            push_whole(places, base, name.bytes(), *place, out)?;
            Ok(())
        }
        Expr::Bit(name, index, place) => {
            push_bit(places, base, name.bytes(), *index, *place, out)?;
            Ok(())
        }
        Expr::Part(name, left, right, place) => {
            let part = Range {
                left: *left,
                right: *right,
            };
            push_part(places, base, name.bytes(), part, *place, out)?;
            Ok(())
        }
        Expr::Const(word, _) => {
            push_constant(word, out)?;
            Ok(())
        }
        Expr::Concat(parts) => {
            for part in parts.as_slice() {
                push_pins(places, base, part, out)?;
            }
            Ok(())
        }
    }
}
