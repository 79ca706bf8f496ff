//! Names that were met in flat order.
ghost use Rattle.std.specs.Prelude.{◌≡◌, ◌↔◌, ◌⊎◌, ℕ, ◌+◌, ◌*◌, ◌^◌, ◌<◌, ◌≤◌, true, List, [], ◌∷◌, ◌++◌, IfOk, OnOk, IfSome, IfNone, MatchBool, length, slice_get, Some};
ghost use Rattle.net_graph.specs.Lists.{IsIn, is_marked};
ghost use Rattle.net_core.specs.WellFormed.{indexed_name, IsIdentifier};
ghost use Rattle.flat_settle.specs.Refusals.{Named, Identifier, BitName};
ghost use Rattle.flat_settle.specs.Naming.{IsWhole, AreSeen, Sees};

use crate::numbers::Numbers;
use ila_base::NoMemory;
use indexmap::IndexSet;
use net_core::split_bit_name;

/// Names that were met: the fronts by number, a mark for the number of each that was met as an
/// identifier, another where it was met as a scalar's bit, and for each bit `index` of a vector the key
/// `number * 2^32 + index`.
#[derive(Drop)]
pub struct Seen<'a> {
    pub fronts: Numbers<'a>,
    pub identifiers: Vec<bool>,
    pub scalars: Vec<bool>,
    pub keys: IndexSet<u64>,
}

// Adds a key, and answers whether it was there.
fn add_key(keys: &mut IndexSet<u64>, key: u64) -> Result<bool, NoMemory>
    ensures { IfOk result (λ there. MatchBool there (IsIn keys.old.keys key × (keys.new.keys ≡ keys.old.keys)) ((¬ IsIn keys.old.keys key) × (keys.new.keys ≡ keys.old.keys ++ key ∷ []))) }
{
    let (_place, added) = keys.insert_full(key)?;
    Ok(!added)
}

// Lengthens the marks, if need be, so that they reach this number.
fn reach(marks: &mut Vec<bool>, number: usize) -> Result<(), NoMemory>
    requires small { number < 2 ^ 30 }
    ensures within { OnOk result (number < length marks.new.items) }
    ensures same { OnOk result ((n : ℕ) → is_marked marks.new.items n ≡ is_marked marks.old.items n) }
{
    if number >= marks.len() {
        marks.resize(number + 1, false)?;
    }
    Ok(())
}

// Marks a number, and answers whether it was marked.
fn mark(marks: &mut Vec<bool>, number: usize) -> Result<bool, NoMemory>
    requires small { number < 2 ^ 30 }
    ensures there { IfOk result (λ there. there ≡ is_marked marks.old.items number) }
    ensures marked { OnOk result ((n : ℕ) → (is_marked marks.new.items n ≡ true) ↔ ((is_marked marks.old.items n ≡ true) ⊎ (n ≡ number))) }
{
    reach(marks, number)?;
    let there = marks[number];
    marks[number] = true;
    Ok(there)
}

/// Meets an identifier, and answers whether it was met before, with its number.
pub fn see_identifier<'a>(seen: &mut Seen<'a>, name: &'a [u8]) -> Result<(bool, usize), NoMemory>
    requires few { length seen.old.fronts < 2 ^ 30 }
    ensures few { OnOk result (length seen.new.fronts ≤ length seen.old.fronts + 1) }
    ensures at { IfOk result (λ met. slice_get seen.new.fronts met.1 ≡ Some name.now) }
    ensures sees { IfOk result (λ met. (names : List Named) → AreSeen seen.old names → Sees seen.new names (Identifier name.now) met.0) }
{
    let number = seen.fronts.number(name)?;
    let there = mark(&mut seen.identifiers, number)?;
    Ok((there, number))
}

/// Meets a scalar's bit whose name has this number and not the form of a vector's bit, and answers
/// whether it was met before.
pub fn see_whole(seen: &mut Seen, number: usize, name: &[u8]) -> Result<bool, NoMemory>
    requires at { slice_get seen.old.fronts number ≡ Some name.now }
    requires few { length seen.old.fronts < 2 ^ 30 }
    requires whole { IsWhole name.now }
    ensures { IfOk result (λ there. (names : List Named) → AreSeen seen.old names → Sees seen.new names (BitName name.now) there) }
{
    let _name = name;
    mark(&mut seen.scalars, number)
}

/// Meets a bit of a vector whose name has this number, and answers whether it was met before.
pub fn see_bit(seen: &mut Seen, number: usize, front: &[u8], index: u32) -> Result<bool, NoMemory>
    requires at { slice_get seen.old.fronts number ≡ Some front.now }
    requires few { length seen.old.fronts < 2 ^ 30 }
    ensures same { seen.new.fronts ≡ seen.old.fronts }
    ensures sees { IfOk result (λ there. (names : List Named) → AreSeen seen.old names → Sees seen.new names (BitName (indexed_name front.now index)) there) }
{
    let _front = front;
    add_key(&mut seen.keys, number as u64 * 4_294_967_296 + index as u64)
}

/// Meets a scalar's bit whose name has the form of a vector's bit, and answers whether it was met before.
pub fn see_form<'a>(seen: &mut Seen<'a>, front: &'a [u8], index: u32) -> Result<bool, NoMemory>
    requires few { length seen.old.fronts < 2 ^ 30 }
    ensures { IfOk result (λ there. (names : List Named) → AreSeen seen.old names → Sees seen.new names (BitName (indexed_name front.now index)) there) }
{
    let number = seen.fronts.number(front)?;
    add_key(&mut seen.keys, number as u64 * 4_294_967_296 + index as u64)
}

/// The two parts of an identifier of the form `front[index]`.
pub fn split(name: &[u8]) -> Option<(&[u8], u32)>
    requires { IsIdentifier name.now }
    ensures split { IfSome result (λ parts. name.now ≡ indexed_name parts.0.now parts.1) }
    ensures whole { IfNone result (IsWhole name.now) }
{
    match str::from_utf8(name) {
        Ok(text) => match split_bit_name(text) {
            Some((front, index)) => Some((front.as_bytes(), index)),
            None => None,
        },
        Err(_) => None,
    }
}
