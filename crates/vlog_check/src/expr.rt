ghost use Rattle.std.specs.Prelude.{◌≡◌, ℕ, ◌+◌, ◌*◌, ◌^◌, ◌≤◌, ◌<◌, [], ◌∷◌, ◌++◌, length, List, Some, None, true, false, IfOk};
ghost use Rattle.vlog_parse.specs.Leaves.{Leaf, Net, Bit, Part, Fixed, leaves};
ghost use Rattle.vlog_check.specs.Scope.{distance, range_width, has_index, has_part, is_declared};
ghost use Rattle.vlog_check.specs.Names.{IsNames, IsReading, IsRead, joined};

use crate::found::{Detail, Found, earlier};
use crate::names::Names;
use crate::spell::{bit_text, part_text};
use ila_base::{Name, NetRefusal, NoMemory, Place};
use std::alloc::Global;
use vlog_parse::{Expr, Range};

/// What the checks need of an expression.
#[derive(Drop)]
pub struct Reading {
    /// The place of the first name or constant.
    pub place: Option<Place>,
    pub width: u64,
    /// Whether all of it is declared.
    pub sound: bool,
    /// Whether there is a constant in it.
    pub fixed: bool,
    /// The first name, bit or part that isn't declared.
    pub found: Option<Found>,
}

// How far two indices are from each other.
fn distance(a: u32, b: u32) -> u64
    ensures value { result ≡ distance a b }
    ensures small { result < 2 ^ 32 }
{
    if a < b {
        (b - a) as u64
    } else {
        (a - b) as u64
    }
}

/// How many bits a net of this range has (IEEE 1364-2005, 4.3).
pub fn range_width(range: Option<Range>) -> u64
    ensures value { result ≡ range_width range }
    ensures small { result ≤ 2 ^ 32 }
{
    match range {
        None => 1,
        Some(range) => distance(range.left, range.right) + 1,
    }
}

fn has_index(range: Option<Range>, index: u32) -> bool
    ensures { result ≡ has_index range index }
{
    match range {
        None => false,
        Some(range) => {
            (range.right <= index && index <= range.left)
                || (range.left <= index && index <= range.right)
        }
    }
}

fn has_part(range: Option<Range>, left: u32, right: u32) -> bool
    ensures { result ≡ has_part range left right }
{
    match range {
        None => false,
        Some(range) => {
            (range.right <= right && right <= left && left <= range.left)
                || (range.left <= left && left <= right && right <= range.right)
        }
    }
}

// One leaf that is declared, of so many bits.
fn declared(place: Place, width: u64, fixed: bool) -> Reading
    ensures { result ≡ record { place = Some place; width = width; sound = true; fixed = fixed; found = None } }
{
    Reading {
        place: Some(place),
        width,
        sound: true,
        fixed,
        found: None,
    }
}

// One leaf that isn't declared, which is written so.
fn undeclared(place: Place, width: u64, text: Name) -> Reading
    ensures { result ≡ record { place = Some place; width = width; sound = false; fixed = false; found = Some (record { place = place; subject = 0; detail = Detail.Alone; refusal = NetRefusal.Undeclared text }) } }
{
    Reading {
        place: Some(place),
        width,
        sound: false,
        fixed: false,
        found: Some(Found {
            place,
            subject: 0,
            detail: Detail::Alone,
            refusal: NetRefusal::Undeclared(text),
        }),
    }
}

fn read_whole(alloc: Global, names: &Names, name: &Name, place: Place) -> Result<Reading, NoMemory>
    requires { IsNames names.now }
    ensures { IfOk result (IsReading names.now.module.now (Net name.now place ∷ [])) }
{
    match names.ranges.get(name.bytes()) {
        Some(range) => Ok(declared(place, range_width(range), false)),
        None => {
            let text = name.copied(alloc)?;
            Ok(undeclared(place, 0, text))
        }
    }
}

fn knows_bit(names: &Names, name: &Name, index: u32, place: Place) -> bool
    requires { IsNames names.now }
    ensures { result ≡ is_declared names.now.module.now (Bit name.now index place) }
{
    match names.ranges.get(name.bytes()) {
        Some(range) => has_index(range, index),
        None => false,
    }
}

fn read_bit(
    alloc: Global,
    names: &Names,
    name: &Name,
    index: u32,
    place: Place,
) -> Result<Reading, NoMemory>
    requires { IsNames names.now }
    ensures { IfOk result (IsReading names.now.module.now (Bit name.now index place ∷ [])) }
{
    if knows_bit(names, name, index, place) {
        return Ok(declared(place, 1, false));
    }
    let text = bit_text(alloc, name, index)?;
    Ok(undeclared(place, 1, text))
}

fn knows_part(names: &Names, name: &Name, left: u32, right: u32, place: Place) -> bool
    requires { IsNames names.now }
    ensures { result ≡ is_declared names.now.module.now (Part name.now left right place) }
{
    match names.ranges.get(name.bytes()) {
        Some(range) => has_part(range, left, right),
        None => false,
    }
}

fn read_part(
    alloc: Global,
    names: &Names,
    name: &Name,
    left: u32,
    right: u32,
    place: Place,
) -> Result<Reading, NoMemory>
    requires { IsNames names.now }
    ensures { IfOk result (IsReading names.now.module.now (Part name.now left right place ∷ [])) }
{
    let width = distance(left, right) + 1;
    if knows_part(names, name, left, right, place) {
        return Ok(declared(place, width, false));
    }
    let text = part_text(alloc, name, left, right)?;
    Ok(undeclared(place, width, text))
}

// The parts together: the first ones and then the second ones.
fn join(first: Reading, second: Reading) -> Reading
    ensures { result ≡ joined first second }
{
    Reading {
        place: first.place.or(second.place),
        width: first.width.saturating_add(second.width),
        sound: first.sound && second.sound,
        fixed: first.fixed || second.fixed,
        found: earlier(first.found, second.found),
    }
}

// Reads an expression of a module. It recurses as deep as concatenations are nested.
fn gather(alloc: Global, names: &Names, e: &Expr) -> Result<Reading, NoMemory>
    requires { IsNames names.now }
    ensures { IfOk result (IsReading names.now.module.now (leaves e.now)) }
{
    match e {
        Expr::Whole(name, place) => read_whole(alloc, names, name, *place),
        Expr::Bit(name, index, place) => read_bit(alloc, names, name, *index, *place),
        Expr::Part(name, left, right, place) => {
            read_part(alloc, names, name, *left, *right, *place)
        }
        Expr::Const(word, place) => Ok(declared(*place, word.width() as u64, true)),
        Expr::Concat(parts) => {
            let mut all = Reading {
                place: None,
                width: 0,
                sound: true,
                fixed: false,
                found: None,
            };
            for part in parts.as_slice() {
                let next = gather(alloc, names, part)?;
                all = join(all, next);
            }
            Ok(all)
        }
    }
}

/// Reads an expression of a module. It recurses as deep as concatenations are nested.
pub fn read(alloc: Global, names: &Names, e: &Expr) -> Result<Reading, NoMemory>
    requires names { IsNames names.now }
    requires few { length (leaves e.now) ≤ 67108864 }
    ensures { IfOk result (IsRead names.now.module.now e.now) }
{
    let reading = gather(alloc, names, e)?;
    Ok(reading)
}
