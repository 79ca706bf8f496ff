ghost use Rattle.std.specs.Prelude.{◌≡◌, ◌≤◌, ℕ, IfOk};
ghost use Rattle.vlog_parse.specs.declared.tree.Conns.{Conns as ConnsOf};
ghost use Rattle.vlog_check.specs.declared.primitive.Primitive.{Primitive as PrimitiveOf};
ghost use Rattle.vlog_check.specs.Found.{IsLeastFinding, FindsAmong};
ghost use Rattle.vlog_check.specs.FindingPins as finds;
ghost use Rattle.vlog_check.specs.Given.{IsGiven};
ghost use Rattle.vlog_check.specs.Kinds.{IsKind, kind_seen};
ghost use Rattle.vlog_check.specs.Names.{IsNames};
ghost use Rattle.vlog_check.specs.Scope as scope;

use crate::connect::find_open_named;
use crate::found::{Detail, Found, keep_earlier};
use crate::kind::{Kind, goes_in, pin_of};
use crate::names::Names;
use crate::primitive::{Primitive, pins};
use crate::seen::Seen;
use ila_base::NoMemory;
use std::alloc::Global;
use vlog_parse::{Expr, Inst};

/// Which pins of an instance have a connection: those with these names, or so many in order.
#[derive(Drop)]
pub enum Given<'a> {
    ByName(Seen<'a, Option<Expr>>),
    ByPlace(usize),
}

fn is_given(given: &Given, k: usize, name: &[u8]) -> bool
    ensures { (conns : ConnsOf) → IsGiven conns given.now → result ≡ scope.is_given conns k name.now }
{
    match given {
        Given::ByName(seen) => seen.has(name),
        Given::ByPlace(count) => k < *count,
    }
}

// What is found on a pin of a cell if it isn't given.
fn find_missing_pin(
    alloc: Global,
    i: &Inst,
    kind: &Kind,
    given: &Given,
    k: usize,
    name: &[u8],
) -> Result<Option<Found>, NoMemory>
    requires kind { IsKind i.now kind.now }
    requires given { IsGiven i.now.conns given.now }
    ensures { IfOk result (λ found. (cell : PrimitiveOf) → kind_seen kind.now ≡ scope.OfCell cell → IsLeastFinding (finds.FindsMissing i.now (scope.OfCell cell) k name.now) found) }
{
    let missing = !is_given(given, k, name) && goes_in(pin_of(kind, name));
    let detail = Detail::NoPin(k as u64);
    let found = find_open_named(alloc, missing, i.place, detail, name)?;
    Ok(found)
}

// What is found on the pins of a cell that aren't given.
fn find_missing_of_cell(
    alloc: Global,
    i: &Inst,
    kind: &Kind,
    cell: Primitive,
    given: &Given,
) -> Result<Option<Found>, NoMemory>
    requires kind { IsKind i.now kind.now }
    requires cell { kind_seen kind.now ≡ scope.OfCell cell }
    requires given { IsGiven i.now.conns given.now }
    ensures { IfOk result (IsLeastFinding (FindsAmong (finds.FindsMissing i.now (scope.OfCell cell)) (scope.pin_names (scope.OfCell cell)))) }
{
    let mut best = None;
    for (k, pin) in pins(cell).iter().enumerate() {
        let found = find_missing_pin(alloc, i, kind, given, k, pin.name)?;
        keep_earlier(&mut best, found);
    }
    Ok(best)
}

// What is found on the pins of a module that aren't given. It takes no longer than there are
// connections.
fn find_missing_of_module(
    alloc: Global,
    i: &Inst,
    names: &Names,
    given: &Given,
) -> Result<Option<Found>, NoMemory>
    requires names { IsNames names.now }
    requires given { IsGiven i.now.conns given.now }
    ensures { IfOk result (IsLeastFinding (FindsAmong (finds.FindsMissing i.now (scope.OfModule names.now.module.now)) names.now.module.now.ports)) }
{
    for k in names.inputs.as_slice() {
        match names.module.ports.get(*k) {
            None => {}
            Some(name) => {
                if !is_given(given, *k, name.bytes()) {
                    let detail = Detail::NoPin(*k as u64);
                    let found = find_open_named(alloc, true, i.place, detail, name.bytes())?;
                    return Ok(found);
                }
            }
        }
    }
    Ok(None)
}

/// What is found on the pins of an instance that aren't given.
pub fn find_missing(
    alloc: Global,
    i: &Inst,
    kind: &Kind,
    given: &Given,
) -> Result<Option<Found>, NoMemory>
    requires kind { IsKind i.now kind.now }
    requires given { IsGiven i.now.conns given.now }
    ensures { IfOk result (IsLeastFinding (FindsAmong (finds.FindsMissing i.now (kind_seen kind.now)) (scope.pin_names (kind_seen kind.now)))) }
{
    match kind {
        Kind::Cell(sized) => {
            let found = find_missing_of_cell(alloc, i, kind, sized.cell, given)?;
            Ok(found)
        }
        Kind::Module(names) => {
            let found = find_missing_of_module(alloc, i, names, given)?;
            Ok(found)
        }
    }
}
