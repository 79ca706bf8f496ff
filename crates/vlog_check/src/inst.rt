ghost use Rattle.std.specs.Prelude.{◌≡◌, ◌⊎◌, ◌≤◌, ◌<◌, ℕ, List, is_some, length, slice_get, Some, Option, IfOk, IfSome};
ghost use Rattle.std.specs.Option.{option_copied};
ghost use Rattle.vlog_parse.specs.Leaves.{leaves};
ghost use Rattle.vlog_check.specs.Found.{IsLeastFinding, FindsAmong};
ghost use Rattle.vlog_check.specs.FindingPins as finds;
ghost use Rattle.vlog_check.specs.Kinds.{IsKind, AreSeen, AreFewNamed, kind_seen};
ghost use Rattle.vlog_check.specs.Names.{IsNames, AreFew};
ghost use Rattle.vlog_check.specs.Scope.{value_of};

use crate::connect::{Link, find_connected, find_connection, find_pin};
use crate::expr::read;
use crate::found::{Detail, Found, keep_earlier};
use crate::kind::{Kind, pin_of};
use crate::names::Names;
use crate::params::accepts;
use crate::seen::Seen;
use ila_base::{Name, NoMemory};
use std::alloc::Global;
use vlog_parse::{Expr, Inst, Value};

fn is_bad_parameter(kind: &Kind, twice: bool, param: &(Name, Value)) -> bool
    ensures { result ≡ finds.is_bad_parameter (kind_seen kind.now) twice param.now }
{
    match kind {
        Kind::Module(_) => true,
        Kind::Cell(sized) => twice || !accepts(sized.cell, param.0.bytes(), &param.1),
    }
}

/// What is found on the parameters of an instance (IEEE 1364-2005, 12.2.2.2).
pub fn find_in_params(alloc: Global, i: &Inst, kind: &Kind) -> Result<Option<Found>, NoMemory>
    ensures { IfOk result (IsLeastFinding (FindsAmong (finds.FindsParameter i.now (kind_seen kind.now)) i.now.params)) }
{
    let given = i.params.as_slice();
    let mut seen = Seen::none_of(alloc, given);
    let mut best = None;
    for (k, param) in given.iter().enumerate() {
        let name = param.0.bytes();
        let twice = seen.has(name);
        let bad = is_bad_parameter(kind, twice, param);
        let detail = Detail::Parameter(k as u64);
        let found = find_pin(alloc, bad, i.place, detail, name)?;
        keep_earlier(&mut best, found);
        seen = seen.with(given, k)?;
    }
    Ok(best)
}

/// What is found on connections by name (12.3.6), and which names they have.
pub fn find_named<'a>(
    alloc: Global,
    names: &Names,
    i: &Inst,
    kind: &Kind,
    given: &'a [(Name, Option<Expr>)],
) -> Result<(Seen<'a, Option<Expr>>, Option<Found>), NoMemory>
    requires names { IsNames names.now }
    requires kind { IsKind i.now kind.now }
    requires few { AreFewNamed given.now }
    ensures seen { IfOk result (λ r. AreSeen r.0 given.now) }
    ensures least { IfOk result (λ r. IsLeastFinding (FindsAmong (finds.FindsNamed names.now.module.now i.now (kind_seen kind.now) given.now) given.now) r.1) }
{
    let mut seen = Seen::none_of(alloc, given);
    let mut best = None;
    for (k, conn) in given.iter().enumerate() {
        let name = conn.0.bytes();
        let twice = seen.has(name);
        let link = Link {
            place: i.place,
            number: k,
            name: &conn.0,
            twice,
        };
        let pin = pin_of(kind, name);
        let found = find_connection(alloc, names, link, pin, conn.1.as_ref())?;
        keep_earlier(&mut best, found);
        seen = seen.with(given, k)?;
    }
    Ok((seen, best))
}

// The port of a module at a place of its header.
fn port_at<'b>(kind: &'b Kind, k: usize) -> Option<&'b Name>
    ensures { option_copied result ≡ finds.port_at (kind_seen kind.now) k }
{
    match kind {
        Kind::Cell(_) => None,
        Kind::Module(names) => names.module.ports.get(k),
    }
}

// What is found on a connection by position.
fn find_placed(
    alloc: Global,
    names: &Names,
    i: &Inst,
    kind: &Kind,
    k: usize,
    e: &Expr,
) -> Result<Option<Found>, NoMemory>
    requires names { IsNames names.now }
    requires kind { IsKind i.now kind.now }
    requires few { length (leaves e.now) ≤ 67108864 }
    ensures { IfOk result (IsLeastFinding (finds.FindsPlaced names.now.module.now i.now (kind_seen kind.now) k (finds.port_at (kind_seen kind.now) k) e.now)) }
{
    match port_at(kind, k) {
        None => {
            let found = find_connected(None, read(alloc, names, e)?);
            Ok(found)
        }
        Some(name) => {
            let link = Link {
                place: i.place,
                number: k,
                name,
                twice: false,
            };
            let pin = pin_of(kind, name.bytes());
            let found = find_connection(alloc, names, link, pin, Some(e))?;
            Ok(found)
        }
    }
}

// The finding on connections by position that a cell has, or that are more than the ports.
fn find_positions(
    alloc: Global,
    i: &Inst,
    kind: &Kind,
    given: &[Expr],
) -> Result<Option<Found>, NoMemory>
    ensures { IfOk result (IsLeastFinding (finds.FindsPositions i.now (kind_seen kind.now) given.now)) }
{
    match kind {
        Kind::Cell(_) => {
            let detail = Detail::Connection(0);
            let found = find_pin(alloc, true, i.place, detail, i.name.bytes())?;
            Ok(found)
        }
        Kind::Module(names) => {
            let count = names.module.ports.len();
            let detail = Detail::Connection(count as u64);
            let more = count < given.len();
            let found = find_pin(alloc, more, i.place, detail, i.name.bytes())?;
            Ok(found)
        }
    }
}

/// What is found on connections by position (12.3.5).
pub fn find_in_positions(
    alloc: Global,
    names: &Names,
    i: &Inst,
    kind: &Kind,
    given: &[Expr],
) -> Result<Option<Found>, NoMemory>
    requires names { IsNames names.now }
    requires kind { IsKind i.now kind.now }
    requires few { AreFew given.now }
    ensures { IfOk result (IsLeastFinding (λ f. FindsAmong (λ k e g. finds.FindsPlaced names.now.module.now i.now (kind_seen kind.now) k (finds.port_at (kind_seen kind.now) k) e g) given.now f ⊎ finds.FindsPositions i.now (kind_seen kind.now) given.now f)) }
{
    let mut best = None;
    for (k, e) in given.iter().enumerate() {
        let found = find_placed(alloc, names, i, kind, k, e)?;
        keep_earlier(&mut best, found);
    }
    let positions = find_positions(alloc, i, kind, given)?;
    keep_earlier(&mut best, positions);
    Ok(best)
}
