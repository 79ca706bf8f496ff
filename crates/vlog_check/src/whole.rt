//! Findings on a whole instance.

ghost use Rattle.std.specs.Prelude.{◌≡◌, ◌⊎◌, ◌≤◌, ℕ, is_some, Some, None, IfOk};
ghost use Rattle.vlog_parse.specs.ReadTree.{connected_exprs};
ghost use Rattle.vlog_check.specs.Found.{IsLeastFinding, FindsAmong};
ghost use Rattle.vlog_check.specs.FindingPins as finds;
ghost use Rattle.vlog_check.specs.FindingWidths.{FindsUndeclared};
ghost use Rattle.vlog_check.specs.Given.{IsGiven};
ghost use Rattle.vlog_check.specs.Kinds.{IsKind, AreFewNamed, kind_seen};
ghost use Rattle.vlog_check.specs.Names.{IsNames, AreFew};
ghost use Rattle.vlog_check.specs.Scope.{value_of};

use crate::connect::{find_connected, find_pin, read_connected};
use crate::expr::read;
use crate::found::{Detail, Found, earlier, keep_earlier};
use crate::inst::{find_in_params, find_in_positions, find_named};
use crate::kind::Kind;
use crate::missing::{Given, find_missing};
use crate::names::Names;
use crate::params::is_memory;
use crate::seen::has_name;
use ila_base::{Name, NetRefusal, NoMemory};
use std::alloc::Global;
use vlog_parse::{Conns, Expr, Inst, Value};

// What is found on the expressions of connections by name, whatever their pins are.
fn find_in_named_exprs(
    alloc: Global,
    names: &Names,
    given: &[(Name, Option<Expr>)],
) -> Result<Option<Found>, NoMemory>
    requires names { IsNames names.now }
    requires few { AreFewNamed given.now }
    ensures { IfOk result (IsLeastFinding (FindsAmong (λ k c g. finds.FindsConnected names.now.module.now None c.1 g) given.now)) }
{
    let mut best = None;
    for conn in given {
        let reading = read_connected(alloc, names, None, conn.1.as_ref())?;
        keep_earlier(&mut best, reading.1);
    }
    Ok(best)
}

// What is found on the expressions of connections by position, whatever their pins are.
fn find_in_placed_exprs(
    alloc: Global,
    names: &Names,
    given: &[Expr],
) -> Result<Option<Found>, NoMemory>
    requires names { IsNames names.now }
    requires few { AreFew given.now }
    ensures { IfOk result (IsLeastFinding (FindsAmong (λ k e g. FindsUndeclared names.now.module.now e g) given.now)) }
{
    let mut best = None;
    for e in given {
        let found = find_connected(None, read(alloc, names, e)?);
        keep_earlier(&mut best, found);
    }
    Ok(best)
}

// What is found on the expressions of an instance, whatever its pins are.
fn find_in_exprs(alloc: Global, names: &Names, i: &Inst) -> Result<Option<Found>, NoMemory>
    requires names { IsNames names.now }
    requires few { AreFew (connected_exprs i.now.conns) }
    ensures { IfOk result (IsLeastFinding (finds.FindsInExprs names.now.module.now i.now.conns)) }
{
    match &i.conns {
        Conns::ByName(given) => {
            let found = find_in_named_exprs(alloc, names, given.as_slice())?;
            Ok(found)
        }
        Conns::ByPlace(given) => {
            let found = find_in_placed_exprs(alloc, names, given.as_slice())?;
            Ok(found)
        }
    }
}

/// What is found on an instance of nothing.
pub fn find_in_unknown(alloc: Global, names: &Names, i: &Inst) -> Result<Option<Found>, NoMemory>
    requires names { IsNames names.now }
    requires few { AreFew (connected_exprs i.now.conns) }
    ensures { IfOk result (IsLeastFinding (λ f. finds.FindsUnknown i.now None f ⊎ finds.FindsInKind names.now.module.now i.now None f)) }
{
    let name = i.module.copied(alloc)?;
    let exprs = find_in_exprs(alloc, names, i)?;
    let unknown = Found {
        place: i.place,
        subject: 0,
        detail: Detail::Alone,
        refusal: NetRefusal::UnknownModule(name),
    };
    Ok(earlier(Some(unknown), exprs))
}

fn is_lacking(kind: &Kind, params: &[(Name, Value)], name: &[u8]) -> bool
    ensures { result ≡ finds.is_lacking (kind_seen kind.now) params.now name.now }
{
    match kind {
        Kind::Module(_) => false,
        Kind::Cell(sized) => is_memory(sized.cell) && !has_name(params, name),
    }
}

// What is found on parameters that an instance lacks.
fn find_lacking(alloc: Global, i: &Inst, kind: &Kind) -> Result<Option<Found>, NoMemory>
    ensures { IfOk result (IsLeastFinding (finds.FindsLacking i.now (kind_seen kind.now))) }
{
    let params = i.params.as_slice();
    let address = is_lacking(kind, params, b"AW");
    let mut first = find_pin(alloc, address, i.place, Detail::NoParameter(0), b"AW")?;
    let data = is_lacking(kind, params, b"DW");
    let second = find_pin(alloc, data, i.place, Detail::NoParameter(1), b"DW")?;
    keep_earlier(&mut first, second);
    Ok(first)
}

// What is found on the connections of an instance, and which pins they give.
fn find_in_conns<'a>(
    alloc: Global,
    names: &Names,
    i: &'a Inst,
    kind: &Kind,
) -> Result<(Given<'a>, Option<Found>), NoMemory>
    requires names { IsNames names.now }
    requires kind { IsKind i.now kind.now }
    requires few { AreFew (connected_exprs i.now.conns) }
    ensures given { IfOk result (λ r. IsGiven i.now.conns r.0) }
    ensures least { IfOk result (λ r. IsLeastFinding (finds.FindsInConns names.now.module.now i.now (kind_seen kind.now) i.now.conns) r.1) }
{
    match &i.conns {
        Conns::ByName(given) => {
            let (seen, found) = find_named(alloc, names, i, kind, given.as_slice())?;
            Ok((Given::ByName(seen), found))
        }
        Conns::ByPlace(given) => {
            let found = find_in_positions(alloc, names, i, kind, given.as_slice())?;
            Ok((Given::ByPlace(given.len()), found))
        }
    }
}

/// What is found on an instance of a cell or module.
pub fn find_in_kind(
    alloc: Global,
    names: &Names,
    i: &Inst,
    kind: &Kind,
) -> Result<Option<Found>, NoMemory>
    requires names { IsNames names.now }
    requires kind { IsKind i.now kind.now }
    requires few { AreFew (connected_exprs i.now.conns) }
    ensures { IfOk result (IsLeastFinding (finds.FindsInKind names.now.module.now i.now (Some (kind_seen kind.now)))) }
{
    let mut best = find_in_params(alloc, i, kind)?;
    let (given, conns) = find_in_conns(alloc, names, i, kind)?;
    keep_earlier(&mut best, conns);
    let lacking = find_lacking(alloc, i, kind)?;
    keep_earlier(&mut best, lacking);
    let missing = find_missing(alloc, i, kind, &given)?;
    keep_earlier(&mut best, missing);
    Ok(best)
}
