ghost use Rattle.std.specs.Prelude.{◌≡◌, ◌⊎◌, ◌≤◌, ◌&&◌, ℕ, List, is_some, is_none, take, slice_get, Some, false, IfOk, IfSome, length};
ghost use Rattle.std.specs.Option.{option_copied, option_map_or};
ghost use Rattle.ila_base.specs.declared.refusal.NetRefusal.TheVariants as refusals;
ghost use Rattle.vlog_parse.specs.declared.tree.Expr.{Expr as ExprOf};
ghost use Rattle.vlog_parse.specs.declared.tree.Module.{Module as ModuleOf};
ghost use Rattle.vlog_parse.specs.Leaves.{leaves};
ghost use Rattle.vlog_check.specs.declared.found.Detail.TheVariants as details;
ghost use Rattle.vlog_check.specs.Found.{IsLeastFinding, FindsAmong, FindsIf};
ghost use Rattle.vlog_check.specs.FindingPins.{FindsConnected, FindsConnection, FindsNamed, is_bad_pin, goes_in};
ghost use Rattle.vlog_check.specs.FindingWidths.{finding};
ghost use Rattle.vlog_check.specs.Kinds.{IsKind, kind_seen};
ghost use Rattle.vlog_check.specs.Names.{IsNames, IsRead};
ghost use Rattle.vlog_check.specs.Scope.{value_of, has_constant};

use crate::expr::{Reading, read};
use crate::found::{Detail, Found, keep_earlier};
use crate::kind::{Kind, Pin, goes_in, goes_out, pin_of};
use crate::names::Names;
use crate::width::{find_width, pin_finding};
use ila_base::{Name, NetRefusal, NoMemory, Place};
use std::alloc::Global;
use vlog_parse::{Expr, Inst};

/// The finding on a pin, where there is one.
pub fn find_pin(
    alloc: Global,
    holds: bool,
    place: Place,
    detail: Detail,
    name: &[u8],
) -> Result<Option<Found>, NoMemory>
    ensures { IfOk result (IsLeastFinding (FindsIf holds (finding place detail (refusals.Pin name.now)))) }
{
    if holds {
        let name = Name::new(alloc, name)?;
        return Ok(Some(pin_finding(place, detail, name)));
    }
    Ok(None)
}

/// The finding on an input that is open, where there is one.
pub fn find_open(
    alloc: Global,
    holds: bool,
    place: Place,
    detail: Detail,
    name: &Name,
) -> Result<Option<Found>, NoMemory>
    ensures { IfOk result (IsLeastFinding (FindsIf holds (finding place detail (refusals.OpenInput name.now)))) }
{
    if holds {
        let name = name.copied(alloc)?;
        return Ok(Some(Found {
            place,
            subject: 0,
            detail,
            refusal: NetRefusal::OpenInput(name),
        }));
    }
    Ok(None)
}

//// The same where the name is in bytes.
pub fn find_open_named(
    alloc: Global,
    holds: bool,
    place: Place,
    detail: Detail,
    name: &[u8],
) -> Result<Option<Found>, NoMemory>
    ensures { IfOk result (IsLeastFinding (FindsIf holds (finding place detail (refusals.OpenInput name.now)))) }
{
    if holds {
        let name = Name::new(alloc, name)?;
        return Ok(Some(Found {
            place,
            subject: 0,
            detail,
            refusal: NetRefusal::OpenInput(name),
        }));
    }
    Ok(None)
}

/// What is found on an expression that a pin is connected to.
pub fn find_connected(pin: Option<Pin>, reading: Reading) -> Option<Found>
    ensures { (m : ModuleOf) (e : ExprOf) → IsRead m e reading → IsLeastFinding (FindsConnected m pin (Some e)) result }
{
    match pin {
        None => reading.found,
        Some(pin) => {
            let width = find_width(pin.width, &reading);
            let mut best = reading.found;
            keep_earlier(&mut best, width);
            best
        }
    }
}

/// Whether there is a constant in what a pin is connected to, and what is found on it.
pub fn read_connected(
    alloc: Global,
    names: &Names,
    pin: Option<Pin>,
    e: Option<&Expr>,
) -> Result<(bool, Option<Found>), NoMemory>
    requires names { IsNames names.now }
    requires few { IfSome e (λ x. length (leaves x.now) ≤ 67108864) }
    ensures fixed { IfOk result (λ r. r.0 ≡ option_map_or has_constant (option_copied e.entry) false) }
    ensures least { IfOk result (λ r. IsLeastFinding (FindsConnected names.now.module.now pin (option_copied e.entry)) r.1) }
{
    match e {
        None => Ok((false, None)),
        Some(e) => {
            let reading = read(alloc, names, e)?;
            let fixed = reading.fixed;
            Ok((fixed, find_connected(pin, reading)))
        }
    }
}

/// A connection of an instance: its number, its pin's name, and whether the pin is given before.
#[derive(Clone, Copy)]
pub struct Link<'a> {
    pub place: Place,
    pub number: usize,
    pub name: &'a Name,
    pub twice: bool,
}

// Whether a connection can't stand, to which a constant is connected or not.
fn is_bad_pin(pin: Option<Pin>, twice: bool, constant: bool) -> bool
    ensures { result ≡ is_bad_pin pin twice constant }
{
    pin.is_none() || twice || (goes_out(pin) && constant)
}

// Whether an input is given as open.
fn is_open(pin: Option<Pin>, e: Option<&Expr>) -> bool
    ensures { result ≡ (goes_in pin && is_none (option_copied e.entry)) }
{
    goes_in(pin) && e.is_none()
}

/// What is found on a connection.
pub fn find_connection(
    alloc: Global,
    names: &Names,
    link: Link,
    pin: Option<Pin>,
    e: Option<&Expr>,
) -> Result<Option<Found>, NoMemory>
    requires names { IsNames names.now }
    requires few { IfSome e (λ x. length (leaves x.now) ≤ 67108864) }
    ensures { IfOk result (IsLeastFinding (FindsConnection names.now.module.now link.entry.place link.entry.number link.entry.name.now pin link.entry.twice (option_copied e.entry))) }
{
    let open = is_open(pin, e);
    let (fixed, connected) = read_connected(alloc, names, pin, e)?;
    let bad = is_bad_pin(pin, link.twice, fixed);
    let detail = Detail::Connection(link.number as u64);
    let mut best = find_pin(alloc, bad, link.place, detail, link.name.bytes())?;
    let open = find_open(alloc, open, link.place, detail, link.name)?;
    keep_earlier(&mut best, open);
    keep_earlier(&mut best, connected);
    Ok(best)
}
