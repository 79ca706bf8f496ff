//! Findings on the whole design.

ghost use Rattle.std.specs.Prelude.{◌≡◌, ◌<◌, ◌+◌, ◌^◌, ℕ, slice_get, Some, IfOk, IfSome};
ghost use Rattle.std.specs.Option.{option_map};
ghost use Rattle.ila_base.specs.declared.refusal.NetRefusal.TheVariants as refusals;
ghost use Rattle.vlog_check.specs.declared.found.Detail.TheVariants as details;
ghost use Rattle.vlog_parse.specs.declared.tree.Item.{Item as ItemOf};
ghost use Rattle.vlog_parse.specs.ReadTree.{IsReadTree, item_exprs, connected_exprs};
ghost use Rattle.vlog_check.specs.Checked.{Finds, FindsWithin};
ghost use Rattle.vlog_check.specs.Design.{IsScope, FindsLate, FindsLateItem};
ghost use Rattle.vlog_check.specs.Found.{IsLeastFinding, FindsAmong};
ghost use Rattle.vlog_check.specs.FindingNames.{FindsNoDirection, FindsOutside};
ghost use Rattle.vlog_check.specs.FindingPins.{FindsInInst};
ghost use Rattle.vlog_check.specs.Kinds.{IsKind, kind_seen};
ghost use Rattle.vlog_check.specs.Names.{IsNames, AreFew};
ghost use Rattle.vlog_check.specs.Scope as look;

use crate::found::{Detail, Found, earlier, keep_earlier};
use crate::kind::{Kind, sized_cell};
use crate::modules::{Scope, read_scope};
use crate::names::Names;
use crate::primitive::cell_of;
use crate::whole::{find_in_kind, find_in_unknown};
use crate::width::{find_in_assign, find_in_gate};
use ila_base::{Name, NetRefusal, NoMemory, Place};
use std::alloc::Global;
use vlog_parse::{Inst, Item, Tree};

// What an instance is of.
fn kind_of<'b>(scope: &'b Scope<'b>, i: &Inst) -> Option<Kind<'b>>
    requires { IsScope scope.now.tree.now scope.now }
    ensures kind { IfSome result (IsKind i.now) }
    ensures same { option_map kind_seen result ≡ look.kind_of scope.now.tree.now i.now }
{
    match cell_of(i.module.bytes()) {
        Some(cell) => Some(sized_cell(cell, i)),
        None => match scope.modules.get(i.module.bytes()) {
            None => None,
            Some(number) => match scope.names.get(number) {
                None => None,
                Some(names) => Some(Kind::Module(names)),
            },
        },
    }
}

// What is found on an instance.
fn find_in_inst(
    alloc: Global,
    scope: &Scope,
    names: &Names,
    i: &Inst,
) -> Result<Option<Found>, NoMemory>
    requires scope { IsScope scope.now.tree.now scope.now }
    requires names { IsNames names.now }
    requires few { AreFew (connected_exprs i.now.conns) }
    ensures { IfOk result (IsLeastFinding (FindsInInst scope.now.tree.now names.now.module.now i.now)) }
{
    match kind_of(scope, i) {
        None => {
            let found = find_in_unknown(alloc, names, i)?;
            Ok(found)
        }
        Some(kind) => {
            let found = find_in_kind(alloc, names, i, &kind)?;
            Ok(found)
        }
    }
}

// What is found within an item.
fn find_within(
    alloc: Global,
    scope: &Scope,
    names: &Names,
    item: &Item,
) -> Result<Option<Found>, NoMemory>
    requires scope { IsScope scope.now.tree.now scope.now }
    requires names { IsNames names.now }
    requires few { AreFew (item_exprs item.now) }
    ensures { IfOk result (IsLeastFinding (FindsWithin scope.now.tree.now names.now.module.now item.now)) }
{
    match item {
        Item::Net(_) => Ok(None),
        Item::Assign(target, value) => {
            let found = find_in_assign(alloc, names, target, value)?;
            Ok(found)
        }
        Item::Gate(g) => {
            let found = find_in_gate(alloc, names, g)?;
            Ok(found)
        }
        Item::Inst(i) => {
            let found = find_in_inst(alloc, scope, names, i)?;
            Ok(found)
        }
    }
}

// The finding on a name that is undeclared.
fn undeclared(alloc: Global, place: Place, subject: u64, name: &Name) -> Result<Found, NoMemory>
    ensures { IfOk result (λ f. f ≡ record { place = place; subject = subject; detail = details.Alone; refusal = refusals.Undeclared name.now }) }
{
    let name = name.copied(alloc)?;
    Ok(Found {
        place,
        subject,
        detail: Detail::Alone,
        refusal: NetRefusal::Undeclared(name),
    })
}

// The finding on a declaration by a direction of what is no port.
fn find_outside(alloc: Global, names: &Names, item: &Item) -> Result<Option<Found>, NoMemory>
    requires { IsNames names.now }
    ensures { IfOk result (IsLeastFinding (FindsOutside names.now.module.now item.now)) }
{
    match item {
        Item::Net(d) => {
            if d.dir.is_some() && names.ports.get(d.name.bytes()).is_none() {
                let found = undeclared(alloc, d.place, 0, &d.name)?;
                return Ok(Some(found));
            }
            Ok(None)
        }
        _ => Ok(None),
    }
}

// What is found on an item where the names of all are known.
fn find_in_item(
    alloc: Global,
    scope: &Scope,
    names: &Names,
    item: &Item,
) -> Result<Option<Found>, NoMemory>
    requires scope { IsScope scope.now.tree.now scope.now }
    requires names { IsNames names.now }
    requires few { AreFew (item_exprs item.now) }
    ensures { IfOk result (λ found. (k : ℕ) → IsLeastFinding (FindsLateItem scope.now.tree.now names.now.module.now k item.now) found) }
{
    let mut best = find_outside(alloc, names, item)?;
    let within = find_within(alloc, scope, names, item)?;
    keep_earlier(&mut best, within);
    Ok(best)
}

// What is found on the items of a module where the names of all are known.
fn find_in_items(alloc: Global, scope: &Scope, names: &Names) -> Result<Option<Found>, NoMemory>
    requires scope { IsScope scope.now.tree.now scope.now }
    requires names { IsNames names.now }
    requires few { (k : ℕ) (item : ItemOf) → slice_get names.now.module.now.items k ≡ Some item → AreFew (item_exprs item) }
    ensures { IfOk result (IsLeastFinding (FindsAmong (FindsLateItem scope.now.tree.now names.now.module.now) names.now.module.now.items)) }
{
    let mut best = None;
    for item in names.module.items.as_slice() {
        let found = find_in_item(alloc, scope, names, item)?;
        keep_earlier(&mut best, found);
    }
    Ok(best)
}

// The finding on a name of the header that has no direction.
fn find_no_direction(
    alloc: Global,
    names: &Names,
    k: usize,
    name: &Name,
) -> Result<Option<Found>, NoMemory>
    requires names { IsNames names.now }
    requires few { k + 1 < 2 ^ 64 }
    ensures { IfOk result (IsLeastFinding (FindsNoDirection names.now.module.now k name.now)) }
{
    if names.directed.get(name.bytes()).is_none() {
        let found = undeclared(alloc, names.module.place, k as u64 + 1, name)?;
        return Ok(Some(found));
    }
    Ok(None)
}

// What is found on the header of a module where its names are known.
fn find_in_header(alloc: Global, names: &Names) -> Result<Option<Found>, NoMemory>
    requires { IsNames names.now }
    ensures { IfOk result (IsLeastFinding (FindsAmong (FindsNoDirection names.now.module.now) names.now.module.now.ports)) }
{
    let mut best = None;
    for (k, name) in names.module.ports.as_slice().iter().enumerate() {
        let found = find_no_direction(alloc, names, k, name)?;
        keep_earlier(&mut best, found);
    }
    Ok(best)
}

// What is found on a module where the names of all are known.
fn find_late(alloc: Global, scope: &Scope, names: &Names) -> Result<Option<Found>, NoMemory>
    requires scope { IsScope scope.now.tree.now scope.now }
    requires names { IsNames names.now }
    requires few { (k : ℕ) (item : ItemOf) → slice_get names.now.module.now.items k ≡ Some item → AreFew (item_exprs item) }
    ensures { IfOk result (λ found. (k : ℕ) → IsLeastFinding (FindsLate scope.now.tree.now k names.now.module.now) found) }
{
    let header = find_in_header(alloc, names)?;
    let items = find_in_items(alloc, scope, names)?;
    Ok(earlier(header, items))
}

// What is found on all modules where the names of all are known.
fn find_in_modules(alloc: Global, scope: &Scope) -> Result<Option<Found>, NoMemory>
    requires scope { IsScope scope.now.tree.now scope.now }
    requires tree { IsReadTree scope.now.tree.now }
    ensures { IfOk result (IsLeastFinding (FindsAmong (FindsLate scope.now.tree.now) scope.now.tree.now.modules)) }
{
    let mut best = None;
    for names in scope.names.as_slice() {
        let found = find_late(alloc, scope, names)?;
        keep_earlier(&mut best, found);
    }
    Ok(best)
}

/// What the names of a tree stand for, and of all that is found the first.
pub fn find_all<'a>(alloc: Global, tree: &'a Tree) -> Result<(Scope<'a>, Option<Found>), NoMemory>
    requires { IsReadTree tree.now }
    ensures scope { IfOk result (λ r. IsScope r.0.tree.now r.0) }
    ensures own { IfOk result (λ r. r.0.tree.now ≡ tree.now) }
    ensures least { IfOk result (λ r. IsLeastFinding (Finds tree.now) r.1) }
{
    let (scope, first) = read_scope(alloc, tree)?;
    let second = find_in_modules(alloc, &scope)?;
    Ok((scope, earlier(first, second)))
}
