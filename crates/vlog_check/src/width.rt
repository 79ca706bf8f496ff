ghost use Rattle.std.specs.Prelude.{◌≡◌, ◌≤◌, ◌<◌, ℕ, List, length, IfOk};
ghost use Rattle.ila_base.specs.declared.refusal.NetRefusal.TheVariants.{Pin};
ghost use Rattle.vlog_parse.specs.declared.tree.Module.{Module as ModuleOf};
ghost use Rattle.vlog_parse.specs.declared.tree.Expr.{Expr as ExprOf};
ghost use Rattle.vlog_parse.specs.Leaves.{leaves};
ghost use Rattle.vlog_check.specs.Found.{IsLeastFinding, FindsAmong};
ghost use Rattle.vlog_check.specs.FindingWidths.{FindsWidth, FindsFixedTarget, FindsInAssign, FindsInTerminal, FindsFixedTerminal, FindsFewTerminals, FindsInGate, gate_word, is_gate_output, target_width};
ghost use Rattle.vlog_check.specs.Names.{IsNames, IsRead, AreFew};
ghost use Rattle.vlog_check.specs.Scope.{place_of};

use crate::expr::{Reading, read};
use crate::found::{Detail, Found, earlier};
use crate::names::Names;
use crate::spell::number_text;
use ila_base::{Name, NetRefusal, NoMemory, Place};
use std::alloc::Global;
use vlog_parse::{Expr, Gate, GateKind};

/// A finding on a pin or what stands for one.
pub fn pin_finding(place: Place, detail: Detail, name: Name) -> Found
    ensures { result ≡ record { place = place; subject = 0; detail = detail; refusal = Pin name } }
{
    Found {
        place,
        subject: 0,
        detail,
        refusal: NetRefusal::Pin(name),
    }
}

// The place of the expression that was read.
fn place_of(reading: &Reading) -> Place
    ensures { (m : ModuleOf) (e : ExprOf) → IsRead m e reading.now → result ≡ place_of e }
{
    reading.place.unwrap_or(Place::NOWHERE)
}

/// The finding on the width of an expression, where its place has one.
pub fn find_width(want: Option<u64>, reading: &Reading) -> Option<Found>
    ensures { (m : ModuleOf) (e : ExprOf) → IsRead m e reading.now → IsLeastFinding (FindsWidth m want e) result }
{
    let want = want?;
    if reading.sound && reading.width != want {
        return Some(Found {
            place: place_of(reading),
            subject: 0,
            detail: Detail::Alone,
            refusal: NetRefusal::Width {
                want,
                have: reading.width,
            },
        });
    }
    None
}

// The finding on a target with a constant.
fn find_fixed_target(alloc: Global, reading: &Reading) -> Result<Option<Found>, NoMemory>
    ensures { IfOk result (λ found. (m : ModuleOf) (e : ExprOf) → IsRead m e reading.now → IsLeastFinding (FindsFixedTarget e) found) }
{
    if !reading.fixed {
        return Ok(None);
    }
    let name = Name::new(alloc, b"assign")?;
    Ok(Some(pin_finding(place_of(reading), Detail::Alone, name)))
}

// How many bits a target has, where all of it is declared.
fn target_width(reading: &Reading) -> Option<u64>
    ensures { (m : ModuleOf) (e : ExprOf) → IsRead m e reading.now → result ≡ target_width m e }
{
    if reading.sound {
        Some(reading.width)
    } else {
        None
    }
}

/// What is found in an assign (IEEE 1364-2005, 6.1).
pub fn find_in_assign(
    alloc: Global,
    names: &Names,
    target: &Expr,
    value: &Expr,
) -> Result<Option<Found>, NoMemory>
    requires names { IsNames names.now }
    requires target { length (leaves target.now) ≤ 67108864 }
    requires value { length (leaves value.now) ≤ 67108864 }
    ensures { IfOk result (IsLeastFinding (FindsInAssign names.now.module.now target.now value.now)) }
{
    let to = read(alloc, names, target)?;
    let from = read(alloc, names, value)?;
    let width = find_width(target_width(&to), &from);
    let fixed = find_fixed_target(alloc, &to)?;
    let last = earlier(fixed, width);
    Ok(earlier(to.found, earlier(from.found, last)))
}

// Whether terminal k of n is an output.
fn is_gate_output(kind: GateKind, k: usize, n: usize) -> bool
    requires { k < n }
    ensures { result ≡ is_gate_output kind k n }
{
    match kind {
        GateKind::Buf | GateKind::Not => k + 1 < n,
        _ => k == 0,
    }
}

fn gate_word(kind: GateKind) -> &'static [u8]
    ensures { result.now ≡ gate_word kind }
{
    match kind {
        GateKind::And => b"and",
        GateKind::Nand => b"nand",
        GateKind::Or => b"or",
        GateKind::Nor => b"nor",
        GateKind::Xor => b"xor",
        GateKind::Xnor => b"xnor",
        GateKind::Buf => b"buf",
        GateKind::Not => b"not",
    }
}

// The finding on a gate's output with a constant.
fn find_fixed_terminal(
    alloc: Global,
    g: &Gate,
    k: usize,
    reading: &Reading,
) -> Result<Option<Found>, NoMemory>
    requires { k < length g.now.args }
    ensures { IfOk result (λ found. (m : ModuleOf) (e : ExprOf) → IsRead m e reading.now → IsLeastFinding (FindsFixedTerminal g.now k e) found) }
{
    if reading.fixed && is_gate_output(g.kind, k, g.args.len()) {
        let name = number_text(alloc, k as u64)?;
        let detail = Detail::Connection(k as u64);
        return Ok(Some(pin_finding(g.place, detail, name)));
    }
    Ok(None)
}

// What is found on a terminal.
fn find_in_terminal(
    alloc: Global,
    names: &Names,
    g: &Gate,
    k: usize,
    e: &Expr,
) -> Result<Option<Found>, NoMemory>
    requires names { IsNames names.now }
    requires within { k < length g.now.args }
    requires few { length (leaves e.now) ≤ 67108864 }
    ensures { IfOk result (IsLeastFinding (FindsInTerminal names.now.module.now g.now k e.now)) }
{
    let reading = read(alloc, names, e)?;
    let width = find_width(Some(1), &reading);
    let fixed = find_fixed_terminal(alloc, g, k, &reading)?;
    Ok(earlier(reading.found, earlier(width, fixed)))
}

// The finding on a gate with too few terminals.
fn find_few_terminals(alloc: Global, g: &Gate) -> Result<Option<Found>, NoMemory>
    ensures { IfOk result (IsLeastFinding (FindsFewTerminals g.now)) }
{
    if g.args.len() < 2 {
        let name = Name::new(alloc, gate_word(g.kind))?;
        return Ok(Some(pin_finding(g.place, Detail::NoPin(0), name)));
    }
    Ok(None)
}

/// What is found in a gate (IEEE 1364-2005, 7.2, 7.3).
pub fn find_in_gate(alloc: Global, names: &Names, g: &Gate) -> Result<Option<Found>, NoMemory>
    requires names { IsNames names.now }
    requires few { AreFew g.now.args }
    ensures { IfOk result (IsLeastFinding (FindsInGate names.now.module.now g.now)) }
{
    let mut best = None;
    for (k, e) in g.args.as_slice().iter().enumerate() {
        let found = find_in_terminal(alloc, names, g, k, e)?;
        best = earlier(best, found);
    }
    let few = find_few_terminals(alloc, g)?;
    Ok(earlier(best, few))
}
