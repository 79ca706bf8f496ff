ghost use Rattle.std.specs.Prelude.{◌≡◌, ◌<◌, length, Some, None, IfOk, IfErr, OnOk, MatchOption};
ghost use Rattle.ila_base.specs.declared.refusal.NetRefusal.TheVariants as refusals;
ghost use Rattle.net_core.specs.Netlist.{parts_of};
ghost use Rattle.net_core.specs.WellFormed.{IsFlat};
ghost use Rattle.ila_base.specs.declared.fault.NetFault.{NetFault as NetFaultOf};
ghost use Rattle.ila_base.specs.Stops.{StopsFor};
ghost use Rattle.vlog_parse.specs.ReadTree.{IsReadTree};
ghost use Rattle.vlog_check.specs.Scope.{module_number};
ghost use Rattle.vlog_check.specs.Checked.{IsChecked};
ghost use Rattle.flat_settle.specs.Raw.{IsUnfolded};
ghost use Rattle.flat_settle.specs.Refusals.{Settles, IsFaultOf};
ghost use Rattle.elab_design.specs.Limits.{IsElabFault};
ghost use Rattle.elab_design.specs.Elaborates.{Elaborates};
ghost use Rattle.elab_flat.specs.declared.limits.Above.{Above as AboveOf};
ghost use Rattle.elab_flat.specs.Above.{IsClockIn, IsAbove, IsFirstAbove, IsFaultBefore, IsUnsettled};
ghost use Rattle.elab_count.specs.Counting.{count_at};
ghost use Rattle.elab_scope.specs.Nets.{AreNets};
ghost use Rattle.flat_settle.specs.declared.raw.Raw.{Raw as RawOf};
ghost use Rattle.ila_base.specs.declared.place.TheConstants.Place.{NOWHERE};

use crate::clock::is_clock;
use crate::limits::first_above;
use elab_count::{Count, Counts, count_all, counts_are_amounts};
use elab_design::{elaborates, has_counts, one_fault, raw_is_unfolded};
use elab_scope::{Nets, read_all_nets, read_modules};
use elab_unfold::unfold;
use flat_settle::{Raw, Unsettled, settle};
use ila_base::{Name, NetFault, NetRefusal, NetStop, NoMemory, Place};
use net_core::Flat;
use std::alloc::Global;
use vlog_check::Checked;
use vlog_parse::{Module, Tree};

// The number of the top among the modules of a checked tree.
fn top_number(alloc: Global, tree: &Tree, name: &[u8]) -> Result<usize, NoMemory>
    requires { IsChecked tree.now name.now }
    ensures number { IfOk result (λ top. module_number tree.now name.now ≡ Some top) }
    ensures low { IfOk result (λ top. top < length tree.now.modules) }
{
    let modules = read_modules(alloc, tree)?;
    match modules.numbers.get(name) {
        Some(number) => Ok(number),
        None => unreachable!(),
    }
}

// A refusal that has no place.
fn fault(refusal: NetRefusal) -> NetFault
    ensures { result ≡ record { refusal = refusal; place = NOWHERE } }
{
    NetFault {
        refusal,
        place: Place::NOWHERE,
    }
}

// Why the clock is refused, if it is no one-bit input of the top.
fn clock_fault(
    alloc: Global,
    top: &Module,
    nets: &Nets,
    clock: &[u8],
) -> Result<Option<NetFault>, NoMemory>
    requires { AreNets top.now nets.now }
    ensures { IfOk result (λ found. MatchOption found (IsClockIn top.now clock.now) (λ f. (¬ IsClockIn top.now clock.now) × (f ≡ record { refusal = refusals.TopOrClock clock.now; place = NOWHERE }))) }
{
    if is_clock(alloc, top, nets, clock)? {
        return Ok(None);
    }
    let name = Name::new(alloc, clock)?;
    Ok(Some(fault(NetRefusal::TopOrClock(name))))
}

// Why a design is refused for its size.
fn limit_fault(count: Count) -> Option<NetFault>
    ensures { MatchOption result (IsFirstAbove count None) (λ f. (a : AboveOf) × IsAbove count a × (f ≡ record { refusal = refusals.Limit a.kind a.amount; place = NOWHERE })) }
{
    match first_above(count) {
        None => None,
        Some(above) => Some(fault(NetRefusal::Limit(above.kind, above.amount))),
    }
}

// The refusal of unfolded parts that can't be settled.
fn unsettled(why: Unsettled) -> NetStop
    ensures { (raw : RawOf) → IsFaultOf raw why → StopsFor (IsUnsettled raw) result }
{
    match why {
        Unsettled::Duplicate(name) => NetStop::Refused(fault(NetRefusal::Duplicate(name))),
        Unsettled::ManyDrivers(name) => NetStop::Refused(fault(NetRefusal::ManyDrivers(name))),
        Unsettled::Undriven(name) => NetStop::Refused(fault(NetRefusal::Undriven(name))),
        Unsettled::SecondClock(name) => NetStop::Refused(fault(NetRefusal::SecondClock(name))),
        Unsettled::ClockAsData(name) => NetStop::Refused(fault(NetRefusal::ClockAsData(name))),
        Unsettled::NoMemory => NetStop::NoMemory,
    }
}

// The flat netlist of unfolded parts.
fn settled(alloc: Global, raw: Raw) -> Result<Flat, NetStop>
    requires { IsUnfolded raw }
    ensures settled { IfOk result (λ flat. Settles raw (parts_of flat)) }
    ensures kept { IfOk result IsFlat }
    ensures refused { IfErr result (StopsFor (IsUnsettled raw)) }
{
    match settle(alloc, raw) {
        Ok(flat) => {
            // The call tells the prover what each netlist keeps.
            let _ = flat.clock();
            Ok(flat)
        }
        Err(why) => Err(unsettled(why)),
    }
}

// What a table says of a module.
fn count_of(counts: &Counts, number: usize) -> Count
    ensures { result ≡ count_at counts.now.table.items number }
{
    match counts.table.get(number) {
        Some(Some(count)) => *count,
        _ => Count::ZERO,
    }
}

// Why a design with this top and this count is refused before it is unfolded.
fn fault_before(
    alloc: Global,
    top: &Module,
    nets: &Nets,
    clock: &[u8],
    count: Count,
) -> Result<Option<NetFault>, NoMemory>
    requires { AreNets top.now nets.now }
    ensures { IfOk result (IsFaultBefore top.now clock.now count) }
{
    match clock_fault(alloc, top, nets, clock)? {
        Some(found) => Ok(Some(found)),
        None => Ok(limit_fault(count)),
    }
}

// The flat netlist of a checked tree with this top and this clock port.
fn flatten_tree(alloc: Global, tree: &Tree, name: &[u8], clock: &[u8]) -> Result<Flat, NetStop>
    requires read { IsReadTree tree.now }
    requires checked { IsChecked tree.now name.now }
    ensures found { IfOk result (Elaborates (record { tree = tree.now; top = name.now; clock = clock.now })) }
    ensures kept { IfOk result IsFlat }
    ensures accepted { OnOk result ((f : NetFaultOf) → ¬ IsElabFault (record { tree = tree.now; top = name.now; clock = clock.now }) f) }
    ensures refused { IfErr result (StopsFor (IsElabFault (record { tree = tree.now; top = name.now; clock = clock.now }))) }
{
    elaborates();
    has_counts();
    one_fault();
    raw_is_unfolded();
    counts_are_amounts();
    let top = top_number(alloc, tree, name)?;
    let nets = read_all_nets(alloc, tree)?;
    let nets = nets.as_slice();
    let counts = count_all(alloc, tree, nets, top)?;
    let module = &tree.modules.as_slice()[top];
    match fault_before(alloc, module, &nets[top], clock, count_of(&counts, top))? {
        Some(found) => Err(NetStop::Refused(found)),
        None => {
            let raw = unfold(alloc, tree, name, clock, top, nets, &counts)?;
            settled(alloc, raw)
        }
    }
}

/// The flat netlist of a checked design with this clock port, in flat order. It refuses a clock that is
/// no one-bit input of the top; then a design of more than `DEPTH` instance names on a path, `CELLS`
/// cells, `PINS` pins, `NETS` net bits or `ALL_NAME_BYTES` bytes of identifiers, with the count; then
/// names that are equal, net bits with two sources, read net bits that aren't driven, a second clock,
/// and the clock read as data, each with the first name in flat order. It takes time linear in the text
/// and in what comes out.
pub fn flatten(alloc: Global, design: &Checked, clock: &str) -> Result<Flat, NetStop>
    ensures found { IfOk result (Elaborates (record { tree = design.now.tree; top = design.now.top; clock = clock.now })) }
    ensures kept { IfOk result IsFlat }
    // No sentence of a refusal holds of a design that is flattened.
    ensures accepted { OnOk result ((f : NetFaultOf) → ¬ IsElabFault (record { tree = design.now.tree; top = design.now.top; clock = clock.now }) f) }
    ensures refused { IfErr result (StopsFor (IsElabFault (record { tree = design.now.tree; top = design.now.top; clock = clock.now }))) }
{
    let name = design.top().bytes();
    flatten_tree(alloc, design.tree(), name, clock.as_bytes())
}
