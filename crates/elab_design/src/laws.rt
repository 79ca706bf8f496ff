ghost use Rattle.std.specs.Prelude.{◌≡◌, ◌↔◌, ℕ, Bool, true, List, [], flat_map, slice_get, Some};
ghost use Rattle.std.specs.Str.{bytes_eq};
ghost use Rattle.ila_base.specs.declared.refusal.LimitKind.{LimitKind as LimitKindOf};
ghost use Rattle.net_core.specs.Netlist.{Netlist as NetlistOf, Parts as PartsOf, parts_of, is_clock};
ghost use Rattle.net_core.specs.Run.{History, IsOneRun};
ghost use Rattle.net_core.specs.WellFormed.{IsFlat};
ghost use Rattle.ila_base.specs.declared.fault.NetFault.{NetFault as NetFaultOf};
ghost use Rattle.vlog_parse.specs.ReadTree.{In, IsReadTree};
ghost use Rattle.vlog_check.specs.Checked.{IsChecked};
ghost use Rattle.flat_settle.specs.declared.raw.Raw.{Raw as RawOf};
ghost use Rattle.flat_settle.specs.Raw.{IsUnfolded};
ghost use Rattle.flat_settle.specs.Refusals.{Settles};
ghost use Rattle.elab_design.specs.Design.{Design, Bit, IsNetBit, net_bits};
ghost use Rattle.elab_design.specs.DesignRuns.{DesignHistory, IsOneDesignRun, is_input_port};
ghost use Rattle.elab_design.specs.Names.{Carries};
ghost use Rattle.elab_design.specs.DesignCells.{DesignCell, HasCell};
ghost use Rattle.elab_design.specs.Order.{DesignGroup, group_bits, FlatOrder};
ghost use Rattle.elab_design.specs.Raw.{IsPlaced, IsRawOf, place_among};
ghost use Rattle.elab_design.specs.Limits.{Counts, HasClock, HasLimits, IsDeepest, IsElabFault};
ghost use Rattle.elab_design.specs.Elaborates.{Elaborates, HasFlatPort};

/// A design in flat order has exactly the cells and the net bits of the design.
pub fn order_is_whole()
    ensures cells { (d : Design) (groups : List DesignGroup) (cells : List DesignCell) → FlatOrder d groups cells → (c : DesignCell) → In cells c ↔ HasCell d c }
    ensures bits { (d : Design) (groups : List DesignGroup) (cells : List DesignCell) → FlatOrder d groups cells → (b : Bit) → In (flat_map group_bits groups) b ↔ IsNetBit d b }
{}

/// A design has one flat order.
pub fn one_order()
    ensures { (d : Design) (groups : List DesignGroup) (others : List DesignGroup) (cells : List DesignCell) (more : List DesignCell) → FlatOrder d groups cells → FlatOrder d others more → (groups ≡ others) × (cells ≡ more) }
{}

/// A checked design has a flat order, so that it has a count of each kind, and a depth; and there is
/// no other count of any kind.
pub fn has_counts()
    ensures order { (d : Design) → IsChecked d.tree d.top → (groups : List DesignGroup) × (cells : List DesignCell) × FlatOrder d groups cells }
    ensures deepest { (d : Design) → IsChecked d.tree d.top → (n : ℕ) × IsDeepest d n }
    ensures one { (d : Design) (kind : LimitKindOf) (m : ℕ) (n : ℕ) → Counts d kind m → Counts d kind n → m ≡ n }
{}

/// All net bits of a checked design differ: the place of each among them is a number of its own.
pub fn bits_have_numbers()
    ensures { (d : Design) (groups : List DesignGroup) (cells : List DesignCell) → IsChecked d.tree d.top → FlatOrder d groups cells → IsPlaced (place_among (flat_map group_bits groups)) (flat_map group_bits groups) }
{}

/// The raw netlist of a checked design is what settling asks for, where the clock is a one-bit input
/// of the top and the design's counts are within their limits.
pub fn raw_is_unfolded()
    ensures { (d : Design) (raw : RawOf) → IsReadTree d.tree → IsChecked d.tree d.top → HasClock d → HasLimits d → IsRawOf d raw → IsUnfolded raw }
{}

/// What the raw netlist of a checked design is settled to is the design's flat netlist: it has the
/// design's groups, cells and ports in flat order, and exactly its runs.
pub fn elaborates()
    ensures { (d : Design) (raw : RawOf) (net : NetlistOf) → IsChecked d.tree d.top → IsRawOf d raw → IsFlat net → Settles raw (parts_of net) → Elaborates d net }
{}

/// The one run of the flat netlist of a checked design is carried back to the one run of the design.
pub fn one_run_carried()
    ensures { (d : Design) (net : NetlistOf) → IsChecked d.tree d.top → IsFlat net → Elaborates d net → (rows : List (List Bool)) (g : History) → IsOneRun net rows g → (h : DesignHistory) × Carries d net h g × IsOneDesignRun d rows h }
{}

/// Each net bit of a checked design has the bit of the net with its number in the flat netlist, where a
/// history is carried by flat names.
pub fn bits_carried()
    ensures { (d : Design) (net : NetlistOf) (own : Elaborates d net) (h : DesignHistory) (g : History) → Carries d net h g → (t : ℕ) (b : Bit) → IsNetBit d b → g.bit t (own.number b) ≡ h.bit t b }
{}

/// The ports of the top of a checked design are those of its flat netlist, and of the bits of its inputs
/// those of the clock port alone carry the clock.
pub fn ports_of_flat()
    ensures ports { (d : Design) (net : NetlistOf) (own : Elaborates d net) → IsChecked d.tree d.top → IsFlat net → (k : ℕ) (name : List ℕ) → slice_get own.order.top.ports k ≡ Some name → HasFlatPort net own.number own.order.top k name }
    ensures clock { (d : Design) (net : NetlistOf) (own : Elaborates d net) → IsChecked d.tree d.top → IsFlat net → (k : ℕ) (name : List ℕ) (b : Bit) → slice_get own.order.top.ports k ≡ Some name → is_input_port own.order.top name ≡ true → In (net_bits own.order.top [] name) b
        → is_clock net (own.number b) ≡ bytes_eq name d.clock }
{}

/// A checked design has at most one flat netlist: no other order and no other numbers of net bits.
pub fn one_flat()
    ensures { (d : Design) (net : NetlistOf) (other : NetlistOf) → IsChecked d.tree d.top → Elaborates d net → Elaborates d other → parts_of net ≡ parts_of other }
{}

/// A checked design is refused for at most one fault, and for none where its clock is a one-bit input
/// of the top, its counts are within their limits, and its raw netlist is settled.
pub fn one_fault()
    ensures one { (d : Design) (fault : NetFaultOf) (other : NetFaultOf) → IsChecked d.tree d.top → IsElabFault d fault → IsElabFault d other → fault ≡ other }
    ensures none { (d : Design) (raw : RawOf) (parts : PartsOf) (fault : NetFaultOf) → IsChecked d.tree d.top → HasClock d → HasLimits d → IsRawOf d raw → Settles raw parts → IsElabFault d fault → ⊥ }
{}
