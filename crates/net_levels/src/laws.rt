ghost use Rattle.std.specs.Prelude.{ℕ};
ghost use Rattle.net_core.specs.Netlist.{Netlist};
ghost use Rattle.net_core.specs.WellFormed.{IsFlat};
ghost use Rattle.net_core.specs.Cycle.{HasCycle, IsRanked};
ghost use Rattle.net_levels.specs.Levels.{HasOneRun};

/// A flat netlist without a combinational cycle has a number for each net above those of all nets that
/// it depends on, so exactly one run over every list of input rows.
pub fn without_cycle()
    ensures ranks { (net : Netlist) → IsFlat net → ¬ HasCycle net → (rank : ℕ → ℕ) × IsRanked net rank }
    ensures one_run { (net : Netlist) → IsFlat net → ¬ HasCycle net → HasOneRun net }
{}
