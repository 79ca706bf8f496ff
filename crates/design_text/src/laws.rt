ghost use Rattle.std.specs.Prelude.{◌≡◌, ℕ, Bool, List, Option};
ghost use Rattle.net_core.specs.Netlist.{Netlist as NetlistOf};
ghost use Rattle.net_core.specs.Run.{History, IsOneRun};
ghost use Rattle.net_core.specs.WellFormed.{IsFlat};
ghost use Rattle.vlog_parse.specs.declared.tree.Module.{Module as ModuleOf};
ghost use Rattle.vlog_check.specs.Checked.{IsChecked};
ghost use Rattle.stim_read.specs.Ports as ports;
ghost use Rattle.elab_design.specs.Design.{Bit, Design, IsTop};
ghost use Rattle.elab_design.specs.Elaborates.{Elaborates};
ghost use Rattle.ila_session.specs.RunText.{RunText};
ghost use Rattle.ila_session.specs.Shown.{Shows, ShowsFront, ShowsRun, ShowsRunFront};
ghost use Rattle.design_text.specs.DesignText.{design_inputs, IsTextOf, ShowsText, ShowsTextFront, ShowsDesign, ShowsDesignFront};

use elab_design::{bits_carried, one_run_carried, ports_of_flat};

/// The data inputs of a checked design are those of its flat netlist.
pub fn inputs_agree()
    ensures { (d : Design) (net : NetlistOf) (top : ModuleOf) → IsChecked d.tree d.top → IsFlat net
        → Elaborates d net → IsTop d top → ports.data_inputs net ≡ design_inputs top d.clock }
{
    ports_of_flat();
}

/// Where the flat netlist of a checked design has exactly one run over the rows, the design has, and
/// what is shown of the one is shown of the other: any text of the netlist's runs that is one of the
/// design's.
pub fn shows_text()
    ensures whole { (d : Design) (net : NetlistOf) (own : Elaborates d net) (text : RunText ℕ)
        (of_top : ModuleOf → RunText Bit) → IsChecked d.tree d.top → IsFlat net
        → IsTextOf d own.number text (of_top own.order.top)
        → (rows : List (List Bool)) (g : History) → IsOneRun net rows g
        → (old new : Option (List ℕ)) → Shows text net rows old new
        → ShowsText of_top d rows old new }
    ensures front { (d : Design) (net : NetlistOf) (own : Elaborates d net) (text : RunText ℕ)
        (of_top : ModuleOf → RunText Bit) → IsChecked d.tree d.top → IsFlat net
        → IsTextOf d own.number text (of_top own.order.top)
        → (rows : List (List Bool)) (g : History) → IsOneRun net rows g
        → (old new : Option (List ℕ)) → ShowsFront text net rows old new
        → ShowsTextFront of_top d rows old new }
{
    bits_carried();
    one_run_carried();
}

/// So for the outputs text.
pub fn shows_design()
    ensures whole { (d : Design) (net : NetlistOf) → IsChecked d.tree d.top → IsFlat net
        → Elaborates d net → (rows : List (List Bool)) (g : History) → IsOneRun net rows g
        → (old : Option (List ℕ)) (new : Option (List ℕ)) → ShowsRun net rows old new
        → ShowsDesign d rows old new }
    ensures front { (d : Design) (net : NetlistOf) → IsChecked d.tree d.top → IsFlat net
        → Elaborates d net → (rows : List (List Bool)) (g : History) → IsOneRun net rows g
        → (old : Option (List ℕ)) (new : Option (List ℕ)) → ShowsRunFront net rows old new
        → ShowsDesignFront d rows old new }
{
    ports_of_flat();
    shows_text();
}
