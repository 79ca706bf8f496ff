ghost use Rattle.std.specs.Prelude.{◌≡◌, ℕ, ◌<◌, Bool, List, [], ◌∷◌, ◌++◌, length, slice_get, Some};
ghost use Rattle.net_core.specs.CellTable.{content_size};
ghost use Rattle.net_core.specs.Netlist.{Netlist, IsData, input_nets};
ghost use Rattle.net_core.specs.Run.{StandsFor};
ghost use Rattle.net_core.specs.declared.parts.Cell.{Cell};

use crate::parts::{CellId, NetId};

/// A simulator of a flat netlist. It keeps a bit for each net and the stored bits of each cell, and
/// *stands for* a list of input rows where the netlist has exactly one run over these rows and the
/// run has the kept bits at its last clock and the kept stored bits after it. No call changes the
/// netlist, takes memory, or can fail.
pub trait Machine {
    // The netlist, the kept bit of each net, and the kept stored bits of each cell.
    ghost netlist: { Self → Netlist };

    ghost bit: { Self → ℕ → Bool };

    ghost content: { Self → ℕ → ℕ → Bool };

    /// One clock edge. `inputs` has a bit for each data input bit, in port order and each port's
    /// leftmost bit first. A machine that stands for a list of rows stands for the list with this
    /// row behind it.
    fn step(&mut self, inputs: &[bool])
        requires { length inputs.now ≡ length (input_nets (netlist self.old)) }
        ensures same { netlist self.new ≡ netlist self.old }
        ensures stands { (rows : List (List Bool)) → StandsFor (netlist self.old) (bit self.old) (content self.old) rows → StandsFor (netlist self.old) (bit self.new) (content self.new) (rows ++ inputs.now ∷ []) };

    /// The bit of a data net at the last clock.
    fn value(&self, net: NetId) -> bool
        requires { IsData (netlist self.now) net.0 }
        ensures { result ≡ bit self.now net.0 };

    /// A stored bit of a cell after the last clock. A flip-flop has the index 0, and bit `b` of row
    /// `r` of a memory the index `r * dw + b`.
    fn stored(&self, cell: CellId, index: u32) -> bool
        requires { (kept : Cell) × (slice_get (netlist self.now).cells cell.0 ≡ Some kept) × (index < content_size kept.kind) }
        ensures { result ≡ content self.now cell.0 index };
}
