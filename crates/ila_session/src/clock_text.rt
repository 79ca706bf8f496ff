//! What writes the text of a run, clock by clock.

ghost use Rattle.std.specs.Prelude.{◌≡◌, ℕ, ◌+◌, ◌≤◌, Bool, List, OnOk, OnErr};
ghost use Rattle.ila_base.specs.Faults.{Rose, Writes};
ghost use Rattle.net_core.specs.Netlist.{Netlist};
ghost use Rattle.net_core.specs.Run.{SameBits};

use ila_base::{Failed, Sink};
use net_core::Machine;

/// Writes the text of each clock of a run, and may keep what it needs of the clocks before.
pub trait ClockText {
    // The bytes of a clock, from the bits of the nets at this clock and those before it. It serves
    // a netlist. It follows the bits of a run up to a clock: all clocks before this were written.
    ghost text: { Self → (ℕ → ℕ → Bool) → ℕ → List ℕ };

    ghost serves: { Self → Netlist → Type 0 };

    ghost follows: { Self → (ℕ → ℕ → Bool) → ℕ → Type 0 };

    /// Writes the text of the machine's last clock. It takes no memory. After a failure a front of
    /// the text was written.
    fn write<M: Machine, K: Sink>(&mut self, machine: &M, trace: &mut K) -> Result<(), Failed>
        requires { serves self.old (M.netlist machine.now) }
        ensures same { (text self.new ≡ text self.old) × serves self.new (M.netlist machine.now) }
        ensures bytes { (bit : ℕ → ℕ → Bool) (t : ℕ) → follows self.old bit t
            → SameBits (M.netlist machine.now) (M.bit machine.now) (bit t)
            → Writes (K.written trace.old) (K.written trace.new) result (text self.old bit t) }
        ensures next { OnOk result ((bit : ℕ → ℕ → Bool) (t : ℕ) → follows self.old bit t
            → SameBits (M.netlist machine.now) (M.bit machine.now) (bit t)
            → follows self.new bit (t + 1)) }
        ensures later { K.faults trace.old ≤ K.faults trace.new }
        ensures cause { OnErr result (Rose (K.faults trace.old) (K.faults trace.new)) };
}
