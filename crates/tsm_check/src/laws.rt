//! What holds of programs and their steps.

ghost use Rattle.std.specs.Prelude.{◌≡◌, ◌<◌, ◌≤◌, ℕ, List, All, true, false, length};
ghost use Rattle.ila_base.specs.declared.compare.BasicCond.{BasicCond as BasicCondOf};
ghost use Rattle.ila_base.specs.Comparison.{condition_holds};
ghost use Rattle.tsm_check.specs.declared.types.Config.{Config as ConfigOf};
ghost use Rattle.tsm_check.specs.declared.types.Program.{Program as ProgramOf};
ghost use Rattle.tsm_check.specs.Simple as simple;
ghost use Rattle.tsm_check.specs.Steps.{reference_step};
ghost use Rattle.tsm_check.specs.Validity.{IsValid, IsShortProgram, fits_probes};
ghost use Rattle.ila_base.specs.declared.limits.TheConstants.{CONSTANT_BITS};

/// A step of the program of a basic condition triggers exactly where the condition holds, and keeps
/// the configuration, in which the state is 0 and which has four counters and four flags.
#[tactic(auto, using(crate::proofs::SimpleLaws::basic_steps))]
pub fn basic_steps()
    ensures { (basic : BasicCondOf) (before now : List ℕ) (config : ConfigOf) → config.state ≡ 0 → length config.counters ≡ 4
        → config.flags < 16 → reference_step (simple.basic_program basic) before now config ≡ (config, condition_holds basic before now) }
{}

/// A step of the idle program never triggers, and keeps the configuration.
#[tactic(auto, using(crate::proofs::SimpleLaws::idle_steps))]
pub fn idle_steps()
    ensures { (before now : List ℕ) (config : ConfigOf) → config.state ≡ 0 → length config.counters ≡ 4
        → config.flags < 16 → reference_step simple.idle_program before now config ≡ (config, false) }
{}

/// A program that is valid over probes of widths from 1 to 128 is as `step` asks.
pub fn valid_steps()
    ensures { (widths : List ℕ) (program : ProgramOf) → All (λ width. width ≤ CONSTANT_BITS) widths → IsValid widths program
        → IsShortProgram program }
{}

/// The program of a basic condition is valid over the probes that its comparisons fit, of which there is
/// at least one.
pub fn basic_is_valid()
    ensures { (widths : List ℕ) (basic : BasicCondOf) → 0 < length basic.compares
        → All (λ compare. fits_probes widths compare ≡ true) basic.compares → IsValid widths (simple.basic_program basic) }
{}

/// The idle program is valid over any probes.
#[tactic(auto, using(crate::proofs::ValidLaws::idle_is_valid))]
pub fn idle_is_valid()
    ensures { (widths : List ℕ) → IsValid widths simple.idle_program }
{}
