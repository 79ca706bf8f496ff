//! What the sentences of the answers say of one another.

ghost use Rattle.std.specs.Prelude.{ℕ, List, Option};
ghost use Rattle.ila_top.specs.Commands.{SimWords};
ghost use Rattle.ila_top.specs.Meaning.{IsExactMeaning};
ghost use Rattle.ila_top.specs.Simulating.{sim};

use design_text::inputs_agree;
use elab_design::{one_fault, one_flat};
use stim_read::{inputs_have_names, one_refusal};
use vlog_check::{one_refusal as one_finding, one_refusal_of_text};
use vlog_lex::one_reading;
use vlog_parse::{one_refusal as one_syntax_refusal, one_tree};

/// What `sim` means is exact: where the files and the stimulus are told, the sentence of one answer holds at most.
pub fn sim_is_exact()
    ensures { (words : SimWords) → IsExactMeaning (sim words) }
{
    one_reading();
    one_tree();
    one_syntax_refusal();
    one_refusal_of_text();
    one_finding();
    one_fault();
    one_flat();
    inputs_agree();
    inputs_have_names();
    one_refusal();
}
