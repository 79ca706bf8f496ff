ghost use Rattle.std.specs.Prelude.{◌≡◌, ℕ, List, Option, Some};
ghost use Rattle.ila_base.specs.declared.refusal.LimitKind.{LimitKind as LimitKindOf};
ghost use Rattle.vlog_check.specs.Checked.{IsChecked};
ghost use Rattle.vlog_check.specs.Scope.{module_number};
ghost use Rattle.elab_design.specs.Design.{Design};
ghost use Rattle.elab_design.specs.Limits.{Counts, carried};
ghost use Rattle.elab_count.specs.declared.amounts.Count.{Count};
ghost use Rattle.elab_count.specs.Counting.{AreCounts, count_at, count_of};

/// A table of the counts of a checked design's modules, each from those of the modules below it, has
/// at the top the counts of the design, up to the greatest number that is carried.
pub fn counts_are_amounts()
    ensures { (d : Design) (number : ℕ) (table : List (Option Count)) → IsChecked d.tree d.top → module_number d.tree d.top ≡ Some number → AreCounts d.tree number table → (kind : LimitKindOf) (n : ℕ) → Counts d kind n → count_of kind (count_at table number) ≡ carried n }
{}
