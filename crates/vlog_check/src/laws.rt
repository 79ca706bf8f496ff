ghost use Rattle.std.specs.Prelude.{◌≡◌, ℕ, List, None};
ghost use Rattle.ila_base.specs.declared.fault.NetFault.{NetFault as FaultOf};
ghost use Rattle.vlog_lex.specs.declared.token.Token.{Token as TokenOf};
ghost use Rattle.vlog_lex.specs.Cutting.{IsReading};
ghost use Rattle.vlog_parse.specs.declared.tree.Tree.{Tree as TreeOf};
ghost use Rattle.vlog_parse.specs.Parsing.{IsReadAs};
ghost use Rattle.vlog_parse.specs.Places.{HasOwnPlaces};
ghost use Rattle.vlog_check.specs.CellRows.{RowsAgree};
ghost use Rattle.vlog_check.specs.Checked.{Finds, IsChecked, IsRefused};
ghost use Rattle.vlog_check.specs.declared.found.Found.{Found as FoundOf};
ghost use Rattle.vlog_check.specs.Found.{key_of};

use vlog_parse::own_places;

/// The table of cells by the names of their pins and that by kinds, in net_core, have the same pins.
pub fn rows_agree()
    ensures { RowsAgree }
{}

/// Findings of a tree that count by the same are one, where each name and constant of the tree has a
/// place of its own.
pub fn one_finding()
    ensures { (tree : TreeOf) (f g : FoundOf) → HasOwnPlaces tree → Finds tree f → Finds tree g → key_of f ≡ key_of g → f ≡ g }
{}

/// A design is refused for at most one fault, where each name and constant of its tree has a place of
/// its own, and for none where it is checked.
pub fn one_refusal()
    ensures one { (tree : TreeOf) (top : List ℕ) (fault other : FaultOf) → HasOwnPlaces tree → IsRefused tree top fault → IsRefused tree top other → fault ≡ other }
    ensures none { (tree : TreeOf) (top : List ℕ) (fault : FaultOf) → IsChecked tree top → IsRefused tree top fault → ⊥ }
{}

/// A text is refused by the checks for at most one fault.
pub fn one_refusal_of_text()
    ensures { (text : List ℕ) (tokens : List TokenOf) (tree : TreeOf) (top : List ℕ) (fault other : FaultOf)
        → IsReading text tokens None → IsReadAs text tokens tree → IsRefused tree top fault
        → IsRefused tree top other → fault ≡ other }
{
    own_places();
    one_refusal();
}
