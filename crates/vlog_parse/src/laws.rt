ghost use Rattle.std.specs.Prelude.{◌≡◌, ℕ, List, None};
ghost use Rattle.ila_base.specs.declared.fault.NetFault.{NetFault as FaultOf};
ghost use Rattle.vlog_lex.specs.declared.token.Token.{Token as TokenOf};
ghost use Rattle.vlog_lex.specs.Cutting.{IsReading};
ghost use Rattle.vlog_parse.specs.declared.tree.Tree.{Tree as TreeOf};
ghost use Rattle.vlog_parse.specs.Design.{IsDesign};
ghost use Rattle.vlog_parse.specs.Parsing.{IsReadAs, IsRefusal};
ghost use Rattle.vlog_parse.specs.Places.{HasOwnPlaces};
ghost use Rattle.vlog_parse.specs.ReadTree.{IsReadTree};

/// The tokens of a text stand for at most one tree.
pub fn one_tree()
    ensures { (text : List ℕ) (tokens : List TokenOf) (tree other : TreeOf) → IsDesign text tokens tree → IsDesign text tokens other → tree ≡ other }
{}

/// The tokens of a text are refused for at most one fault, and for none where they are read as a
/// tree.
pub fn one_refusal()
    ensures one { (text : List ℕ) (tokens : List TokenOf) (fault other : FaultOf) → IsRefusal text tokens fault → IsRefusal text tokens other → fault ≡ other }
    ensures none { (text : List ℕ) (tokens : List TokenOf) (tree : TreeOf) (fault : FaultOf) → IsReadAs text tokens tree → IsRefusal text tokens fault → ⊥ }
{}

/// What a text is read as has names that are spelled, constants that have their bits, indices within
/// their limit, and of nothing more than a text has bytes.
pub fn read_trees()
    ensures { (text : List ℕ) (tokens : List TokenOf) (tree : TreeOf) → IsReading text tokens None → IsReadAs text tokens tree → IsReadTree tree }
{}

/// In the tree that a text stands for each module, item, name and constant has a place of its own.
pub fn own_places()
    ensures { (text : List ℕ) (tokens : List TokenOf) (tree : TreeOf) → IsReading text tokens None
        → IsReadAs text tokens tree → HasOwnPlaces tree }
{}
