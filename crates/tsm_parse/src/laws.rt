ghost use Rattle.std.specs.Prelude.{◌≡◌, ◌≤◌, ℕ, List, [], Option, length};
ghost use Rattle.ila_base.specs.declared.limits.TheConstants.{SMALL_FILE_BYTES};
ghost use Rattle.ila_base.specs.declared.place.Place.{Place as PlaceOf};
ghost use Rattle.tsm_parse.specs.declared.token.Token.{Token as TokenOf};
ghost use Rattle.tsm_parse.specs.declared.types.Ast.{Ast as AstOf};
ghost use Rattle.tsm_parse.specs.declared.types.TsmFault.{TsmFault as FaultOf};
ghost use Rattle.tsm_parse.specs.Tokens.{Cuts};
ghost use Rattle.tsm_parse.specs.Refusals.{StandsFor, IsRefusal};

/// A text is cut in one way: into one list of tokens, to its end or to one place.
pub fn one_reading()
    ensures { (text : List ℕ) (tokens others : List TokenOf) (fault other : Option PlaceOf) →
        Cuts [] text tokens fault → Cuts [] text others other → (tokens ≡ others) × (fault ≡ other) }
{}

/// A text stands for at most one program.
pub fn one_program()
    ensures { (text : List ℕ) (ast other : AstOf) → StandsFor text ast → StandsFor text other → ast ≡ other }
{}

/// A text is refused for at most one fault, and for none where it stands for a program and isn't too
/// long.
pub fn one_refusal()
    ensures one { (text : List ℕ) (fault other : FaultOf) → IsRefusal text fault → IsRefusal text other → fault ≡ other }
    ensures none { (text : List ℕ) (ast : AstOf) (fault : FaultOf) → length text ≤ SMALL_FILE_BYTES →
        StandsFor text ast → IsRefusal text fault → ⊥ }
{}
