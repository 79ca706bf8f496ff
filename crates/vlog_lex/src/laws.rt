ghost use Rattle.std.specs.Prelude.{◌≡◌, ℕ, List, Option, None, ◌⊎◌, IfSome};
ghost use Rattle.vlog_lex.specs.declared.token.Token.{Token as TokenOf};
ghost use Rattle.ila_base.specs.declared.fault.NetFault.{NetFault as FaultOf};
ghost use Rattle.vlog_lex.specs.Cutting.{AreTokens, IsReading, IsSizeRefusal};

/// A text is read in one way: as one list of tokens, and to its end or to one fault.
pub fn one_reading()
    ensures { (text : List ℕ) (tokens others : List TokenOf) (fault other : Option FaultOf) →
        IsReading text tokens fault → IsReading text others other → (tokens ≡ others) × (fault ≡ other) }
{}

/// A text has at most one list of tokens, whatever its size.
pub fn one_list()
    ensures { (text : List ℕ) (tokens others : List TokenOf) → AreTokens text tokens → AreTokens text others → tokens ≡ others }
{}

/// A text that has tokens is read as them, or is refused for the size of the text, of an
/// identifier or of a constant.
pub fn refused_for_size()
    ensures { (text : List ℕ) (tokens others : List TokenOf) (fault : Option FaultOf) →
        AreTokens text tokens → IsReading text others fault →
        ((fault ≡ None) × (others ≡ tokens)) ⊎ IfSome fault (λ f. IsSizeRefusal f.refusal) }
{}
