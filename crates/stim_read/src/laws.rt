ghost use Rattle.std.specs.Prelude.{◌≡◌, ℕ, ◌+◌, ◌++◌, ◌∷◌, ◌≤◌, [], Bool, List, Option, Some, length};
ghost use Rattle.std.specs.Io.KnownBytes.{IsAtEnd};
ghost use Rattle.ila_base.specs.declared.refusal.StimRefusal.{StimRefusal as StimRefusalOf};
ghost use Rattle.net_core.specs.Netlist.{Netlist as NetlistOf};
ghost use Rattle.net_core.specs.WellFormed.{IsFlat};
ghost use Rattle.stim_read.specs.declared.inputs.DataInput.{DataInput};
ghost use Rattle.stim_read.specs.Stimulus.{AreNames, names_of, IsStimulus};
ghost use Rattle.stim_read.specs.Reading.{Reading, rest, most_rows, Begins, TakesRow};
ghost use Rattle.stim_read.specs.Refused.{IsRefused};
ghost use Rattle.stim_read.specs.Ports.{data_inputs};
ghost use Rattle.stim_read.specs.RowLaws.{HasTaken};
ghost use Rattle.stim_read.specs.ReadLaws.{IsReadFor};
ghost use Rattle.stim_read.specs.Streams.{ReadsAhead, UsesEnds};

/// A text stands for at most one list of rows.
pub fn rows_are_one()
    ensures { (inputs : List DataInput) (text : List ℕ) (rows others : List (List Bool))
        → AreNames (names_of inputs) → IsStimulus inputs text rows → IsStimulus inputs text others
        → rows ≡ others }
{}

/// The rows that are taken one after the other, until there is none, are those that the text stands
/// for. No more are taken than may be.
pub fn rows_are_taken()
    ensures begun { (inputs : List DataInput) (text : List ℕ) (reading : Reading)
        (left : Option (List ℕ))
        → Begins inputs (Some text) left reading → HasTaken inputs text [] reading left }
    ensures more { (inputs : List DataInput) (text : List ℕ) (rows : List (List Bool))
        (old new : Reading) (left after : Option (List ℕ))
        → HasTaken inputs text rows old left → TakesRow old new (rest old left) (rest new after)
        → new.fields ≡ old.fields → length new.bits ≡ length old.bits
        → HasTaken inputs text (rows ++ new.bits ∷ []) new after }
    ensures all { (inputs : List DataInput) (text : List ℕ) (rows : List (List Bool))
        (reading : Reading) (left : Option (List ℕ))
        → HasTaken inputs text rows reading left → IsAtEnd (rest reading left)
        → IsStimulus inputs text rows }
    ensures few { (inputs : List DataInput) (text : List ℕ) (rows : List (List Bool))
        (reading : Reading) (left : Option (List ℕ))
        → HasTaken inputs text rows reading left → length rows ≤ most_rows }
{}

/// No more is read of a text than the rows that are taken need: before the last piece there are no
/// more line ends than rows.
pub fn rows_are_read()
    ensures begun { (text unused : List ℕ) (most : ℕ) (left : Option (List ℕ))
        → ReadsAhead most [] (Some text) left → UsesEnds 1 [] (Some text) unused left
        → IsReadFor text 0 unused left }
    ensures more { (text unused next : List ℕ) (rows most : ℕ) (left after : Option (List ℕ))
        → IsReadFor text rows unused left → ReadsAhead most unused left after
        → UsesEnds 1 unused left next after → IsReadFor text (rows + 1) next after }
{}

/// A text is refused for one reason at most, and for none where it stands for rows, which are not more
/// than may be.
pub fn one_refusal()
    ensures one { (inputs : List DataInput) (text : List ℕ) (why other : StimRefusalOf)
        → AreNames (names_of inputs) → IsRefused inputs text why → IsRefused inputs text other
        → why ≡ other }
    ensures none { (inputs : List DataInput) (text : List ℕ) (rows : List (List Bool))
        (why : StimRefusalOf)
        → AreNames (names_of inputs) → IsStimulus inputs text rows → length rows ≤ most_rows
        → IsRefused inputs text why → ⊥ }
{}

/// The names of a netlist's data inputs are names of inputs: none is empty, and no two are equal.
pub fn inputs_have_names()
    ensures { (net : NetlistOf) → IsFlat net → AreNames (names_of (data_inputs net)) }
{}
