//! A law over the definitions, as the contract of a function that does nothing.

ghost use Rattle.std.specs.Prelude.{List, ℕ, Option};
ghost use Rattle.dom_semantics.specs.Stage.{IsReading};
ghost use Rattle.dom_semantics.specs.declared.selectors.Compound.{Compound};

/// Some function of texts reads selectors just as the grammar does, as what a run is given asks of it.
pub fn selectors_have_a_reading()
    ensures { (read : List ℕ → Option (List (List Compound))) × IsReading read }
{}
