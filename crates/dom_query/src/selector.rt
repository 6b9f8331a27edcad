//! A selector that was read (Selectors Level 4, 3 Selector Syntax and Structure).

use dom_semantics::Compound;
use door::List;
use std::marker::Model;

/// A selector, which contracts see as its chains, each as its compounds from the outermost one inwards.
#[derive(Debug, Drop)]
pub struct Selector {
    pub(crate) chains: List<List<Compound>>,
}

impl Model for Selector {
    ghost use Rattle.std.specs.Prelude.{List};
    ghost use Rattle.dom_semantics.specs.declared.selectors.Compound.{Compound};

    ghost Value = { List (List Compound) };

    ghost view = { λ s. s.chains };
}
