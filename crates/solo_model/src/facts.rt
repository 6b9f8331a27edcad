//! What hand-made journals and small runs come to by the definitions, as the contracts of functions that do nothing.

ghost use Rattle.solo_model.specs.ActsFacts.{ActsFacts};
ghost use Rattle.solo_model.specs.GenuineFacts.{GenuineFacts, OrderFacts, WaysOutFacts};
ghost use Rattle.solo_model.specs.RunFacts.{RunFacts};
ghost use Rattle.solo_model.specs.ShownFacts.{ShownFacts};

/// The order of tasks: run-at moments, pieces, lines of the scenario and timers.
pub fn runs_are_computed()
    ensures { RunFacts }
{}

/// What an Xray shows of an object, and what actors see of marks.
pub fn views_are_computed()
    ensures { ShownFacts }
{}

/// Which mark may come next, and which may not.
pub fn orders_are_computed()
    ensures { OrderFacts }
{}

/// What a mark may say, and what it may not.
pub fn truths_are_computed()
    ensures { GenuineFacts }
{}

/// How ways out are answered, and what they open.
pub fn ways_out_are_computed()
    ensures { WaysOutFacts }
{}

/// What actors do while they are closed.
pub fn acts_are_computed()
    ensures { ActsFacts }
{}
