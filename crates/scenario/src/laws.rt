//! Laws about scenarios, as the contracts of functions that do nothing else.
ghost use Rattle.std.specs.Prelude.{◌≡◌, ◌⊎◌, ℕ, List};
ghost use Rattle.scenario.specs.ScenarioFacts.{AreRefused, AreScenarios};
ghost use Rattle.scenario.specs.Scenarios.{IsScenario, IsRefused};
ghost use Rattle.scenario.specs.declared.fault.EventsFault.{EventsFault};
ghost use Rattle.scenario.specs.declared.line.Line.{Line};

/// Bytes say one list of lines, or have one fault, and not both.
pub fn a_scenario_has_one_reading()
    ensures some { (bytes : List ℕ) → ((read : List Line) × IsScenario bytes read) ⊎ ((fault : EventsFault) × IsRefused bytes fault) }
    ensures one { (bytes : List ℕ) (read other : List Line) → IsScenario bytes read → IsScenario bytes other → read ≡ other }
    ensures one_fault { (bytes : List ℕ) (fault other : EventsFault) → IsRefused bytes fault → IsRefused bytes other → fault ≡ other }
    ensures not_both { (bytes : List ℕ) (read : List Line) (fault : EventsFault) → IsScenario bytes read → IsRefused bytes fault → ⊥ }
{}

/// Scenarios with lines of each verb and what they say, and scenarios with each fault.
pub fn some_scenarios_are_read_so()
    ensures scenarios { AreScenarios }
    ensures faults { AreRefused }
{}
