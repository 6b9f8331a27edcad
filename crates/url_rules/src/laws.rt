//! Laws about rules, as the contracts of functions that do nothing else.
ghost use Rattle.std.specs.Prelude.{◌≢◌, ℕ, List};
ghost use Rattle.url_rules.specs.Patterns.{Rose};
ghost use Rattle.url_rules.specs.Reads.{ReadsRule, RefusesRule};
ghost use Rattle.url_rules.specs.Rules.{RuleFits};
ghost use Rattle.url_rules.specs.Same.{SameRule};
ghost use Rattle.url_rules.specs.declared.read.RuleFault.{RuleFault};
ghost use Rattle.url_rules.specs.declared.read.RuleFault.TheVariants as fault;
ghost use Rattle.url_rules.specs.declared.read.RuleKind.{RuleKind};
ghost use Rattle.url_rules.specs.declared.rules.Rule.{Rule};

use crate::address::address_of;
use url::Url;

/// A value has one reading at most, and one that has a reading is refused only where a count of size refusals rose.
pub fn rules_are_read_one_way()
    ensures one { (kind : RuleKind) (s : List ℕ) (rule other : Rule) → ReadsRule kind s rule → ReadsRule kind s other → SameRule rule other }
    ensures not_refused { (kind : RuleKind) (s : List ℕ) (rule : Rule) (before after : ℕ) (f : RuleFault) → ReadsRule kind s rule
        → (Rose before after → ⊥) → f ≢ fault.NoMemory → RefusesRule before after kind s f → ⊥ }
{}

/// Two rules that are one rule fit the same addresses, however `regex` holds them.
pub fn same_rules_fit_alike(address: &Url)
    ensures { (rule other : Rule) → SameRule rule other → RuleFits rule address.now → RuleFits other address.now }
{
    let _text = address_of(address);
}
