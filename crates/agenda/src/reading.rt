// Which classes concern a rule.
ghost use Rattle.std.specs.Prelude.{◌≡◌, map};
ghost use Rattle.logic_terms.specs.Shown.{concept_of};
ghost use Rattle.agenda.specs.Resting.{reads, concerns};

use logic_terms::Class;
use tableau_rules::{Rule, role_of_all};

// Whether a rule may apply for a class.
fn reads(rule: Rule, class: &Class) -> bool
    ensures { result ≡ reads rule (concept_of class.now) }
{
    match rule {
        Rule::And => class.intersection().is_some(),
        Rule::Unfold => class.word().is_some(),
        Rule::All => class.universal().is_some(),
        Rule::Trans => role_of_all(class).is_some(),
        Rule::Value => class.value().is_some(),
        Rule::Unit => class.union().is_some(),
        Rule::Or => class.union().is_some(),
        Rule::Some => class.existential().is_some(),
    }
}

// Whether a label has a class for which a rule may apply.
pub(crate) fn concerns(rule: Rule, label: &[Class]) -> bool
    ensures { result ≡ concerns rule (map concept_of label.now) }
{
    for class in label {
        if reads(rule, class) {
            return true;
        }
    }
    false
}
