// What stands in the body of a rule: whether it has a phrase, and which category stands first.
ghost use Rattle.std.specs.Prelude.{◌≡◌, ◌==◌};
ghost use Rattle.std.specs.List.{list_any};
ghost use Rattle.codeco_checked.specs.Faults as faults;
ghost use Rattle.codeco_checked.specs.declared.numbers.TheConstants.{FIRST_PLAIN};

use codeco_checked::FIRST_PLAIN;
use codeco_terms::{Element, Rule};

// Whether the element is a terminal, a preterminal or a category.
pub(crate) fn is_phrase(element: &Element) -> bool
    ensures { result ≡ faults.is_phrase element.now }
{
    matches!(
        element,
        Element::Terminal(_) | Element::Preterminal(_) | Element::Sub(_)
    )
}

fn has_phrase(body: &[Element]) -> bool
    ensures { result ≡ list_any faults.is_phrase body.now }
{
    body.iter().any(|element| is_phrase(element))
}

// Whether the body has no phrase.
pub(crate) fn is_empty_rule(rule: &Rule) -> bool
    ensures { result ≡ faults.is_empty_rule rule.now }
{
    !has_phrase(rule.body.as_slice())
}

// The category whose phrase stands here, if it is one.
fn sub_name(element: &Element) -> Option<u16>
    ensures { result ≡ faults.sub_name element.now }
{
    match element {
        Element::Sub(category) => Some(category.name),
        _ => None,
    }
}

// The category that stands first in the body, special elements passed over.
pub(crate) fn first_category(body: &[Element]) -> Option<u16>
    ensures { result ≡ faults.first_category body.now }
{
    for element in body {
        if is_phrase(element) {
            return sub_name(element);
        }
    }
    None
}

// Whether a rule has the head `text`.
pub(crate) fn has_start(rules: &[Rule]) -> bool
    ensures { result ≡ list_any (λ r. r.head.name == FIRST_PLAIN) rules.now }
{
    rules.iter().any(|rule| rule.head.name == FIRST_PLAIN)
}
