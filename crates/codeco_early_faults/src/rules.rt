// Large rules, and rules with features that are not declared.
ghost use Rattle.std.specs.Prelude.{◌≡◌, ℕ, ◌+◌, ◌<◌, ◌≤◌, nat_lt, not, List, [], flat_map, length, IfOk, MatchOption};
ghost use Rattle.std.specs.List.{list_any, list_all};
ghost use Rattle.codeco_text.specs.Names.{is_among};
ghost use Rattle.codeco_numbering.specs.Numbered.{gathered, rules_of, written_features, written_terminals, element_categories, category_features};
ghost use Rattle.codeco_early_faults.specs.Early.{written_patterns, is_large_written_rule, is_undeclared_written_rule, is_large_place, is_undeclared_place, declared_names, FindsFirst};
ghost use Rattle.wiki_base.specs.declared.text.TheConstants.{LONGEST_TEXT};

use crate::declarations::declared_names;
use crate::names::NameSet;
use crate::variables::variable_names;
use codeco_text::{
    WrittenCategories, WrittenCategory, WrittenElement, WrittenItem, WrittenItems, WrittenRule,
};
use std::alloc::Global;
use wiki_base::{LONGEST_TEXT, Memory};

/// The most elements, patterns and different variables of a rule.
const MOST_OF_A_RULE: usize = 16;

/// The number of the first rule that is one too many.
const ONE_TOO_MANY: u32 = 501;

/// Whether the element is a terminal over 64 bytes.
fn is_long(element: &WrittenElement) -> bool
    ensures { result ≡ list_any (λ w. nat_lt LONGEST_TEXT (length w)) (written_terminals element.now) }
{
    match element {
        WrittenElement::Terminal(name) => name.as_bytes().len() > LONGEST_TEXT,
        _ => false,
    }
}

/// Whether the rule has a terminal over 64 bytes.
fn has_long_terminal(body: &[WrittenElement]) -> bool
    ensures { result ≡ list_any (λ w. nat_lt LONGEST_TEXT (length w)) (flat_map written_terminals body.now) }
{
    for element in body {
        if is_long(element) {
            return true;
        }
    }
    false
}

/// The patterns that an element has beyond so many, or None where it has more of them than there are left.
fn left_after(left: usize, element: &WrittenElement) -> Option<usize>
    ensures { MatchOption result (left < length (written_patterns element.now)) (λ rest. rest + length (written_patterns element.now) ≡ left) }
{
    match element {
        WrittenElement::Back(positive, negative) => left
            .checked_sub(positive.len())?
            .checked_sub(negative.len()),
        WrittenElement::NoBack(positive) => left.checked_sub(positive.len()),
        _ => Some(left),
    }
}

/// Whether the elements have over 16 patterns.
fn has_many_patterns(body: &[WrittenElement]) -> bool
    ensures { result ≡ nat_lt 16 (length (flat_map written_patterns body.now)) }
{
    let mut left = MOST_OF_A_RULE;
    for element in body {
        match left_after(left, element) {
            Some(rest) => left = rest,
            None => return true,
        }
    }
    false
}

/// Whether the rule has over 16 elements, patterns or different variables, or a terminal over 64 bytes.
#[tactic(auto, using(crate::proofs::Numbers::count_gathered))]
fn is_large_rule(alloc: Global, rule: &WrittenRule) -> Result<bool, Memory>
    ensures { IfOk result (λ large. large ≡ is_large_written_rule rule.now) }
{
    let body = rule.body.as_slice();
    if body.len() > MOST_OF_A_RULE || has_many_patterns(body) || has_long_terminal(body) {
        return Ok(true);
    }
    let variables = variable_names(alloc, rule)?;
    Ok(variables.len() > MOST_OF_A_RULE)
}

/// The number of the first rule that is large or is the 501st.
pub(crate) fn first_large_rule(alloc: Global, items: &WrittenItems) -> Result<Option<u32>, Memory>
    ensures { IfOk result (FindsFirst (is_large_place (rules_of items.now))) }
{
    let mut number = 0;
    for item in items.as_slice() {
        if let WrittenItem::Rule(rule) = item {
            number += 1;
            if number == ONE_TOO_MANY || is_large_rule(alloc, rule)? {
                return Ok(Some(number));
            }
        }
    }
    Ok(None)
}

/// Whether each feature of the category is among these.
fn has_features(names: &NameSet<'_>, category: &WrittenCategory) -> bool
    ensures { result ≡ list_all (is_among names.now) (category_features category.now) }
{
    for feat in category.feats.as_slice() {
        if !names.has(feat.name.as_bytes()) {
            return false;
        }
    }
    true
}

/// Whether each feature of the categories is among these.
fn have_features(names: &NameSet<'_>, categories: &WrittenCategories) -> bool
    ensures { result ≡ list_all (is_among names.now) (flat_map category_features categories.now) }
{
    for category in categories.as_slice() {
        if !has_features(names, category) {
            return false;
        }
    }
    true
}

/// Whether each feature of the element is among these.
fn has_element_features(names: &NameSet<'_>, element: &WrittenElement) -> bool
    ensures { result ≡ list_all (is_among names.now) (flat_map category_features (element_categories element.now)) }
{
    match element {
        WrittenElement::Terminal(_) | WrittenElement::Position(_) | WrittenElement::Opener => true,
        WrittenElement::Preterminal(category)
        | WrittenElement::Sub(category)
        | WrittenElement::Forward(category)
        | WrittenElement::Strong(category) => has_features(names, category),
        WrittenElement::Back(positive, negative) => {
            have_features(names, positive) && have_features(names, negative)
        }
        WrittenElement::NoBack(positive) => have_features(names, positive),
    }
}

/// Whether each feature of the rule is among these.
fn has_rule_features(names: &NameSet<'_>, rule: &WrittenRule) -> bool
    ensures { result ≡ list_all (is_among names.now) (written_features rule.now) }
{
    if !has_features(names, &rule.head) {
        return false;
    }
    for element in rule.body.as_slice() {
        if !has_element_features(names, element) {
            return false;
        }
    }
    true
}

/// The number of the first rule with a feature that is not declared.
pub(crate) fn first_undeclared_rule(
    alloc: Global,
    items: &WrittenItems,
) -> Result<Option<u32>, Memory>
    requires { length (rules_of items.now) ≤ 500 }
    ensures { IfOk result (FindsFirst (is_undeclared_place items.now)) }
{
    let names = declared_names(alloc, items)?;
    let mut number = 0;
    for item in items.as_slice() {
        match item {
            WrittenItem::Feature(_, _) => {}
            WrittenItem::Rule(rule) => {
                number += 1;
                if !has_rule_features(&names, rule) {
                    return Ok(Some(number));
                }
            }
        }
    }
    Ok(None)
}
