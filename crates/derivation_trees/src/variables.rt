// The variables of a rule, and the values that an instance gives them.
ghost use Rattle.std.specs.Prelude.{◌≡◌, ◌+◌, ◌&&◌, [], ◌∷◌, ◌++◌, filter, map, drop, not, IfOk, OnOk};
ghost use Rattle.std.specs.List.{flat_map, list_all, range_with_len};
ghost use Rattle.codeco_terms.specs.declared.declarations.Declared.TheVariants as declared;
ghost use Rattle.codeco_checked.specs.Numbering.{has};
ghost use Rattle.codeco_checked.specs.Occurrences as occurrences;
ghost use Rattle.derivation_trees.specs.Settings as settings;
ghost use Rattle.derivation_trees.specs.Instances as instances;

use crate::features::features_of;
use crate::fitting::{own_fit, positions_fit, terms_fit};
use crate::setting::Setting;
use codeco_terms::{Category, Element, Grammar, Pattern, Rule, Term, Value};
use std::alloc::Global;
use wiki_base::Memory;

/// Whether the values are an instance of the rule at the setting.
pub fn is_instance(
    alloc: Global,
    setting: &Setting<'_>,
    rule: &Rule,
    values: &[(u8, Value)],
) -> Result<bool, Memory>
    ensures { IfOk result (λ yes. yes ≡ instances.is_instance setting.now rule.now values.now) }
{
    let own = rule_own_features(alloc, setting.grammar, rule.body.as_slice())?;
    let numbers = variables_of(alloc, rule, own.len())?;
    let mine = own_values(alloc, rule, values)?;
    Ok(all_hold(
        setting,
        rule,
        values,
        own.as_slice(),
        numbers.as_slice(),
        mine,
    ))
}

// Whether the values have these numbers, and fit the features that are written and those that the rule leaves out.
fn all_hold(
    setting: &Setting<'_>,
    rule: &Rule,
    values: &[(u8, Value)],
    own: &[u16],
    numbers: &[usize],
    mine: &[(u8, Value)],
) -> bool
    ensures { result
        ≡ (((instances.same_numbers (map (λ p. p.0) values.now) numbers.now
        && list_all (instances.term_fits setting.now values.now) (occurrences.rule_features rule.now))
        && list_all (λ x. settings.is_value setting.now declared.Positions (instances.value_under values.now x)) (flat_map occurrences.positions rule.now.body))
        && instances.own_fit setting.now own.now mine.now) }
{
    have_numbers(values, numbers)
        && terms_fit(setting, values, rule)
        && positions_fit(setting, values, rule.body.as_slice())
        && own_fit(setting, own, mine)
}

/// The rule's own variables with their values.
pub fn own_values<'a>(
    alloc: Global,
    rule: &Rule,
    values: &'a [(u8, Value)],
) -> Result<&'a [(u8, Value)], Memory>
    ensures { IfOk result (λ own. own.now ≡ instances.own_values rule.now values.now) }
{
    let written = written_variables(alloc, rule)?;
    Ok(after(values, written.len()))
}

// What comes after so many of the values.
fn after(values: &[(u8, Value)], count: usize) -> &[(u8, Value)]
    ensures { result.now ≡ drop count values.now }
{
    if count <= values.len() {
        &values[count..]
    } else {
        &values[values.len()..]
    }
}

/// The numbers of the written variables, and of so many own ones.
#[tactic(auto, using(crate::proofs::InstanceLemmas::range_more))]
pub fn variables_of(alloc: Global, rule: &Rule, own: usize) -> Result<Vec<usize>, Memory>
    ensures { IfOk result
        (λ numbers. numbers.items ≡ instances.written_variables rule.now ++ range_with_len 16 own) }
{
    let mut numbers = written_variables(alloc, rule)?;
    for place in 0..own {
        numbers.push(own_number(place)?)?;
    }
    Ok(numbers)
}

/// The variables that are written in the rule, in order of number.
pub fn written_variables(alloc: Global, rule: &Rule) -> Result<Vec<usize>, Memory>
    ensures { IfOk result (λ numbers. numbers.items ≡ instances.written_variables rule.now) }
{
    let mut numbers = Vec::new(alloc);
    for variable in 0..16u8 {
        push_if_written(rule, variable, &mut numbers)?;
    }
    Ok(numbers)
}

fn push_if_written(rule: &Rule, variable: u8, numbers: &mut Vec<usize>) -> Result<(), Memory>
    ensures { OnOk result
        (numbers.new.items ≡ numbers.old.items ++ filter (has (occurrences.rule_variables rule.now)) (variable ∷ [])) }
{
    if has_variable(rule, variable) {
        numbers.push(variable as usize)?;
    }
    Ok(())
}

fn own_number(place: usize) -> Result<usize, Memory>
    ensures { IfOk result (λ number. number ≡ 16 + place) }
{
    match place.checked_add(16) {
        Some(number) => Ok(number),
        None => Err(Memory),
    }
}

// Whether the values have these numbers, in this order.
fn have_numbers(values: &[(u8, Value)], numbers: &[usize]) -> bool
    ensures { result ≡ instances.same_numbers (map (λ p. p.0) values.now) numbers.now }
{
    for (place, p) in values.iter().enumerate() {
        match numbers.get(place) {
            None => return false,
            Some(number) => {
                if p.0 as usize != *number {
                    return false;
                }
            }
        }
    }
    values.len() == numbers.len()
}

/// The features of the rule's own variables.
pub fn rule_own_features(
    alloc: Global,
    grammar: &Grammar,
    body: &[Element],
) -> Result<Vec<u16>, Memory>
    ensures { IfOk result
        (λ own. own.items ≡ flat_map (instances.own_features grammar.now) body.now) }
{
    let mut own = Vec::new(alloc);
    for element in body {
        push_own_features(alloc, grammar, element, &mut own)?;
    }
    Ok(own)
}

/// Adds the features that an introduction leaves out.
pub fn push_own_features(
    alloc: Global,
    grammar: &Grammar,
    element: &Element,
    own: &mut Vec<u16>,
) -> Result<(), Memory>
    ensures { OnOk result (own.new.items ≡ own.old.items ++ instances.own_features grammar.now element.now) }
{
    match element {
        Element::Forward(category) | Element::Strong(category) => {
            push_left_out(alloc, grammar, category, own)
        }
        _ => Ok(()),
    }
}

fn push_left_out(
    alloc: Global,
    grammar: &Grammar,
    category: &Category,
    own: &mut Vec<u16>,
) -> Result<(), Memory>
    ensures { OnOk result (own.new.items ≡ own.old.items ++ instances.left_out grammar.now category.now) }
{
    let features = features_of(alloc, grammar, category.name)?;
    push_others(features.as_slice(), category.feats.as_slice(), own)
}

// Adds those of the features that aren't written.
fn push_others(features: &[u16], feats: &[(u16, Term)], own: &mut Vec<u16>) -> Result<(), Memory>
    ensures { OnOk result
        (own.new.items ≡ own.old.items ++ filter (λ f. not (has (map (λ p. p.0) feats.now) f)) features.now) }
{
    for feature in features {
        if !writes(feats, *feature) {
            own.push(*feature)?;
        }
    }
    Ok(())
}

// Whether the feature is written.
fn writes(feats: &[(u16, Term)], feature: u16) -> bool
    ensures { result ≡ has (map (λ p. p.0) feats.now) feature }
{
    for (other, _) in feats {
        if feature == *other {
            return true;
        }
    }
    false
}

// Whether the variable is written in the rule.
#[tactic(auto, using(crate::proofs::OccurrenceLemmas::has_append))]
fn has_variable(rule: &Rule, variable: u8) -> bool
    ensures { result ≡ has (occurrences.rule_variables rule.now) variable }
{
    feats_have(rule.head.feats.as_slice(), variable) || body_has(rule.body.as_slice(), variable)
}

#[tactic(auto, using(crate::proofs::OccurrenceLemmas::has_flat_map_cons))]
fn body_has(body: &[Element], variable: u8) -> bool
    ensures { result ≡ has (flat_map occurrences.element_variables body.now) variable }
{
    for element in body {
        if element_has(element, variable) {
            return true;
        }
    }
    false
}

#[tactic(auto, using(crate::proofs::OccurrenceLemmas::has_flat_map_append))]
fn element_has(element: &Element, variable: u8) -> bool
    ensures { result ≡ has (occurrences.element_variables element.now) variable }
{
    match element {
        Element::Terminal(_) | Element::Opener => false,
        Element::Position(other) => variable == *other,
        Element::Preterminal(category)
        | Element::Sub(category)
        | Element::Forward(category)
        | Element::Strong(category) => feats_have(category.feats.as_slice(), variable),
        Element::Back(positive, negative) => {
            patterns_have(positive.as_slice(), variable)
                || patterns_have(negative.as_slice(), variable)
        }
        Element::NoBack(patterns) => patterns_have(patterns.as_slice(), variable),
    }
}

#[tactic(auto, using(crate::proofs::OccurrenceLemmas::has_flat_map_cons))]
fn patterns_have(patterns: &[Pattern], variable: u8) -> bool
    ensures { result
        ≡ has (flat_map occurrences.category_variables (map occurrences.whole patterns.now)) variable }
{
    for pattern in patterns {
        if pattern_has(pattern, variable) {
            return true;
        }
    }
    false
}

#[tactic(auto, using(crate::proofs::OccurrenceLemmas::with_taken_has))]
fn pattern_has(pattern: &Pattern, variable: u8) -> bool
    ensures { result ≡ has (occurrences.category_variables (occurrences.whole pattern.now)) variable }
{
    feats_have(pattern.cat.feats.as_slice(), variable)
        || taken_has(pattern.taken.as_slice(), variable)
}

fn feats_have(feats: &[(u16, Term)], variable: u8) -> bool
    ensures { result ≡ has (flat_map (λ f. occurrences.term_variables f.1) feats.now) variable }
{
    for (_, term) in feats {
        if let Term::Var(other) = *term {
            if variable == other {
                return true;
            }
        }
    }
    false
}

fn taken_has(taken: &[(u16, u8)], variable: u8) -> bool
    ensures { result ≡ has (map (λ t. t.1) taken.now) variable }
{
    for (_, other) in taken {
        if variable == *other {
            return true;
        }
    }
    false
}
