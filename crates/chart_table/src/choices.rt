// The values that a variable of a rule can have at the tokens.
ghost use Rattle.std.specs.Prelude.{◌≡◌, ◌<◌, ◌+◌, ◌-◌, [], ◌∷◌, ◌++◌, map, length, Some, None, option_map, slice_get, IfOk, OnOk};
ghost use Rattle.std.specs.List.{flat_map, range_with_len};
ghost use Rattle.codeco_checked.specs.Numbering.{has};
ghost use Rattle.codeco_checked.specs.Occurrences.{positions};
ghost use Rattle.derivation_trees.specs.Instances as instances;
ghost use Rattle.chart_table.specs.Branches.{marked};
ghost use Rattle.chart_table.specs.Choices as choosing;
ghost use Rattle.chart_table.specs.Features as listing;

use crate::branches::values_at;
use crate::features::{CategoryFeatures, owned_by};
use crate::states::Feat;
use codeco_terms::{Declared, Element, Grammar, Ground, Pattern, Rule, Term, Value};
use derivation_trees::{Setting, variables_of, written_variables};
use lists::List;
use std::alloc::Global;
use wiki_base::{Memory, WordId};

/// The feature of preterminals that holds the word.
const WORD_FEATURE: u16 = 3;

/// What a rule writes, and its variables: its features with their terms, the variables of `#`, the features of its own
/// variables, all variables, how many of them are written, how many own ones each element has,
/// the features of the categories that elements introduce, and a value for each variable.
#[derive(Drop)]
pub struct Plan {
    pub(crate) terms: List<Feat>,
    pub(crate) places: List<u8>,
    pub(crate) own: List<u16>,
    pub(crate) variables: List<usize>,
    pub(crate) written: usize,
    pub(crate) counts: List<usize>,
    pub(crate) features: List<List<u16>>,
    pub(crate) sample: List<(u8, Value)>,
}

fn push_feats(feats: &[Feat], out: &mut List<Feat>) -> Result<(), Memory>
    ensures { OnOk result (out.new ≡ out.old ++ feats.now) }
{
    for feat in feats {
        out.push(*feat)?;
    }
    Ok(())
}

fn push_taken(taken: &[(u16, u8)], out: &mut List<Feat>) -> Result<(), Memory>
    ensures { OnOk result (out.new ≡ out.old ++ map marked taken.now) }
{
    for (feature, variable) in taken {
        out.push((*feature, Term::Var(*variable)))?;
    }
    Ok(())
}

fn push_pattern(pattern: &Pattern, out: &mut List<Feat>) -> Result<(), Memory>
    ensures { OnOk result (out.new ≡ out.old ++ choosing.pattern_terms pattern.now) }
{
    push_feats(pattern.cat.feats.as_slice(), out)?;
    push_taken(pattern.taken.as_slice(), out)
}

fn push_patterns(patterns: &[Pattern], out: &mut List<Feat>) -> Result<(), Memory>
    ensures { OnOk result (out.new ≡ out.old ++ flat_map choosing.pattern_terms patterns.now) }
{
    for pattern in patterns {
        push_pattern(pattern, out)?;
    }
    Ok(())
}

fn push_element(element: &Element, out: &mut List<Feat>) -> Result<(), Memory>
    ensures { OnOk result (out.new ≡ out.old ++ choosing.element_terms element.now) }
{
    match element {
        Element::Preterminal(category)
        | Element::Sub(category)
        | Element::Forward(category)
        | Element::Strong(category) => push_feats(category.feats.as_slice(), out),
        Element::Back(positive, negative) => {
            push_patterns(positive.as_slice(), out)?;
            push_patterns(negative.as_slice(), out)
        }
        Element::NoBack(patterns) => push_patterns(patterns.as_slice(), out),
        Element::Terminal(_) | Element::Position(_) | Element::Opener => Ok(()),
    }
}

fn push_body(body: &[Element], out: &mut List<Feat>) -> Result<(), Memory>
    ensures { OnOk result (out.new ≡ out.old ++ flat_map choosing.element_terms body.now) }
{
    for element in body {
        push_element(element, out)?;
    }
    Ok(())
}

fn terms_of(alloc: Global, rule: &Rule) -> Result<List<Feat>, Memory>
    ensures { IfOk result (λ terms. terms ≡ choosing.terms_of rule.now) }
{
    let mut terms = List::new(alloc);
    push_feats(rule.head.feats.as_slice(), &mut terms)?;
    push_body(rule.body.as_slice(), &mut terms)?;
    Ok(terms)
}

fn push_position(element: &Element, out: &mut List<u8>) -> Result<(), Memory>
    ensures { OnOk result (out.new ≡ out.old ++ positions element.now) }
{
    match element {
        Element::Position(variable) => out.push(*variable),
        _ => Ok(()),
    }
}

fn places_of(alloc: Global, body: &[Element]) -> Result<List<u8>, Memory>
    ensures { IfOk result (λ places. places ≡ flat_map positions body.now) }
{
    let mut places = List::new(alloc);
    for element in body {
        push_position(element, &mut places)?;
    }
    Ok(places)
}

// How many variables are written in the rule.
fn written_count(alloc: Global, rule: &Rule) -> Result<usize, Memory>
    ensures { IfOk result (λ count. count ≡ length (instances.written_variables rule.now)) }
{
    let written = List::from_vec(written_variables(alloc, rule)?);
    Ok(written.len())
}

// What the rule writes, with no values yet.
fn bare_plan(
    alloc: Global,
    grammar: &Grammar,
    rule: &Rule,
    known: &mut List<CategoryFeatures>,
) -> Result<Plan, Memory>
    requires { listing.AreListed grammar.now known.old }
    ensures known { OnOk result (listing.AreListed grammar.now known.new) }
    ensures plan { IfOk result (λ plan. choosing.IsPlanOf grammar.now rule.now plan) }
{
    let body = rule.body.as_slice();
    let owned = owned_by(alloc, grammar, body, known)?;
    let variables = List::from_vec(variables_of(alloc, rule, owned.own.len())?);
    Ok(Plan {
        terms: terms_of(alloc, rule)?,
        places: places_of(alloc, body)?,
        own: owned.own,
        variables,
        written: written_count(alloc, rule)?,
        counts: owned.counts,
        features: owned.features,
        sample: List::new(alloc),
    })
}

// One of the values of the feature, if it has any.
fn some_value(grammar: &Grammar, feature: u16) -> Option<Value> {
    let feature = grammar.features().as_slice().get(feature as usize)?;
    match &feature.declared {
        Declared::Undeclared => None,
        Declared::Words => Some(Value::Word(WordId(0))),
        Declared::Positions => Some(Value::Pos(0)),
        Declared::Atoms(atoms) => match atoms.as_slice().first() {
            None => None,
            Some(atom) => Some(Value::Atom(*atom)),
        },
    }
}

// One of the values that the variable can have, if it can have any.
fn some_choice(grammar: &Grammar, plan: &Plan, variable: u8) -> Option<Value> {
    if let Some(feature) = first_feature(plan.terms.as_slice(), variable) {
        return some_value(grammar, feature);
    }
    if has_place(plan.places.as_slice(), variable) {
        return Some(Value::Pos(0));
    }
    if variable < 16 {
        return Some(Value::Atom(0));
    }
    let feature = own_feature(plan.own.as_slice(), variable as usize - 16)?;
    some_value(grammar, feature)
}

// A value for each of the variables that can have one: one of those that it can have.
fn sample_of(alloc: Global, grammar: &Grammar, plan: &Plan) -> Result<List<(u8, Value)>, Memory> {
    let mut sample = List::new(alloc);
    for number in plan.variables.as_slice() {
        let variable = u8::try_from(*number).map_err(|_| Memory)?;
        if let Some(value) = some_choice(grammar, plan, variable) {
            sample.push((variable, value))?;
        }
    }
    Ok(sample)
}

// What the rule writes, and its variables.
fn plan_of(
    alloc: Global,
    grammar: &Grammar,
    rule: &Rule,
    known: &mut List<CategoryFeatures>,
) -> Result<Plan, Memory>
    requires { listing.AreListed grammar.now known.old }
    ensures known { OnOk result (listing.AreListed grammar.now known.new) }
    ensures plan { IfOk result (λ plan. choosing.IsPlanOf grammar.now rule.now plan) }
{
    let mut plan = bare_plan(alloc, grammar, rule, known)?;
    plan.sample = sample_of(alloc, grammar, &plan)?;
    Ok(plan)
}

/// The plans of all rules of the grammar.
pub fn plans_of(alloc: Global, grammar: &Grammar) -> Result<List<Plan>, Memory>
    ensures { IfOk result (λ plans. choosing.EachPlan grammar.now grammar.now.rules plans) }
{
    let mut known = List::new(alloc);
    let mut plans = List::new(alloc);
    for rule in grammar.rules().as_slice() {
        plans.push(plan_of(alloc, grammar, rule, &mut known)?)?;
    }
    Ok(plans)
}

/// The plan of the rule with the number.
pub fn plan_for<'a>(plans: &'a [Plan], number: usize) -> &'a Plan
    requires { number < length plans.now }
    ensures { slice_get plans.now number ≡ Some result.now }
{
    &plans[number]
}

// The features of the category that the element with the number introduces.
pub(crate) fn features_at<'a>(plan: &'a Plan, place: usize) -> &'a [u16]
    requires { place < length plan.now.features }
    ensures { slice_get plan.now.features place ≡ Some result.now }
{
    plan.features.get(place).as_slice()
}

// How many own variables the element with the number has.
pub(crate) fn count_at(plan: &Plan, place: usize) -> usize
    requires { place < length plan.now.counts }
    ensures { slice_get plan.now.counts place ≡ Some result }
{
    *plan.counts.get(place)
}

// Adds the words of readings.
fn push_words(alloc: Global, readings: &[Ground], out: &mut List<Value>) -> Result<(), Memory>
    ensures { OnOk result (out.new ≡ out.old ++ choosing.words_of readings.now) }
{
    for reading in readings {
        let words = values_at(alloc, reading.vals.as_slice(), WORD_FEATURE)?;
        out.append(words)?;
    }
    Ok(())
}

// Word 0 and the words with a form among the tokens.
fn word_values(alloc: Global, setting: &Setting<'_>) -> Result<List<Value>, Memory>
    ensures { IfOk result
        (λ values. values ≡ choosing.no_word ∷ flat_map choosing.words_of setting.now.readings) }
{
    let mut values = List::new(alloc);
    values.push(Value::Word(WordId(0)))?;
    for readings in setting.readings {
        push_words(alloc, readings.as_slice(), &mut values)?;
    }
    Ok(values)
}

// The positions 0 to the number of tokens.
#[tactic(auto, using(crate::proofs::Loops::positions_more))]
fn position_values(alloc: Global, setting: &Setting<'_>) -> Result<List<Value>, Memory>
    ensures { IfOk result (λ values. values ≡ choosing.all_positions setting.now) }
{
    let mut values = List::new(alloc);
    let count = setting.tokens.len() as u16 + 1;
    for place in 0..count {
        values.push(Value::Pos(place))?;
    }
    Ok(values)
}

fn atom_values(alloc: Global, atoms: &[u16]) -> Result<List<Value>, Memory>
    ensures { IfOk result (λ values. values ≡ map choosing.atom_value atoms.now) }
{
    let mut values = List::new(alloc);
    for atom in atoms {
        values.push(Value::Atom(*atom))?;
    }
    Ok(values)
}

// The values that are declared so.
fn declared_values(
    alloc: Global,
    setting: &Setting<'_>,
    declared: &Declared,
) -> Result<List<Value>, Memory>
    ensures { IfOk result (λ values. values ≡ choosing.declared_values setting.now declared.now) }
{
    match declared {
        Declared::Undeclared => Ok(List::new(alloc)),
        Declared::Words => word_values(alloc, setting),
        Declared::Positions => position_values(alloc, setting),
        Declared::Atoms(atoms) => atom_values(alloc, atoms.as_slice()),
    }
}

// The values of the feature with the number.
fn feature_values(alloc: Global, setting: &Setting<'_>, feature: u16) -> Result<List<Value>, Memory>
    ensures { IfOk result (λ values. values ≡ choosing.feature_values setting.now feature) }
{
    match setting.grammar.features().as_slice().get(feature as usize) {
        None => Ok(List::new(alloc)),
        Some(feature) => declared_values(alloc, setting, &feature.declared),
    }
}

fn stands_for(term: Term, variable: u8) -> bool
    ensures { result ≡ choosing.stands_for term variable }
{
    match term {
        Term::Val(_) => false,
        Term::Var(other) => other == variable,
    }
}

// The first feature for which the variable stands.
fn first_feature(terms: &[Feat], variable: u8) -> Option<u16>
    ensures { result ≡ choosing.first_feature terms.now variable }
{
    for (feature, term) in terms {
        if stands_for(*term, variable) {
            return Some(*feature);
        }
    }
    None
}

fn has_place(places: &[u8], variable: u8) -> bool
    ensures { result ≡ has places.now variable }
{
    places.iter().any(|other| variable == *other)
}

fn one_value(alloc: Global, value: Value) -> Result<List<Value>, Memory>
    ensures { IfOk result (λ values. values ≡ value ∷ []) }
{
    let mut values = List::new(alloc);
    values.push(value)?;
    Ok(values)
}

fn own_choices(
    alloc: Global,
    setting: &Setting<'_>,
    feature: Option<u16>,
) -> Result<List<Value>, Memory>
    ensures { IfOk result (λ values. values ≡ choosing.own_choices setting.now feature) }
{
    match feature {
        None => one_value(alloc, Value::Atom(0)),
        Some(feature) => feature_values(alloc, setting, feature),
    }
}

fn own_feature(own: &[u16], place: usize) -> Option<u16>
    ensures { result ≡ slice_get own.now place }
{
    own.get(place).copied()
}

fn variable_choices(
    alloc: Global,
    setting: &Setting<'_>,
    own: &[u16],
    variable: u8,
    feature: Option<u16>,
    at_position: bool,
) -> Result<List<Value>, Memory>
    ensures { IfOk result (λ values. values
        ≡ choosing.variable_choices setting.now own.now variable feature at_position) }
{
    if let Some(feature) = feature {
        return feature_values(alloc, setting, feature);
    }
    if at_position {
        return position_values(alloc, setting);
    }
    if variable < 16 {
        one_value(alloc, Value::Atom(0))
    } else {
        let feature = own_feature(own, variable as usize - 16);
        own_choices(alloc, setting, feature)
    }
}

// The values that the term can have.
pub(crate) fn choices(
    alloc: Global,
    setting: &Setting<'_>,
    plan: &Plan,
    term: Term,
) -> Result<List<Value>, Memory>
    ensures { IfOk result
        (λ values. values ≡ choosing.choices setting.now plan.now.terms plan.now.places plan.now.own term) }
{
    match term {
        Term::Val(value) => one_value(alloc, value),
        Term::Var(variable) => {
            let feature = first_feature(plan.terms.as_slice(), variable);
            let at_position = has_place(plan.places.as_slice(), variable);
            variable_choices(
                alloc,
                setting,
                plan.own.as_slice(),
                variable,
                feature,
                at_position,
            )
        }
    }
}
