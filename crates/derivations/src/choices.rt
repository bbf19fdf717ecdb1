// The instances of a rule whose head may fit a category.
ghost use Rattle.std.specs.Prelude.{◌≡◌, ◌∷◌, [], ◌++◌, IfOk, OnOk, map, filter};
ghost use Rattle.std.specs.List.{flat_map, list_any};
ghost use Rattle.derivation_trees.specs.Instances.{own_features};
ghost use Rattle.derivations.specs.Enumeration as enumeration;
ghost use Rattle.derivations.specs.Choices.{choice_of};

use crate::values::{feature_values, given, position_values};
use codeco_terms::{Element, Pattern, Rule, Term, Value};
use derivation_trees::{Setting, push_own_features, written_variables};
use lists::List;
use scopes::Test;
use std::alloc::Global;
use wiki_base::Memory;

// A feature with what is written for it.
type Feat = (u16, Term);

// Variables with their values.
pub(crate) type Bound = List<(u8, Value)>;

// A variable with the values to be tried.
#[derive(Drop)]
struct Choice {
    variable: u8,
    values: List<Value>,
}

fn push_feats(feats: &[Feat], out: &mut List<Feat>) -> Result<(), Memory>
    ensures { OnOk result (out.new ≡ out.old ++ feats.now) }
{
    for feat in feats {
        out.push(*feat)?;
    }
    Ok(())
}

fn push_taken(taken: &[(u16, u8)], out: &mut List<Feat>) -> Result<(), Memory>
    ensures { OnOk result (out.new ≡ out.old ++ enumeration.taken_terms taken.now) }
{
    for (feature, variable) in taken {
        out.push((*feature, Term::Var(*variable)))?;
    }
    Ok(())
}

fn push_pattern(pattern: &Pattern, out: &mut List<Feat>) -> Result<(), Memory>
    ensures { OnOk result (out.new ≡ out.old ++ enumeration.pattern_terms pattern.now) }
{
    push_feats(pattern.cat.feats.as_slice(), out)?;
    push_taken(pattern.taken.as_slice(), out)
}

fn push_patterns(patterns: &[Pattern], out: &mut List<Feat>) -> Result<(), Memory>
    ensures { OnOk result (out.new ≡ out.old ++ flat_map enumeration.pattern_terms patterns.now) }
{
    for pattern in patterns {
        push_pattern(pattern, out)?;
    }
    Ok(())
}

// Adds the features that are written in the element.
fn push_element(element: &Element, out: &mut List<Feat>) -> Result<(), Memory>
    ensures { OnOk result (out.new ≡ out.old ++ enumeration.element_terms element.now) }
{
    match element {
        Element::Terminal(_) | Element::Position(_) | Element::Opener => Ok(()),
        Element::Preterminal(category)
        | Element::Sub(category)
        | Element::Forward(category)
        | Element::Strong(category) => push_feats(category.feats.as_slice(), out),
        Element::Back(positive, negative) => {
            push_patterns(positive.as_slice(), out)?;
            push_patterns(negative.as_slice(), out)
        }
        Element::NoBack(patterns) => push_patterns(patterns.as_slice(), out),
    }
}

fn push_body(body: &[Element], out: &mut List<Feat>) -> Result<(), Memory>
    ensures { OnOk result (out.new ≡ out.old ++ flat_map enumeration.element_terms body.now) }
{
    for element in body {
        push_element(element, out)?;
    }
    Ok(())
}

// The features that are written in the rule.
fn rule_terms(alloc: Global, rule: &Rule) -> Result<List<Feat>, Memory>
    ensures { IfOk result (λ terms. terms ≡ enumeration.rule_terms rule.now) }
{
    let mut terms = List::new(alloc);
    push_feats(rule.head.feats.as_slice(), &mut terms)?;
    push_body(rule.body.as_slice(), &mut terms)?;
    Ok(terms)
}

fn is_variable(variable: u8, term: Term) -> bool
    ensures { result ≡ enumeration.is_variable variable term }
{
    match term {
        Term::Val(_) => false,
        Term::Var(other) => variable == other,
    }
}

// The first feature at which the variable is written.
fn feature_at(variable: u8, terms: &[Feat]) -> Option<u16>
    ensures { result ≡ enumeration.feature_at variable terms.now }
{
    for (feature, term) in terms {
        if is_variable(variable, *term) {
            return Some(*feature);
        }
    }
    None
}

fn has_feature(pairs: &[(u16, Value)], feature: u16) -> bool
    ensures { result ≡ enumeration.has_feature pairs.now feature }
{
    pairs.iter().any(|p| p.0 == feature)
}

// The first feature at which the variable is written, of those that the pairs have.
fn fixed_at(pairs: &[(u16, Value)], variable: u8, terms: &[Feat]) -> Option<u16>
    ensures { result ≡ enumeration.fixed_at pairs.now variable terms.now }
{
    for (feature, term) in terms {
        if is_variable(variable, *term) && has_feature(pairs, *feature) {
            return Some(*feature);
        }
    }
    None
}

// The values to be tried for the variable where it isn't fixed.
fn free_values(
    alloc: Global,
    setting: &Setting<'_>,
    terms: &[Feat],
    variable: u8,
) -> Result<List<Value>, Memory>
    ensures { IfOk result (λ values. values ≡ enumeration.free_among setting.now terms.now variable) }
{
    match feature_at(variable, terms) {
        Some(feature) => feature_values(alloc, setting, feature),
        None => position_values(alloc, setting),
    }
}

// The values to be tried for the variable.
fn tried(
    alloc: Global,
    setting: &Setting<'_>,
    rule: &Rule,
    terms: &[Feat],
    wanted: &Test,
    variable: u8,
) -> Result<List<Value>, Memory>
    ensures { IfOk result (λ values. values ≡ enumeration.tried_among setting.now rule.now terms.now wanted.now variable) }
{
    let pairs = wanted.values.as_slice();
    match fixed_at(pairs, variable, rule.head.feats.as_slice()) {
        Some(feature) => given(alloc, pairs, feature),
        None => free_values(alloc, setting, terms, variable),
    }
}

// The number as that of a variable.
fn variable_number(number: usize) -> Result<u8, Memory>
    ensures { IfOk result (λ variable. variable ≡ number) }
{
    if number < 256 {
        Ok(number as u8)
    } else {
        Err(Memory)
    }
}

// Adds the variables with the values to be tried.
#[tactic(auto, using(crate::proofs::LoopLemmas::choices_push))]
fn push_tried(
    alloc: Global,
    setting: &Setting<'_>,
    rule: &Rule,
    terms: &[Feat],
    wanted: &Test,
    written: &[usize],
    out: &mut List<Choice>,
) -> Result<(), Memory>
    ensures { OnOk result (map choice_of out.new
        ≡ map choice_of out.old ++ map (enumeration.choice_among setting.now rule.now terms.now wanted.now) written.now) }
{
    for number in written {
        let variable = variable_number(*number)?;
        let values = tried(alloc, setting, rule, terms, wanted, variable)?;
        out.push(Choice { variable, values })?;
    }
    Ok(())
}

// Adds the written variables with the values to be tried.
fn push_written(
    alloc: Global,
    setting: &Setting<'_>,
    rule: &Rule,
    wanted: &Test,
    out: &mut List<Choice>,
) -> Result<(), Memory>
    ensures { OnOk result (map choice_of out.new
        ≡ map choice_of out.old ++ enumeration.written_choices setting.now rule.now wanted.now) }
{
    let terms = rule_terms(alloc, rule)?;
    let written = written_variables(alloc, rule)?;
    push_tried(
        alloc,
        setting,
        rule,
        terms.as_slice(),
        wanted,
        written.as_slice(),
        out,
    )
}

// Adds the features of the own variables of the elements.
fn push_all_own(
    alloc: Global,
    setting: &Setting<'_>,
    body: &[Element],
    out: &mut Vec<u16>,
) -> Result<(), Memory>
    ensures { OnOk result (out.new.items ≡ out.old.items ++ flat_map (own_features setting.now.grammar) body.now) }
{
    for element in body {
        push_own_features(alloc, setting.grammar, element, out)?;
    }
    Ok(())
}

// The features of the rule's own variables.
fn own_features_of(alloc: Global, setting: &Setting<'_>, rule: &Rule) -> Result<Vec<u16>, Memory>
    ensures { IfOk result (λ features. features.items ≡ enumeration.own_features_of setting.now rule.now) }
{
    let mut features = Vec::new(alloc);
    push_all_own(alloc, setting, rule.body.as_slice(), &mut features)?;
    Ok(features)
}

// Adds the own variables with the values to be tried.
#[tactic(auto, using(crate::proofs::LoopLemmas::choices_push, crate::proofs::LoopLemmas::own_next))]
fn push_own(
    alloc: Global,
    setting: &Setting<'_>,
    features: &[u16],
    out: &mut List<Choice>,
) -> Result<(), Memory>
    ensures { OnOk result (map choice_of out.new
        ≡ map choice_of out.old ++ enumeration.own_choices setting.now 16 features.now) }
{
    let mut number: usize = 16;
    for feature in features {
        let variable = variable_number(number)?;
        let values = feature_values(alloc, setting, *feature)?;
        out.push(Choice { variable, values })?;
        number = variable as usize + 1;
    }
    Ok(())
}

// The variables of the rule with the values to be tried.
fn choices(
    alloc: Global,
    setting: &Setting<'_>,
    rule: &Rule,
    wanted: &Test,
) -> Result<List<Choice>, Memory>
    ensures { IfOk result (λ made. map choice_of made ≡ enumeration.choices setting.now rule.now wanted.now) }
{
    let mut out = List::new(alloc);
    push_written(alloc, setting, rule, wanted, &mut out)?;
    let features = own_features_of(alloc, setting, rule)?;
    push_own(alloc, setting, features.as_slice(), &mut out)?;
    Ok(out)
}

fn copy_bound(alloc: Global, bound: &[(u8, Value)]) -> Result<Bound, Memory>
    ensures { IfOk result (λ copied. copied ≡ bound.now) }
{
    let mut copied = List::new(alloc);
    for pair in bound {
        copied.push(*pair)?;
    }
    Ok(copied)
}

// Adds the instance with one more variable, in each way.
fn push_longer(
    alloc: Global,
    variable: u8,
    values: &[Value],
    bound: &[(u8, Value)],
    out: &mut List<Bound>,
) -> Result<(), Memory>
    ensures { OnOk result (out.new ≡ out.old ++ enumeration.lengthened_one (variable, values.now) bound.now) }
{
    for value in values {
        let mut longer = copy_bound(alloc, bound)?;
        longer.push((variable, *value))?;
        out.push(longer)?;
    }
    Ok(())
}

// The instances with one more variable, in each way.
fn lengthened(alloc: Global, choice: &Choice, done: &[Bound]) -> Result<List<Bound>, Memory>
    ensures { IfOk result (λ out. out ≡ enumeration.lengthened (choice_of choice.now) done.now) }
{
    let mut out = List::new(alloc);
    for bound in done {
        push_longer(
            alloc,
            choice.variable,
            choice.values.as_slice(),
            bound.as_slice(),
            &mut out,
        )?;
    }
    Ok(out)
}

// The list with no values alone.
fn unbound(alloc: Global) -> Result<List<Bound>, Memory>
    ensures { IfOk result (λ out. out ≡ [] ∷ []) }
{
    let mut out = List::new(alloc);
    out.push(List::new(alloc))?;
    Ok(out)
}

// The instances that the choices give, after values that are chosen.
fn chosen(alloc: Global, choices: &[Choice], done: List<Bound>) -> Result<List<Bound>, Memory>
    ensures { IfOk result (λ made. made ≡ enumeration.chosen (map choice_of choices.now) done) }
{
    let mut made = done;
    for choice in choices {
        made = lengthened(alloc, choice, made.as_slice())?;
    }
    Ok(made)
}

// The instances of the rule whose head may fit the category.
pub(crate) fn instances(
    alloc: Global,
    setting: &Setting<'_>,
    rule: &Rule,
    wanted: &Test,
) -> Result<List<Bound>, Memory>
    ensures { IfOk result (λ made. made ≡ enumeration.instances setting.now rule.now wanted.now) }
{
    let choices = choices(alloc, setting, rule, wanted)?;
    let none = unbound(alloc)?;
    chosen(alloc, choices.as_slice(), none)
}
