// Whether values are an instance of a rule, by the rule's plan.
ghost use Rattle.std.specs.Prelude.{◌≡◌, map, drop};
ghost use Rattle.std.specs.List.{list_all, list_any};
ghost use Rattle.codeco_terms.specs.declared.declarations.Declared.TheVariants as declared;
ghost use Rattle.codeco_checked.specs.Numbering.{has};
ghost use Rattle.scopes.specs.Resolution as resolution;
ghost use Rattle.derivation_trees.specs.Settings as settings;
ghost use Rattle.derivation_trees.specs.Instances as instances;
ghost use Rattle.chart_table.specs.Choices as choosing;

use crate::choices::Plan;
use crate::states::Feat;
use codeco_terms::{Declared, Ground, Term, Value};
use derivation_trees::{Setting, value_under};
use lexicon::Readings;
use scopes::has_value;

/// The feature of preterminals that holds the word.
const WORD_FEATURE: u16 = 3;

fn some_has_word(readings: &[Ground], word: Value) -> bool
    ensures { result ≡ list_any (λ reading. resolution.has_value reading.vals (3, word)) readings.now }
{
    readings.iter().any(|reading| has_value(reading.vals.as_slice(), (WORD_FEATURE, word)))
}

fn some_have_word(readings: &[Readings], word: Value) -> bool
    ensures { result
        ≡ list_any (λ one. list_any (λ reading. resolution.has_value reading.vals (3, word)) one) readings.now }
{
    readings
        .iter()
        .any(|one| some_has_word(one.as_slice(), word))
}

fn has_word(setting: &Setting<'_>, word: Value) -> bool
    ensures { result ≡ settings.has_word setting.now word }
{
    some_have_word(setting.readings, word)
}

fn has_number(numbers: &[u16], number: u16) -> bool
    ensures { result ≡ has numbers.now number }
{
    numbers.iter().any(|other| number == *other)
}

// Whether the value is one of those that are declared.
fn is_value(setting: &Setting<'_>, declared: &Declared, value: Value) -> bool
    ensures { result ≡ settings.is_value setting.now declared.now value }
{
    match declared {
        Declared::Undeclared => false,
        Declared::Words => match value {
            Value::Word(word) => word.0 == 0 || has_word(setting, value),
            _ => false,
        },
        Declared::Positions => match value {
            Value::Pos(pos) => pos as usize <= setting.tokens.len(),
            _ => false,
        },
        Declared::Atoms(atoms) => match value {
            Value::Atom(atom) => has_number(atoms.as_slice(), atom),
            _ => false,
        },
    }
}

// Whether the value is one of the feature with the number.
fn fits_feature(setting: &Setting<'_>, feature: u16, value: Value) -> bool
    ensures { result ≡ settings.fits_feature setting.now feature value }
{
    match setting.grammar.features().as_slice().get(feature as usize) {
        None => false,
        Some(feature) => is_value(setting, &feature.declared, value),
    }
}

fn term_fits(setting: &Setting<'_>, values: &[(u8, Value)], feature: u16, term: Term) -> bool
    ensures { result ≡ instances.term_fits setting.now values.now (feature, term) }
{
    match term {
        Term::Val(_) => true,
        Term::Var(variable) => fits_feature(setting, feature, value_under(values, variable)),
    }
}

fn terms_fit(setting: &Setting<'_>, values: &[(u8, Value)], terms: &[Feat]) -> bool
    ensures { result ≡ list_all (instances.term_fits setting.now values.now) terms.now }
{
    terms.iter().all(|p| term_fits(setting, values, p.0, p.1))
}

fn is_place(setting: &Setting<'_>, value: Value) -> bool
    ensures { result ≡ settings.is_value setting.now declared.Positions value }
{
    match value {
        Value::Pos(pos) => pos as usize <= setting.tokens.len(),
        _ => false,
    }
}

fn places_fit(setting: &Setting<'_>, values: &[(u8, Value)], places: &[u8]) -> bool
    ensures { result
        ≡ list_all (λ x. settings.is_value setting.now declared.Positions (instances.value_under values.now x)) places.now }
{
    places
        .iter()
        .all(|place| is_place(setting, value_under(values, *place)))
}

fn own_fit(setting: &Setting<'_>, features: &[u16], values: &[(u8, Value)]) -> bool
    ensures { result ≡ instances.own_fit setting.now features.now values.now }
{
    for (place, feature) in features.iter().enumerate() {
        match values.get(place) {
            None => return false,
            Some(p) => {
                if !fits_feature(setting, *feature, p.1) {
                    return false;
                }
            }
        }
    }
    true
}

// Whether the values have these numbers, in this order.
fn have_numbers(values: &[(u8, Value)], numbers: &[usize]) -> bool
    ensures { result ≡ instances.same_numbers (map (λ p. p.0) values.now) numbers.now }
{
    for (place, p) in values.iter().enumerate() {
        match numbers.get(place) {
            None => return false,
            Some(number) => {
                if p.0 as usize != *number {
                    return false;
                }
            }
        }
    }
    values.len() == numbers.len()
}

// The values after so many.
fn values_from<'a>(values: &'a [(u8, Value)], first: usize) -> &'a [(u8, Value)]
    ensures { result.now ≡ drop first values.now }
{
    if first <= values.len() {
        &values[first..]
    } else {
        &[]
    }
}

// Whether the values are an instance of the rule with the plan.
pub(crate) fn is_planned(setting: &Setting<'_>, plan: &Plan, values: &[(u8, Value)]) -> bool
    ensures { result ≡ choosing.planned_instance setting.now plan.now values.now }
{
    have_numbers(values, plan.variables.as_slice())
        && terms_fit(setting, values, plan.terms.as_slice())
        && places_fit(setting, values, plan.places.as_slice())
        && own_fit(
            setting,
            plan.own.as_slice(),
            values_from(values, plan.written),
        )
}
