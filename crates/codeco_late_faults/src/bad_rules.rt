// Rules with a value or a variable that its feature doesn't have.
ghost use Rattle.std.specs.Prelude.{◌≡◌, ◌==◌, ◌||◌, not, false, IfOk, IsTrue};
ghost use Rattle.std.specs.List.{list_all, list_any, flat_map};
ghost use Rattle.std.specs.Option.{option_map_or};
ghost use Rattle.codeco_checked.specs.Sound.{IsWritten, is_written_rule};
ghost use Rattle.codeco_checked.specs.Numbering.{has};
ghost use Rattle.codeco_checked.specs.Occurrences as occurrences;
ghost use Rattle.codeco_checked.specs.Faults as faults;
ghost use Rattle.codeco_late_faults.specs.First.{FindsFirst};
ghost use Rattle.codeco_late_faults.specs.Tables as tables;

use crate::doubles::has_double_feature;
use crate::feature_table::FeatureTable;
use crate::writing::rule_feats;
use codeco_terms::{Category, Element, Grammar, Rule, Term};
use std::alloc::Global;
use wiki_base::Memory;

// How many numbers a variable may have.
const VARIABLES: usize = 256;

// The place of the first bad rule of the grammar.
pub(crate) fn first_bad_rule(alloc: Global, grammar: &Grammar) -> Result<Option<usize>, Memory>
    requires written { IsWritten grammar.now }
    requires atoms { tables.CountsAtoms grammar.now }
    ensures { IfOk result (λ found. FindsFirst (λ r. IsTrue (faults.is_bad_rule grammar.now r)) grammar.now.rules found) }
{
    let table = FeatureTable::of(alloc, grammar)?;
    first_bad(alloc, &table, grammar.rules().as_slice())
}

fn first_bad(
    alloc: Global,
    table: &FeatureTable<'_>,
    rules: &[Rule],
) -> Result<Option<usize>, Memory>
    requires { IsTrue (list_all is_written_rule rules.now) }
    ensures { IfOk result (λ found. FindsFirst (λ r. IsTrue (faults.is_bad_rule table.now r)) rules.now found) }
{
    for (place, rule) in rules.iter().enumerate() {
        if is_bad_rule(alloc, table, rule)? {
            return Ok(Some(place));
        }
    }
    Ok(None)
}

// Whether the rule writes a value or a variable that its feature doesn't have, a feature twice in a category, or a
// feature that the words of a preterminal don't give. Double features come first, so that what follows goes through
// few features for each category.
fn is_bad_rule(alloc: Global, table: &FeatureTable<'_>, rule: &Rule) -> Result<bool, Memory>
    requires { IsTrue (is_written_rule rule.now) }
    ensures { IfOk result (λ bad. bad ≡ faults.is_bad_rule table.now rule.now) }
{
    if has_double_feature(rule) {
        return Ok(true);
    }
    let feats = rule_feats(alloc, rule)?;
    Ok(has_wrong_feats(table, feats.as_slice(), rule.body.as_slice()))
}

// Whether there is a fault in these features of a rule, or in its body's positions and preterminals.
fn has_wrong_feats(table: &FeatureTable<'_>, feats: &[(u16, Term)], body: &[Element]) -> bool
    ensures { result
        ≡ (((tables.has_wrong_atom table.now feats.now
        || tables.has_mixed_variable table.now feats.now)
        || list_any (tables.is_misplaced table.now feats.now) (flat_map occurrences.positions body.now))
        || list_any (faults.is_wrong_preterminal table.now) (flat_map faults.preterminals body.now)) }
{
    has_wrong_atom(table, feats)
        || has_mixed_variable(table, feats)
        || has_wrong_position(table, feats, body)
        || has_wrong_preterminal(table, body)
}

// Whether an atom isn't one of its feature.
fn has_wrong_atom(table: &FeatureTable<'_>, feats: &[(u16, Term)]) -> bool
    ensures { result ≡ tables.has_wrong_atom table.now feats.now }
{
    for (feature, term) in feats {
        if !table.fits(*feature, *term) {
            return true;
        }
    }
    false
}

// Whether a variable stands in two features of different values: each is compared with the first.
fn has_mixed_variable(table: &FeatureTable<'_>, feats: &[(u16, Term)]) -> bool
    ensures { result ≡ tables.has_mixed_variable table.now feats.now }
{
    let mut classes = [None; VARIABLES];
    for (feature, term) in feats {
        if let Term::Var(variable) = *term {
            let class = table.class(*feature);
            if differs(classes[variable as usize], class) {
                return true;
            }
            classes[variable as usize] = Some(class);
        }
    }
    false
}

// Whether another class came first.
fn differs(first: Option<usize>, class: usize) -> bool
    ensures { result ≡ option_map_or (λ k. not (k == class)) first false }
{
    match first {
        Some(known) => known != class,
        None => false,
    }
}

// Whether `#X` stands in the body where X stands in a feature that isn't of positions.
fn has_wrong_position(table: &FeatureTable<'_>, feats: &[(u16, Term)], body: &[Element]) -> bool
    ensures { result
        ≡ list_any (tables.is_misplaced table.now feats.now) (flat_map occurrences.positions body.now) }
{
    for element in body {
        if let Element::Position(variable) = element {
            if is_misplaced(table, feats, *variable) {
                return true;
            }
        }
    }
    false
}

fn is_misplaced(table: &FeatureTable<'_>, feats: &[(u16, Term)], variable: u8) -> bool
    ensures { result ≡ tables.is_misplaced table.now feats.now variable }
{
    for (feature, term) in feats {
        if is_variable(*term, variable) && !table.is_position(*feature) {
            return true;
        }
    }
    false
}

fn is_variable(term: Term, variable: u8) -> bool
    ensures { result ≡ has (occurrences.term_variables term) variable }
{
    match term {
        Term::Val(_) => false,
        Term::Var(other) => variable == other,
    }
}

// Whether a preterminal writes a feature that words of its kind don't give, or one with other values.
fn has_wrong_preterminal(table: &FeatureTable<'_>, body: &[Element]) -> bool
    ensures { result
        ≡ list_any (faults.is_wrong_preterminal table.now) (flat_map faults.preterminals body.now) }
{
    for element in body {
        if let Element::Preterminal(category) = element {
            if is_wrong_preterminal(table, category) {
                return true;
            }
        }
    }
    false
}

fn is_wrong_preterminal(table: &FeatureTable<'_>, category: &Category) -> bool
    ensures { result ≡ faults.is_wrong_preterminal table.now category.now }
{
    for (feature, _) in category.feats.as_slice() {
        if !(is_given(category.name, *feature) && table.has_given_values(*feature)) {
            return true;
        }
    }
    false
}

// Whether the words of the kind give the feature.
fn is_given(kind: u16, feature: u16) -> bool
    ensures { result ≡ has (faults.given_features kind) feature }
{
    match kind {
        0 | 4 => feature == 3,
        1 => feature == 0 || feature == 1 || feature == 3,
        2 => feature == 1 || feature == 3,
        3 => feature == 2 || feature == 3,
        _ => false,
    }
}
