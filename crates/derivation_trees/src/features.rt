// The features of categories.
ghost use Rattle.std.specs.Prelude.{◌≡◌, ◌≤◌, length, insert, map, MatchOption, IfOk, OnOk};
ghost use Rattle.std.specs.List.{flat_map};
ghost use Rattle.codeco_checked.specs.Occurrences.{mentions, whole};
ghost use Rattle.derivation_trees.specs.Instances as instances;
ghost use Rattle.derivation_trees.specs.Putting as putting;

use codeco_terms::{Category, Element, Grammar, Pattern, Term};
use std::alloc::Global;
use wiki_base::Memory;

// Puts the number among the others, which stand in order, where it isn't there yet.
pub(crate) fn put(numbers: &mut Vec<u16>, number: u16) -> Result<(), Memory>
    ensures { OnOk result (numbers.new.items ≡ putting.put number numbers.old.items) }
{
    if let Some(place) = place_for(numbers.as_slice(), number) {
        numbers.insert(place, number)?;
    }
    Ok(())
}

// The place at which the number is missing.
fn place_for(numbers: &[u16], number: u16) -> Option<usize>
    ensures { MatchOption result
        (putting.put number numbers.now ≡ numbers.now)
        (λ i. (i ≤ length numbers.now) × (insert numbers.now i number ≡ putting.put number numbers.now)) }
{
    for (place, other) in numbers.iter().enumerate() {
        if *other == number {
            return None;
        }
        if *other > number {
            return Some(place);
        }
    }
    Some(numbers.len())
}

/// The features of a category, in order of number.
#[tactic(auto, using(crate::proofs::PutLemmas::put_all_append))]
pub fn features_of(alloc: Global, grammar: &Grammar, name: u16) -> Result<Vec<u16>, Memory>
    ensures { IfOk result (λ features. features.items ≡ instances.features_of grammar.now name) }
{
    let mut features = Vec::new(alloc);
    for rule in grammar.rules().as_slice() {
        put_category(&mut features, &rule.head, name)?;
        put_body(&mut features, rule.body.as_slice(), name)?;
    }
    Ok(features)
}

#[tactic(auto, using(crate::proofs::PutLemmas::put_all_features))]
fn put_body(features: &mut Vec<u16>, body: &[Element], name: u16) -> Result<(), Memory>
    ensures { OnOk result
        (features.new.items
        ≡ putting.put_all features.old.items (flat_map (putting.features_in name) (flat_map mentions body.now))) }
{
    for element in body {
        put_element(features, element, name)?;
    }
    Ok(())
}

#[tactic(auto, using(crate::proofs::PutLemmas::put_all_features))]
fn put_element(features: &mut Vec<u16>, element: &Element, name: u16) -> Result<(), Memory>
    ensures { OnOk result
        (features.new.items
        ≡ putting.put_all features.old.items (flat_map (putting.features_in name) (mentions element.now))) }
{
    match element {
        Element::Preterminal(category)
        | Element::Sub(category)
        | Element::Forward(category)
        | Element::Strong(category) => put_category(features, category, name),
        Element::Back(positive, negative) => {
            put_patterns(features, positive.as_slice(), name)?;
            put_patterns(features, negative.as_slice(), name)
        }
        Element::NoBack(patterns) => put_patterns(features, patterns.as_slice(), name),
        Element::Terminal(_) | Element::Position(_) | Element::Opener => Ok(()),
    }
}

#[tactic(auto, using(crate::proofs::PutLemmas::put_all_append))]
fn put_patterns(features: &mut Vec<u16>, patterns: &[Pattern], name: u16) -> Result<(), Memory>
    ensures { OnOk result
        (features.new.items
        ≡ putting.put_all features.old.items (flat_map (putting.features_in name) (map whole patterns.now))) }
{
    for pattern in patterns {
        put_pattern(features, pattern, name)?;
    }
    Ok(())
}

#[tactic(auto, using(crate::proofs::PutLemmas::put_all_taken))]
fn put_pattern(features: &mut Vec<u16>, pattern: &Pattern, name: u16) -> Result<(), Memory>
    ensures { OnOk result
        (features.new.items
        ≡ putting.put_all features.old.items (putting.features_in name (whole pattern.now))) }
{
    if pattern.cat.name == name {
        put_feats(features, pattern.cat.feats.as_slice())?;
        put_taken(features, pattern.taken.as_slice())?;
    }
    Ok(())
}

fn put_category(features: &mut Vec<u16>, category: &Category, name: u16) -> Result<(), Memory>
    ensures { OnOk result
        (features.new.items ≡ putting.put_all features.old.items (putting.features_in name category.now)) }
{
    if category.name == name {
        put_feats(features, category.feats.as_slice())?;
    }
    Ok(())
}

fn put_feats(features: &mut Vec<u16>, feats: &[(u16, Term)]) -> Result<(), Memory>
    ensures { OnOk result
        (features.new.items ≡ putting.put_all features.old.items (map (λ f. f.0) feats.now)) }
{
    for (feature, _) in feats {
        put(features, *feature)?;
    }
    Ok(())
}

fn put_taken(features: &mut Vec<u16>, taken: &[(u16, u8)]) -> Result<(), Memory>
    ensures { OnOk result
        (features.new.items ≡ putting.put_all features.old.items (map (λ t. t.0) taken.now)) }
{
    for (feature, _) in taken {
        put(features, *feature)?;
    }
    Ok(())
}
