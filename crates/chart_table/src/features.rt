// The features of introductions, looked up once for each category.
ghost use Rattle.std.specs.Prelude.{◌≡◌, filter, map, not, length, All, IfOk, IfSome, OnOk};
ghost use Rattle.std.specs.List.{flat_map};
ghost use Rattle.codeco_checked.specs.Numbering.{has};
ghost use Rattle.derivation_trees.specs.Instances as instances;
ghost use Rattle.chart_table.specs.Features as listing;

use codeco_terms::{Element, Grammar, Term};
use derivation_trees::features_of;
use lists::List;
use std::alloc::Global;
use wiki_base::Memory;

// A category with its features.
#[derive(Drop)]
pub(crate) struct CategoryFeatures {
    pub(crate) name: u16,
    pub(crate) features: List<u16>,
}

// The features of the introductions among elements, the features of own variables, and how many own variables each
// element has.
#[derive(Drop)]
pub(crate) struct Owned {
    pub(crate) features: List<List<u16>>,
    pub(crate) own: List<u16>,
    pub(crate) counts: List<usize>,
}

fn copy_numbers(alloc: Global, numbers: &[u16]) -> Result<List<u16>, Memory>
    ensures { IfOk result (λ copied. copied ≡ numbers.now) }
{
    let mut copied = List::new(alloc);
    for number in numbers {
        copied.push(*number)?;
    }
    Ok(copied)
}

// The features of the category, if they were looked up before.
fn listed(alloc: Global, known: &[CategoryFeatures], name: u16) -> Result<Option<List<u16>>, Memory>
    ensures { IfOk result (λ found. IfSome found (listing.HasListed known.now name)) }
{
    for one in known {
        if one.name == name {
            let copied = copy_numbers(alloc, one.features.as_slice())?;
            return Ok(Some(copied));
        }
    }
    Ok(None)
}

// The features of the category.
fn features_for(
    alloc: Global,
    grammar: &Grammar,
    name: u16,
    known: &mut List<CategoryFeatures>,
) -> Result<List<u16>, Memory>
    requires { listing.AreListed grammar.now known.old }
    ensures known { OnOk result (listing.AreListed grammar.now known.new) }
    ensures features { IfOk result (λ found. found ≡ instances.features_of grammar.now name) }
{
    if let Some(found) = listed(alloc, known.as_slice(), name)? {
        return Ok(found);
    }
    let found = List::from_vec(features_of(alloc, grammar, name)?);
    let copied = copy_numbers(alloc, found.as_slice())?;
    known.push(CategoryFeatures {
        name,
        features: copied,
    })?;
    Ok(found)
}

// The features of the category that the element introduces.
fn element_features(
    alloc: Global,
    grammar: &Grammar,
    element: &Element,
    known: &mut List<CategoryFeatures>,
) -> Result<List<u16>, Memory>
    requires { listing.AreListed grammar.now known.old }
    ensures known { OnOk result (listing.AreListed grammar.now known.new) }
    ensures features { IfOk result (λ found. found ≡ listing.element_features grammar.now element.now) }
{
    match element {
        Element::Forward(category) | Element::Strong(category) => {
            features_for(alloc, grammar, category.name, known)
        }
        _ => Ok(List::new(alloc)),
    }
}

// Those of the features that aren't written.
fn others(alloc: Global, features: &[u16], feats: &[(u16, Term)]) -> Result<List<u16>, Memory>
    ensures { IfOk result
        (λ own. own ≡ filter (λ f. not (has (map (λ p. p.0) feats.now) f)) features.now) }
{
    let mut own = List::new(alloc);
    for feature in features {
        if !writes(feats, *feature) {
            own.push(*feature)?;
        }
    }
    Ok(own)
}

// Whether the feature is written.
fn writes(feats: &[(u16, Term)], feature: u16) -> bool
    ensures { result ≡ has (map (λ p. p.0) feats.now) feature }
{
    for (other, _) in feats {
        if feature == *other {
            return true;
        }
    }
    false
}

// The features of the element's own variables, by the features of the category that it introduces.
fn own_features(alloc: Global, features: &[u16], element: &Element) -> Result<List<u16>, Memory>
    ensures { IfOk result (λ own. own ≡ listing.own_among features.now element.now) }
{
    match element {
        Element::Forward(category) | Element::Strong(category) => {
            others(alloc, features, category.feats.as_slice())
        }
        _ => Ok(List::new(alloc)),
    }
}

// The features of the introductions among the elements, those of own variables, and how many own variables each element
// has.
pub(crate) fn owned_by(
    alloc: Global,
    grammar: &Grammar,
    body: &[Element],
    known: &mut List<CategoryFeatures>,
) -> Result<Owned, Memory>
    requires { listing.AreListed grammar.now known.old }
    ensures known { OnOk result (listing.AreListed grammar.now known.new) }
    ensures features { IfOk result (λ owned. owned.features ≡ map (listing.element_features grammar.now) body.now) }
    ensures own { IfOk result (λ owned. owned.own ≡ flat_map (instances.own_features grammar.now) body.now) }
    ensures counts { IfOk result
        (λ owned. owned.counts ≡ map (λ e. length (instances.own_features grammar.now e)) body.now) }
{
    let mut all = List::new(alloc);
    let mut own = List::new(alloc);
    let mut counts = List::new(alloc);
    for element in body {
        let found = element_features(alloc, grammar, element, known)?;
        let mine = own_features(alloc, found.as_slice(), element)?;
        counts.push(mine.len())?;
        own.append(mine)?;
        all.push(found)?;
    }
    Ok(Owned {
        features: all,
        own,
        counts,
    })
}
