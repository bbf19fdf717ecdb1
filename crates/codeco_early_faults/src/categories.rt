// Categories with too many features.
ghost use Rattle.std.specs.Prelude.{◌≡◌, [], ◌++◌, flat_map, map, codes, if◌then◌else◌, IfOk, OnOk};
ghost use Rattle.codeco_text.specs.Names.{is_among};
ghost use Rattle.codeco_text.specs.Notation.{kinds};
ghost use Rattle.codeco_numbering.specs.Numbered.{item_rules};
ghost use Rattle.codeco_early_faults.specs.Pairs.{gathered_pairs};
ghost use Rattle.codeco_early_faults.specs.Early.{named_pairs, category_pairs, plain_pairs, kind_pairs, rule_plain_pairs, rule_kind_pairs, written_plain_pairs, written_kind_pairs, has_wide, has_broad_written_category};
ghost use Rattle.codeco_early_faults.specs.Counts.{has_crowd};

use crate::pairs::PairSet;
use codeco_text::{
    WrittenCategories, WrittenCategory, WrittenElement, WrittenItem, WrittenItems, WrittenRule,
    is_kind,
};
use indexmap::IndexMap;
use std::alloc::Global;
use wiki_base::Memory;

/// The most different features that may stand with one category's name.
const MOST_OF_A_CATEGORY: usize = 16;

/// Puts the features of a category under this name.
fn put_category<'a>(
    pairs: &mut PairSet<'a>,
    name: &'a [u8],
    category: &'a WrittenCategory,
) -> Result<(), Memory>
    ensures { OnOk result (pairs.new ≡ gathered_pairs pairs.old (named_pairs name.now category.now)) }
{
    for feat in category.feats.as_slice() {
        pairs.put(name, feat.name.as_bytes())?;
    }
    Ok(())
}

/// Puts the features of categories under their names.
fn put_categories<'a>(
    pairs: &mut PairSet<'a>,
    categories: &'a WrittenCategories,
) -> Result<(), Memory>
    ensures { OnOk result (pairs.new ≡ gathered_pairs pairs.old (flat_map category_pairs categories.now)) }
{
    for category in categories.as_slice() {
        put_category(pairs, category.name.as_bytes(), category)?;
    }
    Ok(())
}

/// Puts the features of a reference's patterns.
fn put_reference<'a>(
    pairs: &mut PairSet<'a>,
    positive: &'a WrittenCategories,
    negative: &'a WrittenCategories,
) -> Result<(), Memory>
    ensures { OnOk result (pairs.new ≡ gathered_pairs pairs.old (flat_map category_pairs (positive.now ++ negative.now))) }
{
    put_categories(pairs, positive)?;
    put_categories(pairs, negative)?;
    Ok(())
}

/// Puts the features of a preterminal that is none of the five under `text`, whose number it would have.
fn put_stranger<'a>(pairs: &mut PairSet<'a>, category: &'a WrittenCategory) -> Result<(), Memory>
    ensures { OnOk result (pairs.new ≡ gathered_pairs pairs.old (if is_among kinds category.now.name then [] else named_pairs (codes "text") category.now)) }
{
    if is_kind(category.name.as_bytes()) {
        return Ok(());
    }
    put_category(pairs, b"text", category)
}

/// Puts the features of an element's categories that are no preterminals.
fn put_element<'a>(pairs: &mut PairSet<'a>, element: &'a WrittenElement) -> Result<(), Memory>
    ensures { OnOk result (pairs.new ≡ gathered_pairs pairs.old (plain_pairs element.now)) }
{
    match element {
        WrittenElement::Terminal(_) | WrittenElement::Position(_) | WrittenElement::Opener => {
            Ok(())
        }
        WrittenElement::Preterminal(category) => put_stranger(pairs, category),
        WrittenElement::Sub(category)
        | WrittenElement::Forward(category)
        | WrittenElement::Strong(category) => {
            put_category(pairs, category.name.as_bytes(), category)
        }
        WrittenElement::Back(positive, negative) => put_reference(pairs, positive, negative),
        WrittenElement::NoBack(positive) => put_categories(pairs, positive),
    }
}

/// Puts the features of a rule's categories that are no preterminals.
fn put_rule<'a>(pairs: &mut PairSet<'a>, rule: &'a WrittenRule) -> Result<(), Memory>
    ensures { OnOk result (pairs.new ≡ gathered_pairs pairs.old (rule_plain_pairs rule.now)) }
{
    put_category(pairs, rule.head.name.as_bytes(), &rule.head)?;
    for element in rule.body.as_slice() {
        put_element(pairs, element)?;
    }
    Ok(())
}

/// Puts the features of a rule. A declaration has none.
fn put_item<'a>(pairs: &mut PairSet<'a>, item: &'a WrittenItem) -> Result<(), Memory>
    ensures { OnOk result (pairs.new ≡ gathered_pairs pairs.old (flat_map rule_plain_pairs (item_rules item.now))) }
{
    match item {
        WrittenItem::Feature(_, _) => Ok(()),
        WrittenItem::Rule(rule) => put_rule(pairs, rule),
    }
}

/// The features that rules write for categories that are no preterminals, each with the name of its category.
fn pairs_of(alloc: Global, items: &WrittenItems) -> Result<PairSet<'_>, Memory>
    ensures { IfOk result (λ pairs. pairs ≡ gathered_pairs [] (written_plain_pairs items.now)) }
{
    let mut pairs = PairSet::new(alloc);
    for item in items.as_slice() {
        put_item(&mut pairs, item)?;
    }
    Ok(pairs)
}

/// Puts the features of a preterminal.
fn put_preterminal<'a>(pairs: &mut PairSet<'a>, category: &'a WrittenCategory) -> Result<(), Memory>
    ensures { OnOk result (pairs.new ≡ gathered_pairs pairs.old (if is_among kinds category.now.name then category_pairs category.now else [])) }
{
    if is_kind(category.name.as_bytes()) {
        return put_category(pairs, category.name.as_bytes(), category);
    }
    Ok(())
}

/// Puts the features of an element's preterminal.
fn put_element_kind<'a>(pairs: &mut PairSet<'a>, element: &'a WrittenElement) -> Result<(), Memory>
    ensures { OnOk result (pairs.new ≡ gathered_pairs pairs.old (kind_pairs element.now)) }
{
    match element {
        WrittenElement::Preterminal(category) => put_preterminal(pairs, category),
        _ => Ok(()),
    }
}

/// Puts the features of a rule's preterminals. A declaration has none.
fn put_item_kinds<'a>(pairs: &mut PairSet<'a>, item: &'a WrittenItem) -> Result<(), Memory>
    ensures { OnOk result (pairs.new ≡ gathered_pairs pairs.old (flat_map rule_kind_pairs (item_rules item.now))) }
{
    match item {
        WrittenItem::Feature(_, _) => Ok(()),
        WrittenItem::Rule(rule) => put_kinds(pairs, rule.body.as_slice()),
    }
}

/// Puts the features of the preterminals among elements.
fn put_kinds<'a>(pairs: &mut PairSet<'a>, body: &'a [WrittenElement]) -> Result<(), Memory>
    ensures { OnOk result (pairs.new ≡ gathered_pairs pairs.old (flat_map kind_pairs body.now)) }
{
    for element in body {
        put_element_kind(pairs, element)?;
    }
    Ok(())
}

/// The features that rules write for preterminals, each with the preterminal's name.
fn kind_pairs_of(alloc: Global, items: &WrittenItems) -> Result<PairSet<'_>, Memory>
    ensures { IfOk result (λ pairs. pairs ≡ gathered_pairs [] (written_kind_pairs items.now)) }
{
    let mut pairs = PairSet::new(alloc);
    for item in items.as_slice() {
        put_item_kinds(&mut pairs, item)?;
    }
    Ok(pairs)
}

/// Whether over 16 of the pairs have one first name.
fn has_crowd(alloc: Global, pairs: &[(&[u8], &[u8])]) -> Result<bool, Memory>
    ensures { IfOk result (λ found. found ≡ has_crowd 16 (map (λ pair. pair.0.now) pairs.now)) }
{
    let mut counts: IndexMap<&[u8], usize> = IndexMap::new(alloc);
    for pair in pairs {
        let count = counts.get(pair.0).copied().unwrap_or(0);
        if count >= MOST_OF_A_CATEGORY {
            return Ok(true);
        }
        counts.insert(pair.0, count + 1)?;
    }
    Ok(false)
}

/// Whether over 16 different features stand with the name of one category that is no preterminal.
fn has_broad_plain(alloc: Global, items: &WrittenItems) -> Result<bool, Memory>
    ensures { IfOk result (λ found. found ≡ has_wide (written_plain_pairs items.now)) }
{
    let pairs = pairs_of(alloc, items)?;
    let found = has_crowd(alloc, pairs.as_slice())?;
    Ok(found)
}

/// Whether over 16 different features stand with the name of one preterminal.
fn has_broad_kind(alloc: Global, items: &WrittenItems) -> Result<bool, Memory>
    ensures { IfOk result (λ found. found ≡ has_wide (written_kind_pairs items.now)) }
{
    let pairs = kind_pairs_of(alloc, items)?;
    let found = has_crowd(alloc, pairs.as_slice())?;
    Ok(found)
}

/// Whether over 16 different features stand with one category's name, or with one preterminal's.
pub(crate) fn has_broad_category(alloc: Global, items: &WrittenItems) -> Result<bool, Memory>
    ensures { IfOk result (λ found. found ≡ has_broad_written_category items.now) }
{
    if has_broad_plain(alloc, items)? {
        return Ok(true);
    }
    has_broad_kind(alloc, items)
}
