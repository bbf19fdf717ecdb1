// Terminals and the names of categories, by first occurrence.
ghost use Rattle.std.specs.Prelude.{◌≡◌, [], ◌∷◌, map, flat_map, codes, IfOk, OnOk};
ghost use Rattle.codeco_numbering.specs.Numbered.{gathered, written_terminals, plain_categories, rule_names, item_rules, rules_of};

use crate::names::Names;
use codeco_text::{
    WrittenCategories, WrittenElement, WrittenElements, WrittenItem, WrittenItems, WrittenRule,
};
use std::alloc::Global;
use wiki_base::Memory;

fn add_terminal(alloc: Global, element: &WrittenElement, names: &mut Names) -> Result<(), Memory>
    ensures { OnOk result (names.new ≡ gathered names.old (written_terminals element.now)) }
{
    match element {
        WrittenElement::Terminal(name) => names.add(alloc, name.as_bytes()),
        _ => Ok(()),
    }
}

fn add_body_terminals(
    alloc: Global,
    body: &WrittenElements,
    names: &mut Names,
) -> Result<(), Memory>
    ensures { OnOk result (names.new ≡ gathered names.old (flat_map written_terminals body.now)) }
{
    for element in body.as_slice() {
        add_terminal(alloc, element, names)?;
    }
    Ok(())
}

fn add_item_terminals(alloc: Global, item: &WrittenItem, names: &mut Names) -> Result<(), Memory>
    ensures { OnOk result (names.new ≡ gathered names.old (flat_map (λ r. flat_map written_terminals r.body) (item_rules item.now))) }
{
    match item {
        WrittenItem::Feature(_, _) => Ok(()),
        WrittenItem::Rule(rule) => add_body_terminals(alloc, &rule.body, names),
    }
}

/// The terminals of the rules.
pub fn terminals_of(alloc: Global, items: &WrittenItems) -> Result<Names, Memory>
    ensures { IfOk result (λ names. names ≡ gathered [] (flat_map (λ r. flat_map written_terminals r.body) (rules_of items.now))) }
{
    let mut names = Names::new(alloc);
    for item in items.as_slice() {
        add_item_terminals(alloc, item, &mut names)?;
    }
    Ok(names)
}

fn add_names(alloc: Global, categories: &WrittenCategories, names: &mut Names) -> Result<(), Memory>
    ensures { OnOk result (names.new ≡ gathered names.old (map (λ c. c.name) categories.now)) }
{
    for category in categories.as_slice() {
        names.add(alloc, category.name.as_bytes())?;
    }
    Ok(())
}

fn add_element_names(
    alloc: Global,
    element: &WrittenElement,
    names: &mut Names,
) -> Result<(), Memory>
    ensures { OnOk result (names.new ≡ gathered names.old (map (λ c. c.name) (plain_categories element.now))) }
{
    match element {
        WrittenElement::Terminal(_) => Ok(()),
        WrittenElement::Preterminal(_) => Ok(()),
        WrittenElement::Sub(category) => names.add(alloc, category.name.as_bytes()),
        WrittenElement::Position(_) => Ok(()),
        WrittenElement::Opener => Ok(()),
        WrittenElement::Forward(category) => names.add(alloc, category.name.as_bytes()),
        WrittenElement::Strong(category) => names.add(alloc, category.name.as_bytes()),
        WrittenElement::Back(positives, negatives) => {
            add_names(alloc, positives, names)?;
            add_names(alloc, negatives, names)
        }
        WrittenElement::NoBack(patterns) => add_names(alloc, patterns, names),
    }
}

fn add_rule_names(alloc: Global, rule: &WrittenRule, names: &mut Names) -> Result<(), Memory>
    ensures { OnOk result (names.new ≡ gathered names.old (rule_names rule.now)) }
{
    names.add(alloc, rule.head.name.as_bytes())?;
    for element in rule.body.as_slice() {
        add_element_names(alloc, element, names)?;
    }
    Ok(())
}

fn add_item_names(alloc: Global, item: &WrittenItem, names: &mut Names) -> Result<(), Memory>
    ensures { OnOk result (names.new ≡ gathered names.old (flat_map rule_names (item_rules item.now))) }
{
    match item {
        WrittenItem::Feature(_, _) => Ok(()),
        WrittenItem::Rule(rule) => add_rule_names(alloc, rule, names),
    }
}

/// The names of the categories of the rules, but for preterminals; `text` is the first.
pub fn categories_of(alloc: Global, items: &WrittenItems) -> Result<Names, Memory>
    ensures { IfOk result (λ names. names ≡ gathered (codes "text" ∷ []) (flat_map rule_names (rules_of items.now))) }
{
    let mut names = Names::new(alloc);
    names.add(alloc, b"text")?;
    for item in items.as_slice() {
        add_item_names(alloc, item, &mut names)?;
    }
    Ok(names)
}
