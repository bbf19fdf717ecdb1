// The variables of a rule, by first occurrence.
ghost use Rattle.std.specs.Prelude.{◌≡◌, ◌<◌, length, flat_map, IfOk, OnOk};
ghost use Rattle.codeco_numbering.specs.Numbered.{gathered, term_names, category_names, element_names, variable_names};
ghost use Rattle.codeco_checked.specs.declared.numbers.TheConstants.{NUMBERS};

use crate::categories::ordered;
use crate::names::Names;
use codeco_text::{WrittenCategories, WrittenCategory, WrittenElement, WrittenRule, WrittenTerm};
use std::alloc::Global;
use wiki_base::Memory;

fn add_term(alloc: Global, term: &WrittenTerm, names: &mut Names) -> Result<(), Memory>
    ensures { OnOk result (names.new ≡ gathered names.old (term_names term.now)) }
{
    match term {
        WrittenTerm::Atom(_) => Ok(()),
        WrittenTerm::Variable(name) => names.add(alloc, name.as_bytes()),
        WrittenTerm::Taken(name) => names.add(alloc, name.as_bytes()),
    }
}

fn add_terms(alloc: Global, list: &[(u16, &WrittenTerm)], names: &mut Names) -> Result<(), Memory>
    ensures { OnOk result (names.new ≡ gathered names.old (flat_map (λ f. term_names f.1.now) list.now)) }
{
    for (_, term) in list {
        add_term(alloc, term, names)?;
    }
    Ok(())
}

fn add_category(
    alloc: Global,
    features: &Names,
    category: &WrittenCategory,
    names: &mut Names,
) -> Result<(), Memory>
    requires { length features.now < NUMBERS }
    ensures { OnOk result (names.new ≡ gathered names.old (category_names features.now category.now)) }
{
    let list = ordered(alloc, features, category)?;
    add_terms(alloc, list.as_slice(), names)
}

fn add_categories(
    alloc: Global,
    features: &Names,
    categories: &WrittenCategories,
    names: &mut Names,
) -> Result<(), Memory>
    requires { length features.now < NUMBERS }
    ensures { OnOk result (names.new ≡ gathered names.old (flat_map (category_names features.now) categories.now)) }
{
    for category in categories.as_slice() {
        add_category(alloc, features, category, names)?;
    }
    Ok(())
}

fn add_element(
    alloc: Global,
    features: &Names,
    element: &WrittenElement,
    names: &mut Names,
) -> Result<(), Memory>
    requires { length features.now < NUMBERS }
    ensures { OnOk result (names.new ≡ gathered names.old (element_names features.now element.now)) }
{
    match element {
        WrittenElement::Terminal(_) => Ok(()),
        WrittenElement::Preterminal(category) => { add_category(alloc, features, category, names) }
        WrittenElement::Sub(category) => add_category(alloc, features, category, names),
        WrittenElement::Position(name) => names.add(alloc, name.as_bytes()),
        WrittenElement::Opener => Ok(()),
        WrittenElement::Forward(category) => add_category(alloc, features, category, names),
        WrittenElement::Strong(category) => add_category(alloc, features, category, names),
        WrittenElement::Back(positives, negatives) => {
            add_categories(alloc, features, positives, names)?;
            add_categories(alloc, features, negatives, names)
        }
        WrittenElement::NoBack(patterns) => add_categories(alloc, features, patterns, names),
    }
}

/// The variables of a rule, the head's first.
pub fn variable_names(alloc: Global, features: &Names, rule: &WrittenRule) -> Result<Names, Memory>
    requires { length features.now < NUMBERS }
    ensures { IfOk result (λ names. names ≡ variable_names features.now rule.now) }
{
    let mut names = Names::new(alloc);
    add_category(alloc, features, &rule.head, &mut names)?;
    for element in rule.body.as_slice() {
        add_element(alloc, features, element, &mut names)?;
    }
    Ok(names)
}
