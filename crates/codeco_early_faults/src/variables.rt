// The variables of a rule.
ghost use Rattle.std.specs.Prelude.{◌≡◌, [], flat_map, IfOk, OnOk, ◌++◌};
ghost use Rattle.codeco_numbering.specs.Numbered.{gathered, term_names};
ghost use Rattle.codeco_early_faults.specs.Early.{category_variables, element_variables, written_variables};

use crate::names::NameSet;
use codeco_text::{WrittenCategories, WrittenCategory, WrittenElement, WrittenRule, WrittenTerm};
use std::alloc::Global;
use wiki_base::Memory;

fn put_term<'a>(names: &mut NameSet<'a>, term: &'a WrittenTerm) -> Result<(), Memory>
    ensures { OnOk result (names.new ≡ gathered names.old (term_names term.now)) }
{
    if let WrittenTerm::Variable(name) | WrittenTerm::Taken(name) = term {
        names.put(name.as_bytes())?;
    }
    Ok(())
}

fn put_category<'a>(names: &mut NameSet<'a>, category: &'a WrittenCategory) -> Result<(), Memory>
    ensures { OnOk result (names.new ≡ gathered names.old (category_variables category.now)) }
{
    for feat in category.feats.as_slice() {
        put_term(names, &feat.term)?;
    }
    Ok(())
}

fn put_categories<'a>(
    names: &mut NameSet<'a>,
    categories: &'a WrittenCategories,
) -> Result<(), Memory>
    ensures { OnOk result (names.new ≡ gathered names.old (flat_map category_variables categories.now)) }
{
    for category in categories.as_slice() {
        put_category(names, category)?;
    }
    Ok(())
}

fn put_reference<'a>(
    names: &mut NameSet<'a>,
    positive: &'a WrittenCategories,
    negative: &'a WrittenCategories,
) -> Result<(), Memory>
    ensures { OnOk result (names.new ≡ gathered names.old (flat_map category_variables (positive.now ++ negative.now))) }
{
    put_categories(names, positive)?;
    put_categories(names, negative)?;
    Ok(())
}

fn put_element<'a>(names: &mut NameSet<'a>, element: &'a WrittenElement) -> Result<(), Memory>
    ensures { OnOk result (names.new ≡ gathered names.old (element_variables element.now)) }
{
    match element {
        WrittenElement::Terminal(_) | WrittenElement::Opener => Ok(()),
        WrittenElement::Position(name) => {
            names.put(name.as_bytes())?;
            Ok(())
        }
        WrittenElement::Preterminal(category)
        | WrittenElement::Sub(category)
        | WrittenElement::Forward(category)
        | WrittenElement::Strong(category) => put_category(names, category),
        WrittenElement::Back(positive, negative) => put_reference(names, positive, negative),
        WrittenElement::NoBack(positive) => put_categories(names, positive),
    }
}

/// The variables that a rule writes, each once.
pub(crate) fn variable_names(alloc: Global, rule: &WrittenRule) -> Result<NameSet<'_>, Memory>
    ensures { IfOk result (λ names. names ≡ gathered [] (written_variables rule.now)) }
{
    let mut names = NameSet::new(alloc);
    put_category(&mut names, &rule.head)?;
    for element in rule.body.as_slice() {
        put_element(&mut names, element)?;
    }
    Ok(names)
}
