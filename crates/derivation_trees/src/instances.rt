// What variables, terms, categories and patterns stand for under an instance of a rule.
ghost use Rattle.std.specs.Prelude.{◌≡◌, IfOk};
ghost use Rattle.derivation_trees.specs.Instances as instances;

use codeco_terms::{Category, Pattern, Term, Value};
use scopes::{Test, TestList, TestValues};
use std::alloc::Global;
use wiki_base::Memory;

/// What the variable stands for.
pub fn value_under(values: &[(u8, Value)], variable: u8) -> Value
    ensures { result ≡ instances.value_under values.now variable }
{
    for (other, value) in values {
        if *other == variable {
            return *value;
        }
    }
    Value::Atom(0)
}

/// What the term stands for.
pub fn term_value(values: &[(u8, Value)], term: Term) -> Value
    ensures { result ≡ instances.term_value values.now term }
{
    match term {
        Term::Val(value) => value,
        Term::Var(variable) => value_under(values, variable),
    }
}

/// The category under the instance.
pub fn under(alloc: Global, values: &[(u8, Value)], category: &Category) -> Result<Test, Memory>
    ensures { IfOk result (λ test. test ≡ instances.under values.now category.now) }
{
    Ok(Test {
        name: category.name,
        values: feats_under(alloc, values, category.feats.as_slice())?,
    })
}

// The features with what their terms stand for.
fn feats_under(
    alloc: Global,
    values: &[(u8, Value)],
    feats: &[(u16, Term)],
) -> Result<TestValues, Memory>
    ensures { IfOk result (λ found. found ≡ instances.feats_under values.now feats.now) }
{
    let mut found = TestValues::new(alloc);
    for (feature, term) in feats {
        found.push((*feature, term_value(values, *term)))?;
    }
    Ok(found)
}

/// The tests of the patterns under the instance.
pub fn tests_under(
    alloc: Global,
    values: &[(u8, Value)],
    patterns: &[Pattern],
) -> Result<TestList, Memory>
    ensures { IfOk result (λ tests. tests ≡ instances.tests_under values.now patterns.now) }
{
    let mut tests = TestList::new(alloc);
    for pattern in patterns {
        tests.push(under(alloc, values, &pattern.cat)?)?;
    }
    Ok(tests)
}
