// The features that a rule writes, in one list.
ghost use Rattle.std.specs.Prelude.{◌≡◌, ◌++◌, map, IfOk, OnOk};
ghost use Rattle.std.specs.List.{flat_map};
ghost use Rattle.codeco_terms.specs.declared.values.Term.TheVariants as term;
ghost use Rattle.codeco_late_faults.specs.Writing as writing;

use codeco_terms::{Element, Pattern, Rule, Term};
use std::alloc::Global;
use wiki_base::Memory;

// The features of the rule, in a list.
pub(crate) fn rule_feats(alloc: Global, rule: &Rule) -> Result<Vec<(u16, Term)>, Memory>
    ensures { IfOk result (λ feats. feats.items ≡ writing.rule_feats rule.now) }
{
    let mut feats = Vec::from_slice(alloc, rule.head.feats.as_slice())?;
    push_body(rule.body.as_slice(), &mut feats)?;
    Ok(feats)
}

fn push_body(body: &[Element], feats: &mut Vec<(u16, Term)>) -> Result<(), Memory>
    ensures { OnOk result (feats.new.items ≡ feats.old.items ++ flat_map writing.element_feats body.now) }
{
    for element in body {
        push_element(element, feats)?;
    }
    Ok(())
}

fn push_element(element: &Element, feats: &mut Vec<(u16, Term)>) -> Result<(), Memory>
    ensures { OnOk result (feats.new.items ≡ feats.old.items ++ writing.element_feats element.now) }
{
    match element {
        Element::Preterminal(category)
        | Element::Sub(category)
        | Element::Forward(category)
        | Element::Strong(category) => push_feats(category.feats.as_slice(), feats),
        Element::Back(positive, negative) => {
            push_patterns(positive.as_slice(), feats)?;
            push_patterns(negative.as_slice(), feats)
        }
        Element::NoBack(patterns) => push_patterns(patterns.as_slice(), feats),
        Element::Terminal(_) | Element::Position(_) | Element::Opener => Ok(()),
    }
}

fn push_feats(written: &[(u16, Term)], feats: &mut Vec<(u16, Term)>) -> Result<(), Memory>
    ensures { OnOk result (feats.new.items ≡ feats.old.items ++ written.now) }
{
    feats.extend_from_slice(written)?;
    Ok(())
}

fn push_patterns(patterns: &[Pattern], feats: &mut Vec<(u16, Term)>) -> Result<(), Memory>
    ensures { OnOk result (feats.new.items ≡ feats.old.items ++ flat_map writing.pattern_feats patterns.now) }
{
    for pattern in patterns {
        push_pattern(pattern, feats)?;
    }
    Ok(())
}

fn push_pattern(pattern: &Pattern, feats: &mut Vec<(u16, Term)>) -> Result<(), Memory>
    ensures { OnOk result (feats.new.items ≡ feats.old.items ++ writing.pattern_feats pattern.now) }
{
    push_feats(pattern.cat.feats.as_slice(), feats)?;
    push_taken(pattern.taken.as_slice(), feats)
}

fn push_taken(taken: &[(u16, u8)], feats: &mut Vec<(u16, Term)>) -> Result<(), Memory>
    ensures { OnOk result (feats.new.items ≡ feats.old.items ++ map (λ t. (t.0, term.Var t.1)) taken.now) }
{
    for (feature, variable) in taken {
        feats.push((*feature, Term::Var(*variable)))?;
    }
    Ok(())
}
