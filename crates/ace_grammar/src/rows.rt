// Rows: the parts of a grammar as plain data that tables hold, and what is made of them.
ghost use Rattle.std.specs.Prelude.{◌≡◌, ◌++◌, map, IfOk, OnOk};
ghost use Rattle.ace_grammar.specs.Rows.{pattern_of, element_of, rule_of};

use codeco_terms::{
    Category, Element, Elements, Feats, Label, Pattern, Patterns, Rule, Rules, Takes, Term,
};
use std::alloc::Global;
use wiki_base::Memory;

/// A pattern: the number of its category, the features that are tested and those that are marked.
pub struct PatternRow(
    pub u16,
    pub &'static [(u16, Term)],
    pub &'static [(u16, u8)],
);

/// An element, with categories as their numbers and features.
pub enum ElementRow {
    Token(u16),
    Word(u16, &'static [(u16, Term)]),
    Phrase(u16, &'static [(u16, Term)]),
    Here(u8),
    Opener,
    Weak(u16, &'static [(u16, Term)]),
    Strong(u16, &'static [(u16, Term)]),
    Back(&'static [PatternRow], &'static [PatternRow]),
    NoBack(&'static [PatternRow]),
}

/// A rule: its label, the head as the number of its category and its features, whether the rule closes its scope,
/// and the body.
pub struct RuleRow {
    pub label: Label,
    pub head: u16,
    pub feats: &'static [(u16, Term)],
    pub closing: bool,
    pub body: &'static [ElementRow],
}

/// The values that a feature is declared with.
pub enum DeclaredRow {
    Words,
    Positions,
    Atoms(&'static [u16]),
}

/// A feature: its name and its values.
pub struct FeatureRow(pub &'static [u8], pub DeclaredRow);

fn category(alloc: Global, name: u16, feats: &[(u16, Term)]) -> Result<Category, Memory>
    ensures { IfOk result (λ made. made ≡ record { name = name; feats = feats.now }) }
{
    Ok(Category {
        name,
        feats: Feats::from_vec(Vec::from_slice(alloc, feats)?),
    })
}

fn pattern(alloc: Global, row: &PatternRow) -> Result<Pattern, Memory>
    ensures { IfOk result (λ made. made ≡ pattern_of row.now) }
{
    Ok(Pattern {
        cat: category(alloc, row.0, row.1)?,
        taken: Takes::from_vec(Vec::from_slice(alloc, row.2)?),
    })
}

fn patterns(alloc: Global, rows: &[PatternRow]) -> Result<Patterns, Memory>
    ensures { IfOk result (λ made. made ≡ map pattern_of rows.now) }
{
    let mut made = Patterns::new(alloc);
    for row in rows {
        made.push(pattern(alloc, row)?)?;
    }
    Ok(made)
}

fn element(alloc: Global, row: &ElementRow) -> Result<Element, Memory>
    ensures { IfOk result (λ made. made ≡ element_of row.now) }
{
    match row {
        ElementRow::Token(terminal) => Ok(Element::Terminal(*terminal)),
        ElementRow::Word(kind, feats) => Ok(Element::Preterminal(category(alloc, *kind, feats)?)),
        ElementRow::Phrase(name, feats) => Ok(Element::Sub(category(alloc, *name, feats)?)),
        ElementRow::Here(variable) => Ok(Element::Position(*variable)),
        ElementRow::Opener => Ok(Element::Opener),
        ElementRow::Weak(name, feats) => Ok(Element::Forward(category(alloc, *name, feats)?)),
        ElementRow::Strong(name, feats) => Ok(Element::Strong(category(alloc, *name, feats)?)),
        ElementRow::Back(positive, negative) => Ok(Element::Back(
            patterns(alloc, positive)?,
            patterns(alloc, negative)?,
        )),
        ElementRow::NoBack(positive) => Ok(Element::NoBack(patterns(alloc, positive)?)),
    }
}

fn elements(alloc: Global, rows: &[ElementRow]) -> Result<Elements, Memory>
    ensures { IfOk result (λ made. made ≡ map element_of rows.now) }
{
    let mut made = Elements::new(alloc);
    for row in rows {
        made.push(element(alloc, row)?)?;
    }
    Ok(made)
}

fn rule(alloc: Global, row: &RuleRow) -> Result<Rule, Memory>
    ensures { IfOk result (λ made. made ≡ rule_of row.now) }
{
    Ok(Rule {
        label: Some(row.label),
        head: category(alloc, row.head, row.feats)?,
        closing: row.closing,
        body: elements(alloc, row.body)?,
    })
}

/// Adds the rules of a table's rows, in order.
pub fn add_rules(alloc: Global, rules: &mut Rules, rows: &[RuleRow]) -> Result<(), Memory>
    ensures { OnOk result (rules.new ≡ rules.old ++ map rule_of rows.now) }
{
    for row in rows {
        rules.push(rule(alloc, row)?)?;
    }
    Ok(())
}
