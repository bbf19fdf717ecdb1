// Rules in numbers.
ghost use Rattle.std.specs.Prelude.{◌≡◌, ◌++◌, map, All, IfOk, OnOk};
ghost use Rattle.codeco_numbering.specs.Numbered.{numbered_pattern, numbered_element, numbered_rule, item_rules, rules_of};
ghost use Rattle.codeco_numbering.specs.Fitting.{HasRoom, rule_tables};

use crate::labels::label_of;
use crate::tables::{GrammarTables, Tables};
use crate::variables::variable_names;
use codeco_terms::{Element, Elements, Patterns, Rule, Rules};
use codeco_text::{
    WrittenCategories, WrittenElement, WrittenElements, WrittenItem, WrittenItems, WrittenRule,
};
use std::alloc::Global;
use wiki_base::Memory;

impl<'a> Tables<'a> {
    fn patterns(&self, alloc: Global, categories: &WrittenCategories) -> Result<Patterns, Memory>
        ensures { IfOk result (λ patterns. patterns ≡ map (numbered_pattern self.now) categories.now) }
    {
        let mut patterns = Patterns::new(alloc);
        for category in categories.as_slice() {
            patterns.push(self.pattern(alloc, category)?)?;
        }
        Ok(patterns)
    }

    /// An element in numbers.
    fn element(&self, alloc: Global, element: &WrittenElement) -> Result<Element, Memory>
        ensures { IfOk result (λ numbered. numbered ≡ numbered_element self.now element.now) }
    {
        match element {
            WrittenElement::Terminal(name) => Ok(Element::Terminal(self.terminal(name))),
            WrittenElement::Preterminal(category) => {
                Ok(Element::Preterminal(self.preterminal(alloc, category)?))
            }
            WrittenElement::Sub(category) => Ok(Element::Sub(self.category(alloc, category)?)),
            WrittenElement::Position(name) => Ok(Element::Position(self.variable(name))),
            WrittenElement::Opener => Ok(Element::Opener),
            WrittenElement::Forward(category) => {
                Ok(Element::Forward(self.category(alloc, category)?))
            }
            WrittenElement::Strong(category) => {
                Ok(Element::Strong(self.category(alloc, category)?))
            }
            WrittenElement::Back(positives, negatives) => {
                let positives = self.patterns(alloc, positives)?;
                Ok(Element::Back(positives, self.patterns(alloc, negatives)?))
            }
            WrittenElement::NoBack(patterns) => {
                Ok(Element::NoBack(self.patterns(alloc, patterns)?))
            }
        }
    }

    fn elements(&self, alloc: Global, body: &WrittenElements) -> Result<Elements, Memory>
        ensures { IfOk result (λ elements. elements ≡ map (numbered_element self.now) body.now) }
    {
        let mut elements = Elements::new(alloc);
        for element in body.as_slice() {
            elements.push(self.element(alloc, element)?)?;
        }
        Ok(elements)
    }

    /// A rule in numbers, where its variables are those of the tables.
    pub fn rule(&self, alloc: Global, rule: &WrittenRule) -> Result<Rule, Memory>
        ensures { IfOk result (λ numbered. numbered ≡ numbered_rule self.now rule.now) }
    {
        Ok(Rule {
            label: label_of(&rule.label),
            head: self.category(alloc, &rule.head)?,
            closing: rule.closing,
            body: self.elements(alloc, &rule.body)?,
        })
    }
}

fn numbered_rule(alloc: Global, grammar: &GrammarTables, rule: &WrittenRule) -> Result<Rule, Memory>
    requires { HasRoom (rule_tables grammar.now rule.now) }
    ensures { IfOk result (λ numbered. numbered ≡ numbered_rule (rule_tables grammar.now rule.now) rule.now) }
{
    let variables = variable_names(alloc, &grammar.features, rule)?;
    let tables = Tables { grammar, variables };
    tables.rule(alloc, rule)
}

fn add_rule(
    alloc: Global,
    grammar: &GrammarTables,
    item: &WrittenItem,
    rules: &mut Rules,
) -> Result<(), Memory>
    requires { All (λ r. HasRoom (rule_tables grammar.now r)) (item_rules item.now) }
    ensures { OnOk result (rules.new ≡ rules.old ++ map (λ r. numbered_rule (rule_tables grammar.now r) r) (item_rules item.now)) }
{
    match item {
        WrittenItem::Feature(_, _) => Ok(()),
        WrittenItem::Rule(rule) => {
            let numbered = numbered_rule(alloc, grammar, rule)?;
            rules.push(numbered)
        }
    }
}

/// The rules of a text in numbers.
pub fn numbered_rules(
    alloc: Global,
    grammar: &GrammarTables,
    items: &WrittenItems,
) -> Result<Rules, Memory>
    requires { All (λ r. HasRoom (rule_tables grammar.now r)) (rules_of items.now) }
    ensures { IfOk result (λ rules. rules ≡ map (λ r. numbered_rule (rule_tables grammar.now r) r) (rules_of items.now)) }
{
    let mut rules = Rules::new(alloc);
    for item in items.as_slice() {
        add_rule(alloc, grammar, item, &mut rules)?;
    }
    Ok(rules)
}
