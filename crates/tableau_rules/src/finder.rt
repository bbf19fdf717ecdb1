// The first applicable step.
ghost use Rattle.std.specs.Prelude.{◌≡◌, length, IsTrue};
ghost use Rattle.logic_terms.specs.Known.{theory_of};
ghost use Rattle.tableau_rules.specs.Shown.{graph_of};
ghost use Rattle.tableau_rules.specs.Rules.{applies, site_at, first_at, first_by, first_step};

use crate::branch::Branch;
use crate::rows::site;
use crate::step::{Rule, Step};
use logic_terms::Knowledge;

/// The first step that applies at the branch: by rule, then by node, then by place in the label; none where none
/// applies. It takes no memory.
pub fn applicable(k: &Knowledge, b: &Branch) -> Option<Step>
    ensures { result ≡ first_step (theory_of k.now) (graph_of b.now) }
{
    if let Some(step) = first_by(k, b, Rule::And) {
        return Some(step);
    }
    if let Some(step) = first_by(k, b, Rule::Unfold) {
        return Some(step);
    }
    if let Some(step) = first_by(k, b, Rule::All) {
        return Some(step);
    }
    if let Some(step) = first_by(k, b, Rule::Trans) {
        return Some(step);
    }
    if let Some(step) = first_by(k, b, Rule::Value) {
        return Some(step);
    }
    if let Some(step) = first_by(k, b, Rule::Unit) {
        return Some(step);
    }
    if let Some(step) = first_by(k, b, Rule::Or) {
        return Some(step);
    }
    first_by(k, b, Rule::Some)
}

/// Whether a step applies at the branch. It takes no memory.
pub fn applies(k: &Knowledge, b: &Branch, step: &Step) -> bool
    ensures { result ≡ applies (theory_of k.now) (graph_of b.now) step.now }
{
    match site_at(k, b, step.rule, step.node, step.class) {
        Some(other) => other == step.other,
        None => false,
    }
}

// The first step by a rule.
fn first_by(k: &Knowledge, b: &Branch, rule: Rule) -> Option<Step>
    ensures { result ≡ first_by (theory_of k.now) (graph_of b.now) rule }
{
    for node in 0..b.len() {
        if let Some(step) = first_at(k, b, rule, node) {
            return Some(step);
        }
    }
    None
}

/// The first step by a rule at a node: that of the first place in its label. It takes no memory.
pub fn first_at(k: &Knowledge, b: &Branch, rule: Rule, node: u64) -> Option<Step>
    ensures { result ≡ first_at (theory_of k.now) (graph_of b.now) rule node }
{
    for class in 0..b.label_len(node) {
        if let Some(other) = site_at(k, b, rule, node, class) {
            return Some(Step {
                rule,
                node,
                class,
                other,
            });
        }
    }
    None
}

// Where a rule applies for the class at a place of a node's label.
fn site_at(k: &Knowledge, b: &Branch, rule: Rule, node: u64, place: u64) -> Option<u64>
    ensures { result ≡ site_at (theory_of k.now) (graph_of b.now) rule node place }
{
    match b.class(node, place) {
        Some(class) => site(k, b, rule, node, class),
        None => None,
    }
}
