// The first rule whose label doesn't fit.
ghost use Rattle.std.specs.Prelude.{◌≡◌, ◌<◌, ◌≤◌, ℕ, Bool, true, length, not, IsTrue, IfOk};
ghost use Rattle.std.specs.List.{list_all};
ghost use Rattle.codeco_checked.specs.declared.labels.Kind.{Kind};
ghost use Rattle.codeco_checked.specs.declared.labels.Kind.TheVariants as kind;
ghost use Rattle.codeco_checked.specs.Labels as labels;
ghost use Rattle.codeco_labels.specs.Misfits as misfits;
ghost use Rattle.codeco_labels.specs.Shapes as shapes;
ghost use Rattle.codeco_labels.specs.Tables as tables;

use crate::allowed::Allowed;
use crate::kind_table::KindTable;
use crate::shapes::{Shape, above_rules};
use codeco_checked::{FIRST_PLAIN, Heads, Kind, label_row};
use codeco_terms::{Label, Rule};
use std::alloc::Global;
use wiki_base::Memory;

// Whether the label is `mark`.
fn makes_mark(label: Label) -> bool
    ensures { result ≡ labels.makes_mark (labels.label_row label).heads }
{
    match label_row(label).heads {
        Heads::Only(kind) => matches!(kind, Kind::Mark),
        Heads::Clauses | Heads::Meanings => false,
    }
}

fn is_mark_rule(rule: &Rule) -> bool
    ensures { result ≡ labels.is_mark_rule rule.now }
{
    match rule.label {
        Some(label) => makes_mark(label),
        None => false,
    }
}

// Which of the categories below the size are marks.
fn marks_of(alloc: Global, rules: &[Rule], size: usize) -> Result<Vec<bool>, Memory>
    requires { IsTrue (list_all (shapes.names_below size) rules.now) }
    ensures size { IfOk result (λ marks. length marks.items ≡ size) }
    ensures marks { IfOk result (λ marks. misfits.AreMarks rules.now marks.items) }
{
    let mut marks = vec![in alloc; false; size]?;
    for rule in rules {
        if is_mark_rule(rule) {
            marks[rule.head.name as usize] = true;
        }
    }
    Ok(marks)
}

// Whether the rule has a label and the first has none, or the other way round.
fn differs(rules: &[Rule], rule: &Rule) -> bool
    ensures { result ≡ labels.differs_from_first rules.now rule.now }
{
    match rules.first() {
        None => false,
        Some(first) => {
            if first.label.is_some() {
                rule.label.is_none()
            } else {
                rule.label.is_some()
            }
        }
    }
}

// The rule fits its label; whether that may be.
fn fit_rule(table: &mut KindTable, marks: &[bool], rule: &Rule) -> bool
    requires whole { tables.IsWhole table.old }
    requires below { IsTrue (shapes.names_below (length table.old.groups) rule.now) }
    ensures { tables.Narrows table.old table.new result (misfits.rule_holds marks.now rule.now) }
{
    match rule.label {
        Some(label) => {
            let shape = Shape::of(marks, rule.body.as_slice());
            table.fit(&label_row(label), rule.head.name, &shape)
        }
        None => true,
    }
}

// The first rule that can't fit, where the table is that of no rules.
fn first_unfit(table: &mut KindTable, marks: &[bool], rules: &[Rule]) -> Option<usize>
    requires whole { tables.IsWhole table.old }
    requires alive { tables.IsAlive table.old }
    requires below { IsTrue (list_all (shapes.names_below (length table.old.groups)) rules.now) }
    requires known { misfits.Knows rules.now marks.now table.old }
    ensures { misfits.FirstMisfit rules.now result }
{
    for (place, rule) in rules.iter().enumerate() {
        if differs(rules, rule) {
            return Some(place);
        }
        if !fit_rule(table, marks, rule) {
            return Some(place);
        }
    }
    None
}

/// The place, from 0, of the first rule whose label doesn't fit: it has a label and rule 1 has none, or the other way
/// round, or no kinds of the categories fit it and the rules before it. `None` where there is no such rule.
pub fn first_misfit(alloc: Global, rules: &[Rule]) -> Result<Option<usize>, Memory>
    ensures { IfOk result (λ found. misfits.FirstMisfit rules.now found) }
{
    let size = above_rules(rules);
    let marks = marks_of(alloc, rules, size)?;
    let mut table = KindTable::new(alloc, &marks)?;
    if !table.restrict(FIRST_PLAIN, Allowed::Only(Kind::Text)) {
        return Ok(first_place(rules));
    }
    Ok(first_unfit(&mut table, &marks, rules))
}

// The first place, if there is any.
fn first_place(rules: &[Rule]) -> Option<usize>
    ensures { result ≡ misfits.first_place rules.now }
{
    if rules.is_empty() { None } else { Some(0) }
}
