// The first fault of a grammar.
ghost use Rattle.std.specs.Prelude.{◌≡◌, ◌<◌, ◌≤◌, ◌+◌, length, IfOk, IsTrue};
ghost use Rattle.std.specs.Option.{IfSome, IfNone};
ghost use Rattle.codeco_checked.specs.declared.fault.GrammarFault.{GrammarFault};
ghost use Rattle.codeco_checked.specs.declared.fault.GrammarFault.TheVariants as fault;
ghost use Rattle.codeco_checked.specs.Sound.{Holds, IsWritten};
ghost use Rattle.codeco_checked.specs.FirstFault.{IsFirst, is_before};
ghost use Rattle.codeco_checked.specs.Faults as faults;
ghost use Rattle.codeco_late_faults.specs.First.{FindsFirst};
ghost use Rattle.codeco_late_faults.specs.Tables.{CountsAtoms};
ghost use Rattle.codeco_late_faults.specs.Steps.{Reaches, leads};
ghost use Rattle.codeco_checked.specs.declared.numbers.TheConstants.{NUMBERS};

use crate::bad_rules::first_bad_rule;
use crate::bodies::{has_start, is_empty_rule};
use crate::recursion::{Followers, followers_of, is_recursive};
use crate::references::is_taking_rule;
use codeco_checked::GrammarFault;
use codeco_labels::first_misfit;
use codeco_terms::{Grammar, Rule};
use std::alloc::Global;
use wiki_base::Memory;

// The number of the rule at a place.
fn number_at(place: usize) -> u32
    requires { place < 500 }
    ensures { result ≡ place + 1 }
{
    place as u32 + 1
}

// The place of the first rule without a phrase.
fn first_empty_rule(rules: &[Rule]) -> Option<usize>
    ensures { FindsFirst (λ r. IsTrue (faults.is_empty_rule r)) rules.now result }
{
    rules.iter().position(|rule| is_empty_rule(rule))
}

// The place of the first rule with a variable that is marked and plain in one reference.
fn first_taking_rule(rules: &[Rule]) -> Option<usize>
    ensures { FindsFirst (λ r. IsTrue (faults.is_taking_rule r)) rules.now result }
{
    rules.iter().position(|rule| is_taking_rule(rule))
}

// The place of the first rule whose head reaches itself.
fn first_recursive_rule(
    alloc: Global,
    rules: &[Rule],
    table: &[Followers],
) -> Result<Option<usize>, Memory>
    requires { length table.now ≡ NUMBERS }
    ensures { IfOk result (λ found. FindsFirst (λ r. Reaches (leads table.now) r.head.name r.head.name) rules.now found) }
{
    for (place, rule) in rules.iter().enumerate() {
        if is_recursive(alloc, table, rule.head.name)? {
            return Ok(Some(place));
        }
    }
    Ok(None)
}

// The place of the first rule of the grammar whose head reaches itself.
fn first_recursion(alloc: Global, grammar: &Grammar) -> Result<Option<usize>, Memory>
    ensures { IfOk result (λ found. FindsFirst (λ r. faults.IsRecursive grammar.now r.head.name) grammar.now.rules found) }
{
    let rules = grammar.rules().as_slice();
    let table = followers_of(alloc, rules)?;
    first_recursive_rule(alloc, rules, table.as_slice())
}

/// The first fault of a numbered grammar in which no limit is passed and each feature is declared once: of bad values,
/// empty rules, left recursion, taken variables, labels that don't fit and a missing start. `None` where none holds.
pub fn first_fault(alloc: Global, grammar: &Grammar) -> Result<Option<GrammarFault>, Memory>
    requires written { IsWritten grammar.now }
    requires atoms { CountsAtoms grammar.now }
    requires early { (f : GrammarFault) → IsTrue (is_before f (fault.BadValue 1)) → Holds grammar.now f → ⊥ }
    ensures first { IfOk result (λ found. IfSome found (λ fault. IsFirst grammar.now fault)) }
    ensures none { IfOk result (λ found. IfNone found ((f : GrammarFault) → Holds grammar.now f → ⊥)) }
{
    if let Some(place) = first_bad_rule(alloc, grammar)? {
        return Ok(Some(GrammarFault::BadValue(number_at(place))));
    }
    let rules = grammar.rules().as_slice();
    if let Some(place) = first_empty_rule(rules) {
        return Ok(Some(GrammarFault::EmptyRule(number_at(place))));
    }
    if let Some(place) = first_recursion(alloc, grammar)? {
        return Ok(Some(GrammarFault::LeftRecursion(number_at(place))));
    }
    if let Some(place) = first_taking_rule(rules) {
        return Ok(Some(GrammarFault::TakenVariable(number_at(place))));
    }
    if let Some(place) = first_misfit(alloc, rules)? {
        return Ok(Some(GrammarFault::LabelKind(number_at(place))));
    }
    if !has_start(rules) {
        return Ok(Some(GrammarFault::NoStart));
    }
    Ok(None)
}
