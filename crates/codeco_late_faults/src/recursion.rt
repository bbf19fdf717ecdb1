// Left recursion: steps from the head of a rule to the category that stands first in it.
ghost use Rattle.std.specs.Prelude.{◌≡◌, ◌==◌, ◌++◌, ◌↔◌, ℕ, [], ◌∷◌, length, slice_set, slice_index_or, IfOk, OnOk, IsTrue};
ghost use Rattle.codeco_checked.specs.Numbering.{has};
ghost use Rattle.codeco_late_faults.specs.Steps as steps;
ghost use Rattle.codeco_checked.specs.declared.numbers.TheConstants.{NUMBERS};

use crate::bodies::first_category;
use codeco_checked::NUMBERS;
use codeco_terms::Rule;
use std::alloc::Global;
use wiki_base::{List, Memory};

// The categories that stand first in the rules of one category.
pub(crate) type Followers = List<u16>;

// The followers of each category, by its number.
#[tactic(auto, using(crate::proofs::StepLemmas::first_none, crate::proofs::StepLemmas::first_all, crate::proofs::StepLemmas::first_skip, crate::proofs::StepLemmas::first_more))]
pub(crate) fn followers_of(alloc: Global, rules: &[Rule]) -> Result<Vec<Followers>, Memory>
    ensures room { IfOk result (λ table. length table.items ≡ NUMBERS) }
    ensures followers { IfOk result (λ table. steps.HasFollowers rules.now table.items) }
{
    let mut table = no_followers(alloc)?;
    for rule in rules {
        if let Some(category) = first_category(rule.body.as_slice()) {
            add(&mut table, rule.head.name, category)?;
        }
    }
    Ok(table)
}

#[tactic(auto, using(crate::proofs::SearchLemmas::none_pushed))]
fn no_followers(alloc: Global) -> Result<Vec<Followers>, Memory>
    ensures room { IfOk result (λ table. length table.items ≡ NUMBERS) }
    ensures none { IfOk result (λ table. (name : ℕ) → slice_index_or table.items name [] ≡ []) }
{
    let mut table = Vec::new(alloc);
    for _ in 0..NUMBERS {
        table.push(Followers::new(alloc))?;
    }
    Ok(table)
}

fn add(table: &mut Vec<Followers>, head: u16, category: u16) -> Result<(), Memory>
    requires { length table.old.items ≡ NUMBERS }
    ensures { OnOk result (table.new.items ≡ slice_set table.old.items head (slice_index_or table.old.items head [] ++ category ∷ [])) }
{
    table[head as usize].push(category)
}

// Whether steps lead from the category back to it.
pub(crate) fn is_recursive(
    alloc: Global,
    table: &[Followers],
    category: u16,
) -> Result<bool, Memory>
    requires { length table.now ≡ NUMBERS }
    ensures { IfOk result (λ answer. IsTrue answer ↔ steps.Reaches (steps.leads table.now) category category) }
{
    let reached = reached_from(alloc, table, category)?;
    Ok(reached[category as usize])
}

// The categories to which steps lead from this one.
fn reached_from(alloc: Global, table: &[Followers], from: u16) -> Result<Vec<bool>, Memory>
    requires { length table.now ≡ NUMBERS }
    ensures room { IfOk result (λ reached. length reached.items ≡ NUMBERS) }
    ensures reached { IfOk result (λ reached. (c : ℕ) → steps.IsIn reached.items c ↔ steps.Reaches (steps.leads table.now) from c) }
{
    let mut reached = vec![in alloc; false; NUMBERS]?;
    let mut waiting = Vec::new(alloc);
    follow(&table[from as usize], &mut reached, &mut waiting)?;
    while let Some(next) = waiting.pop() {
        follow(&table[next as usize], &mut reached, &mut waiting)?;
    }
    Ok(reached)
}

// Reaches the followers, and lists those that weren't reached before.
fn follow(
    followers: &Followers,
    reached: &mut Vec<bool>,
    waiting: &mut Vec<u16>,
) -> Result<(), Memory>
    requires { length reached.old.items ≡ NUMBERS }
    ensures { OnOk result (steps.IsFollowed (has followers.now) reached.old.items reached.new.items waiting.old.items waiting.new.items) }
{
    for category in followers.as_slice() {
        reach(*category, reached, waiting)?;
    }
    Ok(())
}

// Reaches this one, and lists it where it wasn't reached before.
fn reach(to: u16, reached: &mut Vec<bool>, waiting: &mut Vec<u16>) -> Result<(), Memory>
    requires { length reached.old.items ≡ NUMBERS }
    ensures { OnOk result (steps.IsFollowed (λ c. c == to) reached.old.items reached.new.items waiting.old.items waiting.new.items) }
{
    if !reached[to as usize] {
        waiting.push(to)?;
        reached[to as usize] = true;
    }
    Ok(())
}
