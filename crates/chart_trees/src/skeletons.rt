// The least skeleton of tokens.
ghost use Rattle.std.specs.Prelude.{◌≡◌, ◌≤◌, ◌+◌, ◌↔◌, ◌∷◌, [], ◌++◌, List, map, length, IsTrue, IfOk, IfSome, IfNone};
ghost use Rattle.derivation_trees.specs.Trees.{Node, node_of};
ghost use Rattle.derivation_trees.specs.Derives.{IsDerivation, text_category};
ghost use Rattle.derivation_trees.specs.Sentences.{IsSentence};
ghost use Rattle.derivation_trees.specs.Skeletons.{IsBelow, IsLeast, IsLeastSkeleton};
ghost use Rattle.derivation_trees.specs.Stands.{IsLimited};
ghost use Rattle.derivations.specs.Laws.{CodesTell, IsOnlyLeast};
ghost use Rattle.derivations.specs.Listed.{LeastOf, IsLesser};
ghost use Rattle.wiki_base.specs.declared.tokens.TheConstants.{MOST_TOKENS};
ghost use Rattle.chart_trees.specs.Outcomes as ends;

use crate::outcomes::Outcome;
use crate::scene::Scene;
use crate::table::{Tables, best_of};
use chart_table::{Rows, plans_of};
use codeco_checked::{CheckedGrammar, FIRST_PLAIN};
use derivation_trees::{Setting, Skeleton, readings_of, sketch_of};
use lexicon::Lexicon;
use lists::List;
use scopes::{Access, Test, TestValues};
use std::alloc::Global;
use std::cmp::Ordering;
use wiki_base::{Memory, Tokens};

/// How deep categories may be nested before memory is wanting: more than any grammar does.
const DEEPEST: u32 = u32::MAX;

// Whether the code of the one is below that of the other.
fn is_below(alloc: Global, one: &Skeleton, other: &Skeleton) -> Result<bool, Memory>
    ensures { IfOk result (λ yes. IsTrue yes ↔ IsBelow one.now other.now) }
{
    let code = one.code(alloc)?;
    let other = other.code(alloc)?;
    match code.as_slice().cmp(other.as_slice()) {
        Ordering::Less => Ok(true),
        _ => Ok(false),
    }
}

// The one whose code is lower.
fn lesser(alloc: Global, least: Option<Skeleton>, other: Skeleton) -> Result<Skeleton, Memory>
    ensures { IfOk result (IsLesser least other) }
{
    match least {
        None => Ok(other),
        Some(old) => {
            if is_below(alloc, &other, &old)? {
                Ok(other)
            } else {
                Ok(old)
            }
        }
    }
}

fn token_count(setting: &Setting<'_>) -> usize
    ensures { result ≡ length setting.now.tokens }
{
    setting.tokens.len()
}

// The least skeleton, with one more tree.
fn consider(
    alloc: Global,
    setting: &Setting<'_>,
    outcome: &Outcome,
    least: Option<Skeleton>,
) -> Result<Option<Skeleton>, Memory>
    requires { ends.IsOutcome setting.now text_category (record { place = 0; list = [] }) outcome.now }
    ensures { IfOk result (λ next. (trees : List Node) → LeastOf setting.now trees least
        → LeastOf setting.now (trees ++ node_of outcome.now.tree ∷ []) next) }
{
    if outcome.place as usize != token_count(setting) {
        return Ok(least);
    }
    let skeleton = sketch_of(alloc, setting, &outcome.tree, 0)?;
    let chosen = lesser(alloc, least, skeleton)?;
    Ok(Some(chosen))
}

// The least skeleton of the derivations among the trees.
fn least_among(
    alloc: Global,
    setting: &Setting<'_>,
    outcomes: &[Outcome],
) -> Result<Option<Skeleton>, Memory>
    requires { ends.IsBest setting.now text_category (record { place = 0; list = [] }) outcomes.now }
    ensures { IfOk result (LeastOf setting.now (map (λ o. node_of o.tree) outcomes.now)) }
{
    let mut least = None;
    for outcome in outcomes {
        least = consider(alloc, setting, outcome, least)?;
    }
    Ok(least)
}

// The category of sentences, without features.
fn text(alloc: Global) -> Test
    ensures { result ≡ text_category }
{
    Test {
        name: FIRST_PLAIN,
        values: TestValues::new(alloc),
    }
}

// The least skeleton of the setting's tokens.
fn least_in(alloc: Global, setting: &Setting<'_>) -> Result<Option<Skeleton>, Memory>
    requires { IsLimited setting.now.grammar }
    ensures least { IfOk result (λ least. IfSome least (IsLeast setting.now)) }
    ensures none { IfOk result (λ least. IfNone least ((tree : Node) → IsDerivation setting.now tree → ⊥)) }
{
    let plans = plans_of(alloc, setting.grammar)?;
    let mut tables = Tables {
        ends: Rows::new(alloc),
        rows: List::new(alloc),
    };
    let scene = Scene {
        alloc,
        setting: &*setting,
        plans: plans.as_slice(),
        depth: DEEPEST,
    };
    let list = Access::empty(alloc);
    let number = best_of(&scene, &mut tables, text(alloc), 0, list)?;
    let row = tables.rows.get(number);
    least_among(alloc, setting, row.outcomes.as_slice())
}

/// The least skeleton of the tokens, of which there are at most 40, by the grammar with the words of the lexicon: that of
/// the derivation whose code is first in lexicographic order; there is no other. `None` exactly where the tokens have no
/// derivation. The least trees are found once for each category with its values, place and list without openers.
pub fn least_of(
    alloc: Global,
    grammar: &CheckedGrammar,
    lexicon: &Lexicon,
    tokens: &Tokens,
) -> Result<Option<Skeleton>, Memory>
    requires { length tokens.now ≤ MOST_TOKENS }

    ensures least { IfOk result (λ least. IfSome least (IsLeastSkeleton grammar.now lexicon.now tokens.now)) }
    ensures none { IfOk result (λ least. IfNone least (IsSentence grammar.now lexicon.now tokens.now → ⊥)) }
    ensures unique { IfOk result (λ least. IfSome least (IsOnlyLeast grammar.now lexicon.now tokens.now)) }
    ensures codes { CodesTell grammar.now }
{
    let readings = readings_of(alloc, lexicon, tokens.as_slice())?;
    let setting = Setting {
        grammar: grammar.grammar(),
        tokens: tokens.as_slice(),
        readings: readings.as_slice(),
    };
    least_in(alloc, &setting)
}
