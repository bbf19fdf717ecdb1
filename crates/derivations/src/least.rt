// The least skeleton of tokens.
ghost use Rattle.std.specs.Prelude.{◌≡◌, ◌≤◌, ◌+◌, ◌*◌, ◌↔◌, ◌∷◌, [], ◌++◌, List, map, length, IsTrue, IfOk, IfSome, IfNone};
ghost use Rattle.codeco_checked.specs.Sound.{IsSound};
ghost use Rattle.derivation_trees.specs.Trees.{Node, node_of};
ghost use Rattle.derivation_trees.specs.Derives.{IsDerivation, text_category};
ghost use Rattle.derivation_trees.specs.Sentences.{setting_of, IsSentence};
ghost use Rattle.derivation_trees.specs.Skeletons.{IsBelow, IsLeast, IsLeastSkeleton};
ghost use Rattle.derivation_trees.specs.Stands.{IsLimited};
ghost use Rattle.derivations.specs.Enumeration as enumeration;
ghost use Rattle.derivations.specs.Paths.{outcome_of};
ghost use Rattle.derivations.specs.Laws.{CodesTell, IsOnlyLeast};
ghost use Rattle.derivations.specs.Listed.{listed, LeastOf, IsLesser};
ghost use Rattle.wiki_base.specs.declared.tokens.TheConstants.{MOST_TOKENS};

use crate::listing::trees_of;
use crate::paths::Outcome;
use crate::sought::Sought;
use codeco_checked::{CheckedGrammar, FIRST_PLAIN};
use derivation_trees::{Setting, Skeleton, Tree, check_tree, readings_of, sketch_of};
use lexicon::Lexicon;
use lists::List;
use scopes::{Access, Test, TestValues};
use std::alloc::Global;
use std::cmp::Ordering;
use wiki_base::{Memory, Tokens};

// Whether the code of the one is below that of the other.
fn is_below(alloc: Global, one: &Skeleton, other: &Skeleton) -> Result<bool, Memory>
    ensures { IfOk result (λ yes. IsTrue yes ↔ IsBelow one.now other.now) }
{
    let code = one.code(alloc)?;
    let other = other.code(alloc)?;
    match code.as_slice().cmp(other.as_slice()) {
        Ordering::Less => Ok(true),
        _ => Ok(false),
    }
}

// The one whose code is lower.
fn lesser(alloc: Global, least: Option<Skeleton>, other: Skeleton) -> Result<Skeleton, Memory>
    ensures { IfOk result (IsLesser least other) }
{
    match least {
        None => Ok(other),
        Some(old) => {
            if is_below(alloc, &other, &old)? {
                Ok(other)
            } else {
                Ok(old)
            }
        }
    }
}

// The least skeleton, with one more tree.
fn consider(
    alloc: Global,
    grammar: &CheckedGrammar,
    lexicon: &Lexicon,
    tokens: &Tokens,
    setting: &Setting<'_>,
    tree: &Tree,
    least: Option<Skeleton>,
) -> Result<Option<Skeleton>, Memory>
    requires few { length tokens.now ≤ MOST_TOKENS }
    requires same { setting.now ≡ setting_of grammar.now lexicon.now tokens.now }

    ensures { IfOk result (λ next. (trees : List Node) → LeastOf setting.now trees least
        → LeastOf setting.now (trees ++ node_of tree.now ∷ []) next) }
{
    if !check_tree(alloc, grammar, lexicon, tokens, tree)? {
        return Ok(least);
    }
    let skeleton = sketch_of(alloc, setting, tree, 0)?;
    let chosen = lesser(alloc, least, skeleton)?;
    Ok(Some(chosen))
}

// The least skeleton of the derivations among the trees.
fn least_of(
    alloc: Global,
    grammar: &CheckedGrammar,
    lexicon: &Lexicon,
    tokens: &Tokens,
    setting: &Setting<'_>,
    outcomes: &[Outcome],
) -> Result<Option<Skeleton>, Memory>
    requires few { length tokens.now ≤ MOST_TOKENS }
    requires same { setting.now ≡ setting_of grammar.now lexicon.now tokens.now }

    ensures { IfOk result (LeastOf setting.now (listed outcomes.now)) }
{
    let mut least = None;
    for outcome in outcomes {
        least = consider(
            alloc,
            grammar,
            lexicon,
            tokens,
            setting,
            &outcome.tree,
            least,
        )?;
    }
    Ok(least)
}

// How deep derivations are at most.
pub(crate) fn depth_for(tokens: usize, rules: usize) -> Result<usize, Memory>
    ensures { IfOk result (λ depth. depth ≡ (tokens + 1) * (rules + 1)) }
{
    let places = tokens.checked_add(1).ok_or(Memory)?;
    let names = rules.checked_add(1).ok_or(Memory)?;
    places.checked_mul(names).ok_or(Memory)
}

pub(crate) fn token_count(setting: &Setting<'_>) -> usize
    ensures { result ≡ length setting.now.tokens }
{
    setting.tokens.len()
}

pub(crate) fn rule_count(setting: &Setting<'_>) -> usize
    ensures { result ≡ length setting.now.grammar.rules }
{
    setting.grammar.rules().len()
}

// The category of sentences, without features.
pub(crate) fn text(alloc: Global) -> Test
    ensures { result ≡ text_category }
{
    Test {
        name: FIRST_PLAIN,
        values: TestValues::new(alloc),
    }
}

// All trees for `text` from place 0 and the empty list.
fn all_trees(alloc: Global, setting: &Setting<'_>, depth: usize) -> Result<List<Outcome>, Memory>
    requires { IsLimited setting.now.grammar }
    ensures { IfOk result (λ outcomes. map outcome_of outcomes
        ≡ enumeration.trees_of setting.now depth text_category (record { place = 0; list = [] })) }
{
    let sought = Sought {
        wanted: &text(alloc),
        place: 0,
        list: &Access::empty(alloc),
    };
    trees_of(alloc, setting, depth, &sought)
}

// The least skeleton of the setting's tokens.
fn least_in(
    alloc: Global,
    grammar: &CheckedGrammar,
    lexicon: &Lexicon,
    tokens: &Tokens,
    setting: &Setting<'_>,
) -> Result<Option<Skeleton>, Memory>
    requires few { length tokens.now ≤ MOST_TOKENS }
    requires same { setting.now ≡ setting_of grammar.now lexicon.now tokens.now }
    requires sound { IsSound setting.now.grammar }
    requires limited { IsLimited setting.now.grammar }

    ensures least { IfOk result (λ least. IfSome least (IsLeast setting.now)) }
    ensures none { IfOk result (λ least. IfNone least ((tree : Node) → IsDerivation setting.now tree → ⊥)) }
{
    let depth = depth_for(token_count(setting), rule_count(setting))?;
    let outcomes = all_trees(alloc, setting, depth)?;
    least_of(
        alloc,
        grammar,
        lexicon,
        tokens,
        setting,
        outcomes.as_slice(),
    )
}

/// The least skeleton of the tokens, of which there are at most 40, by the grammar with the words of the lexicon: that of
/// the derivation whose code is first in lexicographic order; there is no other. `None` exactly where the tokens have no
/// derivation. It lists all derivations, of which there may be very many.
pub fn plain_least(
    alloc: Global,
    grammar: &CheckedGrammar,
    lexicon: &Lexicon,
    tokens: &Tokens,
) -> Result<Option<Skeleton>, Memory>
    requires { length tokens.now ≤ MOST_TOKENS }

    ensures least { IfOk result (λ least. IfSome least (IsLeastSkeleton grammar.now lexicon.now tokens.now)) }
    ensures none { IfOk result (λ least. IfNone least (IsSentence grammar.now lexicon.now tokens.now → ⊥)) }
    ensures unique { IfOk result (λ least. IfSome least (IsOnlyLeast grammar.now lexicon.now tokens.now)) }
    ensures codes { CodesTell grammar.now }
{
    let readings = readings_of(alloc, lexicon, tokens.as_slice())?;
    let setting = Setting {
        grammar: grammar.grammar(),
        tokens: tokens.as_slice(),
        readings: readings.as_slice(),
    };
    least_in(alloc, grammar, lexicon, tokens, &setting)
}
