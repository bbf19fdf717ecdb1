// What tokens are to the grammar, by the tables of the chart: how many of them can be typed, what may follow them, and the
// least skeleton.
ghost use Rattle.std.specs.Prelude.{◌≡◌, ◌≤◌, ◌↔◌, ℕ, length, IfOk, IfSome, IfNone};
ghost use Rattle.wiki_base.specs.declared.tokens.TheConstants.{MOST_TOKENS};
ghost use Rattle.derivation_trees.specs.Sentences.{IsSentence};
ghost use Rattle.derivation_trees.specs.Skeletons.{IsLeastSkeleton};
ghost use Rattle.derivations.specs.Typing.{IsTextMenu, IsTypeableCount};

use chart::Chart;
use chart_table::begins;
use chart_trees::least_of;
use codeco_checked::CheckedGrammar;
use derivations::{Menu, Skeleton};
use lexicon::Lexicon;
use lists::Copied;
use std::alloc::Global;
use wiki_base::{Memory, Tokens};

/// How many of the tokens are typeable, from the first on.
pub fn typeable_count(
    alloc: Global,
    grammar: &CheckedGrammar,
    lexicon: &Lexicon,
    tokens: &Tokens,
) -> Result<usize, Memory>
    requires { length tokens.now ≤ MOST_TOKENS }
    ensures { IfOk result (IsTypeableCount grammar.now lexicon.now tokens.now) }
{
    let mut count = 0;
    for longer in 0..tokens.len() + 1 {
        let mut front = tokens.copy()?;
        front.truncate(longer);
        if !begins(alloc, grammar, lexicon, &front)? {
            return Ok(count);
        }
        count = longer;
    }
    Ok(count)
}

/// The menu of the tokens, by the chart.
pub fn menu<'a>(
    alloc: Global,
    grammar: &'a CheckedGrammar,
    lexicon: &'a Lexicon,
    tokens: &Tokens,
) -> Result<Menu<'a>, Memory>
    requires { length tokens.now ≤ MOST_TOKENS }
    ensures { IfOk result (IsTextMenu grammar.now lexicon.now tokens.now) }
{
    let mut chart = Chart::new(alloc, grammar)?;
    for token in tokens.as_slice() {
        chart.advance(grammar, lexicon, token)?;
    }
    chart.menu(grammar, lexicon)
}

/// The least skeleton of the tokens, if they have a derivation.
pub fn least(
    alloc: Global,
    grammar: &CheckedGrammar,
    lexicon: &Lexicon,
    tokens: &Tokens,
) -> Result<Option<Skeleton>, Memory>
    requires { length tokens.now ≤ MOST_TOKENS }
    ensures least { IfOk result (λ found. IfSome found (IsLeastSkeleton grammar.now lexicon.now tokens.now)) }
    ensures none { IfOk result (λ found. IfNone found (IsSentence grammar.now lexicon.now tokens.now → ⊥)) }
{
    least_of(alloc, grammar, lexicon, tokens)
}
