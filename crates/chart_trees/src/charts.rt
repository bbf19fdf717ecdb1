// The least skeleton of a chart's tokens.
ghost use Rattle.std.specs.Prelude.{◌≡◌, IfOk, IfSome, IfNone};
ghost use Rattle.derivation_trees.specs.Sentences.{setting_of, IsSentence};
ghost use Rattle.derivation_trees.specs.Skeletons.{IsLeastSkeleton};
ghost use Rattle.derivations.specs.Laws.{CodesTell, IsOnlyLeast};

use crate::skeletons::least_of;
use chart::Chart;
use codeco_checked::CheckedGrammar;
use derivation_trees::Skeleton;
use lexicon::Lexicon;
use wiki_base::Memory;

/// The least skeleton of the chart's tokens: that of the derivation whose code is first in lexicographic order; there is no
/// other. `None` exactly where they have no derivation. The grammar has to be the one that is kept, and the lexicon has to
/// give the readings that are kept.
pub fn least(
    chart: &Chart,
    grammar: &CheckedGrammar,
    lexicon: &Lexicon,
) -> Result<Option<Skeleton>, Memory>
    requires kept { chart.now ≡ setting_of grammar.now lexicon.now chart.now.tokens }

    ensures least { IfOk result (λ least. IfSome least (IsLeastSkeleton grammar.now lexicon.now chart.now.tokens)) }
    ensures none { IfOk result (λ least. IfNone least (IsSentence grammar.now lexicon.now chart.now.tokens → ⊥)) }
    ensures unique { IfOk result (λ least. IfSome least (IsOnlyLeast grammar.now lexicon.now chart.now.tokens)) }
    ensures codes { CodesTell grammar.now }
{
    let tokens = chart.tokens();
    least_of(tokens.allocator(), grammar, lexicon, tokens)
}
