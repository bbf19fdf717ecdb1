// The words and tokens of the sentences that are tried.

ghost use Rattle.std.specs.Prelude.{◌≤◌, length, IfOk};
ghost use Rattle.wiki_base.specs.declared.tokens.TheConstants.{MOST_TOKENS};

use crate::fault::Fault;
use codeco_checked::CheckedGrammar;
use derivation_trees::{Cut, cut};
use lexicon::{Kind, Lexicon, forms};
use std::alloc::Global;
use wiki_base::{Text, Tokens};

pub(crate) fn add(
    alloc: Global,
    lexicon: &mut Lexicon,
    kind: Kind,
    text: &str,
) -> Result<(), Fault> {
    let given = [Text::read(alloc, text)?];
    let forms = forms(alloc, kind, &given)?;
    lexicon.add(&forms)?;
    Ok(())
}

pub(crate) fn lexicon_of(
    alloc: Global,
    grammar: &CheckedGrammar,
    words: &[(Kind, &str)],
) -> Result<Lexicon, Fault> {
    let mut lexicon = Lexicon::new(alloc, grammar.grammar())?;
    for (kind, text) in words {
        add(alloc, &mut lexicon, *kind, text)?;
    }
    Ok(lexicon)
}

pub(crate) fn tokens_of(
    alloc: Global,
    grammar: &CheckedGrammar,
    text: &str,
) -> Result<Tokens, Fault>
    ensures { IfOk result (λ tokens. length tokens ≤ MOST_TOKENS) }
{
    match cut(alloc, grammar.grammar(), text)? {
        Cut::Tokens(tokens) => Ok(tokens),
        Cut::TooMany => Err(Fault::Words),
    }
}
