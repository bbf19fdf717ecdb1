// Whether the chart tells of tokens what the listing of their trees does.
ghost use Rattle.std.specs.Prelude.{◌≡◌, ◌≤◌, length, OnOk};
ghost use Rattle.derivation_trees.specs.Sentences.{setting_of};

use crate::cases::{started, taken, tokens_of};
use chart::Chart;
use chart_trees::least_of;
use codeco_checked::CheckedGrammar;
use derivation_trees::{Menu, Skeleton};
use derivations::{plain_least, plain_menu, typeable_count};
use lexicon::Lexicon;
use lists::List;
use std::alloc::Global;
use std::test::Fail;
use wiki_base::{Token, Tokens};

pub(crate) fn same_entries(menu: &Menu<'_>, other: &Menu<'_>) -> bool {
    if menu.len() != other.len() {
        return false;
    }
    for place in 0..menu.len() {
        let (group, text) = menu.get(place);
        let (other_group, other_text) = other.get(place);
        if group != other_group || text != other_text {
            return false;
        }
    }
    true
}

// The code; no parts where there is no skeleton.
fn code_of(alloc: Global, least: Option<Skeleton>) -> Result<List<u16>, Fail> {
    match least {
        None => Ok(List::new(alloc)),
        Some(skeleton) => Ok(skeleton.code(alloc)?),
    }
}

// Whether there is a least skeleton, and none where its code isn't the same by the table and by listing.
fn same_least(
    alloc: Global,
    grammar: &CheckedGrammar,
    lexicon: &Lexicon,
    tokens: &Tokens,
) -> Result<Option<bool>, Fail>
    requires { length tokens.now ≤ 40 }
{
    let listed = code_of(alloc, plain_least(alloc, grammar, lexicon, tokens)?)?;
    let code = code_of(alloc, least_of(alloc, grammar, lexicon, tokens)?)?;
    if code.as_slice() == listed.as_slice() {
        Ok(Some(!code.is_empty()))
    } else {
        Ok(None)
    }
}

// Whether the menu is the same by the chart and by listing.
fn same_menu(
    alloc: Global,
    chart: &Chart,
    grammar: &CheckedGrammar,
    lexicon: &Lexicon,
    tokens: &Tokens,
) -> Result<bool, Fail>
    requires kept { chart.now ≡ setting_of grammar.now lexicon.now chart.now.tokens }
    requires few { length tokens.now ≤ 40 }
{
    let listed = plain_menu(alloc, grammar, lexicon, tokens)?;
    let menu = chart.menu(grammar, lexicon)?;
    Ok(same_entries(&menu, &listed))
}

// Takes the tokens into the chart, and tells how many of them are typeable.
pub(crate) fn grow(
    chart: &mut Chart,
    grammar: &CheckedGrammar,
    lexicon: &Lexicon,
    tokens: &[Token],
) -> Result<usize, Fail>
    requires { chart.old ≡ setting_of grammar.now lexicon.now chart.old.tokens }
    ensures { OnOk result (chart.new ≡ setting_of grammar.now lexicon.now chart.new.tokens) }
{
    let mut typeable = 0usize;
    for (place, token) in tokens.iter().enumerate() {
        let begins = taken(chart, grammar, lexicon, token)?;
        if begins && typeable == place {
            typeable = place + 1;
        }
    }
    Ok(typeable)
}

// The chart takes the tokens. What it then tells of them otherwise than the listing.
fn difference_on(
    alloc: Global,
    chart: &mut Chart,
    grammar: &CheckedGrammar,
    lexicon: &Lexicon,
    tokens: &Tokens,
) -> Result<Option<&'static str>, Fail>
    requires kept { chart.old ≡ setting_of grammar.now lexicon.now chart.old.tokens }
    requires few { length tokens.now ≤ 40 }
{
    let typeable = grow(chart, grammar, lexicon, tokens.as_slice())?;
    if typeable != typeable_count(alloc, grammar, lexicon, tokens)? {
        return Ok(Some("how many tokens are typeable"));
    }
    let Some(sentence) = same_least(alloc, grammar, lexicon, tokens)? else {
        return Ok(Some("the code of the least skeleton"));
    };
    if chart.complete() != sentence {
        return Ok(Some("whether they are a sentence"));
    }
    if !same_menu(alloc, chart, grammar, lexicon, tokens)? {
        return Ok(Some("the menu"));
    }
    Ok(None)
}

fn difference_from_the_start(
    alloc: Global,
    grammar: &CheckedGrammar,
    lexicon: &Lexicon,
    tokens: &Tokens,
) -> Result<Option<&'static str>, Fail>
    requires { length tokens.now ≤ 40 }
{
    let mut chart = started(alloc, grammar, lexicon)?;
    difference_on(alloc, &mut chart, grammar, lexicon, tokens)
}

/// What the chart tells of the text's tokens otherwise than the listing of their trees does: how many are typeable, the code of
/// the least skeleton, whether they are a sentence, or the menu.
pub fn difference(
    alloc: Global,
    grammar: &CheckedGrammar,
    lexicon: &Lexicon,
    text: &str,
) -> Result<Option<&'static str>, Fail> {
    let tokens = tokens_of(alloc, grammar, text)?;
    difference_from_the_start(alloc, grammar, lexicon, &tokens)
}
