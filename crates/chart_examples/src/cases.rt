// The words, tokens and charts of the tests.
ghost use Rattle.std.specs.Prelude.{◌≡◌, ◌≤◌, length, IfOk, OnOk};
ghost use Rattle.derivation_trees.specs.Sentences.{setting_of};

use chart::Chart;
use codeco_checked::CheckedGrammar;
use codeco_reader::read_grammar;
use derivation_trees::{Cut, cut};
use lexicon::{Kind, Lexicon, forms};
use std::alloc::Global;
use std::test::Fail;
use wiki_base::{MOST_TOKENS, Text, Token, Tokens};

pub(crate) fn grammar_of(alloc: Global, text: &str) -> Result<CheckedGrammar, Fail> {
    let grammar = read_grammar(alloc, text)?;
    Ok(grammar)
}

fn texts_of(alloc: Global, texts: &[&str]) -> Result<Vec<Text>, Fail> {
    let mut read = Vec::new(alloc);
    for text in texts {
        read.push(Text::read(alloc, *text)?)?;
    }
    Ok(read)
}

fn add(alloc: Global, lexicon: &mut Lexicon, kind: Kind, texts: &[&str]) -> Result<(), Fail> {
    let read = texts_of(alloc, texts)?;
    let forms = forms(alloc, kind, read.as_slice())?;
    if lexicon.add(&forms).is_err() {
        return Err(Fail::new("a word that is free"));
    }
    Ok(())
}

/// A lexicon of words, each with its kind and the forms that are given.
pub fn words(
    alloc: Global,
    grammar: &CheckedGrammar,
    given: &[(Kind, &[&str])],
) -> Result<Lexicon, Fail> {
    let mut lexicon = Lexicon::new(alloc, grammar.grammar())?;
    for (kind, texts) in given {
        add(alloc, &mut lexicon, *kind, *texts)?;
    }
    Ok(lexicon)
}

pub(crate) fn tokens_of(alloc: Global, grammar: &CheckedGrammar, text: &str) -> Result<Tokens, Fail>
    ensures { IfOk result (λ tokens. length tokens ≤ 40) }
{
    let Cut::Tokens(tokens) = cut(alloc, grammar.grammar(), text)? else {
        return Err(Fail::new("at most 40 tokens"));
    };
    Ok(tokens)
}

// The chart of no tokens.
pub(crate) fn started(
    alloc: Global,
    grammar: &CheckedGrammar,
    lexicon: &Lexicon,
) -> Result<Chart, Fail>
    ensures { IfOk result (λ chart. chart ≡ setting_of grammar.now lexicon.now chart.tokens) }
{
    let _ = lexicon;
    let chart = Chart::new(alloc, grammar)?;
    Ok(chart)
}

// Takes the token into the chart, and tells whether the longer list has a partial derivation.
pub(crate) fn taken(
    chart: &mut Chart,
    grammar: &CheckedGrammar,
    lexicon: &Lexicon,
    token: &Token,
) -> Result<bool, Fail>
    requires { chart.old ≡ setting_of grammar.now lexicon.now chart.old.tokens }
    ensures { OnOk result (chart.new ≡ setting_of grammar.now lexicon.now chart.new.tokens) }
{
    if chart.tokens().len() >= MOST_TOKENS {
        return Err(Fail::new("at most 40 tokens"));
    }
    let begins = chart.advance(grammar, lexicon, token)?;
    Ok(begins)
}

// Takes the last token away again, and tells whether there was one.
pub(crate) fn dropped(chart: &mut Chart, grammar: &CheckedGrammar, lexicon: &Lexicon) -> bool
    requires { chart.old ≡ setting_of grammar.now lexicon.now chart.old.tokens }
    ensures { chart.new ≡ setting_of grammar.now lexicon.now chart.new.tokens }
{
    let _ = grammar;
    let _ = lexicon;
    chart.back()
}
