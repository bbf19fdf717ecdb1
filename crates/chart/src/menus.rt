// The menu of tokens: each terminal and each form that may follow.
ghost use Rattle.std.specs.Prelude.{◌≡◌, ◌≤◌, ◌↔◌, ◌∷◌, [], ◌++◌, All, IsUtf8, IsTrue, IfOk, OnOk, length, map};
ghost use Rattle.wiki_base.specs.Token.{IsToken};
ghost use Rattle.wiki_base.specs.declared.tokens.TheConstants.{MOST_TOKENS};
ghost use Rattle.codeco_checked.specs.Sound.{IsSound};
ghost use Rattle.lexicon.specs.Readings as lexical;
ghost use Rattle.derivation_trees.specs.Menus.{IsMenu};
ghost use Rattle.derivations.specs.Entries.{shown, texts_of, goes_on, tried as with_tried, all_tried, forms_in, forms_among, functions_in, IsInOrder, AreTexts};
ghost use Rattle.derivations.specs.Typing.{IsTextMenu};
ghost use Rattle.derivation_trees.specs.Partial.{IsBeginning};
ghost use Rattle.chart_table.specs.Choices.{EachPlan};

use crate::entries::{Entry, in_order, menu_of, put};
use crate::offers::{Before, add_known, add_new};
use crate::used::Used;
use chart_table::{Plan, begins};
use codeco_checked::CheckedGrammar;
use codeco_terms::Symbol;
use derivation_trees::{Group, Menu};
use lexicon::{Lexicon, Readings, Word};
use std::alloc::Global;
use std::str;
use wiki_base::{Copied, Memory, Token, Tokens};

/// The most terminals that are asked for by their numbers.
const MOST_ASKED: usize = 65535;

// Whether the tokens with the text at their end have a partial derivation.
fn try_token(
    alloc: Global,
    grammar: &CheckedGrammar,
    lexicon: &Lexicon,
    tokens: &Tokens,
    text: &str,
) -> Result<bool, Memory>
    requires few { length tokens.now ≤ MOST_TOKENS }
    requires token { IsToken text.now }
    ensures { IfOk result (λ follows. IsTrue follows ↔ IsBeginning grammar.now lexicon.now (tokens.now ++ text.now ∷ [])) }
{
    let mut longer = tokens.copy()?;
    longer.push(Token::from_str(alloc, text)?)?;
    begins(alloc, grammar, lexicon, &longer)
}

// Adds the candidate, where its token may follow.
fn consider<'a>(
    alloc: Global,
    grammar: &CheckedGrammar,
    lexicon: &Lexicon,
    tokens: &Tokens,
    group: Group,
    text: &'a str,
    entries: &mut Vec<Entry<'a>>,
) -> Result<(), Memory>
    requires few { length tokens.now ≤ MOST_TOKENS }
    requires token { IsToken text.now }
    requires sound { IsSound grammar.now }
    requires ordered { IsInOrder (map shown entries.old.items) }

    ensures entries { OnOk result (map shown entries.new.items
        ≡ with_tried (goes_on grammar.now lexicon.now tokens.now) (group, text.now) (map shown entries.old.items)) }
{
    let yes = try_token(alloc, grammar, lexicon, tokens, text)?;
    if !yes {
        return Ok(());
    }
    put(entries, (group, text))?;
    Ok(())
}

// The terminals that are in UTF-8.
fn terminal_texts<'a>(alloc: Global, grammar: &'a CheckedGrammar) -> Result<Vec<&'a str>, Memory>
    ensures tokens { IfOk result (λ texts. All IsToken (texts_of texts.items)) }
    ensures texts { IfOk result (λ texts. AreTexts (texts_of texts.items) grammar.now.terminals) }
    ensures sound { OnOk result (IsSound grammar.now) }
{
    let mut texts = Vec::new(alloc);
    for terminal in grammar.grammar().terminals().as_slice() {
        if let Ok(text) = str::from_utf8(terminal.as_slice()) {
            texts.push(text)?;
        }
    }
    Ok(texts)
}

// Adds the terminals that may follow.
fn try_terminals<'a>(
    alloc: Global,
    grammar: &CheckedGrammar,
    lexicon: &Lexicon,
    tokens: &Tokens,
    texts: &[&'a str],
    entries: &mut Vec<Entry<'a>>,
) -> Result<(), Memory>
    requires few { length tokens.now ≤ MOST_TOKENS }
    requires tokens { All IsToken (texts_of texts.now) }
    requires sound { IsSound grammar.now }
    requires ordered { IsInOrder (map shown entries.old.items) }

    ensures entries { OnOk result (map shown entries.new.items
        ≡ all_tried (goes_on grammar.now lexicon.now tokens.now) (functions_in (texts_of texts.now)) (map shown entries.old.items)) }
{
    for text in texts {
        consider(
            alloc,
            grammar,
            lexicon,
            tokens,
            Group::Function,
            *text,
            entries,
        )?;
    }
    Ok(())
}

// Adds the forms of the word that may follow.
fn try_word<'a>(
    alloc: Global,
    grammar: &CheckedGrammar,
    lexicon: &Lexicon,
    tokens: &Tokens,
    word: &'a Word,
    entries: &mut Vec<Entry<'a>>,
) -> Result<(), Memory>
    requires few { length tokens.now ≤ MOST_TOKENS }
    requires sound { IsSound grammar.now }
    requires ordered { IsInOrder (map shown entries.old.items) }

    ensures entries { OnOk result (map shown entries.new.items
        ≡ all_tried (goes_on grammar.now lexicon.now tokens.now) (forms_in word.now) (map shown entries.old.items)) }
{
    let group = Group::of_kind(word.forms.kind);
    for text in word.forms.texts.as_slice() {
        consider(
            alloc,
            grammar,
            lexicon,
            tokens,
            group,
            text.as_str(),
            entries,
        )?;
    }
    Ok(())
}

// Adds the forms of live words that may follow.
fn try_words<'a>(
    alloc: Global,
    grammar: &CheckedGrammar,
    lexicon: &'a Lexicon,
    tokens: &Tokens,
    entries: &mut Vec<Entry<'a>>,
) -> Result<(), Memory>
    requires few { length tokens.now ≤ MOST_TOKENS }
    requires sound { IsSound grammar.now }
    requires ordered { IsInOrder (map shown entries.old.items) }

    ensures entries { OnOk result (map shown entries.new.items
        ≡ all_tried (goes_on grammar.now lexicon.now tokens.now) (forms_among lexicon.now.live) (map shown entries.old.items)) }
{
    for place in 0..lexicon.len() {
        try_word(alloc, grammar, lexicon, tokens, lexicon.get(place), entries)?;
    }
    Ok(())
}

// The menu of the tokens, with each terminal and each form tried by itself.
fn menu_by_trying<'a>(
    alloc: Global,
    grammar: &'a CheckedGrammar,
    lexicon: &'a Lexicon,
    tokens: &Tokens,
) -> Result<Menu<'a>, Memory>
    requires few { length tokens.now ≤ MOST_TOKENS }
    ensures menu { All IsUtf8 grammar.now.terminals → IfOk result (IsMenu grammar.now lexicon.now tokens.now) }
    ensures texts { IfOk result (IsTextMenu grammar.now lexicon.now tokens.now) }
{
    let texts = terminal_texts(alloc, grammar)?;
    let mut entries = Vec::new(alloc);
    try_terminals(
        alloc,
        grammar,
        lexicon,
        tokens,
        texts.as_slice(),
        &mut entries,
    )?;
    try_words(alloc, grammar, lexicon, tokens, &mut entries)?;
    menu_of(alloc, entries.as_slice())
}

// The menu of the tokens, which have these readings, where the terminals are those of the lexicon, so that no form is one, and the
// plans those of the grammar's rules.
fn menu_by_asking<'a>(
    alloc: Global,
    grammar: &'a CheckedGrammar,
    lexicon: &'a Lexicon,
    tokens: &Tokens,
    readings: &[Readings],
    plans: &[Plan],
) -> Result<Menu<'a>, Memory>
    requires few { length tokens.now ≤ MOST_TOKENS }
    requires readings { readings.now ≡ map (lexical.readings_of lexicon.now.live) tokens.now }
    requires plans { EachPlan grammar.now grammar.now.rules plans.now }
    requires terminals { length grammar.now.terminals ≤ 65535 }
    requires same { grammar.now.terminals ≡ lexicon.now.terminals }
    ensures menu { All IsUtf8 grammar.now.terminals → IfOk result (IsMenu grammar.now lexicon.now tokens.now) }
    ensures texts { IfOk result (IsTextMenu grammar.now lexicon.now tokens.now) }
{
    let texts = terminal_texts(alloc, grammar)?;
    let used = Used::of(alloc, readings)?;
    let mut found = Vec::new(alloc);
    let before = Before {
        grammar,
        plans,
        tokens,
        used: &used,
    };
    add_known(alloc, lexicon, &before, texts.as_slice(), &mut found)?;
    add_new(alloc, lexicon, &before, &mut found)?;
    let entries = in_order(alloc, found)?;
    menu_of(alloc, entries.as_slice())
}

fn is_same(symbol: &Symbol, other: &Symbol) -> bool
    ensures { IsTrue result → symbol.now ≡ other.now }
{
    symbol.as_bytes() == other.as_bytes()
}

// Whether the symbols are the others.
fn are_same(symbols: &[Symbol], others: &[Symbol]) -> bool
    ensures { IsTrue result → symbols.now ≡ others.now }
{
    if symbols.len() != others.len() {
        return false;
    }
    for (place, symbol) in symbols.iter().enumerate() {
        if !is_same(symbol, &others[place]) {
            return false;
        }
    }
    true
}

// The menu of the tokens, which have these readings. The plans are those of the grammar's rules.
pub(crate) fn menu_for<'a>(
    alloc: Global,
    grammar: &'a CheckedGrammar,
    lexicon: &'a Lexicon,
    tokens: &Tokens,
    readings: &[Readings],
    plans: &[Plan],
) -> Result<Menu<'a>, Memory>
    requires few { length tokens.now ≤ MOST_TOKENS }
    requires readings { readings.now ≡ map (lexical.readings_of lexicon.now.live) tokens.now }
    requires plans { EachPlan grammar.now grammar.now.rules plans.now }
    ensures menu { All IsUtf8 grammar.now.terminals → IfOk result (IsMenu grammar.now lexicon.now tokens.now) }
    ensures texts { IfOk result (IsTextMenu grammar.now lexicon.now tokens.now) }
{
    let terminals = grammar.grammar().terminals().as_slice();
    if terminals.len() <= MOST_ASKED && are_same(terminals, lexicon.terminals().as_slice()) {
        menu_by_asking(alloc, grammar, lexicon, tokens, readings, plans)
    } else {
        menu_by_trying(alloc, grammar, lexicon, tokens)
    }
}
