// Menus, and how many tokens are typeable.
ghost use Rattle.std.specs.Prelude.{◌≡◌, ◌≤◌, All, IsUtf8, IfOk, OnOk, length, map, take};
ghost use Rattle.wiki_base.specs.Token.{IsToken};
ghost use Rattle.codeco_checked.specs.Sound.{IsSound};
ghost use Rattle.derivation_trees.specs.Menus.{IsMenu};
ghost use Rattle.derivations.specs.Entries.{shown, texts_of, goes_on, tried, all_tried, forms_in, forms_among, functions_in, IsInOrder, AreTexts};
ghost use Rattle.derivations.specs.Typing.{IsTextMenu, IsTypeableCount};
ghost use Rattle.wiki_base.specs.declared.tokens.TheConstants.{MOST_TOKENS};

use crate::beginnings::is_beginning;
use crate::entries::{Entry, menu_of, put};
use codeco_checked::CheckedGrammar;
use derivation_trees::{Group, Menu};
use lexicon::{Lexicon, Word};
use std::alloc::Global;
use std::str;
use wiki_base::{Copied, Memory, Token, Tokens};

// Adds the candidate, where its token may follow.
fn consider<'a>(
    alloc: Global,
    grammar: &CheckedGrammar,
    lexicon: &Lexicon,
    tokens: &Tokens,
    group: Group,
    text: &'a str,
    entries: &mut Vec<Entry<'a>>,
) -> Result<(), Memory>
    requires few { length tokens.now ≤ MOST_TOKENS }
    requires token { IsToken text.now }
    requires ordered { IsInOrder (map shown entries.old.items) }

    ensures { OnOk result (map shown entries.new.items
        ≡ tried (goes_on grammar.now lexicon.now tokens.now) (group, text.now) (map shown entries.old.items)) }
{
    let mut longer = tokens.copy()?;
    longer.push(Token::from_str(alloc, text)?)?;
    if !is_beginning(alloc, grammar, lexicon, longer.as_slice())? {
        return Ok(());
    }
    put(entries, (group, text))
}

// The terminals that are in UTF-8.
fn terminal_texts<'a>(alloc: Global, grammar: &'a CheckedGrammar) -> Result<Vec<&'a str>, Memory>
    ensures tokens { IfOk result (λ texts. All IsToken (texts_of texts.items)) }
    ensures texts { IfOk result (λ texts. AreTexts (texts_of texts.items) grammar.now.terminals) }
    ensures sound { OnOk result (IsSound grammar.now) }
{
    let mut texts = Vec::new(alloc);
    for terminal in grammar.grammar().terminals().as_slice() {
        if let Ok(text) = str::from_utf8(terminal.as_slice()) {
            texts.push(text)?;
        }
    }
    Ok(texts)
}

// Adds the terminals that may follow.
fn try_terminals<'a>(
    alloc: Global,
    grammar: &CheckedGrammar,
    lexicon: &Lexicon,
    tokens: &Tokens,
    texts: &[&'a str],
    entries: &mut Vec<Entry<'a>>,
) -> Result<(), Memory>
    requires few { length tokens.now ≤ MOST_TOKENS }
    requires tokens { All IsToken (texts_of texts.now) }
    requires ordered { IsInOrder (map shown entries.old.items) }

    ensures { OnOk result (map shown entries.new.items
        ≡ all_tried (goes_on grammar.now lexicon.now tokens.now) (functions_in (texts_of texts.now)) (map shown entries.old.items)) }
{
    for text in texts {
        consider(
            alloc,
            grammar,
            lexicon,
            tokens,
            Group::Function,
            *text,
            entries,
        )?;
    }
    Ok(())
}

// Adds the forms of the word that may follow.
fn try_word<'a>(
    alloc: Global,
    grammar: &CheckedGrammar,
    lexicon: &Lexicon,
    tokens: &Tokens,
    word: &'a Word,
    entries: &mut Vec<Entry<'a>>,
) -> Result<(), Memory>
    requires few { length tokens.now ≤ MOST_TOKENS }
    requires ordered { IsInOrder (map shown entries.old.items) }

    ensures { OnOk result (map shown entries.new.items
        ≡ all_tried (goes_on grammar.now lexicon.now tokens.now) (forms_in word.now) (map shown entries.old.items)) }
{
    let group = Group::of_kind(word.forms.kind);
    for text in word.forms.texts.as_slice() {
        consider(
            alloc,
            grammar,
            lexicon,
            tokens,
            group,
            text.as_str(),
            entries,
        )?;
    }
    Ok(())
}

// Adds the forms of live words that may follow.
fn try_words<'a>(
    alloc: Global,
    grammar: &CheckedGrammar,
    lexicon: &'a Lexicon,
    tokens: &Tokens,
    entries: &mut Vec<Entry<'a>>,
) -> Result<(), Memory>
    requires few { length tokens.now ≤ MOST_TOKENS }
    requires ordered { IsInOrder (map shown entries.old.items) }

    ensures { OnOk result (map shown entries.new.items
        ≡ all_tried (goes_on grammar.now lexicon.now tokens.now) (forms_among lexicon.now.live) (map shown entries.old.items)) }
{
    for place in 0..lexicon.len() {
        try_word(alloc, grammar, lexicon, tokens, lexicon.get(place), entries)?;
    }
    Ok(())
}

/// The menu of the tokens, of which there are at most 40: each token that may follow, with its group, in order of groups
/// and bytes, each once. A token may follow where the tokens with it at their end have a partial derivation by the
/// grammar with the words of the lexicon, with the values at that longer list. A terminal that isn't in UTF-8, which no
/// token can be, is left out. The texts are borrowed from the grammar and the lexicon. It tries each terminal and each
/// form, and lists all partial derivations, of which there may be very many.
pub fn plain_menu<'a>(
    alloc: Global,
    grammar: &'a CheckedGrammar,
    lexicon: &'a Lexicon,
    tokens: &Tokens,
) -> Result<Menu<'a>, Memory>
    requires { length tokens.now ≤ MOST_TOKENS }

    ensures menu { All IsUtf8 grammar.now.terminals → IfOk result (IsMenu grammar.now lexicon.now tokens.now) }
    ensures texts { IfOk result (IsTextMenu grammar.now lexicon.now tokens.now) }
{
    let texts = terminal_texts(alloc, grammar)?;
    let mut entries = Vec::new(alloc);
    try_terminals(
        alloc,
        grammar,
        lexicon,
        tokens,
        texts.as_slice(),
        &mut entries,
    )?;
    try_words(alloc, grammar, lexicon, tokens, &mut entries)?;
    menu_of(alloc, entries.as_slice())
}

/// How many of the tokens, of which there are at most 40, are typeable, from the first on: the greatest number for which
/// so many tokens, and each fewer, have a partial derivation, each list with the values at its own tokens.
pub fn typeable_count(
    alloc: Global,
    grammar: &CheckedGrammar,
    lexicon: &Lexicon,
    tokens: &Tokens,
) -> Result<usize, Memory>
    requires { length tokens.now ≤ MOST_TOKENS }

    ensures { IfOk result (IsTypeableCount grammar.now lexicon.now tokens.now) }
{
    let tokens = tokens.as_slice();
    let mut count = 0;
    for longer in 0..tokens.len() + 1 {
        if !is_beginning(alloc, grammar, lexicon, &tokens[..longer])? {
            return Ok(count);
        }
        count = longer;
    }
    Ok(count)
}
