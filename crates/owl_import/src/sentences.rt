// What becomes of axioms.
ghost use Rattle.std.specs.Prelude.{◌≡◌, ◌++◌, [], IfOk, OnOk, IsTrue, option_copied};
ghost use Rattle.codeco_checked.specs.Sound.{is_labelled};
ghost use Rattle.lexicon.specs.Words.{IsLexicon};
ghost use Rattle.ace_grammar.specs.Grammar.{ace_grammar};
ghost use Rattle.logic_terms.specs.Shown.{claim_of, claims_of};
ghost use Rattle.owl_import.specs.Sentences.{word_named, first_word, left_out, left_line};
ghost use Rattle.owl_import.specs.Steps.{TellsSentence, IsSomeSentence, AddsLine, SortsOne, SortsAll};

use crate::calling::{Called, axiom_text};
use codeco_checked::CheckedGrammar;
use derivation_trees::show;
use lexicon::Lexicon;
use logic_terms::{Axiom, Axioms};
use std::alloc::Global;
use std::marker::Model;
use verbalise::{Spoken, say};
use wiki_base::{Memory, Spelled, Text8, Tokens};
use wiki_talk::{ArticleRequest, MOST_SENTENCES, Request};
use wire_json::request_line;

/// The lines that were written so far.
#[derive(Drop)]
pub(crate) struct Lines {
    /// Requests.
    pub requests: Text8,
    /// A line for each axiom that was left out.
    pub left_out: Vec<u8>,
    // How many of the requests add a sentence.
    count: u32,
}

impl Model for Lines {
    ghost use Rattle.owl_import.specs.Steps.{Written};

    ghost Value = { Written };

    ghost view = { λ l. record { requests = l.requests; left_out = l.left_out.items; count = l.count } };
}

impl Lines {
    /// These requests, of which none adds a sentence.
    pub(crate) fn new(alloc: Global, requests: Text8) -> Lines
        ensures { result ≡ record { requests = requests; left_out = []; count = 0 } }
    {
        Lines {
            requests,
            left_out: Vec::new(alloc),
            count: 0,
        }
    }

    /// Writes the line of each axiom: a request where it has a sentence and not too many are added, and else a line that tells
    /// that it is left out.
    pub(crate) fn sort_all(
        &mut self,
        alloc: Global,
        grammar: &CheckedGrammar,
        called: &Called<'_>,
        axioms: &Axioms,
    ) -> Result<(), Memory>
        requires grammar { grammar.now ≡ ace_grammar }
        requires labelled { IsTrue (is_labelled grammar.now) }
        requires terminals { called.now.words.now.terminals ≡ grammar.now.terminals }
        requires none { self.old.count ≡ 0 }
        ensures { OnOk result (SortsAll grammar.now called.now.words.now called.now.iris.now (claims_of axioms.now) self.old self.new) }
    {
        for place in 0..axioms.len() {
            self.sort(alloc, grammar, called, axioms.get(place), place + 1)?;
        }
        Ok(())
    }

    // Writes the line of an axiom with this number.
    fn sort(
        &mut self,
        alloc: Global,
        grammar: &CheckedGrammar,
        called: &Called<'_>,
        axiom: &Axiom,
        number: usize,
    ) -> Result<(), Memory>
        requires grammar { grammar.now ≡ ace_grammar }
        requires labelled { IsTrue (is_labelled grammar.now) }
        requires terminals { called.now.words.now.terminals ≡ grammar.now.terminals }
        ensures { OnOk result (SortsOne grammar.now called.now.words.now called.now.iris.now number (claim_of «axiom».now) self.old self.new) }
    {
        if self.count >= MOST_SENTENCES {
            return put_left_out(alloc, &mut self.left_out, called, axiom, number);
        }
        match sentence_of(alloc, grammar, called.words, axiom)? {
            Some(tokens) => {
                put_added(alloc, &mut self.requests, grammar, called.words, &tokens)?;
                self.count += 1;
                Ok(())
            }
            None => put_left_out(alloc, &mut self.left_out, called, axiom, number),
        }
    }
}

// The sentence of an axiom, if it has one.
fn sentence_of(
    alloc: Global,
    grammar: &CheckedGrammar,
    words: &Lexicon,
    axiom: &Axiom,
) -> Result<Option<Tokens>, Memory>
    requires { IsTrue (is_labelled grammar.now) }
    ensures { IfOk result (TellsSentence grammar.now words.now (claim_of «axiom».now)) }
{
    match say(grammar, words, axiom)? {
        Spoken::Sentence(tokens) => Ok(Some(tokens)),
        Spoken::NoPattern => Ok(None),
        Spoken::TooLong(_) => Ok(None),
        Spoken::ReadOtherwise(_, _) => Ok(None),
    }
}

// Adds the line that adds a sentence to the article of its first word.
fn put_added(
    alloc: Global,
    out: &mut Text8,
    grammar: &CheckedGrammar,
    words: &Lexicon,
    tokens: &Tokens,
) -> Result<(), Memory>
    requires grammar { grammar.now ≡ ace_grammar }
    requires terminals { words.now.terminals ≡ grammar.now.terminals }
    requires sentence { IsSomeSentence grammar.now words.now tokens.now }
    ensures { OnOk result (AddsLine grammar.now words.now tokens.now out.old out.new) }
{
    keeps_rules(words);
    let Some(article) = first_word(words, tokens) else {
        unreachable!()
    };
    let request = Request::OnArticle {
        article: Text8::from_str(alloc, article)?,
        asked: ArticleRequest::Add {
            at: None,
            text: show(alloc, grammar.grammar(), tokens)?,
        },
    };
    let line = request_line(alloc, &request)?;
    out.push_str(line.as_str())
}

// What is true of every lexicon.
fn keeps_rules(words: &Lexicon)
    ensures { IsLexicon words.now }
{
    let _ = words.len();
}

// The form that names the first word of a sentence.
fn first_word<'a>(words: &'a Lexicon, tokens: &Tokens) -> Option<&'a str>
    ensures { option_copied result ≡ first_word words.now.live tokens.now }
{
    for token in tokens.as_slice() {
        if let Some(form) = word_named(words, token.as_str()) {
            return Some(form);
        }
    }
    None
}

// The form that names the word of which the token is a form.
fn word_named<'a>(words: &'a Lexicon, token: &str) -> Option<&'a str>
    ensures { option_copied result ≡ word_named words.now.live token.now }
{
    match words.find(token) {
        Some(id) => words.spelled(id),
        None => None,
    }
}

// Adds the line of an axiom with this number, which is left out.
fn put_left_out(
    alloc: Global,
    out: &mut Vec<u8>,
    called: &Called<'_>,
    axiom: &Axiom,
    number: usize,
) -> Result<(), Memory>
    ensures { OnOk result (out.new.items ≡ out.old.items ++ left_line called.now.words.now called.now.iris.now (left_out number (claim_of «axiom».now))) }
{
    let text = axiom_text(alloc, called, axiom)?;
    let number = format!(in alloc; "{number} ")?;
    out.extend_from_slice(number.as_bytes())?;
    out.extend_from_slice(&text)?;
    out.push(b'\n')?;
    Ok(())
}
