// Which tokens may follow, by what is asked for where the tokens end: by one table for terminals and for forms of words among
// the tokens, and by another for the forms of all other words.
ghost use Rattle.std.specs.Prelude.{◌≡◌, ◌&&◌, ℕ, ◌≤◌, ◌<◌, ◌∷◌, [], ◌++◌, length, map, filter, true, false, IfOk, OnOk, IfSome, IfNone, Some, slice_get, slice_index_or, IsTrue, ◌⊎◌};
ghost use Rattle.std.specs.Str.{bytes_eq};
ghost use Rattle.wiki_base.specs.declared.tokens.TheConstants.{MOST_TOKENS};
ghost use Rattle.lexicon.specs.Readings as lexical;
ghost use Rattle.lexicon.specs.Words.{IsLexicon};
ghost use Rattle.lexicon.specs.declared.words.Word.{Word as TheEntry};
ghost use Rattle.derivations.specs.Entries.{shown, texts_of, forms_in, functions_in};
ghost use Rattle.chart_table.specs.Choices.{EachPlan};
ghost use Rattle.chart.specs.Offers as offers;

use crate::classes::{class_asks, class_of, form_ask};
use crate::entries::Entry;
use crate::used::Used;
use chart_table::{Ask, Plan, may_follow};
use codeco_checked::CheckedGrammar;
use codeco_terms::Symbol;
use derivation_trees::{Group, Setting, readings_of};
use lexicon::{Lexicon, Readings, Word};
use lists::List;
use std::alloc::Global;
use wiki_base::{Copied, Memory, Token, Tokens};

// The tokens that stand before the one that is asked for, with the words that have a form among them; and the grammar, with the
// plans of its rules.
#[derive(Clone, Copy)]
pub(crate) struct Before<'a> {
    pub(crate) grammar: &'a CheckedGrammar,
    pub(crate) plans: &'a [Plan],
    pub(crate) tokens: &'a Tokens,
    pub(crate) used: &'a Used<'a>,
}

// What is told of the asks by the table of the tokens and one more, which has these readings.
fn told_of(
    alloc: Global,
    lexicon: &Lexicon,
    before: &Before<'_>,
    last: Readings,
    asks: &[Ask],
) -> Result<List<bool>, Memory>
    requires few { length before.now.tokens.now ≤ MOST_TOKENS }
    requires plans { EachPlan before.now.grammar.now before.now.grammar.now.rules before.now.plans.now }
    ensures { IfOk result (offers.Told
        (offers.with_last before.now.grammar.now before.now.tokens.now
        (map (lexical.readings_of lexicon.now.live) before.now.tokens.now) (120 ∷ []) last)
        (length before.now.tokens.now) asks.now) }
{
    let tokens = before.tokens;
    let mut longer = tokens.copy()?;
    longer.push(Token::from_str(alloc, "x")?)?;
    let mut readings = List::from_vec(readings_of(alloc, lexicon, tokens.as_slice())?);
    readings.push(last)?;
    let setting = Setting {
        grammar: before.grammar.grammar(),
        tokens: longer.as_slice(),
        readings: readings.as_slice(),
    };
    may_follow(alloc, &setting, before.plans, tokens.len(), asks)
}

// The asks for the terminals.
fn terminal_asks(alloc: Global, terminals: &[Symbol]) -> Result<List<Ask>, Memory>
    requires { length terminals.now ≤ 65535 }
    ensures { IfOk result (λ asks. asks ≡ offers.terminal_asks 0 terminals.now) }
{
    let mut asks = List::new(alloc);
    for number in 0..terminals.len() {
        asks.push(Ask::Terminal(number as u16))?;
    }
    Ok(asks)
}

// Adds the forms of the word, and the asks for them.
fn ask_forms<'a>(
    word: &'a Word,
    forms: &mut Vec<Entry<'a>>,
    asks: &mut List<Ask>,
) -> Result<(), Memory>
    ensures forms { OnOk result (map shown forms.new.items ≡ map shown forms.old.items ++ forms_in word.now) }
    ensures asks { OnOk result (asks.new ≡ asks.old ++ offers.form_asks word.now.forms.kind word.now.id 0 word.now.forms.texts) }
{
    let group = Group::of_kind(word.forms.kind);
    for (place, text) in word.forms.texts.as_slice().iter().enumerate() {
        forms.push((group, text.as_str()))?;
        asks.push(form_ask(word.forms.kind, word.id, place, text.as_str().as_bytes()))?;
    }
    Ok(())
}

// Adds the forms of words that have a form among the tokens, and the asks for them.
fn ask_used<'a>(
    lexicon: &'a Lexicon,
    used: &Used<'_>,
    forms: &mut Vec<Entry<'a>>,
    asks: &mut List<Ask>,
) -> Result<(), Memory>
    ensures forms { OnOk result (map shown forms.new.items ≡ map shown forms.old.items ++ offers.used_forms used.now lexicon.now.live) }
    ensures asks { OnOk result (asks.new ≡ asks.old ++ offers.used_asks used.now lexicon.now.live) }
{
    for place in 0..lexicon.len() {
        let word = lexicon.get(place);
        if used.has(word.id) {
            ask_forms(word, forms, asks)?;
        }
    }
    Ok(())
}

// What is told of the ask with the number; false past the last one.
fn is_told(told: &[bool], number: usize) -> bool
    ensures { result ≡ slice_index_or told.now number false }
{
    number < told.len() && told[number]
}

// Whether the text is the terminal with the number, and it is told that it may follow.
fn follows_as(text: &str, terminal: &Symbol, told: &[bool], number: usize) -> bool
    ensures { result ≡ (bytes_eq text.now terminal.now && slice_index_or told.now number false) }
{
    text.as_bytes() == terminal.as_bytes() && is_told(told, number)
}

// Whether the text is one of the terminals, and it is told that this one may follow.
fn some_follows(text: &str, terminals: &[Symbol], told: &[bool]) -> bool
    ensures { result ≡ offers.some_follows text.now terminals.now told.now }
{
    for (number, terminal) in terminals.iter().enumerate() {
        if follows_as(text, terminal, told, number) {
            return true;
        }
    }
    false
}

// Adds the texts that are terminals of which it is told that they may follow.
fn add_terminals<'a>(
    texts: &[&'a str],
    terminals: &[Symbol],
    told: &[bool],
    found: &mut Vec<Entry<'a>>,
) -> Result<(), Memory>
    ensures { OnOk result (map shown found.new.items ≡ map shown found.old.items
        ++ functions_in (filter (λ text. offers.some_follows text terminals.now told.now) (texts_of texts.now))) }
{
    for text in texts {
        if some_follows(*text, terminals, told) {
            found.push((Group::Function, *text))?;
        }
    }
    Ok(())
}

// Adds those of the forms of which it is told that they may follow.
fn add_chosen<'a>(
    forms: &[Entry<'a>],
    told: &[bool],
    found: &mut Vec<Entry<'a>>,
) -> Result<(), Memory>
    ensures { OnOk result (map shown found.new.items ≡ map shown found.old.items ++ offers.chosen (map shown forms.now) told.now) }
{
    for (number, form) in forms.iter().enumerate() {
        if is_told(told, number) {
            found.push(*form)?;
        }
    }
    Ok(())
}

// Adds the terminals, and the forms of words among the tokens, that may follow.
pub(crate) fn add_known<'a>(
    alloc: Global,
    lexicon: &'a Lexicon,
    before: &Before<'_>,
    texts: &[&'a str],
    found: &mut Vec<Entry<'a>>,
) -> Result<(), Memory>
    requires few { length before.now.tokens.now ≤ MOST_TOKENS }
    requires terminals { length before.now.grammar.now.terminals ≤ 65535 }
    requires used { before.now.used.now ≡ map (lexical.readings_of lexicon.now.live) before.now.tokens.now }
    requires plans { EachPlan before.now.grammar.now before.now.grammar.now.rules before.now.plans.now }
    ensures { OnOk result (offers.KnownFound before.now.grammar.now lexicon.now.live before.now.tokens.now (texts_of texts.now)
        (map shown found.old.items) (map shown found.new.items)) }
{
    let terminals = before.grammar.grammar().terminals().as_slice();
    let count = terminals.len();
    let mut asks = terminal_asks(alloc, terminals)?;
    let mut forms = Vec::new(alloc);
    ask_used(lexicon, before.used, &mut forms, &mut asks)?;
    let told = told_of(alloc, lexicon, before, Readings::none(), asks.as_slice())?;
    let (terminals_told, forms_told) = told.as_slice().split_at(count);
    add_terminals(texts, terminals, terminals_told, found)?;
    add_chosen(forms.as_slice(), forms_told, found)?;
    Ok(())
}

// The place of the first word without a form among the tokens.
fn first_new(lexicon: &Lexicon, used: &Used<'_>) -> Option<usize>
    ensures new { IfSome result (λ place. (place < length lexicon.now.live)
        × ((word : TheEntry) → slice_get lexicon.now.live place ≡ Some word → offers.is_used used.now word.id ≡ false)) }
    ensures lexicon { IsLexicon lexicon.now }
    ensures none { IfNone result ((place : ℕ) (word : TheEntry) → slice_get lexicon.now.live place ≡ Some word → offers.is_used used.now word.id ≡ true) }
{
    for place in 0..lexicon.len() {
        if !used.has(lexicon.get(place).id) {
            return Some(place);
        }
    }
    None
}

// Adds the forms of the word of whose class it is told that they may follow.
fn add_forms<'a>(word: &'a Word, told: &[bool], found: &mut Vec<Entry<'a>>) -> Result<(), Memory>
    ensures { OnOk result (map shown found.new.items ≡ map shown found.old.items
        ++ offers.told_forms told.now word.now.forms.kind 0 word.now.forms.texts) }
{
    let kind = word.forms.kind;
    let group = Group::of_kind(kind);
    for (place, text) in word.forms.texts.as_slice().iter().enumerate() {
        if is_told(told, class_of(kind, place, text.as_str().as_bytes())) {
            found.push((group, text.as_str()))?;
        }
    }
    Ok(())
}

// Adds the forms of words without a form among the tokens, of whose class it is told that they may follow.
fn add_words<'a>(
    lexicon: &'a Lexicon,
    used: &Used<'_>,
    told: &[bool],
    found: &mut Vec<Entry<'a>>,
) -> Result<(), Memory>
    ensures { OnOk result (map shown found.new.items ≡ map shown found.old.items
        ++ offers.new_forms used.now told.now lexicon.now.live) }
{
    for place in 0..lexicon.len() {
        let word = lexicon.get(place);
        if !used.has(word.id) {
            add_forms(word, told, found)?;
        }
    }
    Ok(())
}

// Adds the forms that may follow of words without a form among the tokens.
pub(crate) fn add_new<'a>(
    alloc: Global,
    lexicon: &'a Lexicon,
    before: &Before<'_>,
    found: &mut Vec<Entry<'a>>,
) -> Result<(), Memory>
    requires few { length before.now.tokens.now ≤ MOST_TOKENS }
    requires used { before.now.used.now ≡ map (lexical.readings_of lexicon.now.live) before.now.tokens.now }
    requires plans { EachPlan before.now.grammar.now before.now.grammar.now.rules before.now.plans.now }
    ensures found { OnOk result (
        offers.NoneNew lexicon.now.live before.now.tokens.now (map shown found.old.items) (map shown found.new.items)
        ⊎ offers.NewFound before.now.grammar.now lexicon.now.live before.now.tokens.now (map shown found.old.items) (map shown found.new.items)) }
    ensures lexicon { OnOk result (IsLexicon lexicon.now) }
{
    let used = before.used;
    let Some(place) = first_new(lexicon, used) else {
        return Ok(());
    };
    let word = lexicon.get(place);
    let form = word.forms.texts.get(0);
    let last = lexicon.readings(form.as_str());
    let told = told_of(alloc, lexicon, before, last, &class_asks(word.id))?;
    add_words(lexicon, used, told.as_slice(), found)
}
