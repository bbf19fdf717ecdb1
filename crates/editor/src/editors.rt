// An editor of one sentence.
ghost use Rattle.std.specs.Prelude.{◌≡◌, ◌+◌, ◌-◌, ◌<◌, ◌≤◌, ◌↔◌, [], ◌∷◌, ◌++◌, ℕ, length, take, filter, nat_eq, true, false, All, IsUtf8, IsTrue, IfOk, OnOk, OnErr, Err};
ghost use Rattle.std.specs.List.{starts_with};
ghost use Rattle.wiki_base.specs.declared.tokens.TheConstants.{MOST_TOKENS};
ghost use Rattle.derivation_trees.specs.Trees.{Node};
ghost use Rattle.derivation_trees.specs.Derives.{IsDerivation};
ghost use Rattle.derivation_trees.specs.Partial.{IsTypeable};
ghost use Rattle.derivation_trees.specs.Sentences.{setting_of};
ghost use Rattle.derivation_trees.specs.Menus.{IsMenu};
ghost use Rattle.derivations.specs.Typing.{IsTextMenu};
ghost use Rattle.chart.specs.Charts as charting;
ghost use Rattle.editor.specs.Rebasing.{IsRebased};

use crate::faults::TypeFault;
use crate::typing::{is_known, read};
use chart::Chart;
use codeco_checked::CheckedGrammar;
use derivation_trees::Menu;
use lexicon::Lexicon;
use std::alloc::Global;
use std::marker::Model;
use wiki_base::{Memory, Token, Tokens};

/// At most 40 tokens, each typed from the menu of those before it, with the grammar and the readings that they were typed
/// with. By these the tokens and each of their prefixes have a partial derivation. Seen as the grammar, the tokens and
/// their readings.
#[derive(Drop)]
pub struct Editor {
    chart: Chart,
}

impl Model for Editor {
    ghost use Rattle.derivation_trees.specs.Settings as settings;
    ghost use Rattle.editor.specs.Editing.{IsEdited};

    ghost Value = { settings.Setting };

    ghost view = { λ e. e.chart };

    ghost invariant = { λ e. IsEdited e.chart };
}

impl Editor {
    ghost use Rattle.editor.specs.Editing.{IsEdited, typed, IsInMenu};

    /// The editor of no tokens, which keeps a copy of the grammar.
    pub fn new(alloc: Global, grammar: &CheckedGrammar) -> Result<Editor, Memory>
        ensures empty { IfOk result (λ editor. editor ≡ record { grammar = grammar.now; tokens = []; readings = [] }) }
        ensures edited { IfOk result IsEdited }
    {
        let chart = Chart::new(alloc, grammar)?;
        let _ = grammar.grammar();
        Ok(Editor { chart })
    }

    /// The tokens.
    pub fn tokens(&self) -> &Tokens
        ensures tokens { result.now ≡ self.now.tokens }
        ensures edited { IsEdited self.now }
    {
        self.chart.tokens()
    }

    /// Whether the tokens have a derivation. Takes no memory.
    pub fn complete(&self) -> bool
        ensures { IsTrue result ↔ ((tree : Node) × IsDerivation self.now tree) }
    {
        self.chart.complete()
    }

    /// Adds the text as a token, if it is in the menu of the tokens; a first one may be a terminal with its first letter
    /// raised to upper case. The grammar has to be the one that is kept, and the lexicon has to give the readings that are kept.
    pub fn type_token(
        &mut self,
        grammar: &CheckedGrammar,
        lexicon: &Lexicon,
        text: &str,
    ) -> Result<(), TypeFault>
        requires kept { self.old ≡ setting_of grammar.now lexicon.now self.old.tokens }
        requires room { length self.old.tokens < MOST_TOKENS }

        ensures added { OnOk result (self.new
            ≡ setting_of grammar.now lexicon.now (self.old.tokens ++ typed grammar.now.terminals self.old.tokens text.now ∷ [])) }
        ensures offered { OnOk result (IsInMenu grammar.now lexicon.now self.old.tokens (typed grammar.now.terminals self.old.tokens text.now)) }
        ensures refused { result ≡ Err TypeFault.NotOffered
            → ¬ IsInMenu grammar.now lexicon.now self.old.tokens (typed grammar.now.terminals self.old.tokens text.now) }
        ensures unchanged { OnErr result (self.new ≡ self.old) }
    {
        let alloc = self.chart.tokens().allocator();
        let text = read(alloc, grammar, self.chart.tokens(), text)?;
        if !is_known(grammar, lexicon, text.as_str()) {
            return Err(TypeFault::NotOffered);
        }
        let token = Token::from_str(alloc, text.as_str())?;
        let offered = self.chart.advance(grammar, lexicon, &token)?;
        if offered {
            return Ok(());
        }
        self.chart.back();
        Err(TypeFault::NotOffered)
    }

    /// Drops the last token; false on no tokens. Takes no memory.
    pub fn back(&mut self) -> bool
        ensures none { result ≡ false → (self.old.tokens ≡ []) × (self.new ≡ self.old) }
        ensures last { result ≡ true → (0 < length self.old.tokens) × (self.new ≡ charting.first_of self.old (length self.old.tokens - 1)) }
    {
        self.chart.back()
    }

    /// Drops all tokens. Takes no memory.
    pub fn clear(&mut self)
        ensures { self.new ≡ record { grammar = self.old.grammar; tokens = []; readings = [] } }
    {
        empty(&mut self.chart);
    }

    /// The menu of the tokens: each token that may follow, with its group, in order of groups and bytes, each once. A
    /// terminal that isn't in UTF-8, which no token can be, is left out. The texts are borrowed from the grammar and the
    /// lexicon. The grammar has to be the one that is kept, and the lexicon has to give the readings that are kept.
    pub fn menu<'a>(
        &self,
        grammar: &'a CheckedGrammar,
        lexicon: &'a Lexicon,
    ) -> Result<Menu<'a>, Memory>
        requires { self.now ≡ setting_of grammar.now lexicon.now self.now.tokens }

        ensures menu { All IsUtf8 grammar.now.terminals → IfOk result (IsMenu grammar.now lexicon.now self.now.tokens) }
        ensures texts { IfOk result (IsTextMenu grammar.now lexicon.now self.now.tokens) }
    {
        self.chart.menu(grammar, lexicon)
    }

    /// The entries of a menu whose texts begin with a prefix, in order. No text is copied.
    pub fn filter<'a>(alloc: Global, menu: &Menu<'a>, prefix: &str) -> Result<Menu<'a>, Memory>
        ensures { IfOk result (λ kept. kept ≡ filter (λ entry. starts_with nat_eq entry.1 prefix.now) menu.now) }
    {
        let mut kept = Menu::new(alloc);
        for place in 0..menu.len() {
            let (group, text) = menu.get(place);
            if text.as_bytes().starts_with(prefix.as_bytes()) {
                kept.push(group, text)?;
            }
        }
        Ok(kept)
    }

    /// An editor of the longest prefix of the tokens that is typeable by the grammar with the words of the lexicon, and how
    /// many tokens are left out.
    pub fn rebase(
        &self,
        grammar: &CheckedGrammar,
        lexicon: &Lexicon,
    ) -> Result<(Editor, u32), Memory>
        ensures kept { IfOk result (λ rebased. rebased.0 ≡ setting_of grammar.now lexicon.now rebased.0.tokens) }
        ensures tokens { IfOk result (λ rebased. IsRebased grammar.now lexicon.now self.now.tokens rebased.0.tokens) }
        ensures left_out { IfOk result (λ rebased. length rebased.0.tokens + rebased.1 ≡ length self.now.tokens) }
        ensures edited { IfOk result (λ rebased. IsEdited rebased.0) }
    {
        let tokens = self.chart.tokens();
        let chart = longest(tokens.allocator(), grammar, lexicon, tokens.as_slice())?;
        let left_out = tokens.len() - chart.tokens().len();
        Ok((Editor { chart }, left_out as u32))
    }

    /// The same, where the grammar is the one that is kept. The tokens before the first that reads otherwise by the lexicon stay
    /// typeable, and no table is made for them.
    pub fn reread(
        &self,
        grammar: &CheckedGrammar,
        lexicon: &Lexicon,
    ) -> Result<(Editor, u32), Memory>
        requires { self.now.grammar ≡ grammar.now }
        ensures kept { IfOk result (λ rebased. rebased.0 ≡ setting_of grammar.now lexicon.now rebased.0.tokens) }
        ensures tokens { IfOk result (λ rebased. IsRebased grammar.now lexicon.now self.now.tokens rebased.0.tokens) }
        ensures left_out { IfOk result (λ rebased. length rebased.0.tokens + rebased.1 ≡ length self.now.tokens) }
        ensures edited { IfOk result (λ rebased. IsEdited rebased.0) }
    {
        let tokens = self.chart.tokens();
        let front = self.chart.unchanged(lexicon)?;
        let chart = extended(front, grammar, lexicon, tokens.as_slice())?;
        let left_out = tokens.len() - chart.tokens().len();
        Ok((Editor { chart }, left_out as u32))
    }
}

// Drops all tokens of the chart.
fn empty(chart: &mut Chart)
    requires { length chart.old.readings ≡ length chart.old.tokens }
    ensures { chart.new ≡ record { grammar = chart.old.grammar; tokens = []; readings = [] } }
{
    while chart.back() {}
}

// A chart of the longest prefix of the tokens that is typeable.
fn longest(
    alloc: Global,
    grammar: &CheckedGrammar,
    lexicon: &Lexicon,
    tokens: &[Token],
) -> Result<Chart, Memory>
    requires { length tokens.now ≤ MOST_TOKENS }
    ensures kept { IfOk result (λ chart. chart ≡ setting_of grammar.now lexicon.now chart.tokens) }
    ensures tokens { IfOk result (λ chart. IsRebased grammar.now lexicon.now tokens.now chart.tokens) }
{
    let chart = Chart::new(alloc, grammar)?;
    let _ = grammar.grammar();
    extended(chart, grammar, lexicon, tokens)
}

// The chart, which has the first of the tokens, with those after it as far as they go on.
fn extended(
    chart: Chart,
    grammar: &CheckedGrammar,
    lexicon: &Lexicon,
    tokens: &[Token],
) -> Result<Chart, Memory>
    requires few { length tokens.now ≤ MOST_TOKENS }
    requires front { chart ≡ setting_of grammar.now lexicon.now (take (length chart.tokens) tokens.now) }
    requires typeable { IsTypeable grammar.now lexicon.now (take (length chart.tokens) tokens.now) }
    ensures kept { IfOk result (λ chart. chart ≡ setting_of grammar.now lexicon.now chart.tokens) }
    ensures tokens { IfOk result (λ chart. IsRebased grammar.now lexicon.now tokens.now chart.tokens) }
{
    let mut chart = chart;
    for place in chart.tokens().len()..tokens.len() {
        // No table is made for a token that nothing can read.
        let token = &tokens[place];
        let known = is_known(grammar, lexicon, token.as_str());
        if !known {
            return Ok(chart);
        }
        let goes_on = chart.advance(grammar, lexicon, token)?;
        if !goes_on {
            chart.back();
            return Ok(chart);
        }
    }
    Ok(chart)
}
