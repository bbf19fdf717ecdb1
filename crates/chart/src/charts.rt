// The chart of a list of tokens that grows and shrinks at its end.
ghost use Rattle.std.specs.Prelude.{◌≡◌, ◌+◌, ◌-◌, ◌<◌, ◌≤◌, ◌↔◌, [], ◌∷◌, ◌++◌, map, take, length, true, false, All, IsUtf8, IsTrue, IfOk, OnOk, OnErr};
ghost use Rattle.wiki_base.specs.declared.tokens.TheConstants.{MOST_TOKENS};
ghost use Rattle.derivation_trees.specs.Trees.{Node};
ghost use Rattle.derivation_trees.specs.Derives.{IsDerivation};
ghost use Rattle.derivation_trees.specs.Partial.{IsBeginning};
ghost use Rattle.derivation_trees.specs.Sentences.{setting_of, IsSentence};
ghost use Rattle.lexicon.specs.Readings as lexical;
ghost use Rattle.derivation_trees.specs.Menus.{IsMenu};
ghost use Rattle.derivations.specs.Typing.{IsTextMenu};
ghost use Rattle.chart_table.specs.Choices.{EachPlan};
ghost use Rattle.chart.specs.Charts as charting;

use crate::menus::menu_for;
use chart_table::{Plan, plans_of, same_values, standing_of};
use codeco_checked::CheckedGrammar;
use codeco_terms::Ground;
use derivation_trees::{Menu, Setting, readings_of};
use lexicon::{Lexicon, Readings};
use lists::List;
use std::alloc::Global;
use std::marker::Model;
use std::rc::Rc;
use wiki_base::{Copied, Memory, Token, Tokens};

/// At most 40 tokens, with the grammar and the readings that they have been taken with. Of the tokens and of each list of
/// first ones it is kept whether they have a derivation, and of the grammar the plans of its rules. Seen as the grammar, the tokens
/// and their readings.
#[derive(Drop)]
pub struct Chart {
    grammar: CheckedGrammar,
    plans: Rc<List<Plan>>,
    tokens: Tokens,
    readings: List<Readings>,
    derives: List<bool>,
}

impl Model for Chart {
    ghost use Rattle.derivation_trees.specs.Settings as settings;
    ghost use Rattle.chart.specs.Charts as charting;

    ghost Value = { settings.Setting };

    ghost view = { λ c. record { grammar = c.grammar; tokens = c.tokens; readings = c.readings } };

    ghost invariant = { λ c. charting.IsChart (record { grammar = c.grammar; tokens = c.tokens; readings = c.readings }) c.plans.value c.derives };
}

impl Chart {
    /// The chart of no tokens, which keeps a copy of the grammar, and makes the plans of its rules.
    pub fn new(alloc: Global, grammar: &CheckedGrammar) -> Result<Chart, Memory>
        ensures { IfOk result (λ chart. chart ≡ record { grammar = grammar.now; tokens = []; readings = [] }) }
    {
        let kept = grammar.copy()?;
        let plans = Rc::new(alloc, plans_of(alloc, kept.grammar())?)?;
        let yes = derives_nothing(alloc, &kept, plans.as_ref().as_slice())?;
        let mut derives = List::new(alloc);
        derives.push(yes)?;
        Ok(Chart {
            grammar: kept,
            plans,
            tokens: Tokens::new(alloc),
            readings: List::new(alloc),
            derives,
        })
    }

    /// The tokens, of which there are at most 40.
    pub fn tokens(&self) -> &Tokens
        ensures tokens { result.now ≡ self.now.tokens }
        ensures few { length result.now ≤ MOST_TOKENS }
    {
        &self.tokens
    }

    /// Adds the token, of which the lexicon gives the readings, and tells whether the longer list has a partial derivation.
    /// The grammar has to be the one that is kept, and the lexicon has to give the readings that are kept.
    pub fn advance(
        &mut self,
        grammar: &CheckedGrammar,
        lexicon: &Lexicon,
        token: &Token,
    ) -> Result<bool, Memory>
        requires kept { self.old ≡ setting_of grammar.now lexicon.now self.old.tokens }
        requires room { length self.old.tokens < MOST_TOKENS }
        ensures added { OnOk result (self.new ≡ setting_of grammar.now lexicon.now (self.old.tokens ++ token.now ∷ [])) }
        ensures begins { IfOk result (λ yes. IsTrue yes ↔ IsBeginning grammar.now lexicon.now (self.old.tokens ++ token.now ∷ [])) }
        ensures unchanged { OnErr result (self.new ≡ self.old) }
    {
        let tokens = with_token(&self.tokens, token)?;
        let step = step_to(grammar, lexicon, &tokens, self.plans.as_ref().as_slice())?;
        self.derives.push(step.derives)?;
        self.tokens = tokens;
        self.readings = step.readings;
        Ok(step.begins)
    }

    /// The menu of the tokens: each token that may follow, with its group, in order of groups and bytes, each once. A token may
    /// follow where the tokens with it at their end have a partial derivation, with the values at that longer list. A
    /// terminal that isn't in UTF-8, which no token can be, is left out. Two tables tell all that may follow, whatever the number
    /// of words, where the terminals are those of the lexicon. The grammar has to be the one that is kept, and the lexicon has to
    /// give the readings that are kept.
    pub fn menu<'a>(
        &self,
        grammar: &'a CheckedGrammar,
        lexicon: &'a Lexicon,
    ) -> Result<Menu<'a>, Memory>
        requires kept { self.now ≡ setting_of grammar.now lexicon.now self.now.tokens }
        ensures menu { All IsUtf8 grammar.now.terminals → IfOk result (IsMenu grammar.now lexicon.now self.now.tokens) }
        ensures texts { IfOk result (IsTextMenu grammar.now lexicon.now self.now.tokens) }
    {
        let alloc = self.tokens.allocator();
        menu_for(
            alloc,
            grammar,
            lexicon,
            &self.tokens,
            self.readings.as_slice(),
            self.plans.as_ref().as_slice(),
        )
    }

    /// The chart of the tokens before the first whose readings by the lexicon are other than those that are kept, with the grammar
    /// that is kept and its plans, which the two share. What is known of these tokens is copied, and no table is made.
    pub fn unchanged(&self, lexicon: &Lexicon) -> Result<Chart, Memory>
        ensures front { IfOk result (λ chart. chart ≡ charting.first_of self.now (length chart.tokens)) }
        ensures within { IfOk result (λ chart. length chart.tokens ≤ length self.now.tokens) }
        ensures kept { IfOk result (λ chart. chart ≡ setting_of self.now.grammar lexicon.now chart.tokens) }
    {
        let alloc = self.tokens.allocator();
        let count = same_count(lexicon, self.tokens.as_slice(), self.readings.as_slice());
        let tokens = List::copied(alloc, &self.tokens.as_slice()[..count])?;
        let readings = List::from_vec(readings_of(alloc, lexicon, tokens.as_slice())?);
        let derives = List::from_slice(alloc, &self.derives.as_slice()[..count + 1])?;
        Ok(Chart {
            grammar: self.grammar.copy()?,
            plans: self.plans.clone()?,
            tokens,
            readings,
            derives,
        })
    }

    /// Drops the last token; false on no tokens. Takes no memory.
    pub fn back(&mut self) -> bool
        ensures none { result ≡ false → (self.old.tokens ≡ []) × (self.new ≡ self.old) }
        ensures last { result ≡ true → (0 < length self.old.tokens) × (self.new ≡ charting.first_of self.old (length self.old.tokens - 1)) }
    {
        let count = self.tokens.len();
        if count == 0 {
            return false;
        }
        self.tokens.truncate(count - 1);
        self.readings.truncate(count - 1);
        self.derives.truncate(count);
        true
    }

    /// Whether the tokens have a derivation. Takes no memory.
    pub fn complete(&self) -> bool
        ensures { IsTrue result ↔ ((tree : Node) × IsDerivation self.now tree) }
    {
        *self.derives.get(self.tokens.len())
    }
}

// Whether no tokens have a derivation. The plans are those of the grammar's rules.
fn derives_nothing(alloc: Global, grammar: &CheckedGrammar, plans: &[Plan]) -> Result<bool, Memory>
    requires { EachPlan grammar.now grammar.now.rules plans.now }
    ensures { IfOk result
        (λ yes. IsTrue yes ↔ ((tree : Node) × IsDerivation (record { grammar = grammar.now; tokens = []; readings = [] }) tree)) }
{
    let setting = Setting {
        grammar: grammar.grammar(),
        tokens: &[],
        readings: &[],
    };
    let standing = standing_of(alloc, &setting, plans)?;
    Ok(standing.derives)
}

fn same_ground(one: &Ground, other: &Ground) -> bool
    ensures { IsTrue result → one.now ≡ other.now }
{
    one.name == other.name && same_values(one.vals.as_slice(), other.vals.as_slice())
}

fn read_same(one: &[Ground], other: &[Ground]) -> bool
    ensures { IsTrue result → one.now ≡ other.now }
{
    if one.len() != other.len() {
        return false;
    }
    for (place, reading) in one.iter().enumerate() {
        if !same_ground(reading, &other[place]) {
            return false;
        }
    }
    true
}

// How many of the first tokens read by the lexicon as these readings tell.
fn same_count(lexicon: &Lexicon, tokens: &[Token], readings: &[Readings]) -> usize
    requires { length readings.now ≡ length tokens.now }
    ensures within { result ≤ length tokens.now }
    ensures same { take result readings.now ≡ map (lexical.readings_of lexicon.now.live) (take result tokens.now) }
{
    for (place, token) in tokens.iter().enumerate() {
        let read = lexicon.readings(token.as_str());
        if !read_same(readings[place].as_slice(), read.as_slice()) {
            return place;
        }
    }
    tokens.len()
}

fn with_token(tokens: &Tokens, token: &Token) -> Result<Tokens, Memory>
    ensures { IfOk result (λ longer. longer ≡ tokens.now ++ token.now ∷ []) }
{
    let mut longer = tokens.copy()?;
    longer.push(token.copy()?)?;
    Ok(longer)
}

// The readings of tokens, and what the tokens are to the grammar.
#[derive(Drop)]
struct Step {
    readings: List<Readings>,
    begins: bool,
    derives: bool,
}

fn step_to(
    grammar: &CheckedGrammar,
    lexicon: &Lexicon,
    tokens: &Tokens,
    plans: &[Plan],
) -> Result<Step, Memory>
    requires few { length tokens.now ≤ MOST_TOKENS }
    requires plans { EachPlan grammar.now grammar.now.rules plans.now }
    ensures readings { IfOk result (λ step. step.readings ≡ map (lexical.readings_of lexicon.now.live) tokens.now) }
    ensures begins { IfOk result (λ step. IsTrue step.begins ↔ IsBeginning grammar.now lexicon.now tokens.now) }
    ensures derives { IfOk result (λ step. IsTrue step.derives ↔ IsSentence grammar.now lexicon.now tokens.now) }
{
    let alloc = tokens.allocator();
    let readings = List::from_vec(readings_of(alloc, lexicon, tokens.as_slice())?);
    let setting = Setting {
        grammar: grammar.grammar(),
        tokens: tokens.as_slice(),
        readings: readings.as_slice(),
    };
    let standing = standing_of(alloc, &setting, plans)?;
    Ok(Step {
        readings,
        begins: standing.begins,
        derives: standing.derives,
    })
}
