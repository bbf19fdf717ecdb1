// Which tokens are sentences.
ghost use Rattle.std.specs.Prelude.{◌≡◌, ◌≤◌, ◌+◌, ◌<◌, ◌==◌, ◌↔◌, ℕ, Bool, [], length, map, slice_get, Some, IfOk, IsTrue};
ghost use Rattle.std.specs.List.{list_any, range_with_len};
ghost use Rattle.derivation_trees.specs.Trees.{Node};
ghost use Rattle.derivation_trees.specs.Derives.{IsDerivation, text_category};
ghost use Rattle.derivation_trees.specs.Sentences.{IsSentence};
ghost use Rattle.derivation_trees.specs.Partial.{CutNode, IsPartialDerivation, IsBeginning};
ghost use Rattle.wiki_base.specs.declared.tokens.TheConstants.{MOST_TOKENS};
ghost use Rattle.chart_table.specs.declared.asks.Ask.{Ask as OneAsk};
ghost use Rattle.chart_table.specs.Asks.{AskLeads};
ghost use Rattle.chart_table.specs.Choices as choosing;
ghost use Rattle.chart_table.specs.Table as tables;

use crate::asks::Ask;
use crate::choices::{Plan, plans_of};
use crate::rows::Rows;
use crate::scene::Scene;
use crate::states::{Aim, Cut, End};
use crate::table::{Row, row_of, token_count};
use codeco_checked::{CheckedGrammar, FIRST_PLAIN};
use derivation_trees::{Setting, readings_of};
use lexicon::Lexicon;
use lists::List;
use scopes::Access;
use std::alloc::Global;
use std::cell::Cell;
use wiki_base::{Memory, Tokens};

/// How deep categories may be nested before memory is wanting: more than any grammar does.
pub(crate) const DEEPEST: u32 = u32::MAX;

/// Whether tokens have a partial derivation, and whether they have a derivation.
#[derive(Drop)]
pub struct Standing {
    pub begins: bool,
    pub derives: bool,
}

/// Whether the tokens, of which there are at most 40, have a derivation by the grammar with the words of the lexicon. The
/// ends of phrases are found once for each category with known values, place and list without openers.
pub fn has_derivation(
    alloc: Global,
    grammar: &CheckedGrammar,
    lexicon: &Lexicon,
    tokens: &Tokens,
) -> Result<bool, Memory>
    requires { length tokens.now ≤ MOST_TOKENS }
    ensures { IfOk result (λ yes. IsTrue yes ↔ IsSentence grammar.now lexicon.now tokens.now) }
{
    let readings = readings_of(alloc, lexicon, tokens.as_slice())?;
    let setting = Setting {
        grammar: grammar.grammar(),
        tokens: tokens.as_slice(),
        readings: readings.as_slice(),
    };
    is_sentence(alloc, &setting)
}

/// Whether the tokens, of which there are at most 41, have a partial derivation by the grammar with the words of the
/// lexicon, by the same table.
pub fn begins(
    alloc: Global,
    grammar: &CheckedGrammar,
    lexicon: &Lexicon,
    tokens: &Tokens,
) -> Result<bool, Memory>
    requires { length tokens.now ≤ MOST_TOKENS + 1 }
    ensures { IfOk result (λ yes. IsTrue yes ↔ IsBeginning grammar.now lexicon.now tokens.now) }
{
    let readings = readings_of(alloc, lexicon, tokens.as_slice())?;
    let setting = Setting {
        grammar: grammar.grammar(),
        tokens: tokens.as_slice(),
        readings: readings.as_slice(),
    };
    is_beginning(alloc, &setting)
}

// Whether the setting's tokens have a derivation.
fn is_sentence(alloc: Global, setting: &Setting<'_>) -> Result<bool, Memory>
    ensures { IfOk result (λ yes. IsTrue yes ↔ ((tree : Node) × IsDerivation setting.now tree)) }
{
    let plans = plans_of(alloc, setting.grammar)?;
    let standing = standing_of(alloc, setting, plans.as_slice())?;
    Ok(standing.derives)
}

// Whether the setting's tokens have a partial derivation.
fn is_beginning(alloc: Global, setting: &Setting<'_>) -> Result<bool, Memory>
    ensures { IfOk result (λ yes. IsTrue yes ↔ ((cut : CutNode) × IsPartialDerivation setting.now cut)) }
{
    let plans = plans_of(alloc, setting.grammar)?;
    let standing = standing_of(alloc, setting, plans.as_slice())?;
    Ok(standing.begins)
}

/// Whether the setting's tokens have a partial derivation, and whether they have a derivation, by one table. The plans are those
/// of the grammar's rules.
pub fn standing_of(alloc: Global, setting: &Setting<'_>, plans: &[Plan]) -> Result<Standing, Memory>
    requires plans { choosing.ArePlans setting.now plans.now }
    ensures begins { IfOk result (λ standing. IsTrue standing.begins ↔ ((cut : CutNode) × IsPartialDerivation setting.now cut)) }
    ensures derives { IfOk result (λ standing. IsTrue standing.derives ↔ ((tree : Node) × IsDerivation setting.now tree)) }
{
    let count = token_count(setting);
    let any = [Ask::Any];
    let made = Cell::new(0usize);
    let aim = Aim {
        halt: count,
        asks: &any,
        made: &made,
    };
    let row = text_row(alloc, setting, plans, &aim)?;
    let derives = some_ends_at(row.ends.as_slice(), count);
    let begins = has_ask(row.cuts.as_slice(), 0);
    Ok(Standing { begins, derives })
}

// The row of the category of sentences from place 0 and the empty list.
fn text_row(
    alloc: Global,
    setting: &Setting<'_>,
    plans: &[Plan],
    aim: &Aim<'_>,
) -> Result<Row, Memory>
    requires { choosing.ArePlans setting.now plans.now }
    ensures { IfOk result (tables.IsTextRow setting.now aim.now) }
{
    let mut rows = Rows::new(alloc);
    let known = List::new(alloc);
    let list = Access::empty(alloc);
    let scene = Scene {
        alloc,
        setting,
        aim,
        plans,
        depth: DEEPEST,
    };
    let number = row_of(&scene, &mut rows, FIRST_PLAIN, known, 0, list)?;
    Ok(rows.remove(number))
}

// Whether one of the cut-off phrases meets the ask with the number.
fn has_ask(cuts: &[Cut], number: usize) -> bool
    ensures { result ≡ list_any (λ e. e.ask == number) cuts.now }
{
    cuts.iter().any(|cut| cut.ask == number)
}

/// For each of the asks, whether a partial derivation that is cut off at the place, which begins with the tokens before it,
/// meets the ask there: by one table. The plans are those of the grammar's rules.
pub fn may_follow(
    alloc: Global,
    setting: &Setting<'_>,
    plans: &[Plan],
    halt: usize,
    asks: &[Ask],
) -> Result<List<bool>, Memory>
    requires plans { choosing.ArePlans setting.now plans.now }
    ensures count { IfOk result (λ follows. length follows ≡ length asks.now) }
    ensures each { IfOk result (λ follows. (j : ℕ) (a : OneAsk) (yes : Bool) → slice_get asks.now j ≡ Some a → slice_get follows j ≡ Some yes
        → IsTrue yes ↔ AskLeads setting.now halt a text_category (record { place = 0; list = [] })) }
{
    let made = Cell::new(0usize);
    let aim = Aim {
        halt,
        asks,
        made: &made,
    };
    let row = text_row(alloc, setting, plans, &aim)?;
    follows(alloc, row.cuts.as_slice(), asks.len())
}

// For each number of an ask, whether one of the cut-off phrases meets it.
fn follows(alloc: Global, cuts: &[Cut], count: usize) -> Result<List<bool>, Memory>
    ensures { IfOk result
        (λ follows. follows ≡ map (λ j. list_any (λ e. e.ask == j) cuts.now) (range_with_len 0 count)) }
{
    let mut follows = List::new(alloc);
    for number in 0..count {
        follows.push(has_ask(cuts, number))?;
    }
    Ok(follows)
}

fn some_ends_at(ends: &[End], place: usize) -> bool
    ensures { result ≡ list_any (λ e. e.place == place) ends.now }
{
    ends.iter().any(|end| end.place as usize == place)
}
