// The whole grammar.
ghost use Rattle.std.specs.Prelude.{◌≡◌, IfOk, IsTrue};
ghost use Rattle.codeco_checked.specs.Sound.{is_labelled};
ghost use Rattle.ace_grammar.specs.Grammar.{all_rules, ace_grammar};

use crate::declarations::{declared_features, symbols};
use crate::names::{ATOM_NAMES, CATEGORY_NAMES, TERMINAL_TEXTS};
use crate::noun_phrases::add_noun_phrases;
use crate::predicates::add_predicates;
use crate::quantifiers::add_quantifiers;
use crate::questions::add_questions;
use crate::relative_clauses::add_relative_clauses;
use crate::statements::add_statements;
use crate::verb_phrases::add_verb_phrases;
use codeco_checked::CheckedGrammar;
use codeco_terms::{Grammar, Rules};
use std::alloc::Global;
use wiki_base::Memory;

#[tactic(auto, unfolding(crate::specs::Grammar::all_rules))]
fn rules(alloc: Global) -> Result<Rules, Memory>
    ensures { IfOk result (λ made. made ≡ all_rules) }
{
    let mut rules = Rules::new(alloc);
    add_statements(alloc, &mut rules)?;
    add_verb_phrases(alloc, &mut rules)?;
    add_predicates(alloc, &mut rules)?;
    add_relative_clauses(alloc, &mut rules)?;
    add_noun_phrases(alloc, &mut rules)?;
    add_quantifiers(alloc, &mut rules)?;
    add_questions(alloc, &mut rules)?;
    Ok(rules)
}

#[tactic(auto, unfolding(crate::specs::Grammar::ace_grammar))]
fn grammar(alloc: Global) -> Result<Grammar, Memory>
    ensures { IfOk result (λ made. made ≡ ace_grammar) }
{
    Ok(Grammar::new(
        declared_features(alloc)?,
        symbols(alloc, &ATOM_NAMES)?,
        symbols(alloc, &TERMINAL_TEXTS)?,
        symbols(alloc, &CATEGORY_NAMES)?,
        rules(alloc)?,
    ))
}

/// The wiki's own grammar: a controlled English, in which no fault of the notation holds and every rule has a label.
pub fn built_in(alloc: Global) -> Result<CheckedGrammar, Memory>
    ensures grammar { IfOk result (λ made. made ≡ ace_grammar) }
    ensures labelled { IfOk result (λ made. IsTrue (is_labelled made)) }
{
    Ok(CheckedGrammar::admit(grammar(alloc)?))
}
