// What tokens are read as.
ghost use Rattle.std.specs.Prelude.{◌≡◌, ◌≤◌, ◌↔◌, [], ◌∷◌, length, IfOk, IsTrue};
ghost use Rattle.wiki_base.specs.declared.tokens.TheConstants.{MOST_TOKENS};
ghost use Rattle.codeco_checked.specs.Sound.{is_labelled};
ghost use Rattle.logic_terms.specs.Shown.{claim_of, structure_of};
ghost use Rattle.drs_build.specs.Built as built;
ghost use Rattle.ace_to_owl.specs.Mapping.{axioms_stated};
ghost use Rattle.verbalise.specs.Readings.{statement_by, skeleton_read, ReadsAs, stating};
ghost use Rattle.verbalise.specs.Spoken.{reading_shown};

use crate::comparing::are_just;
use ace_to_owl::{Mapped, map_statement};
use chart_trees::least_of;
use codeco_checked::CheckedGrammar;
use codeco_terms::Label;
use derivation_trees::{Skeleton, rule_with};
use drs_build::{Built, build};
use lexicon::Lexicon;
use logic_terms::{Axiom, Axioms, Cause, Drs};
use std::alloc::Global;
use wiki_base::{Memory, Tokens};

/// What tokens are read as, by a grammar with labels.
#[derive(Drop)]
pub enum Reading {
    /// They have no derivation.
    NoSentence,
    /// They ask something.
    Question,
    /// They state what has no axioms.
    Outside(Cause),
    /// They state these axioms.
    Axioms(Axioms),
}

/// What the tokens are read as: by their least skeleton, its structure, and the mapping of the structure.
pub(crate) fn reading_of(
    alloc: Global,
    grammar: &CheckedGrammar,
    words: &Lexicon,
    tokens: &Tokens,
) -> Result<Reading, Memory>
    requires few { length tokens.now ≤ MOST_TOKENS }
    requires labelled { IsTrue (is_labelled grammar.now) }
    ensures { IfOk result (λ reading. ReadsAs grammar.now words.now tokens.now (reading_shown reading)) }
{
    match least_of(alloc, grammar, words, tokens)? {
        Some(least) => skeleton_reading(alloc, grammar, &least),
        None => Ok(Reading::NoSentence),
    }
}

// What the skeleton of a derivation is read as.
fn skeleton_reading(
    alloc: Global,
    grammar: &CheckedGrammar,
    skeleton: &Skeleton,
) -> Result<Reading, Memory>
    requires labelled { IsTrue (is_labelled grammar.now) }
    requires derived { built.IsDerived grammar.now skeleton.now }
    ensures { IfOk result (λ reading. reading_shown reading ≡ skeleton_read grammar.now skeleton.now) }
{
    match build(alloc, grammar, skeleton)? {
        Built::Statement(drs) => statement_reading(alloc, &drs),
        Built::Question(_, _) => Ok(Reading::Question),
        Built::Free(_) => {
            if is_question(grammar, skeleton) {
                Ok(Reading::Question)
            } else {
                Ok(Reading::Outside(Cause::Free))
            }
        }
    }
}

fn statement_reading(alloc: Global, drs: &Drs) -> Result<Reading, Memory>
    ensures { IfOk result (λ reading. reading_shown reading ≡ statement_by (axioms_stated (structure_of drs.now))) }
{
    match map_statement(alloc, drs)? {
        Mapped::Axioms(axioms) => Ok(Reading::Axioms(axioms)),
        Mapped::Outside(cause) => Ok(Reading::Outside(cause)),
    }
}

// Whether the skeleton is that of a question, by the label of its root.
fn is_question(grammar: &CheckedGrammar, skeleton: &Skeleton) -> bool
    ensures { result ≡ built.is_question grammar.now skeleton.now }
{
    let Some(rule) = rule_with(grammar.grammar(), skeleton.rule) else {
        return false;
    };
    match rule.label {
        Some(label) => is_ask(label),
        None => false,
    }
}

fn is_ask(label: Label) -> bool
    ensures { result ≡ built.is_ask label }
{
    matches!(label, Label::Ask)
}

/// Whether the reading is that of exactly this axiom. It takes no memory.
pub(crate) fn is_exactly(reading: &Reading, axiom: &Axiom) -> bool
    ensures { IsTrue result ↔ (reading_shown reading.now ≡ stating (claim_of «axiom».now ∷ [])) }
{
    match reading {
        Reading::Axioms(axioms) => are_just(axioms.as_slice(), axiom),
        _ => false,
    }
}
