// What sentences mean: the axioms that they state, or the class that they ask for.
ghost use Rattle.std.specs.Prelude.{◌≡◌, ◌≤◌, ℕ, List, length, IsTrue, IfOk, MatchOption};
ghost use Rattle.wiki_base.specs.declared.tokens.TheConstants.{MOST_TOKENS};
ghost use Rattle.codeco_checked.specs.Sound.{is_labelled};
ghost use Rattle.derivation_trees.specs.Sentences.{IsSentence};
ghost use Rattle.lexicon.specs.Words.{Listed};
ghost use Rattle.plain_wiki.specs.Meanings.{skeleton_meaning, Means, MeansFaithfully};
ghost use Rattle.drs_build.specs.Built as built;
ghost use Rattle.wiki_parts.specs.Found.{meaning_shown};

use crate::typing::least;
use ace_to_owl::{Asked, Mapped, map_question, map_statement};
use codeco_checked::CheckedGrammar;
use codeco_terms::Label;
use derivation_trees::rule_with;
use derivations::Skeleton;
use drs_build::{Built, build};
use lexicon::Lexicon;
use logic_terms::{Axioms, Cause, Class};
use std::alloc::Global;
use wiki_base::{Memory, Tokens};

/// What a sentence means.
#[derive(Drop)]
pub enum Sense {
    Stating(Axioms),
    Outside(Cause),
    Asking(Class),
    AskingOutside(Cause),
}

/// The meaning of tokens, if they have a derivation. Whatever tokens mean keeps the truth of their structure.
pub fn sense_of(
    alloc: Global,
    grammar: &CheckedGrammar,
    lexicon: &Lexicon,
    tokens: &Tokens,
) -> Result<Option<Sense>, Memory>
    requires few { length tokens.now ≤ MOST_TOKENS }
    requires labelled { IsTrue (is_labelled grammar.now) }

    ensures means { IfOk result (λ meaning. MatchOption meaning (IsSentence grammar.now lexicon.now tokens.now → ⊥)
        (λ found. Means grammar.now lexicon.now tokens.now (meaning_shown found))) }
    ensures faithful { MeansFaithfully grammar.now lexicon.now tokens.now }
{
    is_faithful(grammar);
    match least(alloc, grammar, lexicon, tokens)? {
        Some(least) => Ok(Some(skeleton_sense(alloc, grammar, &least)?)),
        None => Ok(None),
    }
}

/// Whatever tokens mean by a grammar keeps their truth.
pub fn is_faithful(grammar: &CheckedGrammar)
    requires { IsTrue (is_labelled grammar.now) }
    ensures { (words : Listed) (tokens : List (List ℕ)) → MeansFaithfully grammar.now words tokens }
{
    let _ = grammar.grammar();
}

// The meaning of the skeleton of a derivation.
fn skeleton_sense(
    alloc: Global,
    grammar: &CheckedGrammar,
    skeleton: &Skeleton,
) -> Result<Sense, Memory>
    requires labelled { IsTrue (is_labelled grammar.now) }
    requires derived { built.IsDerived grammar.now skeleton.now }

    ensures { IfOk result (λ meaning. meaning_shown meaning ≡ skeleton_meaning grammar.now skeleton.now) }
{
    match build(alloc, grammar, skeleton)? {
        Built::Statement(drs) => match map_statement(alloc, &drs)? {
            Mapped::Axioms(axioms) => Ok(Sense::Stating(axioms)),
            Mapped::Outside(cause) => Ok(Sense::Outside(cause)),
        },
        Built::Question(drs, referent) => match map_question(alloc, &drs, referent)? {
            Asked::Class(class) => Ok(Sense::Asking(class)),
            Asked::Outside(cause) => Ok(Sense::AskingOutside(cause)),
        },
        Built::Free(_) => {
            if is_question(grammar, skeleton) {
                Ok(Sense::AskingOutside(Cause::Free))
            } else {
                Ok(Sense::Outside(Cause::Free))
            }
        }
    }
}

// Whether the skeleton is that of a question, by the label of its root.
fn is_question(grammar: &CheckedGrammar, skeleton: &Skeleton) -> bool
    ensures { result ≡ built.is_question grammar.now skeleton.now }
{
    let Some(rule) = rule_with(grammar.grammar(), skeleton.rule) else {
        return false;
    };
    match rule.label {
        Some(label) => is_ask(label),
        None => false,
    }
}

fn is_ask(label: Label) -> bool
    ensures { result ≡ built.is_ask label }
{
    matches!(label, Label::Ask)
}
