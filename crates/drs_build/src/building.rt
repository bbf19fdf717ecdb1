// The structure of a skeleton.
ghost use Rattle.std.specs.Prelude.{◌≡◌, IsTrue, IfOk};
ghost use Rattle.codeco_checked.specs.Sound.{is_labelled};
ghost use Rattle.drs_build.specs.Built as built;

use crate::free::first_free;
use crate::meanings::{Text, referent, says};
use crate::names::names_of;
use crate::nodes::label_of;
use codeco_checked::CheckedGrammar;
use codeco_terms::{Grammar, Label};
use derivation_trees::Skeleton;
use logic_terms::Drs;
use std::alloc::Global;
use wiki_base::Memory;

/// What a skeleton means.
#[derive(Drop)]
pub enum Built {
    /// The structure of a statement, in which no referent is free.
    Statement(Drs),
    /// The structure of a question, in which no referent is free, and the referent that is asked for.
    Question(Drs, u16),
    /// The first referent from left to right that is used outside of the structure that introduces it.
    Free(u16),
}

fn is_ask(label: Label) -> bool
    ensures { result ≡ built.is_ask label }
{
    matches!(label, Label::Ask)
}

fn is_question(grammar: &Grammar, skeleton: &Skeleton) -> bool
    ensures { result ≡ built.is_question grammar.now skeleton.now }
{
    match label_of(grammar, skeleton.rule) {
        Some(label) => is_ask(label),
        None => false,
    }
}

/// The structure of a skeleton, by the labels of a grammar that has them: each rule's label says what its phrase means, by
/// the meanings of its parts (after the discourse representation structures of Kamp and Reyle, From Discourse to Logic,
/// 1993). `Free` comes exactly where a referent is used outside of the structure that introduces it.
pub fn build(alloc: Global, grammar: &CheckedGrammar, skeleton: &Skeleton) -> Result<Built, Memory>
    requires labelled { IsTrue (is_labelled grammar.now) }
    requires derived { built.IsDerived grammar.now skeleton.now }
    ensures exact { IfOk result (built.Builds grammar.now skeleton.now) }
    ensures closed { IfOk result built.NoneFree }
    ensures once { IfOk result built.EachOnce }
    ensures asked { IfOk result built.AskedIntroduced }
{
    let grammar = grammar.grammar();
    let names = names_of(alloc, grammar, skeleton)?;
    let text = Text {
        alloc,
        grammar,
        names: names.as_slice(),
    };
    let drs = says(&text, skeleton)?.into_drs();
    if let Some(free) = first_free(alloc, &drs)? {
        return Ok(Built::Free(free));
    }
    if is_question(grammar, skeleton) {
        let asked = referent(&text, skeleton);
        return Ok(Built::Question(drs, asked));
    }
    Ok(Built::Statement(drs))
}
