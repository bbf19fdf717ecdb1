// What skeletons mean, by their labels.
ghost use Rattle.std.specs.Prelude.{◌≡◌, Some, None, slice_get, slice_index, slice_index_or, IfOk, IsTrue};
ghost use Rattle.derivation_trees.specs.declared.skeletons.Skeleton.{out-Skeleton};
ghost use Rattle.drs_build.specs.Joining as joining;
ghost use Rattle.drs_build.specs.Made.{structure_in};
ghost use Rattle.drs_build.specs.Meanings.{meaning};
ghost use Rattle.drs_build.specs.Order.{is_in_order};
ghost use Rattle.drs_build.specs.Nodes.{meaning_in, child_meaning, made_in, position_in, term_at, no_word};

use crate::names::term_at;
use crate::nodes::{child_of, first_position, label_of, position, word_at};
use crate::parts::Parts;
use codeco_terms::{Grammar, Label};
use derivation_trees::Skeleton;
use logic_terms::Thing;
use std::alloc::Global;
use wiki_base::{Memory, WordId};

/// The text whose parts are built: its grammar and its names.
#[derive(Clone, Copy)]
pub(crate) struct Text<'a> {
    pub alloc: Global,
    pub grammar: &'a Grammar,
    pub names: &'a [(u16, WordId)],
}

// The node's word of this number.
fn word(node: &Skeleton, number: usize) -> WordId
    ensures { result ≡ slice_index_or (out-Skeleton node.now).words number no_word }
{
    word_at(node.words.as_slice(), number)
}

// The referent that the node introduces.
fn here(text: &Text<'_>, node: &Skeleton) -> Thing
    requires { IsTrue (is_in_order text.now.grammar.now node.now) }
    ensures { result ≡ Thing.Ref (position_in text.now.grammar.now node.now) }
{
    Thing::Ref(position(text.grammar, node))
}

// The structure that introduces the node's referent, and its referent.
fn introduced(text: &Text<'_>, node: &Skeleton) -> Result<Parts, Memory>
    requires { IsTrue (is_in_order text.now.grammar.now node.now) }
    ensures { IfOk result (λ parts. structure_in parts ≡ joining.introduced (position_in text.now.grammar.now node.now)) }
{
    Parts::introduced(text.alloc, position(text.grammar, node))
}

/// The structure of a text, a sentence, a noun bar or a question.
#[cycle(meanings)]
pub(crate) fn says(text: &Text<'_>, node: &Skeleton) -> Result<Parts, Memory>
    requires { IsTrue (is_in_order text.now.grammar.now node.now) }
    ensures { IfOk result (λ parts. structure_in parts ≡ (meaning_in text.now.grammar.now text.now.names.now node.now).says) }
{
    match label_of(text.grammar, node.rule) {
        Some(label) => says_by(text, node, label),
        None => Ok(Parts::empty(text.alloc)),
    }
}

/// The structure of a verb phrase on a term.
#[cycle(meanings)]
fn on(text: &Text<'_>, node: &Skeleton, term: Thing) -> Result<Parts, Memory>
    requires { IsTrue (is_in_order text.now.grammar.now node.now) }
    ensures { IfOk result (λ parts. structure_in parts ≡ (meaning_in text.now.grammar.now text.now.names.now node.now).on term) }
{
    match label_of(text.grammar, node.rule) {
        Some(label) => on_by(text, node, label, term),
        None => Ok(Parts::empty(text.alloc)),
    }
}

/// What a noun phrase makes of a structure.
#[cycle(meanings)]
fn around(text: &Text<'_>, node: &Skeleton, inner: Parts) -> Result<Parts, Memory>
    requires { IsTrue (is_in_order text.now.grammar.now node.now) }
    ensures { IfOk result (λ parts. structure_in parts ≡ (meaning_in text.now.grammar.now text.now.names.now node.now).around (structure_in inner)) }
{
    match label_of(text.grammar, node.rule) {
        Some(label) => around_by(text, node, label, inner),
        None => Ok(inner),
    }
}

/// The term of a noun phrase.
#[cycle(terms)]
fn term(text: &Text<'_>, node: &Skeleton) -> Thing
    requires { IsTrue (is_in_order text.now.grammar.now node.now) }
    ensures { result ≡ (meaning_in text.now.grammar.now text.now.names.now node.now).term }
{
    match label_of(text.grammar, node.rule) {
        Some(label) => term_by(text, node, label),
        None => Thing::Ref(0),
    }
}

/// The referent of a noun bar or a question.
#[cycle(referents)]
pub(crate) fn referent(text: &Text<'_>, node: &Skeleton) -> u16
    requires { IsTrue (is_in_order text.now.grammar.now node.now) }
    ensures { result ≡ (meaning_in text.now.grammar.now text.now.names.now node.now).referent }
{
    match label_of(text.grammar, node.rule) {
        Some(label) => referent_by(text, node, label),
        None => 0,
    }
}

// The same of a child, by its number among those that are no marks.

#[cycle(meanings)]
fn child_says(text: &Text<'_>, node: &Skeleton, number: usize) -> Result<Parts, Memory>
    requires { IsTrue (is_in_order text.now.grammar.now node.now) }
    ensures { IfOk result (λ parts. structure_in parts ≡ (child_meaning text.now.grammar.now text.now.names.now node.now number).says) }
{
    match child_of(text.grammar, node, number) {
        Some(child) => says(text, child),
        None => Ok(Parts::empty(text.alloc)),
    }
}

#[cycle(meanings)]
fn child_on(text: &Text<'_>, node: &Skeleton, number: usize, term: Thing) -> Result<Parts, Memory>
    requires { IsTrue (is_in_order text.now.grammar.now node.now) }
    ensures { IfOk result (λ parts. structure_in parts ≡ (child_meaning text.now.grammar.now text.now.names.now node.now number).on term) }
{
    match child_of(text.grammar, node, number) {
        Some(child) => on(text, child, term),
        None => Ok(Parts::empty(text.alloc)),
    }
}

#[cycle(meanings)]
fn child_around(
    text: &Text<'_>,
    node: &Skeleton,
    number: usize,
    inner: Parts,
) -> Result<Parts, Memory>
    requires { IsTrue (is_in_order text.now.grammar.now node.now) }
    ensures { IfOk result (λ parts. structure_in parts ≡ (child_meaning text.now.grammar.now text.now.names.now node.now number).around (structure_in inner)) }
{
    match child_of(text.grammar, node, number) {
        Some(child) => around(text, child, inner),
        None => Ok(inner),
    }
}

#[cycle(terms)]
fn child_term(text: &Text<'_>, node: &Skeleton, number: usize) -> Thing
    requires { IsTrue (is_in_order text.now.grammar.now node.now) }
    ensures { result ≡ (child_meaning text.now.grammar.now text.now.names.now node.now number).term }
{
    match child_of(text.grammar, node, number) {
        Some(child) => term(text, child),
        None => Thing::Ref(0),
    }
}

#[cycle(referents)]
fn child_referent(text: &Text<'_>, node: &Skeleton, number: usize) -> u16
    requires { IsTrue (is_in_order text.now.grammar.now node.now) }
    ensures { result ≡ (child_meaning text.now.grammar.now text.now.names.now node.now number).referent }
{
    match child_of(text.grammar, node, number) {
        Some(child) => referent(text, child),
        None => 0,
    }
}

// The same of a node with a label.

#[cycle(terms)]
fn term_by(text: &Text<'_>, node: &Skeleton, label: Label) -> Thing
    requires { IsTrue (is_in_order text.now.grammar.now node.now) }
    ensures { result ≡ (meaning label (made_in text.now.grammar.now text.now.names.now node.now)).term }
{
    match label {
        Label::Statement | Label::Ask | Label::Pass => child_term(text, node, 0),
        Label::Name => Thing::Name(word(node, 0)),
        Label::Refer => term_at(text.names, first_position(node.found.as_slice())),
        Label::Var | Label::Something | Label::Everything | Label::Nothing => here(text, node),
        Label::Some | Label::Every | Label::No => Thing::Ref(child_referent(text, node, 0)),
        Label::If
        | Label::Say
        | Label::And
        | Label::Or
        | Label::Not
        | Label::Does
        | Label::Done
        | Label::Class
        | Label::Top
        | Label::Same
        | Label::Only
        | Label::Gap
        | Label::Noun
        | Label::Part
        | Label::What
        | Label::Which
        | Label::Whichobj
        | Label::Mark => Thing::Ref(0),
    }
}

#[cycle(referents)]
fn referent_by(text: &Text<'_>, node: &Skeleton, label: Label) -> u16
    requires { IsTrue (is_in_order text.now.grammar.now node.now) }
    ensures { result ≡ (meaning label (made_in text.now.grammar.now text.now.names.now node.now)).referent }
{
    match label {
        Label::Statement | Label::Ask | Label::Pass | Label::Which | Label::Whichobj => {
            child_referent(text, node, 0)
        }
        Label::Noun | Label::Part | Label::What => position(text.grammar, node),
        Label::If
        | Label::Say
        | Label::And
        | Label::Or
        | Label::Not
        | Label::Does
        | Label::Done
        | Label::Class
        | Label::Top
        | Label::Same
        | Label::Only
        | Label::Gap
        | Label::Name
        | Label::Refer
        | Label::Var
        | Label::Some
        | Label::Every
        | Label::No
        | Label::Something
        | Label::Everything
        | Label::Nothing
        | Label::Mark => 0,
    }
}

#[cycle(meanings)]
fn says_by(text: &Text<'_>, node: &Skeleton, label: Label) -> Result<Parts, Memory>
    requires { IsTrue (is_in_order text.now.grammar.now node.now) }
    ensures { IfOk result (λ parts. structure_in parts ≡ (meaning label (made_in text.now.grammar.now text.now.names.now node.now)).says) }
{
    match label {
        Label::Statement | Label::Ask | Label::Pass => child_says(text, node, 0),
        Label::If => child_says(text, node, 0)?.implies(text.alloc, child_says(text, node, 1)?),
        Label::Say => {
            let predicate = child_on(text, node, 1, child_term(text, node, 0))?;
            child_around(text, node, 0, predicate)
        }
        Label::And => child_says(text, node, 0)?.join(child_says(text, node, 1)?),
        Label::Or => child_says(text, node, 0)?.or(text.alloc, child_says(text, node, 1)?),
        Label::Noun => {
            let noun = Parts::is_a(text.alloc, word(node, 0), here(text, node))?;
            let said = child_on(text, node, 0, here(text, node))?;
            introduced(text, node)?.join(noun)?.join(said)
        }
        Label::Part => {
            let whole = child_term(text, node, 0);
            let part = Parts::related(text.alloc, word(node, 0), here(text, node), whole)?;
            let said = child_around(text, node, 0, part)?;
            introduced(text, node)?.join(said)
        }
        Label::What => {
            let said = child_on(text, node, 0, here(text, node))?;
            introduced(text, node)?.join(said)
        }
        Label::Which => {
            let asked = Thing::Ref(child_referent(text, node, 0));
            child_says(text, node, 0)?.join(child_on(text, node, 1, asked)?)
        }
        Label::Whichobj => {
            let asked = Thing::Ref(child_referent(text, node, 0));
            let subject = child_term(text, node, 1);
            let verb = Parts::related(text.alloc, word(node, 0), subject, asked)?;
            child_says(text, node, 0)?.join(child_around(text, node, 1, verb)?)
        }
        Label::Not
        | Label::Does
        | Label::Done
        | Label::Class
        | Label::Top
        | Label::Same
        | Label::Only
        | Label::Gap
        | Label::Name
        | Label::Refer
        | Label::Var
        | Label::Some
        | Label::Every
        | Label::No
        | Label::Something
        | Label::Everything
        | Label::Nothing
        | Label::Mark => Ok(Parts::empty(text.alloc)),
    }
}

// The structure of `only`: what the thing has the relation to has the noun.
fn only(text: &Text<'_>, node: &Skeleton, term: Thing) -> Result<Parts, Memory>
    requires { IsTrue (is_in_order text.now.grammar.now node.now) }
    ensures { IfOk result (λ parts. structure_in parts ≡ (meaning Label.Only (made_in text.now.grammar.now text.now.names.now node.now)).on term) }
{
    let verb = Parts::related(text.alloc, word(node, 0), term, here(text, node))?;
    let noun = Parts::is_a(text.alloc, word(node, 1), here(text, node))?;
    introduced(text, node)?
        .join(verb)?
        .implies(text.alloc, noun)
}

#[cycle(meanings)]
fn on_by(text: &Text<'_>, node: &Skeleton, label: Label, term: Thing) -> Result<Parts, Memory>
    requires { IsTrue (is_in_order text.now.grammar.now node.now) }
    ensures { IfOk result (λ parts. structure_in parts ≡ (meaning label (made_in text.now.grammar.now text.now.names.now node.now)).on term) }
{
    match label {
        Label::Statement | Label::Ask | Label::Pass => child_on(text, node, 0, term),
        Label::And => child_on(text, node, 0, term)?.join(child_on(text, node, 1, term)?),
        Label::Or => child_on(text, node, 0, term)?.or(text.alloc, child_on(text, node, 1, term)?),
        Label::Not => child_on(text, node, 0, term)?.negated(text.alloc),
        Label::Does => {
            let object = child_term(text, node, 0);
            let verb = Parts::related(text.alloc, word(node, 0), term, object)?;
            child_around(text, node, 0, verb)
        }
        Label::Done | Label::Gap => {
            let subject = child_term(text, node, 0);
            let verb = Parts::related(text.alloc, word(node, 0), subject, term)?;
            child_around(text, node, 0, verb)
        }
        Label::Class => {
            let said = child_on(text, node, 0, term)?;
            Parts::is_a(text.alloc, word(node, 0), term)?.join(said)
        }
        Label::Same => {
            let other = child_term(text, node, 0);
            let same = Parts::same(text.alloc, term, other)?;
            child_around(text, node, 0, same)
        }
        Label::Only => only(text, node, term),
        Label::Top
        | Label::If
        | Label::Say
        | Label::Name
        | Label::Refer
        | Label::Var
        | Label::Noun
        | Label::Part
        | Label::Some
        | Label::Every
        | Label::No
        | Label::Something
        | Label::Everything
        | Label::Nothing
        | Label::What
        | Label::Which
        | Label::Whichobj
        | Label::Mark => Ok(Parts::empty(text.alloc)),
    }
}

// The referent that the node introduces, with what its verb phrase says of it.
#[cycle(meanings)]
fn thing_said(text: &Text<'_>, node: &Skeleton) -> Result<Parts, Memory>
    requires { IsTrue (is_in_order text.now.grammar.now node.now) }
    ensures { IfOk result (λ parts. structure_in parts ≡ (meaning Label.What (made_in text.now.grammar.now text.now.names.now node.now)).says) }
{
    let said = child_on(text, node, 0, here(text, node))?;
    introduced(text, node)?.join(said)
}

#[cycle(meanings)]
fn around_by(text: &Text<'_>, node: &Skeleton, label: Label, inner: Parts) -> Result<Parts, Memory>
    requires { IsTrue (is_in_order text.now.grammar.now node.now) }
    ensures { IfOk result (λ parts. structure_in parts
        ≡ (meaning label (made_in text.now.grammar.now text.now.names.now node.now)).around (structure_in inner)) }
{
    match label {
        Label::Statement | Label::Ask | Label::Pass => child_around(text, node, 0, inner),
        Label::Var => introduced(text, node)?.join(inner),
        Label::Some => child_says(text, node, 0)?.join(inner),
        Label::Every => child_says(text, node, 0)?.implies(text.alloc, inner),
        Label::No => child_says(text, node, 0)?.implies(text.alloc, inner.negated(text.alloc)?),
        Label::Something => thing_said(text, node)?.join(inner),
        Label::Everything => thing_said(text, node)?.implies(text.alloc, inner),
        Label::Nothing => thing_said(text, node)?.implies(text.alloc, inner.negated(text.alloc)?),
        Label::Name
        | Label::Refer
        | Label::If
        | Label::Say
        | Label::And
        | Label::Or
        | Label::Not
        | Label::Does
        | Label::Done
        | Label::Class
        | Label::Top
        | Label::Same
        | Label::Only
        | Label::Gap
        | Label::Noun
        | Label::Part
        | Label::What
        | Label::Which
        | Label::Whichobj
        | Label::Mark => Ok(inner),
    }
}
