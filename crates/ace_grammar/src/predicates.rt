// Predicates after `is`.
ghost use Rattle.std.specs.Prelude.{◌≡◌, ◌++◌, OnOk};
ghost use Rattle.ace_grammar.specs.Predicates.{predicates};

use crate::names::{
    ADJ, DET, FORM, NO, NOUN, NUM, OBJ, OF, PART, PB, PR, PRON, RELS, SG, SUB, TERM, V0, V1, VERB,
    VOW, YES, words,
};
use crate::rows::ElementRow::{Phrase, Token, Word};
use crate::rows::{RuleRow, add_rules};
use codeco_terms::{Label, Rules};
use std::alloc::Global;
use wiki_base::Memory;

static PREDICATES: [RuleRow; 12] = [
    // {done} pr(sub: S) --> $verb(form: part) [by] obj(sub: S).
    RuleRow {
        label: Label::Done,
        head: PR,
        feats: &[(SUB, V0)],
        closing: false,
        body: &[
            Word(VERB, &[(FORM, PART)]),
            Token(words::BY),
            Phrase(OBJ, &[(SUB, V0)]),
        ],
    },
    // {does} pr(sub: S) --> $adj obj(sub: S).
    RuleRow {
        label: Label::Does,
        head: PR,
        feats: &[(SUB, V0)],
        closing: false,
        body: &[Word(ADJ, &[]), Phrase(OBJ, &[(SUB, V0)])],
    },
    // {pass} pr(num: sg, sub: S) --> det(vow: V) pb(vow: V, sub: S).
    RuleRow {
        label: Label::Pass,
        head: PR,
        feats: &[(NUM, SG), (SUB, V0)],
        closing: false,
        body: &[
            Phrase(DET, &[(VOW, V1)]),
            Phrase(PB, &[(VOW, V1), (SUB, V0)]),
        ],
    },
    // {top} pr(num: sg) --> [something].
    RuleRow {
        label: Label::Top,
        head: PR,
        feats: &[(NUM, SG)],
        closing: false,
        body: &[Token(words::SOMETHING)],
    },
    // {pass} pr(num: sg, sub: S) --> [something] rels(sub: S).
    RuleRow {
        label: Label::Pass,
        head: PR,
        feats: &[(NUM, SG), (SUB, V0)],
        closing: false,
        body: &[Token(words::SOMETHING), Phrase(RELS, &[(SUB, V0)])],
    },
    // {same} pr(num: sg) --> term.
    RuleRow {
        label: Label::Same,
        head: PR,
        feats: &[(NUM, SG)],
        closing: false,
        body: &[Phrase(TERM, &[])],
    },
    // {same} pr(num: sg, sub: S) --> pron(sub: S).
    RuleRow {
        label: Label::Same,
        head: PR,
        feats: &[(NUM, SG), (SUB, V0)],
        closing: false,
        body: &[Phrase(PRON, &[(SUB, V0)])],
    },
    // {mark} det(vow: no) --> [a].
    RuleRow {
        label: Label::Mark,
        head: DET,
        feats: &[(VOW, NO)],
        closing: false,
        body: &[Token(words::A)],
    },
    // {mark} det(vow: yes) --> [an].
    RuleRow {
        label: Label::Mark,
        head: DET,
        feats: &[(VOW, YES)],
        closing: false,
        body: &[Token(words::AN)],
    },
    // {class} pb(vow: V) --> $noun(num: sg, vow: V).
    RuleRow {
        label: Label::Class,
        head: PB,
        feats: &[(VOW, V0)],
        closing: false,
        body: &[Word(NOUN, &[(NUM, SG), (VOW, V0)])],
    },
    // {class} pb(vow: V, sub: S) --> $noun(num: sg, vow: V) rels(sub: S).
    RuleRow {
        label: Label::Class,
        head: PB,
        feats: &[(VOW, V0), (SUB, V1)],
        closing: false,
        body: &[
            Word(NOUN, &[(NUM, SG), (VOW, V0)]),
            Phrase(RELS, &[(SUB, V1)]),
        ],
    },
    // {does} pb(vow: V, sub: S) --> $of(vow: V) [of] obj(sub: S).
    RuleRow {
        label: Label::Does,
        head: PB,
        feats: &[(VOW, V0), (SUB, V1)],
        closing: false,
        body: &[
            Word(OF, &[(VOW, V0)]),
            Token(words::OF),
            Phrase(OBJ, &[(SUB, V1)]),
        ],
    },
];

/// Adds rules 26 to 37.
pub fn add_predicates(alloc: Global, rules: &mut Rules) -> Result<(), Memory>
    ensures { OnOk result (rules.new ≡ rules.old ++ predicates) }
{
    add_rules(alloc, rules, &PREDICATES)
}
