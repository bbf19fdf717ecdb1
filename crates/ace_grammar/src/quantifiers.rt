// Noun phrases with a quantifier, and nouns.
ghost use Rattle.std.specs.Prelude.{◌≡◌, ◌++◌, OnOk};
ghost use Rattle.ace_grammar.specs.Quantifiers.{quantifiers};

use crate::names::{
    DET, ID, NB, NOUN, NUM, OBJ, OF, QP, RELS, RNOUN, RTHING, SG, SUB, V0, V1, V2, VOW, W, words,
};
use crate::rows::ElementRow::{Here, Opener, Phrase, Token, Weak, Word};
use crate::rows::{RuleRow, add_rules};
use codeco_terms::{Label, Rules};
use std::alloc::Global;
use wiki_base::Memory;

static QUANTIFIERS: [RuleRow; 12] = [
    // {some} qp(id: I) --> det(vow: V) nb(vow: V, id: I).
    RuleRow {
        label: Label::Some,
        head: QP,
        feats: &[(ID, V0)],
        closing: false,
        body: &[
            Phrase(DET, &[(VOW, V1)]),
            Phrase(NB, &[(VOW, V1), (ID, V0)]),
        ],
    },
    // {every} qp(id: I) --> [every] // nb(id: I).
    RuleRow {
        label: Label::Every,
        head: QP,
        feats: &[(ID, V0)],
        closing: false,
        body: &[Token(words::EVERY), Opener, Phrase(NB, &[(ID, V0)])],
    },
    // {no} qp(id: I) --> [no] // nb(id: I).
    RuleRow {
        label: Label::No,
        head: QP,
        feats: &[(ID, V0)],
        closing: false,
        body: &[Token(words::NO), Opener, Phrase(NB, &[(ID, V0)])],
    },
    // {something} qp(id: P) --> [something] #P > rthing(id: P).
    RuleRow {
        label: Label::Something,
        head: QP,
        feats: &[(ID, V0)],
        closing: false,
        body: &[Token(words::SOMETHING), Here(0), Weak(RTHING, &[(ID, V0)])],
    },
    // {something} qp(id: P) --> [something] #P > rthing(id: P) rels(sub: P).
    RuleRow {
        label: Label::Something,
        head: QP,
        feats: &[(ID, V0)],
        closing: false,
        body: &[
            Token(words::SOMETHING),
            Here(0),
            Weak(RTHING, &[(ID, V0)]),
            Phrase(RELS, &[(SUB, V0)]),
        ],
    },
    // {everything} qp(id: P) --> [everything] // #P > rthing(id: P).
    RuleRow {
        label: Label::Everything,
        head: QP,
        feats: &[(ID, V0)],
        closing: false,
        body: &[
            Token(words::EVERYTHING),
            Opener,
            Here(0),
            Weak(RTHING, &[(ID, V0)]),
        ],
    },
    // {everything} qp(id: P) --> [everything] // #P > rthing(id: P) rels(sub: P).
    RuleRow {
        label: Label::Everything,
        head: QP,
        feats: &[(ID, V0)],
        closing: false,
        body: &[
            Token(words::EVERYTHING),
            Opener,
            Here(0),
            Weak(RTHING, &[(ID, V0)]),
            Phrase(RELS, &[(SUB, V0)]),
        ],
    },
    // {nothing} qp(id: P) --> [nothing] // #P > rthing(id: P).
    RuleRow {
        label: Label::Nothing,
        head: QP,
        feats: &[(ID, V0)],
        closing: false,
        body: &[
            Token(words::NOTHING),
            Opener,
            Here(0),
            Weak(RTHING, &[(ID, V0)]),
        ],
    },
    // {nothing} qp(id: P) --> [nothing] // #P > rthing(id: P) rels(sub: P).
    RuleRow {
        label: Label::Nothing,
        head: QP,
        feats: &[(ID, V0)],
        closing: false,
        body: &[
            Token(words::NOTHING),
            Opener,
            Here(0),
            Weak(RTHING, &[(ID, V0)]),
            Phrase(RELS, &[(SUB, V0)]),
        ],
    },
    // {noun} nb(vow: V, id: P) --> $noun(num: sg, vow: V, w: W) #P > rnoun(w: W, id: P).
    RuleRow {
        label: Label::Noun,
        head: NB,
        feats: &[(VOW, V0), (ID, V1)],
        closing: false,
        body: &[
            Word(NOUN, &[(NUM, SG), (VOW, V0), (W, V2)]),
            Here(1),
            Weak(RNOUN, &[(W, V2), (ID, V1)]),
        ],
    },
    // {noun} nb(vow: V, id: P) --> $noun(num: sg, vow: V, w: W) #P > rnoun(w: W, id: P) rels(sub: P).
    RuleRow {
        label: Label::Noun,
        head: NB,
        feats: &[(VOW, V0), (ID, V1)],
        closing: false,
        body: &[
            Word(NOUN, &[(NUM, SG), (VOW, V0), (W, V2)]),
            Here(1),
            Weak(RNOUN, &[(W, V2), (ID, V1)]),
            Phrase(RELS, &[(SUB, V1)]),
        ],
    },
    // {part} nb(vow: V, id: P) --> $of(vow: V, w: W) #P > rnoun(w: W, id: P) [of] obj(sub: P).
    RuleRow {
        label: Label::Part,
        head: NB,
        feats: &[(VOW, V0), (ID, V1)],
        closing: false,
        body: &[
            Word(OF, &[(VOW, V0), (W, V2)]),
            Here(1),
            Weak(RNOUN, &[(W, V2), (ID, V1)]),
            Token(words::OF),
            Phrase(OBJ, &[(SUB, V1)]),
        ],
    },
];

/// Adds rules 65 to 76.
pub fn add_quantifiers(alloc: Global, rules: &mut Rules) -> Result<(), Memory>
    ensures { OnOk result (rules.new ≡ rules.old ++ quantifiers) }
{
    add_rules(alloc, rules, &QUANTIFIERS)
}
