// Questions.
ghost use Rattle.std.specs.Prelude.{◌≡◌, ◌++◌, OnOk};
ghost use Rattle.ace_grammar.specs.Questions.{questions};

use crate::names::{
    FORM, ID, INF, NOUN, NP, NQ, NUM, Q, RNOUN, RTHING, SG, SUB, V0, V1, V2, VERB, VPS, W, words,
};
use crate::rows::ElementRow::{Here, Phrase, Token, Weak, Word};
use crate::rows::{RuleRow, add_rules};
use codeco_terms::{Label, Rules};
use std::alloc::Global;
use wiki_base::Memory;

static QUESTIONS: [RuleRow; 5] = [
    // {what} q ~~> [what] #P > rthing(id: P) vps(num: sg, sub: P).
    RuleRow {
        label: Label::What,
        head: Q,
        feats: &[],
        closing: true,
        body: &[
            Token(words::WHAT),
            Here(0),
            Weak(RTHING, &[(ID, V0)]),
            Phrase(VPS, &[(NUM, SG), (SUB, V0)]),
        ],
    },
    // {what} q ~~> [who] #P > rthing(id: P) vps(num: sg, sub: P).
    RuleRow {
        label: Label::What,
        head: Q,
        feats: &[],
        closing: true,
        body: &[
            Token(words::WHO),
            Here(0),
            Weak(RTHING, &[(ID, V0)]),
            Phrase(VPS, &[(NUM, SG), (SUB, V0)]),
        ],
    },
    // {which} q ~~> [which] nq(num: N, id: P) vps(num: N, sub: P).
    RuleRow {
        label: Label::Which,
        head: Q,
        feats: &[],
        closing: true,
        body: &[
            Token(words::WHICH),
            Phrase(NQ, &[(NUM, V0), (ID, V1)]),
            Phrase(VPS, &[(NUM, V0), (SUB, V1)]),
        ],
    },
    // {noun} nq(num: N, id: P) --> $noun(num: N, w: W) #P > rnoun(w: W, id: P).
    RuleRow {
        label: Label::Noun,
        head: NQ,
        feats: &[(NUM, V0), (ID, V1)],
        closing: false,
        body: &[
            Word(NOUN, &[(NUM, V0), (W, V2)]),
            Here(1),
            Weak(RNOUN, &[(W, V2), (ID, V1)]),
        ],
    },
    // {whichobj} q ~~> [which] nq [does] np $verb(form: inf).
    RuleRow {
        label: Label::Whichobj,
        head: Q,
        feats: &[],
        closing: true,
        body: &[
            Token(words::WHICH),
            Phrase(NQ, &[]),
            Token(words::DOES),
            Phrase(NP, &[]),
            Word(VERB, &[(FORM, INF)]),
        ],
    },
];

/// Adds rules 77 to 81.
pub fn add_questions(alloc: Global, rules: &mut Rules) -> Result<(), Memory>
    ensures { OnOk result (rules.new ≡ rules.old ++ questions) }
{
    add_rules(alloc, rules, &QUESTIONS)
}
