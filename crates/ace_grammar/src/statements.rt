// Texts and statements.
ghost use Rattle.std.specs.Prelude.{◌≡◌, ◌++◌, OnOk};
ghost use Rattle.ace_grammar.specs.Statements.{statements};

use crate::names::{C, CS, ID, NP, NUM, Q, S, SG, SUB, TEXT, V0, VPS, words};
use crate::rows::ElementRow::{Opener, Phrase, Token};
use crate::rows::{RuleRow, add_rules};
use codeco_terms::{Label, Rules};
use std::alloc::Global;
use wiki_base::Memory;

static STATEMENTS: [RuleRow; 7] = [
    // {statement} text --> s [.].
    RuleRow {
        label: Label::Statement,
        head: TEXT,
        feats: &[],
        closing: false,
        body: &[Phrase(S, &[]), Token(words::STOP)],
    },
    // {ask} text --> q [?].
    RuleRow {
        label: Label::Ask,
        head: TEXT,
        feats: &[],
        closing: false,
        body: &[Phrase(Q, &[]), Token(words::QUESTION_MARK)],
    },
    // {pass} s --> c.
    RuleRow {
        label: Label::Pass,
        head: S,
        feats: &[],
        closing: false,
        body: &[Phrase(C, &[])],
    },
    // {if} s ~~> [if] // cs [then] cs.
    RuleRow {
        label: Label::If,
        head: S,
        feats: &[],
        closing: true,
        body: &[
            Token(words::IF),
            Opener,
            Phrase(CS, &[]),
            Token(words::THEN),
            Phrase(CS, &[]),
        ],
    },
    // {pass} cs --> c.
    RuleRow {
        label: Label::Pass,
        head: CS,
        feats: &[],
        closing: false,
        body: &[Phrase(C, &[])],
    },
    // {and} cs --> c [and] cs.
    RuleRow {
        label: Label::And,
        head: CS,
        feats: &[],
        closing: false,
        body: &[Phrase(C, &[]), Token(words::AND), Phrase(CS, &[])],
    },
    // {say} c ~~> np(id: I) vps(num: sg, sub: I).
    RuleRow {
        label: Label::Say,
        head: C,
        feats: &[],
        closing: true,
        body: &[
            Phrase(NP, &[(ID, V0)]),
            Phrase(VPS, &[(NUM, SG), (SUB, V0)]),
        ],
    },
];

/// Adds rules 1 to 7.
pub fn add_statements(alloc: Global, rules: &mut Rules) -> Result<(), Memory>
    ensures { OnOk result (rules.new ≡ rules.old ++ statements) }
{
    add_rules(alloc, rules, &STATEMENTS)
}
