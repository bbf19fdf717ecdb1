// Relative clauses.
ghost use Rattle.std.specs.Prelude.{◌≡◌, ◌++◌, OnOk};
ghost use Rattle.ace_grammar.specs.RelativeClauses.{relative_clauses};

use crate::names::{FORM, NP, NUM, REL, RELO, RELR, RELS, RP, SG, SUB, THIRD, V0, VERB, VP, words};
use crate::rows::ElementRow::{Opener, Phrase, Token, Word};
use crate::rows::{RuleRow, add_rules};
use codeco_terms::{Label, Rules};
use std::alloc::Global;
use wiki_base::Memory;

static RELATIVE_CLAUSES: [RuleRow; 10] = [
    // {pass} rels(sub: S) --> rel(sub: S).
    RuleRow {
        label: Label::Pass,
        head: RELS,
        feats: &[(SUB, V0)],
        closing: false,
        body: &[Phrase(REL, &[(SUB, V0)])],
    },
    // {and} rels(sub: S) --> rel(sub: S) [and] rels(sub: S).
    RuleRow {
        label: Label::And,
        head: RELS,
        feats: &[(SUB, V0)],
        closing: false,
        body: &[
            Phrase(REL, &[(SUB, V0)]),
            Token(words::AND),
            Phrase(RELS, &[(SUB, V0)]),
        ],
    },
    // {or} rels(sub: S) --> relo(sub: S) [or] relr(sub: S).
    RuleRow {
        label: Label::Or,
        head: RELS,
        feats: &[(SUB, V0)],
        closing: false,
        body: &[
            Phrase(RELO, &[(SUB, V0)]),
            Token(words::OR),
            Phrase(RELR, &[(SUB, V0)]),
        ],
    },
    // {pass} relo(sub: S) ~~> // rel(sub: S).
    RuleRow {
        label: Label::Pass,
        head: RELO,
        feats: &[(SUB, V0)],
        closing: true,
        body: &[Opener, Phrase(REL, &[(SUB, V0)])],
    },
    // {pass} relr(sub: S) --> relo(sub: S).
    RuleRow {
        label: Label::Pass,
        head: RELR,
        feats: &[(SUB, V0)],
        closing: false,
        body: &[Phrase(RELO, &[(SUB, V0)])],
    },
    // {or} relr(sub: S) --> relo(sub: S) [or] relr(sub: S).
    RuleRow {
        label: Label::Or,
        head: RELR,
        feats: &[(SUB, V0)],
        closing: false,
        body: &[
            Phrase(RELO, &[(SUB, V0)]),
            Token(words::OR),
            Phrase(RELR, &[(SUB, V0)]),
        ],
    },
    // {pass} rel(sub: S) --> rp vp(num: sg, sub: S).
    RuleRow {
        label: Label::Pass,
        head: REL,
        feats: &[(SUB, V0)],
        closing: false,
        body: &[Phrase(RP, &[]), Phrase(VP, &[(NUM, SG), (SUB, V0)])],
    },
    // {gap} rel(sub: S) ~~> rp np $verb(form: third).
    RuleRow {
        label: Label::Gap,
        head: REL,
        feats: &[(SUB, V0)],
        closing: true,
        body: &[
            Phrase(RP, &[]),
            Phrase(NP, &[]),
            Word(VERB, &[(FORM, THIRD)]),
        ],
    },
    // {mark} rp --> [that].
    RuleRow {
        label: Label::Mark,
        head: RP,
        feats: &[],
        closing: false,
        body: &[Token(words::THAT)],
    },
    // {mark} rp --> [who].
    RuleRow {
        label: Label::Mark,
        head: RP,
        feats: &[],
        closing: false,
        body: &[Token(words::WHO)],
    },
];

/// Adds rules 38 to 47.
pub fn add_relative_clauses(alloc: Global, rules: &mut Rules) -> Result<(), Memory>
    ensures { OnOk result (rules.new ≡ rules.old ++ relative_clauses) }
{
    add_rules(alloc, rules, &RELATIVE_CLAUSES)
}
