// Noun phrases: subjects, objects, pronouns, names and variables.
ghost use Rattle.std.specs.Prelude.{◌≡◌, ◌++◌, OnOk};
ghost use Rattle.ace_grammar.specs.NounPhrases.{noun_phrases};

use crate::names::{
    ID, NAME, NOUN, NP, NUM, OBJ, OF, PRON, QP, RNAME, RNOUN, RTHING, RVAR, SG, SUB, TERM, V, V0,
    V1, W, X, Y, Z, words,
};
use crate::rows::ElementRow::{Back, Here, NoBack, Phrase, Strong, Token, Weak, Word};
use crate::rows::{PatternRow, RuleRow, add_rules};
use codeco_terms::{Label, Rules};
use std::alloc::Global;
use wiki_base::Memory;

static NOUN_PHRASES: [RuleRow; 17] = [
    // {pass} np(id: I) --> term(id: I).
    RuleRow {
        label: Label::Pass,
        head: NP,
        feats: &[(ID, V0)],
        closing: false,
        body: &[Phrase(TERM, &[(ID, V0)])],
    },
    // {pass} np(id: I) --> qp(id: I).
    RuleRow {
        label: Label::Pass,
        head: NP,
        feats: &[(ID, V0)],
        closing: false,
        body: &[Phrase(QP, &[(ID, V0)])],
    },
    // {refer} np(id: I) --> < +rname(id: ?I) +rnoun(id: ?I) +rthing(id: ?I) +rvar(id: ?I) [it].
    RuleRow {
        label: Label::Refer,
        head: NP,
        feats: &[(ID, V0)],
        closing: false,
        body: &[
            Back(
                &[
                    PatternRow(RNAME, &[], &[(ID, 0)]),
                    PatternRow(RNOUN, &[], &[(ID, 0)]),
                    PatternRow(RTHING, &[], &[(ID, 0)]),
                    PatternRow(RVAR, &[], &[(ID, 0)]),
                ],
                &[],
            ),
            Token(words::IT),
        ],
    },
    // {pass} obj --> term.
    RuleRow {
        label: Label::Pass,
        head: OBJ,
        feats: &[],
        closing: false,
        body: &[Phrase(TERM, &[])],
    },
    // {pass} obj --> qp.
    RuleRow {
        label: Label::Pass,
        head: OBJ,
        feats: &[],
        closing: false,
        body: &[Phrase(QP, &[])],
    },
    // {pass} obj(sub: S) --> pron(sub: S).
    RuleRow {
        label: Label::Pass,
        head: OBJ,
        feats: &[(SUB, V0)],
        closing: false,
        body: &[Phrase(PRON, &[(SUB, V0)])],
    },
    // {refer} pron(sub: S) --> < +rname(id: ?I) +rnoun(id: ?I) +rthing(id: ?I) +rvar(id: ?I)
    //     -rname(id: S) -rnoun(id: S) -rthing(id: S) -rvar(id: S) [it].
    RuleRow {
        label: Label::Refer,
        head: PRON,
        feats: &[(SUB, V0)],
        closing: false,
        body: &[
            Back(
                &[
                    PatternRow(RNAME, &[], &[(ID, 1)]),
                    PatternRow(RNOUN, &[], &[(ID, 1)]),
                    PatternRow(RTHING, &[], &[(ID, 1)]),
                    PatternRow(RVAR, &[], &[(ID, 1)]),
                ],
                &[
                    PatternRow(RNAME, &[(ID, V0)], &[]),
                    PatternRow(RNOUN, &[(ID, V0)], &[]),
                    PatternRow(RTHING, &[(ID, V0)], &[]),
                    PatternRow(RVAR, &[(ID, V0)], &[]),
                ],
            ),
            Token(words::IT),
        ],
    },
    // {refer} pron(sub: S) --> < +rname(id: S) +rnoun(id: S) +rthing(id: S) +rvar(id: S) [itself].
    RuleRow {
        label: Label::Refer,
        head: PRON,
        feats: &[(SUB, V0)],
        closing: false,
        body: &[
            Back(
                &[
                    PatternRow(RNAME, &[(ID, V0)], &[]),
                    PatternRow(RNOUN, &[(ID, V0)], &[]),
                    PatternRow(RTHING, &[(ID, V0)], &[]),
                    PatternRow(RVAR, &[(ID, V0)], &[]),
                ],
                &[],
            ),
            Token(words::ITSELF),
        ],
    },
    // {name} term(id: P) --> $name(w: W) #P >> rname(w: W, id: P).
    RuleRow {
        label: Label::Name,
        head: TERM,
        feats: &[(ID, V0)],
        closing: false,
        body: &[
            Word(NAME, &[(W, V1)]),
            Here(0),
            Strong(RNAME, &[(W, V1), (ID, V0)]),
        ],
    },
    // {refer} term(id: I) --> < +rnoun(w: W, id: ?I) [the] $noun(num: sg, w: W).
    RuleRow {
        label: Label::Refer,
        head: TERM,
        feats: &[(ID, V0)],
        closing: false,
        body: &[
            Back(&[PatternRow(RNOUN, &[(W, V1)], &[(ID, 0)])], &[]),
            Token(words::THE),
            Word(NOUN, &[(NUM, SG), (W, V1)]),
        ],
    },
    // {refer} term(id: I) --> < +rnoun(w: W, id: ?I) [the] $of(w: W).
    RuleRow {
        label: Label::Refer,
        head: TERM,
        feats: &[(ID, V0)],
        closing: false,
        body: &[
            Back(&[PatternRow(RNOUN, &[(W, V1)], &[(ID, 0)])], &[]),
            Token(words::THE),
            Word(OF, &[(W, V1)]),
        ],
    },
    // {var} term(id: P) --> /< +rvar(v: x) [X] #P > rvar(v: x, id: P).
    RuleRow {
        label: Label::Var,
        head: TERM,
        feats: &[(ID, V0)],
        closing: false,
        body: &[
            NoBack(&[PatternRow(RVAR, &[(V, X)], &[])]),
            Token(words::X),
            Here(0),
            Weak(RVAR, &[(V, X), (ID, V0)]),
        ],
    },
    // {refer} term(id: I) --> < +rvar(v: x, id: ?I) [X].
    RuleRow {
        label: Label::Refer,
        head: TERM,
        feats: &[(ID, V0)],
        closing: false,
        body: &[
            Back(&[PatternRow(RVAR, &[(V, X)], &[(ID, 0)])], &[]),
            Token(words::X),
        ],
    },
    // {var} term(id: P) --> /< +rvar(v: y) [Y] #P > rvar(v: y, id: P).
    RuleRow {
        label: Label::Var,
        head: TERM,
        feats: &[(ID, V0)],
        closing: false,
        body: &[
            NoBack(&[PatternRow(RVAR, &[(V, Y)], &[])]),
            Token(words::Y),
            Here(0),
            Weak(RVAR, &[(V, Y), (ID, V0)]),
        ],
    },
    // {refer} term(id: I) --> < +rvar(v: y, id: ?I) [Y].
    RuleRow {
        label: Label::Refer,
        head: TERM,
        feats: &[(ID, V0)],
        closing: false,
        body: &[
            Back(&[PatternRow(RVAR, &[(V, Y)], &[(ID, 0)])], &[]),
            Token(words::Y),
        ],
    },
    // {var} term(id: P) --> /< +rvar(v: z) [Z] #P > rvar(v: z, id: P).
    RuleRow {
        label: Label::Var,
        head: TERM,
        feats: &[(ID, V0)],
        closing: false,
        body: &[
            NoBack(&[PatternRow(RVAR, &[(V, Z)], &[])]),
            Token(words::Z),
            Here(0),
            Weak(RVAR, &[(V, Z), (ID, V0)]),
        ],
    },
    // {refer} term(id: I) --> < +rvar(v: z, id: ?I) [Z].
    RuleRow {
        label: Label::Refer,
        head: TERM,
        feats: &[(ID, V0)],
        closing: false,
        body: &[
            Back(&[PatternRow(RVAR, &[(V, Z)], &[(ID, 0)])], &[]),
            Token(words::Z),
        ],
    },
];

/// Adds rules 48 to 64.
pub fn add_noun_phrases(alloc: Global, rules: &mut Rules) -> Result<(), Memory>
    ensures { OnOk result (rules.new ≡ rules.old ++ noun_phrases) }
{
    add_rules(alloc, rules, &NOUN_PHRASES)
}
