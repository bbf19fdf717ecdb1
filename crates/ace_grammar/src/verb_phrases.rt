// Verb phrases: verbs, `only`, `not`, `does`, `is`.
ghost use Rattle.std.specs.Prelude.{◌≡◌, ◌++◌, OnOk};
ghost use Rattle.ace_grammar.specs.VerbPhrases.{verb_phrases};

use crate::names::{
    BE, DO, FORM, ID, INF, NOUN, NUM, OBJ, PL, PR, RNOUN, SG, SUB, THIRD, V0, V1, VERB, VI, VP,
    VPA, VPO, VPR, VPS, W, words,
};
use crate::rows::ElementRow::{Here, Opener, Phrase, Token, Weak, Word};
use crate::rows::{RuleRow, add_rules};
use codeco_terms::{Label, Rules};
use std::alloc::Global;
use wiki_base::Memory;

static VERB_PHRASES: [RuleRow; 18] = [
    // {pass} vps(num: N, sub: S) --> vpa(num: N, sub: S).
    RuleRow {
        label: Label::Pass,
        head: VPS,
        feats: &[(NUM, V0), (SUB, V1)],
        closing: false,
        body: &[Phrase(VPA, &[(NUM, V0), (SUB, V1)])],
    },
    // {or} vps(num: N, sub: S) --> vpo(num: N, sub: S) [or] vpr(num: N, sub: S).
    RuleRow {
        label: Label::Or,
        head: VPS,
        feats: &[(NUM, V0), (SUB, V1)],
        closing: false,
        body: &[
            Phrase(VPO, &[(NUM, V0), (SUB, V1)]),
            Token(words::OR),
            Phrase(VPR, &[(NUM, V0), (SUB, V1)]),
        ],
    },
    // {pass} vpo(num: N, sub: S) ~~> // vpa(num: N, sub: S).
    RuleRow {
        label: Label::Pass,
        head: VPO,
        feats: &[(NUM, V0), (SUB, V1)],
        closing: true,
        body: &[Opener, Phrase(VPA, &[(NUM, V0), (SUB, V1)])],
    },
    // {pass} vpr(num: N, sub: S) --> vpo(num: N, sub: S).
    RuleRow {
        label: Label::Pass,
        head: VPR,
        feats: &[(NUM, V0), (SUB, V1)],
        closing: false,
        body: &[Phrase(VPO, &[(NUM, V0), (SUB, V1)])],
    },
    // {or} vpr(num: N, sub: S) --> vpo(num: N, sub: S) [or] vpr(num: N, sub: S).
    RuleRow {
        label: Label::Or,
        head: VPR,
        feats: &[(NUM, V0), (SUB, V1)],
        closing: false,
        body: &[
            Phrase(VPO, &[(NUM, V0), (SUB, V1)]),
            Token(words::OR),
            Phrase(VPR, &[(NUM, V0), (SUB, V1)]),
        ],
    },
    // {pass} vpa(num: N, sub: S) --> vp(num: N, sub: S).
    RuleRow {
        label: Label::Pass,
        head: VPA,
        feats: &[(NUM, V0), (SUB, V1)],
        closing: false,
        body: &[Phrase(VP, &[(NUM, V0), (SUB, V1)])],
    },
    // {and} vpa(num: N, sub: S) --> vp(num: N, sub: S) [and] vpa(num: N, sub: S).
    RuleRow {
        label: Label::And,
        head: VPA,
        feats: &[(NUM, V0), (SUB, V1)],
        closing: false,
        body: &[
            Phrase(VP, &[(NUM, V0), (SUB, V1)]),
            Token(words::AND),
            Phrase(VPA, &[(NUM, V0), (SUB, V1)]),
        ],
    },
    // {does} vp(num: sg, sub: S) ~~> $verb(form: third) obj(sub: S).
    RuleRow {
        label: Label::Does,
        head: VP,
        feats: &[(NUM, SG), (SUB, V0)],
        closing: true,
        body: &[Word(VERB, &[(FORM, THIRD)]), Phrase(OBJ, &[(SUB, V0)])],
    },
    // {does} vp(num: pl, sub: S) ~~> $verb(form: inf) obj(sub: S).
    RuleRow {
        label: Label::Does,
        head: VP,
        feats: &[(NUM, PL), (SUB, V0)],
        closing: true,
        body: &[Word(VERB, &[(FORM, INF)]), Phrase(OBJ, &[(SUB, V0)])],
    },
    // {only} vp(num: sg) ~~> $verb(form: third) [only] // $noun(num: pl, w: W) #P > rnoun(w: W, id: P).
    RuleRow {
        label: Label::Only,
        head: VP,
        feats: &[(NUM, SG)],
        closing: true,
        body: &[
            Word(VERB, &[(FORM, THIRD)]),
            Token(words::ONLY),
            Opener,
            Word(NOUN, &[(NUM, PL), (W, V0)]),
            Here(1),
            Weak(RNOUN, &[(W, V0), (ID, V1)]),
        ],
    },
    // {not} vp(num: N, sub: S) ~~> do(num: N) [not] // vi(sub: S).
    RuleRow {
        label: Label::Not,
        head: VP,
        feats: &[(NUM, V0), (SUB, V1)],
        closing: true,
        body: &[
            Phrase(DO, &[(NUM, V0)]),
            Token(words::NOT),
            Opener,
            Phrase(VI, &[(SUB, V1)]),
        ],
    },
    // {does} vi(sub: S) --> $verb(form: inf) obj(sub: S).
    RuleRow {
        label: Label::Does,
        head: VI,
        feats: &[(SUB, V0)],
        closing: false,
        body: &[Word(VERB, &[(FORM, INF)]), Phrase(OBJ, &[(SUB, V0)])],
    },
    // {pass} vp(num: N, sub: S) ~~> be(num: N) pr(num: N, sub: S).
    RuleRow {
        label: Label::Pass,
        head: VP,
        feats: &[(NUM, V0), (SUB, V1)],
        closing: true,
        body: &[
            Phrase(BE, &[(NUM, V0)]),
            Phrase(PR, &[(NUM, V0), (SUB, V1)]),
        ],
    },
    // {not} vp(num: N, sub: S) ~~> be(num: N) [not] // pr(num: N, sub: S).
    RuleRow {
        label: Label::Not,
        head: VP,
        feats: &[(NUM, V0), (SUB, V1)],
        closing: true,
        body: &[
            Phrase(BE, &[(NUM, V0)]),
            Token(words::NOT),
            Opener,
            Phrase(PR, &[(NUM, V0), (SUB, V1)]),
        ],
    },
    // {mark} do(num: sg) --> [does].
    RuleRow {
        label: Label::Mark,
        head: DO,
        feats: &[(NUM, SG)],
        closing: false,
        body: &[Token(words::DOES)],
    },
    // {mark} do(num: pl) --> [do].
    RuleRow {
        label: Label::Mark,
        head: DO,
        feats: &[(NUM, PL)],
        closing: false,
        body: &[Token(words::DO)],
    },
    // {mark} be(num: sg) --> [is].
    RuleRow {
        label: Label::Mark,
        head: BE,
        feats: &[(NUM, SG)],
        closing: false,
        body: &[Token(words::IS)],
    },
    // {mark} be(num: pl) --> [are].
    RuleRow {
        label: Label::Mark,
        head: BE,
        feats: &[(NUM, PL)],
        closing: false,
        body: &[Token(words::ARE)],
    },
];

/// Adds rules 8 to 25.
pub fn add_verb_phrases(alloc: Global, rules: &mut Rules) -> Result<(), Memory>
    ensures { OnOk result (rules.new ≡ rules.old ++ verb_phrases) }
{
    add_rules(alloc, rules, &VERB_PHRASES)
}
