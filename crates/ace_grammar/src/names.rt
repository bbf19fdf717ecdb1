// The numbers of features, atoms, terminals and categories, as the notation gives them.
use codeco_checked::FIRST_PLAIN;
use codeco_terms::{Term, Value};

pub const NUM: u16 = 0;

pub const VOW: u16 = 1;

pub const FORM: u16 = 2;

pub const W: u16 = 3;

pub const V: u16 = 4;

pub const ID: u16 = 5;

pub const SUB: u16 = 6;

pub const SG: Term = Term::Val(Value::Atom(0));

pub const PL: Term = Term::Val(Value::Atom(1));

pub const YES: Term = Term::Val(Value::Atom(2));

pub const NO: Term = Term::Val(Value::Atom(3));

pub const THIRD: Term = Term::Val(Value::Atom(4));

pub const INF: Term = Term::Val(Value::Atom(5));

pub const PART: Term = Term::Val(Value::Atom(6));

pub const X: Term = Term::Val(Value::Atom(7));

pub const Y: Term = Term::Val(Value::Atom(8));

pub const Z: Term = Term::Val(Value::Atom(9));

pub const V0: Term = Term::Var(0);

pub const V1: Term = Term::Var(1);

pub const V2: Term = Term::Var(2);

pub const NAME: u16 = 0;

pub const NOUN: u16 = 1;

pub const OF: u16 = 2;

pub const VERB: u16 = 3;

pub const ADJ: u16 = 4;

pub const TEXT: u16 = FIRST_PLAIN;

pub const S: u16 = 6;

pub const Q: u16 = 7;

pub const C: u16 = 8;

pub const CS: u16 = 9;

pub const NP: u16 = 10;

pub const VPS: u16 = 11;

pub const VPA: u16 = 12;

pub const VPO: u16 = 13;

pub const VPR: u16 = 14;

pub const VP: u16 = 15;

pub const OBJ: u16 = 16;

pub const RNOUN: u16 = 17;

pub const DO: u16 = 18;

pub const VI: u16 = 19;

pub const BE: u16 = 20;

pub const PR: u16 = 21;

pub const DET: u16 = 22;

pub const PB: u16 = 23;

pub const RELS: u16 = 24;

pub const TERM: u16 = 25;

pub const PRON: u16 = 26;

pub const REL: u16 = 27;

pub const RELO: u16 = 28;

pub const RELR: u16 = 29;

pub const RP: u16 = 30;

pub const QP: u16 = 31;

pub const RNAME: u16 = 32;

pub const RTHING: u16 = 33;

pub const RVAR: u16 = 34;

pub const NB: u16 = 35;

pub const NQ: u16 = 36;

/// The numbers of the terminals.
pub mod words {
    pub const STOP: u16 = 0;

    pub const QUESTION_MARK: u16 = 1;

    pub const IF: u16 = 2;

    pub const THEN: u16 = 3;

    pub const AND: u16 = 4;

    pub const OR: u16 = 5;

    pub const ONLY: u16 = 6;

    pub const NOT: u16 = 7;

    pub const DOES: u16 = 8;

    pub const DO: u16 = 9;

    pub const IS: u16 = 10;

    pub const ARE: u16 = 11;

    pub const BY: u16 = 12;

    pub const SOMETHING: u16 = 13;

    pub const A: u16 = 14;

    pub const AN: u16 = 15;

    pub const OF: u16 = 16;

    pub const THAT: u16 = 17;

    pub const WHO: u16 = 18;

    pub const IT: u16 = 19;

    pub const ITSELF: u16 = 20;

    pub const THE: u16 = 21;

    pub const X: u16 = 22;

    pub const Y: u16 = 23;

    pub const Z: u16 = 24;

    pub const EVERY: u16 = 25;

    pub const NO: u16 = 26;

    pub const EVERYTHING: u16 = 27;

    pub const NOTHING: u16 = 28;

    pub const WHAT: u16 = 29;

    pub const WHICH: u16 = 30;
}

pub static ATOM_NAMES: [&[u8]; 10] = [
    b"sg", b"pl", b"yes", b"no", b"third", b"inf", b"part", b"x", b"y", b"z",
];

pub static TERMINAL_TEXTS: [&[u8]; 31] = [
    b".",
    b"?",
    b"if",
    b"then",
    b"and",
    b"or",
    b"only",
    b"not",
    b"does",
    b"do",
    b"is",
    b"are",
    b"by",
    b"something",
    b"a",
    b"an",
    b"of",
    b"that",
    b"who",
    b"it",
    b"itself",
    b"the",
    b"X",
    b"Y",
    b"Z",
    b"every",
    b"no",
    b"everything",
    b"nothing",
    b"what",
    b"which",
];

pub static CATEGORY_NAMES: [&[u8]; 37] = [
    b"name", b"noun", b"of", b"verb", b"adj", b"text", b"s", b"q", b"c", b"cs", b"np", b"vps",
    b"vpa", b"vpo", b"vpr", b"vp", b"obj", b"rnoun", b"do", b"vi", b"be", b"pr", b"det", b"pb",
    b"rels", b"term", b"pron", b"rel", b"relo", b"relr", b"rp", b"qp", b"rname", b"rthing",
    b"rvar", b"nb", b"nq",
];
