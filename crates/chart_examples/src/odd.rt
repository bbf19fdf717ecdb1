//! Small grammars, one for each odd thing that a rule may do, and all lists of their tokens.
use crate::agreement::difference;
use crate::cases::{grammar_of, words};
use codeco_checked::CheckedGrammar;
use lexicon::{Kind, Lexicon};
use std::alloc::Global;
use std::test::Fail;

/// A small grammar in which a rule does something odd, with the tokens of its lists; its words are an ox, a sheep and a cat.
pub struct Oddity {
    pub grammar: &'static str,
    pub tokens: &'static [&'static str],
}

/// A variable stands twice in a category.
pub const TWICE_IN_A_CATEGORY: Oddity = Oddity {
    grammar: "feature k: p, q. feature l: p, q. text --> a(k: K, l: K). a(k: X, l: Y) --> b(k: X) c(l: Y). \
     b(k: p) --> [t]. c(l: q) --> [u]. c(l: p) --> [v].",
    tokens: &["t", "u", "v", "fish"],
};

/// A variable stands twice in a head.
pub const TWICE_IN_A_HEAD: Oddity = Oddity {
    grammar: "feature k: p, q. feature l: p, q. text --> a(k: K, l: L) b(k: K, l: L). \
     text --> a(k: K, l: L) [w] b(k: L, l: K). a(k: X, l: X) --> [t]. b(k: p, l: q) --> [u]. b(k: q, l: q) --> [v].",
    tokens: &["t", "u", "v", "w"],
};

/// A test waits for a later word: `t` has no partial derivation, and yet `t ox` is a sentence.
pub const OPEN_TEST: Oddity = Oddity {
    grammar: "feature w: word. text --> > x(w: W) < +x(w: V) -x(w: Z) [t] $noun(w: Z). \
     text --> $noun(w: N) > x(w: N) < +x(w: V) [s] $noun(w: V).",
    tokens: &["t", "s", "ox", "oxen", "cat"],
};

/// A marked variable has a value before.
pub const MARKED_TWICE: Oddity = Oddity {
    grammar: "feature id: position. text --> a(id: I) a(id: J) r(id: I) [e]. text --> a(id: I) r(id: I) [f]. \
     a(id: P) --> [t] #P > x(id: P). r(id: R) --> < +x(id: ?R) [r].",
    tokens: &["t", "r", "e", "f"],
};

/// A reference has negative patterns.
pub const NEGATIVE: Oddity = Oddity {
    grammar: "feature k: p, q. feature id: position. text --> m r [e]. text --> n r [e]. text --> m n r. \
     m --> [m] #P > x(k: p, id: P). n --> [n] #P > x(k: q, id: P). r --> < +x(id: ?I) -x(k: q) [r]. \
     r --> < +x(id: ?I) -x(k: L) [s] l(k: L). l(k: p) --> [m]. l(k: q) --> [n].",
    tokens: &["m", "n", "r", "s", "e"],
};

/// An introduction leaves features out.
pub const LEFT_OUT: Oddity = Oddity {
    grammar: "feature k: p, q. feature id: position. text --> m r. text --> m s. text --> m r s. m --> [m] #P > x(id: P). \
     r --> < +x(k: q, id: ?I) [r]. s --> < +x(k: K, id: ?I) [s] t(k: K). t(k: p) --> [t]. t(k: q) --> [u].",
    tokens: &["m", "r", "s", "t", "u"],
};

/// A variable is a place.
pub const PLACES: Oddity = Oddity {
    grammar: "feature id: position. text --> a(id: P) [u] b(id: P). text --> a(id: P) b(id: P). \
     a(id: P) --> [t] #P. b(id: P) --> #P [v]. b(id: P) --> [w].",
    tokens: &["t", "u", "v", "w"],
};

/// Scopes are nested.
pub const NESTED_OPENERS: Oddity = Oddity {
    grammar: "text --> s r. s ~~> // a u. u ~~> // a. u --> // a. u --> // s. a --> [a] > x. a --> [b] >> x. r --> < +x [r].",
    tokens: &["a", "b", "r"],
};

/// No referent may agree with a word that is to come.
pub const WORD_TO_COME: Oddity = Oddity {
    grammar: "feature w: word. text --> > x(w: A) /< +x(w: B) [t] $noun(w: A). text --> > x(w: A) /< +x(w: B) [s]. \
     text --> $noun(w: A) > x(w: A) /< +x(w: B) [t] $noun(w: B).",
    tokens: &["t", "s", "ox", "oxen", "cat"],
};

/// No referent may agree with a place that is to come.
pub const PLACE_TO_COME: Oddity = Oddity {
    grammar: "feature id: position. text --> #A > x(id: A) [t] #B > x(id: B) /< +x(id: I). \
     text --> #A > x(id: A) [t] #B > x(id: B) /< +x(id: I) [u] #I [v].",
    tokens: &["t", "u", "v"],
};

/// Forms agree in number and first letter.
pub const AGREEING: Oddity = Oddity {
    grammar: "feature num: sg, pl. feature vow: yes, no. text --> $noun(num: X) v(num: X). text --> d(vow: V) $noun(num: sg, vow: V) v(num: sg). \
     v(num: sg) --> [runs]. v(num: pl) --> [run]. d(vow: yes) --> [an]. d(vow: no) --> [a].",
    tokens: &["a", "an", "ox", "oxen", "sheep", "run", "runs"],
};

/// A word has to be new, or the same.
pub const OTHER_WORD: Oddity = Oddity {
    grammar: "feature w: word. text --> $noun(w: A) > x(w: A) /< +x(w: B) $noun(w: B) [e]. \
     text --> $noun(w: A) [f] $noun(w: A) $noun(w: B).",
    tokens: &["ox", "oxen", "cat", "e", "f"],
};

/// Tokens have many trees.
pub const AMBIGUOUS: Oddity = Oddity {
    grammar: "text --> s [e]. s --> a. s --> a s. s --> b s. a --> [x]. b --> [x].",
    tokens: &["x", "e"],
};

/// Many of one category stand in a row, and tokens can be shared out among them in many ways.
pub const MANY_IN_A_ROW: Oddity = Oddity {
    grammar: "text --> a a a [e]. a --> [x]. a --> [x] a.",
    tokens: &["x", "e"],
};

/// All of them.
pub const ODD: [&Oddity; 14] = [
    &TWICE_IN_A_CATEGORY,
    &TWICE_IN_A_HEAD,
    &OPEN_TEST,
    &MARKED_TWICE,
    &NEGATIVE,
    &LEFT_OUT,
    &PLACES,
    &NESTED_OPENERS,
    &WORD_TO_COME,
    &PLACE_TO_COME,
    &AGREEING,
    &OTHER_WORD,
    &AMBIGUOUS,
    &MANY_IN_A_ROW,
];

pub(crate) const NOUNS: [(Kind, &[&str]); 3] = [
    (Kind::Noun, &["ox", "oxen"]),
    (Kind::Noun, &["sheep", "sheep"]),
    (Kind::Noun, &["cat", "cats"]),
];

// The text of so many of the tokens; the number, by its digits, tells of which.
pub(crate) fn text_with(
    alloc: Global,
    tokens: &[&str],
    number: usize,
    length: usize,
) -> Result<String, Fail> {
    let mut text = String::new(alloc);
    let mut left = number;
    for _ in 0..length {
        if tokens.is_empty() {
            break;
        }
        text.push_str(tokens[left % tokens.len()])?;
        text.push_str(" ")?;
        left /= tokens.len();
    }
    Ok(text)
}

fn difference_on_texts(
    alloc: Global,
    grammar: &CheckedGrammar,
    lexicon: &Lexicon,
    tokens: &[&str],
    length: usize,
) -> Result<Option<(String, &'static str)>, Fail> {
    let mut count = 1usize;
    for _ in 0..length {
        count = count.saturating_mul(tokens.len());
    }
    for number in 0..count {
        let text = text_with(alloc, tokens, number, length)?;
        if let Some(what) = difference(alloc, grammar, lexicon, text.as_str())? {
            return Ok(Some((text, what)));
        }
    }
    Ok(None)
}

fn difference_with_nouns(
    alloc: Global,
    grammar: &CheckedGrammar,
    tokens: &[&str],
    length: usize,
) -> Result<Option<(String, &'static str)>, Fail> {
    let lexicon = words(alloc, grammar, &NOUNS)?;
    difference_on_texts(alloc, grammar, &lexicon, tokens, length)
}

/// The first list of so many of the grammar's tokens of which the chart tells something otherwise than the listing of trees, and what
/// that is.
pub fn difference_on_lists(
    alloc: Global,
    odd: &Oddity,
    length: usize,
) -> Result<Option<(String, &'static str)>, Fail> {
    let grammar = grammar_of(alloc, odd.grammar)?;
    difference_with_nouns(alloc, &grammar, odd.tokens, length)
}
