// The words of the tests, and what is told of an axiom as a line.
ghost use Rattle.std.specs.Prelude.{IsTrue};
ghost use Rattle.codeco_checked.specs.Sound.{is_labelled};

use ace_to_owl::{Mapped, map_statement};
use chart_trees::least_of;
use codeco_checked::CheckedGrammar;
use derivation_trees::{Cut, cut, show};
use drs_build::{Built, build};
use lexicon::{Kind, Lexicon, forms};
use logic_terms::{Axiom, Axioms};
use owl_text::print_axiom;
use std::alloc::Global;
use std::test::Fail;
use verbalise::{Reading, Spoken, say};
use wiki_base::{Text, Text8, WordId};

pub const MARY: WordId = WordId(1);

pub const BILL: WordId = WordId(2);

pub const MAN: WordId = WordId(4);

pub const DOG: WordId = WordId(5);

pub const OWL: WordId = WordId(6);

pub const SEE: WordId = WordId(9);

pub const PART: WordId = WordId(12);

pub const NEAR: WordId = WordId(14);

/// The words, with the numbers above: names, nouns, verbs, of-constructs and adjectives. Of `sheep` and `put` the forms
/// coincide; `owl`, `uncle` and `afraid-of` begin with a vowel.
pub static WORDS: [(Kind, &[&str]); 15] = [
    (Kind::Name, &["Mary"]),
    (Kind::Name, &["Bill"]),
    (Kind::Name, &["Ann"]),
    (Kind::Noun, &["man", "men"]),
    (Kind::Noun, &["dog"]),
    (Kind::Noun, &["owl"]),
    (Kind::Noun, &["sheep", "sheep"]),
    (Kind::Noun, &["cat"]),
    (Kind::Verb, &["sees", "see", "seen"]),
    (Kind::Verb, &["owns", "own", "owned"]),
    (Kind::Verb, &["put", "put", "put"]),
    (Kind::Of, &["part"]),
    (Kind::Of, &["uncle"]),
    (Kind::Adjective, &["near"]),
    (Kind::Adjective, &["afraid-of"]),
];

/// The lexicon of these words.
pub fn words(alloc: Global, grammar: &CheckedGrammar) -> Result<Lexicon, Fail> {
    let mut lexicon = Lexicon::new(alloc, grammar.grammar())?;
    for (kind, texts) in &WORDS {
        let mut given = Vec::new(alloc);
        for text in *texts {
            given.push(Text::read(alloc, text)?)?;
        }
        let forms = forms(alloc, *kind, given.as_slice())?;
        if lexicon.add(&forms).is_err() {
            return Err(Fail::new("a word that is free"));
        }
    }
    Ok(lexicon)
}

/// The axioms that a sentence states.
pub fn stated(
    alloc: Global,
    grammar: &CheckedGrammar,
    lexicon: &Lexicon,
    text: &str,
) -> Result<Axioms, Fail>
    requires { IsTrue (is_labelled grammar.now) }
{
    let Cut::Tokens(tokens) = cut(alloc, grammar.grammar(), text)? else {
        return Err(Fail::new("at most 40 tokens"));
    };
    let Some(skeleton) = least_of(alloc, grammar, lexicon, &tokens)? else {
        return Err(Fail::new("a sentence"));
    };
    let Built::Statement(drs) = build(alloc, grammar, &skeleton)? else {
        return Err(Fail::new("a statement"));
    };
    match map_statement(alloc, &drs)? {
        Mapped::Axioms(axioms) => Ok(axioms),
        Mapped::Outside(_) => Err(Fail::new("a statement that has axioms")),
    }
}

fn read_as(reading: &Reading) -> &'static str {
    match reading {
        Reading::NoSentence => "no sentence",
        Reading::Question => "a question",
        Reading::Outside(_) => "outside",
        Reading::Axioms(_) => "other axioms",
    }
}

/// What is told of an axiom: the sentence, or why there is none.
pub fn told(
    alloc: Global,
    grammar: &CheckedGrammar,
    lexicon: &Lexicon,
    axiom: &Axiom,
) -> Result<Text8, Fail>
    requires { IsTrue (is_labelled grammar.now) }
{
    match say(grammar, lexicon, axiom)? {
        Spoken::Sentence(tokens) => Ok(show(alloc, grammar.grammar(), &tokens)?),
        Spoken::NoPattern => Ok(Text8::from_str(alloc, "no pattern")?),
        Spoken::TooLong(count) => { Ok(Text8::from_string(format!(in alloc; "{count} tokens")?)) }
        Spoken::ReadOtherwise(tokens, reading) => {
            let mut text = show(alloc, grammar.grammar(), &tokens)?;
            text.push_str(" is read as ")?;
            text.push_str(read_as(&reading))?;
            Ok(text)
        }
    }
}

/// A line for each axiom: the sentence, or else a hyphen and the axiom in functional syntax.
pub fn lines(
    alloc: Global,
    grammar: &CheckedGrammar,
    lexicon: &Lexicon,
    axioms: &Axioms,
) -> Result<Text8, Fail>
    requires { IsTrue (is_labelled grammar.now) }
{
    let mut text = Text8::new(alloc);
    for axiom in axioms.as_slice() {
        match say(grammar, lexicon, axiom)? {
            Spoken::Sentence(tokens) => {
                text.push_str(show(alloc, grammar.grammar(), &tokens)?.as_str())?;
            }
            _ => {
                text.push_str("- ")?;
                text.push_str(print_axiom(alloc, axiom, lexicon)?.as_str())?;
            }
        }
        text.push_str("\n")?;
    }
    Ok(text)
}
