// From a text to what it means.
ghost use Rattle.std.specs.Prelude.{IsTrue};
ghost use Rattle.codeco_checked.specs.Sound.{is_labelled};

use ace_to_owl::{Asked, Mapped, map_question, map_statement};
use codeco_checked::CheckedGrammar;
use derivations::{Cut, cut, plain_least};
use drs_build::{Built, build};
use lexicon::{Kind, Lexicon, forms};
use owl_eval::{Interp, drs_true, in_class, is_model};
use std::alloc::Global;
use std::test::Fail;
use wiki_base::{Text, WordId};

pub const MARY: WordId = WordId(1);

pub const BILL: WordId = WordId(2);

pub const GERMANY: WordId = WordId(3);

pub const MAN: WordId = WordId(4);

pub const DOG: WordId = WordId(5);

pub const CAT: WordId = WordId(6);

pub const COUNTRY: WordId = WordId(7);

pub const SEE: WordId = WordId(8);

pub const OWN: WordId = WordId(9);

pub const BORDER: WordId = WordId(10);

pub const PART: WordId = WordId(11);

pub const NEAR: WordId = WordId(12);

const WORDS: [(Kind, &[&str]); 13] = [
    (Kind::Name, &["Mary"]),
    (Kind::Name, &["Bill"]),
    (Kind::Name, &["Germany"]),
    (Kind::Noun, &["man", "men"]),
    (Kind::Noun, &["dog"]),
    (Kind::Noun, &["cat"]),
    (Kind::Noun, &["country"]),
    (Kind::Verb, &["sees", "see", "seen"]),
    (Kind::Verb, &["owns", "own", "owned"]),
    (Kind::Verb, &["border"]),
    (Kind::Of, &["part"]),
    (Kind::Adjective, &["near"]),
    (Kind::Name, &["Sue"]),
];

/// The words of the sentences, with the numbers above.
pub fn words(alloc: Global, grammar: &CheckedGrammar) -> Result<Lexicon, Fail> {
    let mut lexicon = Lexicon::new(alloc, grammar.grammar())?;
    for (kind, texts) in WORDS {
        let mut given = Vec::new(alloc);
        for text in texts {
            given.push(Text::read(alloc, text)?)?;
        }
        let forms = forms(alloc, kind, given.as_slice())?;
        if lexicon.add(&forms).is_err() {
            return Err(Fail::new("a word that is free"));
        }
    }
    Ok(lexicon)
}

/// What the least skeleton of the text means.
pub fn built(
    alloc: Global,
    grammar: &CheckedGrammar,
    lexicon: &Lexicon,
    text: &str,
) -> Result<Built, Fail>
    requires { IsTrue (is_labelled grammar.now) }
{
    let Cut::Tokens(tokens) = cut(alloc, grammar.grammar(), text)? else {
        return Err(Fail::new("at most 40 tokens"));
    };
    let Some(skeleton) = plain_least(alloc, grammar, lexicon, &tokens)? else {
        return Err(Fail::new("a sentence"));
    };
    Ok(build(alloc, grammar, &skeleton)?)
}

/// Whether the structure of a statement is true in each of the interpretations exactly where all its axioms are, and that
/// of a question exactly where something is in its class.
pub fn agree(alloc: Global, interps: &[Interp], built: &Built) -> Result<bool, Fail> {
    match built {
        Built::Statement(drs) => {
            let Mapped::Axioms(axioms) = map_statement(alloc, drs)? else {
                return Err(Fail::new("a statement that is mapped"));
            };
            for interp in interps {
                if drs_true(alloc, interp, drs)? != is_model(interp, &axioms) {
                    return Ok(false);
                }
            }
            Ok(true)
        }
        Built::Question(drs, asked) => {
            let Asked::Class(class) = map_question(alloc, drs, *asked)? else {
                return Err(Fail::new("a question that is mapped"));
            };
            for interp in interps {
                let size = interp.size();
                let any = in_class(interp, &class, 0) || size > 1 && in_class(interp, &class, 1);
                if drs_true(alloc, interp, drs)? != any {
                    return Ok(false);
                }
            }
            Ok(true)
        }
        Built::Free(_) => Err(Fail::new("a structure")),
    }
}
