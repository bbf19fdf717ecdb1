// Parts of sentences: their tokens, or none where no pattern fits.
ghost use Rattle.std.specs.Prelude.{◌≡◌, ◌∷◌, [], Some, IfOk};
ghost use Rattle.wiki_base.specs.Token.{IsToken};
ghost use Rattle.lexicon.specs.Readings.{is_vowel, begins_with_vowel};
ghost use Rattle.verbalise.specs.Phrases.{◌⋅◌, article, form_at, form_with_article};

use lexicon::Texts;
use std::alloc::Global;
use wiki_base::{Memory, Text, Token, Tokens};

/// The tokens of a part of a sentence, or none where no pattern fits.
pub(crate) type Phrase = Option<Tokens>;

/// The one part and then the other.
pub(crate) fn then(first: Phrase, second: Phrase) -> Result<Phrase, Memory>
    ensures { IfOk result (λ joined. joined ≡ first ⋅ second) }
{
    let Some(mut tokens) = first else {
        return Ok(None);
    };
    let Some(more) = second else {
        return Ok(None);
    };
    tokens.append(more)?;
    Ok(Some(tokens))
}

/// A single token.
pub(crate) fn the(alloc: Global, word: &str) -> Result<Phrase, Memory>
    requires { IsToken word.now }
    ensures { IfOk result (λ phrase. phrase ≡ Some (word.now ∷ [])) }
{
    let mut tokens = Tokens::new(alloc);
    tokens.push(Token::from_str(alloc, word)?)?;
    Ok(Some(tokens))
}

/// The form at a place.
#[tactic(auto, using(std::proofs::lemmas::Option::slice_get_past))]
pub(crate) fn form_at(alloc: Global, forms: &Texts, place: usize) -> Result<Phrase, Memory>
    ensures { IfOk result (λ phrase. phrase ≡ form_at forms.now place) }
{
    if place < forms.len() {
        form_token(alloc, forms.get(place))
    } else {
        Ok(None)
    }
}

/// The first form behind its article.
pub(crate) fn form_with_article(alloc: Global, forms: &Texts) -> Result<Phrase, Memory>
    ensures { IfOk result (λ phrase. phrase ≡ form_with_article forms.now) }
{
    match forms.as_slice().get(0) {
        Some(form) => then(article(alloc, form.as_str())?, form_token(alloc, form)?),
        None => Ok(None),
    }
}

// A form as a token.
fn form_token(alloc: Global, form: &Text) -> Result<Phrase, Memory>
    ensures { IfOk result (λ phrase. phrase ≡ Some (form.now ∷ [])) }
{
    the(alloc, form.as_str())
}

// What stands before a form.
fn article(alloc: Global, form: &str) -> Result<Phrase, Memory>
    ensures { IfOk result (λ phrase. phrase ≡ Some (article form.now ∷ [])) }
{
    if begins_with_vowel(form.as_bytes()) {
        the(alloc, "an")
    } else {
        the(alloc, "a")
    }
}

fn begins_with_vowel(form: &[u8]) -> bool
    ensures { result ≡ begins_with_vowel form.now }
{
    match form {
        [] => false,
        [first, ..] => is_vowel(*first),
    }
}

fn is_vowel(letter: u8) -> bool
    ensures { result ≡ is_vowel letter }
{
    b"aeiouAEIOU".contains(&letter)
}
