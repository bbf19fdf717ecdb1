// Words as they are told.
ghost use Rattle.std.specs.Prelude.{◌≡◌, IfOk, map};
ghost use Rattle.plain_wiki.specs.Words.{told_word, told_words};

use lexicon::{Forms, Lexicon, Texts};
use std::alloc::Global;
use wiki_base::{Memory, Text, Text8, Text8s};
use wiki_talk::{WordView, WordViews};

/// A text as it is told.
pub fn told_text(alloc: Global, text: &Text) -> Result<Text8, Memory>
    ensures { IfOk result (λ told. told ≡ text.now) }
{
    Text8::from_str(alloc, text.as_str())
}

fn told_texts(alloc: Global, texts: &Texts) -> Result<Text8s, Memory>
    ensures { IfOk result (λ told. told ≡ texts.now) }
{
    let mut told = Vec::new(alloc);
    for text in texts.as_slice() {
        told.push(told_text(alloc, text)?)?;
    }
    Ok(Text8s::from_vec(told))
}

/// A word as it is told.
pub fn told_word(alloc: Global, forms: &Forms) -> Result<WordView, Memory>
    ensures { IfOk result (λ told. told ≡ told_word forms.now) }
{
    Ok(WordView {
        kind: forms.kind,
        forms: told_texts(alloc, &forms.texts)?,
    })
}

/// All words of a lexicon, in order of number.
pub fn told_words(alloc: Global, lexicon: &Lexicon) -> Result<WordViews, Memory>
    ensures { IfOk result (λ told. told ≡ told_words lexicon.now) }
{
    let mut told = Vec::new(alloc);
    for place in 0..lexicon.len() {
        told.push(told_word(alloc, &lexicon.get(place).forms)?)?;
    }
    Ok(WordViews::from_vec(told))
}
