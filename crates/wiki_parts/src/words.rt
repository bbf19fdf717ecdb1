// A new word, and why it is refused.
ghost use Rattle.std.specs.Prelude.{◌≡◌, None, Some, IfOk, IfErr, OnOk, OnErr, min};
ghost use Rattle.lexicon.specs.Kinds.{IsComplete};
ghost use Rattle.lexicon.specs.Suggest.{form_texts, told};
ghost use Rattle.lexicon.specs.Words.{with_word, owner, add_refusal};
ghost use Rattle.wiki_parts.specs.Faults.{IsCause};
ghost use Rattle.plain_wiki.specs.Words.{bad_text, bad_count, lexicon_refusal, taken_refusal, full_refusal, word_refusal};

use crate::faults::Fault;
use crate::told::told_text;
use lexicon::{FormFault, Forms, Kind, LexFault, LexLimit, Lexicon, forms};
use std::alloc::Global;
use wiki_base::{BadText, Memory, Text, Text8, WordId};
use wiki_talk::{Limit, Refusal};

/// Adds a word of which these texts are given.
pub fn add_word(
    alloc: Global,
    lexicon: &mut Lexicon,
    kind: Kind,
    given: &[Text8],
) -> Result<(), Fault>
    ensures added { OnOk result (lexicon.new ≡ with_word lexicon.old (record { kind = kind; texts = form_texts kind given.now })) }
    ensures accepted { OnOk result (word_refusal lexicon.old kind given.now ≡ None) }
    ensures free { OnOk result (add_refusal lexicon.old (record { kind = kind; texts = form_texts kind given.now }) ≡ None) }
    ensures refused { IfErr result (IsCause (word_refusal lexicon.old kind given.now)) }
    ensures err { OnErr result (lexicon.new ≡ lexicon.old) }
{
    let texts = texts_read(alloc, given)?;
    let forms = forms_given(alloc, kind, &texts)?;
    enter(alloc, lexicon, &forms)
}

/// The texts that can be forms.
pub fn texts_read(alloc: Global, given: &[Text8]) -> Result<Vec<Text>, Fault>
    ensures texts { IfOk result (λ texts. texts.items ≡ given.now) }
    ensures accepted { OnOk result (bad_text given.now ≡ None) }
    ensures refused { IfErr result (IsCause (bad_text given.now)) }
{
    let mut texts = Vec::new(alloc);
    for (place, text) in given.iter().enumerate() {
        match Text::read(alloc, text.as_str()) {
            Ok(text) => texts.push(text)?,
            Err(BadText::Memory) => return Err(Fault::Memory),
            Err(_) => return Err(bad_form(place)),
        }
    }
    Ok(texts)
}

fn bad_form(place: usize) -> Fault
    ensures { result ≡ Fault.Refused (Refusal.BadForm (told place)) }
{
    Fault::Refused(Refusal::BadForm {
        which: place.min(u32::MAX as usize) as u32,
    })
}

/// The forms of a word for which these texts are given.
pub fn forms_given(alloc: Global, kind: Kind, texts: &[Text]) -> Result<Forms, Fault>
    ensures forms { IfOk result (λ forms. forms ≡ record { kind = kind; texts = form_texts kind texts.now }) }
    ensures complete { IfOk result IsComplete }
    ensures accepted { OnOk result (bad_count kind texts.now ≡ None) }
    ensures refused { IfErr result (IsCause (bad_count kind texts.now)) }
{
    match forms(alloc, kind, texts) {
        Ok(forms) => Ok(forms),
        Err(FormFault::Count(which) | FormFault::TooLong(which)) => {
            Err(Fault::Refused(Refusal::BadForm { which }))
        }
        Err(FormFault::Memory) => Err(Fault::Memory),
    }
}

// Adds a word with these forms.
fn enter(alloc: Global, lexicon: &mut Lexicon, forms: &Forms) -> Result<(), Fault>
    requires { IsComplete forms.now }
    ensures added { OnOk result (lexicon.new ≡ with_word lexicon.old forms.now) }
    ensures accepted { OnOk result (lexicon_refusal lexicon.old (add_refusal lexicon.old forms.now) ≡ None) }
    ensures free { OnOk result (add_refusal lexicon.old forms.now ≡ None) }
    ensures refused { IfErr result (IsCause (lexicon_refusal lexicon.old (add_refusal lexicon.old forms.now))) }
    ensures err { OnErr result (lexicon.new ≡ lexicon.old) }
{
    match lexicon.add(forms) {
        Ok(_) => Ok(()),
        Err(LexFault::Taken { text, owner }) => {
            Err(Fault::Refused(taken_refusal(alloc, lexicon, &text, owner)?))
        }
        Err(LexFault::Reserved { text }) => Err(Fault::Refused(Refusal::Reserved {
            text: told_text(alloc, &text)?,
        })),
        Err(LexFault::Full(limit)) => Err(Fault::Refused(full_refusal(limit))),
        Err(LexFault::NoWord(_)) => unreachable!(),
        Err(LexFault::Memory) => Err(Fault::Memory),
    }
}

// The text is a form of this word.
fn taken_refusal(
    alloc: Global,
    lexicon: &Lexicon,
    text: &Text,
    word: WordId,
) -> Result<Refusal, Memory>
    requires { owner lexicon.now.live text.now ≡ Some word }
    ensures { IfOk result (λ refusal. taken_refusal lexicon.now text.now word ≡ Some refusal) }
{
    match lexicon.word(word) {
        Some(forms) => Ok(Refusal::Taken {
            text: told_text(alloc, text)?,
            word: told_text(alloc, forms.canonical())?,
        }),
        None => unreachable!(),
    }
}

fn full_refusal(limit: LexLimit) -> Refusal
    ensures { result ≡ full_refusal limit }
{
    let which = match limit {
        LexLimit::Words => Limit::Words,
        LexLimit::Numbers => Limit::Numbers,
    };
    Refusal::Full {
        which,
        limit: which.amount(),
    }
}
