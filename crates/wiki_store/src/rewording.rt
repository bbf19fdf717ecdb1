// Other forms for a word, by which each sentence keeps its meaning.
ghost use Rattle.std.specs.Prelude.{◌≡◌, ◌≤◌, None, Some, IfOk, IfErr, OnOk, IsSome, IsSomeAnd, IsTrue, All, MatchBool, length, not, option_copied, false};
ghost use Rattle.std.specs.List.{list_any};
ghost use Rattle.std.specs.Option.{option_map_or};
ghost use Rattle.codeco_terms.specs.GrammarParts.{GrammarParts};
ghost use Rattle.codeco_checked.specs.Sound.{is_labelled};
ghost use Rattle.lexicon.specs.declared.kinds.Forms.{Forms as TheForms};
ghost use Rattle.lexicon.specs.Kinds.{IsComplete};
ghost use Rattle.lexicon.specs.Words.{Listed, is_among, forms_of, with_forms, others, forms_refusal, reword_refusal};
ghost use Rattle.wiki_base.specs.declared.tokens.TheConstants.{MOST_TOKENS};
ghost use Rattle.wiki_talk.specs.declared.limits.TheConstants.{MOST_SENTENCES as most_sentences};
ghost use Rattle.wiki_parts.specs.Faults.{IsCause, IsFault};
ghost use Rattle.wiki_parts.specs.Found.{meaning_shown};
ghost use Rattle.wiki_parts.specs.Kept.{MeanInEach, MeanEach, meanings_in};
ghost use Rattle.plain_wiki.specs.Knowledge.{sentences_in};
ghost use Rattle.plain_wiki.specs.Meanings.{Means};
ghost use Rattle.plain_wiki.specs.Places.{word_with, all_placed, placed_in};
ghost use Rattle.plain_wiki.specs.Causes.{FirstOf, NoneOf, KeepsMeaning, reword_cause, breaks_sentence};
ghost use Rattle.plain_wiki.specs.Words.{forms_given, lexicon_refusal, taken_refusal};
ghost use Rattle.wiki_store.specs.Rewording.{KeepsSentences, PassesOthers, FindsPlace, TellsPlace};
ghost use Rattle.plain_wiki.specs.Against.{against_word, against_form};
ghost use Rattle.plain_wiki.specs.Doing.{RewordsWord};

use crate::base::Base;
use crate::sameness::same_sense;
use articles::{Article, Sentence, Shared};
use codeco_checked::CheckedGrammar;
use lexicon::{Forms, Kind, LexFault, Lexicon};
use lists::Copied;
use std::alloc::Global;
use wiki_base::{Memory, Place, Text, Text8, WordId};
use wiki_parts::{Fault, Sense, Senses, forms_given, has_form, sense_of, texts_read, told_text};
use wiki_talk::{Refusal, Reply, WordRequest};

impl Base {
    // The words with other forms for the one that has this form, if each sentence keeps its meaning by them. Refused are, in
    // this order, a form that no word has, texts that can't be the forms of a word of its kind beside the others, and forms
    // by which a sentence has no derivation, or another meaning.
    pub(crate) fn rewording(&self, form: &Text8, texts: &[Text8]) -> Result<Lexicon, Fault>
        ensures free { OnOk result (NoneOf (against_form self.now.state form.now (against_word self.now.state (WordRequest.Reword texts.now)))) }
        ensures rewords { IfOk result (λ lexicon. IsSomeAnd (word_with self.now.state form.now)
            (λ word. RewordsWord word texts.now self.now.state Reply.Reword (record self.now.state { words = lexicon }))) }
        ensures keeps { IfOk result (KeepsSentences self.now.state self.now.state.grammar) }
        ensures refused { IfErr result (IsFault (FirstOf (against_form self.now.state form.now (against_word self.now.state (WordRequest.Reword texts.now))))) }
    {
        let word = self.named(form)?;
        let old = self.forms(word);
        let mut lexicon = self.lexicon.copy()?;
        reword_word(self.alloc, &mut lexicon, word, old.kind, texts)?;
        self.unbroken(&self.grammar, &lexicon, Some(old))?;
        Ok(lexicon)
    }

    // Takes in words by which each sentence keeps its meaning.
    pub(crate) fn reworded(&mut self, lexicon: Lexicon)
        requires { KeepsSentences self.old.state self.old.state.grammar lexicon }
        ensures { self.new ≡ record self.old { state = record self.old.state { words = lexicon } } }
    {
        self.lexicon = lexicon;
    }

    // The forms of a live word.
    pub(crate) fn forms(&self, word: WordId) -> &Forms
        requires { IsSome (forms_of self.now.state.words.live word) }
        ensures { forms_of self.now.state.words.live word ≡ Some result.now }
    {
        match self.lexicon.word(word) {
            Some(forms) => forms,
            None => unreachable!(),
        }
    }

    // Whether each sentence keeps its meaning by another grammar and other words. Where forms are given, those without them do.
    pub(crate) fn unbroken(
        &self,
        grammar: &CheckedGrammar,
        lexicon: &Lexicon,
        forms: Option<&Forms>,
    ) -> Result<(), Fault>
        requires labelled { IsTrue (is_labelled grammar.now) }
        requires others { PassesOthers self.now.state.grammar self.now.state.words grammar.now lexicon.now (option_copied forms) }
        ensures keep { OnOk result (All (λ placed. KeepsMeaning self.now.state.grammar self.now.state.words grammar.now lexicon.now placed.sentence.tokens)
            (all_placed self.now.state.articles)) }
        ensures refused { IfErr result (IsFault (breaks_sentence self.now.state grammar.now lexicon.now)) }
    {
        let found = first_broken(
            self.alloc,
            grammar,
            lexicon,
            forms,
            self.articles.as_slice(),
            &self.senses,
        )?;
        match found {
            Some(place) => Err(Fault::Refused(self.breaks(place)?)),
            None => Ok(()),
        }
    }

    // Tells the place of a sentence that is broken.
    fn breaks(&self, place: Place) -> Result<Refusal, Memory>
        requires { IsSome (forms_of self.now.state.words.live place.article) }
        ensures { IfOk result (TellsPlace self.now.state (λ form place. Refusal.Breaks form place) place.article place.at) }
    {
        match self.lexicon.word(place.article) {
            Some(forms) => Ok(Refusal::Breaks {
                article: told_text(self.alloc, forms.canonical())?,
                at: place.at,
            }),
            None => unreachable!(),
        }
    }
}

// Gives a live word of a kind other forms, of which these texts are given.
fn reword_word(
    alloc: Global,
    lexicon: &mut Lexicon,
    word: WordId,
    kind: Kind,
    given: &[Text8],
) -> Result<(), Fault>
    requires kind { (forms : TheForms) → forms_of lexicon.old.live word ≡ Some forms → kind ≡ forms.kind }
    requires lives { IsSome (forms_of lexicon.old.live word) }
    ensures given { OnOk result (lexicon.new ≡ with_forms lexicon.old word (forms_given kind given.now)) }
    ensures accepted { OnOk result (reword_cause lexicon.old word kind given.now ≡ None) }
    ensures free { OnOk result (forms_refusal (others lexicon.old.live word) lexicon.old.terminals (forms_given kind given.now) ≡ None) }
    ensures refused { IfErr result (IsCause (reword_cause lexicon.old word kind given.now)) }
{
    let texts = texts_read(alloc, given)?;
    let forms = forms_given(alloc, kind, &texts)?;
    give_forms(alloc, lexicon, word, &forms)
}

// Gives a live word these forms.
fn give_forms(
    alloc: Global,
    lexicon: &mut Lexicon,
    word: WordId,
    forms: &Forms,
) -> Result<(), Fault>
    requires complete { IsComplete forms.now }
    requires kind { (old : TheForms) → forms_of lexicon.old.live word ≡ Some old → forms.now.kind ≡ old.kind }
    requires lives { IsSome (forms_of lexicon.old.live word) }
    ensures given { OnOk result (lexicon.new ≡ with_forms lexicon.old word forms.now) }
    ensures accepted { OnOk result (reword_refusal lexicon.old word forms.now ≡ None) }
    ensures refused { IfErr result (IsCause (lexicon_refusal lexicon.old (reword_refusal lexicon.old word forms.now))) }
{
    match lexicon.reword(word, forms) {
        Ok(()) => Ok(()),
        Err(LexFault::Taken { text, owner }) => {
            Err(Fault::Refused(taken_by(alloc, lexicon, &text, owner)?))
        }
        Err(LexFault::Reserved { text }) => Err(Fault::Refused(Refusal::Reserved {
            text: told_text(alloc, &text)?,
        })),
        Err(LexFault::NoWord(_)) => unreachable!(),
        Err(LexFault::Full(_)) => unreachable!(),
        Err(LexFault::Memory) => Err(Fault::Memory),
    }
}

// The text is a form of this live word.
fn taken_by(alloc: Global, lexicon: &Lexicon, text: &Text, owner: WordId) -> Result<Refusal, Memory>
    requires { IsSome (forms_of lexicon.now.live owner) }
    ensures { IfOk result (λ refusal. taken_refusal lexicon.now text.now owner ≡ Some refusal) }
{
    match lexicon.word(owner) {
        Some(forms) => Ok(Refusal::Taken {
            text: told_text(alloc, text)?,
            word: told_text(alloc, forms.canonical())?,
        }),
        None => unreachable!(),
    }
}

// The place of the first sentence that doesn't keep its meaning by another grammar and other words. Where forms are given, those
// without them keep it, and aren't read again.
fn first_broken(
    alloc: Global,
    grammar: &CheckedGrammar,
    lexicon: &Lexicon,
    forms: Option<&Forms>,
    articles: &[Article],
    senses: &[Senses],
) -> Result<Option<Place>, Memory>
    requires labelled { IsTrue (is_labelled grammar.now) }
    requires short { All (λ sentence. length sentence.tokens ≤ MOST_TOKENS) (sentences_in articles.now) }
    requires few { All (λ article. length article.sentences ≤ most_sentences) articles.now }
    ensures { IfOk result (λ found. (g : GrammarParts) (words : Listed) → MeanInEach g words articles.now senses.now
        → PassesOthers g words grammar.now lexicon.now (option_copied forms.entry)
        → FindsPlace (λ placed. KeepsMeaning g words grammar.now lexicon.now placed.sentence.tokens) (all_placed articles.now) found) }
{
    let count = articles.len().min(senses.len());
    for place in 0..count {
        let found = broken_in(
            alloc,
            grammar,
            lexicon,
            forms,
            &articles[place],
            senses[place].as_slice(),
        )?;
        if found.is_some() {
            return Ok(found);
        }
    }
    Ok(None)
}

// The place of the first sentence of an article that doesn't keep its meaning by another grammar and other words.
fn broken_in(
    alloc: Global,
    grammar: &CheckedGrammar,
    lexicon: &Lexicon,
    forms: Option<&Forms>,
    article: &Article,
    senses: &[Shared<Sense>],
) -> Result<Option<Place>, Memory>
    requires labelled { IsTrue (is_labelled grammar.now) }
    requires short { All (λ sentence. length sentence.tokens ≤ MOST_TOKENS) article.now.sentences }
    requires few { length article.now.sentences ≤ most_sentences }
    ensures { IfOk result (λ found. (g : GrammarParts) (words : Listed) → MeanEach g words article.now.sentences (meanings_in senses.now)
        → PassesOthers g words grammar.now lexicon.now (option_copied forms.entry)
        → FindsPlace (λ placed. KeepsMeaning g words grammar.now lexicon.now placed.sentence.tokens) (placed_in article.now) found) }
{
    let sentences = article.sentences.as_slice();
    let count = sentences.len().min(senses.len());
    for at in 0..count {
        let kept = keeps(alloc, grammar, lexicon, forms, &sentences[at], &senses[at])?;
        if !kept {
            return Ok(Some(Place {
                article: article.word,
                at: at as u32,
            }));
        }
    }
    Ok(None)
}

// Whether a sentence of this meaning keeps it by another grammar and other words, where those without the forms do.
fn keeps(
    alloc: Global,
    grammar: &CheckedGrammar,
    lexicon: &Lexicon,
    forms: Option<&Forms>,
    sentence: &Sentence,
    sense: &Shared<Sense>,
) -> Result<bool, Memory>
    requires labelled { IsTrue (is_labelled grammar.now) }
    requires short { length sentence.now.tokens ≤ MOST_TOKENS }
    ensures { IfOk result (λ kept. (g : GrammarParts) (words : Listed) → Means g words sentence.now.tokens (meaning_shown sense.now)
        → PassesOthers g words grammar.now lexicon.now (option_copied forms.entry)
        → MatchBool kept (KeepsMeaning g words grammar.now lexicon.now sentence.now.tokens)
        (KeepsMeaning g words grammar.now lexicon.now sentence.now.tokens → ⊥)) }
{
    if is_passed(sentence, forms) {
        return Ok(true);
    }
    match sense_of(alloc, grammar, lexicon, sentence.tokens.get())? {
        Some(found) => Ok(same_sense(&found, sense.get())),
        None => Ok(false),
    }
}

// Whether forms are given and the sentence has none of them.
fn is_passed(sentence: &Sentence, forms: Option<&Forms>) -> bool
    ensures { result ≡ option_map_or (λ forms. not (list_any (is_among forms.texts) sentence.now.tokens)) (option_copied forms.entry) false }
{
    match forms {
        Some(forms) => !has_form(sentence, forms),
        None => false,
    }
}
