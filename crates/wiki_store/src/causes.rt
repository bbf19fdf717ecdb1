// What stands against a request on a sentence, each cause in a call of its own.
ghost use Rattle.std.specs.Prelude.{◌≡◌, ◌≤◌, ◌<◌, length, slice_get, Some, None, true, IfOk, IfErr, OnOk, IsSome};
ghost use Rattle.wiki_talk.specs.declared.limits.TheConstants.{MOST_SENTENCES as most_sentences};
ghost use Rattle.wiki_base.specs.declared.tokens.TheConstants.{MOST_TOKENS};
ghost use Rattle.lexicon.specs.declared.words.TheConstants.{LAST_NUMBER as the_last};
ghost use Rattle.plain_wiki.specs.Causes.{may_retract, is_at_last_revision, is_past_end, has_bad_status};
ghost use Rattle.plain_wiki.specs.Doing.{place_for};
ghost use Rattle.wiki_parts.specs.Faults.{IsFault, IsAbsent};
ghost use Rattle.plain_wiki.specs.Words.{full_at};

use crate::base::Base;
use articles::{Article, Sentence};
use derivations::{Cut, cut};
use lexicon::LAST_NUMBER;
use lists::Copied;
use wiki_base::{Text8, Tokens, WordId};
use wiki_parts::{Fault, Sense, is_faithful, no_sentence, sense_of, too_many_tokens};
use wiki_talk::{Limit, MOST_SENTENCES, Refusal, Status};

impl Base {
    ghost use Rattle.lexicon.specs.Words.{IsLexicon, forms_of};
    ghost use Rattle.articles.specs.Articles.{article_of};
    ghost use Rattle.plain_wiki.specs.Places.{word_with, word_named, article_named};
    ghost use Rattle.plain_wiki.specs.Causes.{when, has_no_place, has_no_room, has_too_many_tokens, has_no_derivation};
    ghost use Rattle.wiki_parts.specs.Found.{meaning_shown};
    ghost use Rattle.wiki_parts.specs.Holding.{IsStored};
    ghost use Rattle.plain_wiki.specs.Knowledge.{sentences_in};
    ghost use Rattle.plain_wiki.specs.Meanings.{Means};
    ghost use Rattle.plain_wiki.specs.Parsing.{tokens_of};

    // The live word that has the form.
    pub(crate) fn named(&self, form: &Text8) -> Result<WordId, Fault>
        ensures ok { IfOk result (λ word. word_named self.now.state form.now ≡ Some word) }
        ensures lives { IfOk result (λ word. IsSome (forms_of self.now.state.words.live word)) }
        ensures lexicon { IsLexicon self.now.state.words }
        ensures refused { IfErr result (IsFault (when (word_with self.now.state form.now ≡ None) (Refusal.NoWord form.now))) }
    {
        match self.lexicon.find(form.as_str()) {
            Some(word) => Ok(word),
            None => Err(Fault::Refused(Refusal::NoWord { text: form.copy()? })),
        }
    }

    // The article of the live word that has the form.
    pub(crate) fn article_with(&self, form: &Text8) -> Result<&Article, Fault>
        ensures ok { IfOk result (λ article. article_named self.now.state form.now ≡ Some article.now) }
        ensures there { IfOk result (λ article. article_of self.now.state.articles article.now.word ≡ Some article.now) }
        ensures lives { IfOk result (λ article. IsSome (forms_of self.now.state.words.live article.now.word)) }
        ensures few { IfOk result (λ article. length article.now.sentences ≤ most_sentences) }
        ensures refused { IfErr result (IsFault (when (article_named self.now.state form.now ≡ None) (Refusal.NoWord form.now))) }
    {
        let word = self.named(form)?;
        Ok(self.article(word))
    }

    // The article of a live word.
    pub(crate) fn article(&self, word: WordId) -> &Article
        requires { IsSome (forms_of self.now.state.words.live word) }
        ensures article { article_of self.now.state.articles word ≡ Some result.now }
        ensures few { length result.now.sentences ≤ most_sentences }
    {
        match self.articles.article(word) {
            Some(article) => article,
            None => unreachable!(),
        }
    }

    // The sentence at a place of an article.
    pub(crate) fn sentence<'a>(&self, article: &'a Article, at: u32) -> Result<&'a Sentence, Fault>
        requires there { article_of self.now.state.articles article.now.word ≡ Some article.now }
        requires few { length article.now.sentences ≤ most_sentences }
        ensures here { IfOk result (λ sentence. slice_get article.now.sentences at ≡ Some sentence.now) }
        ensures within { OnOk result (at < length article.now.sentences) }
        ensures stored { IfOk result (λ sentence. IsStored self.now.state sentence.now) }
        ensures absent { OnOk result (IsAbsent (has_no_place article.now at)) }
        ensures refused { IfErr result (IsFault (has_no_place article.now at)) }
    {
        is_faithful(&self.grammar);
        let _ = &self.kept;
        let count = article.sentences.len();
        if at as usize >= count {
            return Err(Fault::Refused(Refusal::NoPlace {
                length: count as u32,
            }));
        }
        Ok(article.sentences.get(at as usize))
    }

    // Whether there may be one sentence more.
    pub(crate) fn has_room(&self) -> Result<(), Fault>
        ensures room { OnOk result (length (sentences_in self.now.state.articles) < most_sentences) }
        ensures absent { OnOk result (IsAbsent (has_no_room self.now.state)) }
        ensures refused { IfErr result (IsFault (has_no_room self.now.state)) }
    {
        if self.sentence_count() >= MOST_SENTENCES as usize {
            Err(Fault::Refused(full(Limit::Sentences)))
        } else {
            Ok(())
        }
    }

    // The tokens of a text.
    pub(crate) fn tokens(&self, text: &Text8) -> Result<Tokens, Fault>
        ensures tokens { IfOk result (λ tokens. tokens ≡ tokens_of self.now.state text.now) }
        ensures few { IfOk result (λ tokens. length tokens ≤ MOST_TOKENS) }
        ensures absent { OnOk result (IsAbsent (has_too_many_tokens self.now.state text.now)) }
        ensures refused { IfErr result (IsFault (has_too_many_tokens self.now.state text.now)) }
    {
        match cut(self.alloc, self.grammar.grammar(), text.as_str())? {
            Cut::TooMany => Err(Fault::Refused(too_many_tokens())),
            Cut::Tokens(tokens) => Ok(tokens),
        }
    }

    // What the tokens of a text mean.
    pub(crate) fn sense(&self, text: &Text8, tokens: &Tokens) -> Result<Sense, Fault>
        requires tokens { tokens.now ≡ tokens_of self.now.state text.now }
        requires few { length tokens.now ≤ MOST_TOKENS }
        ensures means { IfOk result (λ sense. Means self.now.state.grammar self.now.state.words tokens.now (meaning_shown sense)) }
        ensures absent { OnOk result (IsAbsent (has_no_derivation self.now.state text.now)) }
        ensures refused { IfErr result (IsFault (has_no_derivation self.now.state text.now)) }
    {
        match sense_of(self.alloc, &self.grammar, &self.lexicon, tokens)? {
            Some(sense) => Ok(sense),
            None => Err(Fault::Refused(no_sentence(
                self.alloc,
                &self.grammar,
                &self.lexicon,
                tokens,
            )?)),
        }
    }
}

// Whether the article can change once more.
pub(crate) fn can_change(article: &Article) -> Result<(), Fault>
    ensures open { OnOk result (article.now.revision.0 < the_last) }
    ensures absent { OnOk result (IsAbsent (is_at_last_revision article.now)) }
    ensures refused { IfErr result (IsFault (is_at_last_revision article.now)) }
{
    if article.revision.0 == LAST_NUMBER {
        Err(Fault::Refused(full(Limit::Numbers)))
    } else {
        Ok(())
    }
}

// The place that is given, or the end of the article.
pub(crate) fn place_given(article: &Article, given: Option<u32>) -> Result<u32, Fault>
    requires { length article.now.sentences ≤ most_sentences }
    ensures at { IfOk result (λ at. at ≡ place_for article.now given) }
    ensures within { IfOk result (λ at. at ≤ length article.now.sentences) }
    ensures absent { OnOk result (IsAbsent (is_past_end article.now given)) }
    ensures refused { IfErr result (IsFault (is_past_end article.now given)) }
{
    let length = article.sentences.len() as u32;
    match given {
        Some(at) => {
            if at > length {
                return Err(Fault::Refused(Refusal::NoPlace { length }));
            }
            Ok(at)
        }
        None => Ok(length),
    }
}

// Whether the sentence may be retracted.
pub(crate) fn retractable(article: &Article, at: u32, sentence: &Sentence) -> Result<(), Fault>
    requires { slice_get article.now.sentences at ≡ Some sentence.now }
    ensures may { OnOk result (may_retract sentence.now.status ≡ true) }
    ensures absent { OnOk result (IsAbsent (has_bad_status may_retract article.now at)) }
    ensures refused { IfErr result (IsFault (has_bad_status may_retract article.now at)) }
{
    if may_retract(sentence.status) {
        Ok(())
    } else {
        Err(Fault::Refused(Refusal::BadStatus {
            status: sentence.status,
        }))
    }
}

fn may_retract(status: Status) -> bool
    ensures { result ≡ may_retract status }
{
    matches!(status, Status::Asserted)
}

// There is as much as there may be.
fn full(which: Limit) -> Refusal
    ensures { result ≡ full_at which }
{
    Refusal::Full {
        which,
        limit: which.amount(),
    }
}
