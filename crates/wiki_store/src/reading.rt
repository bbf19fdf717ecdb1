// An article as it is told, with the names that answer its questions as of now.
ghost use Rattle.std.specs.Prelude.{◌≡◌, Bool, true, false, All, Some, IfOk, IfErr, IfSome, IsSome, IsSomeAnd, OnOk};
ghost use Rattle.std.specs.List.{AllZip};
ghost use Rattle.articles.specs.declared.article.Article.{Article as TheArticle};
ghost use Rattle.articles.specs.Articles.{article_of, HasArticle};
ghost use Rattle.lexicon.specs.Words.{canonical_form_of, forms_of};
ghost use Rattle.logic_terms.specs.Shown.{concept_of};
ghost use Rattle.wiki_talk.specs.Statuses.{is_question};
ghost use Rattle.consequences.specs.Known.{theory_in};
ghost use Rattle.wiki_parts.specs.Faults.{IsFault};
ghost use Rattle.wiki_parts.specs.Found.{meaning_shown};
ghost use Rattle.wiki_parts.specs.Holding.{FitsMeaning};
ghost use Rattle.wiki_parts.specs.Kept.{MeanEach, meanings_in};
ghost use Rattle.plain_wiki.specs.Knowledge.{live_names};
ghost use Rattle.plain_wiki.specs.Meanings.{asking, Means};
ghost use Rattle.plain_wiki.specs.Telling.{TellsSentence, TellsSentences};
ghost use Rattle.wiki_store.specs.Remembered.{AreAnswers, IsRemembered};
ghost use Rattle.wiki_store.specs.Settled.{AbsorbsKnown};
ghost use Rattle.wiki_store.specs.Asking.{against};
ghost use Rattle.wiki_store.specs.Spending.{KeptHasUnknown, KeptHasUnknownIn};
ghost use Rattle.plain_wiki.specs.Places.{article_named};
ghost use Rattle.plain_wiki.specs.Causes.{FirstOf, NoneOf};
ghost use Rattle.plain_wiki.specs.Doing.{TellsArticle};
ghost use Rattle.wiki_parts.specs.Spending.{IsCutOff};

use crate::base::Base;
use crate::remembered::Remembered;
use absorb::absorb;
use answers::Answers;
use articles::{Sentence, Shared};
use consequences::Consequences;
use derivation_trees::show;
use lexicon::MOST_WORDS;
use logic_terms::{Class, Names};
use wiki_base::{Memory, Text8, Text8s, WordId};
use wiki_parts::{Fault, Sense, Senses, answers_of, live_names, spelled, told_text};
use wiki_talk::{ArticleRequest, Reply, SentenceView, SentenceViews};

impl Base {
    // Tells the article of a word, with the answers to its questions.
    pub(crate) fn read(&self, remembered: &mut Remembered, form: &Text8) -> Result<Reply, Fault>
        requires { All (IsRemembered self.now) remembered.old.rows }
        ensures free { OnOk result (NoneOf (against self.now.state form.now ArticleRequest.Read)) }
        ensures tells { IfOk result (λ reply. IsSomeAnd (article_named self.now.state form.now)
            (λ article. TellsArticle (IsCutOff self.now.budget) self.now.state article reply)) }
        ensures unknown { IfOk result (KeptHasUnknownIn self.now form.now) }
        ensures refused { IfErr result (IsFault (FirstOf (against self.now.state form.now ArticleRequest.Read))) }
        ensures remembered { All (IsRemembered self.now) remembered.new.rows }
    {
        let article = self.article_with(form)?;
        let word = article.word;
        let senses = self.senses_of(word);
        let sentences = self.views(remembered, article.sentences.as_slice(), senses.as_slice())?;
        Ok(Reply::Read {
            form: self.canonical_form(word)?,
            revision: article.revision.0,
            sentences,
        })
    }

    // The canonical form of a live word.
    fn canonical_form(&self, word: WordId) -> Result<Text8, Memory>
        requires { IsSome (forms_of self.now.state.words.live word) }
        ensures { IfOk result (λ form. canonical_form_of self.now.state.words.live word ≡ Some form) }
    {
        match self.lexicon.word(word) {
            Some(forms) => told_text(self.alloc, forms.canonical()),
            None => unreachable!(),
        }
    }

    // What the sentences of the article of a word mean.
    pub(crate) fn senses_of(&self, word: WordId) -> &Senses
        requires { HasArticle self.now.state.articles word }
        ensures { (article : TheArticle) → article_of self.now.state.articles word ≡ Some article
            → MeanEach self.now.state.grammar self.now.state.words article.sentences (meanings_in result.now) }
    {
        prove!(self.articles.len() == self.senses.len());
        let place = self.place(word);
        &self.senses[place]
    }

    // Sentences as they are told, each by what it means.
    fn views(
        &self,
        remembered: &mut Remembered,
        sentences: &[Sentence],
        senses: &[Shared<Sense>],
    ) -> Result<SentenceViews, Memory>
        requires mean { MeanEach self.now.state.grammar self.now.state.words sentences.now (meanings_in senses.now) }
        requires remembered { All (IsRemembered self.now) remembered.old.rows }
        ensures tells { IfOk result (TellsSentences (IsCutOff self.now.budget) self.now.state sentences.now) }
        ensures unknown { IfOk result (AllZip (KeptHasUnknown self.now) sentences.now) }
        ensures remembered { All (IsRemembered self.now) remembered.new.rows }
    {
        let names = live_names(self.alloc, &self.lexicon)?;
        let known = self.consequences(remembered, &names, senses)?;
        let mut views = SentenceViews::new(self.alloc);
        for place in 0..sentences.len() {
            views.push(self.view(
                remembered,
                &names,
                &known,
                &sentences[place],
                &senses[place],
            )?)?;
        }
        Ok(views)
    }

    // The consequences of all that is known, with the live names, if one of the sentences is a question whose answers aren't
    // remembered. They serve all questions of an article.
    fn consequences(
        &self,
        remembered: &Remembered,
        names: &Names,
        senses: &[Shared<Sense>],
    ) -> Result<Option<Consequences>, Memory>
        requires { names.now ≡ live_names self.now.state.words }
        ensures { IfOk result (λ known. IfSome known (λ k. AbsorbsKnown self.now.state names.now (theory_in k))) }
    {
        if !asks_anew(remembered, senses) {
            return Ok(None);
        }
        prove!(self.lexicon.len() <= MOST_WORDS);
        let _ = self.grammar.grammar();
        let k = absorb(self.alloc, self.kept.axioms(), names)?;
        let known = Consequences::new(self.alloc, k, self.budget)?;
        Ok(Some(known))
    }

    // A sentence as it is told, by what it means.
    fn view(
        &self,
        remembered: &mut Remembered,
        names: &Names,
        known: &Option<Consequences>,
        sentence: &Sentence,
        sense: &Shared<Sense>,
    ) -> Result<SentenceView, Memory>
        requires names { names.now ≡ live_names self.now.state.words }
        requires absorbed { IfSome known.now (λ k. AbsorbsKnown self.now.state names.now (theory_in k)) }
        requires means { Means self.now.state.grammar self.now.state.words sentence.now.tokens (meaning_shown sense.now) }
        requires fits { FitsMeaning sentence.now.status (meaning_shown sense.now) }
        requires remembered { All (IsRemembered self.now) remembered.old.rows }
        ensures tells { IfOk result (TellsSentence (IsCutOff self.now.budget) self.now.state sentence.now) }
        ensures unknown { IfOk result (KeptHasUnknown self.now sentence.now) }
        ensures remembered { All (IsRemembered self.now) remembered.new.rows }
    {
        match sense.get() {
            Sense::Asking(class) => self.question_view(remembered, names, known, sentence, class),
            Sense::Stating(_) | Sense::Outside(_) | Sense::AskingOutside(_) => {
                self.plain_view(sentence)
            }
        }
    }

    // A question that asks for a class as it is told. Its answers are looked for where they aren't remembered, and are then.
    fn question_view(
        &self,
        remembered: &mut Remembered,
        names: &Names,
        known: &Option<Consequences>,
        sentence: &Sentence,
        class: &Class,
    ) -> Result<SentenceView, Memory>
        requires names { names.now ≡ live_names self.now.state.words }
        requires absorbed { IfSome known.now (λ k. AbsorbsKnown self.now.state names.now (theory_in k)) }
        requires asks { is_question sentence.now.status ≡ true }
        requires means { Means self.now.state.grammar self.now.state.words sentence.now.tokens (asking (concept_of class.now)) }
        requires remembered { All (IsRemembered self.now) remembered.old.rows }
        ensures tells { IfOk result (TellsSentence (IsCutOff self.now.budget) self.now.state sentence.now) }
        ensures unknown { IfOk result (KeptHasUnknown self.now sentence.now) }
        ensures remembered { All (IsRemembered self.now) remembered.new.rows }
    {
        if let Some(answers) = remembered.find(class) {
            return self.answered_view(sentence, class, answers);
        }
        let answers = self.answers_to(names, known, sentence, class)?;
        let view = self.answered_view(sentence, class, &answers)?;
        remembered.keep(self.alloc, class, answers);
        Ok(view)
    }

    // The answers to a question for a class.
    fn answers_to(
        &self,
        names: &Names,
        known: &Option<Consequences>,
        sentence: &Sentence,
        class: &Class,
    ) -> Result<Answers, Memory>
        requires names { names.now ≡ live_names self.now.state.words }
        requires absorbed { IfSome known.now (λ k. AbsorbsKnown self.now.state names.now (theory_in k)) }
        requires means { Means self.now.state.grammar self.now.state.words sentence.now.tokens (asking (concept_of class.now)) }
        ensures { IfOk result (λ answers. AreAnswers self.now (concept_of class.now) answers.yes answers.unknown) }
    {
        prove!(self.lexicon.len() <= MOST_WORDS);
        let _ = self.grammar.grammar();
        answers_of(
            self.alloc,
            known,
            class,
            self.kept.model(),
            names,
            self.budget,
        )
    }

    // A question for a class with these answers as it is told.
    fn answered_view(
        &self,
        sentence: &Sentence,
        class: &Class,
        answers: &Answers,
    ) -> Result<SentenceView, Memory>
        requires asks { is_question sentence.now.status ≡ true }
        requires means { Means self.now.state.grammar self.now.state.words sentence.now.tokens (asking (concept_of class.now)) }
        requires answers { AreAnswers self.now (concept_of class.now) answers.now.yes answers.now.unknown }
        ensures tells { IfOk result (TellsSentence (IsCutOff self.now.budget) self.now.state sentence.now) }
        ensures unknown { IfOk result (KeptHasUnknown self.now sentence.now) }
    {
        let grammar = self.grammar.grammar();
        Ok(SentenceView {
            status: sentence.status,
            text: show(self.alloc, grammar, sentence.tokens.get())?,
            answers: spelled(self.alloc, &self.lexicon, &answers.yes)?,
            unknown: spelled(self.alloc, &self.lexicon, &answers.unknown)?,
        })
    }

    // Any other sentence as it is told.
    fn plain_view(&self, sentence: &Sentence) -> Result<SentenceView, Memory>
        requires { is_question sentence.now.status ≡ false }
        ensures tells { IfOk result (TellsSentence (IsCutOff self.now.budget) self.now.state sentence.now) }
        ensures unknown { IfOk result (KeptHasUnknown self.now sentence.now) }
    {
        Ok(SentenceView {
            status: sentence.status,
            text: show(self.alloc, self.grammar.grammar(), sentence.tokens.get())?,
            answers: Text8s::new(self.alloc),
            unknown: Text8s::new(self.alloc),
        })
    }
}

// Whether one of the sentences asks for a class whose answers aren't remembered.
fn asks_anew(remembered: &Remembered, senses: &[Shared<Sense>]) -> bool {
    for sense in senses {
        if let Sense::Asking(class) = sense.get() {
            if remembered.find(class).is_none() {
                return true;
            }
        }
    }
    false
}
