// The store and what is done with it.
ghost use Rattle.std.specs.Prelude.{◌≡◌, ◌≤◌, ◌<◌, length, ◌↔◌, true, false, None, IsTrue, IfOk, IfErr, OnOk, OnErr, IsSomeAnd, Some, MatchOption, option_copied};
ghost use Rattle.wiki_base.specs.declared.tokens.TheConstants.{MOST_TOKENS};

use crate::base::Base;
use crate::remembered::Remembered;
use articles::Article;
use codeco_checked::CheckedGrammar;
use history::Kept;
use lexicon::{Kind, Lexicon};
use logic_terms::Axioms;
use owl_eval::CheckedModel;
use std::alloc::Global;
use std::marker::Model;
use wiki_base::{Memory, Text8, Tokens, WordId};
use wiki_parts::{Fault, Senses};
use wiki_talk::{ArticleRequest, Refusal, Reply, Status, WikiRequest, WordRequest};

/// The words and sentences of a wiki. They are seen as what is stored, which is the grammar, the live words and their articles, the budget of
/// a search, and the interpretation that is kept.
#[derive(Drop)]
pub struct Store {
    base: Base,
    // Answers that were found since the base changed.
    remembered: Remembered,
}

impl Model for Store {
    ghost use Rattle.std.specs.Prelude.{All};
    ghost use Rattle.wiki_parts.specs.Holding.{Holding};

    ghost Value = { Holding };

    ghost use Rattle.wiki_store.specs.Remembered.{IsRemembered};

    ghost view = { λ w. w.base };

    ghost invariant = { λ w. All (IsRemembered w.base) w.remembered.rows };
}

impl Store {
    ghost use Rattle.codeco_checked.specs.Sound.{is_labelled};
    ghost use Rattle.derivation_trees.specs.Sentences.{IsSentence};
    ghost use Rattle.wiki_talk.specs.declared.limits.TheConstants.{MOST_SENTENCES};
    ghost use Rattle.articles.specs.Articles.{article_of, without_article, CanChange};
    ghost use Rattle.wiki_parts.specs.Faults.{IsFault};
    ghost use Rattle.wiki_parts.specs.Holding.{first_holding, IsKept};
    ghost use Rattle.logic_terms.specs.Shown.{claims_of};
    ghost use Rattle.wiki_parts.specs.Kept.{MeanInEach};
    ghost use Rattle.plain_wiki.specs.Knowledge.{sentences_in, GetStatus, Knows};
    ghost use Rattle.plain_wiki.specs.Places.{word_with, word_named, article_named};
    ghost use Rattle.wiki_parts.specs.Sound.{IsSound};
    ghost use Rattle.plain_wiki.specs.Doing.{AddsWord, RewordsWord, RemovesWord, TakesGrammar, AddsSentence, EditsSentence, RemovesSentence, RetractsSentence, ReassertsSentence, TellsWord, TellsWords, TellsCode, TellsArticle, TellsMeaning, with_appended};
    ghost use Rattle.owl_eval.specs.Checked.{kept_interp, kept_claims};
    ghost use Rattle.wiki_store.specs.PuttingBack.{with_sentences, CanBePut, put_back, IsOfArticle};
    ghost use Rattle.wiki_store.specs.Rewording.{IsGone, KeepsSentences};
    ghost use Rattle.wiki_store.specs.Asking.{against, taken_by};
    ghost use Rattle.wiki_store.specs.Spending.{SpendsAtEnd, SpendsBeyond, KeptHasUnknownIn};
    ghost use Rattle.wiki_parts.specs.Spending.{IsCutOff};
    ghost use Rattle.plain_wiki.specs.Causes.{FirstOf, NoneOf, when};
    ghost use Rattle.plain_wiki.specs.Against.{against_wiki, against_word, against_form};

    /// A store without words, over a grammar in which each rule has a label. A search may take `budget` steps.
    pub fn new(alloc: Global, grammar: CheckedGrammar, budget: u64) -> Result<Store, Memory>
        requires { IsTrue (is_labelled grammar) }
        ensures { IfOk result (λ store. store ≡ first_holding grammar budget) }
    {
        Ok(Store {
            base: Base::new(alloc, grammar, budget)?,
            remembered: Remembered::new(alloc),
        })
    }

    /// What the store keeps fits what is stored.
    pub fn is_kept(&self)
        ensures { IsKept self.now }
    {
        self.base.is_kept();
    }

    /// Adds a word of this kind with these forms, and an empty article.
    pub fn add_word(&mut self, kind: Kind, forms: &[Text8]) -> Result<Reply, Fault>
        ensures free { OnOk result (NoneOf (against_wiki self.old.state (WikiRequest.Word kind forms.now))) }
        ensures adds { IfOk result (λ reply. AddsWord kind forms.now self.old.state reply self.new.state) }
        ensures budget { OnOk result (self.new.budget ≡ self.old.budget) }
        ensures interpretation { OnOk result (self.new.interpretation ≡ self.old.interpretation) }
        ensures refused { IfErr result (IsFault (FirstOf (against_wiki self.old.state (WikiRequest.Word kind forms.now)))) }
        ensures kept { OnErr result (self.new ≡ self.old) }
    {
        let reply = self.base.add(kind, forms)?;
        self.remembered.clear();
        Ok(reply)
    }

    /// Tells all live words, in order of number.
    pub fn words(&self) -> Result<Reply, Memory>
        ensures { IfOk result (TellsWords self.now.state) }
    {
        self.base.words()
    }

    /// Tells the code of the least skeleton of a text.
    pub fn parse(&self, text: &Text8) -> Result<Reply, Fault>
        ensures free { OnOk result (NoneOf (against_wiki self.now.state (WikiRequest.Parse text.now))) }
        ensures tells { IfOk result (TellsCode text.now self.now.state) }
        ensures refused { IfErr result (IsFault (FirstOf (against_wiki self.now.state (WikiRequest.Parse text.now)))) }
    {
        self.base.parse(text)
    }

    /// Tells the word that has this form.
    pub fn find(&self, form: &Text8) -> Result<Reply, Fault>
        ensures tells { IfOk result (λ reply. IsSomeAnd (word_with self.now.state form.now) (λ word. TellsWord word reply)) }
        ensures refused { IfErr result (IsFault (FirstOf (against_form self.now.state form.now (against_word self.now.state WordRequest.Find)))) }
    {
        self.base.find(form)
    }

    /// The article of the word that has this form.
    pub fn article_with(&self, form: &Text8) -> Result<&Article, Fault>
        ensures ok { IfOk result (λ article. article_named self.now.state form.now ≡ Some article.now) }
        ensures refused { IfErr result (IsFault (when (article_named self.now.state form.now ≡ None) (Refusal.NoWord form.now))) }
    {
        self.base.article_with(form)
    }

    /// Tells the article of a word, with the answers to its questions as of now. Those that are found are remembered.
    pub fn read(&mut self, form: &Text8) -> Result<Reply, Fault>
        ensures free { OnOk result (NoneOf (against self.old.state form.now ArticleRequest.Read)) }
        ensures tells { IfOk result (λ reply. IsSomeAnd (article_named self.old.state form.now)
            (λ article. TellsArticle (IsCutOff self.old.budget) self.old.state article reply)) }
        ensures unknown { IfOk result (KeptHasUnknownIn self.old form.now) }
        ensures refused { IfErr result (IsFault (FirstOf (against self.old.state form.now ArticleRequest.Read))) }
        ensures same { self.new ≡ self.old }
    {
        self.base.read(&mut self.remembered, form)
    }

    /// Adds the sentence of a text at a place of an article, or at its end where none is given.
    pub fn add(&mut self, form: &Text8, given: Option<u32>, text: &Text8) -> Result<Reply, Fault>
        ensures free { OnOk result (NoneOf (against self.old.state form.now (ArticleRequest.Add given text.now))) }
        ensures does { IfOk result (λ reply. IsSomeAnd (article_named self.old.state form.now)
            (λ article. AddsSentence (IsCutOff self.old.budget) given text.now article self.old.state reply self.new.state)) }
        ensures budget { OnOk result (self.new.budget ≡ self.old.budget) }
        ensures spent { IfOk result (SpendsBeyond self.old (taken_by self.old.state form.now (ArticleRequest.Add given text.now))) }
        ensures refused { IfErr result (IsFault (FirstOf (against self.old.state form.now (ArticleRequest.Add given text.now)))) }
        ensures kept { OnErr result (self.new ≡ self.old) }
    {
        let reply = self.base.add_sentence(form, given, text)?;
        self.remembered.clear();
        Ok(reply)
    }

    /// Puts the sentence of a text in place of the one at a place of an article.
    pub fn edit(&mut self, form: &Text8, at: u32, text: &Text8) -> Result<Reply, Fault>
        ensures free { OnOk result (NoneOf (against self.old.state form.now (ArticleRequest.Edit at text.now))) }
        ensures does { IfOk result (λ reply. IsSomeAnd (article_named self.old.state form.now)
            (λ article. EditsSentence (IsCutOff self.old.budget) at text.now article self.old.state reply self.new.state)) }
        ensures budget { OnOk result (self.new.budget ≡ self.old.budget) }
        ensures spent { IfOk result (SpendsBeyond self.old (taken_by self.old.state form.now (ArticleRequest.Edit at text.now))) }
        ensures refused { IfErr result (IsFault (FirstOf (against self.old.state form.now (ArticleRequest.Edit at text.now)))) }
        ensures kept { OnErr result (self.new ≡ self.old) }
    {
        let reply = self.base.edit(form, at, text)?;
        self.remembered.clear();
        Ok(reply)
    }

    /// Takes the sentence at a place of an article out.
    pub fn remove(&mut self, form: &Text8, at: u32) -> Result<Reply, Fault>
        ensures free { OnOk result (NoneOf (against self.old.state form.now (ArticleRequest.Remove at))) }
        ensures does { IfOk result (λ reply. IsSomeAnd (article_named self.old.state form.now)
            (λ article. RemovesSentence at article self.old.state reply self.new.state)) }
        ensures budget { OnOk result (self.new.budget ≡ self.old.budget) }
        ensures interpretation { OnOk result (self.new.interpretation ≡ self.old.interpretation) }
        ensures refused { IfErr result (IsFault (FirstOf (against self.old.state form.now (ArticleRequest.Remove at)))) }
        ensures kept { OnErr result (self.new ≡ self.old) }
    {
        let reply = self.base.remove(form, at)?;
        self.remembered.clear();
        Ok(reply)
    }

    /// Makes the sentence at a place of an article a retracted one.
    pub fn retract(&mut self, form: &Text8, at: u32) -> Result<Reply, Fault>
        ensures free { OnOk result (NoneOf (against self.old.state form.now (ArticleRequest.Retract at))) }
        ensures does { IfOk result (λ reply. IsSomeAnd (article_named self.old.state form.now)
            (λ article. RetractsSentence at article self.old.state reply self.new.state)) }
        ensures budget { OnOk result (self.new.budget ≡ self.old.budget) }
        ensures interpretation { OnOk result (self.new.interpretation ≡ self.old.interpretation) }
        ensures refused { IfErr result (IsFault (FirstOf (against self.old.state form.now (ArticleRequest.Retract at)))) }
        ensures kept { OnErr result (self.new ≡ self.old) }
    {
        let reply = self.base.retract(form, at)?;
        self.remembered.clear();
        Ok(reply)
    }

    /// Gives a retracted or red sentence the status that it gets as a new one.
    pub fn reassert(&mut self, form: &Text8, at: u32) -> Result<Reply, Fault>
        ensures free { OnOk result (NoneOf (against self.old.state form.now (ArticleRequest.Reassert at))) }
        ensures does { IfOk result (λ reply. IsSomeAnd (article_named self.old.state form.now)
            (λ article. ReassertsSentence (IsCutOff self.old.budget) at article self.old.state reply self.new.state)) }
        ensures budget { OnOk result (self.new.budget ≡ self.old.budget) }
        ensures spent { IfOk result (SpendsBeyond self.old (taken_by self.old.state form.now (ArticleRequest.Reassert at))) }
        ensures refused { IfErr result (IsFault (FirstOf (against self.old.state form.now (ArticleRequest.Reassert at)))) }
        ensures kept { OnErr result (self.new ≡ self.old) }
    {
        let reply = self.base.reassert(form, at)?;
        self.remembered.clear();
        Ok(reply)
    }

    /// Tells what the sentence at a place of an article means.
    pub fn axioms(&self, form: &Text8, at: u32) -> Result<Reply, Fault>
        ensures free { OnOk result (NoneOf (against self.now.state form.now (ArticleRequest.Axioms at))) }
        ensures tells { IfOk result (λ reply. IsSomeAnd (article_named self.now.state form.now) (λ article. TellsMeaning at self.now.state article reply)) }
        ensures refused { IfErr result (IsFault (FirstOf (against self.now.state form.now (ArticleRequest.Axioms at)))) }
    {
        self.base.axioms(form, at)
    }

    /// Adds tokens that have a derivation as a sentence at the end of a word's article, with the status that they get there.
    pub fn append(&mut self, word: WordId, tokens: &Tokens) -> Result<Status, Memory>
        requires open { CanChange self.old.state.articles word }
        requires room { length (sentences_in self.old.state.articles) < MOST_SENTENCES }
        requires few { length tokens.now ≤ MOST_TOKENS }
        requires sentence { IsSentence self.old.state.grammar self.old.state.words tokens.now }
        ensures status { IfOk result (GetStatus (IsCutOff self.old.budget) (with_appended self.old.state word tokens.now Status.Asserted) tokens.now) }
        ensures after { IfOk result (λ status. self.new.state ≡ with_appended self.old.state word tokens.now status) }
        ensures budget { OnOk result (self.new.budget ≡ self.old.budget) }
        ensures spent { IfOk result (SpendsAtEnd self.old word tokens.now) }
        ensures memory { OnErr result (self.new ≡ self.old) }
    {
        let status = self.base.append(word, tokens)?;
        self.remembered.clear();
        Ok(status)
    }

    /// The words with other forms for the one that has this form, if each sentence keeps its meaning by them. Refused are, in
    /// this order, a form that no word has, texts that can't be the forms of a word of its kind beside the others, and forms
    /// by which a sentence has no derivation, or another meaning.
    pub fn rewording(&self, form: &Text8, texts: &[Text8]) -> Result<Lexicon, Fault>
        ensures free { OnOk result (NoneOf (against_form self.now.state form.now (against_word self.now.state (WordRequest.Reword texts.now)))) }
        ensures rewords { IfOk result (λ lexicon. IsSomeAnd (word_with self.now.state form.now)
            (λ word. RewordsWord word texts.now self.now.state Reply.Reword (record self.now.state { words = lexicon }))) }
        ensures keeps { IfOk result (KeepsSentences self.now.state self.now.state.grammar) }
        ensures refused { IfErr result (IsFault (FirstOf (against_form self.now.state form.now (against_word self.now.state (WordRequest.Reword texts.now))))) }
    {
        self.base.rewording(form, texts)
    }

    /// Takes in words by which each sentence keeps its meaning.
    pub fn reworded(&mut self, lexicon: Lexicon)
        requires { KeepsSentences self.old.state self.old.state.grammar lexicon }
        ensures { self.new ≡ record self.old { state = record self.old.state { words = lexicon } } }
    {
        self.remembered.clear();
        self.base.reworded(lexicon);
    }

    /// The grammar of a text, and the words beside its terminals, if each sentence keeps its meaning by them. Refused are, in this
    /// order, a text that is no grammar, rules without labels, a grammar with a form of a live word, and one by which a sentence
    /// has no derivation, or another meaning.
    pub fn regrounding(&self, text: &Text8) -> Result<(CheckedGrammar, Lexicon), Fault>
        ensures free { OnOk result (NoneOf (against_wiki self.now.state (WikiRequest.Grammar text.now))) }
        ensures takes { IfOk result (λ made. TakesGrammar text.now self.now.state Reply.Grammar (record self.now.state { grammar = made.0; words = made.1 })) }
        ensures labelled { IfOk result (λ made. IsTrue (is_labelled made.0)) }
        ensures keeps { IfOk result (λ made. KeepsSentences self.now.state made.0 made.1) }
        ensures refused { IfErr result (IsFault (FirstOf (against_wiki self.now.state (WikiRequest.Grammar text.now)))) }
    {
        self.base.regrounding(text)
    }

    /// Takes in a grammar and words by which each sentence keeps its meaning.
    pub fn regrounded(&mut self, grammar: CheckedGrammar, lexicon: Lexicon)
        requires labelled { IsTrue (is_labelled grammar) }
        requires keeps { KeepsSentences self.old.state grammar lexicon }
        ensures { self.new ≡ record self.old { state = record self.old.state { grammar = grammar; words = lexicon } } }
    {
        self.remembered.clear();
        self.base.regrounded(grammar, lexicon);
    }

    /// The word that has this form, and the words without it, if no sentence needs it. Refused are, in this order, a form that
    /// no word has, and a word that a sentence needs.
    pub fn unwording(&self, form: &Text8) -> Result<(WordId, Lexicon), Fault>
        ensures named { IfOk result (λ gone. word_named self.now.state form.now ≡ Some gone.0) }
        ensures free { OnOk result (NoneOf (against_form self.now.state form.now (against_word self.now.state WordRequest.Unword))) }
        ensures removes { IfOk result (λ gone. IsSomeAnd (word_with self.now.state form.now) (λ word. RemovesWord word self.now.state Reply.Unword
            (record self.now.state { words = gone.1; articles = without_article self.now.state.articles gone.0 }))) }
        ensures gone { IfOk result (λ gone. IsGone self.now.state gone.0 gone.1) }
        ensures refused { IfErr result (IsFault (FirstOf (against_form self.now.state form.now (against_word self.now.state WordRequest.Unword)))) }
    {
        self.base.unwording(form)
    }

    /// Takes in the words without one that no sentence needs, and takes out its empty article.
    pub fn unworded(&mut self, word: WordId, lexicon: Lexicon)
        requires { IsGone self.old.state word lexicon }
        ensures { self.new ≡ record self.old { state = record self.old.state { words = lexicon; articles = without_article self.old.state.articles word } } }
    {
        self.remembered.clear();
        self.base.unworded(word, lexicon);
    }

    /// What the article of a word has now, if there is one, with the interpretation that is kept. All is shared, and nothing is copied but
    /// a list of what the sentences are.
    pub fn keep(&self, word: WordId) -> Result<Option<Kept>, Memory>
        ensures { IfOk result (λ kept. MatchOption kept (article_of self.now.state.articles word ≡ None) (IsOfArticle self.now word)) }
    {
        self.base.keep(word)
    }

    /// The interpretation that was kept with what an article had, as a model of what is known where that is put back.
    pub fn model_of(&self, kept: &Kept) -> Result<CheckedModel, Memory>
        requires { CanBePut self.now.state kept.now }
        ensures interp { IfOk result (λ model. kept_interp model ≡ kept.now.interp) }
        ensures known { IfOk result (λ model. Knows (with_sentences self.now.state kept.now.article kept.now.sentences) (kept_claims model)) }
    {
        self.base.model_of(kept)
    }

    /// Puts back what an article had: its sentences as they were, and the model of what is known with them, which `model_of` gives.
    /// It is false exactly where the article was changed as often as may be, and then nothing changes. It takes no memory.
    pub fn put_back(&mut self, kept: Kept, model: CheckedModel) -> bool
        requires can { CanBePut self.old.state kept }
        requires interp { kept_interp model ≡ kept.interp }
        requires known { Knows (with_sentences self.old.state kept.article kept.sentences) (kept_claims model) }
        ensures exactly { IsTrue result ↔ CanChange self.old.state.articles kept.article }
        ensures done { result ≡ true → self.new ≡ put_back self.old kept }
        ensures refused { result ≡ false → self.new ≡ self.old }
    {
        if self.base.put_back(kept, model) {
            self.remembered.clear();
            true
        } else {
            false
        }
    }

    /// The grammar of sentences.
    pub fn grammar(&self) -> &CheckedGrammar
        ensures { result.now ≡ self.now.state.grammar }
    {
        self.base.grammar()
    }

    /// The live words.
    pub fn lexicon(&self) -> &Lexicon
        ensures { result.now ≡ self.now.state.words }
    {
        self.base.lexicon()
    }

    /// The article of a word.
    pub fn article_of(&self, word: WordId) -> Option<&Article>
        ensures found { option_copied result ≡ article_of self.now.state.articles word }
        ensures sound { IsSound self.now.state }
    {
        self.base.article_of(word)
    }

    /// How many sentences there are, at most `MOST_SENTENCES`.
    pub fn sentence_count(&self) -> usize
        ensures count { result ≡ length (sentences_in self.now.state.articles) }
        ensures few { result ≤ MOST_SENTENCES }
    {
        self.base.sentence_count()
    }

    /// The articles, in order of the numbers of their words.
    pub fn articles(&self) -> &[Article]
        ensures { result.now ≡ self.now.state.articles }
    {
        self.base.articles()
    }

    /// What the sentences of each article mean, in the same order.
    pub fn senses(&self) -> &[Senses]
        ensures { MeanInEach self.now.state.grammar self.now.state.words self.now.state.articles result.now }
    {
        self.base.senses()
    }

    /// The axioms of all asserted sentences, articles in order of word number, sentences in order.
    pub fn asserted(&self) -> &Axioms
        ensures { Knows self.now.state (claims_of result.now) }
    {
        self.base.asserted()
    }
}
