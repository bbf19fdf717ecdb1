// The words and sentences, and what is done to them by a request.
ghost use Rattle.std.specs.Prelude.{◌≡◌, ◌≤◌, ◌<◌, ◌+◌, ◌++◌, ◌∷◌, [], None, Err, IfErr, OnOk, find, All, IsTrue, IsSome, IfOk, IfSome, IfNone, IsSomeAnd, OnErr, Some, option_map};
ghost use Rattle.lexicon.specs.declared.words.TheConstants.{LAST_NUMBER};
ghost use Rattle.plain_wiki.specs.Words.{word_refusal, forms_given};
ghost use Rattle.wiki_parts.specs.Faults.{IsCause};
ghost use Rattle.articles.specs.Articles.{new_article};
ghost use Rattle.lexicon.specs.Words.{with_word, add_refusal};

use crate::keeping::Keeping;
use articles::Articles;
use codeco_checked::CheckedGrammar;
use lexicon::{Kind, Lexicon, MOST_WORDS};
use std::alloc::Global;
use std::marker::Model;
use wiki_base::{Memory, Place, Text8, WordId};
use wiki_parts::{
    Fault, Senses, add_word, first_model, first_use, is_faithful, least, no_sentence, told_code,
    told_text, told_word, told_words,
};
use wiki_talk::{Refusal, Reply, WikiRequest, WordRequest};

// The words and sentences of a wiki. They are seen as what is stored, which is the grammar, the live words and their articles, the budget of
// a search, and the interpretation that is kept.
#[derive(Drop)]
pub(crate) struct Base {
    pub(crate) alloc: Global,
    pub(crate) grammar: CheckedGrammar,
    pub(crate) budget: u64,
    pub(crate) lexicon: Lexicon,
    pub(crate) articles: Articles,
    // What the sentences of each article mean.
    pub(crate) senses: Vec<Senses>,
    // A model of what is known.
    pub(crate) kept: Keeping,
    // The last number that was given to a word.
    pub(crate) last: u32,
}

impl Model for Base {
    ghost use Rattle.std.specs.Prelude.{◌≡◌};
    ghost use Rattle.wiki_parts.specs.Holding.{Holding};

    ghost Value = { Holding };

    ghost use Rattle.owl_eval.specs.Checked.{kept_interp};
    ghost use Rattle.wiki_parts.specs.Kept.{IsKeeping};

    ghost view = { λ w. record {
      state = record { grammar = w.grammar; words = w.lexicon; articles = w.articles };
      budget = w.budget;
      interpretation = kept_interp w.kept;
    } };

    ghost invariant = { λ w. IsKeeping (record { grammar = w.grammar; words = w.lexicon; articles = w.articles }) w.senses.items w.kept
        × (w.last ≡ w.lexicon.last) };
}

impl Base {
    ghost use Rattle.codeco_checked.specs.Sound.{is_labelled};
    ghost use Rattle.wiki_parts.specs.Holding.{first_holding, IsKept};
    ghost use Rattle.plain_wiki.specs.Doing.{AddsWord, TellsWord, TellsWords, TellsCode};
    ghost use Rattle.plain_wiki.specs.Against.{against_wiki, against_word, against_form};
    ghost use Rattle.wiki_parts.specs.Faults.{IsFault};
    ghost use Rattle.articles.specs.Articles.{HasArticle};
    ghost use Rattle.articles.specs.Places.{IsPlaceOf};
    ghost use Rattle.lexicon.specs.declared.kinds.Forms.{Forms as TheForms};
    ghost use Rattle.lexicon.specs.Words.{forms_of};
    ghost use Rattle.plain_wiki.specs.Places.{word_with, all_placed, told_place};
    ghost use Rattle.plain_wiki.specs.Causes.{FirstOf, NoneOf, uses_word};
    ghost use Rattle.wiki_store.specs.Rewording.{TellsPlace};

    // A base without words, over a grammar in which each rule has a label. A search may take `budget` steps.
    pub(crate) fn new(alloc: Global, grammar: CheckedGrammar, budget: u64) -> Result<Base, Memory>
        requires { IsTrue (is_labelled grammar) }
        ensures { IfOk result (λ base. base ≡ first_holding grammar budget) }
    {
        let lexicon = Lexicon::new(alloc, grammar.grammar())?;
        let articles = Articles::new(alloc)?;
        let kept = Keeping::new(alloc, first_model(alloc)?)?;
        Ok(Base {
            alloc,
            grammar,
            budget,
            lexicon,
            articles,
            senses: Vec::new(alloc),
            kept,
            last: 0,
        })
    }

    // What is kept fits the state.
    pub(crate) fn is_kept(&self)
        ensures { IsKept self.now }
    {
        is_faithful(&self.grammar);
        let _ = self.articles.len();
        let _ = self.kept.interp();
    }

    // Adds a word, with an empty article.
    pub(crate) fn add(&mut self, kind: Kind, forms: &[Text8]) -> Result<Reply, Fault>
        ensures free { OnOk result (NoneOf (against_wiki self.old.state (WikiRequest.Word kind forms.now))) }
        ensures adds { IfOk result (λ reply. AddsWord kind forms.now self.old.state reply self.new.state) }
        ensures budget { OnOk result (self.new.budget ≡ self.old.budget) }
        ensures interpretation { OnOk result (self.new.interpretation ≡ self.old.interpretation) }
        ensures refused { IfErr result (IsFault (FirstOf (against_wiki self.old.state (WikiRequest.Word kind forms.now)))) }
        ensures kept { OnErr result (self.new ≡ self.old) }
    {
        let Some(number) = self.next_number() else {
            return Err(refusal_of_word(self.alloc, &mut self.lexicon, kind, forms));
        };
        let word = WordId(number);
        self.senses.push(Senses::new(self.alloc))?;
        match enter_word(
            self.alloc,
            &mut self.articles,
            &mut self.lexicon,
            word,
            kind,
            forms,
        ) {
            Ok(()) => {
                self.last = number;
                Ok(Reply::Word)
            }
            Err(fault) => {
                let _ = self.senses.pop();
                Err(fault)
            }
        }
    }

    // The number that the next word gets; none where all are given. It is above those of all articles.
    fn next_number(&self) -> Option<u32>
        ensures next { IfSome result (λ next. (next ≡ self.now.state.words.last + 1) × All (λ article. article.word.0 < next) self.now.state.articles) }
        ensures none { IfNone result (self.now.state.words.last ≡ LAST_NUMBER) }
    {
        prove!(self.lexicon.len() <= MOST_WORDS);
        self.last.checked_add(1)
    }

    // Where the article of a live word stands.
    pub(crate) fn place(&self, word: WordId) -> usize
        requires { HasArticle self.now.state.articles word }
        ensures { IsPlaceOf self.now.state.articles word result }
    {
        match self.articles.place_of(word) {
            Some(place) => place,
            None => unreachable!(),
        }
    }

    // The first place that needs a live word.
    pub(crate) fn use_of(&self, word: WordId) -> Option<Place>
        ensures { (forms : TheForms) → forms_of self.now.state.words.live word ≡ Some forms
            → result ≡ option_map told_place (find (uses_word word forms) (all_placed self.now.state.articles)) }
    {
        match self.lexicon.word(word) {
            Some(forms) => first_use(self.articles.as_slice(), word, forms),
            None => None,
        }
    }

    // Tells a place that needs a word.
    pub(crate) fn in_use(&self, place: Place) -> Result<Refusal, Memory>
        requires { IsSome (forms_of self.now.state.words.live place.article) }
        ensures { IfOk result (TellsPlace self.now.state (λ form place. Refusal.InUse form place) place.article place.at) }
    {
        match self.lexicon.word(place.article) {
            Some(forms) => Ok(Refusal::InUse {
                article: told_text(self.alloc, forms.canonical())?,
                at: place.at,
            }),
            None => unreachable!(),
        }
    }

    // Tells the word that has this form.
    pub(crate) fn find(&self, form: &Text8) -> Result<Reply, Fault>
        ensures tells { IfOk result (λ reply. IsSomeAnd (word_with self.now.state form.now) (λ word. TellsWord word reply)) }
        ensures refused { IfErr result (IsFault (FirstOf (against_form self.now.state form.now (against_word self.now.state WordRequest.Find)))) }
    {
        let word = self.named(form)?;
        Ok(Reply::Find {
            word: told_word(self.alloc, self.forms(word))?,
        })
    }

    // Tells all words.
    pub(crate) fn words(&self) -> Result<Reply, Memory>
        ensures { IfOk result (TellsWords self.now.state) }
    {
        Ok(Reply::Words {
            words: told_words(self.alloc, &self.lexicon)?,
        })
    }

    // Tells the code of a text.
    pub(crate) fn parse(&self, text: &Text8) -> Result<Reply, Fault>
        ensures free { OnOk result (NoneOf (against_wiki self.now.state (WikiRequest.Parse text.now))) }
        ensures tells { IfOk result (TellsCode text.now self.now.state) }
        ensures refused { IfErr result (IsFault (FirstOf (against_wiki self.now.state (WikiRequest.Parse text.now)))) }
    {
        let tokens = self.tokens(text)?;
        match least(self.alloc, &self.grammar, &self.lexicon, &tokens)? {
            Some(least) => Ok(Reply::Parse {
                code: told_code(self.alloc, &least)?,
            }),
            None => Err(Fault::Refused(no_sentence(
                self.alloc,
                &self.grammar,
                &self.lexicon,
                &tokens,
            )?)),
        }
    }
}

// Adds a word with an empty article. The article comes first, since it can be taken out again.
fn enter_word(
    alloc: Global,
    articles: &mut Articles,
    lexicon: &mut Lexicon,
    word: WordId,
    kind: Kind,
    forms: &[Text8],
) -> Result<(), Fault>
    requires { All (λ other. other.word.0 < word.0) articles.old }
    ensures article { OnOk result (articles.new ≡ articles.old ++ new_article word ∷ []) }
    ensures added { OnOk result (lexicon.new ≡ with_word lexicon.old (forms_given kind forms.now)) }
    ensures accepted { OnOk result (word_refusal lexicon.old kind forms.now ≡ None) }
    ensures free { OnOk result (add_refusal lexicon.old (forms_given kind forms.now) ≡ None) }
    ensures refused { IfErr result (IsCause (word_refusal lexicon.old kind forms.now)) }
    ensures articles { OnErr result (articles.new ≡ articles.old) }
    ensures lexicon { OnErr result (lexicon.new ≡ lexicon.old) }
{
    articles.begin(word)?;
    match add_word(alloc, lexicon, kind, forms) {
        Ok(()) => Ok(()),
        Err(fault) => {
            articles.end(word);
            Err(fault)
        }
    }
}

// Why a word is refused where all numbers are given.
fn refusal_of_word(alloc: Global, lexicon: &mut Lexicon, kind: Kind, forms: &[Text8]) -> Fault
    requires { lexicon.old.last ≡ LAST_NUMBER }
    ensures refused { IsCause (word_refusal lexicon.old kind forms.now) result }
    ensures words { lexicon.new ≡ lexicon.old }
{
    match add_word(alloc, lexicon, kind, forms) {
        Ok(()) => unreachable!(),
        Err(fault) => fault,
    }
}
