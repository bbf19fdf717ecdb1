// A sentence that takes its place in an article, whether it is new, in place of another, or that one taken up again.
ghost use Rattle.std.specs.Prelude.{◌≡◌, ◌≤◌, ◌+◌, List, length, slice_get, slice_set, Some, AllPairs, IsSomeAnd, IfOk, OnOk, OnErr};
ghost use Rattle.articles.specs.Articles.{AreInOrder, CanChange, HasPlace, with_change};
ghost use Rattle.codeco_checked.specs.Sound.{IsSound};
ghost use Rattle.lexicon.specs.Words.{SharesNoForm};
ghost use Rattle.wiki_parts.specs.declared.meanings.Sense.{Sense as TheSense};
ghost use Rattle.wiki_parts.specs.Found.{meaning_shown};
ghost use Rattle.wiki_store.specs.Putting.{spliced, CanBeMade, IsMade};
ghost use Rattle.wiki_store.specs.Settled.{IsTrueIn};

use crate::base::Base;
use crate::joining::{Stretch, is_settled, join, stated};
use crate::standing::standing;
use articles::{Articles, Sentence, Shared};
use wiki_base::{Memory, Tokens, WordId};
use wiki_parts::{Sense, Senses};
use wiki_talk::Status;

// A sentence in place of those of an article from a place to before another, which is the same place or the next: its tokens and
// what they mean.
#[derive(Drop)]
pub(crate) struct Change {
    pub(crate) word: WordId,
    pub(crate) from: u32,
    pub(crate) to: u32,
    pub(crate) tokens: Shared<Tokens>,
    pub(crate) sense: Shared<Sense>,
}

impl Base {
    // Makes a change, and tells the status that its sentence gets, where the one that it replaces has left what is known.
    pub(crate) fn put(&mut self, change: Change) -> Result<Status, Memory>
        requires can { CanBeMade self.old.state change }
        ensures made { IfOk result (λ status. IsMade self.old change status self.new) }
        ensures memory { OnErr result (self.new ≡ self.old) }
    {
        if is_settled(&self.kept, &change.sense) {
            self.put_true(change)
        } else {
            self.put_judged(change)
        }
    }

    // The same of a statement that is true in the kept interpretation. No other axiom is looked at.
    fn put_true(&mut self, change: Change) -> Result<Status, Memory>
        requires can { CanBeMade self.old.state change }
        requires settled { IsTrueIn self.old.interpretation (meaning_shown change.sense) }
        ensures made { IfOk result (λ status. IsMade self.old change status self.new) }
        ensures memory { OnErr result (self.new ≡ self.old) }
    {
        let own = stated(self.alloc, &change.sense)?;
        let place = self.place(change.word);
        let stretch = Stretch {
            articles: self.articles.as_slice(),
            senses: &self.senses,
            place,
            from: change.from as usize,
            to: change.to as usize,
        };
        let joined = join(&mut self.kept, &stretch, own)?;
        let status = Status::Asserted;
        match store(&mut self.articles, &mut self.senses, place, change, status) {
            Ok(()) => {
                self.kept.remove(joined.behind, joined.end);
                Ok(status)
            }
            Err(fault) => {
                self.kept.remove(joined.first, joined.behind);
                Err(fault)
            }
        }
    }

    // The same by a verdict on all that is known then, if it is a statement.
    fn put_judged(&mut self, change: Change) -> Result<Status, Memory>
        requires can { CanBeMade self.old.state change }
        ensures made { IfOk result (λ status. IsMade self.old change status self.new) }
        ensures memory { OnErr result (self.new ≡ self.old) }
    {
        self.are_apart();
        let place = self.place(change.word);
        let stretch = Stretch {
            articles: self.articles.as_slice(),
            senses: &self.senses,
            place,
            from: change.from as usize,
            to: change.to as usize,
        };
        let (status, model) = standing(
            self.alloc,
            &self.lexicon,
            self.budget,
            &self.kept,
            &stretch,
            &change.sense,
        )?;
        store(&mut self.articles, &mut self.senses, place, change, status)?;
        self.kept.exchange(model);
        Ok(status)
    }

    // The grammar is sound, and no two words share a form.
    fn are_apart(&self)
        ensures sound { IsSound self.now.state.grammar }
        ensures apart { AllPairs SharesNoForm self.now.state.words.live }
    {
        let _ = self.grammar.grammar();
        let _ = self.lexicon.len();
    }
}

// Stores the sentence of a change with its status, and what it means beside it.
fn store(
    articles: &mut Articles,
    senses: &mut Vec<Senses>,
    place: usize,
    change: Change,
    status: Status,
) -> Result<(), Memory>
    requires open { CanChange articles.old change.word }
    requires rises { change.from ≤ change.to }
    requires narrow { change.to ≤ change.from + 1 }
    requires in_order { AreInOrder articles.old }
    requires place { HasPlace articles.old change.word change.to }
    requires own { IsSomeAnd (slice_get senses.old.items place) (λ own. change.to ≤ length own) }
    ensures articles { OnOk result (articles.new ≡ with_change articles.old change.word
        (λ sentences. spliced sentences change.from change.to (record { tokens = change.tokens; status = status }))) }
    ensures senses { OnOk result ((own : List TheSense) → slice_get senses.old.items place ≡ Some own
        → senses.new.items ≡ slice_set senses.old.items place (spliced own change.from change.to change.sense)) }
    ensures articles_stay { OnErr result (articles.new ≡ articles.old) }
    ensures senses_stay { OnErr result (senses.new.items ≡ senses.old.items) }
{
    let at = change.from as usize;
    let tokens = change.tokens;
    let sentence = Sentence { tokens, status };
    if change.from < change.to {
        senses[place].set(at, change.sense);
        let _ = articles.replace(change.word, change.from, sentence);
        return Ok(());
    }
    senses[place].insert(at, change.sense)?;
    match articles.insert(change.word, change.from, sentence) {
        Ok(()) => Ok(()),
        Err(fault) => {
            let _ = senses[place].remove(at);
            Err(fault)
        }
    }
}
