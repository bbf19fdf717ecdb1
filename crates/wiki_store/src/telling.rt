// What is told of a sentence.
ghost use Rattle.std.specs.Prelude.{IfOk, IfErr, OnOk, IsSomeAnd};
ghost use Rattle.wiki_parts.specs.Faults.{IsFault};
ghost use Rattle.plain_wiki.specs.Places.{article_named};
ghost use Rattle.plain_wiki.specs.Causes.{FirstOf, NoneOf};
ghost use Rattle.plain_wiki.specs.Doing.{TellsMeaning};
ghost use Rattle.wiki_store.specs.Asking.{against};

use crate::base::Base;
use wiki_base::Text8;
use wiki_parts::{Fault, sense_of, told_meaning};
use wiki_talk::{ArticleRequest, Reply};

impl Base {
    // Tells what the sentence at a place of an article means.
    pub(crate) fn axioms(&self, form: &Text8, at: u32) -> Result<Reply, Fault>
        ensures free { OnOk result (NoneOf (against self.now.state form.now (ArticleRequest.Axioms at))) }
        ensures tells { IfOk result (λ reply. IsSomeAnd (article_named self.now.state form.now) (λ article. TellsMeaning at self.now.state article reply)) }
        ensures refused { IfErr result (IsFault (FirstOf (against self.now.state form.now (ArticleRequest.Axioms at)))) }
    {
        let sentence = self.sentence(self.article_with(form)?, at)?;
        match sense_of(
            self.alloc,
            &self.grammar,
            &self.lexicon,
            sentence.tokens.get(),
        )? {
            Some(sense) => Ok(Reply::Axioms {
                meant: told_meaning(self.alloc, &self.lexicon, &sense)?,
            }),
            None => unreachable!(),
        }
    }
}
