// What stood before a change.
use articles::{Sentences, Shared};
use owl_eval::Interp;
use wiki_base::WordId;
use wiki_parts::Senses;

/// The sentences of an article and what they mean, with the interpretation that was kept while it had them. All three are shared
/// with what the wiki has where that is the same. The axioms that the interpretation is a model of are those of the sentences of
/// all articles, and aren't kept once more.
#[derive(Drop)]
pub struct Kept {
    /// The word of the article.
    pub article: WordId,
    pub sentences: Sentences,
    /// The meaning of each, in the same order.
    pub senses: Senses,
    pub interp: Shared<Interp>,
}
