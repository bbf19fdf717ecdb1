// Parts of knowledge.
use logic_terms::Axioms;
use wiki_base::WordId;

/// The axioms of one sentence, with where it stands.
#[derive(Drop)]
pub struct Part {
    /// The word of its article.
    pub article: WordId,
    /// Its place there, from 0 on.
    pub at: u32,
    pub axioms: Axioms,
}
