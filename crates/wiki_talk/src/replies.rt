// What is answered.
use crate::refusals::Refusal;
use crate::statuses::Status;
use lexicon::Kind;
use lists::List;
use logic_terms::Cause;
use wiki_base::{Text8, Text8s};

/// A word as it is told: its kind and its forms.
#[derive(Drop)]
pub struct WordView {
    pub kind: Kind,
    pub forms: Text8s,
}

/// A list of words as they are told.
pub type WordViews = List<WordView>;

/// A list of numbers.
pub type Numbers = List<u32>;

/// The tokens that may follow, by their groups, each group in order of bytes.
#[derive(Drop)]
pub struct MenuView {
    pub adjective: Text8s,
    pub function: Text8s,
    pub name: Text8s,
    pub noun: Text8s,
    pub of: Text8s,
    pub verb: Text8s,
}

/// A sentence as it is told: its status, what shows it, and, where it is a question that asks for a class, the names that
/// are in the class, and those of which that isn't known.
#[derive(Drop)]
pub struct SentenceView {
    pub status: Status,
    pub text: Text8,
    pub answers: Text8s,
    pub unknown: Text8s,
}

/// A list of sentences as they are told.
pub type SentenceViews = List<SentenceView>;

/// What a sentence means: its axioms, the class that it asks for, or why it has neither.
#[derive(Drop)]
pub enum Meant {
    Axioms(Text8s),
    Class(Text8),
    Outside(Cause),
}

/// The answer to one request.
#[derive(Drop)]
pub enum Reply {
    /// The word was added.
    Word,
    /// The word that was found.
    Find {
        word: WordView,
    },
    /// All live words, in order of number.
    Words {
        words: WordViews,
    },
    /// The code of the least skeleton.
    Parse {
        code: Numbers,
    },
    /// The word has its other forms.
    Reword,
    /// The word is gone.
    Unword,
    /// The sentence was added, with this status; what shows it.
    Add {
        status: Status,
        shown: Text8,
    },
    /// The other sentence is there, with this status; what shows it.
    Edit {
        status: Status,
        shown: Text8,
    },
    /// The sentence is gone.
    Remove,
    /// The sentence doesn't count, and has this status.
    Retract {
        status: Status,
    },
    /// The sentence was taken up again, with this status.
    Reassert {
        status: Status,
    },
    /// An article: the canonical form of its word, its revision and its sentences.
    Read {
        form: Text8,
        revision: u32,
        sentences: SentenceViews,
    },
    /// What a sentence means.
    Axioms {
        meant: Meant,
    },
    /// The number of the session that was opened.
    Open {
        session: u32,
    },
    /// How many tokens the session has now.
    Type {
        tokens: u32,
    },
    /// How many tokens the session has now.
    Back {
        tokens: u32,
    },
    /// What may follow a session's tokens, whether these are a sentence already, and what shows them.
    Menu {
        menu: MenuView,
        whole: bool,
        shown: Text8,
    },
    /// The sentence was added to this article, named by the canonical form of its word, with this status; what shows it.
    Commit {
        article: Text8,
        status: Status,
        shown: Text8,
    },
    /// The session has taken note of its article's changes.
    Refresh,
    /// The session is gone.
    Drop,
    /// The wiki has its other grammar.
    Grammar,
    /// The newest change of sentences was taken back. It was one of this article, named by the canonical form of its word.
    Undo {
        article: Text8,
    },
    /// The newest change that was taken back was done again. It was one of this article, named by the canonical form of its
    /// word.
    Redo {
        article: Text8,
    },
    /// The request was refused, and nothing has changed.
    Refused(Refusal),
}
