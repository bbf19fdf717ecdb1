// What is asked.
use lexicon::Kind;
use wiki_base::{Text8, Text8s};

/// One request to the wiki: on what it has as a whole, on a live word, on an article, or on an open session.
#[derive(Drop)]
pub enum Request {
    OnWiki(WikiRequest),
    /// On the live word that has this form.
    OnWord {
        word: Text8,
        asked: WordRequest,
    },
    /// On the article of the live word that has this form.
    OnArticle {
        article: Text8,
        asked: ArticleRequest,
    },
    /// On the open session with this number.
    OnSession {
        session: u32,
        asked: SessionRequest,
    },
}

/// What is asked of the wiki as a whole.
#[derive(Drop)]
pub enum WikiRequest {
    /// A new word of this kind with these forms; of a noun or a verb the first text may stand alone.
    Word { kind: Kind, forms: Text8s },
    /// All live words.
    Words,
    /// The code of the least skeleton of this text.
    Parse { text: Text8 },
    /// Another grammar for the wiki, in the notation.
    Grammar { text: Text8 },
}

/// What is asked of a live word.
#[derive(Drop)]
pub enum WordRequest {
    /// Its kind and its forms.
    Find,
    /// Other forms of its kind.
    Reword { forms: Text8s },
    /// That it goes.
    Unword,
}

/// What is asked of an article.
#[derive(Drop)]
pub enum ArticleRequest {
    /// Its sentences, with the answers to its questions.
    Read,
    /// A new sentence at a place, or at the end where none is given.
    Add { at: Option<u32>, text: Text8 },
    /// Another sentence in place of the one there.
    Edit { at: u32, text: Text8 },
    /// The sentence there is to go.
    Remove { at: u32 },
    /// The asserted sentence there is no longer to count.
    Retract { at: u32 },
    /// The retracted or red sentence there is to be taken up again.
    Reassert { at: u32 },
    /// What the sentence there means.
    Axioms { at: u32 },
    /// A new session on the article.
    Open,
}

/// What is asked of an open session.
#[derive(Drop)]
pub enum SessionRequest {
    /// One token more, or some.
    Type { text: Text8 },
    /// One token fewer.
    Back,
    /// What may follow its tokens.
    Menu,
    /// Its tokens as a sentence at the end of its article.
    Commit,
    /// That it takes note of the changes of its article.
    Refresh,
    /// That it ends.
    Drop,
}

/// What a line of the input asks: one request to the wiki, or that a change of sentences is taken back or done again.
#[derive(Drop)]
pub enum LineRequest {
    Step(Request),
    /// The newest change of sentences is to be taken back.
    Undo,
    /// The newest change that was taken back is to be done again.
    Redo,
}
