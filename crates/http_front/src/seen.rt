// What is seen in the bytes of a connection.
use crate::goals::{Goal, Verb};
use editor_names::EditorFile;
use wiki_base::Text8;
use wiki_talk::Request;

/// The response to a reply that is done.
#[derive(Drop)]
pub enum Then {
    /// The page of the reply; of a session, the page of the session with this number.
    Page(u32),
    /// The line of the reply, also of a refusal.
    Line,
    /// The way to this path.
    Go(Text8),
    /// The way to the session that the reply names.
    GoSession,
    /// The way to the article that the reply names.
    GoArticle,
}

/// What the program answers by itself, without asking the wiki.
#[derive(Clone, Copy, Debug, PartialEq, Eq)]
pub enum Own {
    /// The way to the editor page.
    Way,
    /// A file of the editor page.
    File(EditorFile),
}

/// What the bytes of a connection are so far.
#[derive(Drop)]
pub enum Seen {
    /// No whole request yet.
    Wait,
    /// No request of the wiki: the status of the response, with the method that the path has instead where the status is 405,
    /// and whether a line was sent that is no request.
    Refuse {
        status: u16,
        allow: Option<Verb>,
        bad_line: bool,
    },
    /// A request that the program answers by itself.
    Own(Own),
    /// A request to the wiki, and the response when it is done.
    Ask(Request, Then),
}

/// The head of a request that the wiki has a path for.
#[derive(Drop)]
pub struct Head {
    /// What its path is for.
    pub goal: Goal,
    /// The word that its path names; empty where it names none.
    pub word: Text8,
    /// The session that its path names; 0 where it names none.
    pub session: u32,
    /// What the program answers by itself; nothing where the wiki is asked.
    pub own: Option<Own>,
    /// How many bytes the head has, behind which the body begins.
    pub start: usize,
    /// How many bytes the body has.
    pub length: usize,
}

/// What the bytes of a connection are as a head.
#[derive(Drop)]
pub enum Begun {
    /// No whole head yet.
    Wait,
    /// No head of a request of the wiki: the status, and for 405 the method that the path has.
    Refuse { status: u16, allow: Option<Verb> },
    /// A whole head.
    Head(Head),
}
