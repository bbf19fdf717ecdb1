// What the paths of the wiki are for.
ghost use Rattle.std.specs.Prelude.{◌≡◌};

/// The method of a request that a path has.
#[derive(Clone, Copy, Debug, PartialEq, Eq)]
pub enum Verb {
    Get,
    Post,
}

/// What is done with an article.
#[derive(Clone, Copy, Debug, PartialEq, Eq)]
pub enum OnArticle {
    Read,
    Add,
    Edit,
    Remove,
    Retract,
    Reassert,
    Open,
}

/// What is done with a session.
#[derive(Clone, Copy, Debug, PartialEq, Eq)]
pub enum InSession {
    Menu,
    Type,
    Back,
    Refresh,
    Commit,
    Drop,
}

/// What a path is for.
#[derive(Clone, Copy, Debug, PartialEq, Eq)]
pub enum Goal {
    /// The index of all words.
    Index,
    /// A new word.
    NewWord,
    /// One request as a line of JSON.
    Line,
    Article(OnArticle),
    Session(InSession),
    /// The way to the editor page.
    Editor,
    /// A file of the editor page.
    EditorFile,
}

impl Verb {
    ghost use Rattle.http_front.specs.Routes.{verb_name};

    /// The name of the method.
    pub fn name(self) -> &'static str
        ensures { result.now ≡ verb_name self }
    {
        match self {
            Verb::Get => "GET",
            Verb::Post => "POST",
        }
    }
}

impl Goal {
    ghost use Rattle.http_front.specs.Routes.{verb_of};

    /// The method that a path for this has.
    pub fn verb(self) -> Verb
        ensures { result ≡ verb_of self }
    {
        match self {
            Goal::Index
            | Goal::Article(OnArticle::Read)
            | Goal::Session(InSession::Menu)
            | Goal::Editor
            | Goal::EditorFile => Verb::Get,
            _ => Verb::Post,
        }
    }
}
