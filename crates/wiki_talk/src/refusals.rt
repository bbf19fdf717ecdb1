// Why a request is refused.
ghost use Rattle.std.specs.Prelude.{◌≡◌};

use crate::limits::Limit;
use crate::replies::MenuView;
use crate::statuses::Status;
use wiki_base::Text8;

/// Why a request was refused.
#[derive(Drop)]
pub enum Refusal {
    /// No live word has the form.
    NoWord { text: Text8 },
    /// The form of this place, from 0, can't be a form of a word; or their number, where each could be.
    BadForm { which: u32 },
    /// Another live word, named by its canonical form, has the form.
    Taken { text: Text8, word: Text8 },
    /// The grammar has the text as a word of its own, or has it with a small first letter.
    Reserved { text: Text8 },
    /// The article has no such place; it has so many sentences.
    NoPlace { length: u32 },
    /// No open session has the number.
    NoSession { session: u32 },
    /// The limit is reached.
    Full { which: Limit, limit: u32 },
    /// The article has changed since the session was opened or took note of it; it has this revision now.
    Stale { revision: u32 },
    /// The menu of the session's tokens doesn't have the text.
    NotOffered { text: Text8 },
    /// The session has no tokens; or no change is there to be taken back, or to be done again.
    Nothing,
    /// The session's tokens are no sentence yet; the menu tells what may follow.
    Unfinished { menu: MenuView },
    /// The tokens have no derivation. Of them the first `k` can be typed and no more, and the menu is theirs.
    NotSentence { k: u32, menu: MenuView },
    /// This place, the first of those that stand against it, needs the word. The article is named by its canonical form.
    InUse { article: Text8, at: u32 },
    /// With the other forms, or by the other grammar, the sentence of this place, the first such, would have no derivation
    /// or another meaning. The article is named by its canonical form.
    Breaks { article: Text8, at: u32 },
    /// The sentence there has this status.
    BadStatus { status: Status },
    /// The text is no grammar. The fault is told by its name and by its byte, feature or rule; it is 0 where it has none.
    GrammarRefused { fault: Text8, at: u32 },
    /// The rules of the grammar have no labels, so no sentence would have a meaning by it.
    Bare,
}

/// The number and the name by which a refusal is told.
#[derive(Clone, Copy, Debug)]
pub struct Title {
    pub number: u32,
    pub name: &'static str,
}

/// What tells a line that is too long or is no request.
pub const BAD_REQUEST: Title = Title {
    number: 0,
    name: "BadRequest",
};

impl Refusal {
    ghost use Rattle.wiki_talk.specs.Refusals.{title_of};

    /// The number and the name by which the refusal is told.
    pub fn title(&self) -> Title
        ensures number { result.number ≡ (title_of self.now).number }
        ensures name { result.name.now ≡ (title_of self.now).name }
    {
        let (number, name) = match self {
            Refusal::NoWord { .. } => (1, "NoWord"),
            Refusal::BadForm { .. } => (2, "BadForm"),
            Refusal::Taken { .. } => (3, "Taken"),
            Refusal::Reserved { .. } => (4, "Reserved"),
            Refusal::NoPlace { .. } => (5, "NoPlace"),
            Refusal::NoSession { .. } => (6, "NoSession"),
            Refusal::Full { .. } => (7, "Full"),
            Refusal::Stale { .. } => (8, "Stale"),
            Refusal::NotOffered { .. } => (9, "NotOffered"),
            Refusal::Nothing => (10, "Nothing"),
            Refusal::Unfinished { .. } => (11, "Unfinished"),
            Refusal::NotSentence { .. } => (12, "NotSentence"),
            Refusal::InUse { .. } => (13, "InUse"),
            Refusal::Breaks { .. } => (14, "Breaks"),
            Refusal::BadStatus { .. } => (15, "BadStatus"),
            Refusal::GrammarRefused { .. } => (16, "GrammarRefused"),
            Refusal::Bare => (17, "Bare"),
        };
        Title { number, name }
    }
}
