// The kinds of words, and the forms of one word.
ghost use Rattle.std.specs.Prelude.{◌≡◌, slice_get, Some};

use wiki_base::{Copied, List, Memory, Text};

/// The five kinds of words, after Kuhn, Controlled English for Knowledge Representation, 2010.
#[derive(Clone, Copy, Debug, PartialEq, Eq)]
pub enum Kind {
    /// A proper name, as `Bern`.
    Name,
    /// A countable noun, as `country`.
    Noun,
    /// A noun that stands before `of`, as `part`.
    Of,
    /// A transitive verb, as `border`.
    Verb,
    /// A transitive adjective, as `located-in`.
    Adjective,
}

impl Kind {
    ghost use Rattle.lexicon.specs.Kinds.{form_count, canonical_place};

    /// How many forms a word of the kind has: 1 to 3.
    pub fn form_count(self) -> usize
        ensures { result ≡ form_count self }
    {
        match self {
            Kind::Name | Kind::Of | Kind::Adjective => 1,
            Kind::Noun => 2,
            Kind::Verb => 3,
        }
    }

    // The place of the form that names the word.
    fn canonical_place(self) -> usize
        ensures { result ≡ canonical_place self }
    {
        match self {
            Kind::Verb => 1,
            Kind::Name | Kind::Noun | Kind::Of | Kind::Adjective => 0,
        }
    }
}

/// A list of texts, seen as the list of their bytes.
pub type Texts = List<Text>;

/// The forms of one word, in this order: of a name, an of-construct or an adjective its text; of a noun its singular
/// and plural; of a verb its third person, infinitive and past participle.
#[derive(Drop)]
pub struct Forms {
    pub kind: Kind,
    pub texts: Texts,
}

impl Forms {
    ghost use Rattle.lexicon.specs.Kinds.{canonical_place, IsComplete};

    /// The form that names the word: the text, the singular or the infinitive.
    pub fn canonical(&self) -> &Text
        requires { IsComplete self.now }
        ensures { slice_get self.now.texts (canonical_place self.now.kind) ≡ Some result.now }
    {
        self.texts.get(self.kind.canonical_place())
    }
}

impl Copied for Forms {
    fn copy(&self) -> Result<Self, Memory> {
        Ok(Forms {
            kind: self.kind,
            texts: self.texts.copy()?,
        })
    }
}
