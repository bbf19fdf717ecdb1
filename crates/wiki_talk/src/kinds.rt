// The names of the kinds of words.
ghost use Rattle.std.specs.Prelude.{◌≡◌};
ghost use Rattle.wiki_talk.specs.Kinds.{kind_name, kind_named};

use lexicon::Kind;

/// The name of a kind.
pub fn kind_name(kind: Kind) -> &'static str
    ensures { result.now ≡ kind_name kind }
{
    match kind {
        Kind::Name => "name",
        Kind::Noun => "noun",
        Kind::Of => "of",
        Kind::Verb => "verb",
        Kind::Adjective => "adjective",
    }
}

/// The kind that has this name.
pub fn kind_named(name: &str) -> Option<Kind>
    ensures { result ≡ kind_named name.now }
{
    match name {
        "name" => Some(Kind::Name),
        "noun" => Some(Kind::Noun),
        "of" => Some(Kind::Of),
        "verb" => Some(Kind::Verb),
        "adjective" => Some(Kind::Adjective),
        _ => None,
    }
}
