// The kinds that a category may still have.
ghost use Rattle.std.specs.Prelude.{◌≡◌, ◌&&◌, ◌↔◌, IsTrue};
ghost use Rattle.codeco_checked.specs.declared.labels.Kind.{Kind};
ghost use Rattle.codeco_checked.specs.Labels as labels;
ghost use Rattle.codeco_labels.specs.Kinds as kinds;

use codeco_checked::{Heads, Kind};

/// The kinds that a category may have, by what is known of it.
#[derive(Clone, Copy)]
pub(crate) enum Allowed {
    /// Any kind but a mark.
    NoMark,
    /// Any kind but a text and a mark.
    Meanings,
    /// A sentence or a verb phrase.
    Clauses,
    /// This kind.
    Only(Kind),
    /// None: what is known contradicts itself.
    Nothing,
}

impl Allowed {
    /// The kinds of a head that a row asks for.
    pub(crate) fn of_heads(heads: Heads) -> Allowed
        ensures { result ≡ kinds.of_heads heads }
    {
        match heads {
            Heads::Only(kind) => Allowed::Only(kind),
            Heads::Clauses => Allowed::Clauses,
            Heads::Meanings => Allowed::Meanings,
        }
    }

    /// What a category may be of which it is known whether it is a mark.
    pub(crate) fn of_mark(mark: bool) -> Allowed
        ensures { result ≡ kinds.of_mark mark }
    {
        if mark {
            Allowed::Only(Kind::Mark)
        } else {
            Allowed::NoMark
        }
    }

    pub(crate) fn is_nothing(self) -> bool
        ensures { result ≡ kinds.is_nothing self }
    {
        matches!(self, Allowed::Nothing)
    }

    // Whether the kind is among them.
    fn has(self, kind: Kind) -> bool
        ensures { result ≡ kinds.allows self kind }
    {
        match self {
            Allowed::NoMark => !is_mark(kind),
            Allowed::Meanings => !is_mark(kind) && !matches!(kind, Kind::Text),
            Allowed::Clauses => matches!(kind, Kind::Sentence | Kind::VerbPhrase),
            Allowed::Only(only) => number(kind) == number(only),
            Allowed::Nothing => false,
        }
    }

    // This kind, where it is among them.
    fn keep(self, kind: Kind) -> Allowed
        ensures { result ≡ kinds.keep self kind }
    {
        if self.has(kind) {
            Allowed::Only(kind)
        } else {
            Allowed::Nothing
        }
    }

    /// The kinds that both allow.
    pub(crate) fn meet(self, other: Allowed) -> Allowed
        ensures { result ≡ kinds.meet self other }
    {
        match self {
            Allowed::Only(kind) => other.keep(kind),
            Allowed::Nothing => Allowed::Nothing,
            Allowed::NoMark => match other {
                Allowed::Only(kind) => self.keep(kind),
                _ => other,
            },
            Allowed::Meanings => match other {
                Allowed::Only(kind) => self.keep(kind),
                Allowed::NoMark => Allowed::Meanings,
                _ => other,
            },
            Allowed::Clauses => match other {
                Allowed::Only(kind) => self.keep(kind),
                Allowed::Nothing => Allowed::Nothing,
                _ => Allowed::Clauses,
            },
        }
    }
}

fn number(kind: Kind) -> u8
    ensures { result ≡ labels.kind_number kind }
{
    match kind {
        Kind::Text => 0,
        Kind::Sentence => 1,
        Kind::VerbPhrase => 2,
        Kind::NounPhrase => 3,
        Kind::NounBar => 4,
        Kind::Question => 5,
        Kind::Mark => 6,
    }
}

fn is_mark(kind: Kind) -> bool
    ensures { result ≡ labels.is_mark kind }
{
    matches!(kind, Kind::Mark)
}
