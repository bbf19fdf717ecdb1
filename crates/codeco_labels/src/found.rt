// How many there are, and which, as far as labels ask for it.
ghost use Rattle.std.specs.Prelude.{◌≡◌};
ghost use Rattle.codeco_labels.specs.Shapes as shapes;

/// The children or the words of a body.
#[derive(Clone, Copy)]
pub(crate) enum Found {
    No,
    One(u16),
    Two(u16, u16),
    More,
}

impl Found {
    pub(crate) fn and(self, number: u16) -> Found
        ensures { result ≡ shapes.and_one self number }
    {
        match self {
            Found::No => Found::One(number),
            Found::One(first) => Found::Two(first, number),
            Found::Two(_, _) => Found::More,
            Found::More => Found::More,
        }
    }

    pub(crate) fn is_no(self) -> bool
        ensures { result ≡ shapes.is_no self }
    {
        matches!(self, Found::No)
    }

    pub(crate) fn one(self) -> Option<u16>
        ensures { result ≡ shapes.one_of self }
    {
        match self {
            Found::One(number) => Some(number),
            _ => None,
        }
    }

    pub(crate) fn two(self) -> Option<(u16, u16)>
        ensures { result ≡ shapes.two_of self }
    {
        match self {
            Found::Two(first, second) => Some((first, second)),
            _ => None,
        }
    }

    pub(crate) fn is_one(self, number: u16) -> bool
        ensures { result ≡ shapes.is_one self number }
    {
        match self.one() {
            Some(found) => found == number,
            None => false,
        }
    }

    pub(crate) fn are_two(self, first: u16, second: u16) -> bool
        ensures { result ≡ shapes.are_two self first second }
    {
        match self.two() {
            Some((one, other)) => one == first && other == second,
            None => false,
        }
    }
}

/// How often something stands in a body.
#[derive(Clone, Copy)]
pub(crate) enum Times {
    Never,
    Once,
    Often,
}

impl Times {
    pub(crate) fn more(self) -> Times
        ensures { result ≡ shapes.once_more self }
    {
        match self {
            Times::Never => Times::Once,
            Times::Once => Times::Often,
            Times::Often => Times::Often,
        }
    }

    /// Once where it is wanted, else never.
    pub(crate) fn is(self, wanted: bool) -> bool
        ensures { result ≡ shapes.is_times wanted self }
    {
        match self {
            Times::Never => !wanted,
            Times::Once => wanted,
            Times::Often => false,
        }
    }
}
