// Small knowledge bases over transitive relation words, each worked out by hand.

/// How many names there are, the axioms in the notation of `read`, and whether they have a model. Where they have one, they
/// have one that the exhaustive search finds.
pub type Worked = (u8, &'static str, bool);

pub static LEADING: [Worked; 48] = [
    // Two steps of names are one, in both directions of writing.
    (3, "r@ 12r+ 23r+ 13r-", false),
    (3, "r@ 12r+ 23r+ 31r-", true),
    (3, "12r+ 23r+ 13r-", true),
    (3, "r@ 21R+ 23r+ 13r-", false),
    (3, "r@ 21R+ 32R+ 13r-", false),
    (3, "r@ 12r+ 23r+ 31R-", false),
    // A cycle of names leads to each of them, and a name that is joined to another stands for it.
    (2, "r@ 12r+ 21r+ 11r-", false),
    (2, "r@ 12r+ 21r+ 22r-", false),
    (2, "r@ 12r+ 11r-", true),
    (3, "r@ 31~ 12r+ 23r+ 11r-", false),
    (3, "r@ 12~ 12r+ 23r+ 13r-", false),
    // The transitive word below another, above it, and both.
    (3, "s@ sr^ 12s+ 23s+ 13r-", false),
    (3, "r@ sr^ 12s+ 23s+ 13r-", false),
    (3, "r@ sr^ 12s+ 23s+ 13s-", true),
    (3, "s@ sr^ 12s+ 23s+ 31r-", true),
    (3, "r@ st^ tr^ 12s+ 23t+ 13r-", false),
    (3, "r@ s@ rs^ 12r+ 23s+ 13s-", false),
    (3, "r@ s@ rs^ 12r+ 23s+ 13r-", true),
    (3, "r@ s@ 12r+ 23s+ 13r- 13s-", true),
    // With an inverse above it, and below it.
    (3, "r@ rS^ 12r+ 23r+ 31s-", false),
    (3, "r@ Rs^ 12r+ 23r+ 31s-", false),
    (3, "r@ rS^ 12r+ 23r+ 13s-", true),
    (3, "r@ sR^ 21s+ 32s+ 13r-", false),
    (3, "r@ sR^ 21s+ 32s+ 31s-", true),
    // Symmetric and transitive: what has a neighbour is its own.
    (2, "r@ rR^ 12r+ 11r-", false),
    (2, "r@ rR^ 12r+ 22r-", false),
    (1, "r@ rR^ Tr?1: Br*1: B!1:", false),
    (1, "rR^ Tr?1: Br*1: B!1:", true),
    // A class of all successors goes along the path, by the word and by its inverse, and through a role above.
    (3, "r@ 12r+ 23r+ Ar*1: A!3:", false),
    (3, "12r+ 23r+ Ar*1: A!3:", true),
    (3, "r@ 12r+ 23r+ AR*3: A!1:", false),
    (3, "r@ 12r+ 23r+ Ar*2: A!1:", true),
    (3, "s@ sr^ 12s+ 23s+ Ar*1: A!3:", false),
    (3, "r@ sr^ 12s+ 23s+ As*1: A!3:", true),
    (3, "s@ sR^ 32s+ 21s+ AR*3: A!1:", false),
    // So does the complement of a value.
    (3, "r@ 12r+ 23r+ 3r=!1:", false),
    (3, "r@ 12r+ 23r+ 1R=!3:", false),
    (3, "r@ 12r+ 23r+ 1r=!3:", true),
    (2, "r@ 2r=r?r?1: 2r=!1:", false),
    // Successors without names.
    (1, "r@ Br?r?1: B!r*1:", false),
    (1, "Br?r?1: B!r*1:", true),
    (1, "r@ Br?r?r?1: B!r*1:", false),
    (1, "r@ Br?R?1: B!r*1:", true),
    (2, "r@ 12r+ Ar?2: AB!< Br*1:", false),
    (2, "12r+ Ar?2: AB!< Br*1:", true),
    // Paths that go on without an end, and are blocked.
    (1, "r@ A1: AAr?< 1r=!1:", true),
    (2, "r@ A1: AAr?< Br*1: B!2:", true),
    (2, "r@ Ar?1: A2r=< 12r-", false),
];
