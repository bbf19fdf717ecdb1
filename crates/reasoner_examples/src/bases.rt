// Small knowledge bases, each with how its search ends by the rules of docs/REASONING.md. Each row has how many names
// there are, the axioms in the notation of `read`, after how many rule applications the search ends, and how many
// elements the model of the finished branch has: 0 where all branches are closed.

/// A row of the table.
pub type Base = (u8, &'static str, u64, u64);

pub static BASES: [Base; 58] = [
    // No city (A) is a country (B), and Bern is a city, a country, or both.
    (1, "AB!< A1:", 1, 1),
    (1, "AB!< A1: B1:", 1, 0),
    (1, "A1: B1:", 0, 1),
    // Every person (A) has (r) a parent (B) that is a person; what has a parent knows (s) Mary.
    (1, "ABA&r?< A1:", 7, 2),
    (1, "ABA&r?< A1: Br?s1=<", 18, 2),
    // Names that are equal, and names that are different.
    (2, "12~ 12#", 0, 0),
    (2, "12#", 0, 2),
    (3, "12~ 23~ A1: A!3:", 0, 0),
    (3, "23~ 13#", 0, 2),
    // No names: one element all the same.
    (0, "TT!<", 0, 0),
    (0, "TA<", 0, 1),
    (0, "TA< TA!<", 0, 0),
    (0, "TTr?<", 2, 2),
    // Intersections and unions.
    (1, "AB&1:", 1, 1),
    (1, "AA!&1:", 1, 0),
    (1, "T!1:", 0, 0),
    (1, "AB|1:", 1, 1),
    (1, "AB|1: A!1:", 1, 1),
    (1, "AB|1: A!1: B!1:", 1, 0),
    // Two equal members are two choices, unless both are denied.
    (1, "AA|1:", 1, 1),
    (1, "AA|1: A!1:", 1, 0),
    (1, "A1: ABBA!&|<", 2, 1),
    // A class of all successors, along the hierarchy and against it.
    (2, "12r+ Ar*1: A!2:", 1, 0),
    (2, "12r+ AR*2: A!1:", 1, 0),
    (2, "12r+ rs^ As*1: A!2:", 1, 0),
    (2, "12r+ rS^ As*2: A!1:", 1, 0),
    (2, "12r+ rs^ st^ 12t-", 0, 0),
    (2, "12r+ 21r-", 0, 2),
    // Values.
    (1, "1r=1:", 1, 1),
    (1, "1r=1: 11R-", 1, 0),
    (2, "1r=A< 21r+ A!2:", 1, 0),
    // Successors: a neighbour that has the class serves, any other does not.
    (1, "Ar?1: Br*1: AB!<", 3, 0),
    (2, "12r+ A2: Ar?1:", 0, 2),
    (2, "12r+ Ar?1:", 1, 3),
    // A transitive word: steps of it are a pair of its role, straight and inverted, and of the roles above it.
    (3, "r@ 12r+ 23r+", 0, 3),
    (3, "r@ 12r+ 23r+ 13r-", 1, 0),
    (3, "r@ 12r+ 23r+ 31R-", 1, 0),
    (3, "r@ 12r+ 23r+ 31r-", 0, 3),
    (3, "r@ 12r+ 23r+ Ar*1: A!3:", 3, 0),
    (3, "r@ 12r+ 23r+ AR*3: A!1:", 3, 0),
    (3, "s@ sr^ 12s+ 23s+ Ar*1: A!3:", 3, 0),
    (3, "r@ sr^ 12s+ 23s+ As*1: A!3:", 1, 3),
    (2, "r@ 12r+ 21r+", 0, 2),
    (2, "r@ 12r+ 21r+ 11r-", 1, 0),
    // What it carries goes down a path to where it is blocked.
    (1, "r@ A1: Br*1: AAr?<", 9, 2),
    // Blocked nodes: with edges on, with a label that grows, with a value, and behind choices.
    (1, "A1: AAr?<", 5, 2),
    (1, "A1: AAr?< ABR*<", 10, 2),
    (1, "A1: AAr?< A1s=<", 7, 2),
    (1, "A1: ABAr?|< BA!<", 14, 2),
    (1, "TAB|< A!1: BBr?<", 6, 2),
    (1, "A1: AAR?<", 5, 2),
    (1, "A1: AAr?< ABr*< BA<", 7, 2),
    // A node that serves Bern's class is blocked from above before Bern's turn comes, and then serves no more.
    (
        1,
        "At?1: ABr?< BDr?< DEE|R*< D1s=< DC< DCS?s*< EA< EB< EER*< EEE|<",
        19,
        4,
    ),
    // Inclusions by their forms.
    (1, "AB|C< A1: C!1:", 1, 0),
    (1, "AB&C< A1: B1: C!1:", 2, 0),
    (1, "A!B< A!1: B!1:", 1, 0),
    (1, "Ar*B< B!1:", 5, 2),
    (2, "12~ A1: B2: AB!<", 1, 0),
];

/// Forty successors, one within the other: a search of 40 rule applications.
pub static NESTED: Base = (
    1,
    "Ar?r?r?r?r?r?r?r?r?r?r?r?r?r?r?r?r?r?r?r?r?r?r?r?r?r?r?r?r?r?r?r?r?r?r?r?r?r?r?r?1:",
    40,
    41,
);
