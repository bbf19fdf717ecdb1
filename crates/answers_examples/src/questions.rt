// Questions, each with its answers by the rules of docs/REASONING.md, in the notation of `read`. Each row has how many names
// there are, the axioms, the class, its complement in negation normal form, the budget from which on nothing is unknown, the
// names that are in the class in every model, and those that are unknown with one application less.

/// A row of the table.
pub type Question = (
    u8,
    &'static str,
    &'static str,
    &'static str,
    u64,
    &'static str,
    &'static str,
);

pub static QUESTIONS: [Question; 16] = [
    // Switzerland (1) is a country (A) and borders (r) Germany (2): what borders Germany, and which countries do?
    (2, "12r+ A1:", "2r=", "2r=!", 0, "1", ""),
    (2, "12r+ A1:", "A2r=&", "A!2r=!|", 1, "1", "1"),
    // No axioms: each name is something, and none is nothing.
    (3, "", "T", "T!", 0, "123", ""),
    (3, "", "T!", "T", 0, "", ""),
    // Along an inclusion, against one, and for everything.
    (1, "A1: AB<", "B", "B!", 1, "1", "1"),
    (1, "A1: AB!<", "B", "B!", 0, "", ""),
    (1, "TA<", "A", "A!", 0, "1", ""),
    // A union: the kept model has its first member, and another model has the second.
    (1, "AB|1:", "A", "A!", 1, "", "1"),
    (2, "AB|1: B!1: A2:", "A", "A!", 1, "12", "1"),
    // Names that are equal, each with a class of its own.
    (2, "12~ A1: B2:", "AB&", "A!B!|", 1, "12", "12"),
    // Relations that include others, as they stand and turned round.
    (2, "12r+ rs^", "2s=", "2s=!", 0, "1", ""),
    (2, "12r+ rS^", "1s=", "1s=!", 0, "2", ""),
    // Some pair, and all pairs that lead to a name.
    (2, "12r+ A2:", "Ar?", "A!r*", 1, "1", "1"),
    (2, "1r=A< 21r+", "A", "A!", 1, "2", "2"),
    // Pairs without end: the second pair is found behind five applications, and its class is denied by the seventh.
    (1, "A1: AAr?<", "Ar?r?", "A!r*r*", 7, "1", "1"),
    // Two members of a union that lead to one class.
    (1, "AB|1: AC< BC<", "C", "C!", 4, "1", "1"),
];
