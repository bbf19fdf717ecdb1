// Sentences whose axioms or class say what their structures say (which these are stands in tests/data/meanings.txt), and others
// with their structures, worked out by hand.
// The names are Mary, Bill, Germany and Sue, the nouns man, dog, cat and country, the verbs see, own and border, the
// of-construct part, the adjective near.

/// A text, and its structure.
pub type Row = (&'static str, &'static str);

/// Statements on names.
pub static OF_NAMES: [&str; 14] = [
    "Mary sees Bill.",
    "Mary is a dog.",
    "Mary is Bill.",
    "Mary is not Bill.",
    "Mary does not see Bill.",
    "Mary is not a dog.",
    "Mary is seen by Bill.",
    "Mary is not seen by Bill.",
    "Mary is near Bill.",
    "Mary is not near Bill.",
    "Mary is a part of Bill.",
    "Mary sees itself.",
    "Mary is something.",
    "Mary is not something.",
];

/// Statements that introduce something.
pub static OF_SOMETHING: [&str; 14] = [
    "Mary owns a dog.",
    "Mary sees something.",
    "A dog sees Mary.",
    "Something sees Mary.",
    "Something that sees Mary sees Bill.",
    "Mary sees a part of Bill.",
    "Mary sees a dog that sees Bill.",
    "Mary sees a dog that Bill sees.",
    "Mary does not see a dog.",
    "Mary sees Bill and sees a dog.",
    "Mary sees Bill or sees a dog.",
    "Mary owns a dog or sees a cat.",
    "Mary is a dog that sees Bill.",
    "Mary is something that sees Bill.",
];

/// Statements on everything of a kind.
pub static OF_EVERYTHING: [&str; 27] = [
    "Every dog is a man.",
    "No dog is a man.",
    "Every dog is not a man.",
    "Every dog sees Mary.",
    "Mary sees every dog.",
    "Mary owns no dog.",
    "Every man sees a dog.",
    "No man sees a dog.",
    "Every man owns only dogs.",
    "Mary sees only dogs.",
    "No dog sees only men.",
    "Everything sees Mary.",
    "Nothing sees Mary.",
    "Mary sees everything.",
    "Mary sees nothing.",
    "Everything is a dog.",
    "Nothing is something.",
    "Every dog is seen by a man.",
    "Every dog is near a man.",
    "Every part of Mary is a dog.",
    "Every dog is a man that sees Mary.",
    "Every man that sees a dog sees Mary.",
    "No dog that Mary sees is a man.",
    "Everything that sees Mary is a dog.",
    "Everything that Mary sees is a dog.",
    "Nothing that sees Mary sees Bill.",
    "Mary sees no dog that sees Bill.",
];

/// Conditionals.
pub static CONDITIONALS: [&str; 6] = [
    "If X borders Y then Y borders X.",
    "If X sees Y then Y sees X.",
    "If X sees Y then X owns Y.",
    "If X sees Mary then Mary sees X.",
    "If X owns a dog then X sees Mary.",
    "If Mary sees Bill then Bill sees Mary.",
];

/// Questions.
pub static QUESTIONS: [&str; 12] = [
    "Which countries border Germany?",
    "Who sees Mary?",
    "What sees a dog?",
    "Who is a dog?",
    "What is something?",
    "Who does not see Mary?",
    "Who is seen by Mary?",
    "Which dog sees Mary?",
    "Which dogs see Mary?",
    "Which dog does Mary see?",
    "Which dog sees only men?",
    "Which men are near Mary?",
];

/// Sentences with their structures, one for each label, and one with a free referent.
pub static STRUCTURES: [Row; 27] = [
    ("Mary sees Sue.", "[ | see(Mary, Sue)]"),
    ("Who sees Mary?", "[1 | see(1, Mary)], asked 1"),
    (
        "If X owns a dog then X sees Mary.",
        "[ | [2, 5 | dog(5), own(2, 5)] implies [ | see(2, Mary)]]",
    ),
    (
        "Mary owns a dog and sees Sue.",
        "[4 | dog(4), own(Mary, 4), see(Mary, Sue)]",
    ),
    (
        "Mary sees Sue or owns a dog.",
        "[ | [ | see(Mary, Sue)] or [7 | dog(7), own(Mary, 7)]]",
    ),
    ("Mary is a dog.", "[ | dog(Mary)]"),
    (
        "Mary does not see a dog.",
        "[ | not [6 | dog(6), see(Mary, 6)]]",
    ),
    ("Mary sees a dog.", "[4 | dog(4), see(Mary, 4)]"),
    ("Mary is seen by a dog.", "[6 | dog(6), see(6, Mary)]"),
    ("Mary is something.", "[ | ]"),
    ("Mary is Sue.", "[ | Mary = Sue]"),
    (
        "Mary owns only dogs.",
        "[ | [4 | own(Mary, 4)] implies [ | dog(4)]]",
    ),
    (
        "Mary owns a dog that Sue sees.",
        "[4 | dog(4), see(Sue, 4), own(Mary, 4)]",
    ),
    (
        "A dog sees Mary and owns itself.",
        "[2 | dog(2), see(2, Mary), own(2, 2)]",
    ),
    (
        "If X sees Mary then Mary sees X.",
        "[ | [2 | see(2, Mary)] implies [ | see(Mary, 2)]]",
    ),
    (
        "A dog that owns Sue sees Mary.",
        "[2 | dog(2), own(2, Sue), see(2, Mary)]",
    ),
    (
        "Mary owns a part of a dog.",
        "[4, 7 | dog(7), part(4, 7), own(Mary, 4)]",
    ),
    ("Mary owns a dog.", "[4 | dog(4), own(Mary, 4)]"),
    (
        "Every dog sees Mary.",
        "[ | [2 | dog(2)] implies [ | see(2, Mary)]]",
    ),
    (
        "No dog sees Mary.",
        "[ | [2 | dog(2)] implies [ | not [ | see(2, Mary)]]]",
    ),
    ("Something sees Mary.", "[1 | see(1, Mary)]"),
    (
        "Everything sees Mary.",
        "[ | [1 | ] implies [ | see(1, Mary)]]",
    ),
    (
        "Nothing sees Mary.",
        "[ | [1 | ] implies [ | not [ | see(1, Mary)]]]",
    ),
    ("Who owns a dog?", "[1, 4 | dog(4), own(1, 4)], asked 1"),
    (
        "Which dog sees Mary?",
        "[2 | dog(2), see(2, Mary)], asked 2",
    ),
    (
        "Which dog does Mary see?",
        "[2 | dog(2), see(Mary, 2)], asked 2",
    ),
    ("A part of every dog sees the dog.", "free 5"),
];
