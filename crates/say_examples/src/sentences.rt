// Sentences, and how what they state is said again, worked out by hand from the patterns.

pub type Row = (&'static str, &'static str);

pub static OF_NAMES: [Row; 27] = [
    ("Mary is a man.", "Mary is a man.\n"),
    ("Mary is an owl.", "Mary is an owl.\n"),
    ("Mary is not a man.", "Mary is not a man.\n"),
    ("Mary is not an owl.", "Mary is not an owl.\n"),
    ("Mary owns a dog.", "Mary owns a dog.\n"),
    ("Mary is owned by an owl.", "Mary is owned by an owl.\n"),
    ("Mary is near a sheep.", "Mary is near a sheep.\n"),
    ("Mary is a part of a man.", "Mary is a part of a man.\n"),
    (
        "Mary is an uncle of an owl.",
        "Mary is an uncle of an owl.\n",
    ),
    ("Mary sees something.", "Mary sees something.\n"),
    ("Mary is seen by something.", "Mary is seen by something.\n"),
    (
        "Mary is an uncle of something.",
        "Mary is an uncle of something.\n",
    ),
    (
        "Mary is a man or is not an owl.",
        "Mary is a man or is not an owl.\n",
    ),
    (
        "Mary owns a dog or sees a cat.",
        "Mary owns a dog or sees a cat.\n",
    ),
    (
        "Mary is near something or is a dog.",
        "Mary is near something or is a dog.\n",
    ),
    ("Mary sees Bill.", "Mary sees Bill.\n"),
    ("Mary is seen by Bill.", "Bill sees Mary.\n"),
    ("Mary put Bill.", "Mary put Bill.\n"),
    ("Mary is afraid-of Mary.", "Mary is afraid-of Mary.\n"),
    ("Mary is an uncle of Bill.", "Mary is an uncle of Bill.\n"),
    ("Mary does not put Bill.", "Mary does not put Bill.\n"),
    ("Mary is not seen by Bill.", "Bill does not see Mary.\n"),
    ("Mary is not near Bill.", "Mary is not near Bill.\n"),
    (
        "Mary is not an uncle of Bill.",
        "Mary is not an uncle of Bill.\n",
    ),
    ("Mary is Bill.", "Mary is Bill.\n"),
    ("Mary is not Bill.", "Mary is not Bill.\n"),
    (
        "Mary is a man and sees Bill.",
        "Mary is a man.\nMary sees Bill.\n",
    ),
];

pub static OF_CLASSES: [Row; 30] = [
    ("Every man owns only dogs.", "Every man owns only dogs.\n"),
    ("Every man put only sheep.", "Every man put only sheep.\n"),
    ("Mary owns no dog.", "Every dog is not owned by Mary.\n"),
    ("No man is an owl.", "Every man is not an owl.\n"),
    ("Every sheep is a sheep.", "Every sheep is a sheep.\n"),
    ("Every man sees an owl.", "Every man sees an owl.\n"),
    ("Every man is put by a cat.", "Every man is put by a cat.\n"),
    ("Every man sees Mary.", "Every man sees Mary.\n"),
    ("Every man is seen by Mary.", "Every man is seen by Mary.\n"),
    (
        "Every man is a part of Mary.",
        "Every man is a part of Mary.\n",
    ),
    (
        "Every man does not see Mary.",
        "Every man does not see Mary.\n",
    ),
    (
        "Every man is not near Mary.",
        "Every man is not near Mary.\n",
    ),
    (
        "Every man is not an uncle of Mary.",
        "Every man is not an uncle of Mary.\n",
    ),
    (
        "Every man is a dog and sees Mary and is near something.",
        "Every man is a dog and sees Mary and is near something.\n",
    ),
    (
        "Every man is a dog or sees Mary.",
        "Every man is a dog or sees Mary.\n",
    ),
    (
        "Every man is a dog and sees Mary or owns only cats.",
        "Every man is a dog and sees Mary or owns only cats.\n",
    ),
    (
        "Every man is a dog or sees Mary and is not near Bill.",
        "Every man is a dog or sees Mary and is not near Bill.\n",
    ),
    ("Everything is a dog.", "Everything is a dog.\n"),
    ("Nothing is an owl.", "Everything is not an owl.\n"),
    ("Everything sees something.", "Everything sees something.\n"),
    (
        "Everything is a dog or is not a dog.",
        "Everything is a dog or is not a dog.\n",
    ),
    (
        "Everything that Mary owns is a dog.",
        "Mary owns only dogs.\n",
    ),
    ("Mary sees only sheep.", "Mary sees only sheep.\n"),
    ("If X owns Y then X sees Y.", "If X owns Y then X sees Y.\n"),
    ("If X owns Y then Y sees X.", "If X owns Y then Y sees X.\n"),
    (
        "If X is near Y then Y is near X.",
        "If X is near Y then Y is near X.\n",
    ),
    (
        "If X is an uncle of Y then X is near Y.",
        "If X is an uncle of Y then X is near Y.\n",
    ),
    (
        "If X put Y then Y is a part of X.",
        "If X put Y then Y is a part of X.\n",
    ),
    (
        "If X sees Y and Y sees Z then X sees Z.",
        "If X sees Y and Y sees Z then X sees Z.\n",
    ),
    (
        "If X is an uncle of Y and Z is an uncle of X then Z is an uncle of Y.",
        "If X is an uncle of Y and Y is an uncle of Z then X is an uncle of Z.\n",
    ),
];

pub static WITHOUT_A_PATTERN: [Row; 6] = [
    (
        "Every man owns a dog that sees Mary.",
        "- SubClassOf(:man ObjectSomeValuesFrom(:own ObjectIntersectionOf(:dog ObjectHasValue(:see :Mary))))\n",
    ),
    (
        "Mary is a man or is a dog or is a cat.",
        "- ClassAssertion(ObjectUnionOf(:man ObjectUnionOf(:dog :cat)) :Mary)\n",
    ),
    (
        "Every man that sees Mary is a dog.",
        "- SubClassOf(ObjectIntersectionOf(:man ObjectHasValue(:see :Mary)) :dog)\n",
    ),
    (
        "Everything that is near Mary is a dog.",
        "- SubClassOf(ObjectHasValue(:near :Mary) :dog)\n",
    ),
    (
        "Mary sees Bill or is a dog.",
        "- ClassAssertion(ObjectUnionOf(ObjectHasValue(:see :Bill) :dog) :Mary)\n",
    ),
    (
        "Mary does not see a dog.",
        "- ClassAssertion(ObjectAllValuesFrom(:see ObjectComplementOf(:dog)) :Mary)\n",
    ),
];
