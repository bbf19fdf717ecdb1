use crate::classes::{inverse, many, nouns, some, straight};
use crate::saying::{BILL, DOG, MAN, MARY, NEAR, OWL, PART, SEE, lines, stated, told, words};
use crate::sentences::{OF_CLASSES, OF_NAMES, Row, WITHOUT_A_PATTERN};
use ace_grammar::built_in;
use logic_terms::{Axiom, Class, Classes};
use std::alloc::Global;
use std::process::Abort;
use std::test::Fail;
use wiki_base::WordId;

static OTHER_NUMBERS: [&[WordId]; 3] = [&[MAN, DOG, OWL], &[DOG], &[]];

// What each sentence states is said as the lines beside it.
fn are_said(rt: &impl Abort, alloc: Global, rows: &[Row]) -> Result<(), Fail> {
    let grammar = built_in(alloc)?;
    let lexicon = words(alloc, &grammar)?;
    for (text, expected) in rows {
        let axioms = stated(alloc, &grammar, &lexicon, text)?;
        assert_eq!(rt;
            lines(alloc, &grammar, &lexicon, &axioms)?.as_str(),
            *expected,
            "{text}"
        );
    }
    Ok(())
}

#[test]
fn what_is_stated_of_names_is_said(rt: HostRuntime) -> Result<(), Fail> {
    are_said(&rt, rt.alloc(), OF_NAMES.as_slice())
}

#[test]
fn what_is_stated_of_classes_and_roles_is_said(rt: HostRuntime) -> Result<(), Fail> {
    are_said(&rt, rt.alloc(), OF_CLASSES.as_slice())
}

#[test]
fn other_axioms_have_no_pattern(rt: HostRuntime) -> Result<(), Fail> {
    are_said(&rt, rt.alloc(), WITHOUT_A_PATTERN.as_slice())
}

// What is told of an axiom by the built-in grammar.
fn is_told(rt: &impl Abort, alloc: Global, axiom: &Axiom, expected: &str) -> Result<(), Fail> {
    let grammar = built_in(alloc)?;
    let lexicon = words(alloc, &grammar)?;
    assert_eq!(rt; told(alloc, &grammar, &lexicon, axiom)?.as_str(), expected);
    Ok(())
}

fn has_no_pattern(rt: &impl Abort, alloc: Global, axiom: &Axiom) -> Result<(), Fail> {
    is_told(rt, alloc, axiom, "no pattern")
}

// An inclusion of a noun in a class.
fn of_men(class: Class) -> Axiom {
    Axiom::SubClass(Class::Named(MAN), class)
}

// A union of these nouns has no pattern, neither of a noun nor of a name.
fn union_has_no_pattern(rt: &impl Abort, alloc: Global, members: &[WordId]) -> Result<(), Fail> {
    has_no_pattern(rt, alloc, &of_men(Class::Or(nouns(alloc, members)?)))?;
    has_no_pattern(
        rt,
        alloc,
        &Axiom::Member(Class::Or(nouns(alloc, members)?), MARY),
    )
}

#[test]
fn unions_of_other_numbers_than_two_have_no_pattern(rt: HostRuntime) -> Result<(), Fail> {
    let alloc = rt.alloc();
    for members in &OTHER_NUMBERS {
        union_has_no_pattern(&rt, alloc, *members)?;
    }
    has_no_pattern(&rt, alloc, &of_men(Class::And(Classes::new(alloc))))
}

#[test]
fn an_intersection_of_one_is_read_as_its_member(rt: HostRuntime) -> Result<(), Fail> {
    let alloc = rt.alloc();
    let one = nouns(alloc, &[OWL])?;
    is_told(
        &rt,
        alloc,
        &of_men(Class::And(one)),
        "Every man is an owl. is read as other axioms",
    )
}

#[test]
fn inverted_adjectives_and_of_constructs_have_no_pattern(rt: HostRuntime) -> Result<(), Fail> {
    let alloc = rt.alloc();
    for word in [NEAR, PART] {
        let class = some(alloc, inverse(word), Class::Thing)?;
        has_no_pattern(&rt, alloc, &Axiom::Member(class, MARY))?;
    }
    Ok(())
}

#[test]
fn other_places_of_roles_and_words_have_no_pattern(rt: HostRuntime) -> Result<(), Fail> {
    let alloc = rt.alloc();
    for axiom in &[
        Axiom::Related(inverse(SEE), MARY, BILL),
        Axiom::SubRole(inverse(SEE), straight(NEAR)),
        Axiom::Related(straight(MAN), MARY, BILL),
        Axiom::Transitive(MAN),
        Axiom::Member(Class::Named(MARY), BILL),
        Axiom::Member(Class::Named(MAN), DOG),
        Axiom::Equal(MARY, WordId(99)),
    ] {
        has_no_pattern(&rt, alloc, axiom)?;
    }
    Ok(())
}

// An inclusion of a noun in so many classes that lead to a name, and so many nouns.
fn long(alloc: Global, values: usize, nouns: usize) -> Result<Axiom, Fail> {
    let members = many(alloc, (straight(SEE), MARY, values), (DOG, nouns))?;
    Ok(Axiom::SubClass(Class::Named(MAN), Class::And(members)))
}

#[test]
fn forty_tokens_are_the_most(rt: HostRuntime) -> Result<(), Fail> {
    let alloc = rt.alloc();
    is_told(
        &rt,
        alloc,
        &long(alloc, 10, 2)?,
        "Every man sees Mary and sees Mary and sees Mary and sees Mary and sees Mary and sees Mary and sees Mary \
         and sees Mary and sees Mary and sees Mary and is a dog and is a dog.",
    )
}

#[test]
fn longer_ones_are_told_by_their_length(rt: HostRuntime) -> Result<(), Fail> {
    let alloc = rt.alloc();
    is_told(&rt, alloc, &long(alloc, 13, 0)?, "41 tokens")?;
    is_told(&rt, alloc, &long(alloc, 0, 1000)?, "4002 tokens")
}
