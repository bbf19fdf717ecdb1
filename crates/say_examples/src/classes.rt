// Classes and roles that are put together by hand.
use logic_terms::{Class, Classes, Role};
use std::alloc::Global;
use std::test::Fail;
use wiki_base::WordId;

/// A relation word, read straight.
pub fn straight(word: WordId) -> Role {
    Role {
        id: word,
        inverted: false,
    }
}

/// A relation word, read the other way.
pub fn inverse(word: WordId) -> Role {
    Role {
        id: word,
        inverted: true,
    }
}

/// The complement of a class.
pub fn not(alloc: Global, class: Class) -> Result<Class, Fail> {
    Ok(Class::Not(Box::new(alloc, class)?))
}

/// What a role leads from to some element of a class.
pub fn some(alloc: Global, role: Role, class: Class) -> Result<Class, Fail> {
    Ok(Class::Some(role, Box::new(alloc, class)?))
}

/// What a role leads from to elements of a class alone.
pub fn all(alloc: Global, role: Role, class: Class) -> Result<Class, Fail> {
    Ok(Class::All(role, Box::new(alloc, class)?))
}

/// The list of two classes.
pub fn two(alloc: Global, one: Class, other: Class) -> Result<Classes, Fail> {
    let mut members = Classes::new(alloc);
    members.push(one)?;
    members.push(other)?;
    Ok(members)
}

/// The list of some nouns.
pub fn nouns(alloc: Global, words: &[WordId]) -> Result<Classes, Fail> {
    let mut members = Classes::new(alloc);
    for word in words {
        members.push(Class::Named(*word))?;
    }
    Ok(members)
}

/// The list of so many classes: what leads to a name, and of them so many nouns.
pub fn many(
    alloc: Global,
    values: (Role, WordId, usize),
    nouns: (WordId, usize),
) -> Result<Classes, Fail> {
    let mut members = Classes::new(alloc);
    for _ in 0..values.2 {
        members.push(Class::Value(values.0, values.1))?;
    }
    for _ in 0..nouns.1 {
        members.push(Class::Named(nouns.0))?;
    }
    Ok(members)
}
