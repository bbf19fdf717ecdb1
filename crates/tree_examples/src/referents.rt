// What closing a scope leaves, and what a reference finds.
use codeco_terms::{Ground, Vals, Value};
use scopes::{Access, Test, TestList, TestValues, Tests, agrees};
use std::alloc::Global;
use std::test::Fail;
use wiki_base::Memory;

const NOUN: u16 = 6;

const NAME: u16 = 7;

// A referent of the category with this value at feature 3.
fn referent(name: u16, value: u16) -> Ground {
    let mut vals = Vals::new();
    vals.push(3, Value::Atom(value));
    Ground { name, vals }
}

fn test(alloc: Global, name: u16, values: &[(u16, Value)]) -> Result<Test, Memory> {
    Ok(Test {
        name,
        values: TestValues::from_vec(values.to_vec(alloc)?),
    })
}

fn tests(alloc: Global, positive: &[(u16, u16)], negative: &[(u16, u16)]) -> Result<Tests, Memory> {
    Ok(Tests {
        positive: list(alloc, positive)?,
        negative: list(alloc, negative)?,
    })
}

fn list(alloc: Global, items: &[(u16, u16)]) -> Result<TestList, Memory> {
    let mut tests = TestList::new(alloc);
    for (name, value) in items {
        tests.push(test(alloc, *name, &[(3, Value::Atom(*value))])?)?;
    }
    Ok(tests)
}

// Where the reference finds something, its position and pattern.
fn found(access: &Access, tests: &Tests) -> Option<(u16, u8)> {
    if tests.positive.len() > 16 {
        return None;
    }
    access
        .closest(tests)
        .map(|found| (found.pos, found.pattern))
}

// The positions of the referents of a category that are found one after another, by their values.
fn all(alloc: Global, access: &Access, name: u16) -> Result<[bool; 4], Memory> {
    let mut seen = [false; 4];
    for (value, place) in (0..4).zip(seen.iter_mut()) {
        *place = !access.none(&tests(alloc, &[(name, value)], &[])?);
    }
    Ok(seen)
}

#[test]
fn closing_keeps_what_came_before_the_opener_and_the_strong(rt: HostRuntime) -> Result<(), Fail> {
    let alloc = rt.alloc();
    let before = Access::empty(alloc);
    let list = before.refer(referent(NOUN, 1), 1, false)?.push_opener()?;
    let list = list
        .refer(referent(NOUN, 2), 2, false)?
        .refer(referent(NOUN, 3), 3, true)?;
    assert_eq!(rt;
        all(alloc, &list.close(&before)?, NOUN)?,
        [false, true, false, true]
    );
    Ok(())
}

#[test]
fn a_phrase_without_an_opener_keeps_all(rt: HostRuntime) -> Result<(), Fail> {
    let alloc = rt.alloc();
    let before = Access::empty(alloc)
        .refer(referent(NOUN, 0), 1, false)?
        .push_opener()?;
    let list = before
        .refer(referent(NOUN, 1), 2, false)?
        .refer(referent(NOUN, 2), 3, true)?;
    assert_eq!(rt;
        all(alloc, &list.close(&before)?, NOUN)?,
        [true, true, true, false]
    );
    Ok(())
}

#[test]
fn an_inner_scope_closes_by_itself(rt: HostRuntime) -> Result<(), Fail> {
    let alloc = rt.alloc();
    let before = Access::empty(alloc)
        .push_opener()?
        .refer(referent(NOUN, 0), 1, false)?;
    let list = before.push_opener()?.refer(referent(NOUN, 1), 2, false)?;
    let list = list.push_opener()?.refer(referent(NOUN, 2), 3, true)?;
    assert_eq!(rt;
        all(alloc, &list.close(&before)?, NOUN)?,
        [true, false, true, false]
    );
    assert_eq!(rt;
        all(alloc, &list.share()?, NOUN)?,
        [true, true, true, false]
    );
    Ok(())
}

#[test]
fn the_last_that_agrees_is_found_with_its_first_pattern(rt: HostRuntime) -> Result<(), Fail> {
    let alloc = rt.alloc();
    let list = Access::empty(alloc).refer(referent(NOUN, 1), 1, false)?;
    let list = list
        .refer(referent(NAME, 1), 4, true)?
        .refer(referent(NOUN, 2), 6, false)?;
    let both = [(NOUN, 1), (NAME, 1)];
    assert_eq!(rt; found(&list, &tests(alloc, &both, &[])?), Some((4, 1)));
    assert_eq!(rt;
        found(&list, &tests(alloc, &both, &[(NAME, 1)])?),
        Some((1, 0))
    );
    assert_eq!(rt; found(&list, &tests(alloc, &[(NAME, 2)], &[])?), None);
    Ok(())
}

#[test]
fn a_referent_that_lacks_a_tested_feature_does_not_agree(rt: HostRuntime) -> Result<(), Fail> {
    let alloc = rt.alloc();
    assert!(rt; agrees(&referent(NOUN, 1), &test(alloc, NOUN, &[])?));
    assert!(rt;
        !agrees(
            &referent(NOUN, 1),
            &test(alloc, NOUN, &[(4, Value::Atom(1))])?
        )
    );
    assert!(rt; !agrees(&referent(NOUN, 1), &test(alloc, NAME, &[])?));
    Ok(())
}
