// What a branch of `consequences` shows, and what it doesn't.
use consequences::Consequences;
use logic_terms::{Class, Classes, Knowledge, Role};
use std::alloc::Global;
use std::test::Fail;
use wiki_base::WordId;

const ANNA: WordId = WordId(1);

const BERN: WordId = WordId(2);

const CITY: WordId = WordId(11);

const PLACE: WordId = WordId(12);

const TOWN: WordId = WordId(13);

const BUDGET: u64 = 1_000_000;

fn role(word: u32, inverted: bool) -> Role {
    Role {
        id: WordId(word),
        inverted,
    }
}

fn some(alloc: Global, role: Role, word: WordId) -> Result<Class, Fail> {
    Ok(Class::Some(role, Box::new(alloc, Class::Named(word))?))
}

fn either(alloc: Global, one: WordId, other: WordId) -> Result<Class, Fail> {
    let members = vec![in alloc; Class::Named(one), Class::Named(other)]?;
    Ok(Class::Or(Classes::from_vec(members)))
}

// Anna owns (31) Bern, and who owns something has it (32). She is a place or a town, and owns cities alone. Each city is a
// place, and is in (33) a town.
fn known(alloc: Global) -> Result<Knowledge, Fail> {
    let only = Class::All(role(31, false), Box::new(alloc, Class::Named(CITY))?);
    let assertions = vec![in alloc; (ANNA, either(alloc, PLACE, TOWN)?), (ANNA, only)]?;
    let unfoldings = vec![in alloc;
        (CITY, Class::Named(PLACE)),
        (CITY, some(alloc, role(33, false), TOWN)?),
    ]?;
    Ok(Knowledge::new(
        vec![in alloc; (ANNA, ANNA), (BERN, BERN)]?,
        vec![in alloc;
            (role(31, false), role(32, false)),
            (role(31, true), role(32, true)),
        ]?,
        Vec::new(alloc),
        assertions,
        vec![in alloc; (role(31, false), ANNA, BERN)]?,
        Vec::new(alloc),
        unfoldings,
        Classes::new(alloc),
    ))
}

#[test]
fn labels_and_edges_show_classes(rt: HostRuntime) -> Result<(), Fail> {
    let alloc = rt.alloc();
    let made = Consequences::new(alloc, known(alloc)?, BUDGET)?;
    assert!(rt; made.knowledge().names().len() == 2);
    let both = vec![in alloc; Class::Named(CITY), Class::Named(PLACE)]?;
    let shown = vec![in alloc;
        (Class::Named(PLACE), BERN),
        (Class::Value(role(32, true), ANNA), BERN),
        (some(alloc, role(32, false), CITY)?, ANNA),
        (some(alloc, role(33, false), TOWN)?, BERN),
        (Class::And(Classes::from_vec(both)), BERN),
        (either(alloc, TOWN, PLACE)?, BERN),
    ]?;
    for (class, name) in shown.as_slice() {
        assert!(rt; made.include(class, *name));
    }
    Ok(())
}

#[test]
fn what_a_choice_adds_is_not_shown(rt: HostRuntime) -> Result<(), Fail> {
    let alloc = rt.alloc();
    let made = Consequences::new(alloc, known(alloc)?, BUDGET)?;
    let open = vec![in alloc;
        (Class::Named(PLACE), ANNA),
        (Class::Named(TOWN), ANNA),
        (Class::Named(TOWN), BERN),
        (Class::Value(role(31, false), ANNA), BERN),
    ]?;
    for (class, name) in open.as_slice() {
        assert!(rt; !made.include(class, *name));
    }
    Ok(())
}

#[test]
fn a_small_budget_shows_nothing(rt: HostRuntime) -> Result<(), Fail> {
    let alloc = rt.alloc();
    let made = Consequences::new(alloc, known(alloc)?, 99_999)?;
    for class in [Class::Named(PLACE), Class::Thing] {
        assert!(rt; !made.include(&class, BERN));
    }
    Ok(())
}
