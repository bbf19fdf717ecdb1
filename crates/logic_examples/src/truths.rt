// Truths by `owl_eval`, as they were worked out by hand from the standards' definitions.
use logic_terms::{Axiom, Axioms, Class, Classes, Cond, Conds, Drs, Referents, Role, Thing};
use owl_eval::{CheckedModel, Interp, axiom_true, drs_true, in_class, is_model};
use std::alloc::Global;
use std::process::Abort;
use std::test::Fail;
use wiki_base::WordId;

const DOG: WordId = WordId(1);

const PERSON: WordId = WordId(2);

const CITY: WordId = WordId(3);

const OWN: WordId = WordId(4);

const IN: WordId = WordId(5);

const MARY: WordId = WordId(6);

const BERN: WordId = WordId(7);

const REX: WordId = WordId(8);

const UNKNOWN: WordId = WordId(9);

fn role(id: WordId) -> Role {
    Role {
        id,
        inverted: false,
    }
}

fn inverse(id: WordId) -> Role {
    Role { id, inverted: true }
}

fn interp_of(
    rt: &impl Abort,
    alloc: Global,
    size: u64,
    names: Vec<(WordId, u64)>,
    classes: Vec<(WordId, Vec<u64>)>,
    relations: Vec<(WordId, Vec<(u64, u64)>)>,
) -> Result<Interp, Fail> {
    assert!(rt; Interp::fits(size, &names, &classes, &relations));
    Ok(Interp::new(alloc, size, names, classes, relations)?)
}

fn listed<T: Copy>(alloc: Global, items: &[T]) -> Result<Vec<T>, Fail> {
    Ok(Vec::from_slice(alloc, items)?)
}

// Mary, a person, is in Bern, a city, and owns Rex, a dog, who is in Bern too.
fn three_elements(rt: &impl Abort, alloc: Global) -> Result<Interp, Fail> {
    let names = listed(alloc, &[(MARY, 0), (BERN, 1), (REX, 2)])?;
    let dogs = listed(alloc, &[2])?;
    let persons = listed(alloc, &[0])?;
    let cities = listed(alloc, &[1])?;
    let classes = vec![in alloc; (DOG, dogs), (PERSON, persons), (CITY, cities)]?;
    let owned = listed(alloc, &[(0, 2)])?;
    let inside = listed(alloc, &[(2, 1), (0, 1)])?;
    let relations = vec![in alloc; (OWN, owned), (IN, inside)]?;
    interp_of(rt, alloc, 3, names, classes, relations)
}

// The same three with nothing but that Rex is a dog, and that both he and Mary are persons.
fn two_persons(rt: &impl Abort, alloc: Global) -> Result<Interp, Fail> {
    let names = listed(alloc, &[(MARY, 0), (BERN, 1), (REX, 2)])?;
    let dogs = listed(alloc, &[2])?;
    let persons = listed(alloc, &[0, 2])?;
    let classes = vec![in alloc; (DOG, dogs), (PERSON, persons)]?;
    interp_of(rt, alloc, 3, names, classes, Vec::new(alloc))
}

// Mary and Rex are one element; the two elements own each other, and the other one is a dog.
fn two_elements(rt: &impl Abort, alloc: Global) -> Result<Interp, Fail> {
    let names = listed(alloc, &[(MARY, 1), (REX, 1)])?;
    let dogs = listed(alloc, &[0])?;
    let classes = vec![in alloc; (DOG, dogs)]?;
    let owned = listed(alloc, &[(1, 0), (0, 1)])?;
    let relations = vec![in alloc; (OWN, owned)]?;
    interp_of(rt, alloc, 2, names, classes, relations)
}

// One element, with no class and no pair.
fn one_element(rt: &impl Abort, alloc: Global) -> Result<Interp, Fail> {
    interp_of(
        rt,
        alloc,
        1,
        Vec::new(alloc),
        Vec::new(alloc),
        Vec::new(alloc),
    )
}

// One element, a dog that owns itself.
fn self_owner(rt: &impl Abort, alloc: Global) -> Result<Interp, Fail> {
    let dogs = listed(alloc, &[0])?;
    let owned = listed(alloc, &[(0, 0)])?;
    let classes = vec![in alloc; (DOG, dogs)]?;
    let relations = vec![in alloc; (OWN, owned)]?;
    interp_of(rt, alloc, 1, Vec::new(alloc), classes, relations)
}

fn boxed(alloc: Global, class: Class) -> Result<Box<Class>, Fail> {
    Ok(Box::new(alloc, class)?)
}

fn some(alloc: Global, role: Role, class: Class) -> Result<Class, Fail> {
    Ok(Class::Some(role, boxed(alloc, class)?))
}

fn all(alloc: Global, role: Role, class: Class) -> Result<Class, Fail> {
    Ok(Class::All(role, boxed(alloc, class)?))
}

fn not(alloc: Global, class: Class) -> Result<Class, Fail> {
    Ok(Class::Not(boxed(alloc, class)?))
}

fn both(alloc: Global, one: Class, other: Class) -> Result<Classes, Fail> {
    let mut classes = Classes::new(alloc);
    classes.push(one)?;
    classes.push(other)?;
    Ok(classes)
}

// Which of the three elements are in a class.
fn members(interp: &Interp, class: &Class) -> [bool; 3] {
    [
        in_class(interp, class, 0),
        in_class(interp, class, 1),
        in_class(interp, class, 2),
    ]
}

#[test]
fn classes_without_roles_have_these_members(rt: HostRuntime) -> Result<(), Fail> {
    let alloc = rt.alloc();
    let world = three_elements(&rt, alloc)?;
    let either = both(alloc, Class::Named(DOG), Class::Named(CITY))?;
    let dogs = both(alloc, Class::Named(DOG), not(alloc, Class::Named(CITY))?)?;
    let classes = vec![in alloc;
        (Class::Thing, [true, true, true]),
        (Class::Named(DOG), [false, false, true]),
        (Class::Named(UNKNOWN), [false, false, false]),
        (not(alloc, Class::Named(DOG))?, [true, true, false]),
        (Class::And(Classes::new(alloc)), [true, true, true]),
        (Class::Or(Classes::new(alloc)), [false, false, false]),
        (Class::Or(either), [false, true, true]),
        (Class::And(dogs), [false, false, true]),
    ]?;
    for (class, want) in classes.as_slice() {
        assert_eq!(rt; members(&world, class), *want);
    }
    Ok(())
}

#[test]
fn classes_with_roles_have_these_members(rt: HostRuntime) -> Result<(), Fail> {
    let alloc = rt.alloc();
    let world = three_elements(&rt, alloc)?;
    let classes = vec![in alloc;
        (
            some(alloc, role(OWN), Class::Named(DOG))?,
            [true, false, false]
        ),
        (
            some(alloc, role(OWN), Class::Named(CITY))?,
            [false, false, false]
        ),
        (
            some(alloc, inverse(OWN), Class::Named(PERSON))?,
            [false, false, true]
        ),
        (
            all(alloc, role(OWN), Class::Named(DOG))?,
            [true, true, true]
        ),
        (
            all(alloc, role(OWN), Class::Named(CITY))?,
            [false, true, true]
        ),
        (
            all(alloc, inverse(IN), Class::Named(PERSON))?,
            [true, false, true]
        ),
    ]?;
    for (class, want) in classes.as_slice() {
        assert_eq!(rt; members(&world, class), *want);
    }
    Ok(())
}

#[test]
fn values_and_unknown_words_have_these_members(rt: HostRuntime) -> Result<(), Fail> {
    let alloc = rt.alloc();
    let world = three_elements(&rt, alloc)?;
    let nothing = not(alloc, Class::Thing)?;
    let classes = vec![in alloc;
        (Class::Value(role(OWN), REX), [true, false, false]),
        (Class::Value(inverse(OWN), MARY), [false, false, true]),
        (Class::Value(inverse(OWN), UNKNOWN), [false, false, true]),
        (
            some(alloc, role(UNKNOWN), Class::Thing)?,
            [false, false, false]
        ),
        (all(alloc, role(UNKNOWN), nothing)?, [true, true, true]),
    ]?;
    for (class, want) in classes.as_slice() {
        assert_eq!(rt; members(&world, class), *want);
    }
    Ok(())
}

fn holds(interp: &Interp, stated: &Axiom) -> bool {
    axiom_true(interp, stated)
}

#[test]
fn axioms_on_classes_and_roles_are_true_or_not(rt: HostRuntime) -> Result<(), Fail> {
    let alloc = rt.alloc();
    let world = three_elements(&rt, alloc)?;
    let in_a_city = some(alloc, role(IN), Class::Named(CITY))?;
    let axioms = vec![in alloc;
        (Axiom::SubClass(Class::Named(DOG), in_a_city), true),
        (
            Axiom::SubClass(Class::Named(PERSON), Class::Named(DOG)),
            false
        ),
        (Axiom::SubRole(role(OWN), role(IN)), false),
        (Axiom::SubRole(inverse(OWN), inverse(OWN)), true),
        (Axiom::SubRole(role(UNKNOWN), role(IN)), true),
        (Axiom::SubRole(role(OWN), inverse(OWN)), false),
        (Axiom::Member(Class::Named(PERSON), MARY), true),
        (Axiom::Member(Class::Named(DOG), MARY), false),
    ]?;
    for (axiom, want) in axioms.as_slice() {
        assert_eq!(rt; holds(&world, axiom), *want);
    }
    let pair = two_elements(&rt, alloc)?;
    assert!(rt; holds(&pair, &Axiom::SubRole(role(OWN), inverse(OWN))));
    Ok(())
}

#[test]
fn axioms_on_names_are_true_or_not(rt: HostRuntime) -> Result<(), Fail> {
    let alloc = rt.alloc();
    let world = three_elements(&rt, alloc)?;
    let axioms = vec![in alloc;
        (Axiom::Related(role(OWN), MARY, REX), true),
        (Axiom::Related(role(OWN), REX, MARY), false),
        (Axiom::Related(inverse(OWN), REX, MARY), true),
        (Axiom::NotRelated(role(OWN), REX, MARY), true),
        (Axiom::NotRelated(role(OWN), MARY, REX), false),
        (Axiom::Equal(MARY, REX), false),
        (Axiom::Equal(MARY, UNKNOWN), true),
        (Axiom::Differ(MARY, REX), true),
    ]?;
    for (axiom, want) in axioms.as_slice() {
        assert_eq!(rt; holds(&world, axiom), *want);
    }
    let pair = two_elements(&rt, alloc)?;
    assert!(rt; holds(&pair, &Axiom::Equal(MARY, REX)));
    assert!(rt; !holds(&pair, &Axiom::Differ(MARY, REX)));
    Ok(())
}

fn is_true(alloc: Global, interp: &Interp, drs: &Drs) -> Result<bool, Fail> {
    Ok(drs_true(alloc, interp, drs)?)
}

fn conditions(alloc: Global, one: Cond) -> Result<Conds, Fail> {
    let mut made = Conds::new(alloc);
    made.push(one)?;
    Ok(made)
}

fn with(mut made: Conds, one: Cond) -> Result<Conds, Fail> {
    made.push(one)?;
    Ok(made)
}

fn plain(alloc: Global, one: Cond) -> Result<Drs, Fail> {
    Ok(Drs::new(Referents::new(alloc), conditions(alloc, one)?))
}

fn introducing(alloc: Global, referent: u16, made: Conds) -> Result<Drs, Fail> {
    let mut referents = Referents::new(alloc);
    referents.push(referent)?;
    Ok(Drs::new(referents, made))
}

#[test]
fn mary_owns_a_dog_where_one_element_is_its_own_dog(rt: HostRuntime) -> Result<(), Fail> {
    let alloc = rt.alloc();
    let dog = conditions(alloc, Cond::Class(DOG, Thing::Ref(4)))?;
    let owned = with(dog, Cond::Rel(OWN, Thing::Name(MARY), Thing::Ref(4)))?;
    let drs = introducing(alloc, 4, owned)?;
    assert!(rt; !is_true(alloc, &one_element(&rt, alloc)?, &drs)?);
    assert!(rt; is_true(alloc, &self_owner(&rt, alloc)?, &drs)?);
    Ok(())
}

#[test]
fn a_referent_of_the_left_side_is_used_on_the_right(rt: HostRuntime) -> Result<(), Fail> {
    let alloc = rt.alloc();
    let world = three_elements(&rt, alloc)?;
    let dog = introducing(
        alloc,
        1,
        conditions(alloc, Cond::Class(DOG, Thing::Ref(1)))?,
    )?;
    let in_bern = plain(alloc, Cond::Rel(IN, Thing::Ref(1), Thing::Name(BERN)))?;
    let each_dog = plain(alloc, Cond::Implies(dog, in_bern))?;
    assert!(rt; is_true(alloc, &world, &each_dog)?);
    let thing = introducing(alloc, 1, Conds::new(alloc))?;
    let in_bern = plain(alloc, Cond::Rel(IN, Thing::Ref(1), Thing::Name(BERN)))?;
    let each_thing = plain(alloc, Cond::Implies(thing, in_bern))?;
    assert!(rt; !is_true(alloc, &world, &each_thing)?);
    Ok(())
}

#[test]
fn not_implies_and_or_stand_in_one_another(rt: HostRuntime) -> Result<(), Fail> {
    let alloc = rt.alloc();
    let world = three_elements(&rt, alloc)?;
    let pair = introducing(
        alloc,
        2,
        conditions(alloc, Cond::Rel(OWN, Thing::Ref(1), Thing::Ref(2)))?,
    )?;
    let city = plain(alloc, Cond::Class(CITY, Thing::Ref(2)))?;
    let person = conditions(alloc, Cond::Class(PERSON, Thing::Ref(1)))?;
    let owner_of_cities = introducing(alloc, 1, with(person, Cond::Implies(pair, city))?)?;
    let mary = plain(alloc, Cond::Same(Thing::Name(MARY), Thing::Name(REX)))?;
    let neither = conditions(
        alloc,
        Cond::Or(mary, plain(alloc, Cond::Not(owner_of_cities))?),
    )?;
    let drs = Drs::new(Referents::new(alloc), neither);
    assert!(rt; is_true(alloc, &world, &drs)?);
    let rex = conditions(alloc, Cond::Same(Thing::Ref(1), Thing::Name(REX)))?;
    let same = introducing(alloc, 1, rex)?;
    assert!(rt; is_true(alloc, &world, &same)?);
    let denied = plain(alloc, Cond::Not(same))?;
    assert!(rt; !is_true(alloc, &world, &denied)?);
    Ok(())
}

#[test]
fn a_checked_model_is_made_of_a_model_alone(rt: HostRuntime) -> Result<(), Fail> {
    let alloc = rt.alloc();
    let mut axioms = Axioms::new(alloc);
    axioms.push(Axiom::Member(Class::Named(PERSON), MARY))?;
    axioms.push(Axiom::Related(role(OWN), MARY, REX))?;
    let world = three_elements(&rt, alloc)?;
    assert!(rt; is_model(&world, &axioms));
    let Ok(checked) = CheckedModel::new(world.copy()?, axioms.copy()?) else {
        return Err(Fail::from("no model"));
    };
    assert_eq!(rt; checked.interp().size(), 3);
    assert_eq!(rt; checked.axioms().len(), 2);
    let copied = checked.copy()?;
    assert_eq!(rt; copied.interp().size(), 3);
    assert!(rt; is_model(copied.interp(), checked.axioms()));
    assert_eq!(rt; copied.axioms().len(), 2);
    axioms.push(Axiom::Equal(MARY, REX))?;
    assert!(rt; !is_model(&world, &axioms));
    let Err((interp, axioms)) = CheckedModel::new(world, axioms) else {
        return Err(Fail::from("a model"));
    };
    assert_eq!(rt; interp.size(), 3);
    assert_eq!(rt; axioms.len(), 3);
    Ok(())
}

#[test]
fn a_checked_model_grows_by_what_is_new(rt: HostRuntime) -> Result<(), Fail> {
    let alloc = rt.alloc();
    let mut axioms = Axioms::new(alloc);
    axioms.push(Axiom::Member(Class::Named(PERSON), MARY))?;
    axioms.push(Axiom::Member(Class::Named(DOG), REX))?;
    let Ok(kept) = CheckedModel::new(three_elements(&rt, alloc)?, axioms.copy()?) else {
        return Err(Fail::from("no model"));
    };
    assert!(rt; kept.is_model_of(&axioms));
    axioms.push(Axiom::Member(Class::Named(PERSON), REX))?;
    assert!(rt; !kept.is_model_of(&axioms));
    let Err((interp, axioms)) = kept.grown(three_elements(&rt, alloc)?, axioms) else {
        return Err(Fail::from("a model"));
    };
    assert_eq!(rt; interp.size(), 3);
    let Ok(grown) = kept.grown(two_persons(&rt, alloc)?, axioms) else {
        return Err(Fail::from("no model"));
    };
    assert_eq!(rt; grown.axioms().len(), 3);
    Ok(())
}

#[test]
fn an_interpretation_lends_its_lists_in_order(rt: HostRuntime) -> Result<(), Fail> {
    let alloc = rt.alloc();
    let world = three_elements(&rt, alloc)?.copy()?;
    assert_eq!(rt; world.names(), [(MARY, 0), (BERN, 1), (REX, 2)].as_slice());
    assert_eq!(rt; world.class_count(), 3);
    assert_eq!(rt; world.relation_count(), 2);
    let (word, elements) = world.class_at(0);
    assert_eq!(rt; word, DOG);
    assert_eq!(rt; elements, [2].as_slice());
    let (word, pairs) = world.relation_at(1);
    assert_eq!(rt; word, IN);
    assert_eq!(rt; pairs, [(0, 1), (2, 1)].as_slice());
    Ok(())
}
