// Each list and each kind of term of `logic_terms`, made, lent and copied.
use logic_terms::{
    Axiom, Axioms, Class, Classes, Cond, Conds, Drs, Knowledge, Referents, Role, Thing, negated,
};
use std::alloc::Global;
use std::test::Fail;
use wiki_base::WordId;

const OWN: Role = Role {
    id: WordId(2),
    inverted: true,
};

fn boxed(alloc: Global, class: Class) -> Result<Box<Class>, Fail> {
    Ok(Box::new(alloc, class)?)
}

fn classes_of(alloc: Global, items: Vec<Class>) -> Result<Classes, Fail> {
    let mut made = Classes::new(alloc);
    for item in items {
        made.push(item)?;
    }
    Ok(made)
}

// A class of every kind, in one.
fn class_of_every_kind(alloc: Global) -> Result<Class, Fail> {
    let nothing = Class::Or(Classes::new(alloc));
    let members = vec![in alloc;
        Class::Thing,
        Class::Value(OWN, WordId(3)),
        Class::Not(boxed(alloc, Class::Named(WordId(1)))?),
        Class::Some(OWN, boxed(alloc, Class::Thing)?),
        Class::All(OWN, boxed(alloc, nothing)?),
    ]?;
    Ok(Class::And(classes_of(alloc, members)?))
}

// A letter for each kind of class in `class_of_every_kind`, with its role and its name.
fn kind(class: &Class) -> u8 {
    match class {
        Class::Thing => b't',
        Class::Value(OWN, WordId(3)) => b'v',
        Class::Not(_) => b'n',
        Class::Some(OWN, _) => b's',
        Class::All(OWN, _) => b'a',
        _ => b'?',
    }
}

#[test]
fn a_copied_class_has_the_same_members(rt: HostRuntime) -> Result<(), Fail> {
    let alloc = rt.alloc();
    let Class::And(members) = class_of_every_kind(alloc)?.copy(alloc)? else {
        return Err(Fail::from("another kind of class"));
    };
    let mut kinds = Vec::new(alloc);
    for place in 0..members.len() {
        kinds.push(kind(members.get(place)))?;
    }
    assert_eq!(rt; kinds.as_slice(), b"tvnsa".as_slice());
    Ok(())
}

#[test]
fn classes_go_into_a_vec_and_back(rt: HostRuntime) -> Result<(), Fail> {
    let alloc = rt.alloc();
    let none = Classes::new(alloc);
    assert!(rt; none.is_empty());
    let listed = Classes::from_vec(vec![in alloc; Class::Thing, Class::Named(WordId(4))]?);
    assert_eq!(rt; listed.as_slice().len(), 2);
    assert_eq!(rt; listed.copy()?.len(), 2);
    assert_eq!(rt; listed.into_vec().len(), 2);
    Ok(())
}

// A letter for each axiom below, with its words.
fn axiom_kind(axiom: &Axiom) -> u8 {
    match axiom {
        Axiom::Equal(WordId(1), WordId(2)) => b'e',
        Axiom::SubRole(OWN, OWN) => b'r',
        Axiom::Member(Class::And(_), WordId(3)) => b'm',
        _ => b'?',
    }
}

#[test]
fn axioms_are_listed_lent_and_copied(rt: HostRuntime) -> Result<(), Fail> {
    let alloc = rt.alloc();
    let mut listed = Axioms::new(alloc);
    assert!(rt; listed.is_empty());
    let stated = vec![in alloc;
        Axiom::Equal(WordId(1), WordId(2)),
        Axiom::SubRole(OWN, OWN),
        Axiom::Member(class_of_every_kind(alloc)?, WordId(3)),
    ]?;
    for axiom in stated {
        listed.push(axiom)?;
    }
    let copied = listed.copy()?;
    assert_eq!(rt; copied.as_slice().len(), 3);
    let mut kinds = Vec::new(alloc);
    for place in 0..copied.len() {
        kinds.push(axiom_kind(&copied.get(place).copy(alloc)?))?;
    }
    assert_eq!(rt; kinds.as_slice(), b"erm".as_slice());
    assert_eq!(rt; Axioms::from_vec(copied.into_vec()).len(), 3);
    Ok(())
}

#[test]
fn structures_lend_their_referents_and_conditions(rt: HostRuntime) -> Result<(), Fail> {
    let alloc = rt.alloc();
    let mut referents = Referents::new(alloc);
    assert!(rt; referents.is_empty());
    referents.push(4)?;
    assert_eq!(rt; referents.len(), 1);
    assert_eq!(rt; *referents.get(0), 4);
    let mut conditions = Conds::new(alloc);
    assert!(rt; conditions.is_empty());
    conditions.push(Cond::Same(Thing::Ref(4), Thing::Name(WordId(1))))?;
    let conditions = Conds::from_vec(conditions.into_vec());
    let drs = Drs::new(Referents::from_vec(referents.into_vec()), conditions);
    assert_eq!(rt; drs.referents().as_slice(), [4].as_slice());
    let held = drs.conditions();
    assert_eq!(rt; held.len(), 1);
    assert_eq!(rt; held.as_slice().len(), 1);
    assert!(rt; matches!(held.get(0), Cond::Same(Thing::Ref(4), _)));
    Ok(())
}

const STRAIGHT: Role = Role {
    id: WordId(2),
    inverted: false,
};

fn some_knowledge(alloc: Global) -> Result<Knowledge, Fail> {
    let general = vec![in alloc; Class::Named(WordId(9))]?;
    Ok(Knowledge::new(
        vec![in alloc; (WordId(5), WordId(5)), (WordId(6), WordId(5))]?,
        vec![in alloc; (OWN, STRAIGHT)]?,
        vec![in alloc; WordId(2), WordId(3)]?,
        vec![in alloc; (WordId(6), Class::Named(WordId(9)))]?,
        vec![in alloc; (OWN, WordId(5), WordId(6))]?,
        vec![in alloc; (WordId(5), WordId(6))]?,
        vec![in alloc; (WordId(9), Class::Thing)]?,
        classes_of(alloc, general)?,
    ))
}

// How long the lists of knowledge are, in the order of `Knowledge::new`.
fn lengths(k: &Knowledge) -> [usize; 8] {
    [
        k.names().len(),
        k.hierarchy().len(),
        k.transitive().len(),
        k.assertions().len(),
        k.edges().len(),
        k.differences().len(),
        k.unfoldings().len(),
        k.general().len(),
    ]
}

#[test]
fn knowledge_lends_its_lists_and_is_copied(rt: HostRuntime) -> Result<(), Fail> {
    let alloc = rt.alloc();
    let k = some_knowledge(alloc)?;
    assert_eq!(rt; lengths(&k.copy(alloc)?), [2, 1, 2, 1, 1, 1, 1, 1]);
    for (name, want) in [(6, Some(WordId(5))), (7, None)] {
        assert!(rt; k.representative(WordId(name)) == want, "{name}");
    }
    let pairs = [
        (OWN, STRAIGHT, true),
        (STRAIGHT, OWN, false),
        (STRAIGHT, OWN.inverse(), true),
    ];
    for (below, above, want) in pairs {
        assert_eq!(rt; k.is_below(below, above), want);
    }
    Ok(())
}

// Whether two classes are the same, and whether the first is the complement of the second.
fn compared(one: &Class, other: &Class) -> [bool; 2] {
    [one.is_same(other), one.is_complement_of(other)]
}

// Which parts a class has.
fn parts(class: &Class) -> [bool; 7] {
    [
        class.intersection().is_some(),
        class.union().is_some(),
        class.existential().is_some(),
        class.universal().is_some(),
        class.value().is_some(),
        class.word().is_some(),
        class.complemented().is_some(),
    ]
}

const INTERSECTION: [bool; 7] = [true, false, false, false, false, false, false];

const UNION: [bool; 7] = [false, true, false, false, false, false, false];

// Whether a list has a class, and whether it has its complement.
fn found(listed: &Classes, class: &Class) -> [bool; 2] {
    [listed.has(class), listed.has_complement_of(class)]
}

#[test]
fn classes_are_compared_part_by_part(rt: HostRuntime) -> Result<(), Fail> {
    let alloc = rt.alloc();
    let class = class_of_every_kind(alloc)?;
    let negative = negated(alloc, &class)?;
    assert_eq!(rt; compared(&class, &class.copy(alloc)?), [true, false]);
    assert_eq!(rt; compared(&class, &class), [true, false]);
    assert!(rt; !class.is_same(&negative));
    assert!(rt; negative.is_complement_of(&class));
    assert_eq!(rt; parts(&negative), UNION);
    assert_eq!(rt; parts(&class), INTERSECTION);
    let mut listed = Classes::new(alloc);
    listed.push(negative)?;
    assert_eq!(rt; found(&listed, &class), [false, true]);
    listed.append(Classes::from_vec(vec![in alloc; class]?))?;
    assert_eq!(rt; listed.len(), 2);
    assert_eq!(rt; parts(listed.get(1)), INTERSECTION);
    Ok(())
}
