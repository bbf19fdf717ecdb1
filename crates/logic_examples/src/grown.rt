// What grows by `model_growth`, and what doesn't.
use logic_terms::{Axiom, Axioms, Class, Classes, Names, Role};
use model_growth::grow;
use owl_eval::Interp;
use std::alloc::Global;
use std::process::Abort;
use std::test::Fail;
use wiki_base::WordId;

const ANNA: WordId = WordId(1);

const BERN: WordId = WordId(2);

const CITY: WordId = WordId(11);

const PLACE: WordId = WordId(12);

const LIVES: Role = Role {
    id: WordId(21),
    inverted: false,
};

const LEADS: Role = Role {
    id: WordId(22),
    inverted: false,
};

const FOLLOWED_BY: Role = Role {
    id: WordId(23),
    inverted: true,
};

// Two names with elements 0 and 1, and nothing else.
fn two(alloc: Global) -> Result<Interp, Fail> {
    let names = vec![in alloc; (ANNA, 0), (BERN, 1)]?;
    Ok(Interp::new(alloc, 2, names, Vec::new(alloc), Vec::new(alloc))?)
}

fn both(alloc: Global) -> Result<Names, Fail> {
    Ok(Names::from_vec(vec![in alloc; ANNA, BERN]?))
}

// Anna lives in Bern; she lives in cities alone; each city is a place.
fn chain(alloc: Global) -> Result<Axioms, Fail> {
    let mut axioms = Axioms::new(alloc);
    axioms.push(Axiom::SubClass(Class::Named(CITY), Class::Named(PLACE)))?;
    let only = Class::All(LIVES, Box::new(alloc, Class::Named(CITY))?);
    axioms.push(Axiom::Related(LIVES, ANNA, BERN))?;
    axioms.push(Axiom::Member(only, ANNA))?;
    Ok(axioms)
}

#[test]
fn what_follows_is_added_too(rt: HostRuntime) -> Result<(), Fail> {
    let alloc = rt.alloc();
    let (interp, axioms, names) = (two(alloc)?, chain(alloc)?, both(alloc)?);
    match grow(alloc, &interp, &axioms, &names)? {
        Some(grown) => {
            assert!(rt; grown.size() == 2);
            assert!(rt; grown.element(BERN) == 1);
            for (from, to, want) in [(0, 1, true), (1, 0, false)] {
                assert_eq!(rt; grown.relates(LIVES, from, to), want, "{from} {to}");
            }
            for (word, element, want) in [(CITY, 1, true), (PLACE, 1, true), (PLACE, 0, false)] {
                assert_eq!(rt; grown.has_element(word, element), want, "{element}");
            }
        }
        None => assert!(rt; false),
    }
    Ok(())
}

#[test]
fn a_choice_is_left_to_a_search(rt: HostRuntime) -> Result<(), Fail> {
    let alloc = rt.alloc();
    let (interp, names) = (two(alloc)?, both(alloc)?);
    let members = vec![in alloc; Class::Named(CITY), Class::Named(PLACE)]?;
    let mut axioms = Axioms::new(alloc);
    axioms.push(Axiom::Member(Class::Or(Classes::from_vec(members)), BERN))?;
    assert!(rt; grow(alloc, &interp, &axioms, &names)?.is_none());
    Ok(())
}

#[test]
fn a_name_without_an_element_is_left_to_a_search(rt: HostRuntime) -> Result<(), Fail> {
    let alloc = rt.alloc();
    let interp = Interp::new(
        alloc,
        2,
        vec![in alloc; (ANNA, 0)]?,
        Vec::new(alloc),
        Vec::new(alloc),
    )?;
    assert!(rt; grow(alloc, &interp, &chain(alloc)?, &both(alloc)?)?.is_none());
    Ok(())
}

// Four names with elements 0 to 3, and pairs of a word.
fn four(rt: &impl Abort, alloc: Global, pairs: Vec<(u64, u64)>) -> Result<(Interp, Names), Fail> {
    let words = vec![in alloc; WordId(1), WordId(2), WordId(3), WordId(4)]?;
    let names = vec![in alloc;
        (WordId(1), 0),
        (WordId(2), 1),
        (WordId(3), 2),
        (WordId(4), 3),
    ]?;
    let relations = vec![in alloc; (LEADS.id, pairs)]?;
    assert!(rt; Interp::fits(4, names.as_slice(), &[], relations.as_slice()));
    let interp = Interp::new(alloc, 4, names, Vec::new(alloc), relations)?;
    Ok((interp, Names::from_vec(words)))
}

// What grows relates each element to those behind it by a role, and to no other.
fn expect_rising(
    rt: &impl Abort,
    alloc: Global,
    interp: &Interp,
    axioms: &Axioms,
    names: &Names,
    role: Role,
) -> Result<(), Fail> {
    match grow(alloc, interp, axioms, names)? {
        Some(grown) => {
            for from in 0..4 {
                for to in 0..4 {
                    assert_eq!(rt; grown.relates(role, from, to), from < to, "{from} {to}");
                }
            }
        }
        None => assert!(rt; false),
    }
    Ok(())
}

#[test]
fn a_pair_of_a_transitive_word_brings_others(rt: HostRuntime) -> Result<(), Fail> {
    let alloc = rt.alloc();
    let (interp, names) = four(&rt, alloc, vec![in alloc; (0, 1), (0, 2), (1, 2)]?)?;
    let mut axioms = Axioms::new(alloc);
    axioms.push(Axiom::Transitive(LEADS.id))?;
    axioms.push(Axiom::Related(LEADS, WordId(3), WordId(4)))?;
    expect_rising(&rt, alloc, &interp, &axioms, &names, LEADS)
}

#[test]
fn a_role_above_a_transitive_word_gets_its_pairs(rt: HostRuntime) -> Result<(), Fail> {
    let alloc = rt.alloc();
    let (interp, names) = four(&rt, alloc, vec![in alloc; (0, 1), (2, 3)]?)?;
    let mut axioms = Axioms::new(alloc);
    axioms.push(Axiom::Related(LEADS, WordId(2), WordId(3)))?;
    axioms.push(Axiom::SubRole(LEADS, FOLLOWED_BY))?;
    axioms.push(Axiom::Transitive(LEADS.id))?;
    expect_rising(&rt, alloc, &interp, &axioms, &names, FOLLOWED_BY)
}

#[test]
fn a_word_that_becomes_transitive_gets_what_its_pairs_lead_to(rt: HostRuntime) -> Result<(), Fail> {
    let alloc = rt.alloc();
    let (interp, names) = four(&rt, alloc, vec![in alloc; (2, 3), (1, 2), (0, 1)]?)?;
    let mut axioms = Axioms::new(alloc);
    axioms.push(Axiom::Transitive(LEADS.id))?;
    expect_rising(&rt, alloc, &interp, &axioms, &names, LEADS)
}
