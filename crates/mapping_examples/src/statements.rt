// Statements of each shape, with their axioms or the cause why there are none, and a question.
use crate::words::{BILL, CAT, DOG, Few, MAN, MARY, OWN, SEE};
use ace_to_owl::{Asked, Mapped, map_question, map_statement};
use logic_terms::{Cause, Cond, Conds, Drs, Referents, Thing};
use owl_text::{print_axiom, print_class};
use std::alloc::Global;
use std::test::Fail;
use wiki_base::{Text8, WordId};

fn drs(referents: Vec<u16>, conditions: Vec<Cond>) -> Drs {
    Drs::new(Referents::from_vec(referents), Conds::from_vec(conditions))
}

fn noun(word: WordId, referent: u16) -> Cond {
    Cond::Class(word, Thing::Ref(referent))
}

fn relation(word: WordId, from: u16, to: u16) -> Cond {
    Cond::Rel(word, Thing::Ref(from), Thing::Ref(to))
}

fn by_name(word: WordId, from: WordId, to: u16) -> Cond {
    Cond::Rel(word, Thing::Name(from), Thing::Ref(to))
}

fn cause_name(cause: Cause) -> &'static str {
    match cause {
        Cause::Shared => "shared",
        Cause::Cycle => "cycle",
        Cause::NoRoot => "noroot",
        Cause::Equality => "equality",
        Cause::Free => "free",
    }
}

// The axioms with a semicolon behind each, or the cause.
fn printed(alloc: Global, statement: &Drs) -> Result<Text8, Fail> {
    let mut text = Text8::new(alloc);
    match map_statement(alloc, statement)? {
        Mapped::Axioms(axioms) => {
            for axiom in axioms.as_slice() {
                text.push_str(print_axiom(alloc, axiom, &Few)?.as_str())?;
                text.push_str(";")?;
            }
        }
        Mapped::Outside(cause) => text.push_str(cause_name(cause))?,
    }
    Ok(text)
}

// `Every N ..`: an implication from one referent with a noun.
fn every(alloc: Global, word: WordId, referent: u16, right: Drs) -> Result<Drs, Fail> {
    let left = drs(
        vec![in alloc; referent]?,
        vec![in alloc; noun(word, referent)]?,
    );
    Ok(drs(Vec::new(alloc), vec![in alloc; Cond::Implies(left, right)]?))
}

#[test]
fn every_man_owns_only_dogs(rt: HostRuntime) -> Result<(), Fail> {
    let alloc = rt.alloc();
    let owned = drs(vec![in alloc; 2]?, vec![in alloc; relation(OWN, 1, 2)]?);
    let dogs = drs(Vec::new(alloc), vec![in alloc; noun(DOG, 2)]?);
    let only = drs(Vec::new(alloc), vec![in alloc; Cond::Implies(owned, dogs)]?);
    let statement = every(alloc, MAN, 1, only)?;
    assert_eq!(rt;
        printed(alloc, &statement)?.as_str(),
        "SubClassOf(:man ObjectAllValuesFrom(:own :dog));"
    );
    Ok(())
}

#[test]
fn mary_owns_no_dog(rt: HostRuntime) -> Result<(), Fail> {
    let alloc = rt.alloc();
    let owned = drs(Vec::new(alloc), vec![in alloc; by_name(OWN, MARY, 1)]?);
    let denied = drs(Vec::new(alloc), vec![in alloc; Cond::Not(owned)]?);
    let statement = every(alloc, DOG, 1, denied)?;
    assert_eq!(rt;
        printed(alloc, &statement)?.as_str(),
        "SubClassOf(:dog ObjectComplementOf(ObjectHasValue(ObjectInverseOf(:own) :Mary)));"
    );
    Ok(())
}

#[test]
fn mary_owns_a_dog(rt: HostRuntime) -> Result<(), Fail> {
    let alloc = rt.alloc();
    let statement = drs(
        vec![in alloc; 1]?,
        vec![in alloc; noun(DOG, 1), by_name(OWN, MARY, 1)]?,
    );
    assert_eq!(rt;
        printed(alloc, &statement)?.as_str(),
        "ClassAssertion(ObjectSomeValuesFrom(:own :dog) :Mary);"
    );
    Ok(())
}

#[test]
fn mary_owns_a_dog_or_sees_a_cat(rt: HostRuntime) -> Result<(), Fail> {
    let alloc = rt.alloc();
    let owns = drs(
        vec![in alloc; 1]?,
        vec![in alloc; noun(DOG, 1), by_name(OWN, MARY, 1)]?,
    );
    let sees = drs(
        vec![in alloc; 2]?,
        vec![in alloc; noun(CAT, 2), by_name(SEE, MARY, 2)]?,
    );
    let statement = drs(Vec::new(alloc), vec![in alloc; Cond::Or(owns, sees)]?);
    assert_eq!(rt;
        printed(alloc, &statement)?.as_str(),
        "ClassAssertion(ObjectUnionOf(ObjectSomeValuesFrom(:own :dog) ObjectSomeValuesFrom(:see :cat)) :Mary);"
    );
    Ok(())
}

#[test]
fn mary_does_not_see_bill_and_is_not_bill(rt: HostRuntime) -> Result<(), Fail> {
    let alloc = rt.alloc();
    let seen = Cond::Rel(SEE, Thing::Name(MARY), Thing::Name(BILL));
    let same = Cond::Same(Thing::Name(MARY), Thing::Name(BILL));
    let sees = drs(Vec::new(alloc), vec![in alloc; seen]?);
    let is = drs(Vec::new(alloc), vec![in alloc; same]?);
    let statement = drs(
        Vec::new(alloc),
        vec![in alloc; Cond::Not(sees), Cond::Not(is)]?,
    );
    assert_eq!(rt;
        printed(alloc, &statement)?.as_str(),
        "NegativeObjectPropertyAssertion(:see :Mary :Bill);DifferentIndividuals(:Mary :Bill);"
    );
    Ok(())
}

#[test]
fn conditions_of_names_are_axioms_as_they_stand(rt: HostRuntime) -> Result<(), Fail> {
    let alloc = rt.alloc();
    let is_man = Cond::Class(MAN, Thing::Name(MARY));
    let sees = Cond::Rel(SEE, Thing::Name(MARY), Thing::Name(BILL));
    let same = Cond::Same(Thing::Name(MARY), Thing::Name(BILL));
    let statement = drs(Vec::new(alloc), vec![in alloc; is_man, sees, same]?);
    assert_eq!(rt;
        printed(alloc, &statement)?.as_str(),
        "ClassAssertion(:man :Mary);ObjectPropertyAssertion(:see :Mary :Bill);SameIndividual(:Mary :Bill);"
    );
    Ok(())
}

#[test]
fn each_component_has_its_axiom(rt: HostRuntime) -> Result<(), Fail> {
    let alloc = rt.alloc();
    let conditions = vec![in alloc;
        noun(DOG, 1),
        noun(CAT, 2),
        by_name(OWN, MARY, 1),
        by_name(SEE, BILL, 2),
    ]?;
    let statement = drs(vec![in alloc; 1, 2]?, conditions);
    assert_eq!(rt;
        printed(alloc, &statement)?.as_str(),
        "ClassAssertion(ObjectSomeValuesFrom(:own :dog) :Mary);ClassAssertion(ObjectSomeValuesFrom(:see :cat) :Bill);"
    );
    Ok(())
}

#[test]
fn what_speaks_of_no_condition_has_no_axiom(rt: HostRuntime) -> Result<(), Fail> {
    let alloc = rt.alloc();
    let statement = drs(vec![in alloc; 1]?, Vec::new(alloc));
    assert_eq!(rt; printed(alloc, &statement)?.as_str(), "");
    Ok(())
}

#[test]
fn a_relation_that_holds_both_ways_is_a_role_below_its_inverse(
    rt: HostRuntime,
) -> Result<(), Fail> {
    let alloc = rt.alloc();
    let left = drs(vec![in alloc; 1, 2]?, vec![in alloc; relation(SEE, 1, 2)]?);
    let right = drs(Vec::new(alloc), vec![in alloc; relation(SEE, 2, 1)]?);
    let statement = drs(Vec::new(alloc), vec![in alloc; Cond::Implies(left, right)]?);
    assert_eq!(rt;
        printed(alloc, &statement)?.as_str(),
        "SubObjectPropertyOf(:see ObjectInverseOf(:see));"
    );
    Ok(())
}

#[test]
fn nothing_is_something(rt: HostRuntime) -> Result<(), Fail> {
    let alloc = rt.alloc();
    let left = drs(vec![in alloc; 1]?, Vec::new(alloc));
    let right = drs(
        Vec::new(alloc),
        vec![in alloc; Cond::Not(drs(Vec::new(alloc), Vec::new(alloc)))]?,
    );
    let statement = drs(Vec::new(alloc), vec![in alloc; Cond::Implies(left, right)]?);
    assert_eq!(rt;
        printed(alloc, &statement)?.as_str(),
        "SubClassOf(owl:Thing ObjectComplementOf(owl:Thing));"
    );
    Ok(())
}

#[test]
fn a_cycle_is_told_from_what_is_shared(rt: HostRuntime) -> Result<(), Fail> {
    let alloc = rt.alloc();
    let itself = drs(Vec::new(alloc), vec![in alloc; relation(SEE, 1, 1)]?);
    assert_eq!(rt;
        printed(alloc, &every(alloc, MAN, 1, itself)?)?.as_str(),
        "cycle"
    );
    let left = drs(
        vec![in alloc; 1, 2]?,
        vec![in alloc; noun(MAN, 1), noun(DOG, 2), relation(OWN, 1, 2)]?,
    );
    let right = drs(Vec::new(alloc), vec![in alloc; relation(SEE, 1, 2)]?);
    let statement = drs(Vec::new(alloc), vec![in alloc; Cond::Implies(left, right)]?);
    assert_eq!(rt; printed(alloc, &statement)?.as_str(), "shared");
    Ok(())
}

// Two relations on the left with three referents, and one on the right.
fn chain(alloc: Global, first: Cond, second: Cond, last: Cond) -> Result<Drs, Fail> {
    let left = drs(vec![in alloc; 1, 2, 3]?, vec![in alloc; first, second]?);
    let right = drs(Vec::new(alloc), vec![in alloc; last]?);
    Ok(drs(Vec::new(alloc), vec![in alloc; Cond::Implies(left, right)]?))
}

#[test]
fn what_leads_on_is_transitive(rt: HostRuntime) -> Result<(), Fail> {
    let alloc = rt.alloc();
    let statement = chain(
        alloc,
        relation(SEE, 1, 2),
        relation(SEE, 2, 3),
        relation(SEE, 1, 3),
    )?;
    assert_eq!(rt;
        printed(alloc, &statement)?.as_str(),
        "TransitiveObjectProperty(:see);"
    );
    let turned = chain(
        alloc,
        relation(SEE, 1, 2),
        relation(SEE, 3, 1),
        relation(SEE, 3, 2),
    )?;
    assert_eq!(rt;
        printed(alloc, &turned)?.as_str(),
        "TransitiveObjectProperty(:see);"
    );
    let back = chain(
        alloc,
        relation(SEE, 1, 2),
        relation(SEE, 2, 3),
        relation(SEE, 3, 1),
    )?;
    assert_eq!(rt; printed(alloc, &back)?.as_str(), "shared");
    let other = chain(
        alloc,
        relation(SEE, 1, 2),
        relation(OWN, 2, 3),
        relation(SEE, 1, 3),
    )?;
    assert_eq!(rt; printed(alloc, &other)?.as_str(), "shared");
    Ok(())
}

#[test]
fn a_man_owns_a_dog_without_a_root(rt: HostRuntime) -> Result<(), Fail> {
    let alloc = rt.alloc();
    let statement = drs(
        vec![in alloc; 1, 2]?,
        vec![in alloc; noun(MAN, 1), noun(DOG, 2), relation(OWN, 1, 2)]?,
    );
    assert_eq!(rt; printed(alloc, &statement)?.as_str(), "noroot");
    Ok(())
}

#[test]
fn every_man_is_mary_is_an_equality(rt: HostRuntime) -> Result<(), Fail> {
    let alloc = rt.alloc();
    let is = Cond::Same(Thing::Ref(1), Thing::Name(MARY));
    let statement = every(alloc, MAN, 1, drs(Vec::new(alloc), vec![in alloc; is]?))?;
    assert_eq!(rt; printed(alloc, &statement)?.as_str(), "equality");
    Ok(())
}

#[test]
fn which_men_own_bill(rt: HostRuntime) -> Result<(), Fail> {
    let alloc = rt.alloc();
    let owns = Cond::Rel(OWN, Thing::Ref(1), Thing::Name(BILL));
    let question = drs(vec![in alloc; 1]?, vec![in alloc; noun(MAN, 1), owns]?);
    let Asked::Class(class) = map_question(alloc, &question, 1)? else {
        return Err(Fail::from("a question without a class"));
    };
    assert_eq!(rt;
        print_class(alloc, &class, &Few)?.as_str(),
        "ObjectIntersectionOf(:man ObjectHasValue(:own :Bill))"
    );
    Ok(())
}

// The structure of one condition.
fn alone(alloc: Global, condition: Cond) -> Result<Drs, Fail> {
    Ok(drs(Vec::new(alloc), vec![in alloc; condition]?))
}

fn is_dog(alloc: Global) -> Result<Drs, Fail> {
    alone(alloc, Cond::Class(DOG, Thing::Name(MARY)))
}

#[test]
fn conditions_twelve_deep_are_mapped(rt: HostRuntime) -> Result<(), Fail> {
    let alloc = rt.alloc();
    let mut denied = is_dog(alloc)?;
    let mut either = is_dog(alloc)?;
    let mut implied = is_dog(alloc)?;
    let mut union = Text8::from_str(alloc, ":dog")?;
    let mut chain = Text8::from_str(alloc, ":dog")?;
    for _ in 0..12 {
        denied = alone(alloc, Cond::Not(denied))?;
        either = alone(alloc, Cond::Or(is_dog(alloc)?, either))?;
        implied = alone(alloc, Cond::Implies(is_dog(alloc)?, implied))?;
        let (inner, last) = (union.as_str(), chain.as_str());
        union = Text8::from_str(
            alloc,
            format!(in alloc; "ObjectUnionOf(:dog {inner})")?.as_str(),
        )?;
        chain = Text8::from_str(
            alloc,
            format!(in alloc; "ObjectUnionOf(ObjectComplementOf(:dog) {last})")?.as_str(),
        )?;
    }
    assert_eq!(rt;
        printed(alloc, &denied)?.as_str(),
        "ClassAssertion(:dog :Mary);"
    );
    let (inner, last) = (union.as_str(), chain.as_str());
    assert_eq!(rt;
        printed(alloc, &either)?.as_str(),
        format!(in alloc; "ClassAssertion({inner} :Mary);")?.as_str()
    );
    assert_eq!(rt;
        printed(alloc, &implied)?.as_str(),
        format!(in alloc; "ClassAssertion({last} :Mary);")?.as_str()
    );
    Ok(())
}
