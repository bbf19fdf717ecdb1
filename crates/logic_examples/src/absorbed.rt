// Knowledge that `absorb` makes, as it was worked out by hand from the rules of docs/REASONING.md.
use absorb::absorb;
use logic_terms::{Axiom, Axioms, Class, Classes, Names, Role};
use std::alloc::Global;
use std::test::Fail;
use wiki_base::WordId;

const MAN: WordId = WordId(1);

const DOG: WordId = WordId(2);

const OWN: WordId = WordId(3);

const HAVE: WordId = WordId(4);

const MARY: WordId = WordId(5);

const BILL: WordId = WordId(6);

const REX: WordId = WordId(7);

fn role(id: WordId) -> Role {
    Role {
        id,
        inverted: false,
    }
}

#[test]
fn an_intersection_unfolds_its_first_class_word(rt: HostRuntime) -> Result<(), Fail> {
    let alloc = rt.alloc();
    let names = Names::from_vec(vec![in alloc; MARY]?);
    let mut members = Classes::new(alloc);
    members.push(Class::Value(role(OWN), MARY))?;
    members.push(Class::Named(MAN))?;
    let mut axioms = Axioms::new(alloc);
    axioms.push(Axiom::SubClass(Class::And(members), Class::Named(DOG)))?;
    let k = absorb(alloc, &axioms, &names)?;
    let mut rest = Classes::new(alloc);
    rest.push(Class::Not(Box::new(alloc, Class::Value(role(OWN), MARY))?))?;
    rest.push(Class::Named(DOG))?;
    let unfolded = Class::Or(rest);
    assert_eq!(rt; k.unfoldings().len(), 1);
    assert_eq!(rt; k.unfoldings()[0].0, MAN);
    assert!(rt; k.unfoldings()[0].1.is_same(&unfolded));
    Ok(())
}
