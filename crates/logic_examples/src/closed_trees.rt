// Trees of `closure_check` that close and trees that do not.
use closure_check::accepts;
use lists::List;
use logic_terms::{Class, Classes, Knowledge, Role};
use std::alloc::Global;
use std::test::Fail;
use tableau_rules::{Clash, Closed, Rule, Step};
use wiki_base::WordId;

const BERN: WordId = WordId(1);

const CITY: WordId = WordId(11);

const COUNTRY: WordId = WordId(12);

fn not(alloc: Global, class: Class) -> Result<Class, Fail> {
    Ok(Class::Not(Box::new(alloc, class)?))
}

fn about(
    alloc: Global,
    asserted: Vec<(WordId, Class)>,
    unfoldings: Vec<(WordId, Class)>,
) -> Result<Knowledge, Fail> {
    Ok(Knowledge::new(
        vec![in alloc; (BERN, BERN)]?,
        Vec::new(alloc),
        Vec::new(alloc),
        asserted,
        Vec::new(alloc),
        Vec::new(alloc),
        unfoldings,
        Classes::new(alloc),
    ))
}

fn step(rule: Rule, class: u64, other: u64) -> Step {
    Step {
        rule,
        node: 0,
        class,
        other,
    }
}

fn one(alloc: Global, first: Step, then: Clash) -> Result<Closed, Fail> {
    let mut subtrees = List::new(alloc);
    subtrees.push(Closed::Clash(then))?;
    Ok(Closed::Step(first, subtrees))
}

fn is_accepted(alloc: Global, k: &Knowledge, tree: &Closed) -> Result<bool, Fail> {
    Ok(accepts(alloc, k, tree)?)
}

#[test]
fn a_class_word_that_unfolds_into_a_clash(rt: HostRuntime) -> Result<(), Fail> {
    let alloc = rt.alloc();
    let no_country = not(alloc, Class::Named(COUNTRY))?;
    let k = about(
        alloc,
        vec![in alloc; (BERN, Class::Named(CITY)), (BERN, Class::Named(COUNTRY))]?,
        vec![in alloc; (CITY, no_country)]?,
    )?;
    let unfold = step(Rule::Unfold, 0, 0);
    let clash = Clash::Pair(0, 1, 2);
    assert!(rt; !is_accepted(alloc, &k, &Closed::Clash(clash))?);
    let trees = [
        (unfold, clash, true),
        (step(Rule::Unfold, 0, 1), clash, false),
        (step(Rule::Unfold, 1, 0), clash, false),
        (unfold, Clash::Pair(0, 2, 1), false),
        (unfold, Clash::Pair(1, 1, 2), false),
    ];
    for (first, then, want) in trees {
        let tree = one(alloc, first, then)?;
        assert_eq!(rt;
            is_accepted(alloc, &k, &tree)?,
            want,
            "{then:?} behind {first:?}"
        );
    }
    Ok(())
}

#[test]
fn a_union_needs_a_tree_for_each_member(rt: HostRuntime) -> Result<(), Fail> {
    let alloc = rt.alloc();
    let nothing = not(alloc, Class::Thing)?;
    let members = Classes::from_vec(vec![in alloc; nothing, not(alloc, Class::Thing)?]?);
    let k = about(
        alloc,
        vec![in alloc; (BERN, Class::Or(members))]?,
        Vec::new(alloc),
    )?;
    let clash = Clash::NoThing(0, 1);
    let split = step(Rule::Or, 0, 0);
    assert!(rt; !is_accepted(alloc, &k, &one(alloc, split, clash)?)?);
    let mut both = List::new(alloc);
    both.push(Closed::Clash(clash))?;
    both.push(Closed::Clash(clash))?;
    assert!(rt; is_accepted(alloc, &k, &Closed::Step(split, both))?);
    Ok(())
}

#[test]
fn the_place_of_the_edge_is_checked(rt: HostRuntime) -> Result<(), Fail> {
    let alloc = rt.alloc();
    let role = Role {
        id: WordId(21),
        inverted: false,
    };
    let no_value = not(alloc, Class::Value(role, BERN))?;
    let k = Knowledge::new(
        vec![in alloc; (BERN, BERN)]?,
        Vec::new(alloc),
        Vec::new(alloc),
        vec![in alloc; (BERN, no_value)]?,
        vec![in alloc; (role.inverse(), BERN, BERN)]?,
        Vec::new(alloc),
        Vec::new(alloc),
        Classes::new(alloc),
    );
    assert!(rt; is_accepted(alloc, &k, &Closed::Clash(Clash::NoValue(0, 0, 0)))?);
    assert!(rt; !is_accepted(alloc, &k, &Closed::Clash(Clash::NoValue(0, 0, 1)))?);
    Ok(())
}

const DEPTH: u64 = 100;

// So many unions of a class word of its own and of nothing, and then the complement of the first of these words.
fn unions(alloc: Global) -> Result<Vec<(WordId, Class)>, Fail> {
    let mut asserted = Vec::new(alloc);
    for level in 0..DEPTH as u32 {
        let nothing = not(alloc, Class::Thing)?;
        let members = Classes::from_vec(vec![in alloc;
            Class::Named(WordId(100 + level)),
            nothing,
        ]?);
        asserted.push((BERN, Class::Or(members)))?;
    }
    asserted.push((BERN, not(alloc, Class::Named(WordId(100)))?))?;
    Ok(asserted)
}

#[test]
fn choices_within_choices(rt: HostRuntime) -> Result<(), Fail> {
    let alloc = rt.alloc();
    let k = about(alloc, unions(alloc)?, Vec::new(alloc))?;
    let mut tree = Closed::Clash(Clash::Pair(0, DEPTH + 1, DEPTH));
    for level in (0..DEPTH).rev() {
        let mut subtrees = List::new(alloc);
        subtrees.push(tree)?;
        subtrees.push(Closed::Clash(Clash::NoThing(0, DEPTH + 1 + level)))?;
        tree = Closed::Step(step(Rule::Or, level, 0), subtrees);
    }
    assert!(rt; is_accepted(alloc, &k, &tree)?);
    Ok(())
}
