// Small knowledge for each rule of `tableau_rules`, each clash and each way of being blocked.
use logic_terms::{Class, Classes, Knowledge, Role};
use std::alloc::Global;
use std::test::Fail;
use tableau_rules::{
    Branch, Clash, Rule, Step, applicable, applies, apply, choices, clash, is_blocked, is_clash,
    is_directly_blocked, is_indirectly_blocked, is_neighbour, node_of, root_count, start,
};
use wiki_base::WordId;

const BERN: WordId = WordId(1);

const BONN: WordId = WordId(2);

fn role() -> Role {
    Role {
        id: WordId(21),
        inverted: false,
    }
}

fn city() -> Class {
    named(11)
}

fn named(word: u32) -> Class {
    Class::Named(WordId(word))
}

fn not(alloc: Global, class: Class) -> Result<Class, Fail> {
    Ok(Class::Not(Box::new(alloc, class)?))
}

fn some(alloc: Global, class: Class) -> Result<Class, Fail> {
    Ok(Class::Some(role(), Box::new(alloc, class)?))
}

fn pair(alloc: Global, one: Class, other: Class) -> Result<Classes, Fail> {
    Ok(Classes::from_vec(vec![in alloc; one, other]?))
}

// What is asserted of one name, and what class words unfold to.
fn about(
    alloc: Global,
    asserted: Vec<(WordId, Class)>,
    unfoldings: Vec<(WordId, Class)>,
) -> Result<Knowledge, Fail> {
    Ok(Knowledge::new(
        vec![in alloc; (BERN, BERN)]?,
        Vec::new(alloc),
        Vec::new(alloc),
        asserted,
        Vec::new(alloc),
        Vec::new(alloc),
        unfoldings,
        Classes::new(alloc),
    ))
}

fn asserting(alloc: Global, class: Class) -> Result<Knowledge, Fail> {
    about(alloc, vec![in alloc; (BERN, class)]?, Vec::new(alloc))
}

// The branch after so many first applicable steps, each with its first choice.
fn after_steps(alloc: Global, k: &Knowledge, count: u64) -> Result<Branch, Fail> {
    let mut b = start(alloc, k)?;
    for _ in 0..count {
        if let Some(step) = applicable(k, &b) {
            apply(k, &mut b, &step, 0)?;
        }
    }
    Ok(b)
}

fn next(k: &Knowledge, b: &Branch) -> Option<Step> {
    applicable(k, b)
}

// The rule of the first step in the first branch of this knowledge.
fn first_rule(alloc: Global, k: &Knowledge) -> Result<Option<Rule>, Fail> {
    match next(k, &after_steps(alloc, k, 0)?) {
        Some(step) => Ok(Some(step.rule)),
        None => Ok(None),
    }
}

#[test]
fn each_rule_is_found_and_adds_what_its_row_says(rt: HostRuntime) -> Result<(), Fail> {
    let alloc = rt.alloc();
    let k = asserting(alloc, Class::And(pair(alloc, city(), named(12))?))?;
    assert!(rt; first_rule(alloc, &k)? == Some(Rule::And));
    assert_eq!(rt; after_steps(alloc, &k, 1)?.label_len(0), 3);
    let k = asserting(alloc, Class::Or(pair(alloc, city(), named(12))?))?;
    assert!(rt; first_rule(alloc, &k)? == Some(Rule::Or));
    let k = asserting(alloc, Class::Value(role(), BERN))?;
    assert!(rt; first_rule(alloc, &k)? == Some(Rule::Value));
    let b = after_steps(alloc, &k, 1)?;
    assert_eq!(rt; b.edge_count(), 1);
    assert!(rt; next(&k, &b).is_none());
    let k = asserting(alloc, some(alloc, city())?)?;
    let b = after_steps(alloc, &k, 1)?;
    assert_eq!(rt; b.nodes().len(), 2);
    assert!(rt; b.parent(1) == Some(0));
    for (role, from, to) in [(role(), 0, 1), (role().inverse(), 1, 0)] {
        assert!(rt; is_neighbour(&k, &b, role, from, to), "{from} {to}");
    }
    assert!(rt; next(&k, &b.copy()?).is_none());
    Ok(())
}

#[test]
fn a_union_of_equal_members_leaves_two_choices(rt: HostRuntime) -> Result<(), Fail> {
    let alloc = rt.alloc();
    let twice = Class::Or(pair(alloc, city(), city())?);
    let k = asserting(alloc, twice)?;
    let b = after_steps(alloc, &k, 0)?;
    let step = Step {
        rule: Rule::Or,
        node: 0,
        class: 0,
        other: 0,
    };
    assert!(rt; next(&k, &b) == Some(step));
    assert!(rt; applies(&k, &b, &step));
    assert_eq!(rt; choices(&b, &step), 2);
    let denied = Class::Or(pair(alloc, city(), named(12))?);
    let no_city = not(alloc, city())?;
    let k = about(
        alloc,
        vec![in alloc; (BERN, denied), (BERN, no_city)]?,
        Vec::new(alloc),
    )?;
    assert!(rt; first_rule(alloc, &k)? == Some(Rule::Unit));
    Ok(())
}

// Whether a node is blocked, whether directly, and whether indirectly.
fn blocking(k: &Knowledge, b: &Branch, node: u64) -> [bool; 3] {
    [
        is_blocked(k, b, node),
        is_directly_blocked(k, b, node),
        is_indirectly_blocked(k, b, node),
    ]
}

const FREE: [bool; 3] = [false, false, false];

const DIRECTLY: [bool; 3] = [true, true, false];

const INDIRECTLY: [bool; 3] = [true, false, true];

#[test]
fn blocking_ends_where_a_label_grows(rt: HostRuntime) -> Result<(), Fail> {
    let alloc = rt.alloc();
    // Each city has a city of its own, and what has a city of its own is in class 12.
    let backwards = Class::All(role().inverse(), Box::new(alloc, named(12))?);
    let more = some(alloc, city())?;
    let k = about(
        alloc,
        vec![in alloc; (BERN, city())]?,
        vec![in alloc; (WordId(11), more), (WordId(11), backwards)]?,
    )?;
    let cases = [
        (6, 2, DIRECTLY),
        (6, 1, FREE),
        (7, 2, FREE),
        (10, 2, DIRECTLY),
        (10, 3, INDIRECTLY),
    ];
    for (steps, node, want) in cases {
        let b = after_steps(alloc, &k, steps)?;
        assert_eq!(rt; blocking(&k, &b, node), want, "{node} after {steps}");
    }
    let b = after_steps(alloc, &k, 10)?;
    assert_eq!(rt; b.nodes().len(), 4);
    assert!(rt; next(&k, &b).is_none());
    assert!(rt; first_clash(&k, &b).is_none());
    Ok(())
}

#[test]
fn a_blocked_node_gets_no_edge_for_its_value(rt: HostRuntime) -> Result<(), Fail> {
    let alloc = rt.alloc();
    let to_bern = Class::Value(
        Role {
            id: WordId(22),
            inverted: false,
        },
        BERN,
    );
    let more = some(alloc, city())?;
    let k = about(
        alloc,
        vec![in alloc; (BERN, city())]?,
        vec![in alloc; (WordId(11), more), (WordId(11), to_bern)]?,
    )?;
    let b = after_steps(alloc, &k, 7)?;
    assert_eq!(rt; blocking(&k, &b, 2), DIRECTLY);
    assert_eq!(rt; b.label_len(2), 3);
    assert_eq!(rt; b.edge_count(), 4);
    assert!(rt; next(&k, &b).is_none());
    Ok(())
}

fn first_clash(k: &Knowledge, b: &Branch) -> Option<Clash> {
    clash(k, b)
}

// Two names for one node that has no value at itself, but an edge to itself.
fn clashing_names(alloc: Global) -> Result<Knowledge, Fail> {
    let no_value = not(alloc, Class::Value(role(), BONN))?;
    Ok(Knowledge::new(
        vec![in alloc; (BERN, BERN), (BONN, BERN)]?,
        Vec::new(alloc),
        Vec::new(alloc),
        vec![in alloc; (BONN, no_value)]?,
        vec![in alloc; (role(), BERN, BONN)]?,
        vec![in alloc; (BERN, BONN)]?,
        Vec::new(alloc),
        Classes::new(alloc),
    ))
}

#[test]
fn each_clash_is_told_with_its_places(rt: HostRuntime) -> Result<(), Fail> {
    let alloc = rt.alloc();
    let no_city = not(alloc, city())?;
    let k = about(
        alloc,
        vec![in alloc; (BERN, no_city), (BERN, city())]?,
        Vec::new(alloc),
    )?;
    let b = after_steps(alloc, &k, 0)?;
    assert!(rt; first_clash(&k, &b) == Some(Clash::Pair(0, 1, 0)));
    for other in [Clash::Pair(0, 0, 1), Clash::Pair(1, 1, 0)] {
        assert!(rt; !is_clash(&k, &b, other), "{other:?}");
    }
    let k = asserting(alloc, not(alloc, Class::Thing)?)?;
    let b = after_steps(alloc, &k, 0)?;
    assert!(rt; first_clash(&k, &b) == Some(Clash::NoThing(0, 0)));
    let k = clashing_names(alloc)?;
    let b = after_steps(alloc, &k, 0)?;
    assert!(rt; first_clash(&k, &b) == Some(Clash::Names(BERN, BONN)));
    for (edge, want) in [(0, true), (1, false)] {
        assert_eq!(rt;
            is_clash(&k, &b, Clash::NoValue(0, 0, edge)),
            want,
            "{edge}"
        );
    }
    assert!(rt; node_of(&k, BONN) == Some(0));
    assert_eq!(rt; root_count(&k), 1);
    Ok(())
}
