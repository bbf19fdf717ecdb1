// How searches over small knowledge bases end, and what verdicts say of them.
use crate::bases::{BASES, NESTED};
use crate::fitting::are_fit;
use crate::leading::LEADING;
use crate::models::has_small_model;
use crate::reading::{first_names, names_of, read};
use absorb::absorb;
use closure_check::accepts;
use logic_terms::{Axiom, Axioms, Class, Classes, Knowledge, Names};
use owl_eval::{CheckedModel, Interp};
use quick_search::{Proposal, hunt};
use reasoner::{Verdict, verdict};
use std::alloc::Global;
use std::test::Fail;
use tableau::{search, systematic};
use tableau_rules::{Branch, start};
use wiki_base::WordId;

// How a search ended.
#[derive(Clone, Copy, PartialEq, Eq)]
enum End {
    Open,
    Shut,
    Cut,
}

fn end_of(verdict: &Verdict<Branch>) -> End {
    match verdict {
        Verdict::Consistent(_) => End::Open,
        Verdict::Inconsistent(_) => End::Shut,
        Verdict::Spent(_) => End::Cut,
    }
}

// The knowledge of a base.
fn knowledge(alloc: Global, names: u8, text: &str) -> Result<Knowledge, Fail> {
    let names = names_of(alloc, names)?;
    let axioms = read(alloc, text)?;
    if are_fit(&names, &axioms) {
        Ok(absorb(alloc, &axioms, &names)?)
    } else {
        Err("fit axioms".into())
    }
}

// The verdict on a base, with this interpretation kept.
fn judged(
    alloc: Global,
    names: u8,
    text: &str,
    kept: &CheckedModel,
    budget: u64,
) -> Result<Verdict<CheckedModel>, Fail> {
    let names = names_of(alloc, names)?;
    let axioms = read(alloc, text)?;
    if are_fit(&names, &axioms) {
        Ok(verdict(alloc, axioms, &names, kept, budget)?)
    } else {
        Err("fit axioms".into())
    }
}

// The interpretation with one element that is in no class and has no pair.
fn bare(alloc: Global) -> Result<CheckedModel, Fail> {
    let interp = Interp::new(alloc, 1, Vec::new(alloc), Vec::new(alloc), Vec::new(alloc))?;
    match CheckedModel::new(interp, Axioms::new(alloc)) {
        Ok(kept) => Ok(kept),
        Err(_) => Err("a model of no axioms".into()),
    }
}

#[test]
fn a_search_is_cut_at_each_budget_below_its_steps(rt: HostRuntime) -> Result<(), Fail> {
    let alloc = rt.alloc();
    for (names, axioms, steps, size) in BASES.iter() {
        let k = knowledge(alloc, *names, axioms)?;
        for budget in 0..*steps {
            assert!(rt; end_of(&search(alloc, &k, budget)?) == End::Cut, "{axioms}");
        }
        let end = if *size == 0 { End::Shut } else { End::Open };
        assert!(rt; end_of(&search(alloc, &k, *steps)?) == end, "{axioms}");
        assert!(rt; end_of(&systematic(alloc, &k, *steps)?) == end, "{axioms}");
    }
    Ok(())
}

#[test]
fn the_quick_search_ends_where_the_systematic_one_does(rt: HostRuntime) -> Result<(), Fail> {
    let alloc = rt.alloc();
    for (names, axioms, steps, size) in BASES.iter() {
        let k = knowledge(alloc, *names, axioms)?;
        let first = start(alloc, &k)?;
        for budget in 0..*steps {
            let early = hunt(alloc, &k, &first, budget, false)?;
            assert!(rt; matches!(early, Proposal::Nothing), "{axioms}");
        }
        match hunt(alloc, &k, &first, *steps, false)? {
            Proposal::Steps(_) => assert!(rt; *size > 0, "{axioms}"),
            Proposal::Tree(tree) => {
                assert!(rt; *size == 0, "{axioms}");
                assert!(rt; accepts(alloc, &k, &tree)?, "{axioms}");
            }
            Proposal::Nothing => assert!(rt; false, "{axioms}"),
        }
    }
    Ok(())
}

#[test]
fn closed_trees_of_searches_are_accepted(rt: HostRuntime) -> Result<(), Fail> {
    let alloc = rt.alloc();
    for (names, axioms, steps, _) in BASES.iter() {
        let k = knowledge(alloc, *names, axioms)?;
        if let Verdict::Inconsistent(tree) = search(alloc, &k, *steps)? {
            assert!(rt; accepts(alloc, &k, &tree)?, "{axioms}");
        }
    }
    Ok(())
}

#[test]
fn each_base_has_its_verdict(rt: HostRuntime) -> Result<(), Fail> {
    let alloc = rt.alloc();
    let kept = bare(alloc)?;
    for (names, axioms, steps, size) in BASES.iter() {
        if *steps > 0 {
            let early = judged(alloc, *names, axioms, &kept, *steps - 1)?;
            assert!(rt; matches!(early, Verdict::Spent(_)), "{axioms}");
        }
        match judged(alloc, *names, axioms, &kept, *steps)? {
            Verdict::Consistent(model) => assert_eq!(rt; model.interp().size(), *size, "{axioms}"),
            Verdict::Inconsistent(_) => assert_eq!(rt; 0, *size, "{axioms}"),
            Verdict::Spent(_) => assert!(rt; false, "{axioms}"),
        }
    }
    Ok(())
}

#[test]
fn a_class_may_be_nested_deep(rt: HostRuntime) -> Result<(), Fail> {
    let alloc = rt.alloc();
    let kept = bare(alloc)?;
    let (names, axioms, steps, size) = NESTED;
    match judged(alloc, names, axioms, &kept, steps)? {
        Verdict::Consistent(model) => assert_eq!(rt; model.interp().size(), size),
        _ => assert!(rt; false, "a model"),
    }
    Ok(())
}

#[test]
fn a_kept_model_needs_no_search(rt: HostRuntime) -> Result<(), Fail> {
    let alloc = rt.alloc();
    let kept = bare(alloc)?;
    let settled = judged(alloc, 1, "A!B|1:", &kept, 0)?;
    assert!(rt; matches!(settled, Verdict::Consistent(_)));
    let searched = judged(alloc, 1, "AB|1:", &kept, 0)?;
    assert!(rt; matches!(searched, Verdict::Spent(_)));
    let later = judged(alloc, 1, "AB|1:", &kept, 1)?;
    assert!(rt; matches!(later, Verdict::Consistent(_)));
    Ok(())
}

#[test]
fn no_small_model_is_overlooked(rt: HostRuntime) -> Result<(), Fail> {
    let alloc = rt.alloc();
    for (names, text, _, size) in BASES.iter() {
        let axioms = read(alloc, text)?;
        if has_small_model(alloc, &axioms, *names, text)? {
            assert!(rt; *size > 0, "{text}");
        }
    }
    Ok(())
}

#[test]
fn transitive_words_have_the_verdicts_of_an_exhaustive_search(rt: HostRuntime) -> Result<(), Fail> {
    let alloc = rt.alloc();
    let kept = bare(alloc)?;
    for (names, text, consistent) in LEADING.iter() {
        let axioms = read(alloc, text)?;
        assert_eq!(rt;
            has_small_model(alloc, &axioms, *names, text)?,
            *consistent,
            "{text}"
        );
        match judged(alloc, *names, text, &kept, 1_000)? {
            Verdict::Consistent(_) => assert!(rt; *consistent, "{text}"),
            Verdict::Inconsistent(_) => assert!(rt; !*consistent, "{text}"),
            Verdict::Spent(_) => assert!(rt; false, "{text}"),
        }
    }
    Ok(())
}

#[test]
fn each_of_many_names_is_an_element(rt: HostRuntime) -> Result<(), Fail> {
    let alloc = rt.alloc();
    let names = first_names(alloc, 5_000)?;
    let axioms = read(alloc, "A1:")?;
    assert!(rt; are_fit(&names, &axioms));
    match verdict(alloc, axioms, &names, &bare(alloc)?, 0)? {
        Verdict::Consistent(model) => assert_eq!(rt; model.interp().size(), 5_000),
        _ => assert!(rt; false, "a model"),
    }
    Ok(())
}

// The first name is in so many unions, and in a class that has nothing to do with them and can't have an element.
fn unions(alloc: Global, count: u32) -> Result<Axioms, Fail> {
    let mut axioms = read(alloc, "Ar?1: AB< AB!<")?;
    for number in 0..count {
        let members = vec![in alloc;
            Class::Named(WordId(number.saturating_add(20_000))),
            Class::Named(WordId(number.saturating_add(40_000))),
        ]?;
        axioms.push(Axiom::Member(Class::Or(Classes::from_vec(members)), WordId(49)))?;
    }
    Ok(axioms)
}

#[test]
fn a_thousand_choices_hide_no_clash(rt: HostRuntime) -> Result<(), Fail> {
    let alloc = rt.alloc();
    let names = names_of(alloc, 1)?;
    let axioms = unions(alloc, 1_000)?;
    assert!(rt; are_fit(&names, &axioms));
    let judged = verdict(alloc, axioms, &names, &bare(alloc)?, 1_000_000)?;
    assert!(rt; matches!(judged, Verdict::Inconsistent(_)));
    Ok(())
}

// Each of so many names is equal to the next one, and the first is in a class.
fn equals(alloc: Global, count: u32) -> Result<Axioms, Fail> {
    let mut axioms = Axioms::new(alloc);
    for number in 1..count {
        axioms.push(Axiom::Equal(WordId(number - 1), WordId(number)))?;
    }
    axioms.push(Axiom::Member(Class::Named(WordId(65)), WordId(0)))?;
    Ok(axioms)
}

#[test]
fn names_may_all_be_equal(rt: HostRuntime) -> Result<(), Fail> {
    let alloc = rt.alloc();
    let names = first_names(alloc, 500)?;
    let mut axioms = equals(alloc, 500)?;
    assert!(rt; are_fit(&names, &axioms));
    match verdict(alloc, axioms, &names, &bare(alloc)?, 0)? {
        Verdict::Consistent(model) => assert_eq!(rt; model.interp().size(), 1),
        _ => assert!(rt; false, "a model"),
    }
    axioms = equals(alloc, 500)?;
    axioms.push(Axiom::Differ(WordId(499), WordId(0)))?;
    assert!(rt; are_fit(&names, &axioms));
    let judged = verdict(alloc, axioms, &names, &bare(alloc)?, 0)?;
    assert!(rt; matches!(judged, Verdict::Inconsistent(_)));
    Ok(())
}
