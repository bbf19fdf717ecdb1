// Which relations are transitive, by the library's walk over the pairs and by the definition.
use logic_terms::Axiom;
use owl_eval::{Interp, axiom_true};
use std::alloc::Global;
use std::process::Abort;
use std::test::Fail;
use wiki_base::WordId;

const LEADS: WordId = WordId(21);

// Kinds of relations: a chain in either direction, a clique, several cliques, layers, divisors, and steps alone.
#[derive(Clone, Copy, Debug, PartialEq, Eq)]
enum Kind {
    Below,
    Above,
    Clique,
    Cliques,
    Layers,
    Divisors,
    Steps,
}

impl Kind {
    fn has(self, x: u64, y: u64) -> bool {
        match self {
            Kind::Below => x < y,
            Kind::Above => x > y,
            Kind::Clique => true,
            Kind::Cliques => x % 3 == y % 3,
            Kind::Layers => x / 2 < y / 2,
            Kind::Divisors => (y.saturating_add(1)) % (x.saturating_add(1)) == 0,
            Kind::Steps => x.saturating_add(1) == y,
        }
    }
}

// The pairs of a kind, without one.
fn pairs_of(
    alloc: Global,
    kind: Kind,
    size: u64,
    gap: (u64, u64),
) -> Result<Vec<(u64, u64)>, Fail> {
    let mut pairs = Vec::new(alloc);
    for x in 0..size {
        for y in 0..size {
            if kind.has(x, y) && (x, y) != gap {
                pairs.push((x, y))?;
            }
        }
    }
    Ok(pairs)
}

// The interpretation in which the word has these pairs.
fn related(
    rt: &impl Abort,
    alloc: Global,
    size: u64,
    pairs: Vec<(u64, u64)>,
) -> Result<Interp, Fail> {
    let relations = vec![in alloc; (LEADS, pairs)]?;
    assert!(rt; Interp::fits(size, &[], &[], relations.as_slice()));
    let interp = Interp::new(alloc, size, Vec::new(alloc), Vec::new(alloc), relations)?;
    Ok(interp)
}

// Whether the word relates x to z wherever it relates x to y and y to z.
fn is_transitive(interp: &Interp) -> bool {
    for x in 0..interp.size() {
        for y in 0..interp.size() {
            if interp.has_pair(LEADS, x, y) && !has_ends(interp, x, y) {
                return false;
            }
        }
    }
    true
}

fn has_ends(interp: &Interp, x: u64, y: u64) -> bool {
    for z in 0..interp.size() {
        if interp.has_pair(LEADS, y, z) && !interp.has_pair(LEADS, x, z) {
            return false;
        }
    }
    true
}

#[test]
fn each_relation_on_three_elements_is_told_by_the_definition(rt: HostRuntime) -> Result<(), Fail> {
    let alloc = rt.alloc();
    for number in 0..512u64 {
        let mut pairs = Vec::new(alloc);
        for place in 0..9u64 {
            if (number >> place) & 1 == 1 {
                pairs.push((place / 3, place % 3))?;
            }
        }
        let interp = related(&rt, alloc, 3, pairs)?;
        let told = axiom_true(&interp, &Axiom::Transitive(LEADS));
        assert_eq!(rt; told, is_transitive(&interp), "{number}");
    }
    Ok(())
}

#[test]
fn one_pair_less_is_told_by_the_definition(rt: HostRuntime) -> Result<(), Fail> {
    let alloc = rt.alloc();
    let kinds = [
        Kind::Below,
        Kind::Above,
        Kind::Clique,
        Kind::Cliques,
        Kind::Layers,
        Kind::Divisors,
        Kind::Steps,
    ];
    for kind in kinds {
        let whole = related(&rt, alloc, 7, pairs_of(alloc, kind, 7, (7, 7))?)?;
        let told = axiom_true(&whole, &Axiom::Transitive(LEADS));
        assert_eq!(rt; told, kind != Kind::Steps, "{kind:?}");
        for x in 0..7 {
            for y in 0..7 {
                let interp = related(&rt, alloc, 7, pairs_of(alloc, kind, 7, (x, y))?)?;
                let told = axiom_true(&interp, &Axiom::Transitive(LEADS));
                assert_eq!(rt; told, is_transitive(&interp), "{kind:?} {x} {y}");
            }
        }
    }
    Ok(())
}
