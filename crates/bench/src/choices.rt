// Axioms that lead a search into many choices.

use crate::fault::Fault;
use logic_terms::{Axiom, Axioms, Class, Classes, Names, Role};
use std::alloc::Global;
use wiki_base::WordId;

// Axioms with the names that they are over.
#[derive(Drop)]
pub(crate) struct Base {
    pub(crate) axioms: Axioms,
    pub(crate) names: Names,
}

fn role(word: u32) -> Role {
    Role {
        id: WordId(word),
        inverted: false,
    }
}

fn some(alloc: Global, word: u32, class: Class) -> Result<Class, Fault> {
    Ok(Class::Some(role(word), Box::new(alloc, class)?))
}

fn not(alloc: Global, word: u32) -> Result<Class, Fault> {
    Ok(Class::Not(Box::new(alloc, Class::Named(WordId(word)))?))
}

// So many names, from number 0 on.
fn numbered(alloc: Global, count: u32) -> Result<Names, Fault> {
    let mut names = Names::new(alloc);
    for number in 0..count {
        names.push(WordId(number))?;
    }
    Ok(names)
}

// So many persons, each of whom has a parent that is a person; everything that has a parent knows the first one.
pub(crate) fn persons(alloc: Global, count: u32) -> Result<Base, Fault> {
    let (person, parent, has, knows) = (10_001, 10_002, 10_003, 10_004);
    let mut axioms = Axioms::new(alloc);
    let both = vec![in alloc; Class::Named(WordId(parent)), Class::Named(WordId(person))]?;
    let above = some(alloc, has, Class::And(Classes::from_vec(both)))?;
    axioms.push(Axiom::SubClass(Class::Named(WordId(person)), above))?;
    for number in 0..count {
        axioms.push(Axiom::Member(Class::Named(WordId(person)), WordId(number)))?;
    }
    let child = some(alloc, has, Class::Named(WordId(parent)))?;
    axioms.push(Axiom::SubClass(child, Class::Value(role(knows), WordId(0))))?;
    Ok(Base {
        axioms,
        names: numbered(alloc, count)?,
    })
}

// A name in so many unions that have nothing to do with a clash, which lies behind a successor.
pub(crate) fn hidden(alloc: Global, unions: u32) -> Result<Base, Fault> {
    let (below, above, related) = (10_001, 10_002, 10_003);
    let mut axioms = Axioms::new(alloc);
    for number in 0..unions {
        let members = vec![in alloc;
            Class::Named(WordId(number.saturating_add(20_000))),
            Class::Named(WordId(number.saturating_add(30_000))),
        ]?;
        let union = Class::Or(Classes::from_vec(members));
        axioms.push(Axiom::Member(union, WordId(0)))?;
    }
    let successor = some(alloc, related, Class::Named(WordId(below)))?;
    axioms.push(Axiom::Member(successor, WordId(0)))?;
    let (inside, outside) = (Class::Named(WordId(above)), not(alloc, above)?);
    axioms.push(Axiom::SubClass(Class::Named(WordId(below)), inside))?;
    axioms.push(Axiom::SubClass(Class::Named(WordId(below)), outside))?;
    Ok(Base {
        axioms,
        names: numbered(alloc, 1)?,
    })
}

// So many names with links between them, each of which leads the next one by a transitive word. Where the ends are `denied`,
// the first name does not lead the last one that is linked.
pub(crate) fn chain(alloc: Global, count: u32, links: u32, denied: bool) -> Result<Base, Fault> {
    let leads = 10_001;
    let mut axioms = Axioms::new(alloc);
    axioms.push(Axiom::Transitive(WordId(leads)))?;
    for number in 0..links {
        let next = WordId(number.saturating_add(1));
        axioms.push(Axiom::Related(role(leads), WordId(number), next))?;
    }
    if denied {
        axioms.push(Axiom::NotRelated(role(leads), WordId(0), WordId(links)))?;
    }
    Ok(Base {
        axioms,
        names: numbered(alloc, count)?,
    })
}

// The colouring of a graph's vertices with three colours, so that neighbours have different ones.
pub(crate) fn colouring(alloc: Global, vertices: u32, edges: &[(u32, u32)]) -> Result<Base, Fault> {
    let touches = 10_000;
    let mut axioms = Axioms::new(alloc);
    for colour in 10_001..10_004 {
        let others = Class::All(role(touches), Box::new(alloc, not(alloc, colour)?)?);
        axioms.push(Axiom::SubClass(Class::Named(WordId(colour)), others))?;
        for other in 10_001..10_004 {
            if colour < other {
                let denied = not(alloc, other)?;
                axioms.push(Axiom::SubClass(Class::Named(WordId(colour)), denied))?;
            }
        }
    }
    for vertex in 0..vertices {
        let colours = vec![in alloc;
            Class::Named(WordId(10_001)),
            Class::Named(WordId(10_002)),
            Class::Named(WordId(10_003)),
        ]?;
        let union = Class::Or(Classes::from_vec(colours));
        axioms.push(Axiom::Member(union, WordId(vertex)))?;
    }
    for edge in edges {
        axioms.push(Axiom::Related(role(touches), WordId(edge.0), WordId(edge.1)))?;
    }
    Ok(Base {
        axioms,
        names: numbered(alloc, vertices)?,
    })
}

// A path of so many vertices, with four behind it that all touch each other. They touch the path's end where they are
// `joined`.
pub(crate) fn path_and_clique(alloc: Global, path: u32, joined: bool) -> Result<Base, Fault> {
    let mut edges = Vec::new(alloc);
    for vertex in 1..path {
        edges.push((vertex - 1, vertex))?;
    }
    if joined {
        edges.push((path.saturating_sub(1), path.saturating_add(1)))?;
    }
    for one in 0..4 {
        for other in 0..4 {
            if one < other {
                edges.push((path.saturating_add(one), path.saturating_add(other)))?;
            }
        }
    }
    colouring(alloc, path.saturating_add(4), edges.as_slice())
}

// The next draw, of 16 bits.
fn drawn(state: &mut u64) -> u32 {
    *state = state
        .wrapping_mul(6_364_136_223_846_793_005)
        .wrapping_add(1_442_695_040_888_963_407);
    (*state >> 48) as u32
}

// The colouring of so many vertices with drawn edges, no edge twice. Where it is `planted`, no edge is drawn between two
// vertices with numbers that leave the same by three, so that there is a colouring.
pub(crate) fn drawn_colouring(
    alloc: Global,
    vertices: u32,
    count: usize,
    seed: u64,
    planted: bool,
) -> Result<Base, Fault> {
    let mut edges = Vec::new(alloc);
    let mut state = seed;
    let bound = vertices.max(1);
    for _ in 0..100_000 {
        let one = drawn(&mut state) % bound;
        let other = drawn(&mut state) % bound;
        let edge = (one.min(other), one.max(other));
        let is_fit = if planted {
            one % 3 != other % 3
        } else {
            one != other
        };
        if is_fit && edges.len() < count && !edges.contains(&edge) {
            edges.push(edge)?;
        }
    }
    colouring(alloc, vertices, edges.as_slice())
}
