// Axioms of each row of the table, made from a seed.
ghost use Rattle.std.specs.Prelude.{◌<◌};

use crate::classes::{all, inverse, not, some, straight, two};
use logic_terms::{Axiom, Class, Classes, Role};
use std::alloc::Global;
use std::test::Fail;
use wiki_base::WordId;

/// A row of the table: the shape of an axiom.
#[derive(Clone, Copy)]
pub enum Row {
    Member,
    MemberOfUnion,
    Related,
    NotRelated,
    Equal,
    Differ,
    NounInBasic,
    NounInIntersection,
    NounInUnion,
    ThingInBasic,
    ThingInIntersection,
    ThingInUnion,
    LedToInNoun,
    RoleInRole,
    RoleInInverse,
    Transitive,
}

pub static OF_NAMES: [Row; 6] = [
    Row::Member,
    Row::MemberOfUnion,
    Row::Related,
    Row::NotRelated,
    Row::Equal,
    Row::Differ,
];

pub static OF_NOUNS: [Row; 4] = [
    Row::NounInBasic,
    Row::NounInIntersection,
    Row::NounInUnion,
    Row::LedToInNoun,
];

pub static OF_EVERYTHING: [Row; 3] = [
    Row::ThingInBasic,
    Row::ThingInIntersection,
    Row::ThingInUnion,
];

pub static OF_RELATIONS: [Row; 3] = [Row::RoleInRole, Row::RoleInInverse, Row::Transitive];

/// Numbers that follow from a seed.
#[derive(Drop)]
pub struct Draws {
    pub state: u32,
}

impl Draws {
    /// The next number below a bound.
    pub fn below(&mut self, bound: u32) -> u32
        requires { 0 < bound }
        ensures { result < bound }
    {
        self.state = (self.state % 65_537 * 75 + 74) % 65_537;
        self.state % bound
    }

    fn name(&mut self) -> WordId {
        WordId(1 + self.below(3))
    }

    fn noun(&mut self) -> Class {
        Class::Named(WordId(4 + self.below(5)))
    }

    fn verb(&mut self) -> WordId {
        WordId(9 + self.below(3))
    }

    // A verb, an of-construct or an adjective, read straight.
    fn relation(&mut self) -> Role {
        straight(WordId(9 + self.below(7)))
    }

    // The same, or a verb that is inverted.
    fn role(&mut self) -> Role {
        if self.below(3) == 0 {
            inverse(self.verb())
        } else {
            self.relation()
        }
    }
}

// A class that may be said of a name.
fn attribute(alloc: Global, draws: &mut Draws) -> Result<Class, Fail> {
    match draws.below(4) {
        0 => Ok(draws.noun()),
        1 => not(alloc, draws.noun()),
        2 => some(alloc, draws.role(), draws.noun()),
        _ => some(alloc, draws.role(), Class::Thing),
    }
}

// A basic class.
fn basic(alloc: Global, draws: &mut Draws) -> Result<Class, Fail> {
    match draws.below(5) {
        0 => Ok(Class::Value(draws.role(), draws.name())),
        1 => not(alloc, Class::Value(draws.role(), draws.name())),
        2 => all(alloc, straight(draws.verb()), draws.noun()),
        _ => attribute(alloc, draws),
    }
}

// An intersection of two or three basic classes.
fn joint(alloc: Global, draws: &mut Draws) -> Result<Class, Fail> {
    let mut members = Classes::new(alloc);
    for _ in 0..2 + draws.below(2) {
        members.push(basic(alloc, draws)?)?;
    }
    Ok(Class::And(members))
}

fn basic_or_joint(alloc: Global, draws: &mut Draws) -> Result<Class, Fail> {
    if draws.below(2) == 0 {
        basic(alloc, draws)
    } else {
        joint(alloc, draws)
    }
}

// A union of two such classes.
fn union(alloc: Global, draws: &mut Draws) -> Result<Class, Fail> {
    let one = basic_or_joint(alloc, draws)?;
    let other = basic_or_joint(alloc, draws)?;
    Ok(Class::Or(two(alloc, one, other)?))
}

// A union of two classes that may be said of a name.
fn choice(alloc: Global, draws: &mut Draws) -> Result<Class, Fail> {
    let one = attribute(alloc, draws)?;
    let other = attribute(alloc, draws)?;
    Ok(Class::Or(two(alloc, one, other)?))
}

fn of_names(draws: &mut Draws, row: Row) -> Axiom {
    match row {
        Row::Related => Axiom::Related(draws.relation(), draws.name(), draws.name()),
        Row::NotRelated => Axiom::NotRelated(draws.relation(), draws.name(), draws.name()),
        Row::Equal => Axiom::Equal(draws.name(), draws.name()),
        _ => Axiom::Differ(draws.name(), draws.name()),
    }
}

fn of_roles(draws: &mut Draws, row: Row) -> Axiom {
    match row {
        Row::RoleInRole => Axiom::SubRole(draws.relation(), draws.relation()),
        Row::RoleInInverse => Axiom::SubRole(draws.relation(), draws.relation().inverse()),
        _ => Axiom::Transitive(draws.relation().id),
    }
}

// The class on the right of an inclusion.
fn above(alloc: Global, draws: &mut Draws, row: Row) -> Result<Class, Fail> {
    match row {
        Row::NounInBasic | Row::ThingInBasic => basic(alloc, draws),
        Row::NounInIntersection | Row::ThingInIntersection => joint(alloc, draws),
        Row::NounInUnion | Row::ThingInUnion => union(alloc, draws),
        _ => Ok(draws.noun()),
    }
}

// The class on the left of an inclusion.
fn below(draws: &mut Draws, row: Row) -> Class {
    match row {
        Row::NounInBasic | Row::NounInIntersection | Row::NounInUnion => draws.noun(),
        Row::ThingInBasic | Row::ThingInIntersection | Row::ThingInUnion => Class::Thing,
        _ => Class::Value(inverse(draws.verb()), draws.name()),
    }
}

fn inclusion(alloc: Global, draws: &mut Draws, row: Row) -> Result<Axiom, Fail> {
    let above = above(alloc, draws, row)?;
    Ok(Axiom::SubClass(below(draws, row), above))
}

fn member(alloc: Global, draws: &mut Draws, row: Row) -> Result<Axiom, Fail> {
    let class = match row {
        Row::Member => attribute(alloc, draws)?,
        _ => choice(alloc, draws)?,
    };
    Ok(Axiom::Member(class, draws.name()))
}

/// An axiom of a row of the table.
pub fn axiom_of(alloc: Global, draws: &mut Draws, row: Row) -> Result<Axiom, Fail> {
    match row {
        Row::Member | Row::MemberOfUnion => member(alloc, draws, row),
        Row::Related | Row::NotRelated | Row::Equal | Row::Differ => Ok(of_names(draws, row)),
        Row::RoleInRole | Row::RoleInInverse | Row::Transitive => Ok(of_roles(draws, row)),
        _ => inclusion(alloc, draws, row),
    }
}
