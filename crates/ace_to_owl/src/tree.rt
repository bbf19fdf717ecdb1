// The class that a tree of members rolls up to.
ghost use Rattle.std.specs.Prelude.{◌≡◌, ◌==◌, ◌++◌, map, IfOk, OnOk, Some, None, if◌then◌else◌};
ghost use Rattle.std.specs.List.{list_any};
ghost use Rattle.logic_terms.specs.Concept.{SomeValuesFrom};
ghost use Rattle.logic_terms.specs.Shown.{concept_of, concepts_of};
ghost use Rattle.ace_to_owl.specs.Answers.{part_shown, option_shown, listed, Agrees};
ghost use Rattle.ace_to_owl.specs.Parts.{leads, part_at, class_at, class_of_tree, intersection};

use crate::fault::Fault;
use crate::graph::tree_fault;
use crate::part::Part;
use lists::List;
use logic_terms::{Class, Classes, Role};
use std::alloc::Global;
use wiki_base::Memory;

/// The class at the root of the tree that the parts make of it and the referents, or why they make none.
pub fn class_of_tree(alloc: Global, referents: &[u16], parts: &[Part]) -> Result<Class, Fault>
    ensures { Agrees concept_of result (class_of_tree referents.now (map part_shown parts.now)) }
{
    if let Some(cause) = tree_fault(alloc, referents, parts)? {
        return Err(Fault::Outside(cause));
    }
    let mut way = List::new(alloc);
    let class = class_at(alloc, parts, &mut way, 0, parts.len())?;
    Ok(class)
}

// The class at a member, with the members above it on the way from the root.
#[cycle(tree)]
fn class_at(
    alloc: Global,
    parts: &[Part],
    way: &mut List<u32>,
    node: u32,
    depth: usize,
) -> Result<Class, Memory>
    ensures class { IfOk result (λ class. concept_of class ≡ class_at depth (map part_shown parts.now) way.old node) }
    ensures kept { OnOk result (way.new ≡ way.old) }
{
    if depth == 0 {
        return Ok(Class::Thing);
    }
    way.push(node)?;
    let mut classes = Classes::new(alloc);
    for part in parts {
        let class = part_at(alloc, part, parts, way, node, depth - 1)?;
        push_some(&mut classes, class)?;
    }
    way.pop();
    Ok(intersection(classes))
}

// What a part gives at a member.
#[cycle(tree)]
fn part_at(
    alloc: Global,
    part: &Part,
    parts: &[Part],
    way: &mut List<u32>,
    node: u32,
    depth: usize,
) -> Result<Option<Class>, Memory>
    ensures class { IfOk result (λ class. option_shown concept_of class
        ≡ part_at (class_at depth (map part_shown parts.now) way.old) way.old node (part_shown part.now)) }
    ensures kept { OnOk result (way.new ≡ way.old) }
{
    match part {
        Part::At(at, class) => class_there(alloc, *at, node, class),
        Part::Edge(word, from, to) => {
            if leads(way, node, *from, *to) {
                let child = class_at(alloc, parts, way, *to, depth)?;
                some_value(
                    alloc,
                    Role {
                        id: *word,
                        inverted: false,
                    },
                    child,
                )
            } else if leads(way, node, *to, *from) {
                let child = class_at(alloc, parts, way, *from, depth)?;
                some_value(
                    alloc,
                    Role {
                        id: *word,
                        inverted: true,
                    },
                    child,
                )
            } else {
                Ok(None)
            }
        }
    }
}

fn class_there(alloc: Global, at: u32, node: u32, class: &Class) -> Result<Option<Class>, Memory>
    ensures { IfOk result (λ there. option_shown concept_of there ≡ (if at == node then Some (concept_of class.now) else None)) }
{
    if at == node {
        let copied = class.copy(alloc)?;
        Ok(Some(copied))
    } else {
        Ok(None)
    }
}

fn some_value(alloc: Global, role: Role, class: Class) -> Result<Option<Class>, Memory>
    ensures { IfOk result (λ some. option_shown concept_of some ≡ Some (SomeValuesFrom role (concept_of class))) }
{
    let boxed = Box::new(alloc, class)?;
    Ok(Some(Class::Some(role, boxed)))
}

// Whether an edge from one end to the other leads from a member to a child of it.
fn leads(way: &List<u32>, node: u32, here: u32, there: u32) -> bool
    ensures { result ≡ leads way.now node here there }
{
    here == node && !is_on(way, there)
}

fn is_on(way: &List<u32>, node: u32) -> bool
    ensures { result ≡ list_any (λ k. k == node) way.now }
{
    way.as_slice().iter().any(|above| *above == node)
}

fn push_some(classes: &mut Classes, class: Option<Class>) -> Result<(), Memory>
    ensures { OnOk result (concepts_of classes.new ≡ concepts_of classes.old ++ listed (option_shown concept_of class)) }
{
    match class {
        Some(class) => classes.push(class),
        None => Ok(()),
    }
}

// The intersection of classes.
fn intersection(classes: Classes) -> Class
    ensures { concept_of result ≡ intersection (concepts_of classes) }
{
    if classes.len() > 1 {
        return Class::And(classes);
    }
    let mut items = classes.into_vec();
    match items.pop() {
        Some(only) => only,
        None => Class::Thing,
    }
}
