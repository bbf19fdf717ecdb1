// The interpretation of a search that ended.
use crate::graph::{Graph, Link};
use crate::rules::Rules;
use crate::terms::{Form, Way};
use logic_terms::Knowledge;
use owl_eval::Interp;
use std::alloc::Global;
use std::collections::{BTreeMap, BTreeSet};
use wiki_base::{Memory, WordId};

// How many pairs an interpretation may have.
const MOST_PAIRS: usize = 1_000_000;

// The elements of the nodes that edges lead to from those of names.
#[derive(Drop)]
struct Places {
    alloc: Global,
    elements: BTreeMap<usize, u64>,
    nodes: Vec<usize>,
}

impl Places {
    fn put(&mut self, node: usize) -> Result<u64, Memory> {
        if let Some(element) = self.elements.get(&node) {
            return Ok(*element);
        }
        let element = self.nodes.len() as u64;
        let _ = self.elements.insert(node, element)?;
        self.nodes.push(node)?;
        Ok(element)
    }
}

impl Graph {
    // The interpretation whose elements are the names' nodes and those that live edges lead to.
    pub(crate) fn drawn(&self, rules: &Rules, k: &Knowledge) -> Result<Option<Interp>, Memory> {
        let places = self.places(rules)?;
        let classes = self.members(rules, &places)?;
        let Some(relations) = self.pairs(rules, k, &places)? else {
            return Ok(None);
        };
        let mut names = Vec::new(self.alloc);
        for entry in k.names() {
            names.push((entry.0, rules.node(entry.0.0) as u64))?;
        }
        let size = places.nodes.len() as u64;
        if !Interp::fits(
            size,
            names.as_slice(),
            classes.as_slice(),
            relations.as_slice(),
        ) {
            return Ok(None);
        }
        let interp = Interp::new(self.alloc, size, names, classes, relations)?;
        Ok(Some(interp))
    }

    fn places(&self, rules: &Rules) -> Result<Places, Memory> {
        let mut places = Places {
            alloc: self.alloc,
            elements: BTreeMap::new(self.alloc),
            nodes: Vec::new(self.alloc),
        };
        for node in 0..rules.roots {
            let _ = places.put(node)?;
        }
        for place in 0..self.nodes.len() {
            if let Some(node) = places.nodes.get(place).copied() {
                for edge in self.outgoing(node) {
                    if let Some(link) = self.link(*edge) {
                        let _ = places.put(link.to)?;
                    }
                }
            }
        }
        Ok(places)
    }

    // The elements of each class word.
    fn members(&self, rules: &Rules, places: &Places) -> Result<Vec<(WordId, Vec<u64>)>, Memory> {
        let mut lists = BTreeMap::new(self.alloc);
        for (element, node) in places.nodes.iter().enumerate() {
            if let Some(spot) = self.nodes.get(*node) {
                for number in &spot.label {
                    if let Form::Named(word) = rules.terms.form(*number) {
                        add(self.alloc, &mut lists, word, element as u64)?;
                    }
                }
            }
        }
        in_order(self.alloc, lists)
    }

    // The pairs of each relation word, if they are not too many.
    fn pairs(
        &self,
        rules: &Rules,
        k: &Knowledge,
        places: &Places,
    ) -> Result<Option<Vec<(WordId, Vec<(u64, u64)>)>>, Memory> {
        let mut pairs = BTreeSet::new(self.alloc);
        for node in &places.nodes {
            for edge in self.outgoing(*node) {
                if let Some(link) = self.link(*edge) {
                    add_link(&mut pairs, rules, places, link)?;
                }
            }
        }
        for word in k.transitive() {
            if !lead_on(&mut pairs, rules, self.alloc, word.0)? {
                return Ok(None);
            }
        }
        let mut lists = BTreeMap::new(self.alloc);
        for pair in pairs.iter() {
            add(self.alloc, &mut lists, pair.0, (pair.1, pair.2))?;
        }
        Ok(Some(in_order(self.alloc, lists)?))
    }
}

// Adds the pairs of an edge.
fn add_link(
    pairs: &mut BTreeSet<(u32, u64, u64)>,
    rules: &Rules,
    places: &Places,
    link: Link,
) -> Result<(), Memory> {
    let Some(from) = places.elements.get(&link.from).copied() else {
        return Ok(());
    };
    let Some(to) = places.elements.get(&link.to).copied() else {
        return Ok(());
    };
    add_pair(pairs, link.way, from, to)?;
    for way in rules.above(link.way) {
        add_pair(pairs, *way, from, to)?;
    }
    Ok(())
}

fn add_pair(
    pairs: &mut BTreeSet<(u32, u64, u64)>,
    way: Way,
    from: u64,
    to: u64,
) -> Result<(), Memory> {
    let pair = if way.inverted {
        (way.word, to, from)
    } else {
        (way.word, from, to)
    };
    let _ = pairs.insert(pair)?;
    Ok(())
}

// Adds the pairs to which steps by a transitive word lead, and those of the roles above, if there are not too many.
fn lead_on(
    pairs: &mut BTreeSet<(u32, u64, u64)>,
    rules: &Rules,
    alloc: Global,
    word: u32,
) -> Result<bool, Memory> {
    let mut ends = BTreeMap::new(alloc);
    for pair in pairs.iter() {
        if pair.0 == word {
            add_end(alloc, &mut ends, pair.1, pair.2)?;
        }
    }
    let way = Way {
        word,
        inverted: false,
    };
    for start in ends.keys() {
        let reached = reached(alloc, &ends, *start)?;
        if pairs.len().saturating_add(reached.len()) > MOST_PAIRS {
            return Ok(false);
        }
        for end in reached.iter() {
            add_pair(pairs, way, *start, *end)?;
            for above in rules.above(way) {
                add_pair(pairs, *above, *start, *end)?;
            }
        }
    }
    Ok(true)
}

fn add_end(
    alloc: Global,
    ends: &mut BTreeMap<u64, Vec<u64>>,
    from: u64,
    to: u64,
) -> Result<(), Memory> {
    if let Some(known) = ends.get_mut(&from) {
        known.push(to)?;
        return Ok(());
    }
    let mut made = Vec::new(alloc);
    made.push(to)?;
    let _ = ends.insert(from, made)?;
    Ok(())
}

// The elements to which one or more steps lead.
fn reached(
    alloc: Global,
    ends: &BTreeMap<u64, Vec<u64>>,
    start: u64,
) -> Result<BTreeSet<u64>, Memory> {
    let mut found = BTreeSet::new(alloc);
    let mut waiting = Vec::new(alloc);
    waiting.push(start)?;
    for _ in 0..MOST_PAIRS {
        let Some(at) = waiting.pop() else {
            return Ok(found);
        };
        if let Some(next) = ends.get(&at) {
            for end in next {
                if found.insert(*end)? {
                    waiting.push(*end)?;
                }
            }
        }
    }
    Ok(found)
}

// Adds an item to the list of a word.
fn add<T: Drop>(
    alloc: Global,
    lists: &mut BTreeMap<u32, Vec<T>>,
    word: u32,
    item: T,
) -> Result<(), Memory> {
    if let Some(items) = lists.get_mut(&word) {
        items.push(item)?;
        return Ok(());
    }
    let mut items = Vec::new(alloc);
    items.push(item)?;
    let _ = lists.insert(word, items)?;
    Ok(())
}

// The lists of words in order.
fn in_order<T: Drop>(
    alloc: Global,
    lists: BTreeMap<u32, Vec<T>>,
) -> Result<Vec<(WordId, Vec<T>)>, Memory> {
    let mut made = Vec::new(alloc);
    for (word, items) in lists {
        made.push((WordId(word), items))?;
    }
    Ok(made)
}
