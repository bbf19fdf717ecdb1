// What clashes teach: facts that can't all hold, with what they rest on.
use crate::graph::{Fact, Graph};
use crate::rules::Rules;
use std::alloc::Global;
use std::collections::BTreeMap;
use wiki_base::Memory;

const BITS: usize = 64;

// A set of places of axioms.
#[derive(Drop)]
pub(crate) struct Sources {
    bits: Vec<u64>,
}

impl Sources {
    // The empty set of places below a number.
    pub(crate) fn new(alloc: Global, count: usize) -> Result<Sources, Memory> {
        let mut bits = Vec::new(alloc);
        for _ in 0..(count / BITS).saturating_add(1) {
            bits.push(0)?;
        }
        Ok(Sources { bits })
    }

    pub(crate) fn add(&mut self, place: usize) {
        if let Some(word) = self.bits.get_mut(place / BITS) {
            *word |= 1 << (place % BITS);
        }
    }

    pub(crate) fn remove(&mut self, place: usize) {
        if let Some(word) = self.bits.get_mut(place / BITS) {
            *word &= !(1 << (place % BITS));
        }
    }

    pub(crate) fn add_all(&mut self, more: &Sources) {
        for (word, other) in self.bits.iter_mut().zip(more.bits.iter()) {
            *word |= *other;
        }
    }

    // The places that it has below a number, in order.
    pub(crate) fn places(&self, alloc: Global, count: usize) -> Result<Vec<usize>, Memory> {
        let mut places = Vec::new(alloc);
        for place in 0..count {
            if self.has(place) {
                places.push(place)?;
            }
        }
        Ok(places)
    }

    pub(crate) fn has(&self, place: usize) -> bool {
        match self.bits.get(place / BITS) {
            Some(word) => (*word >> (place % BITS)) & 1 == 1,
            None => false,
        }
    }
}

// Facts that can't all hold where those behind them do, which came before any choice. The first two are watched.
#[derive(Drop)]
pub(crate) struct Lesson {
    pub(crate) facts: Vec<Fact>,
    pub(crate) grounds: Vec<Fact>,
    pub(crate) sources: Sources,
}

#[derive(Drop)]
pub(crate) struct Lessons {
    alloc: Global,
    pub(crate) list: Vec<Lesson>,
    watched: BTreeMap<Fact, Vec<usize>>,
}

// What a fact that came makes of a lesson.
#[derive(Clone, Copy, Debug, PartialEq, Eq)]
pub(crate) enum Heed {
    // Another fact is watched in its place.
    Moved,
    // Nothing follows.
    Kept,
    // This one, the last that is left, can't hold.
    Denies(Fact),
}

impl Lessons {
    pub(crate) fn new(alloc: Global) -> Lessons {
        Lessons {
            alloc,
            list: Vec::new(alloc),
            watched: BTreeMap::new(alloc),
        }
    }

    pub(crate) fn put(&mut self, lesson: Lesson) -> Result<usize, Memory> {
        let number = self.list.len();
        if lesson.facts.len() > 1 {
            for place in 0..2 {
                if let Some(fact) = lesson.facts.get(place).copied() {
                    self.watch(fact, number)?;
                }
            }
        }
        self.list.push(lesson)?;
        Ok(number)
    }

    fn watch(&mut self, fact: Fact, number: usize) -> Result<(), Memory> {
        if let Some(numbers) = self.watched.get_mut(&fact) {
            numbers.push(number)?;
            return Ok(());
        }
        let mut numbers = Vec::new(self.alloc);
        numbers.push(number)?;
        let _ = self.watched.insert(fact, numbers)?;
        Ok(())
    }

    // How many lessons watch a fact.
    pub(crate) fn count(&self, fact: Fact) -> usize {
        match self.watched.get(&fact) {
            Some(numbers) => numbers.len(),
            None => 0,
        }
    }

    // One of those that watch a fact.
    pub(crate) fn watching(&self, fact: Fact, place: usize) -> Option<usize> {
        match self.watched.get(&fact) {
            Some(numbers) => numbers.get(place).copied(),
            None => None,
        }
    }

    // What a fact that came makes of the lesson at a place of those that watch it.
    pub(crate) fn heed(
        &mut self,
        graph: &Graph,
        rules: &Rules,
        fact: Fact,
        place: usize,
    ) -> Result<Heed, Memory> {
        let Some(number) = self.watching(fact, place) else {
            return Ok(Heed::Kept);
        };
        let Some(lesson) = self.list.get_mut(number) else {
            return Ok(Heed::Kept);
        };
        let Some(other) = lesson.beside(fact) else {
            return Ok(Heed::Kept);
        };
        if graph.is_false(rules, other) {
            return Ok(Heed::Kept);
        }
        let Some(next) = lesson.move_watch(graph, fact) else {
            return Ok(Heed::Denies(other));
        };
        if let Some(numbers) = self.watched.get_mut(&fact) {
            if place < numbers.len() {
                let _ = numbers.swap_remove(place);
            }
        }
        self.watch(next, number)?;
        Ok(Heed::Moved)
    }
}

impl Lesson {
    // The other fact that is watched.
    fn beside(&self, fact: Fact) -> Option<Fact> {
        let first = self.facts.first().copied();
        if first == Some(fact) {
            return self.facts.get(1).copied();
        }
        first
    }

    // Watches, in place of a fact, one that doesn't hold, if there is one, and answers it.
    fn move_watch(&mut self, graph: &Graph, fact: Fact) -> Option<Fact> {
        let from = if self.facts.first() == Some(&fact) {
            0
        } else {
            1
        };
        for place in 2..self.facts.len() {
            if let Some(next) = self.facts.get(place).copied() {
                if graph.came(next) == 0 {
                    self.facts.swap(from, place);
                    return Some(next);
                }
            }
        }
        None
    }
}

impl Graph {
    // Whether a fact is denied.
    pub(crate) fn is_false(&self, rules: &Rules, fact: Fact) -> bool {
        match fact {
            Fact::Class(node, number) => self.is_denied(rules, node, number),
            Fact::Shared(offer) => self.came(Fact::Refused(offer)) > 0,
            _ => false,
        }
    }
}
