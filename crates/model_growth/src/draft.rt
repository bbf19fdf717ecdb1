// An interpretation, and what it gets more of.
use logic_terms::{Class, Classes, Role};
use owl_eval::Interp;
use std::alloc::Global;
use std::collections::{BTreeMap, BTreeSet};
use std::mem;
use wiki_base::{Memory, WordId};

// How many pairs may be looked at to make relation words transitive.
const MOST_PAIRS: u64 = 2_000_000;

// Where pairs begin: a relation word, whether its pairs are read backwards, and an element.
#[derive(Clone, Copy, Debug, PartialEq, Eq, PartialOrd, Ord)]
struct Origin {
    word: u32,
    inverted: bool,
    element: u64,
}

// A pair that a relation word got.
#[derive(Clone, Copy, Debug, PartialEq, Eq)]
pub(crate) struct Pair {
    pub(crate) word: u32,
    pub(crate) from: u64,
    pub(crate) to: u64,
    // Whether steps by other pairs of the word lead from the one element to the other.
    pub(crate) is_led: bool,
}

#[derive(Drop)]
pub(crate) struct Draft<'a> {
    alloc: Global,
    interp: &'a Interp,
    // Class words with the elements that they got.
    members: BTreeSet<(u32, u64)>,
    // Relation words with the pairs that they got.
    pairs: BTreeSet<(u32, u64, u64)>,
    // The elements at the other end of these.
    ends: BTreeMap<Origin, Vec<u64>>,
    // The words that got an element or a pair, and the pairs, since they were last taken.
    grown: BTreeSet<u32>,
    fresh: Vec<Pair>,
    // How many pairs may still be looked at.
    left: u64,
}

impl<'a> Draft<'a> {
    // The interpretation as it is.
    pub(crate) fn new(alloc: Global, interp: &'a Interp) -> Draft<'a> {
        Draft {
            alloc,
            interp,
            members: BTreeSet::new(alloc),
            pairs: BTreeSet::new(alloc),
            ends: BTreeMap::new(alloc),
            grown: BTreeSet::new(alloc),
            fresh: Vec::new(alloc),
            left: MOST_PAIRS,
        }
    }

    pub(crate) fn size(&self) -> u64 {
        self.interp.size()
    }

    // The words that got an element or a pair since they were last taken.
    pub(crate) fn take_grown(&mut self) -> BTreeSet<u32> {
        mem::replace(&mut self.grown, BTreeSet::new(self.alloc))
    }

    // A pair that wasn't taken yet.
    pub(crate) fn take_fresh(&mut self) -> Option<Pair> {
        self.fresh.pop()
    }

    // The element of a name; 0 where it has none.
    pub(crate) fn element(&self, name: WordId) -> u64 {
        self.interp.element(name)
    }

    // The elements to which an element got related by a role.
    fn new_ends(&self, role: Role, element: u64) -> &[u64] {
        let origin = Origin {
            word: role.id.0,
            inverted: role.inverted,
            element,
        };
        match self.ends.get(&origin) {
            Some(ends) => ends.as_slice(),
            None => &[],
        }
    }

    // All elements to which an element is related by a role.
    fn ends(&self, role: Role, element: u64) -> Result<Vec<u64>, Memory> {
        let mut ends = Vec::from_slice(self.alloc, self.new_ends(role, element))?;
        for pair in self.interp.successors(role, element) {
            ends.push(pair.1)?;
        }
        Ok(ends)
    }

    fn has_pair(&self, word: u32, from: u64, to: u64) -> bool {
        self.pairs.contains(&(word, from, to)) || self.interp.has_pair(WordId(word), from, to)
    }

    fn relates(&self, role: Role, from: u64, to: u64) -> bool {
        if role.inverted {
            self.has_pair(role.id.0, to, from)
        } else {
            self.has_pair(role.id.0, from, to)
        }
    }

    fn has_element(&self, word: u32, element: u64) -> bool {
        self.members.contains(&(word, element)) || self.interp.has_element(WordId(word), element)
    }

    // Whether an element is in a class.
    #[cycle(reading)]
    pub(crate) fn has(&self, class: &Class, element: u64) -> bool {
        match class {
            Class::Thing => true,
            Class::Named(word) => self.has_element(word.0, element),
            Class::Not(inner) => !self.has(inner, element),
            Class::And(members) => self.has_each(members, element),
            Class::Or(members) => self.has_some(members, element),
            Class::Some(role, inner) => {
                self.has_end(inner, self.interp.successors(*role, element))
                    || self.has_new_end(inner, self.new_ends(*role, element))
            }
            Class::All(role, inner) => {
                self.has_ends(inner, self.interp.successors(*role, element))
                    && self.has_new_ends(inner, self.new_ends(*role, element))
            }
            Class::Value(role, name) => self.relates(*role, element, self.element(*name)),
        }
    }

    #[cycle(reading)]
    fn has_each(&self, classes: &Classes, element: u64) -> bool {
        for place in 0..classes.len() {
            if !self.has(classes.get(place), element) {
                return false;
            }
        }
        true
    }

    #[cycle(reading)]
    fn has_some(&self, classes: &Classes, element: u64) -> bool {
        for place in 0..classes.len() {
            if self.has(classes.get(place), element) {
                return true;
            }
        }
        false
    }

    // Whether one of these pairs ends in a class.
    #[cycle(reading)]
    fn has_end(&self, class: &Class, pairs: &[(u64, u64)]) -> bool {
        for pair in pairs {
            if self.has(class, pair.1) {
                return true;
            }
        }
        false
    }

    // Whether one of these elements is in a class.
    #[cycle(reading)]
    fn has_new_end(&self, class: &Class, elements: &[u64]) -> bool {
        for element in elements {
            if self.has(class, *element) {
                return true;
            }
        }
        false
    }

    // Whether each of these pairs ends in a class.
    #[cycle(reading)]
    fn has_ends(&self, class: &Class, pairs: &[(u64, u64)]) -> bool {
        for pair in pairs {
            if !self.has(class, pair.1) {
                return false;
            }
        }
        true
    }

    // Whether each of these elements is in a class.
    #[cycle(reading)]
    fn has_new_ends(&self, class: &Class, elements: &[u64]) -> bool {
        for element in elements {
            if !self.has(class, *element) {
                return false;
            }
        }
        true
    }

    // Puts an element into a class, as far as more elements of words and more pairs do that in one way alone. Answers whether
    // they do.
    #[cycle(making)]
    pub(crate) fn put(&mut self, class: &Class, element: u64) -> Result<bool, Memory> {
        match class {
            Class::Thing => Ok(true),
            Class::Named(word) => {
                self.join(word.0, element)?;
                Ok(true)
            }
            Class::And(members) => self.put_each(members, element),
            Class::All(role, inner) => self.put_ends(*role, inner, element),
            Class::Value(role, name) => {
                let end = self.element(*name);
                self.relate(*role, element, end)?;
                Ok(true)
            }
            Class::Not(_) => Ok(self.has(class, element)),
            Class::Or(_) => Ok(self.has(class, element)),
            Class::Some(_, _) => Ok(self.has(class, element)),
        }
    }

    #[cycle(making)]
    fn put_each(&mut self, classes: &Classes, element: u64) -> Result<bool, Memory> {
        for place in 0..classes.len() {
            if !self.put(classes.get(place), element)? {
                return Ok(false);
            }
        }
        Ok(true)
    }

    // Puts the elements to which an element is related by a role into a class.
    #[cycle(making)]
    fn put_ends(&mut self, role: Role, class: &Class, element: u64) -> Result<bool, Memory> {
        let ends = self.ends(role, element)?;
        for end in &ends {
            if !self.put(class, *end)? {
                return Ok(false);
            }
        }
        Ok(true)
    }

    // Gives a class word an element.
    fn join(&mut self, word: u32, element: u64) -> Result<(), Memory> {
        if self.has_element(word, element) {
            return Ok(());
        }
        let _ = self.members.insert((word, element))?;
        let _ = self.grown.insert(word)?;
        Ok(())
    }

    // Relates two elements by a role.
    pub(crate) fn relate(&mut self, role: Role, from: u64, to: u64) -> Result<(), Memory> {
        let (from, to) = if role.inverted {
            (to, from)
        } else {
            (from, to)
        };
        self.link(Pair {
            word: role.id.0,
            from,
            to,
            is_led: false,
        })
    }

    // Relates the elements of each pair of one role by another.
    pub(crate) fn include(&mut self, below: Role, above: Role) -> Result<(), Memory> {
        let pairs = self.pairs_of(below)?;
        for pair in &pairs {
            self.relate(above, pair.0, pair.1)?;
        }
        Ok(())
    }

    // Makes a relation word transitive, if that isn't too much. Answers whether it is not.
    pub(crate) fn close(&mut self, word: WordId) -> Result<bool, Memory> {
        let pairs = self.pairs_of(straight(word.0))?;
        for pair in &pairs {
            if !self.lead(word.0, pair.0, pair.1)? {
                return Ok(false);
            }
        }
        Ok(true)
    }

    // All pairs of a role.
    fn pairs_of(&self, role: Role) -> Result<Vec<(u64, u64)>, Memory> {
        let mut pairs = Vec::new(self.alloc);
        for from in 0..self.size() {
            let ends = self.ends(role, from)?;
            for to in &ends {
                pairs.push((from, *to))?;
            }
        }
        Ok(pairs)
    }

    // Adds the pairs that a pair of a transitive relation word leads to by steps, if these aren't too many. Answers whether they
    // are not.
    pub(crate) fn lead(&mut self, word: u32, from: u64, to: u64) -> Result<bool, Memory> {
        let mut starts = self.ends(straight(word).inverse(), from)?;
        starts.push(from)?;
        let mut ends = self.ends(straight(word), to)?;
        ends.push(to)?;
        let count = (starts.len() as u64).saturating_mul(ends.len() as u64);
        if count > self.left {
            return Ok(false);
        }
        self.left = self.left.saturating_sub(count);
        for start in &starts {
            for end in &ends {
                self.link(Pair {
                    word,
                    from: *start,
                    to: *end,
                    is_led: true,
                })?;
            }
        }
        Ok(true)
    }

    // Gives a relation word a pair.
    fn link(&mut self, pair: Pair) -> Result<(), Memory> {
        let Pair {
            word,
            from,
            to,
            is_led: _,
        } = pair;
        if self.has_pair(word, from, to) {
            return Ok(());
        }
        let _ = self.pairs.insert((word, from, to))?;
        self.note_end(straight(word), from, to)?;
        self.note_end(straight(word).inverse(), to, from)?;
        let _ = self.grown.insert(word)?;
        self.fresh.push(pair)?;
        Ok(())
    }

    fn note_end(&mut self, role: Role, element: u64, end: u64) -> Result<(), Memory> {
        let origin = Origin {
            word: role.id.0,
            inverted: role.inverted,
            element,
        };
        if let Some(ends) = self.ends.get_mut(&origin) {
            ends.push(end)?;
            return Ok(());
        }
        let mut ends = Vec::new(self.alloc);
        ends.push(end)?;
        let _ = self.ends.insert(origin, ends)?;
        Ok(())
    }

    // The interpretation with all that it got.
    pub(crate) fn finished(&self) -> Result<Option<Interp>, Memory> {
        let size = self.interp.size();
        let names = Vec::from_slice(self.alloc, self.interp.names())?;
        let classes = self.class_elements()?;
        let relations = self.relation_pairs()?;
        if !Interp::fits(
            size,
            names.as_slice(),
            classes.as_slice(),
            relations.as_slice(),
        ) {
            return Ok(None);
        }
        let interp = Interp::new(self.alloc, size, names, classes, relations)?;
        Ok(Some(interp))
    }

    fn class_elements(&self) -> Result<Vec<(WordId, Vec<u64>)>, Memory> {
        let mut lists = BTreeMap::new(self.alloc);
        for place in 0..self.interp.class_count() {
            let (word, elements) = self.interp.class_at(place);
            let _ = lists.insert(word.0, Vec::from_slice(self.alloc, elements)?)?;
        }
        for member in self.members.iter() {
            add(self.alloc, &mut lists, member.0, member.1)?;
        }
        in_order(self.alloc, lists)
    }

    // The pairs of each relation word, in rising order.
    fn relation_pairs(&self) -> Result<Vec<(WordId, Vec<(u64, u64)>)>, Memory> {
        let mut lists = BTreeMap::new(self.alloc);
        for pair in self.pairs.iter() {
            add(self.alloc, &mut lists, pair.0, (pair.1, pair.2))?;
        }
        for place in 0..self.interp.relation_count() {
            let (word, pairs) = self.interp.relation_at(place);
            let more = lists.remove(&word.0).unwrap_or(Vec::new(self.alloc));
            let all = merged(self.alloc, pairs, more.as_slice())?;
            let _ = lists.insert(word.0, all)?;
        }
        in_order(self.alloc, lists)
    }
}

// Two lists of pairs in rising order as one.
fn merged(
    alloc: Global,
    pairs: &[(u64, u64)],
    more: &[(u64, u64)],
) -> Result<Vec<(u64, u64)>, Memory> {
    let mut made = Vec::new(alloc);
    let mut next = 0;
    for pair in pairs {
        next = push_below(&mut made, more, next, *pair)?;
        made.push(*pair)?;
    }
    for place in next..more.len() {
        made.push(more[place])?;
    }
    Ok(made)
}

// Adds pairs from a place on that are below one, and answers where the others begin.
fn push_below(
    made: &mut Vec<(u64, u64)>,
    more: &[(u64, u64)],
    start: usize,
    bound: (u64, u64),
) -> Result<usize, Memory> {
    for place in start..more.len() {
        if more[place] >= bound {
            return Ok(place);
        }
        made.push(more[place])?;
    }
    Ok(more.len())
}

// The role of a relation word that isn't inverted.
fn straight(word: u32) -> Role {
    Role {
        id: WordId(word),
        inverted: false,
    }
}

// Adds an item to the list of a word.
fn add<T: Drop>(
    alloc: Global,
    lists: &mut BTreeMap<u32, Vec<T>>,
    word: u32,
    item: T,
) -> Result<(), Memory> {
    if let Some(items) = lists.get_mut(&word) {
        items.push(item)?;
        return Ok(());
    }
    let mut items = Vec::new(alloc);
    items.push(item)?;
    let _ = lists.insert(word, items)?;
    Ok(())
}

// The lists of words in order.
fn in_order<T: Drop>(
    alloc: Global,
    lists: BTreeMap<u32, Vec<T>>,
) -> Result<Vec<(WordId, Vec<T>)>, Memory> {
    let mut made = Vec::new(alloc);
    for (word, items) in lists {
        made.push((WordId(word), items))?;
    }
    Ok(made)
}
