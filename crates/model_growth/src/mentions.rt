// The axioms that mention a word.
use logic_terms::{Axiom, Axioms, Class, Classes};
use std::alloc::Global;
use std::collections::BTreeMap;
use wiki_base::Memory;

// For each word the places of the axioms that may become false when it gets an element or a pair, and of these by themselves
// those that only ask for pairs where a pair is.
#[derive(Drop)]
pub(crate) struct Mentions {
    alloc: Global,
    places: BTreeMap<u32, Vec<usize>>,
    leading: BTreeMap<u32, Vec<usize>>,
}

impl Mentions {
    pub(crate) fn new(alloc: Global, axioms: &Axioms) -> Result<Mentions, Memory> {
        let mut mentions = Mentions {
            alloc,
            places: BTreeMap::new(alloc),
            leading: BTreeMap::new(alloc),
        };
        for place in 0..axioms.len() {
            mentions.note(place, axioms.get(place))?;
        }
        Ok(mentions)
    }

    // The places of the axioms that mention a word, but for those that only ask for pairs.
    pub(crate) fn at(&self, word: u32) -> &[usize] {
        noted(&self.places, word)
    }

    // The places of the axioms that ask for pairs where this word has one.
    pub(crate) fn leading(&self, word: u32) -> &[usize] {
        noted(&self.leading, word)
    }

    fn note(&mut self, place: usize, axiom: &Axiom) -> Result<(), Memory> {
        match axiom {
            Axiom::SubClass(below, above) => {
                self.note_class(place, below)?;
                self.note_class(place, above)
            }
            Axiom::SubRole(below, _) => self.note_leading(place, below.id.0),
            Axiom::Member(class, _) => self.note_class(place, class),
            Axiom::Related(_, _, _) => Ok(()),
            Axiom::NotRelated(_, _, _) => Ok(()),
            Axiom::Equal(_, _) => Ok(()),
            Axiom::Differ(_, _) => Ok(()),
            Axiom::Transitive(word) => self.note_leading(place, word.0),
        }
    }

    #[cycle(noting)]
    fn note_class(&mut self, place: usize, class: &Class) -> Result<(), Memory> {
        match class {
            Class::Thing => Ok(()),
            Class::Named(word) => self.note_word(place, word.0),
            Class::Not(inner) => self.note_class(place, inner),
            Class::And(members) => self.note_classes(place, members),
            Class::Or(members) => self.note_classes(place, members),
            Class::Some(role, inner) => {
                self.note_word(place, role.id.0)?;
                self.note_class(place, inner)
            }
            Class::All(role, inner) => {
                self.note_word(place, role.id.0)?;
                self.note_class(place, inner)
            }
            Class::Value(role, _) => self.note_word(place, role.id.0),
        }
    }

    #[cycle(noting)]
    fn note_classes(&mut self, place: usize, classes: &Classes) -> Result<(), Memory> {
        for member in 0..classes.len() {
            self.note_class(place, classes.get(member))?;
        }
        Ok(())
    }

    fn note_word(&mut self, place: usize, word: u32) -> Result<(), Memory> {
        note(self.alloc, &mut self.places, place, word)
    }

    fn note_leading(&mut self, place: usize, word: u32) -> Result<(), Memory> {
        note(self.alloc, &mut self.leading, place, word)
    }
}

// The places of a word.
fn noted(places: &BTreeMap<u32, Vec<usize>>, word: u32) -> &[usize] {
    match places.get(&word) {
        Some(found) => found.as_slice(),
        None => &[],
    }
}

// Adds a place to those of a word.
fn note(
    alloc: Global,
    places: &mut BTreeMap<u32, Vec<usize>>,
    place: usize,
    word: u32,
) -> Result<(), Memory> {
    if let Some(found) = places.get_mut(&word) {
        found.push(place)?;
        return Ok(());
    }
    let mut made = Vec::new(alloc);
    made.push(place)?;
    let _ = places.insert(word, made)?;
    Ok(())
}
