// What the features of a grammar have as values: sets of atoms, and classes of features with the same values.
ghost use Rattle.std.specs.Prelude.{◌≡◌, ◌&&◌, ◌<◌, ℕ, [], ◌∷◌, length, map, false, slice_index_or, replicate, IfOk};
ghost use Rattle.std.specs.List.{list_all};
ghost use Rattle.codeco_terms.specs.declared.declarations.Declared.TheVariants as declared;
ghost use Rattle.codeco_checked.specs.Faults as faults;
ghost use Rattle.codeco_checked.specs.Numbering.{declared_atoms, has};
ghost use Rattle.codeco_late_faults.specs.Marks.{marked};
ghost use Rattle.codeco_late_faults.specs.Tables as tables;

use codeco_terms::{Declared, Feature, Grammar, Term, Value};
use std::alloc::Global;
use std::marker::Model;
use wiki_base::Memory;

// A set of atoms.
#[derive(Drop)]
pub(crate) struct AtomSet {
    marks: Vec<bool>,
}

impl Model for AtomSet {
    ghost use Rattle.std.specs.Prelude.{List, Bool};

    ghost Value = { List Bool };

    ghost view = { λ a. a.marks.items };
}

impl AtomSet {
    // The set without atoms, with room for those below this number.
    fn new(alloc: Global, room: usize) -> Result<AtomSet, Memory>
        ensures { IfOk result (λ set. set ≡ replicate room false) }
    {
        Ok(AtomSet {
            marks: vec![in alloc; false; room]?,
        })
    }

    // Whether the atom is in the set.
    fn has(&self, atom: u16) -> bool
        ensures { result ≡ slice_index_or self.now atom false }
    {
        let place = atom as usize;
        place < self.marks.len() && self.marks[place]
    }

    // Puts the atoms in, as far as there is room.
    fn extend(&mut self, atoms: &[u16])
        ensures { self.new ≡ marked self.old atoms.now }
    {
        for atom in atoms {
            self.put(*atom);
        }
    }

    fn put(&mut self, atom: u16)
        ensures { self.new ≡ marked self.old (atom ∷ []) }
    {
        let place = atom as usize;
        if place < self.marks.len() {
            self.marks[place] = true;
        }
    }

    // Whether all of the atoms are in the set.
    fn has_all(&self, atoms: &[u16]) -> bool
        ensures { result ≡ list_all (λ a. slice_index_or self.now a false) atoms.now }
    {
        atoms.iter().all(|atom| self.has(*atom))
    }
}

// The atoms of a declaration as a set.
fn atom_set(alloc: Global, declared: &Declared, room: usize) -> Result<AtomSet, Memory>
    ensures { IfOk result (λ set. set ≡ marked (replicate room false) (declared_atoms declared.now)) }
{
    let mut set = AtomSet::new(alloc, room)?;
    if let Declared::Atoms(atoms) = declared {
        set.extend(atoms.as_slice());
    }
    Ok(set)
}

// The atoms of each feature as a set.
fn atom_sets(alloc: Global, features: &[Feature], room: usize) -> Result<Vec<AtomSet>, Memory>
    ensures { IfOk result (λ sets. sets.items ≡ map (λ x. marked (replicate room false) (declared_atoms x.declared)) features.now) }
{
    let mut sets = Vec::new(alloc);
    for feature in features {
        sets.push(atom_set(alloc, &feature.declared, room)?)?;
    }
    Ok(sets)
}

// Whether two declarations have the same values.
fn same_values(declared: &Declared, set: &AtomSet, other: &Declared, other_set: &AtomSet) -> bool
    requires holds { tables.HoldsAtoms set.now declared.now }
    requires other_holds { tables.HoldsAtoms other_set.now other.now }
    ensures { result ≡ faults.same_values declared.now other.now }
{
    match (declared, other) {
        (Declared::Undeclared, Declared::Undeclared)
        | (Declared::Words, Declared::Words)
        | (Declared::Positions, Declared::Positions) => true,
        (Declared::Atoms(atoms), Declared::Atoms(others)) => {
            other_set.has_all(atoms.as_slice()) && set.has_all(others.as_slice())
        }
        _ => false,
    }
}

// The number of the first feature with the values of this declaration, or how many features there are.
fn class_of(features: &[Feature], sets: &[AtomSet], declared: &Declared, set: &AtomSet) -> usize
    requires sets { tables.AreSets features.now sets.now }
    requires room { length sets.now ≡ length features.now }
    requires holds { tables.HoldsAtoms set.now declared.now }
    ensures { result ≡ tables.class_in features.now declared.now }
{
    for (place, feature) in features.iter().enumerate() {
        if same_values(declared, set, &feature.declared, &sets[place]) {
            return place;
        }
    }
    features.len()
}

// The class of each feature.
fn classes_of(alloc: Global, features: &[Feature], sets: &[AtomSet]) -> Result<Vec<usize>, Memory>
    requires sets { tables.AreSets features.now sets.now }
    requires room { length sets.now ≡ length features.now }
    ensures { IfOk result (λ classes. classes.items ≡ map (λ x. tables.class_in features.now x.declared) features.now) }
{
    let mut classes = Vec::new(alloc);
    for (place, feature) in features.iter().enumerate() {
        classes.push(class_of(features, sets, &feature.declared, &sets[place]))?;
    }
    Ok(classes)
}

// The features of a grammar with their values. It is seen as the grammar.
#[derive(Drop)]
pub(crate) struct FeatureTable<'a> {
    grammar: &'a Grammar,
    sets: Vec<AtomSet>,
    classes: Vec<usize>,
    undeclared: usize,
}

impl<'a> Model for FeatureTable<'a> {
    ghost use Rattle.codeco_terms.specs.GrammarParts.{GrammarParts};
    ghost use Rattle.codeco_late_faults.specs.Tables.{IsTable};

    ghost Value = { GrammarParts };

    ghost view = { λ a. a.grammar.now };

    ghost invariant = { λ a. IsTable a.grammar.now a.sets.items a.classes.items a.undeclared };
}

impl FeatureTable<'_> {
    // The table of a grammar's features.
    pub(crate) fn of(alloc: Global, grammar: &Grammar) -> Result<FeatureTable<'_>, Memory>
        requires { tables.CountsAtoms grammar.now }
        ensures { IfOk result (λ table. table ≡ grammar.now) }
    {
        let features = grammar.features().as_slice();
        let sets = atom_sets(alloc, features, grammar.atoms().len())?;
        let classes = classes_of(alloc, features, sets.as_slice())?;
        let none = AtomSet::new(alloc, 0)?;
        let undeclared = class_of(features, sets.as_slice(), &Declared::Undeclared, &none);
        Ok(FeatureTable {
            grammar,
            sets,
            classes,
            undeclared,
        })
    }

    // Whether the term is a variable, or an atom that the feature has.
    pub(crate) fn fits(&self, feature: u16, term: Term) -> bool
        ensures { result ≡ faults.fits_declared (faults.values_of self.now feature) term }
    {
        match term {
            Term::Val(Value::Atom(atom)) => self.has_atom(feature, atom),
            Term::Val(_) => false,
            Term::Var(_) => true,
        }
    }

    fn has_atom(&self, feature: u16, atom: u16) -> bool
        ensures { result ≡ has (declared_atoms (faults.values_of self.now feature)) atom }
    {
        let place = feature as usize;
        place < self.sets.len() && self.sets[place].has(atom)
    }

    // The class of the feature: two features have the same values where they have one class.
    pub(crate) fn class(&self, feature: u16) -> usize
        ensures { result ≡ tables.class_in self.now.features (faults.values_of self.now feature) }
    {
        match self.classes.as_slice().get(feature as usize) {
            Some(class) => *class,
            None => self.undeclared,
        }
    }

    // Whether the feature is one of positions.
    pub(crate) fn is_position(&self, feature: u16) -> bool
        ensures { result ≡ faults.same_values (faults.values_of self.now feature) declared.Positions }
    {
        match self.grammar.features().as_slice().get(feature as usize) {
            Some(found) => matches!(found.declared, Declared::Positions),
            None => false,
        }
    }

    // Whether the feature is one of words.
    fn is_word(&self, feature: u16) -> bool
        ensures { result ≡ faults.same_values (faults.values_of self.now feature) declared.Words }
    {
        match self.grammar.features().as_slice().get(feature as usize) {
            Some(found) => matches!(found.declared, Declared::Words),
            None => false,
        }
    }

    // Whether the feature has just these atoms.
    fn has_atoms(&self, feature: u16, atoms: &[u16]) -> bool
        ensures { result ≡ faults.same_values (faults.values_of self.now feature) (declared.Atoms atoms.now) }
    {
        match self.grammar.features().as_slice().get(feature as usize) {
            Some(found) => match &found.declared {
                Declared::Atoms(own) => {
                    are_among(own.as_slice(), atoms) && are_among(atoms, own.as_slice())
                }
                _ => false,
            },
            None => false,
        }
    }

    // Whether the feature has just the values that words give.
    pub(crate) fn has_given_values(&self, feature: u16) -> bool
        ensures { result ≡ faults.same_values (faults.values_of self.now feature) (faults.given_values feature) }
    {
        match feature {
            0 => self.has_atoms(feature, &[0, 1]),
            1 => self.has_atoms(feature, &[2, 3]),
            2 => self.has_atoms(feature, &[4, 5, 6]),
            _ => self.is_word(feature),
        }
    }
}

// Whether all of the atoms are among the others.
fn are_among(atoms: &[u16], others: &[u16]) -> bool
    ensures { result ≡ list_all (has others.now) atoms.now }
{
    atoms.iter().all(|atom| is_among(others, *atom))
}

fn is_among(atoms: &[u16], atom: u16) -> bool
    ensures { result ≡ has atoms.now atom }
{
    atoms.iter().any(|other| atom == *other)
}
