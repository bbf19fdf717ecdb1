// The features that a grammar declares.

use crate::Symbol;
use wiki_base::{Copied, List, Memory};

/// The numbers of atoms, in the order of their declaration.
pub type AtomNumbers = List<u16>;

/// The values that a feature is declared with.
#[derive(Drop)]
pub enum Declared {
    /// The feature has no declaration, and so no values.
    Undeclared,
    /// Words.
    Words,
    /// Positions, which are numbers of tokens.
    Positions,
    /// These atoms.
    Atoms(AtomNumbers),
}

impl Copied for Declared {
    fn copy(&self) -> Result<Self, Memory> {
        match self {
            Declared::Undeclared => Ok(Declared::Undeclared),
            Declared::Words => Ok(Declared::Words),
            Declared::Positions => Ok(Declared::Positions),
            Declared::Atoms(atoms) => Ok(Declared::Atoms(atoms.copy()?)),
        }
    }
}

/// A feature: its name, and the values that it is declared with.
#[derive(Drop)]
pub struct Feature {
    pub name: Symbol,
    pub declared: Declared,
}

impl Copied for Feature {
    fn copy(&self) -> Result<Self, Memory> {
        Ok(Feature {
            name: self.name.copy()?,
            declared: self.declared.copy()?,
        })
    }
}

/// The features of a grammar in order of number, from 0.
pub type Features = List<Feature>;
