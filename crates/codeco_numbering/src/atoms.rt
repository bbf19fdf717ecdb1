// The atoms of declarations, and features in numbers.
ghost use Rattle.std.specs.Prelude.{◌≡◌, ◌<◌, ◌∷◌, length, map, IfOk, OnOk};
ghost use Rattle.codeco_checked.specs.Numbering.{first_atoms};
ghost use Rattle.codeco_numbering.specs.Numbered.{gathered, number_of, feature_atoms, atoms_of, numbered_domain, numbered_feature};
ghost use Rattle.codeco_checked.specs.declared.numbers.TheConstants.{NUMBERS};

use crate::features::{FeatureTable, NamedFeature};
use crate::names::Names;
use codeco_terms::{AtomNumbers, Declared, Feature, Features, Symbol, Symbols};
use codeco_text::Domain;
use std::alloc::Global;
use wiki_base::Memory;

/// The seven atoms that every grammar has.
fn first_atoms(alloc: Global) -> Result<Names, Memory>
    ensures { IfOk result (λ names. names ≡ first_atoms) }
{
    let mut names = Names::new(alloc);
    names.add(alloc, b"sg")?;
    names.add(alloc, b"pl")?;
    names.add(alloc, b"yes")?;
    names.add(alloc, b"no")?;
    names.add(alloc, b"third")?;
    names.add(alloc, b"inf")?;
    names.add(alloc, b"part")?;
    Ok(names)
}

fn add_symbols(alloc: Global, symbols: &Symbols, names: &mut Names) -> Result<(), Memory>
    ensures { OnOk result (names.new ≡ gathered names.old symbols.now) }
{
    for symbol in symbols.as_slice() {
        names.add(alloc, symbol.as_bytes())?;
    }
    Ok(())
}

fn add_feature_atoms(alloc: Global, feature: &NamedFeature, names: &mut Names) -> Result<(), Memory>
    ensures { OnOk result (names.new ≡ gathered names.old (feature_atoms feature.now.domain)) }
{
    match feature.domain {
        Some(Domain::Atoms(atoms)) => add_symbols(alloc, atoms, names),
        _ => Ok(()),
    }
}

/// The atoms by the number of their feature and their place in its declaration.
pub fn atoms_of(alloc: Global, features: &FeatureTable) -> Result<Names, Memory>
    ensures { IfOk result (λ names. names ≡ atoms_of features.now) }
{
    let mut names = first_atoms(alloc)?;
    for feature in features.list.as_slice() {
        add_feature_atoms(alloc, feature, &mut names)?;
    }
    Ok(names)
}

fn atom_numbers(alloc: Global, atoms: &Names, symbols: &Symbols) -> Result<AtomNumbers, Memory>
    requires { length atoms.now < NUMBERS }
    ensures { IfOk result (λ numbers. numbers ≡ map (number_of atoms.now) symbols.now) }
{
    let mut numbers = AtomNumbers::new(alloc);
    for symbol in symbols.as_slice() {
        numbers.push(atoms.number_of(symbol.as_bytes()) as u16)?;
    }
    Ok(numbers)
}

fn numbered_domain(alloc: Global, atoms: &Names, feature: &NamedFeature) -> Result<Declared, Memory>
    requires { length atoms.now < NUMBERS }
    ensures { IfOk result (λ declared. declared ≡ numbered_domain atoms.now feature.now.domain) }
{
    match feature.domain {
        None => Ok(Declared::Undeclared),
        Some(domain) => match domain {
            Domain::Words => Ok(Declared::Words),
            Domain::Positions => Ok(Declared::Positions),
            Domain::Atoms(symbols) => { Ok(Declared::Atoms(atom_numbers(alloc, atoms, symbols)?)) }
        },
    }
}

fn numbered_feature(alloc: Global, atoms: &Names, feature: &NamedFeature) -> Result<Feature, Memory>
    requires { length atoms.now < NUMBERS }
    ensures { IfOk result (λ numbered. numbered ≡ numbered_feature atoms.now feature.now) }
{
    Ok(Feature {
        name: Symbol::from_slice(alloc, feature.name)?,
        declared: numbered_domain(alloc, atoms, feature)?,
    })
}

/// The features in numbers.
pub fn numbered_features(
    alloc: Global,
    atoms: &Names,
    features: &FeatureTable,
) -> Result<Features, Memory>
    requires { length atoms.now < NUMBERS }
    ensures { IfOk result (λ list. list ≡ map (numbered_feature atoms.now) features.now) }
{
    let mut list = Features::new(alloc);
    for feature in features.list.as_slice() {
        list.push(numbered_feature(alloc, atoms, feature)?)?;
    }
    Ok(list)
}
