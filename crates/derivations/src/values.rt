// The values that a variable may have.
ghost use Rattle.std.specs.Prelude.{◌≡◌, IfOk, OnOk};
ghost use Rattle.std.specs.List.{list_any};
ghost use Rattle.codeco_terms.specs.Values.{same_value};
ghost use Rattle.derivations.specs.Enumeration as enumeration;

use codeco_terms::{Declared, Ground, Value};
use derivation_trees::Setting;
use lexicon::Readings;
use lists::List;
use std::alloc::Global;
use wiki_base::{Memory, WordId};

/// The feature of preterminals that holds the word.
const WORD_FEATURE: u16 = 3;

fn is_among(values: &[Value], value: Value) -> bool
    ensures { result ≡ list_any (same_value value) values.now }
{
    values.iter().any(|other| value.is(*other))
}

// Adds the value, where it isn't there yet.
fn add(values: &mut List<Value>, value: Value) -> Result<(), Memory>
    ensures { OnOk result (values.new ≡ enumeration.with_value values.old value) }
{
    if !is_among(values.as_slice(), value) {
        values.push(value)?;
    }
    Ok(())
}

// Adds the values of the feature among the pairs.
fn add_given(values: &mut List<Value>, pairs: &[(u16, Value)], feature: u16) -> Result<(), Memory>
    ensures { OnOk result (values.new ≡ enumeration.with_given values.old pairs.now feature) }
{
    for (other, value) in pairs {
        if *other == feature {
            add(values, *value)?;
        }
    }
    Ok(())
}

// The values of the feature among the pairs.
pub(crate) fn given(
    alloc: Global,
    pairs: &[(u16, Value)],
    feature: u16,
) -> Result<List<Value>, Memory>
    ensures { IfOk result (λ values. values ≡ enumeration.given pairs.now feature) }
{
    let mut values = List::new(alloc);
    add_given(&mut values, pairs, feature)?;
    Ok(values)
}

// Adds the words of the readings.
fn add_words(values: &mut List<Value>, readings: &[Ground]) -> Result<(), Memory>
    ensures { OnOk result (values.new ≡ enumeration.with_words values.old readings.now) }
{
    for reading in readings {
        add_given(values, reading.vals.as_slice(), WORD_FEATURE)?;
    }
    Ok(())
}

// Adds the words of the readings of all tokens.
fn add_all_words(values: &mut List<Value>, all: &[Readings]) -> Result<(), Memory>
    ensures { OnOk result (values.new ≡ enumeration.with_all_words values.old all.now) }
{
    for readings in all {
        add_words(values, readings.as_slice())?;
    }
    Ok(())
}

// Word 0 and the words with a form among the tokens.
fn word_values(alloc: Global, setting: &Setting<'_>) -> Result<List<Value>, Memory>
    ensures { IfOk result (λ values. values ≡ enumeration.word_values setting.now) }
{
    let mut values = List::new(alloc);
    values.push(Value::Word(WordId(0)))?;
    add_all_words(&mut values, setting.readings)?;
    Ok(values)
}

#[tactic(auto, using(crate::proofs::LoopLemmas::positions_more))]
pub(crate) fn position_values(alloc: Global, setting: &Setting<'_>) -> Result<List<Value>, Memory>
    ensures { IfOk result (λ values. values ≡ enumeration.position_values setting.now) }
{
    let mut values = List::new(alloc);
    let count = setting.tokens.len() as u16 + 1;
    for place in 0..count {
        values.push(Value::Pos(place))?;
    }
    Ok(values)
}

fn atom_values(alloc: Global, atoms: &[u16]) -> Result<List<Value>, Memory>
    ensures { IfOk result (λ values. values ≡ enumeration.atom_values atoms.now) }
{
    let mut values = List::new(alloc);
    for atom in atoms {
        values.push(Value::Atom(*atom))?;
    }
    Ok(values)
}

// The values that are declared.
fn declared_values(
    alloc: Global,
    setting: &Setting<'_>,
    declared: &Declared,
) -> Result<List<Value>, Memory>
    ensures { IfOk result (λ values. values ≡ enumeration.declared_values setting.now declared.now) }
{
    match declared {
        Declared::Undeclared => Ok(List::new(alloc)),
        Declared::Words => word_values(alloc, setting),
        Declared::Positions => position_values(alloc, setting),
        Declared::Atoms(atoms) => atom_values(alloc, atoms.as_slice()),
    }
}

// The values of the feature with the number.
pub(crate) fn feature_values(
    alloc: Global,
    setting: &Setting<'_>,
    feature: u16,
) -> Result<List<Value>, Memory>
    ensures { IfOk result (λ values. values ≡ enumeration.feature_values setting.now feature) }
{
    match setting.grammar.features().as_slice().get(feature as usize) {
        None => Ok(List::new(alloc)),
        Some(feature) => declared_values(alloc, setting, &feature.declared),
    }
}
