// The declarations of features, and lists of names.
ghost use Rattle.std.specs.Prelude.{◌≡◌, map, IfOk};
ghost use Rattle.ace_grammar.specs.Rows.{declared_of, feature_of};
ghost use Rattle.ace_grammar.specs.Names.{declarations};

use crate::rows::{DeclaredRow, FeatureRow};
use codeco_terms::{AtomNumbers, Declared, Feature, Features, Symbol, Symbols};
use std::alloc::Global;
use wiki_base::Memory;

static DECLARATIONS: [FeatureRow; 7] = [
    FeatureRow(b"num", DeclaredRow::Atoms(&[0, 1])),
    FeatureRow(b"vow", DeclaredRow::Atoms(&[2, 3])),
    FeatureRow(b"form", DeclaredRow::Atoms(&[4, 5, 6])),
    FeatureRow(b"w", DeclaredRow::Words),
    FeatureRow(b"v", DeclaredRow::Atoms(&[7, 8, 9])),
    FeatureRow(b"id", DeclaredRow::Positions),
    FeatureRow(b"sub", DeclaredRow::Positions),
];

fn declared(alloc: Global, row: &DeclaredRow) -> Result<Declared, Memory>
    ensures { IfOk result (λ made. made ≡ declared_of row.now) }
{
    match row {
        DeclaredRow::Words => Ok(Declared::Words),
        DeclaredRow::Positions => Ok(Declared::Positions),
        DeclaredRow::Atoms(atoms) => Ok(Declared::Atoms(AtomNumbers::from_vec(Vec::from_slice(
            alloc, atoms,
        )?))),
    }
}

fn feature(alloc: Global, row: &FeatureRow) -> Result<Feature, Memory>
    ensures { IfOk result (λ made. made ≡ feature_of row.now) }
{
    Ok(Feature {
        name: Symbol::from_slice(alloc, row.0)?,
        declared: declared(alloc, &row.1)?,
    })
}

fn features(alloc: Global, rows: &[FeatureRow]) -> Result<Features, Memory>
    ensures { IfOk result (λ made. made ≡ map feature_of rows.now) }
{
    let mut made = Features::new(alloc);
    for row in rows {
        made.push(feature(alloc, row)?)?;
    }
    Ok(made)
}

/// The features that the grammar declares, in order of number.
pub fn declared_features(alloc: Global) -> Result<Features, Memory>
    ensures { IfOk result (λ made. made ≡ declarations) }
{
    features(alloc, &DECLARATIONS)
}

/// The symbols of these texts, in order.
pub fn symbols(alloc: Global, texts: &[&[u8]]) -> Result<Symbols, Memory>
    ensures { IfOk result (λ made. made ≡ map (λ text. text.now) texts.now) }
{
    let mut made = Symbols::new(alloc);
    for text in texts {
        made.push(Symbol::from_slice(alloc, text)?)?;
    }
    Ok(made)
}
