// The grammar of a text.
ghost use Rattle.std.specs.Prelude.{◌≡◌, ◌++◌, true, IfOk};
ghost use Rattle.std.specs.List.{list_all};
ghost use Rattle.codeco_text.specs.Notation.{kinds, item_fits};
ghost use Rattle.codeco_numbering.specs.Numbered.{numbered_of};
ghost use Rattle.codeco_numbering.specs.Early.{HasNoEarlyFault};

use crate::atoms::{atoms_of, numbered_features};
use crate::features::all_features;
use crate::gathering::{categories_of, terminals_of};
use crate::rules::numbered_rules;
use crate::tables::GrammarTables;
use codeco_terms::{Features, Grammar, Rules, Symbol, Symbols};
use codeco_text::WrittenItems;
use std::alloc::Global;
use wiki_base::Memory;

/// The names of the five preterminals.
fn kind_symbols(alloc: Global) -> Result<Symbols, Memory>
    ensures { IfOk result (λ symbols. symbols ≡ kinds) }
{
    let mut symbols = Symbols::new(alloc);
    symbols.push(Symbol::from_slice(alloc, b"name")?)?;
    symbols.push(Symbol::from_slice(alloc, b"noun")?)?;
    symbols.push(Symbol::from_slice(alloc, b"of")?)?;
    symbols.push(Symbol::from_slice(alloc, b"verb")?)?;
    symbols.push(Symbol::from_slice(alloc, b"adj")?)?;
    Ok(symbols)
}

/// The grammar that declarations and rules make: numbers in place of names, given by first occurrence. They are known
/// to pass no limit, to declare each feature once with different atoms, and to mark variables in positive patterns alone.
pub fn number_items(alloc: Global, items: &WrittenItems) -> Result<Grammar, Memory>
    requires fits { list_all item_fits items.now ≡ true }
    requires early { HasNoEarlyFault items.now }
    ensures { IfOk result (λ grammar. grammar ≡ numbered_of items.now) }
{
    let table = all_features(alloc, items)?;
    let atoms = atoms_of(alloc, &table)?;
    let features = numbered_features(alloc, &atoms, &table)?;
    let tables = GrammarTables {
        features: table.into_names(),
        atoms,
        terminals: terminals_of(alloc, items)?,
        categories: categories_of(alloc, items)?,
    };
    let rules = numbered_rules(alloc, &tables, items)?;
    grammar_of(alloc, features, &tables, rules)
}

fn grammar_of(
    alloc: Global,
    features: Features,
    tables: &GrammarTables,
    rules: Rules,
) -> Result<Grammar, Memory>
    ensures { IfOk result (λ grammar. grammar ≡ record {
      features = features;
      atoms = tables.now.atoms;
      terminals = tables.now.terminals;
      categories = kinds ++ tables.now.categories;
      rules = rules;
    }) }
{
    let atoms = tables.atoms.symbols(alloc)?;
    let terminals = tables.terminals.symbols(alloc)?;
    let categories = tables
        .categories
        .symbols_behind(alloc, kind_symbols(alloc)?)?;
    Ok(Grammar::new(features, atoms, terminals, categories, rules))
}
