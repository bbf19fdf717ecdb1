// The faults of declarations.
ghost use Rattle.std.specs.Prelude.{◌≡◌, [], not, IfOk, OnOk};
ghost use Rattle.std.specs.List.{list_any};
ghost use Rattle.codeco_text.specs.Names.{is_among};
ghost use Rattle.codeco_checked.specs.Numbering.{differ};
ghost use Rattle.codeco_numbering.specs.Numbered.{gathered, domain_atoms};
ghost use Rattle.codeco_early_faults.specs.Early.{item_names, item_atoms, declared_names, declared_atoms, has_large_written_declarations, has_double_written_declaration};

use crate::names::{NameSet, put_names};
use codeco_terms::Symbol;
use codeco_text::{Domain, WrittenItem, WrittenItems};
use std::alloc::Global;
use wiki_base::Memory;

/// The most different features that a grammar may declare.
const MOST_FEATURES: usize = 1000;

/// The most different atoms that declarations may have.
const MOST_ATOMS: usize = 10000;

/// The atoms that are written in a declaration.
fn atoms_of(domain: &Domain) -> &[Symbol]
    ensures { result.now ≡ domain_atoms domain.now }
{
    match domain {
        Domain::Words | Domain::Positions => &[],
        Domain::Atoms(atoms) => atoms.as_slice(),
    }
}

/// Puts the name that the item declares, and says whether it is new. A rule declares none.
fn put_declared<'a>(names: &mut NameSet<'a>, item: &'a WrittenItem) -> Result<bool, Memory>
    ensures new { IfOk result (λ new. new ≡ not (list_any (is_among names.old) (item_names item.now))) }
    ensures names { OnOk result (names.new ≡ gathered names.old (item_names item.now)) }
{
    match item {
        WrittenItem::Rule(_) => Ok(true),
        WrittenItem::Feature(name, _) => Ok(names.put(name.as_bytes())?),
    }
}

/// Puts the atoms that the item declares.
fn put_atoms<'a>(atoms: &mut NameSet<'a>, item: &'a WrittenItem) -> Result<(), Memory>
    ensures { OnOk result (atoms.new ≡ gathered atoms.old (item_atoms item.now)) }
{
    match item {
        WrittenItem::Rule(_) => Ok(()),
        WrittenItem::Feature(_, domain) => put_names(atoms, atoms_of(domain)),
    }
}

/// The names of the declared features, each once.
pub(crate) fn declared_names(alloc: Global, items: &WrittenItems) -> Result<NameSet<'_>, Memory>
    ensures { IfOk result (λ names. names ≡ gathered [] (declared_names items.now)) }
{
    let mut names = NameSet::new(alloc);
    for item in items.as_slice() {
        put_declared(&mut names, item)?;
    }
    Ok(names)
}

/// The atoms of all declarations, each once.
fn declared_atoms(alloc: Global, items: &WrittenItems) -> Result<NameSet<'_>, Memory>
    ensures { IfOk result (λ atoms. atoms ≡ gathered [] (declared_atoms items.now)) }
{
    let mut atoms = NameSet::new(alloc);
    for item in items.as_slice() {
        put_atoms(&mut atoms, item)?;
    }
    Ok(atoms)
}

/// Whether there are over 1,000 different features or over 10,000 different atoms.
pub(crate) fn has_large_declarations(alloc: Global, items: &WrittenItems) -> Result<bool, Memory>
    ensures { IfOk result (λ found. found ≡ has_large_written_declarations items.now) }
{
    let names = declared_names(alloc, items)?;
    let atoms = declared_atoms(alloc, items)?;
    Ok(names.len() > MOST_FEATURES || atoms.len() > MOST_ATOMS)
}

/// Whether no name stands twice among these.
fn are_different(alloc: Global, names: &[Symbol]) -> Result<bool, Memory>
    ensures { IfOk result (λ different. different ≡ differ names.now) }
{
    let mut before = NameSet::new(alloc);
    for name in names {
        if !before.put(name.as_bytes())? {
            return Ok(false);
        }
    }
    Ok(true)
}

/// Whether no feature is declared twice.
fn has_different_names(alloc: Global, items: &WrittenItems) -> Result<bool, Memory>
    ensures { IfOk result (λ different. different ≡ differ (declared_names items.now)) }
{
    let mut before = NameSet::new(alloc);
    for item in items.as_slice() {
        if !put_declared(&mut before, item)? {
            return Ok(false);
        }
    }
    Ok(true)
}

/// Whether the item declares one atom twice.
fn has_double_atom(alloc: Global, item: &WrittenItem) -> Result<bool, Memory>
    ensures { IfOk result (λ found. found ≡ not (differ (item_atoms item.now))) }
{
    match item {
        WrittenItem::Rule(_) => Ok(false),
        WrittenItem::Feature(_, domain) => Ok(!are_different(alloc, atoms_of(domain))?),
    }
}

/// Whether a feature is declared twice, or with one atom twice.
pub(crate) fn has_double_declaration(alloc: Global, items: &WrittenItems) -> Result<bool, Memory>
    ensures { IfOk result (λ found. found ≡ has_double_written_declaration items.now) }
{
    if !has_different_names(alloc, items)? {
        return Ok(true);
    }
    for item in items.as_slice() {
        if has_double_atom(alloc, item)? {
            return Ok(true);
        }
    }
    Ok(false)
}
