// The representatives of names.
ghost use Rattle.std.specs.Prelude.{◌≡◌, ◌&&◌, map, All, IfOk, OnOk, IsTrue};
ghost use Rattle.std.specs.List.{list_all};
ghost use Rattle.std.specs.Map.{lookup};
ghost use Rattle.logic_terms.specs.Interpretation.{is_word};
ghost use Rattle.logic_terms.specs.Names.{names_rise};
ghost use Rattle.absorb.specs.Absorbed.{Represents};
ghost use Rattle.absorb.specs.Mentioned.{is_among};
ghost use Rattle.absorb.specs.Renamed.{renamed, joined};

use logic_terms::Names;
use std::alloc::Global;
use wiki_base::{Memory, WordId};

// The names, each with the least of those that equalities join to it.
pub(crate) fn representatives(
    alloc: Global,
    names: &Names,
    equalities: &[(WordId, WordId)],
) -> Result<Vec<(WordId, WordId)>, Memory>
    requires { IsTrue (list_all (λ e. is_among names.now e.0 && is_among names.now e.1) equalities.now) }
    ensures given { IfOk result (λ made. map (λ e. e.0) made.items ≡ names.now) }
    ensures least { IfOk result (λ made. All (λ e. Represents equalities.now e.0 e.1) made.items) }
    ensures rising { OnOk result (IsTrue (names_rise names.now)) }
{
    let mut made = themselves(alloc, names)?;
    for equality in equalities {
        made = join(alloc, made.as_slice(), equality.0, equality.1)?;
    }
    Ok(made)
}

// The names, each with itself.
fn themselves(alloc: Global, names: &Names) -> Result<Vec<(WordId, WordId)>, Memory>
    ensures entries { IfOk result (λ made. made.items ≡ map (λ n. (n, n)) names.now) }
    ensures rising { IsTrue (names_rise names.now) }
{
    let mut made = Vec::new(alloc);
    for name in names.as_slice() {
        made.push((*name, *name))?;
    }
    Ok(made)
}

// The names with their representatives, where two names become equal.
fn join(
    alloc: Global,
    entries: &[(WordId, WordId)],
    one: WordId,
    other: WordId,
) -> Result<Vec<(WordId, WordId)>, Memory>
    ensures { IfOk result (λ made. made.items ≡ joined entries.now one other) }
{
    match (
        representative_in(entries, one),
        representative_in(entries, other),
    ) {
        (Some(first), Some(second)) if first.0 <= second.0 => {
            rename(alloc, entries, second, first)
        }
        (Some(first), Some(second)) => rename(alloc, entries, first, second),
        _ => Ok(Vec::from_slice(alloc, entries)?),
    }
}

// The representative of a name.
fn representative_in(entries: &[(WordId, WordId)], name: WordId) -> Option<WordId>
    ensures { result ≡ lookup (is_word name) entries.now }
{
    for entry in entries {
        if name.0 == entry.0.0 {
            return Some(entry.1);
        }
    }
    None
}

// The names with one representative in the place of another.
fn rename(
    alloc: Global,
    entries: &[(WordId, WordId)],
    gone: WordId,
    stays: WordId,
) -> Result<Vec<(WordId, WordId)>, Memory>
    ensures { IfOk result (λ made. made.items ≡ map (renamed gone stays) entries.now) }
{
    let mut made = Vec::new(alloc);
    for entry in entries {
        if gone.0 == entry.1.0 {
            made.push((entry.0, stays))?;
        } else {
            made.push(*entry)?;
        }
    }
    Ok(made)
}
