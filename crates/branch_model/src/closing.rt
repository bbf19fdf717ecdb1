// The pairs that steps by a transitive relation lead to.
ghost use Rattle.std.specs.Prelude.{◌≡◌, ℕ, ◌==◌, ◌&&◌, ◌||◌, ◌↔◌, true, Contains, IfOk, OnOk};
ghost use Rattle.std.specs.List.{list_any};
ghost use Rattle.owl_eval.specs.Pairs.{is_paired};
ghost use Rattle.branch_model.specs.Related.{Reaches, IsTransitive, Knows};

use std::alloc::Global;
use std::collections::BTreeSet;
use wiki_base::Memory;

// The pairs that steps by these pairs lead to.
pub(crate) fn led_to(alloc: Global, pairs: &[(u64, u64)]) -> Result<Vec<(u64, u64)>, Memory>
    ensures { IfOk result (λ made. (a b : ℕ) → Contains made.items (a, b) ↔ Reaches (λ x y. Contains pairs.now (x, y)) a b) }
{
    let mut made = Vec::new(alloc);
    let mut known = BTreeSet::new(alloc);
    for pair in pairs {
        lead(alloc, &mut made, &mut known, pair.0, pair.1)?;
    }
    Ok(made)
}

// Adds a pair to those of a transitive relation, and the pairs that make it transitive again.
fn lead(
    alloc: Global,
    made: &mut Vec<(u64, u64)>,
    known: &mut BTreeSet<(u64, u64)>,
    from: u64,
    to: u64,
) -> Result<(), Memory>
    requires knows { Knows known.old made.old.items }
    requires leads { IsTransitive (λ a b. is_paired made.old.items a b ≡ true) }
    ensures knows { OnOk result (Knows known.new made.new.items) }
    ensures pairs { OnOk result ((a b : ℕ) → is_paired made.new.items a b ≡ is_paired made.old.items a b
        || (((from == a) || is_paired made.old.items a from) && ((to == b) || is_paired made.old.items to b))) }
{
    if known.contains(&(from, to)) {
        return Ok(());
    }
    let starts = at_or_before(alloc, made, from)?;
    let ends = at_or_behind(alloc, made, to)?;
    for start in &starts {
        join(made, known, *start, &ends)?;
    }
    Ok(())
}

// Relates an element to each of others.
fn join(
    made: &mut Vec<(u64, u64)>,
    known: &mut BTreeSet<(u64, u64)>,
    start: u64,
    ends: &[u64],
) -> Result<(), Memory>
    requires knows { Knows known.old made.old.items }
    ensures knows { OnOk result (Knows known.new made.new.items) }
    ensures pairs { OnOk result ((a b : ℕ) → is_paired made.new.items a b ≡ is_paired made.old.items a b || ((start == a) && list_any (λ x. x == b) ends.now)) }
{
    for end in ends {
        add(made, known, start, *end)?;
    }
    Ok(())
}

// Adds a pair that isn't there.
fn add(
    made: &mut Vec<(u64, u64)>,
    known: &mut BTreeSet<(u64, u64)>,
    from: u64,
    to: u64,
) -> Result<(), Memory>
    requires knows { Knows known.old made.old.items }
    ensures knows { OnOk result (Knows known.new made.new.items) }
    ensures pairs { OnOk result ((a b : ℕ) → is_paired made.new.items a b ≡ is_paired made.old.items a b || ((from == a) && (to == b))) }
{
    if known.insert((from, to))? {
        made.push((from, to))?;
    }
    Ok(())
}

// An element, and those from which a pair leads to it.
fn at_or_before(alloc: Global, pairs: &[(u64, u64)], element: u64) -> Result<Vec<u64>, Memory>
    ensures { IfOk result (λ made. (a : ℕ) → list_any (λ x. x == a) made.items ≡ (element == a) || is_paired pairs.now a element) }
{
    let mut made = Vec::new(alloc);
    made.push(element)?;
    for pair in pairs {
        if pair.1 == element {
            made.push(pair.0)?;
        }
    }
    Ok(made)
}

// An element, and those to which a pair leads from it.
fn at_or_behind(alloc: Global, pairs: &[(u64, u64)], element: u64) -> Result<Vec<u64>, Memory>
    ensures { IfOk result (λ made. (b : ℕ) → list_any (λ x. x == b) made.items ≡ (element == b) || is_paired pairs.now element b) }
{
    let mut made = Vec::new(alloc);
    made.push(element)?;
    for pair in pairs {
        if pair.0 == element {
            made.push(pair.1)?;
        }
    }
    Ok(made)
}
