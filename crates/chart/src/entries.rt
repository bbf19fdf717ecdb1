// The entries of a menu as they are gathered, in order.
ghost use Rattle.std.specs.Prelude.{◌≡◌, ◌≤◌, ◌<◌, ◌∷◌, [], true, IfOk, OnOk, length, map, IsTrue};
ghost use Rattle.derivation_trees.specs.Menus.{entry_cmp};
ghost use Rattle.derivations.specs.Entries.{shown, with_entry, all_tried, IsInOrder, IsPlaceFor};
ghost use Rattle.chart.specs.Offers.{IsOrdered};

use derivation_trees::{Group, Menu};
use std::alloc::Global;
use std::cmp::Ordering;
use wiki_base::Memory;

// A group and a token.
pub(crate) type Entry<'a> = (Group, &'a str);

// How the one stands to the other: by their groups, and in a group by their bytes.
fn order(one: &Entry<'_>, other: &Entry<'_>) -> Ordering
    ensures { result ≡ entry_cmp (shown one.now) (shown other.now) }
{
    match one.0.number().cmp(&other.0.number()) {
        Ordering::Equal => one.1.cmp(other.1),
        groups => groups,
    }
}

// Where to look between two places: first at the last of so many, since most entries come after all others.
fn probe(low: usize, high: usize, count: usize) -> usize
    requires { low < high }
    ensures at_least { low ≤ result }
    ensures below { result < high }
{
    if low == 0 && high == count {
        return high - 1;
    }
    low + (high - low) / 2
}

// How many of the entries, which stand in order, are before the entry.
fn place_for(entries: &[Entry<'_>], entry: &Entry<'_>) -> usize
    requires { IsInOrder (map shown entries.now) }
    ensures { IsPlaceFor (map shown entries.now) (shown entry.now) result }
{
    let mut low = 0;
    let mut high = entries.len();
    while low < high {
        let middle = probe(low, high, entries.len());
        if order(&entries[middle], entry) == Ordering::Less {
            low = middle + 1;
        } else {
            high = middle;
        }
    }
    low
}

// Puts the entry among the entries, which stand in order, where it isn't there yet.
pub(crate) fn put<'a>(entries: &mut Vec<Entry<'a>>, entry: Entry<'a>) -> Result<(), Memory>
    requires { IsInOrder (map shown entries.old.items) }
    ensures { OnOk result (map shown entries.new.items ≡ with_entry (shown entry.entry) (map shown entries.old.items)) }
{
    let place = place_for(entries.as_slice(), &entry);
    if place < entries.len() && order(&entries[place], &entry) == Ordering::Equal {
        return Ok(());
    }
    entries.insert(place, entry)?;
    Ok(())
}

// Puts the entries that were found among others, which stand in order.
fn put_all<'a>(found: &[Entry<'a>], entries: &mut Vec<Entry<'a>>) -> Result<(), Memory>
    requires { IsInOrder (map shown entries.old.items) }
    ensures { OnOk result (map shown entries.new.items ≡ all_tried (λ e. true) (map shown found.now) (map shown entries.old.items)) }
{
    for entry in found {
        put(entries, *entry)?;
    }
    Ok(())
}

// Whether each of the entries is before the next one.
fn are_rising(entries: &[Entry<'_>]) -> bool
    ensures { IsTrue result → IsInOrder (map shown entries.now) }
{
    for place in 1..entries.len() {
        if order(&entries[place - 1], &entries[place]) != Ordering::Less {
            return false;
        }
    }
    true
}

// The entries in order, each once. Where none was found twice, they are so once they are sorted.
pub(crate) fn in_order<'a>(
    alloc: Global,
    mut found: Vec<Entry<'a>>,
) -> Result<Vec<Entry<'a>>, Memory>
    ensures { IfOk result (λ entries. IsOrdered (map shown found.entry.items) (map shown entries.items)) }
{
    found.sort_unstable_by(|one, other| order(one, other));
    if are_rising(found.as_slice()) {
        return Ok(found);
    }
    let mut entries = Vec::with_capacity(alloc, found.len())?;
    put_all(found.as_slice(), &mut entries)?;
    Ok(entries)
}

// The entries as a menu.
pub(crate) fn menu_of<'a>(alloc: Global, entries: &[Entry<'a>]) -> Result<Menu<'a>, Memory>
    ensures { IfOk result (λ menu. menu ≡ map shown entries.now) }
{
    let mut menu = Menu::new(alloc);
    for (group, text) in entries {
        menu.push(*group, *text)?;
    }
    Ok(menu)
}
