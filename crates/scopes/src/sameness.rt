// Whether entries are the same.
ghost use Rattle.std.specs.Prelude.{◌≡◌, ◌↔◌, IsTrue};
ghost use Rattle.scopes.specs.declared.entries.Entry.TheVariants.{Opener, Weak, Strong};

use crate::Entry;
use codeco_terms::{Ground, Value};

fn same_pair(one: (u16, Value), other: (u16, Value)) -> bool
    ensures { IsTrue result ↔ one ≡ other }
{
    one.0 == other.0 && one.1 == other.1
}

// Whether the values are the same, in the same order.
fn same_values(values: &[(u16, Value)], others: &[(u16, Value)]) -> bool
    ensures { IsTrue result ↔ values.now ≡ others.now }
{
    if values.len() != others.len() {
        return false;
    }
    for (place, value) in values.iter().enumerate() {
        if !same_pair(*value, others[place]) {
            return false;
        }
    }
    true
}

fn same_ground(one: &Ground, other: &Ground) -> bool
    ensures { IsTrue result ↔ one.now ≡ other.now }
{
    one.name == other.name && same_values(one.vals.as_slice(), other.vals.as_slice())
}

fn is_weak(entry: &Entry, referent: &Ground, pos: u16) -> bool
    ensures { IsTrue result ↔ entry.now ≡ Weak referent.now pos }
{
    match entry {
        Entry::Weak(other, place) => *place == pos && same_ground(other, referent),
        _ => false,
    }
}

fn is_strong(entry: &Entry, referent: &Ground, pos: u16) -> bool
    ensures { IsTrue result ↔ entry.now ≡ Strong referent.now pos }
{
    match entry {
        Entry::Strong(other, place) => *place == pos && same_ground(other, referent),
        _ => false,
    }
}

fn is_opener(entry: &Entry) -> bool
    ensures { IsTrue result ↔ entry.now ≡ Opener }
{
    match entry {
        Entry::Opener => true,
        _ => false,
    }
}

// Whether the entries are the same.
pub(crate) fn same_entry(one: &Entry, other: &Entry) -> bool
    ensures { IsTrue result ↔ one.now ≡ other.now }
{
    match other {
        Entry::Opener => is_opener(one),
        Entry::Weak(referent, pos) => is_weak(one, referent, *pos),
        Entry::Strong(referent, pos) => is_strong(one, referent, *pos),
    }
}
