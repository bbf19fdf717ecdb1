// Whether keys and ends of the table are the same, and copies of values.
ghost use Rattle.std.specs.Prelude.{◌≡◌, ◌↔◌, IfOk, IsTrue};

use crate::states::End;
use codeco_terms::Value;
use lists::List;
use scopes::TestValues;
use std::alloc::Global;
use wiki_base::Memory;

pub(crate) fn same_pair(one: (u16, Value), other: (u16, Value)) -> bool
    ensures { IsTrue result ↔ one ≡ other }
{
    one.0 == other.0 && one.1 == other.1
}

/// Whether the values are the same, in the same order.
pub fn same_values(values: &[(u16, Value)], others: &[(u16, Value)]) -> bool
    ensures { IsTrue result ↔ values.now ≡ others.now }
{
    if values.len() != others.len() {
        return false;
    }
    for (place, value) in values.iter().enumerate() {
        if !same_pair(*value, others[place]) {
            return false;
        }
    }
    true
}

// Whether the ends are the same.
pub(crate) fn same_end(one: &End, other: &End) -> bool
    ensures { IsTrue result ↔ one.now ≡ other.now }
{
    one.place == other.place
        && same_values(one.values.as_slice(), other.values.as_slice())
        && one.tail.is_same(&other.tail)
}

pub(crate) fn copy_values(alloc: Global, values: &[(u16, Value)]) -> Result<TestValues, Memory>
    ensures { IfOk result (λ copied. copied ≡ values.now) }
{
    let copied = List::from_slice(alloc, values)?;
    Ok(copied)
}
