// What a reference asks of a referent.
ghost use Rattle.std.specs.Prelude.{◌≡◌, position};
ghost use Rattle.std.specs.List.{list_any, list_all};
ghost use Rattle.scopes.specs.Resolution as resolution;

use codeco_terms::{Ground, Value};
use wiki_base::List;

/// A test of a referent: the name of its category, and values that it must have.
#[derive(Drop)]
pub struct Test {
    pub name: u16,
    pub values: TestValues,
}

/// What a reference asks: the referent agrees with a positive test and with no negative one.
#[derive(Drop)]
pub struct Tests {
    pub positive: TestList,
    pub negative: TestList,
}

/// The values that a test asks for, each with its feature.
pub type TestValues = List<(u16, Value)>;

/// Tests, in the order of the patterns that they come from.
pub type TestList = List<Test>;

/// Whether the values have this one at this feature.
pub fn has_value(vals: &[(u16, Value)], wanted: (u16, Value)) -> bool
    ensures { result ≡ resolution.has_value vals.now wanted }
{
    vals.iter().any(|p| p.0 == wanted.0 && p.1.is(wanted.1))
}

// Whether the values have each of these.
fn has_values(vals: &[(u16, Value)], wanted: &[(u16, Value)]) -> bool
    ensures { result ≡ list_all (resolution.has_value vals.now) wanted.now }
{
    wanted.iter().all(|one| has_value(vals, *one))
}

/// Whether the referent agrees with the test: the names are equal, and the referent has each value of the test.
pub fn agrees(referent: &Ground, test: &Test) -> bool
    ensures { result ≡ resolution.agrees referent.now test.now }
{
    referent.name == test.name && has_values(referent.vals.as_slice(), test.values.as_slice())
}

// Whether the referent agrees with one of the tests.
pub(crate) fn agrees_with_any(referent: &Ground, tests: &[Test]) -> bool
    ensures { result ≡ list_any (resolution.agrees referent.now) tests.now }
{
    tests.iter().any(|test| agrees(referent, test))
}

// The place of the first test that the referent agrees with.
pub(crate) fn first_agreeing(referent: &Ground, tests: &[Test]) -> Option<usize>
    ensures { result ≡ position (resolution.agrees referent.now) tests.now }
{
    tests.iter().position(|test| agrees(referent, test))
}
