// What is sought.

use scopes::{Access, Test};

// A category whose phrases are sought, and the place and the list where they begin.
#[derive(Clone, Copy)]
pub(crate) struct Sought<'a> {
    pub(crate) wanted: &'a Test,
    pub(crate) place: u16,
    pub(crate) list: &'a Access,
}
