// What is asked.
use crate::part::Part;
use logic_terms::Names;

// The parts, the names that they are over, and the rule applications that one search may take.
#[derive(Drop)]
pub(crate) struct Inquiry<'p> {
    pub(crate) parts: &'p [Part],
    pub(crate) names: &'p Names,
    pub(crate) budget: u64,
}
