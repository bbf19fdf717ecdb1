// Knowledge with what a branch shows of it.
ghost use Rattle.std.specs.Prelude.{◌≡◌, IfOk, IfSome, IsTrue};
ghost use Rattle.logic_terms.specs.Known.{theory_of};
ghost use Rattle.logic_terms.specs.Shown.{concept_of};
ghost use Rattle.tableau_rules.specs.Shown.{graph_of};
ghost use Rattle.consequences.specs.Forced.{HasInEachModel, IsForced};

use crate::forcing::forced_branch;
use crate::showing::shows;
use logic_terms::{Class, Knowledge};
use std::alloc::Global;
use tableau_rules::{Branch, node_of};
use wiki_base::{Memory, WordId};

/// Knowledge, with a branch from which much of what holds in each of its models can be read off.
#[derive(Drop)]
pub struct Consequences {
    k: Knowledge,
    branch: Option<Branch>,
    pub ghost forced: { ∥ IfSome branch (λ b. IsForced (theory_of k) (graph_of b)) ∥₁ },
}

impl Consequences {
    ghost use Rattle.consequences.specs.Known.{theory_in};

    /// The consequences of knowledge. Below a budget of 100,000 none is looked for.
    pub fn new(alloc: Global, k: Knowledge, budget: u64) -> Result<Consequences, Memory>
        ensures { IfOk result (λ made. theory_in made ≡ theory_of k) }
    {
        let branch = forced_branch(alloc, &k, budget)?;
        Ok(Consequences { k, branch })
    }

    /// The knowledge itself.
    pub fn knowledge(&self) -> &Knowledge
        ensures { theory_of result.now ≡ theory_in self.now }
    {
        &self.k
    }

    /// Whether the branch shows that a name is in a class, which is then so in each finite model. Where it doesn't,
    /// nothing is said. It takes no memory.
    pub fn include(&self, class: &Class, name: WordId) -> bool
        ensures { IsTrue result → HasInEachModel (theory_in self.now) (concept_of class.now) name }
    {
        match &self.branch {
            Some(b) => includes(&self.k, b, class, name),
            None => false,
        }
    }
}

// Whether a branch that each model fits shows that a name is in a class.
fn includes(k: &Knowledge, b: &Branch, class: &Class, name: WordId) -> bool
    requires { ∥ IsForced (theory_of k.now) (graph_of b.now) ∥₁ }
    ensures { IsTrue result → HasInEachModel (theory_of k.now) (concept_of class.now) name }
{
    match node_of(k, name) {
        Some(node) => shows(k, b, class, node),
        None => false,
    }
}
