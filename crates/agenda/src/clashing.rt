// A clash after a step.
ghost use Rattle.std.specs.Prelude.{◌≡◌, ℕ, false, IfSome, IsTrue, is_some};
ghost use Rattle.logic_terms.specs.Known.{theory_of};
ghost use Rattle.tableau_rules.specs.Branches.{IsBranch};
ghost use Rattle.tableau_rules.specs.Clashes.{is_clash, has_clash};
ghost use Rattle.tableau_rules.specs.Graph.{Graph};
ghost use Rattle.tableau_rules.specs.Rules.{applies, after};
ghost use Rattle.tableau_rules.specs.Shown.{graph_of};
ghost use Rattle.agenda.specs.Agendas.{IsAfterCalm};

use crate::stepping::{grown_by, last_edge};
use logic_terms::Knowledge;
use tableau_rules::{Branch, Clash, Step, clash_at_node};

/// A clash of the branch after a step that applied to a branch without a clash, if there is one: it is looked for where
/// the step changed something. It takes no memory.
pub fn clash_after(k: &Knowledge, b: &Branch, step: &Step) -> Option<Clash>
    ensures exact { IsAfterCalm (theory_of k.now) step.now (graph_of b.now) → is_some result ≡ has_clash (theory_of k.now) (graph_of b.now) }
    ensures there { IfSome result (λ c. IsTrue (is_clash (theory_of k.now) (graph_of b.now) c)) }
{
    match grown_by(step) {
        Some(node) => clash_at_node(k, b, node),
        None => match last_edge(b) {
            Some(edge) => match clash_at_node(k, b, edge.from) {
                Some(found) => Some(found),
                None => clash_at_node(k, b, edge.to),
            },
            None => None,
        },
    }
}
