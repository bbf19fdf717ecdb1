// Which node a step adds classes to.
ghost use Rattle.std.specs.Prelude.{◌≡◌, slice_get, length, ◌-◌};
ghost use Rattle.tableau_rules.specs.Shown.{graph_of};
ghost use Rattle.agenda.specs.Steps.{grown_by, sprouts, reaches_out};
ghost use Rattle.agenda.specs.Views.{last_edge};

use tableau_rules::{Branch, Edge, Rule, Step};

// The node whose label a step makes grow, and none for a step that adds an edge.
pub(crate) fn grown_by(step: &Step) -> Option<u64>
    ensures { result ≡ grown_by step.now }
{
    match step.rule {
        Rule::And => Some(step.node),
        Rule::Unfold => Some(step.node),
        Rule::All => Some(step.other),
        Rule::Trans => Some(step.other),
        Rule::Value => None,
        Rule::Unit => Some(step.node),
        Rule::Or => Some(step.node),
        Rule::Some => None,
    }
}

// Whether a rule makes a node.
pub(crate) fn sprouts(rule: Rule) -> bool
    ensures { result ≡ sprouts rule }
{
    match rule {
        Rule::Some => true,
        Rule::And => false,
        Rule::Unfold => false,
        Rule::All => false,
        Rule::Trans => false,
        Rule::Value => false,
        Rule::Unit => false,
        Rule::Or => false,
    }
}

// Whether a rule adds classes to a neighbour.
pub(crate) fn reaches_out(rule: Rule) -> bool
    ensures { result ≡ reaches_out rule }
{
    match rule {
        Rule::All => true,
        Rule::Trans => true,
        Rule::And => false,
        Rule::Unfold => false,
        Rule::Value => false,
        Rule::Unit => false,
        Rule::Or => false,
        Rule::Some => false,
    }
}

// The edge that was added last.
pub(crate) fn last_edge(b: &Branch) -> Option<Edge>
    ensures { result ≡ last_edge (graph_of b.now) }
{
    let count = b.edge_count();
    if count == 0 { None } else { b.edge(count - 1) }
}
