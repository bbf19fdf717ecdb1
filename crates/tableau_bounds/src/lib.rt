//! How many rule applications always end the systematic search. docs/REASONING.md has the rules and the search.
#![tactic(auto)]

ghost use Rattle.std.specs.Prelude.{ℕ, ◌≡◌, ◌+◌, ◌*◌, ◌≤◌, length, IsTrue};
ghost use Rattle.logic_terms.specs.Plain.{is_plain_theory};
ghost use Rattle.logic_terms.specs.Theory.{Theory};
ghost use Rattle.tableau_rules.specs.Graph.{Graph};
ghost use Rattle.tableau_rules.specs.Searching.{IsLonger};
ghost use Rattle.tableau_rules.specs.Branches.{start, IsBranch};
ghost use Rattle.tableau_bounds.specs.Enough.{own_occurrences, class_count, most_nodes, enough, enough_without_choices, enough_without_new_nodes};
ghost use Rattle.tableau_bounds.specs.Fragments.{is_without_unions, is_without_existentials};

/// Does nothing: its clauses are the law that the systematic search over plain knowledge ends, for each budget from
/// `enough` on, that no branch of such knowledge has more than `most_nodes` nodes, and how many classes these two count:
/// each class occurrence, and it along each transitive word and its inverse. Over knowledge without unions fewer applications
/// are enough, and far fewer over knowledge without unions and existential restrictions, where no branch gets a node.
pub fn search_ends()
    ensures nodes { (k : Theory) → IsTrue (is_plain_theory k) → (g : Graph) → IsBranch k g → length g.nodes ≤ most_nodes k }
    ensures classes { (k : Theory) → class_count k ≡ length (own_occurrences k) * (1 + 2 * length k.transitive) }
    ensures ends { (k : Theory) → IsTrue (is_plain_theory k) → (n : ℕ) → enough k ≤ n → ¬ IsLonger k n }
    ensures straight { (k : Theory) → IsTrue (is_without_unions k) → (n : ℕ) → enough_without_choices k ≤ n → ¬ IsLonger k n }
    ensures first_nodes { (k : Theory) → IsTrue (is_without_unions k) → IsTrue (is_without_existentials k) → (g : Graph) → IsBranch k g
        → length g.nodes ≡ length (start k).nodes }
    ensures short { (k : Theory) → IsTrue (is_without_unions k) → IsTrue (is_without_existentials k) → (n : ℕ) → enough_without_new_nodes k ≤ n
        → ¬ IsLonger k n }
{}
