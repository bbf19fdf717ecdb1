// Pieces of knowledge that a closed tree uses.
use logic_terms::{Class, Classes, Knowledge, Role};
use std::alloc::Global;
use tableau_rules::{Branch, Clash, Edge, Rule, Step, makes_neighbour, node_of, role_of_all};
use wiki_base::{Memory, WordId};

// The places of a node's label that the unfoldings of a word added.
#[derive(Clone, Copy, Debug)]
pub(crate) struct Growth {
    pub(crate) node: u64,
    pub(crate) from: u64,
    pub(crate) to: u64,
    pub(crate) word: WordId,
}

// What of the knowledge is used, in the words of its lists; names stand as their nodes.
#[derive(Drop)]
pub(crate) struct Uses {
    // Classes that no unfolding added to a node: asserted ones, general ones, and those that steps made of other classes.
    pub(crate) classes: Vec<(u64, Class)>,
    pub(crate) unfoldings: Vec<(WordId, Class)>,
    pub(crate) edges: Vec<Edge>,
    // Roles of edges, and those that they are to be below.
    pub(crate) inclusions: Vec<(Role, Role)>,
    pub(crate) transitive: Vec<WordId>,
    // The nodes of all that is used.
    pub(crate) nodes: Vec<u64>,
    pub(crate) differences: Vec<(WordId, WordId)>,
}

impl Uses {
    pub(crate) fn new(alloc: Global) -> Uses {
        Uses {
            classes: Vec::new(alloc),
            unfoldings: Vec::new(alloc),
            edges: Vec::new(alloc),
            inclusions: Vec::new(alloc),
            transitive: Vec::new(alloc),
            nodes: Vec::new(alloc),
            differences: Vec::new(alloc),
        }
    }

    // What a clash uses.
    pub(crate) fn note_clash(
        &mut self,
        k: &Knowledge,
        b: &Branch,
        grown: &[Growth],
        clash: Clash,
    ) -> Result<(), Memory> {
        match clash {
            Clash::Pair(node, named, denied) => {
                self.note_class(b, grown, node, named)?;
                self.note_class(b, grown, node, denied)
            }
            Clash::NoThing(node, place) => self.note_class(b, grown, node, place),
            Clash::NoValue(node, place, edge) => {
                self.note_class(b, grown, node, place)?;
                match (b.edge(edge), role_at(b, node, place)) {
                    (Some(edge), Some(role)) => self.note_edge(edge, node, role),
                    _ => Ok(()),
                }
            }
            Clash::Names(one, other) => {
                self.differences.push((one, other))?;
                match node_of(k, one) {
                    Some(node) => self.note_node(node),
                    None => Ok(()),
                }
            }
        }
    }

    // What a step uses.
    pub(crate) fn note_step(
        &mut self,
        k: &Knowledge,
        b: &Branch,
        grown: &[Growth],
        step: &Step,
    ) -> Result<(), Memory> {
        self.note_class(b, grown, step.node, step.class)?;
        let Some(class) = b.class(step.node, step.class) else {
            return Ok(());
        };
        match step.rule {
            Rule::All => self.note_way(k, b, class, step),
            Rule::Trans => self.note_transitive(k, b, class, step),
            Rule::Unit => self.note_complements(b, grown, class, step.node),
            _ => Ok(()),
        }
    }

    fn note_node(&mut self, node: u64) -> Result<(), Memory> {
        if !self.nodes.contains(&node) {
            self.nodes.push(node)?;
        }
        Ok(())
    }

    // A class at a place of a node's label, with the word whose unfoldings added it, if they did.
    fn note_class(
        &mut self,
        b: &Branch,
        grown: &[Growth],
        node: u64,
        place: u64,
    ) -> Result<(), Memory> {
        let Some(class) = b.class(node, place) else {
            return Ok(());
        };
        self.note_node(node)?;
        let copied = class.copy(*self.classes.allocator())?;
        match grown_by(grown, node, place) {
            Some(word) => self.unfoldings.push((word, copied))?,
            None => self.classes.push((node, copied))?,
        }
        Ok(())
    }

    // The members of a union whose complements stand in a node's label.
    fn note_complements(
        &mut self,
        b: &Branch,
        grown: &[Growth],
        class: &Class,
        node: u64,
    ) -> Result<(), Memory> {
        let Some(members) = class.union() else {
            return Ok(());
        };
        for place in 0..b.label_len(node) {
            if b.class(node, place)
                .is_some_and(|own| denies_one(own, members))
            {
                self.note_class(b, grown, node, place)?;
            }
        }
        Ok(())
    }

    // An edge by which a class of all successors reaches a neighbour.
    fn note_way(
        &mut self,
        k: &Knowledge,
        b: &Branch,
        class: &Class,
        step: &Step,
    ) -> Result<(), Memory> {
        let Some(role) = role_of_all(class) else {
            return Ok(());
        };
        for edge in b.edges_at(step.node) {
            if makes_neighbour(k, role, step.node, step.other, *edge) {
                return self.note_edge(*edge, step.node, role);
            }
        }
        Ok(())
    }

    // The edges by which transitive roles reach a neighbour.
    fn note_transitive(
        &mut self,
        k: &Knowledge,
        b: &Branch,
        class: &Class,
        step: &Step,
    ) -> Result<(), Memory> {
        let Some(role) = role_of_all(class) else {
            return Ok(());
        };
        for word in k.transitive() {
            for inverted in [false, true] {
                let own = Role {
                    id: *word,
                    inverted,
                };
                if k.is_below(own, role) && self.has_noted_way(k, b, own, step)? {
                    self.transitive.push(*word)?;
                    self.note_inclusion(own, role)?;
                }
            }
        }
        Ok(())
    }

    // Notes an edge by which a role reaches a neighbour, if there is one.
    fn has_noted_way(
        &mut self,
        k: &Knowledge,
        b: &Branch,
        role: Role,
        step: &Step,
    ) -> Result<bool, Memory> {
        for edge in b.edges_at(step.node) {
            if makes_neighbour(k, role, step.node, step.other, *edge) {
                self.note_edge(*edge, step.node, role)?;
                return Ok(true);
            }
        }
        Ok(false)
    }

    // An edge from or to a node that is one of a role.
    fn note_edge(&mut self, edge: Edge, node: u64, role: Role) -> Result<(), Memory> {
        self.edges.push(edge)?;
        self.note_node(edge.from)?;
        self.note_node(edge.to)?;
        let own = if edge.from == node {
            edge.role
        } else {
            edge.role.inverse()
        };
        self.note_inclusion(own, role)
    }

    fn note_inclusion(&mut self, below: Role, above: Role) -> Result<(), Memory> {
        if !below.is_same(above) {
            self.inclusions.push((below, above))?;
        }
        Ok(())
    }
}

// The role of the class at a place of a node's label, if it speaks of all successors.
fn role_at(b: &Branch, node: u64, place: u64) -> Option<Role> {
    match b.class(node, place) {
        Some(class) => role_of_all(class),
        None => None,
    }
}

// The word whose unfoldings added the class at a place of a node's label.
fn grown_by(grown: &[Growth], node: u64, place: u64) -> Option<WordId> {
    for growth in grown {
        if growth.node == node && growth.from <= place && place < growth.to {
            return Some(growth.word);
        }
    }
    None
}

// Whether a class is the complement of one of these.
fn denies_one(class: &Class, members: &Classes) -> bool {
    members
        .as_slice()
        .iter()
        .any(|member| class.is_complement_of(member))
}
