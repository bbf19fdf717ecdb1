// Derivation trees.
ghost use Rattle.std.specs.Prelude.{◌≡◌, ◌<◌, ◌==◌, [], ◌∷◌, ◌++◌, length, slice_get, Some, IfOk, OnOk, OnErr};
ghost use Rattle.derivation_trees.specs.Trees.{node_of, nodes_of};

use codeco_terms::Value;
use std::alloc::Global;
use wiki_base::{Copied, List, Memory};

/// An instance of a rule: each variable with its value, in order of number.
pub type Binds = List<(u8, Value)>;

/// Positions in the tokens, each the number of tokens before it.
pub type Places = List<u16>;

/// A node of a derivation: the number of its rule, from 1, an instance of the rule, the position of the referent that
/// each `<` of the rule has found, and a child for each category in the body.
#[derive(Drop)]
#[cycle(tree)]
pub struct Tree {
    pub rule: u16,
    pub values: Binds,
    pub found: Places,
    pub children: Trees,
}

/// Trees, in the order of the categories that they stand for.
#[derive(Drop)]
#[cycle(tree)]
pub struct Trees {
    items: Vec<Tree>,
}

impl Trees {
    ghost use Rattle.std.specs.Prelude.{map};
    ghost use Rattle.derivation_trees.specs.declared.trees.Tree.TheViews.{size-Tree, size-Trees};

    /// No trees, which takes no memory.
    pub fn new(alloc: Global) -> Self
        ensures { nodes_of result ≡ [] }
    {
        Trees {
            items: Vec::new(alloc),
        }
    }

    /// The trees of a vector, which takes no memory.
    pub fn from_vec(items: Vec<Tree>) -> Self
        ensures { nodes_of result ≡ map node_of items.items }
    {
        Trees { items }
    }

    /// Gives the vector back, which takes no memory.
    pub fn into_vec(self) -> Vec<Tree>
        ensures { map node_of result.items ≡ nodes_of self }
    {
        let Trees { items } = self;
        items
    }

    /// How many trees there are.
    pub fn len(&self) -> usize
        ensures { result ≡ length (nodes_of self.now) }
    {
        self.items.len()
    }

    /// Whether there is none.
    pub fn is_empty(&self) -> bool
        ensures { result ≡ (length (nodes_of self.now) == 0) }
    {
        self.items.is_empty()
    }

    /// The tree at a place below the length. It is smaller than the list, so that a recursion may go on in it.
    pub fn get(&self, place: usize) -> &Tree
        requires { place < length (nodes_of self.now) }
        ensures item { slice_get (nodes_of self.now) place ≡ Some (node_of result.now) }
        ensures smaller { size-Tree result.now < size-Trees self.now }
    {
        &self.items[place]
    }

    /// Adds a tree at the end. Where memory is refused the list stays, and the tree is dropped.
    pub fn push(&mut self, tree: Tree) -> Result<(), Memory>
        ensures ok { OnOk result (nodes_of self.new ≡ nodes_of self.old ++ node_of tree ∷ []) }
        ensures err { OnErr result (nodes_of self.new ≡ nodes_of self.old) }
    {
        self.items.push(tree)?;
        Ok(())
    }
}

impl Tree {
    /// A tree that is the same node.
    #[cycle(copying)]
    pub fn copy(&self, alloc: Global) -> Result<Tree, Memory>
        ensures { IfOk result (λ copied. node_of copied ≡ node_of self.now) }
    {
        Ok(Tree {
            rule: self.rule,
            values: self.values.copy()?,
            found: self.found.copy()?,
            children: self.children.copy(alloc)?,
        })
    }
}

impl Trees {
    /// A list of the same nodes.
    #[tactic(auto, using(wiki_base::proofs::ListLaws::take_slice_get))]
    #[cycle(copying)]
    pub fn copy(&self, alloc: Global) -> Result<Trees, Memory>
        ensures { IfOk result (λ copied. nodes_of copied ≡ nodes_of self.now) }
    {
        let mut copied = Trees::new(alloc);
        for place in 0..self.len() {
            copied.push(self.get(place).copy(alloc)?)?;
        }
        Ok(copied)
    }
}
