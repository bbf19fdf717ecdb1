// Classes and the roles in them.
ghost use Rattle.std.specs.Prelude.{◌≡◌, ◌<◌, ◌==◌, [], ◌∷◌, ◌++◌, map, length, slice_get, Some, OnOk, OnErr, IfOk};
ghost use Rattle.logic_terms.specs.Shown.{concept_of, concepts_of};
ghost use Rattle.logic_terms.specs.declared.expressions.Class.TheViews.{size-Class, size-Classes};

use std::alloc::Global;
use wiki_base::{Memory, WordId};

/// A relation word, read from its first place to its second, or the other way where `inverted`.
#[derive(Clone, Copy, Debug, PartialEq, Eq)]
pub struct Role {
    pub id: WordId,
    pub inverted: bool,
}

/// A class expression. Names of words stand for what an interpretation gives them.
#[cycle(class)]
#[derive(Drop)]
pub enum Class {
    Thing,
    Named(WordId),
    Not(Box<Class>),
    And(Classes),
    Or(Classes),
    Some(Role, Box<Class>),
    All(Role, Box<Class>),
    Value(Role, WordId),
}

/// A list of classes.
#[cycle(class)]
#[derive(Drop)]
pub struct Classes {
    items: Vec<Class>,
}

impl Class {
    /// An equal class in memory of its own.
    #[cycle(copying)]
    pub fn copy(&self, alloc: Global) -> Result<Class, Memory>
        ensures { IfOk result (λ copied. concept_of copied ≡ concept_of self.now) }
    {
        match self {
            Class::Thing => Ok(Class::Thing),
            Class::Named(word) => Ok(Class::Named(*word)),
            Class::Not(inner) => Ok(Class::Not(inner.copy_boxed(alloc)?)),
            Class::And(members) => Ok(Class::And(members.copy()?)),
            Class::Or(members) => Ok(Class::Or(members.copy()?)),
            Class::Some(role, inner) => Ok(Class::Some(*role, inner.copy_boxed(alloc)?)),
            Class::All(role, inner) => Ok(Class::All(*role, inner.copy_boxed(alloc)?)),
            Class::Value(role, name) => Ok(Class::Value(*role, *name)),
        }
    }

    #[cycle(copying)]
    fn copy_boxed(&self, alloc: Global) -> Result<Box<Class>, Memory>
        ensures { IfOk result (λ copied. concept_of copied.value ≡ concept_of self.now) }
    {
        let copied = Box::new(alloc, self.copy(alloc)?)?;
        Ok(copied)
    }
}

impl Classes {
    /// The empty list.
    pub fn new(alloc: Global) -> Self
        ensures { concepts_of result ≡ [] }
    {
        Classes {
            items: Vec::new(alloc),
        }
    }

    /// The classes of a `Vec`, in order.
    pub fn from_vec(items: Vec<Class>) -> Self
        ensures { concepts_of result ≡ map concept_of items.items }
    {
        Classes { items }
    }

    /// The same classes as a `Vec`.
    pub fn into_vec(self) -> Vec<Class>
        ensures { map concept_of result.items ≡ concepts_of self }
    {
        let Classes { items } = self;
        items
    }

    pub fn len(&self) -> usize
        ensures { result ≡ length (concepts_of self.now) }
    {
        self.items.len()
    }

    pub fn is_empty(&self) -> bool
        ensures { result ≡ (length (concepts_of self.now) == 0) }
    {
        self.items.is_empty()
    }

    /// The class at a place below the length. It is smaller than the list, so a recursion may go on in it.
    pub fn get(&self, place: usize) -> &Class
        requires { place < length (concepts_of self.now) }
        ensures item { slice_get (concepts_of self.now) place ≡ Some (concept_of result.now) }
        ensures smaller { size-Class result.now < size-Classes self.now }
    {
        &self.items[place]
    }

    pub fn as_slice(&self) -> &[Class]
        ensures { map concept_of result.now ≡ concepts_of self.now }
    {
        self.items.as_slice()
    }

    /// Adds a class at the end. Where memory is refused the list stays, and the class is dropped.
    pub fn push(&mut self, class: Class) -> Result<(), Memory>
        ensures ok { OnOk result (concepts_of self.new ≡ concepts_of self.old ++ concept_of class ∷ []) }
        ensures err { OnErr result (concepts_of self.new ≡ concepts_of self.old) }
    {
        self.items.push(class)?;
        Ok(())
    }

    /// Moves the classes of another list to the end. Where memory is refused the list stays, and the others are dropped.
    pub fn append(&mut self, more: Classes) -> Result<(), Memory>
        ensures ok { OnOk result (concepts_of self.new ≡ concepts_of self.old ++ concepts_of more) }
        ensures err { OnErr result (concepts_of self.new ≡ concepts_of self.old) }
    {
        let Classes { mut items } = more;
        self.items.append(&mut items)?;
        Ok(())
    }

    /// Equal classes in memory of their own.
    #[cycle(copying)]
    pub fn copy(&self) -> Result<Classes, Memory>
        ensures { IfOk result (λ copied. concepts_of copied ≡ concepts_of self.now) }
    {
        let alloc = *self.items.allocator();
        let mut copied = Classes::new(alloc);
        for class in &self.items {
            copied.push(class.copy(alloc)?)?;
        }
        Ok(copied)
    }
}
