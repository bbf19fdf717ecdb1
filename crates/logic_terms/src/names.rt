// Lists of name words.
ghost use Rattle.std.specs.Prelude.{◌≡◌, ◌<◌, ◌==◌, ◌↔◌, [], ◌∷◌, ◌++◌, All, Contains, IsTrue, length, slice_get, Some, IfOk, OnOk, OnErr};
ghost use Rattle.logic_terms.specs.Names.{names_rise};

use std::alloc::Global;
use std::marker::Model;
use wiki_base::{Memory, WordId};

/// Name words in order of their numbers, each once.
#[derive(Drop)]
pub struct Names {
    items: Vec<WordId>,
}

impl Model for Names {
    ghost use Rattle.std.specs.Prelude.{◌≡◌, true, List};
    ghost use Rattle.wiki_base.specs.declared.numbers.WordId.{WordId};
    ghost use Rattle.logic_terms.specs.Names.{names_rise};

    ghost Value = { List WordId };

    ghost view = { λ n. n.items.items };

    ghost invariant = { λ n. names_rise n.items.items ≡ true };
}

impl Names {
    /// The empty list, which takes no memory.
    pub fn new(alloc: Global) -> Self
        ensures { result ≡ [] }
    {
        Names {
            items: Vec::new(alloc),
        }
    }

    /// The names of a vector whose numbers rise. It takes no memory.
    pub fn from_vec(items: Vec<WordId>) -> Self
        requires { IsTrue (names_rise items.items) }
        ensures { result ≡ items.items }
    {
        Names { items }
    }

    /// How many names there are.
    pub fn len(&self) -> usize
        ensures { result ≡ length self.now }
    {
        self.items.len()
    }

    /// Whether there is none.
    pub fn is_empty(&self) -> bool
        ensures { result ≡ (length self.now == 0) }
    {
        self.items.is_empty()
    }

    /// The name at a place below the length.
    pub fn get(&self, place: usize) -> WordId
        requires { place < length self.now }
        ensures { slice_get self.now place ≡ Some result }
    {
        self.items[place]
    }

    /// All of them, in order.
    pub fn as_slice(&self) -> &[WordId]
        ensures names { result.now ≡ self.now }
        ensures rising { IsTrue (names_rise self.now) }
    {
        self.items.as_slice()
    }

    /// Adds a name whose number is above all others.
    pub fn push(&mut self, name: WordId) -> Result<(), Memory>
        requires { All (λ n. n.0 < name.0) self.old }
        ensures ok { OnOk result (self.new ≡ self.old ++ name ∷ []) }
        ensures err { OnErr result (self.new ≡ self.old) }
    {
        self.items.push(name)?;
        Ok(())
    }

    /// Equal names in memory of their own.
    pub fn copy(&self) -> Result<Names, Memory>
        ensures { IfOk result (λ copied. copied ≡ self.now) }
    {
        let alloc = *self.items.allocator();
        Ok(Names {
            items: Vec::from_slice(alloc, self.items.as_slice())?,
        })
    }
}
