// Menus: the tokens that may follow, each with its group.
ghost use Rattle.std.specs.Prelude.{◌≡◌, ◌<◌, ◌↔◌, [], ◌∷◌, ◌++◌, length, slice_get, Some, IsTrue, IfOk, OnOk, OnErr};
ghost use Rattle.derivation_trees.specs.Menus as menus;

use lexicon::Kind;
use std::alloc::Global;
use std::marker::Model;
use wiki_base::Memory;

/// What a token of a menu is: a terminal of the grammar, or a form of a word of one of the five kinds.
#[derive(Clone, Copy, Debug, PartialEq, Eq)]
pub enum Group {
    /// A terminal of the grammar, as `every`.
    Function,
    /// A name.
    Name,
    /// A singular or plural of a noun.
    Noun,
    /// The word of an of-construct.
    Of,
    /// A form of a verb.
    Verb,
    /// An adjective.
    Adjective,
}

impl Group {
    /// The group of the forms of words of a kind.
    pub fn of_kind(kind: Kind) -> Group
        ensures { result ≡ menus.group_of kind }
    {
        match kind {
            Kind::Name => Group::Name,
            Kind::Noun => Group::Noun,
            Kind::Of => Group::Of,
            Kind::Verb => Group::Verb,
            Kind::Adjective => Group::Adjective,
        }
    }

    /// The place of the group among the groups: 0 to 5.
    pub fn number(self) -> u8
        ensures { result ≡ menus.group_number self }
    {
        match self {
            Group::Function => 0,
            Group::Name => 1,
            Group::Noun => 2,
            Group::Of => 3,
            Group::Verb => 4,
            Group::Adjective => 5,
        }
    }
}

/// A list of tokens, each with its group; the texts are borrowed.
#[derive(Drop)]
pub struct Menu<'a> {
    items: Vec<(Group, &'a str)>,
}

impl<'a> Model for Menu<'a> {
    ghost use Rattle.std.specs.Prelude.{List, ℕ, map};
    ghost use Rattle.derivation_trees.specs.declared.menus.Group.{Group as OneGroup};

    ghost Value = { List (OneGroup × List ℕ) };

    ghost view = { λ a. map (λ e. (e.0, e.1.now)) a.items.items };
}

impl<'a> Menu<'a> {
    /// The empty list, which takes no memory.
    pub fn new(alloc: Global) -> Self
        ensures { result ≡ [] }
    {
        Menu {
            items: Vec::new(alloc),
        }
    }

    /// How many entries there are.
    pub fn len(&self) -> usize
        ensures { result ≡ length self.now }
    {
        self.items.len()
    }

    /// Whether there is none.
    pub fn is_empty(&self) -> bool
        ensures { IsTrue result ↔ (self.now ≡ []) }
    {
        self.items.is_empty()
    }

    /// The entry at a place below the length. The text may outlive the menu.
    pub fn get(&self, place: usize) -> (Group, &'a str)
        requires { place < length self.now }
        ensures { slice_get self.now place ≡ Some (result.0, result.1.now) }
    {
        self.items[place]
    }

    /// Adds an entry at the end.
    pub fn push(&mut self, group: Group, text: &'a str) -> Result<(), Memory>
        ensures ok { OnOk result (self.new ≡ self.old ++ (group, text.now) ∷ []) }
        ensures err { OnErr result (self.new ≡ self.old) }
    {
        self.items.push((group, text))?;
        Ok(())
    }

    /// An equal menu, whose texts are borrowed from where this one's are.
    #[tactic(auto, using(wiki_base::proofs::ListLaws::take_slice_get))]
    pub fn copy(&self) -> Result<Menu<'a>, Memory>
        ensures { IfOk result (λ copied. copied ≡ self.now) }
    {
        let mut copied = Menu::new(*self.items.allocator());
        for place in 0..self.len() {
            let (group, text) = self.get(place);
            copied.push(group, text)?;
        }
        Ok(copied)
    }
}
