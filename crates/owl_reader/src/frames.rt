// Constructs whose parentheses are open, with what they have.
ghost use Rattle.std.specs.Prelude.{◌≡◌, [], ◌∷◌, OnOk, MatchOption};
ghost use Rattle.logic_terms.specs.Shown.{concept_of};
ghost use Rattle.owl_reader.specs.Views.{frame_of, frames_of};
ghost use Rattle.owl_reader.specs.Reading.{new_frame, next_sort, with_any, with_class, with_role, with_name, top_sort, may_annotate, is_nil};

use crate::keywords::{makes_of, repeats, sorts, takes_annotations};
use crate::kinds::{Construct, Sort};
use logic_terms::{Class, Classes, Role};
use std::alloc::Global;
use wiki_base::{List, Memory, WordId};

/// A construct whose parenthesis is open.
#[derive(Drop)]
pub struct Frame {
    pub construct: Construct,
    /// Nothing stands in it yet.
    pub fresh: bool,
    /// What must still come.
    pub wanted: &'static [Sort],
    pub classes: Classes,
    pub roles: List<Role>,
    pub names: List<WordId>,
}

impl Frame {
    pub fn new(alloc: Global, construct: Construct) -> Frame
        ensures { frame_of result ≡ new_frame construct }
    {
        Frame {
            construct,
            fresh: true,
            wanted: sorts(construct),
            classes: Classes::new(alloc),
            roles: List::new(alloc),
            names: List::new(alloc),
        }
    }

    /// What may come next.
    pub fn next_sort(&self) -> Option<Sort>
        ensures { result ≡ next_sort (frame_of self.now) }
    {
        match self.wanted {
            [] => repeats(self.construct),
            [sort, ..] => Some(*sort),
        }
    }

    pub fn is_whole(&self) -> bool
        ensures { result ≡ is_nil (frame_of self.now).wanted }
    {
        match self.wanted {
            [] => true,
            _ => false,
        }
    }

    /// Notes that one more stands in it.
    pub fn add_any(&mut self)
        ensures { frame_of self.new ≡ with_any (frame_of self.old) }
    {
        self.fresh = false;
        match self.wanted {
            [] => {}
            [_, rest @ ..] => self.wanted = rest,
        }
    }

    pub fn add_class(&mut self, class: Class) -> Result<(), Memory>
        ensures { OnOk result (frame_of self.new ≡ with_class (concept_of class) (frame_of self.old)) }
    {
        self.add_any();
        self.classes.push(class)
    }

    pub fn add_role(&mut self, role: Role) -> Result<(), Memory>
        ensures { OnOk result (frame_of self.new ≡ with_role role (frame_of self.old)) }
    {
        self.add_any();
        self.roles.push(role)
    }

    pub fn add_name(&mut self, name: WordId) -> Result<(), Memory>
        ensures { OnOk result (frame_of self.new ≡ with_name name (frame_of self.old)) }
    {
        self.add_any();
        self.names.push(name)
    }
}

/// The open constructs, the innermost last.
#[derive(Drop)]
pub struct Frames {
    frames: Vec<Frame>,
}

impl Frames {
    pub fn new(alloc: Global) -> Frames
        ensures { frames_of result ≡ [] }
    {
        Frames {
            frames: Vec::new(alloc),
        }
    }

    pub fn push(&mut self, frame: Frame) -> Result<(), Memory>
        ensures { OnOk result (frames_of self.new ≡ frame_of frame ∷ frames_of self.old) }
    {
        self.frames.push(frame)?;
        Ok(())
    }

    /// Takes the innermost out.
    pub fn pop(&mut self) -> Option<Frame>
        ensures { MatchOption result ((frames_of self.old ≡ []) × (frames_of self.new ≡ [])) (λ top. frames_of self.old ≡ frame_of top ∷ frames_of self.new) }
    {
        self.frames.pop()
    }

    /// What may come next in the innermost.
    pub fn top_sort(&self) -> Option<Sort>
        ensures { result ≡ top_sort (frames_of self.now) }
    {
        match self.frames.as_slice() {
            [] => None,
            [.., top] => top.next_sort(),
        }
    }

    /// Whether annotations may come next in the innermost.
    pub fn may_annotate(&self) -> bool
        ensures { result ≡ may_annotate (frames_of self.now) }
    {
        match self.frames.as_slice() {
            [] => false,
            [.., top] => top.fresh && takes_annotations(makes_of(top.construct)),
        }
    }
}
