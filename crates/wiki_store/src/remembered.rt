// Answers that were found before.
ghost use Rattle.std.specs.Prelude.{◌≡◌, ◌≤◌, [], All, IfSome, length};
ghost use Rattle.logic_terms.specs.Shown.{concept_of};
ghost use Rattle.wiki_parts.specs.Holding.{Holding};
ghost use Rattle.wiki_store.specs.Remembered.{AreAnswers, IsRemembered};

use answers::Answers;
use lists::List;
use logic_terms::{Class, Classes, Role};
use std::alloc::Global;

// The answers to one class, and a number that is made of the class.
#[derive(Drop)]
pub(crate) struct Row {
    pub(crate) mark: u64,
    pub(crate) class: Class,
    pub(crate) answers: Answers,
}

// Classes that were asked for, with their answers, in order of the numbers that are made of them.
#[derive(Drop)]
pub(crate) struct Remembered {
    pub(crate) rows: List<Row>,
}

impl Remembered {
    // None are remembered, which takes no memory.
    pub(crate) fn new(alloc: Global) -> Remembered
        ensures { result.rows ≡ [] }
    {
        Remembered {
            rows: List::new(alloc),
        }
    }

    // Forgets them all, and gives their memory back.
    pub(crate) fn clear(&mut self)
        ensures { self.new.rows ≡ [] }
    {
        self.rows = List::new(self.rows.allocator());
    }

    // The answers to a class, if they are remembered.
    pub(crate) fn find(&self, class: &Class) -> Option<&Answers>
        ensures { IfSome result (λ answers. (wiki : Holding) → All (IsRemembered wiki) self.now.rows
            → AreAnswers wiki (concept_of class.now) answers.now.yes answers.now.unknown) }
    {
        let place = self.place_of(mark_of(class, 0));
        if place < self.rows.len() {
            let row = self.rows.get(place);
            if row.class.is_same(class) {
                return Some(&row.answers);
            }
        }
        None
    }

    // Remembers the answers to a class, if there is memory for that. Of two classes with one number the older is forgotten.
    pub(crate) fn keep(&mut self, alloc: Global, class: &Class, answers: Answers)
        ensures { (wiki : Holding) → All (IsRemembered wiki) self.old.rows
            → AreAnswers wiki (concept_of class.now) answers.yes answers.unknown → All (IsRemembered wiki) self.new.rows }
    {
        if let Ok(class) = class.copy(alloc) {
            let mark = mark_of(&class, 0);
            self.put(Row {
                mark,
                class,
                answers,
            });
        }
    }

    // Puts a row in its place, in place of one with the same number.
    fn put(&mut self, row: Row)
        ensures { (wiki : Holding) → All (IsRemembered wiki) self.old.rows → IsRemembered wiki row → All (IsRemembered wiki) self.new.rows }
    {
        let place = self.place_of(row.mark);
        if place < self.rows.len() && self.rows.get(place).mark == row.mark {
            self.rows.set(place, row);
        } else {
            let _ = self.rows.insert(place, row);
        }
    }

    // The first place of a row whose number is not below this one.
    fn place_of(&self, mark: u64) -> usize
        ensures { result ≤ length self.now.rows }
    {
        self.rows.as_slice().partition_point(|row| row.mark < mark)
    }
}

// A number that is made of a class, and of one that was made of what stands before it.
#[cycle(marking)]
fn mark_of(class: &Class, before: u64) -> u64 {
    match class {
        Class::Thing => mixed(before, 1),
        Class::Named(word) => mixed(mixed(before, 2), word.0),
        Class::Not(inner) => mark_of(inner, mixed(before, 3)),
        Class::And(members) => mark_of_all(members, mixed(before, 4)),
        Class::Or(members) => mark_of_all(members, mixed(before, 5)),
        Class::Some(role, inner) => mark_of(inner, mark_of_role(*role, mixed(before, 6))),
        Class::All(role, inner) => mark_of(inner, mark_of_role(*role, mixed(before, 7))),
        Class::Value(role, name) => mixed(mark_of_role(*role, mixed(before, 8)), name.0),
    }
}

#[cycle(marking)]
fn mark_of_all(members: &Classes, before: u64) -> u64 {
    let mut mark = before;
    for place in 0..members.len() {
        mark = mark_of(members.get(place), mark);
    }
    mixed(mark, 9)
}

fn mark_of_role(role: Role, before: u64) -> u64 {
    mixed(mixed(before, role.id.0), if role.inverted { 1 } else { 0 })
}

// A number in which each bit of both others tells.
fn mixed(before: u64, number: u32) -> u64 {
    (before ^ number as u64)
        .wrapping_mul(0x9e37_79b9_7f4a_7c15)
        .rotate_left(31)
}
