// The kinds that the categories of a grammar may have, by the rules seen so far.
ghost use Rattle.std.specs.Prelude.{◌≡◌, ◌<◌, ◌≤◌, ℕ, true, false, length, slice_index, slice_index_or, IsTrue, IfOk};
ghost use Rattle.codeco_checked.specs.declared.labels.Kind.{Kind};
ghost use Rattle.codeco_checked.specs.declared.labels.Children.TheVariants as child;
ghost use Rattle.codeco_checked.specs.Labels as labels;
ghost use Rattle.codeco_labels.specs.Kinds.{allows};
ghost use Rattle.codeco_labels.specs.Shapes as shapes;
ghost use Rattle.codeco_labels.specs.Tables as tables;
ghost use Rattle.codeco_checked.specs.declared.numbers.TheConstants.{NUMBERS};

use crate::allowed::Allowed;
use crate::found::Found;
use crate::shapes::Shape;
use codeco_checked::{Children, Kind, LabelRow};
use std::alloc::Global;
use std::marker::Model;
use wiki_base::Memory;

/// Categories in groups of one kind, by their numbers, and what each group may be.
#[derive(Drop)]
pub(crate) struct KindTable {
    groups: Vec<u16>,
    allowed: Vec<Allowed>,
}

impl Model for KindTable {
    ghost use Rattle.codeco_labels.specs.Tables.{KindRows};

    ghost Value = { KindRows };

    ghost view = { λ a. record { groups = a.groups.items; allowed = a.allowed.items } };
}

// Puts one group into another.
fn move_group(groups: &mut [u16], from: u16, to: u16)
    ensures { (c : ℕ) → c < length groups.old → slice_index groups.new c ≡ tables.moved from to (slice_index groups.old c) }
{
    for group in groups.iter_mut() {
        if *group == from {
            *group = to;
        }
    }
}

impl KindTable {
    ghost use Rattle.codeco_labels.specs.Tables.{IsWhole, IsAlive, Meets, Narrows};

    /// Each category in a group of its own, of which it is known whether it is a mark.
    pub(crate) fn new(alloc: Global, marks: &[bool]) -> Result<KindTable, Memory>
        requires { length marks.now ≤ NUMBERS }
        ensures size { IfOk result (λ table. length table.groups ≡ length marks.now) }
        ensures whole { IfOk result (λ table. IsWhole table) }
        ensures alive { IfOk result (λ table. IsAlive table) }
        ensures meets { IfOk result (λ table. (kinds : ℕ → Kind) → ((c : ℕ) → labels.is_mark (kinds c) ≡ slice_index_or marks.now c false)
            → Meets table kinds) }
        ensures marks { IfOk result (λ table. (kinds : ℕ → Kind) → Meets table kinds → (c : ℕ) → c < length marks.now
            → labels.is_mark (kinds c) ≡ slice_index_or marks.now c false) }
    {
        let mut groups = Vec::new(alloc);
        let mut allowed = Vec::new(alloc);
        for (category, mark) in marks.iter().enumerate() {
            groups.push(category as u16)?;
            allowed.push(Allowed::of_mark(*mark))?;
        }
        Ok(KindTable { groups, allowed })
    }

    /// The category may be only what is allowed here; whether it may still be something.
    pub(crate) fn restrict(&mut self, category: u16, to: Allowed) -> bool
        requires whole { IsWhole self.old }
        requires inside { category < length self.old.groups }
        ensures { Narrows self.old self.new result (λ kinds. allows to (kinds category)) }
    {
        let group = self.groups[category as usize] as usize;
        let allowed = self.allowed[group].meet(to);
        self.allowed[group] = allowed;
        !allowed.is_nothing()
    }

    // Two categories are of one kind; whether they may still be something.
    fn join(&mut self, one: u16, other: u16) -> bool
        requires whole { IsWhole self.old }
        requires one_inside { one < length self.old.groups }
        requires other_inside { other < length self.old.groups }
        ensures { Narrows self.old self.new result (λ kinds. labels.same_kind (kinds other) (kinds one)) }
    {
        let kept = self.groups[one as usize];
        let gone = self.groups[other as usize];
        let allowed = self.allowed[kept as usize].meet(self.allowed[gone as usize]);
        self.allowed[kept as usize] = allowed;
        move_group(&mut self.groups, gone, kept);
        !allowed.is_nothing()
    }

    fn restrict_one(&mut self, found: Found, kind: Kind) -> bool
        requires whole { IsWhole self.old }
        requires below { IsTrue (shapes.found_below (length self.old.groups) found) }
        ensures { Narrows self.old self.new result (λ kinds. shapes.children_have (child.One kind) 0 kinds found) }
    {
        match found.one() {
            Some(category) => self.restrict(category, Allowed::Only(kind)),
            None => false,
        }
    }

    fn restrict_two(&mut self, found: Found, first: Kind, second: Kind) -> bool
        requires whole { IsWhole self.old }
        requires below { IsTrue (shapes.found_below (length self.old.groups) found) }
        ensures { Narrows self.old self.new result (λ kinds. shapes.children_have (child.Two first second) 0 kinds found) }
    {
        match found.two() {
            Some((one, other)) => {
                if !self.restrict(one, Allowed::Only(first)) {
                    return false;
                }
                self.restrict(other, Allowed::Only(second))
            }
            None => false,
        }
    }

    fn join_one(&mut self, found: Found, head: u16) -> bool
        requires whole { IsWhole self.old }
        requires head { head < length self.old.groups }
        requires below { IsTrue (shapes.found_below (length self.old.groups) found) }
        ensures { Narrows self.old self.new result (λ kinds. shapes.children_have child.Alike head kinds found) }
    {
        match found.one() {
            Some(category) => self.join(head, category),
            None => false,
        }
    }

    fn join_two(&mut self, found: Found, head: u16) -> bool
        requires whole { IsWhole self.old }
        requires head { head < length self.old.groups }
        requires below { IsTrue (shapes.found_below (length self.old.groups) found) }
        ensures { Narrows self.old self.new result (λ kinds. shapes.children_have child.TwoAlike head kinds found) }
    {
        match found.two() {
            Some((one, other)) => {
                if !self.join(head, one) {
                    return false;
                }
                self.join(head, other)
            }
            None => false,
        }
    }

    // The children are those that a row asks for; whether that may be.
    fn fit_children(&mut self, children: Children, head: u16, found: Found) -> bool
        requires whole { IsWhole self.old }
        requires head { head < length self.old.groups }
        requires below { IsTrue (shapes.found_below (length self.old.groups) found) }
        ensures { Narrows self.old self.new result (λ kinds. shapes.children_have children head kinds found) }
    {
        match children {
            Children::No => found.is_no(),
            Children::One(kind) => self.restrict_one(found, kind),
            Children::Maybe(kind) => found.is_no() || self.restrict_one(found, kind),
            Children::Two(first, second) => self.restrict_two(found, first, second),
            Children::Alike => self.join_one(found, head),
            Children::TwoAlike => self.join_two(found, head),
        }
    }

    /// A rule with this head and such a body fits the row; whether that may be.
    pub(crate) fn fit(&mut self, row: &LabelRow, head: u16, shape: &Shape) -> bool
        requires whole { IsWhole self.old }
        requires head { head < length self.old.groups }
        requires below { IsTrue (shapes.found_below (length self.old.groups) shape.now.children) }
        ensures { Narrows self.old self.new result (shapes.row_holds row.now head shape.now) }
    {
        if !shape.fits(row) {
            return false;
        }
        if !self.restrict(head, Allowed::of_heads(row.heads)) {
            return false;
        }
        self.fit_children(row.children, head, shape.children)
    }
}
