// Classes as numbers: equal classes have one number.
use logic_terms::{Class, Classes, Knowledge, Role};
use std::alloc::Global;
use std::collections::BTreeMap;
use tableau_rules::node_of;
use wiki_base::{Memory, WordId};

// A class by the numbers of its parts. The members of an intersection or a union are a chain of cells.
#[derive(Clone, Copy, Debug, PartialEq, Eq, PartialOrd, Ord)]
pub(crate) enum Form {
    Thing,
    Named(u32),
    Not(u64),
    And(u64),
    Or(u64),
    Some(u32, bool, u64),
    All(u32, bool, u64),
    Value(u32, bool, u32),
    End,
    Cell(u64, u64),
}

// What is known of a class.
#[derive(Drop)]
pub(crate) struct Concept {
    pub(crate) form: Form,
    // The members of an intersection or a union, or what a class word unfolds to.
    pub(crate) parts: Vec<u64>,
    // The complement of each member of a union.
    pub(crate) denials: Vec<u64>,
    // The unions of which this is the complement of a member.
    pub(crate) watchers: Vec<u64>,
    // Its complement, where that was looked for.
    denial: Option<u64>,
    // The word or the complement of a word that it clashes with.
    pub(crate) opposite: Option<u64>,
    // The node of a value's name.
    pub(crate) named: Option<u64>,
    // The transitive roles that carry the class along, and what each carries.
    carried: Vec<(Role, u64)>,
}

// The classes by their numbers.
#[derive(Drop)]
pub(crate) struct Concepts {
    alloc: Global,
    numbers: BTreeMap<Form, u64>,
    entries: Vec<Concept>,
}

pub(crate) fn role_of(word: u32, inverted: bool) -> Role {
    Role {
        id: WordId(word),
        inverted,
    }
}

impl Concepts {
    pub(crate) fn new(alloc: Global) -> Concepts {
        Concepts {
            alloc,
            numbers: BTreeMap::new(alloc),
            entries: Vec::new(alloc),
        }
    }

    pub(crate) fn get(&self, number: u64) -> Option<&Concept> {
        self.entries.get(number as usize)
    }

    pub(crate) fn form(&self, number: u64) -> Form {
        match self.get(number) {
            Some(concept) => concept.form,
            None => Form::End,
        }
    }

    // The part of a class at a place.
    pub(crate) fn part(&self, number: u64, place: u64) -> Option<u64> {
        match self.get(number) {
            Some(concept) => concept.parts.get(place as usize).copied(),
            None => None,
        }
    }

    // How many parts a class has.
    pub(crate) fn part_count(&self, number: u64) -> u64 {
        match self.get(number) {
            Some(concept) => concept.parts.len() as u64,
            None => 0,
        }
    }

    // How many transitive roles carry a class along.
    pub(crate) fn carrier_count(&self, number: u64) -> usize {
        match self.get(number) {
            Some(concept) => concept.carried.len(),
            None => 0,
        }
    }

    // One of these roles, and the class that it carries.
    pub(crate) fn carried(&self, number: u64, place: usize) -> Option<(Role, u64)> {
        match self.get(number) {
            Some(concept) => concept.carried.get(place).copied(),
            None => None,
        }
    }

    // The number of a class.
    #[cycle(numbering)]
    pub(crate) fn number_of(&mut self, class: &Class) -> Result<u64, Memory> {
        match class {
            Class::Thing => self.numbered(Form::Thing),
            Class::Named(word) => self.numbered(Form::Named(word.0)),
            Class::Not(inner) => {
                let inner = self.number_of(inner)?;
                self.numbered(Form::Not(inner))
            }
            Class::And(members) => {
                let members = self.numbers_of(members)?;
                self.intersection(members)
            }
            Class::Or(members) => {
                let members = self.numbers_of(members)?;
                self.union(members)
            }
            Class::Some(role, inner) => {
                let inner = self.number_of(inner)?;
                self.numbered(Form::Some(role.id.0, role.inverted, inner))
            }
            Class::All(role, inner) => {
                let inner = self.number_of(inner)?;
                self.numbered(Form::All(role.id.0, role.inverted, inner))
            }
            Class::Value(role, name) => {
                self.numbered(Form::Value(role.id.0, role.inverted, name.0))
            }
        }
    }

    #[cycle(numbering)]
    fn numbers_of(&mut self, members: &Classes) -> Result<Vec<u64>, Memory> {
        let mut numbers = Vec::new(self.alloc);
        for place in 0..members.len() {
            let number = self.number_of(members.get(place))?;
            numbers.push(number)?;
        }
        Ok(numbers)
    }

    // The number of a form.
    fn numbered(&mut self, form: Form) -> Result<u64, Memory> {
        if let Some(number) = self.numbers.get(&form) {
            return Ok(*number);
        }
        let number = self.entries.len() as u64;
        self.entries.push(Concept {
            form,
            parts: Vec::new(self.alloc),
            denials: Vec::new(self.alloc),
            watchers: Vec::new(self.alloc),
            denial: None,
            opposite: None,
            named: None,
            carried: Vec::new(self.alloc),
        })?;
        self.numbers.insert(form, number)?;
        Ok(number)
    }

    fn chain(&mut self, members: &[u64]) -> Result<u64, Memory> {
        let mut chain = self.numbered(Form::End)?;
        for place in 0..members.len() {
            let member = members[members.len() - 1 - place];
            chain = self.numbered(Form::Cell(member, chain))?;
        }
        Ok(chain)
    }

    fn intersection(&mut self, members: Vec<u64>) -> Result<u64, Memory> {
        let chain = self.chain(members.as_slice())?;
        let number = self.numbered(Form::And(chain))?;
        self.set_parts(number, members);
        Ok(number)
    }

    fn union(&mut self, members: Vec<u64>) -> Result<u64, Memory> {
        let chain = self.chain(members.as_slice())?;
        let number = self.numbered(Form::Or(chain))?;
        self.set_parts(number, members);
        Ok(number)
    }

    fn set_parts(&mut self, number: u64, parts: Vec<u64>) {
        if let Some(concept) = self.entries.get_mut(number as usize) {
            concept.parts = parts;
        }
    }

    // Gives the classes of unfoldings their numbers.
    pub(crate) fn number_all(&mut self, k: &Knowledge) -> Result<(), Memory> {
        for entry in k.unfoldings() {
            let _ = self.numbered(Form::Named(entry.0.0))?;
            let _ = self.number_of(&entry.1)?;
        }
        Ok(())
    }

    // Notes what class words unfold to.
    pub(crate) fn unfold(&mut self, k: &Knowledge) -> Result<(), Memory> {
        for entry in k.unfoldings() {
            let word = self.numbered(Form::Named(entry.0.0))?;
            let class = self.number_of(&entry.1)?;
            if let Some(concept) = self.entries.get_mut(word as usize) {
                concept.parts.push(class)?;
            }
        }
        Ok(())
    }

    // Finds what is carried along, the complements of the members of unions, the nodes of values, and the classes that clash.
    pub(crate) fn complete(&mut self, k: &Knowledge) -> Result<(), Memory> {
        let given = self.entries.len() as u64;
        self.carry_all(k, 0, given)?;
        let end = self.entries.len() as u64;
        self.carry_all(k, given, end)?;
        for number in 0..self.entries.len() as u64 {
            match self.form(number) {
                Form::Or(_) => self.deny_members(number)?,
                Form::Value(_, _, name) => self.set_named(number, node_of(k, WordId(name))),
                _ => {}
            }
        }
        for number in 0..self.entries.len() as u64 {
            if let Form::Not(inner) = self.form(number) {
                if let Form::Named(_) = self.form(inner) {
                    self.set_opposite(number, inner);
                    self.set_opposite(inner, number);
                }
            }
        }
        Ok(())
    }

    // Finds what transitive roles carry of the classes with these numbers.
    fn carry_all(&mut self, k: &Knowledge, first: u64, end: u64) -> Result<(), Memory> {
        for number in first..end {
            if let Some(role) = self.role_of_all(number) {
                for word in k.transitive() {
                    self.carry(k, number, role, role_of(word.0, false))?;
                    self.carry(k, number, role, role_of(word.0, true))?;
                }
            }
        }
        Ok(())
    }

    // The role of a class that speaks of all successors.
    fn role_of_all(&self, number: u64) -> Option<Role> {
        match self.form(number) {
            Form::All(word, inverted, _) => Some(role_of(word, inverted)),
            Form::Not(inner) => match self.form(inner) {
                Form::Value(word, inverted, _) => Some(role_of(word, inverted)),
                _ => None,
            },
            _ => None,
        }
    }

    fn carry(
        &mut self,
        k: &Knowledge,
        number: u64,
        role: Role,
        carrier: Role,
    ) -> Result<(), Memory> {
        if k.is_below(carrier, role) {
            let along = self.along(number, carrier)?;
            if let Some(concept) = self.entries.get_mut(number as usize) {
                concept.carried.push((carrier, along))?;
            }
        }
        Ok(())
    }

    // The class that speaks of the successors by another role.
    fn along(&mut self, number: u64, role: Role) -> Result<u64, Memory> {
        match self.form(number) {
            Form::All(_, _, part) => self.numbered(Form::All(role.id.0, role.inverted, part)),
            Form::Not(inner) => match self.form(inner) {
                Form::Value(_, _, name) => {
                    let value = self.numbered(Form::Value(role.id.0, role.inverted, name))?;
                    self.numbered(Form::Not(value))
                }
                _ => Ok(number),
            },
            _ => Ok(number),
        }
    }

    fn set_named(&mut self, number: u64, named: Option<u64>) {
        if let Some(concept) = self.entries.get_mut(number as usize) {
            concept.named = named;
        }
    }

    fn set_opposite(&mut self, number: u64, opposite: u64) {
        if let Some(concept) = self.entries.get_mut(number as usize) {
            concept.opposite = Some(opposite);
        }
    }

    fn deny_members(&mut self, union: u64) -> Result<(), Memory> {
        for place in 0..self.part_count(union) {
            if let Some(member) = self.part(union, place) {
                let depth = self.entries.len() as u64;
                let denial = self.denial(member, depth)?;
                self.add_denial(union, denial)?;
            }
        }
        Ok(())
    }

    fn add_denial(&mut self, union: u64, denial: u64) -> Result<(), Memory> {
        if let Some(concept) = self.entries.get_mut(union as usize) {
            concept.denials.push(denial)?;
        }
        if let Some(concept) = self.entries.get_mut(denial as usize) {
            concept.watchers.push(union)?;
        }
        Ok(())
    }

    // The complement of a class in normal form, which is at most so deep.
    #[cycle(denying)]
    fn denial(&mut self, number: u64, depth: u64) -> Result<u64, Memory> {
        if depth == 0 {
            return Ok(number);
        }
        if let Some(concept) = self.get(number) {
            if let Some(known) = concept.denial {
                return Ok(known);
            }
        }
        let denial = self.new_denial(number, depth - 1)?;
        if let Some(concept) = self.entries.get_mut(number as usize) {
            concept.denial = Some(denial);
        }
        Ok(denial)
    }

    #[cycle(denying)]
    fn new_denial(&mut self, number: u64, depth: u64) -> Result<u64, Memory> {
        match self.form(number) {
            Form::Not(inner) => Ok(inner),
            Form::And(_) => {
                let members = self.denials_of(number, depth)?;
                self.union(members)
            }
            Form::Or(_) => {
                let members = self.denials_of(number, depth)?;
                self.intersection(members)
            }
            Form::Some(word, inverted, inner) => {
                let inner = self.denial(inner, depth)?;
                self.numbered(Form::All(word, inverted, inner))
            }
            Form::All(word, inverted, inner) => {
                let inner = self.denial(inner, depth)?;
                self.numbered(Form::Some(word, inverted, inner))
            }
            _ => self.numbered(Form::Not(number)),
        }
    }

    #[cycle(denying)]
    fn denials_of(&mut self, number: u64, depth: u64) -> Result<Vec<u64>, Memory> {
        let mut denials = Vec::new(self.alloc);
        for place in 0..self.part_count(number) {
            if let Some(part) = self.part(number, place) {
                let denial = self.denial(part, depth)?;
                denials.push(denial)?;
            }
        }
        Ok(denials)
    }
}
