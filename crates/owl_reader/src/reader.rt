// The reading of a file, token by token.
ghost use Rattle.std.specs.Prelude.{◌≡◌, ◌++◌, ◌∷◌, ◌-◌, ◌+◌, ◌<◌, [], Ok, Err, Some, None, IfOk, option_map};
ghost use Rattle.logic_terms.specs.Shown.{concept_of};
ghost use Rattle.logic_terms.specs.Same.{inverse};
ghost use Rattle.owl_reader.specs.Views.{frame_of, state_of};
ghost use Rattle.owl_reader.specs.Outcomes.{Takes};
ghost use Rattle.owl_reader.specs.declared.stand.Stand.TheVariants as stand;
ghost use Rattle.owl_reader.specs.declared.faults.Refusal.TheVariants as refusal;
ghost use Rattle.owl_reader.specs.declared.kinds.Sort.TheVariants as sort;
ghost use Rattle.owl_reader.specs.declared.kinds.Makes.TheVariants as makes;
ghost use Rattle.owl_tokens.specs.declared.tokens.TokenKind.TheVariants as token;
ghost use Rattle.owl_reader.specs.Names.{colon_at, iri_of};
ghost use Rattle.owl_reader.specs.Reading.{
  fresh_state,
  moved,
  deeper,
  given,
  with_any,
  with_class,
  with_role,
  with_name,
  enter,
  entity,
  class_named,
  property_named,
  individual_named,
  name_by,
  prefix_named,
  is_inside,
  is_prefix_name,
  name_in_place,
  full_name,
  name,
  name_with,
  begin,
  keyword_by,
  keyword_inside,
  keyword_of_line,
  is_lines,
  keyword_word,
  word_by,
  word,
  begun,
  opened_by,
  finished,
  closed_top,
  closed_by,
  equals_by,
  heading,
  iri_by,
  passed,
  quoted_by,
  is_closed,
  step,
};
ghost use Rattle.owl_reader.specs.declared.faults.TheConstants.{MOST_OPEN};

use crate::claims::{class_by, first_role, push_claims};
use crate::entities::{
    EntityTable, full_iri, is_bottom_property, is_nothing, is_thing, is_top_property,
};
use crate::faults::{MOST_OPEN, Refusal, Trouble};
use crate::frames::{Frame, Frames};
use crate::keywords::{
    class_named, declared_named, is_annotation, item_named, makes_of, property_named, same_bytes,
};
use crate::kinds::{Construct, EntityKind, Makes, Sort};
use crate::prefixes::{Prefixes, colon_at};
use crate::stand::Stand;
use logic_terms::{Axioms, Class, Role};
use owl_tokens::TokenKind;
use std::alloc::Global;
use wiki_base::{Bytes, Memory, WordId};

/// What was read of a file.
#[derive(Drop)]
pub struct Reader {
    pub prefixes: Prefixes,
    pub entities: EntityTable,
    pub axioms: Axioms,
    pub frames: Frames,
    pub stand: Stand,
    pub open_count: usize,
    pub prefix: Bytes,
    pub iri: Bytes,
}

fn refused(trouble: Trouble) -> Result<(), Refusal>
    ensures { result ≡ Err (refusal.Trouble trouble) }
{
    Err(Refusal::Trouble(trouble))
}

fn is_inside(stand: Stand) -> bool
    ensures { result ≡ is_inside stand }
{
    matches!(stand, Stand::Within | Stand::Heading(_))
}

fn is_prefix_name(stand: Stand) -> bool
    ensures { result ≡ is_prefix_name stand }
{
    matches!(stand, Stand::PrefixName)
}

fn is_lines(stand: Stand) -> bool
    ensures { result ≡ is_lines stand }
{
    matches!(stand, Stand::Lines)
}

fn begun(construct: Construct) -> Stand
    ensures { result ≡ begun construct }
{
    match construct {
        Construct::Ontology => Stand::Heading(2),
        _ => Stand::Within,
    }
}

impl Reader {
    /// A reading that has read nothing.
    pub fn new(alloc: Global) -> Result<Reader, Memory>
        ensures { IfOk result (λ reader. state_of reader ≡ fresh_state) }
    {
        Ok(Reader {
            prefixes: Prefixes::new(alloc)?,
            entities: EntityTable::new(alloc),
            axioms: Axioms::new(alloc),
            frames: Frames::new(alloc),
            stand: Stand::Lines,
            open_count: 0,
            prefix: Bytes::new(alloc),
            iri: Bytes::new(alloc),
        })
    }

    fn move_to(&mut self, stand: Stand) -> Result<(), Refusal>
        ensures { Takes (Ok (moved (state_of self.old) stand)) result (state_of self.new) }
    {
        self.stand = stand;
        Ok(())
    }

    fn deepen(&mut self, stand: Stand) -> Result<(), Refusal>
        requires { (state_of self.old).open_count < MOST_OPEN }
        ensures { Takes (Ok (deeper (state_of self.old) stand)) result (state_of self.new) }
    {
        self.stand = stand;
        self.open_count += 1;
        Ok(())
    }

    /// Puts the innermost frame back, with one more in it.
    fn put_back(&mut self, frame: Frame) -> Result<(), Refusal>
        ensures { Takes (Ok (record (state_of self.old) { frames = frame_of frame ∷ (state_of self.old).frames; stand = stand.Within })) result
            (state_of self.new) }
    {
        self.frames.push(frame)?;
        self.stand = Stand::Within;
        Ok(())
    }

    fn give_class(&mut self, class: Class) -> Result<(), Refusal>
        ensures { Takes (given (state_of self.old) (with_class (concept_of class))) result (state_of self.new) }
    {
        match self.frames.pop() {
            None => refused(Trouble::Syntax),
            Some(mut frame) => {
                frame.add_class(class)?;
                self.put_back(frame)
            }
        }
    }

    fn give_role(&mut self, role: Role) -> Result<(), Refusal>
        ensures { Takes (given (state_of self.old) (with_role role)) result (state_of self.new) }
    {
        match self.frames.pop() {
            None => refused(Trouble::Syntax),
            Some(mut frame) => {
                frame.add_role(role)?;
                self.put_back(frame)
            }
        }
    }

    fn give_name(&mut self, name: WordId) -> Result<(), Refusal>
        ensures { Takes (given (state_of self.old) (with_name name)) result (state_of self.new) }
    {
        match self.frames.pop() {
            None => refused(Trouble::Syntax),
            Some(mut frame) => {
                frame.add_name(name)?;
                self.put_back(frame)
            }
        }
    }

    fn give_any(&mut self) -> Result<(), Refusal>
        ensures { Takes (given (state_of self.old) with_any) result (state_of self.new) }
    {
        match self.frames.pop() {
            None => refused(Trouble::Syntax),
            Some(mut frame) => {
                frame.add_any();
                self.put_back(frame)
            }
        }
    }

    // Names.

    fn class_named(&mut self, alloc: Global, iri: Vec<u8>) -> Result<(), Refusal>
        ensures { Takes (class_named (state_of self.old) iri.items) result (state_of self.new) }
    {
        if is_thing(iri.as_slice()) {
            return self.give_class(Class::Thing);
        }
        if is_nothing(iri.as_slice()) {
            let thing = Box::new(alloc, Class::Thing)?;
            return self.give_class(Class::Not(thing));
        }
        let word = self.entities.number(EntityKind::Class, iri)?;
        self.give_class(Class::Named(word))
    }

    fn property_named(&mut self, iri: Vec<u8>) -> Result<(), Refusal>
        ensures { Takes (property_named (state_of self.old) iri.items) result (state_of self.new) }
    {
        let id = self.entities.number(EntityKind::Property, iri)?;
        self.give_role(Role {
            id,
            inverted: false,
        })
    }

    fn individual_named(&mut self, iri: Vec<u8>) -> Result<(), Refusal>
        ensures { Takes (individual_named (state_of self.old) iri.items) result (state_of self.new) }
    {
        let name = self.entities.number(EntityKind::Individual, iri)?;
        self.give_name(name)
    }

    fn declared(&mut self, kind: EntityKind, iri: Vec<u8>) -> Result<(), Refusal>
        ensures { Takes (given (enter (state_of self.old) (entity kind iri.items)) with_any) result (state_of self.new) }
    {
        self.entities.number(kind, iri)?;
        self.give_any()
    }

    /// A name where something of a sort may come.
    fn name_by(&mut self, alloc: Global, sort: Option<Sort>, iri: Vec<u8>) -> Result<(), Refusal>
        ensures { Takes (name_by sort (state_of self.old) iri.items) result (state_of self.new) }
    {
        match sort {
            Some(Sort::Class) => self.class_named(alloc, iri),
            Some(Sort::Property) => self.property_named(iri),
            Some(Sort::PropertyName) => self.property_named(iri),
            Some(Sort::Individual) => self.individual_named(iri),
            Some(Sort::Name(kind)) => self.declared(kind, iri),
            Some(Sort::AnnotationName) => self.give_any(),
            Some(Sort::Item) => refused(Trouble::Syntax),
            Some(Sort::Declared) => refused(Trouble::Syntax),
            None => refused(Trouble::Syntax),
        }
    }

    /// A prefix that is to be declared.
    fn prefix_named(&mut self, alloc: Global, prefix: &[u8], local: &[u8]) -> Result<(), Refusal>
        ensures { Takes (prefix_named (state_of self.old) prefix.now local.now) result (state_of self.new) }
    {
        match local {
            [] => {
                self.prefix = Bytes::from_slice(alloc, prefix)?;
                self.move_to(Stand::PrefixEquals)
            }
            _ => refused(Trouble::Syntax),
        }
    }

    fn name_in_place(
        &mut self,
        alloc: Global,
        prefix: &[u8],
        local: &[u8],
        iri: Vec<u8>,
    ) -> Result<(), Refusal>
        ensures { Takes (name_in_place (state_of self.old) prefix.now local.now iri.items) result (state_of self.new) }
    {
        if is_prefix_name(self.stand) {
            self.prefix_named(alloc, prefix, local)
        } else if is_inside(self.stand) {
            let sort = self.frames.top_sort();
            self.name_by(alloc, sort, iri)
        } else {
            refused(Trouble::Syntax)
        }
    }

    fn full_name(
        &mut self,
        alloc: Global,
        prefix: &[u8],
        local: &[u8],
        iri: Vec<u8>,
    ) -> Result<(), Refusal>
        ensures { Takes (full_name (state_of self.old) prefix.now local.now iri.items) result (state_of self.new) }
    {
        if is_top_property(iri.as_slice()) {
            refused(Trouble::Unsupported)
        } else if is_bottom_property(iri.as_slice()) {
            refused(Trouble::Unsupported)
        } else {
            self.name_in_place(alloc, prefix, local, iri)
        }
    }

    /// A name whose prefix isn't declared.
    fn undeclared_name(&mut self, alloc: Global, prefix: &[u8], local: &[u8]) -> Result<(), Refusal>
        ensures { Takes (name_with None (state_of self.old) prefix.now local.now) result (state_of self.new) }
    {
        if is_prefix_name(self.stand) {
            self.prefix_named(alloc, prefix, local)
        } else {
            refused(Trouble::Prefix)
        }
    }

    fn full_iri(
        &self,
        alloc: Global,
        prefix: &[u8],
        local: &[u8],
    ) -> Result<Option<Vec<u8>>, Memory>
        ensures { IfOk result (λ iri. option_map (λ v. v.items) iri
            ≡ option_map (λ front. front ++ local.now) (iri_of (state_of self.now).prefixes prefix.now)) }
    {
        match self.prefixes.iri_of(prefix) {
            Some(front) => Ok(Some(full_iri(alloc, front, local)?)),
            None => Ok(None),
        }
    }

    fn name(&mut self, alloc: Global, prefix: &[u8], local: &[u8]) -> Result<(), Refusal>
        ensures { Takes (name (state_of self.old) prefix.now local.now) result (state_of self.new) }
    {
        if same_bytes(prefix, b"_") {
            return refused(Trouble::Unsupported);
        }
        match self.full_iri(alloc, prefix, local)? {
            Some(iri) => self.full_name(alloc, prefix, local, iri),
            None => self.undeclared_name(alloc, prefix, local),
        }
    }

    // Keywords.

    fn begin(&mut self, construct: Option<Construct>) -> Result<(), Refusal>
        ensures { Takes (begin (state_of self.old) construct) result (state_of self.new) }
    {
        match construct {
            Some(construct) => self.move_to(Stand::Opening(construct)),
            None => refused(Trouble::Unsupported),
        }
    }

    fn item(&mut self, word: &[u8]) -> Result<(), Refusal>
        ensures { Takes (keyword_by (Some sort.Item) (state_of self.old) word.now) result (state_of self.new) }
    {
        if is_annotation(word) {
            self.move_to(Stand::AnnotationOpening)
        } else {
            self.begin(item_named(word))
        }
    }

    /// A keyword where something of a sort may come.
    fn keyword_by(&mut self, sort: Option<Sort>, word: &[u8]) -> Result<(), Refusal>
        ensures { Takes (keyword_by sort (state_of self.old) word.now) result (state_of self.new) }
    {
        match sort {
            Some(Sort::Item) => self.item(word),
            Some(Sort::Class) => self.begin(class_named(word)),
            Some(Sort::Property) => self.begin(property_named(word)),
            Some(Sort::Declared) => self.begin(declared_named(word)),
            Some(Sort::Individual) => refused(Trouble::Syntax),
            Some(Sort::Name(_)) => refused(Trouble::Syntax),
            Some(Sort::PropertyName) => refused(Trouble::Syntax),
            Some(Sort::AnnotationName) => refused(Trouble::Syntax),
            None => refused(Trouble::Syntax),
        }
    }

    fn keyword_inside(&mut self, word: &[u8]) -> Result<(), Refusal>
        ensures { Takes (keyword_inside (state_of self.old) word.now) result (state_of self.new) }
    {
        if self.frames.may_annotate() && same_bytes(word, b"Annotation") {
            self.move_to(Stand::AnnotationOpening)
        } else {
            let sort = self.frames.top_sort();
            self.keyword_by(sort, word)
        }
    }

    fn keyword_of_line(&mut self, word: &[u8]) -> Result<(), Refusal>
        ensures { Takes (keyword_of_line (state_of self.old) word.now) result (state_of self.new) }
    {
        if same_bytes(word, b"Prefix") {
            self.move_to(Stand::PrefixOpening)
        } else if same_bytes(word, b"Ontology") {
            self.move_to(Stand::Opening(Construct::Ontology))
        } else {
            refused(Trouble::Syntax)
        }
    }

    fn keyword_word(&mut self, word: &[u8]) -> Result<(), Refusal>
        ensures { Takes (keyword_word (state_of self.old) word.now) result (state_of self.new) }
    {
        if is_lines(self.stand) {
            self.keyword_of_line(word)
        } else if is_inside(self.stand) {
            self.keyword_inside(word)
        } else {
            refused(Trouble::Syntax)
        }
    }

    fn word_by(&mut self, alloc: Global, text: &[u8]) -> Result<(), Refusal>
        ensures { Takes (word_by (colon_at 0 text.now) (state_of self.old) text.now) result (state_of self.new) }
    {
        match colon_at(text) {
            Some(n) => self.name(alloc, &text[..n], &text[n + 1..]),
            None => self.keyword_word(text),
        }
    }

    fn word(&mut self, alloc: Global, text: &[u8]) -> Result<(), Refusal>
        ensures { Takes (word (state_of self.old).stand (state_of self.old) text.now) result (state_of self.new) }
    {
        match self.stand {
            Stand::Passing(_) => Ok(()),
            _ => self.word_by(alloc, text),
        }
    }

    // Parentheses.

    fn begin_frame(&mut self, alloc: Global, construct: Construct) -> Result<(), Refusal>
        requires { (state_of self.old).open_count < MOST_OPEN }
        ensures { Takes (opened_by (stand.Opening construct) (state_of self.old)) result (state_of self.new) }
    {
        self.frames.push(Frame::new(alloc, construct))?;
        self.deepen(begun(construct))
    }

    fn open(&mut self, alloc: Global) -> Result<(), Refusal>
        requires { (state_of self.old).open_count < MOST_OPEN }
        ensures { Takes (opened_by (state_of self.old).stand (state_of self.old)) result (state_of self.new) }
    {
        match self.stand {
            Stand::PrefixOpening => self.deepen(Stand::PrefixName),
            Stand::Opening(construct) => self.begin_frame(alloc, construct),
            Stand::AnnotationOpening => self.deepen(Stand::Passing(self.open_count)),
            Stand::Passing(base) => self.deepen(Stand::Passing(base)),
            _ => refused(Trouble::Syntax),
        }
    }

    fn add_axioms(&mut self, alloc: Global, frame: &Frame) -> Result<(), Refusal>
        ensures { Takes (finished makes.Axioms (state_of self.old) (frame_of frame.now)) result (state_of self.new) }
    {
        push_claims(
            alloc,
            &mut self.axioms,
            frame.construct,
            frame.classes.as_slice(),
            frame.roles.as_slice(),
            frame.names.as_slice(),
        )?;
        self.move_to(Stand::Within)
    }

    fn add_class(&mut self, alloc: Global, frame: Frame) -> Result<(), Refusal>
        ensures { Takes (finished makes.Class (state_of self.old) (frame_of frame)) result (state_of self.new) }
    {
        let class = class_by(
            alloc,
            frame.construct,
            frame.classes,
            frame.roles.as_slice(),
            frame.names.as_slice(),
        )?;
        self.give_class(class)
    }

    fn finish(&mut self, alloc: Global, makes: Makes, frame: Frame) -> Result<(), Refusal>
        ensures { Takes (finished makes (state_of self.old) (frame_of frame)) result (state_of self.new) }
    {
        match makes {
            Makes::Class => self.add_class(alloc, frame),
            Makes::Property => self.give_role(first_role(frame.roles.as_slice()).inverse()),
            Makes::Declared => self.give_any(),
            Makes::Axioms => self.add_axioms(alloc, &frame),
            Makes::End => self.move_to(Stand::Closed),
        }
    }

    fn close_top(&mut self, alloc: Global) -> Result<(), Refusal>
        ensures { Takes (closed_top (state_of self.old).frames (state_of self.old)) result (state_of self.new) }
    {
        match self.frames.pop() {
            None => refused(Trouble::Syntax),
            Some(frame) => {
                if !frame.is_whole() {
                    return refused(Trouble::Syntax);
                }
                self.open_count = self.open_count.saturating_sub(1);
                self.finish(alloc, makes_of(frame.construct), frame)
            }
        }
    }

    /// Closes a parenthesis of an annotation.
    fn pass_close(&mut self, base: usize) -> Result<(), Refusal>
        ensures { Takes (Ok (passed (state_of self.old) base)) result (state_of self.new) }
    {
        self.open_count = self.open_count.saturating_sub(1);
        if self.open_count == base {
            self.stand = Stand::Within;
        } else {
            self.stand = Stand::Passing(base);
        }
        Ok(())
    }

    /// Declares a prefix, where its line is whole.
    fn declare(&mut self, alloc: Global) -> Result<(), Refusal>
        ensures { Takes (closed_by stand.PrefixClose (state_of self.old)) result (state_of self.new) }
    {
        let iri = self.iri.as_bytes();
        self.prefixes.declare(alloc, self.prefix.as_bytes(), iri)?;
        self.open_count = self.open_count.saturating_sub(1);
        self.move_to(Stand::Lines)
    }

    fn close(&mut self, alloc: Global) -> Result<(), Refusal>
        ensures { Takes (closed_by (state_of self.old).stand (state_of self.old)) result (state_of self.new) }
    {
        match self.stand {
            Stand::PrefixClose => self.declare(alloc),
            Stand::Within => self.close_top(alloc),
            Stand::Heading(_) => self.close_top(alloc),
            Stand::Passing(base) => self.pass_close(base),
            _ => refused(Trouble::Syntax),
        }
    }

    // The other tokens.

    fn equals(&mut self) -> Result<(), Refusal>
        ensures { Takes (equals_by (state_of self.old).stand (state_of self.old)) result (state_of self.new) }
    {
        match self.stand {
            Stand::PrefixEquals => self.move_to(Stand::PrefixIri),
            Stand::Passing(_) => Ok(()),
            _ => refused(Trouble::Syntax),
        }
    }

    /// The IRI of the prefix that is being declared.
    fn prefix_iri(&mut self, alloc: Global, iri: &[u8]) -> Result<(), Refusal>
        ensures { Takes (iri_by stand.PrefixIri (state_of self.old) iri.now) result (state_of self.new) }
    {
        self.iri = Bytes::from_slice(alloc, iri)?;
        self.move_to(Stand::PrefixClose)
    }

    fn heading(&mut self, left: u8) -> Result<(), Refusal>
        ensures { Takes (heading (state_of self.old) left) result (state_of self.new) }
    {
        if left == 0 {
            refused(Trouble::Syntax)
        } else {
            self.move_to(Stand::Heading(left - 1))
        }
    }

    fn iri(&mut self, alloc: Global, iri: &[u8]) -> Result<(), Refusal>
        ensures { Takes (iri_by (state_of self.old).stand (state_of self.old) iri.now) result (state_of self.new) }
    {
        match self.stand {
            Stand::PrefixIri => self.prefix_iri(alloc, iri),
            Stand::Heading(left) => self.heading(left),
            Stand::Passing(_) => Ok(()),
            _ => refused(Trouble::Syntax),
        }
    }

    fn quoted(&mut self) -> Result<(), Refusal>
        ensures { Takes (quoted_by (state_of self.old).stand (state_of self.old)) result (state_of self.new) }
    {
        match self.stand {
            Stand::Passing(_) => Ok(()),
            _ => refused(Trouble::Syntax),
        }
    }

    fn open_paren(&mut self, alloc: Global) -> Result<(), Refusal>
        ensures { Takes (step (state_of self.old) token.OpenParen []) result (state_of self.new) }
    {
        if self.open_count >= MOST_OPEN {
            refused(Trouble::TooDeep)
        } else {
            self.open(alloc)
        }
    }

    /// Takes a token. After an `Err` nothing is said of the reading.
    pub fn take(&mut self, alloc: Global, kind: TokenKind, text: &[u8]) -> Result<(), Refusal>
        ensures { Takes (step (state_of self.old) kind text.now) result (state_of self.new) }
    {
        match kind {
            TokenKind::OpenParen => self.open_paren(alloc),
            TokenKind::CloseParen => self.close(alloc),
            TokenKind::Equals => self.equals(),
            TokenKind::Iri => self.iri(alloc, text),
            TokenKind::Quoted => self.quoted(),
            TokenKind::Word => self.word(alloc, text),
        }
    }

    /// Whether the last parenthesis was read.
    pub fn is_closed(&self) -> bool
        ensures { result ≡ is_closed (state_of self.now).stand }
    {
        matches!(self.stand, Stand::Closed)
    }
}
