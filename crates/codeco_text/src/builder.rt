// What a reading has of the declarations and rules, symbol by symbol.
ghost use Rattle.std.specs.Prelude.{◌≡◌, [], OnOk};
ghost use Rattle.codeco_text.specs.Building.{nothing, closes, values_domain, is_named};

use crate::moves::{advance, after_category, begins_pattern, opens_features};
use crate::spot::{Part, Role, Spot};
use crate::symbols::{Lexeme, Sign};
use crate::words::same_bytes;
use crate::written::{
    Domain, WrittenCategories, WrittenCategory, WrittenElement, WrittenElements, WrittenFeat,
    WrittenFeats, WrittenItem, WrittenItems, WrittenRule, WrittenTerm,
};
use codeco_terms::{Symbol, Symbols};
use std::alloc::Global;
use std::mem;
use wiki_base::Memory;

/// A declaration that is being read.
#[derive(Drop)]
pub struct OpenDeclaration {
    pub name: Symbol,
    pub atom: Symbol,
    pub atoms: Symbols,
    pub positions: bool,
}

/// A category that is being read.
#[derive(Drop)]
pub struct OpenCategory {
    pub name: Symbol,
    pub feats: WrittenFeats,
    pub feature: Symbol,
    pub term: WrittenTerm,
}

/// A rule that is being read.
#[derive(Drop)]
pub struct OpenRule {
    pub pending: Symbol,
    pub label: Option<Symbol>,
    pub head: WrittenCategory,
    pub closing: bool,
    pub body: WrittenElements,
    pub positives: WrittenCategories,
    pub negatives: WrittenCategories,
}

/// Where a reading stands, and what it has read.
#[derive(Drop)]
pub struct Builder {
    pub spot: Spot,
    pub items: WrittenItems,
    pub declaration: OpenDeclaration,
    pub category: OpenCategory,
    pub rule: OpenRule,
}

impl OpenCategory {
    ghost use Rattle.codeco_text.specs.Building.{named_category, with_feat};

    /// Begins with a name.
    fn start(&mut self, alloc: Global, name: Symbol)
        ensures { self.new ≡ named_category self.old name }
    {
        self.name = name;
        self.feats = WrittenFeats::new(alloc);
    }

    /// Adds the feature that was read.
    fn add_feat(&mut self, alloc: Global) -> Result<(), Memory>
        ensures { OnOk result (self.new ≡ with_feat self.old) }
    {
        let name = mem::replace(&mut self.feature, empty(alloc));
        let term = mem::replace(&mut self.term, WrittenTerm::Atom(empty(alloc)));
        self.feats.push(WrittenFeat { name, term })
    }
}

/// A name of no bytes.
fn empty(alloc: Global) -> Symbol
    ensures { result ≡ [] }
{
    Symbol::from_vec(Vec::new(alloc))
}

/// A category of no bytes.
fn nothing(alloc: Global) -> WrittenCategory
    ensures { result ≡ nothing }
{
    WrittenCategory {
        name: empty(alloc),
        feats: WrittenFeats::new(alloc),
    }
}

fn closes(sign: Sign) -> bool
    ensures { result ≡ closes sign }
{
    matches!(sign, Sign::Closing)
}

impl OpenRule {
    ghost use Rattle.codeco_text.specs.Building.{with_patterns, settled_rule};

    /// Begins a reference.
    fn start_patterns(&mut self, alloc: Global)
        ensures { self.new ≡ with_patterns self.old }
    {
        self.positives = WrittenCategories::new(alloc);
        self.negatives = WrittenCategories::new(alloc);
    }

    /// Puts a category that is whole in its place.
    fn settle(&mut self, role: Role, category: WrittenCategory) -> Result<(), Memory>
        ensures { OnOk result (self.new ≡ settled_rule role self.old category) }
    {
        match role {
            Role::Head => {
                self.head = category;
                Ok(())
            }
            Role::Preterminal => self.body.push(WrittenElement::Preterminal(category)),
            Role::Sub => self.body.push(WrittenElement::Sub(category)),
            Role::Forward => self.body.push(WrittenElement::Forward(category)),
            Role::Strong => self.body.push(WrittenElement::Strong(category)),
            Role::Positive => self.positives.push(category),
            Role::Negative => self.negatives.push(category),
            Role::Absent => self.positives.push(category),
        }
    }
}

impl Builder {
    ghost use Rattle.std.specs.Prelude.{◌++◌, ◌∷◌};
    ghost use Rattle.codeco_text.specs.Building.{
      with_identifier,
      with_variable,
      with_keyword,
      with_label,
      with_kind,
      with_terminal,
      with_sign,
      with_declaration,
      end_atom,
      with_rule,
      body_sign_at,
      settle_into,
      settled_builder,
      close_into,
      closed_builder,
      ready,
      with_lexeme,
      take_ready,
      grow,
      Takes,
      moved,
    };
    ghost use Rattle.codeco_text.specs.Scanning.{fresh};

    /// A reading that has read nothing.
    pub fn new(alloc: Global) -> Builder
        ensures { result ≡ fresh }
    {
        Builder {
            spot: Spot::Items,
            items: WrittenItems::new(alloc),
            declaration: OpenDeclaration {
                name: empty(alloc),
                atom: empty(alloc),
                atoms: Symbols::new(alloc),
                positions: false,
            },
            category: OpenCategory {
                name: empty(alloc),
                feats: WrittenFeats::new(alloc),
                feature: empty(alloc),
                term: WrittenTerm::Atom(empty(alloc)),
            },
            rule: OpenRule {
                pending: empty(alloc),
                label: None,
                head: nothing(alloc),
                closing: false,
                body: WrittenElements::new(alloc),
                positives: WrittenCategories::new(alloc),
                negatives: WrittenCategories::new(alloc),
            },
        }
    }

    fn add_identifier(&mut self, alloc: Global, word: Symbol)
        ensures { self.new ≡ with_identifier self.old word }
    {
        match self.spot {
            Spot::Items => {
                self.category.start(alloc, word);
                self.rule.label = None;
            }
            Spot::RuleHead => self.category.start(alloc, word),
            Spot::FeatureName => self.declaration.name = word,
            Spot::FeatureValue => {
                self.declaration.atom = word;
                self.declaration.atoms = Symbols::new(alloc);
            }
            Spot::AtomName => self.declaration.atom = word,
            Spot::Category(part, _) => match part {
                Part::Name => self.category.start(alloc, word),
                Part::Feature => self.category.feature = word,
                Part::Term => self.category.term = WrittenTerm::Atom(word),
                _ => {}
            },
            Spot::Body => self.category.start(alloc, word),
            _ => {}
        }
    }

    fn add_variable(&mut self, word: Symbol) -> Result<(), Memory>
        ensures { OnOk result (self.new ≡ with_variable self.old word) }
    {
        match self.spot {
            Spot::Category(part, _) => {
                match part {
                    Part::Term => self.category.term = WrittenTerm::Variable(word),
                    Part::Taken => self.category.term = WrittenTerm::Taken(word),
                    _ => {}
                }
                Ok(())
            }
            Spot::PositionName => self.rule.body.push(WrittenElement::Position(word)),
            _ => Ok(()),
        }
    }

    /// Adds a declaration that is whole.
    fn add_declaration(&mut self, alloc: Global, domain: Domain) -> Result<(), Memory>
        ensures { OnOk result (self.new ≡ with_declaration self.old domain) }
    {
        let name = mem::replace(&mut self.declaration.name, empty(alloc));
        self.declaration.atom = empty(alloc);
        self.declaration.atoms = Symbols::new(alloc);
        self.items.push(WrittenItem::Feature(name, domain))
    }

    /// Adds a rule that is whole.
    fn add_rule(&mut self, alloc: Global) -> Result<(), Memory>
        ensures { OnOk result (self.new ≡ with_rule self.old) }
    {
        let label = self.rule.label.take();
        let head = mem::replace(&mut self.rule.head, nothing(alloc));
        let body = mem::replace(&mut self.rule.body, WrittenElements::new(alloc));
        let closing = self.rule.closing;
        self.items.push(WrittenItem::Rule(WrittenRule {
            label,
            head,
            closing,
            body,
        }))
    }

    fn add_body_sign(&mut self, alloc: Global, sign: Sign) -> Result<(), Memory>
        ensures { OnOk result (self.new ≡ body_sign_at self.old sign) }
    {
        match sign {
            Sign::Stop => self.add_rule(alloc),
            Sign::Scope => self.rule.body.push(WrittenElement::Opener),
            _ => Ok(()),
        }
    }

    fn add_sign(&mut self, alloc: Global, sign: Sign) -> Result<(), Memory>
        ensures { OnOk result (self.new ≡ with_sign self.old sign) }
    {
        match self.spot {
            Spot::LabelEnd => {
                self.rule.label = Some(mem::replace(&mut self.rule.pending, empty(alloc)));
                Ok(())
            }
            Spot::AtomNext => self.end_atom(alloc, sign),
            Spot::FeatureEnd => {
                let domain = values_domain(self.declaration.positions);
                self.add_declaration(alloc, domain)
            }
            Spot::Category(part, _) => match part {
                Part::Named => {
                    self.category.feats = WrittenFeats::new(alloc);
                    Ok(())
                }
                Part::Next => self.category.add_feat(alloc),
                _ => Ok(()),
            },
            Spot::Arrow => {
                self.rule.closing = closes(sign);
                self.rule.body = WrittenElements::new(alloc);
                Ok(())
            }
            Spot::Body => self.add_body_sign(alloc, sign),
            Spot::BackPattern => {
                self.rule.start_patterns(alloc);
                Ok(())
            }
            Spot::AbsentPattern => {
                self.rule.start_patterns(alloc);
                Ok(())
            }
            Spot::Positives => {
                if matches!(sign, Sign::Minus) {
                    self.rule.negatives = WrittenCategories::new(alloc);
                }
                Ok(())
            }
            _ => Ok(()),
        }
    }

    /// Takes the sign behind an atom: the next atom or the end of the declaration.
    fn end_atom(&mut self, alloc: Global, sign: Sign) -> Result<(), Memory>
        ensures { OnOk result (self.new ≡ end_atom self.old sign) }
    {
        let atom = mem::replace(&mut self.declaration.atom, empty(alloc));
        if matches!(sign, Sign::Stop) {
            let mut atoms = mem::replace(&mut self.declaration.atoms, Symbols::new(alloc));
            atoms.push(atom)?;
            return self.add_declaration(alloc, Domain::Atoms(atoms));
        }
        self.declaration.atoms.push(atom)
    }

    fn add(&mut self, alloc: Global, lexeme: Lexeme) -> Result<(), Memory>
        ensures { OnOk result (self.new ≡ with_lexeme self.old lexeme) }
    {
        match lexeme {
            Lexeme::Identifier(word) => {
                self.add_identifier(alloc, word);
                Ok(())
            }
            Lexeme::Variable(word) => self.add_variable(word),
            Lexeme::Keyword(word) => {
                self.declaration.positions = same_bytes(word.as_bytes(), b"position");
                Ok(())
            }
            Lexeme::Label(word) => {
                self.rule.pending = word;
                Ok(())
            }
            Lexeme::Kind(word) => {
                self.category.start(alloc, word);
                Ok(())
            }
            Lexeme::Terminal(bytes) => self.rule.body.push(WrittenElement::Terminal(bytes)),
            Lexeme::Sign(sign) => self.add_sign(alloc, sign),
        }
    }

    /// Puts the category that was read, with these features, in its place.
    fn settle_into(&mut self, alloc: Global, role: Role, feats: WrittenFeats) -> Result<(), Memory>
        ensures { OnOk result (self.new ≡ settle_into self.old role feats) }
    {
        let name = mem::replace(&mut self.category.name, empty(alloc));
        self.category.feats = WrittenFeats::new(alloc);
        self.spot = after_category(role);
        self.rule.settle(role, WrittenCategory { name, feats })
    }

    /// Puts a category that is whole in its place.
    fn settle(&mut self, alloc: Global) -> Result<(), Memory>
        ensures { OnOk result (self.new ≡ settled_builder self.old) }
    {
        match self.spot {
            Spot::Category(part, role) => match part {
                Part::Named => self.settle_into(alloc, role, WrittenFeats::new(alloc)),
                Part::Whole => {
                    let feats = mem::replace(&mut self.category.feats, WrittenFeats::new(alloc));
                    self.settle_into(alloc, role, feats)
                }
                _ => Ok(()),
            },
            _ => Ok(()),
        }
    }

    fn close_into(&mut self, element: WrittenElement) -> Result<(), Memory>
        ensures { OnOk result (self.new ≡ record self.old { spot = Spot.Body; rule = record self.old.rule { body = self.old.rule.body ++ element ∷ [] } }) }
    {
        self.spot = Spot::Body;
        self.rule.body.push(element)
    }

    /// Puts a reference that is whole in the body.
    fn close(&mut self, alloc: Global) -> Result<(), Memory>
        ensures { OnOk result (self.new ≡ closed_builder self.old) }
    {
        match self.spot {
            Spot::Positives => {
                let positives = mem::replace(
                    &mut self.rule.positives,
                    WrittenCategories::new(alloc),
                );
                self.rule.negatives = WrittenCategories::new(alloc);
                let negatives = WrittenCategories::new(alloc);
                self.close_into(WrittenElement::Back(positives, negatives))
            }
            Spot::Negatives => {
                let positives = mem::replace(
                    &mut self.rule.positives,
                    WrittenCategories::new(alloc),
                );
                let negatives = mem::replace(
                    &mut self.rule.negatives,
                    WrittenCategories::new(alloc),
                );
                self.close_into(WrittenElement::Back(positives, negatives))
            }
            Spot::Absents => {
                let positives = mem::replace(
                    &mut self.rule.positives,
                    WrittenCategories::new(alloc),
                );
                self.rule.negatives = WrittenCategories::new(alloc);
                self.close_into(WrittenElement::NoBack(positives))
            }
            _ => Ok(()),
        }
    }

    fn make_ready(&mut self, alloc: Global, lexeme: &Lexeme) -> Result<(), Memory>
        ensures { OnOk result (self.new ≡ ready self.old lexeme.now) }
    {
        let inside = is_named(self.spot) && opens_features(lexeme);
        if !inside {
            self.settle(alloc)?;
        }
        if !begins_pattern(lexeme) {
            self.close(alloc)?;
        }
        Ok(())
    }

    /// Takes the symbol, where one may stand here; else answers false. After an answer other than `Ok(true)` nothing is
    /// said of the reading.
    pub fn take(&mut self, alloc: Global, lexeme: Lexeme) -> Result<bool, Memory>
        ensures { Takes (grow self.old lexeme) result self.new }
    {
        self.make_ready(alloc, &lexeme)?;
        match advance(self.spot, &lexeme) {
            None => Ok(false),
            Some(next) => {
                self.add(alloc, lexeme)?;
                self.spot = next;
                Ok(true)
            }
        }
    }
}

fn values_domain(positions: bool) -> Domain
    ensures { result ≡ values_domain positions }
{
    if positions {
        Domain::Positions
    } else {
        Domain::Words
    }
}

/// Whether a category's name was read, and its features may open.
fn is_named(spot: Spot) -> bool
    ensures { result ≡ is_named spot }
{
    match spot {
        Spot::Category(part, _) => matches!(part, Part::Named),
        _ => false,
    }
}
