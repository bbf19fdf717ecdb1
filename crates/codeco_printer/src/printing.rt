// Grammars, printed in their notation.
ghost use Rattle.std.specs.Prelude.{◌≡◌, ◌≤◌, ◌||◌, nat_lt, OnOk, IfOk, false, [], ◌∷◌, ◌++◌, map, flat_map, length, take, drop, option_map, List};
ghost use Rattle.codeco_text.specs.declared.symbols.Lexeme.TheVariants as lexeme;
ghost use Rattle.codeco_text.specs.declared.symbols.Sign.TheVariants as sign;
ghost use Rattle.codeco_text.specs.declared.written.Domain.TheVariants as domain;
ghost use Rattle.codeco_text.specs.declared.written.WrittenItem.{WrittenItem};
ghost use Rattle.codeco_text.specs.declared.written.WrittenItem.TheVariants as item;
ghost use Rattle.codeco_text.specs.Notation.{
  term_lexemes,
  named,
  signed,
  element_lexemes,
  label_lexemes,
  arrow,
  body_lexemes,
  domain_lexemes,
  item_lexemes,
  lexemes,
  IsSpelling,
};
ghost use Rattle.codeco_numbering.specs.Numbered.{numbered_of};
ghost use Rattle.codeco_printer.specs.Printing.{printed, NeedsSpaces};
ghost use Rattle.codeco_printer.specs.Unnumbered.{
  name_at,
  feature_name,
  written_term,
  plain_terms,
  taken_terms,
  below,
  from,
  merged,
  with_names,
  written_category,
  written_pattern,
  written_element,
  written_rule,
  written_feature,
  written_of,
};
ghost use Rattle.codeco_numbering.specs.Labels.{label_name};
ghost use Rattle.codeco_printer.specs.Writing.{
  nothing,
  put,
  write,
  separator,
  opened_feats,
  closed_feats,
  other_atoms,
  values_lexemes,
};

use crate::print_symbols::Printer;
use crate::unnumbered::{feature_name, label_name, letter, name_at};
use codeco_checked::CheckedGrammar;
use codeco_terms::{
    Category, Declared, Element, Elements, Feature, Grammar, Label, Pattern, Patterns, Rule, Term,
    Value,
};
use codeco_text::Sign;
use std::alloc::Global;
use wiki_base::{Bytes, Memory};

fn print_term(out: &mut Printer, grammar: &Grammar, term: Term) -> Result<(), Memory>
    ensures { OnOk result (out.new ≡ write out.old (term_lexemes (written_term grammar.now term))) }
{
    match term {
        Term::Val(Value::Atom(atom)) => out.word(name_at(grammar.atoms(), atom)),
        Term::Val(_) => out.word(&[]),
        Term::Var(variable) => out.word(&[letter(variable)]),
    }
}

// `(` before the first feature of a category, and `,` before each other one.
fn print_separator(out: &mut Printer, opened: bool) -> Result<(), Memory>
    ensures { OnOk result (out.new ≡ put out.old (separator opened)) }
{
    out.sign(if opened { Sign::Comma } else { Sign::OpenParen })
}

// A feature's name with the colon behind it.
fn print_feature_name(out: &mut Printer, grammar: &Grammar, feature: u16) -> Result<(), Memory>
    ensures { OnOk result (out.new ≡ put (put out.old (lexeme.Identifier (feature_name grammar.now.features feature))) (lexeme.Sign sign.Colon)) }
{
    out.word(feature_name(grammar.features(), feature))?;
    out.sign(Sign::Colon)
}

// How many of the marked features at the front have a number below this one.
fn count_below(taken: &[(u16, u8)], feature: u16) -> usize
    ensures bound { result ≤ length taken.now }
    ensures below { taken_terms (take result taken.now) ≡ below feature (taken_terms taken.now) }
    ensures from { taken_terms (drop result taken.now) ≡ from feature (taken_terms taken.now) }
{
    for (place, (marked, _)) in taken.iter().enumerate() {
        if *marked >= feature {
            return place;
        }
    }
    taken.len()
}

// Marked features of a category, each with what stands before it.
fn print_marked(
    out: &mut Printer,
    grammar: &Grammar,
    mut opened: bool,
    taken: &[(u16, u8)],
) -> Result<(), Memory>
    ensures { OnOk result (out.new ≡ write out.old (opened_feats opened (with_names grammar.now (taken_terms taken.now)))) }
{
    for (feature, variable) in taken {
        print_separator(out, opened)?;
        print_feature_name(out, grammar, *feature)?;
        out.sign(Sign::Question)?;
        out.word(&[letter(*variable)])?;
        opened = true;
    }
    Ok(())
}

// Whether features of a category stand before the next one: others, or some of these marked ones.
fn is_opened(opened: bool, count: usize) -> bool
    ensures { result ≡ (opened || nat_lt 0 count) }
{
    opened || count > 0
}

// A feature of a category with its term, after the marked features that stand before it. Says how many those are.
fn print_feature(
    out: &mut Printer,
    grammar: &Grammar,
    opened: bool,
    taken: &[(u16, u8)],
    feature: u16,
    term: Term,
) -> Result<usize, Memory>
    ensures written { OnOk result (out.new
        ≡ write out.old (opened_feats opened
        (with_names grammar.now (below feature (taken_terms taken.now) ++ (feature, written_term grammar.now term) ∷ [])))) }
    ensures bound { IfOk result (λ count. count ≤ length taken.now) }
    ensures from { IfOk result (λ count. taken_terms (drop count taken.now) ≡ from feature (taken_terms taken.now)) }
{
    let count = count_below(taken, feature);
    print_marked(out, grammar, opened, &taken[..count])?;
    print_separator(out, is_opened(opened, count))?;
    print_feature_name(out, grammar, feature)?;
    print_term(out, grammar, term)?;
    Ok(count)
}

// The marked features that stand behind all others, and what closes the features.
fn print_last(
    out: &mut Printer,
    grammar: &Grammar,
    opened: bool,
    taken: &[(u16, u8)],
) -> Result<(), Memory>
    ensures { OnOk result (out.new ≡ write out.old (closed_feats opened (with_names grammar.now (taken_terms taken.now)))) }
{
    print_marked(out, grammar, opened, taken)?;
    if is_opened(opened, taken.len()) {
        out.sign(Sign::CloseParen)?;
    }
    Ok(())
}

// The features of a category, the marked ones among the others, in their parentheses.
fn print_features(
    out: &mut Printer,
    grammar: &Grammar,
    feats: &[(u16, Term)],
    taken: &[(u16, u8)],
) -> Result<(), Memory>
    ensures { OnOk result (out.new ≡ write out.old
        (closed_feats false (with_names grammar.now (merged (plain_terms grammar.now feats.now) (taken_terms taken.now))))) }
{
    let mut done = 0;
    let mut opened = false;
    for (feature, term) in feats {
        done += print_feature(out, grammar, opened, &taken[done..], *feature, *term)?;
        opened = true;
    }
    print_last(out, grammar, opened, &taken[done..])
}

#[tactic(auto, using(crate::proofs::WriteLaws::category_written))]
fn print_category(out: &mut Printer, grammar: &Grammar, category: &Category) -> Result<(), Memory>
    ensures { OnOk result (out.new ≡ write out.old (named (written_category grammar.now category.now))) }
{
    out.word(name_at(grammar.categories(), category.name))?;
    print_features(out, grammar, category.feats.as_slice(), &[])?;
    Ok(())
}

#[tactic(auto, using(crate::proofs::WriteLaws::pattern_written))]
fn print_pattern(out: &mut Printer, grammar: &Grammar, pattern: &Pattern) -> Result<(), Memory>
    ensures { OnOk result (out.new ≡ write out.old (named (written_pattern grammar.now pattern.now))) }
{
    out.word(name_at(grammar.categories(), pattern.cat.name))?;
    print_features(
        out,
        grammar,
        pattern.cat.feats.as_slice(),
        pattern.taken.as_slice(),
    )?;
    Ok(())
}

// Patterns, each behind the sign.
fn print_patterns(
    out: &mut Printer,
    grammar: &Grammar,
    sign: Sign,
    patterns: &Patterns,
) -> Result<(), Memory>
    ensures { OnOk result (out.new ≡ write out.old (signed sign (map (written_pattern grammar.now) patterns.now))) }
{
    for pattern in patterns.as_slice() {
        out.sign(sign)?;
        print_pattern(out, grammar, pattern)?;
    }
    Ok(())
}

#[tactic(auto, using(crate::proofs::WriteLaws::write_append, crate::proofs::WriteLaws::write_kind))]
fn print_element(out: &mut Printer, grammar: &Grammar, element: &Element) -> Result<(), Memory>
    ensures { OnOk result (out.new ≡ write out.old (element_lexemes (written_element grammar.now element.now))) }
{
    match element {
        Element::Terminal(terminal) => out.terminal(name_at(grammar.terminals(), *terminal)),
        Element::Preterminal(category) => {
            out.sign(Sign::Dollar)?;
            print_category(out, grammar, category)
        }
        Element::Sub(category) => print_category(out, grammar, category),
        Element::Position(variable) => {
            out.sign(Sign::Hash)?;
            out.word(&[letter(*variable)])
        }
        Element::Opener => out.sign(Sign::Scope),
        Element::Forward(category) => {
            out.sign(Sign::Weak)?;
            print_category(out, grammar, category)
        }
        Element::Strong(category) => {
            out.sign(Sign::Strong)?;
            print_category(out, grammar, category)
        }
        Element::Back(positive, negative) => {
            out.sign(Sign::Back)?;
            print_patterns(out, grammar, Sign::Plus, positive)?;
            print_patterns(out, grammar, Sign::Minus, negative)
        }
        Element::NoBack(patterns) => {
            out.sign(Sign::NoBack)?;
            print_patterns(out, grammar, Sign::Plus, patterns)
        }
    }
}

// The label of a rule in its braces, where it has one.
fn print_label(out: &mut Printer, label: Option<Label>) -> Result<(), Memory>
    ensures { OnOk result (out.new ≡ write out.old (label_lexemes (option_map label_name label))) }
{
    if let Some(label) = label {
        out.sign(Sign::OpenBrace)?;
        out.word(label_name(label))?;
        out.sign(Sign::CloseBrace)?;
    }
    Ok(())
}

fn print_body(out: &mut Printer, grammar: &Grammar, body: &Elements) -> Result<(), Memory>
    ensures { OnOk result (out.new ≡ write out.old (body_lexemes (map (written_element grammar.now) body.now))) }
{
    for element in body.as_slice() {
        print_element(out, grammar, element)?;
    }
    Ok(())
}

fn arrow(closing: bool) -> Sign
    ensures { lexeme.Sign result ≡ arrow closing }
{
    if closing { Sign::Closing } else { Sign::Normal }
}

fn print_rule(out: &mut Printer, grammar: &Grammar, rule: &Rule) -> Result<(), Memory>
    ensures { OnOk result (out.new ≡ write out.old (item_lexemes (item.Rule (written_rule grammar.now rule.now)))) }
{
    print_label(out, rule.label)?;
    print_category(out, grammar, &rule.head)?;
    out.sign(arrow(rule.closing))?;
    print_body(out, grammar, &rule.body)?;
    out.sign(Sign::Stop)?;
    Ok(())
}

fn print_rules(out: &mut Printer, grammar: &Grammar) -> Result<(), Memory>
    ensures { OnOk result (out.new ≡ write out.old (lexemes (map (λ r. item.Rule (written_rule grammar.now r)) grammar.now.rules))) }
{
    for rule in grammar.rules().as_slice() {
        print_rule(out, grammar, rule)?;
    }
    Ok(())
}

// The names of atoms, each behind a comma.
fn print_others(out: &mut Printer, grammar: &Grammar, atoms: &[u16]) -> Result<(), Memory>
    ensures { OnOk result (out.new ≡ write out.old (other_atoms grammar.now atoms.now)) }
{
    for atom in atoms {
        out.sign(Sign::Comma)?;
        out.word(name_at(grammar.atoms(), *atom))?;
    }
    Ok(())
}

// The names of atoms, with a comma between two of them.
fn print_atoms(out: &mut Printer, grammar: &Grammar, atoms: &[u16]) -> Result<(), Memory>
    ensures { OnOk result (out.new ≡ write out.old (domain_lexemes (domain.Atoms (map (name_at grammar.now.atoms) atoms.now)))) }
{
    if let [first, others @ ..] = atoms {
        out.word(name_at(grammar.atoms(), *first))?;
        print_others(out, grammar, others)?;
    }
    Ok(())
}

// What a feature is declared with, as written.
fn print_domain(out: &mut Printer, grammar: &Grammar, declared: &Declared) -> Result<(), Memory>
    ensures { OnOk result (out.new ≡ write out.old (values_lexemes grammar.now declared.now)) }
{
    match declared {
        Declared::Undeclared => Ok(()),
        Declared::Words => out.word(b"word"),
        Declared::Positions => out.word(b"position"),
        Declared::Atoms(atoms) => print_atoms(out, grammar, atoms.as_slice()),
    }
}

#[tactic(auto, using(crate::proofs::WriteLaws::declaration_written))]
fn print_declaration(out: &mut Printer, grammar: &Grammar, feature: &Feature) -> Result<(), Memory>
    ensures { OnOk result (out.new ≡ write out.old (lexemes (written_feature grammar.now feature.now))) }
{
    if let Declared::Undeclared = &feature.declared {
        return Ok(());
    }
    out.word(b"feature")?;
    out.word(feature.name.as_bytes())?;
    out.sign(Sign::Colon)?;
    print_domain(out, grammar, &feature.declared)?;
    out.sign(Sign::Stop)?;
    Ok(())
}

fn print_declarations(out: &mut Printer, grammar: &Grammar) -> Result<(), Memory>
    ensures { OnOk result (out.new ≡ write out.old (lexemes (flat_map (written_feature grammar.now) grammar.now.features))) }
{
    for feature in grammar.features().as_slice() {
        print_declaration(out, grammar, feature)?;
    }
    Ok(())
}

// The declarations in order of number, and then the rules.
fn print_parts(alloc: Global, grammar: &Grammar) -> Result<Printer, Memory>
    ensures { IfOk result (λ out. out ≡ write nothing (lexemes (written_of grammar.now))) }
{
    let mut out = Printer::new(alloc);
    print_declarations(&mut out, grammar)?;
    print_rules(&mut out, grammar)?;
    Ok(out)
}

/// The text of a grammar in its notation: the declarations in order of number, and then the rules. Features stand in
/// order of number; variable 0 is written as `A`, variable 1 as `B` and so on. One space stands exactly between two
/// symbols that would be read otherwise without it, and there is no other white space.
pub fn print_grammar(alloc: Global, grammar: &CheckedGrammar) -> Result<Bytes, Memory>
    ensures text { IfOk result (λ text. text ≡ printed (lexemes (written_of grammar.now))) }
    ensures spelling { IfOk result (λ text. IsSpelling text (written_of grammar.now)) }

    // The text is read back as an equal grammar, and without one of its spaces it would be read otherwise.
    ensures read_back { IfOk result (λ text. (items : List WrittenItem) → IsSpelling text items → numbered_of items ≡ grammar.now) }
    ensures spaces { OnOk result (NeedsSpaces (lexemes (written_of grammar.now))) }
{
    Ok(print_parts(alloc, grammar.grammar())?.into_text())
}
