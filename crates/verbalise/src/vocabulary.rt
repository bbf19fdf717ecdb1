// Words in sentences. A word that doesn't live, or is of another kind, is said by no pattern.
ghost use Rattle.std.specs.Prelude.{◌≡◌, ◌∷◌, [], Some, IfOk, true, false};
ghost use Rattle.wiki_base.specs.Token.{IsToken};
ghost use Rattle.verbalise.specs.Phrases.{◌⋅◌, the};
ghost use Rattle.verbalise.specs.Vocabulary.{name, name_form, singular, singular_form, a_singular, article_form, plural, plural_form, third, third_form, relation, denial, related, not_related};

use crate::phrases::{Phrase, form_at, form_with_article, the, then};
use lexicon::{Forms, Kind, Lexicon};
use logic_terms::Role;
use std::alloc::Global;
use wiki_base::{Memory, WordId};

/// A name.
pub(crate) fn name(alloc: Global, words: &Lexicon, id: WordId) -> Result<Phrase, Memory>
    ensures { IfOk result (λ phrase. phrase ≡ name words.now.live id) }
{
    match words.word(id) {
        Some(forms) => name_form(alloc, forms),
        None => Ok(None),
    }
}

fn name_form(alloc: Global, forms: &Forms) -> Result<Phrase, Memory>
    ensures { IfOk result (λ phrase. phrase ≡ name_form forms.now.kind forms.now.texts) }
{
    match forms.kind {
        Kind::Name => form_at(alloc, &forms.texts, 0),
        Kind::Noun | Kind::Of | Kind::Verb | Kind::Adjective => Ok(None),
    }
}

/// The singular of a noun.
pub(crate) fn singular(alloc: Global, words: &Lexicon, id: WordId) -> Result<Phrase, Memory>
    ensures { IfOk result (λ phrase. phrase ≡ singular words.now.live id) }
{
    match words.word(id) {
        Some(forms) => singular_form(alloc, forms),
        None => Ok(None),
    }
}

fn singular_form(alloc: Global, forms: &Forms) -> Result<Phrase, Memory>
    ensures { IfOk result (λ phrase. phrase ≡ singular_form forms.now.kind forms.now.texts) }
{
    match forms.kind {
        Kind::Noun => form_at(alloc, &forms.texts, 0),
        Kind::Name | Kind::Of | Kind::Verb | Kind::Adjective => Ok(None),
    }
}

/// The singular of a noun behind its article.
pub(crate) fn a_singular(alloc: Global, words: &Lexicon, id: WordId) -> Result<Phrase, Memory>
    ensures { IfOk result (λ phrase. phrase ≡ a_singular words.now.live id) }
{
    match words.word(id) {
        Some(forms) => article_form(alloc, forms),
        None => Ok(None),
    }
}

fn article_form(alloc: Global, forms: &Forms) -> Result<Phrase, Memory>
    ensures { IfOk result (λ phrase. phrase ≡ article_form forms.now.kind forms.now.texts) }
{
    match forms.kind {
        Kind::Noun => form_with_article(alloc, &forms.texts),
        Kind::Name | Kind::Of | Kind::Verb | Kind::Adjective => Ok(None),
    }
}

/// The plural of a noun.
pub(crate) fn plural(alloc: Global, words: &Lexicon, id: WordId) -> Result<Phrase, Memory>
    ensures { IfOk result (λ phrase. phrase ≡ plural words.now.live id) }
{
    match words.word(id) {
        Some(forms) => plural_form(alloc, forms),
        None => Ok(None),
    }
}

fn plural_form(alloc: Global, forms: &Forms) -> Result<Phrase, Memory>
    ensures { IfOk result (λ phrase. phrase ≡ plural_form forms.now.kind forms.now.texts) }
{
    match forms.kind {
        Kind::Noun => form_at(alloc, &forms.texts, 1),
        Kind::Name | Kind::Of | Kind::Verb | Kind::Adjective => Ok(None),
    }
}

/// The third person of a verb.
pub(crate) fn third(alloc: Global, words: &Lexicon, id: WordId) -> Result<Phrase, Memory>
    ensures { IfOk result (λ phrase. phrase ≡ third words.now.live id) }
{
    match words.word(id) {
        Some(forms) => third_form(alloc, forms),
        None => Ok(None),
    }
}

fn third_form(alloc: Global, forms: &Forms) -> Result<Phrase, Memory>
    ensures { IfOk result (λ phrase. phrase ≡ third_form forms.now.kind forms.now.texts) }
{
    match forms.kind {
        Kind::Verb => form_at(alloc, &forms.texts, 0),
        Kind::Name | Kind::Noun | Kind::Of | Kind::Adjective => Ok(None),
    }
}

/// A role before its object.
pub(crate) fn related(
    alloc: Global,
    words: &Lexicon,
    role: Role,
    object: Phrase,
) -> Result<Phrase, Memory>
    ensures { IfOk result (λ phrase. phrase ≡ related words.now.live role object) }
{
    let Some(forms) = words.word(role.id) else {
        return Ok(None);
    };
    if role.inverted {
        passive(alloc, forms, object)
    } else {
        relation(alloc, forms, object)
    }
}

/// A role before a name.
pub(crate) fn related_to(
    alloc: Global,
    words: &Lexicon,
    role: Role,
    a: WordId,
) -> Result<Phrase, Memory>
    ensures { IfOk result (λ phrase. phrase ≡ related words.now.live role (name words.now.live a)) }
{
    let object = name(alloc, words, a)?;
    related(alloc, words, role, object)
}

fn relation(alloc: Global, forms: &Forms, object: Phrase) -> Result<Phrase, Memory>
    ensures { IfOk result (λ phrase. phrase ≡ relation false forms.now.kind forms.now.texts object) }
{
    let texts = &forms.texts;
    match forms.kind {
        Kind::Verb => then(form_at(alloc, texts, 0)?, object),
        Kind::Adjective => is_form(alloc, form_at(alloc, texts, 0)?, object),
        Kind::Of => is_form_of(alloc, form_with_article(alloc, texts)?, "of", object),
        Kind::Name | Kind::Noun => Ok(None),
    }
}

fn passive(alloc: Global, forms: &Forms, object: Phrase) -> Result<Phrase, Memory>
    ensures { IfOk result (λ phrase. phrase ≡ relation true forms.now.kind forms.now.texts object) }
{
    match forms.kind {
        Kind::Verb => is_form_of(alloc, form_at(alloc, &forms.texts, 2)?, "by", object),
        Kind::Name | Kind::Noun | Kind::Of | Kind::Adjective => Ok(None),
    }
}

// A form behind `is`, and what follows.
fn is_form(alloc: Global, form: Phrase, object: Phrase) -> Result<Phrase, Memory>
    ensures { IfOk result (λ phrase. phrase ≡ the "is" ⋅ form ⋅ object) }
{
    then(then(the(alloc, "is")?, form)?, object)
}

// A form behind `is` and before a word of the grammar, and what follows.
fn is_form_of(alloc: Global, form: Phrase, word: &str, object: Phrase) -> Result<Phrase, Memory>
    requires { IsToken word.now }
    ensures { IfOk result (λ phrase. phrase ≡ the "is" ⋅ form ⋅ Some (word.now ∷ []) ⋅ object) }
{
    then(is_form(alloc, form, the(alloc, word)?)?, object)
}

// The denial of a role before its object.
fn not_related(alloc: Global, words: &Lexicon, role: Role, object: Phrase) -> Result<Phrase, Memory>
    ensures { IfOk result (λ phrase. phrase ≡ not_related words.now.live role object) }
{
    let Some(forms) = words.word(role.id) else {
        return Ok(None);
    };
    if role.inverted {
        passive_denial(alloc, forms, object)
    } else {
        denial(alloc, forms, object)
    }
}

/// The denial of a role before a name.
pub(crate) fn not_related_to(
    alloc: Global,
    words: &Lexicon,
    role: Role,
    a: WordId,
) -> Result<Phrase, Memory>
    ensures { IfOk result (λ phrase. phrase ≡ not_related words.now.live role (name words.now.live a)) }
{
    let object = name(alloc, words, a)?;
    not_related(alloc, words, role, object)
}

fn denial(alloc: Global, forms: &Forms, object: Phrase) -> Result<Phrase, Memory>
    ensures { IfOk result (λ phrase. phrase ≡ denial false forms.now.kind forms.now.texts object) }
{
    let texts = &forms.texts;
    match forms.kind {
        Kind::Verb => not_form(alloc, "does", form_at(alloc, texts, 1)?, object),
        Kind::Adjective => not_form(alloc, "is", form_at(alloc, texts, 0)?, object),
        Kind::Of => is_not_form_of(alloc, form_with_article(alloc, texts)?, "of", object),
        Kind::Name | Kind::Noun => Ok(None),
    }
}

fn passive_denial(alloc: Global, forms: &Forms, object: Phrase) -> Result<Phrase, Memory>
    ensures { IfOk result (λ phrase. phrase ≡ denial true forms.now.kind forms.now.texts object) }
{
    match forms.kind {
        Kind::Verb => is_not_form_of(alloc, form_at(alloc, &forms.texts, 2)?, "by", object),
        Kind::Name | Kind::Noun | Kind::Of | Kind::Adjective => Ok(None),
    }
}

// A form behind `is not` or `does not`, and what follows.
fn not_form(alloc: Global, verb: &str, form: Phrase, object: Phrase) -> Result<Phrase, Memory>
    requires { IsToken verb.now }
    ensures { IfOk result (λ phrase. phrase ≡ Some (verb.now ∷ []) ⋅ the "not" ⋅ form ⋅ object) }
{
    let denied = then(the(alloc, verb)?, the(alloc, "not")?)?;
    then(then(denied, form)?, object)
}

// A form behind `is not` and before a word of the grammar, and what follows.
fn is_not_form_of(alloc: Global, form: Phrase, word: &str, object: Phrase) -> Result<Phrase, Memory>
    requires { IsToken word.now }
    ensures { IfOk result (λ phrase. phrase ≡ the "is" ⋅ the "not" ⋅ form ⋅ Some (word.now ∷ []) ⋅ object) }
{
    then(not_form(alloc, "is", form, the(alloc, word)?)?, object)
}
