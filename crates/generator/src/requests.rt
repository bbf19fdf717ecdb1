// The requests of a generated wiki.
ghost use Rattle.std.specs.Prelude.{◌≡◌, ◌<◌, ◌∷◌, [], ◌++◌, IfOk};
ghost use Rattle.std.specs.String.{string_bytes};
ghost use Rattle.wiki_talk.specs.declared.requests.Request.TheVariants as requests;
ghost use Rattle.generator.specs.Drawn as drawn;
ghost use Rattle.generator.specs.Requests as made;

use crate::drawn::{name, noun, nouns, verb, verbed, verbs};
use lexicon::Kind;
use std::alloc::Global;
use wiki_base::{Memory, Text8, Text8s};
use wiki_talk::{ArticleRequest, Request, WikiRequest};

// Forms that begin with this one.
fn one_form(alloc: Global, form: String) -> Result<Text8s, Memory>
    ensures { IfOk result (λ forms. forms ≡ string_bytes form ∷ []) }
{
    let mut forms = Text8s::new(alloc);
    forms.push(Text8::from_string(form))?;
    Ok(forms)
}

fn with_form(forms: Text8s, form: String) -> Result<Text8s, Memory>
    ensures { IfOk result (λ more. more ≡ forms ++ string_bytes form ∷ []) }
{
    let mut more = forms;
    more.push(Text8::from_string(form))?;
    Ok(more)
}

fn noun_request(alloc: Global, number: u32) -> Result<Request, Memory>
    requires { number < 20 }
    ensures { IfOk result (λ request. request ≡ made.noun_request number) }
{
    let singular = one_form(alloc, noun(alloc, number)?)?;
    let forms = with_form(singular, nouns(alloc, number)?)?;
    Ok(Request::OnWiki(WikiRequest::Word {
        kind: Kind::Noun,
        forms,
    }))
}

fn name_request(alloc: Global, number: u32) -> Result<Request, Memory>
    requires { number < 20 }
    ensures { IfOk result (λ request. request ≡ made.name_request number) }
{
    let forms = one_form(alloc, name(alloc, number)?)?;
    Ok(Request::OnWiki(WikiRequest::Word {
        kind: Kind::Name,
        forms,
    }))
}

fn verb_request(alloc: Global, number: u32) -> Result<Request, Memory>
    requires { number < 20 }
    ensures { IfOk result (λ request. request ≡ made.verb_request number) }
{
    let third = one_form(alloc, verbs(alloc, number)?)?;
    let infinitive = with_form(third, verb(alloc, number)?)?;
    let forms = with_form(infinitive, verbed(alloc, number)?)?;
    Ok(Request::OnWiki(WikiRequest::Word {
        kind: Kind::Verb,
        forms,
    }))
}

/// The request for the word with the number, which is below 50: twenty nouns, twenty names and ten verbs.
pub fn word_request(alloc: Global, number: u32) -> Result<Request, Memory>
    requires { number < 50 }
    ensures { IfOk result (λ request. request ≡ made.word_request number) }
{
    if number < 20 {
        return noun_request(alloc, number);
    }
    if number < 40 {
        return name_request(alloc, number - 20);
    }
    verb_request(alloc, number - 40)
}

fn at_end(word: String, text: String) -> Request
    ensures { result ≡ made.at_end (string_bytes word) (string_bytes text) }
{
    Request::OnArticle {
        article: Text8::from_string(word),
        asked: ArticleRequest::Add {
            at: None,
            text: Text8::from_string(text),
        },
    }
}

fn related(alloc: Global, one: u32, relation: u32, other: u32) -> Result<Request, Memory>
    requires one { one < 20 }
    requires relation { relation < 20 }
    requires other { other < 20 }
    ensures { IfOk result (λ request. request ≡ made.related one relation other) }
{
    let word = name(alloc, one)?;
    let verbs = verbs(alloc, relation)?;
    let name = name(alloc, other)?;
    let text = format!(in alloc; "{word} {verbs} {name}.")?;
    Ok(at_end(word, text))
}

fn included(alloc: Global, one: u32, other: u32) -> Result<Request, Memory>
    requires one { one < 20 }
    requires other { other < 20 }
    ensures { IfOk result (λ request. request ≡ made.included one other) }
{
    let word = noun(alloc, one)?;
    let noun = noun(alloc, other)?;
    let text = format!(in alloc; "Every {word} is a {noun}.")?;
    Ok(at_end(word, text))
}

fn is_in(alloc: Global, one: u32, other: u32) -> Result<Request, Memory>
    requires one { one < 20 }
    requires other { other < 20 }
    ensures { IfOk result (λ request. request ≡ made.is_in one other) }
{
    let word = name(alloc, one)?;
    let noun = noun(alloc, other)?;
    let text = format!(in alloc; "{word} is a {noun}.")?;
    Ok(at_end(word, text))
}

fn only_related(alloc: Global, one: u32, relation: u32, other: u32) -> Result<Request, Memory>
    requires one { one < 20 }
    requires relation { relation < 20 }
    requires other { other < 20 }
    ensures { IfOk result (λ request. request ≡ made.only_related one relation other) }
{
    let word = noun(alloc, one)?;
    let verbs = verbs(alloc, relation)?;
    let nouns = nouns(alloc, other)?;
    let text = format!(in alloc; "Every {word} {verbs} only {nouns}.")?;
    Ok(at_end(word, text))
}

fn asked(alloc: Global, one: u32, relation: u32, other: u32) -> Result<Request, Memory>
    requires one { one < 20 }
    requires relation { relation < 20 }
    requires other { other < 20 }
    ensures { IfOk result (λ request. request ≡ made.asked one relation other) }
{
    let word = noun(alloc, one)?;
    let nouns = nouns(alloc, one)?;
    let verb = verb(alloc, relation)?;
    let name = name(alloc, other)?;
    let text = format!(in alloc; "Which {nouns} {verb} {name}?")?;
    Ok(at_end(word, text))
}

/// A sentence of a kind at the end of the article of its first word, by three drawn numbers. The kinds are 0 to 4: two names
/// are related, a noun is below another, a name is of a noun, a noun is related to some of another only, and a question.
pub fn sentence_of_kind(
    alloc: Global,
    kind: u32,
    one: u32,
    two: u32,
    three: u32,
) -> Result<Request, Memory>
    requires { kind < 5 }
    ensures { IfOk result (λ request. request ≡ made.sentence_of_kind kind one two three) }
{
    match kind {
        0 => related(alloc, one % 20, two % 10, three % 20),
        1 => inclusion(alloc, one, two),
        2 => is_in(alloc, one % 20, two % 20),
        3 => only_related(alloc, one % 20, two % 10, three % 20),
        _ => asked(alloc, one % 20, two % 10, three % 20),
    }
}

fn inclusion(alloc: Global, one: u32, two: u32) -> Result<Request, Memory>
    ensures { IfOk result (λ request. request ≡ made.inclusion one two) }
{
    let lower = one % 19;
    included(alloc, lower, lower + 1 + two % (19 - lower))
}

// The form that names the word with the number.
fn word(alloc: Global, number: u32) -> Result<String, Memory>
    requires { number < 50 }
    ensures { IfOk result (λ form. string_bytes form ≡ made.word_form number) }
{
    if number < 20 {
        return noun(alloc, number);
    }
    if number < 40 {
        return name(alloc, number - 20);
    }
    verb(alloc, number - 40)
}

/// The request that reads the article of the word with the number, which is below 50.
pub fn read_request(alloc: Global, number: u32) -> Result<Request, Memory>
    requires { number < 50 }
    ensures { IfOk result (λ request. request ≡ made.read_request number) }
{
    Ok(Request::OnArticle {
        article: Text8::from_string(word(alloc, number)?),
        asked: ArticleRequest::Read,
    })
}
