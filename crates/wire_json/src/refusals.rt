// The values of refusals: the name and the number by which each is told, and what it carries.
ghost use Rattle.std.specs.Prelude.{◌≡◌, IfOk, codes};
ghost use Rattle.serde_json.specs.View.{view};
ghost use Rattle.serde_json.specs.Data.{string, number, unsigned, object, member, no_members};
ghost use Rattle.wire_json.specs.Replies.{told, refusal_value};
ghost use Rattle.wiki_talk.specs.Limits.{name_of};
ghost use Rattle.wiki_talk.specs.Statuses.{status_name};
ghost use Rattle.wire_json.specs.Values.{menu_value};

use crate::values::menu_value;
use serde_json::{Value, json};
use std::alloc::Global;
use wiki_base::{Memory, Text8};
use wiki_talk::{Limit, MenuView, Refusal, Status, Title};

pub(crate) fn refusal_value(alloc: Global, refusal: &Refusal) -> Result<Value, Memory>
    ensures { IfOk result (λ value. view value ≡ refusal_value refusal.now) }
{
    let title = refusal.title();
    match refusal {
        Refusal::NoWord { text } | Refusal::Reserved { text } | Refusal::NotOffered { text } => {
            text_value(alloc, title, text)
        }
        Refusal::NoSession { session } => session_value(alloc, title, *session),
        Refusal::Stale { revision } => stale_value(alloc, title, *revision),
        Refusal::Nothing | Refusal::Bare => nothing_value(alloc, title),
        Refusal::Unfinished { menu } => unfinished_value(alloc, title, menu),
        Refusal::BadForm { which } => which_value(alloc, title, *which),
        Refusal::Taken { text, word } => taken_value(alloc, title, text, word),
        Refusal::NotSentence { k, menu } => not_sentence_value(alloc, title, *k, menu),
        Refusal::Full { which, limit } => full_value(alloc, title, *which, *limit),
        Refusal::NoPlace { length } => no_place_value(alloc, title, *length),
        Refusal::InUse { article, at } | Refusal::Breaks { article, at } => {
            place_value(alloc, title, article, *at)
        }
        Refusal::BadStatus { status } => status_value(alloc, title, *status),
        Refusal::GrammarRefused { fault, at } => fault_value(alloc, title, fault, *at),
    }
}

fn text_value(alloc: Global, title: Title, text: &Text8) -> Result<Value, Memory>
    ensures { IfOk result (λ value. view value ≡ object (told title.number title.name.now (member (codes "text") (string text.now) no_members))) }
{
    let text = text.as_str();
    Ok(json!(in alloc; {"name": title.name, "refused": title.number, "text": text})?)
}

fn which_value(alloc: Global, title: Title, which: u32) -> Result<Value, Memory>
    ensures { IfOk result (λ value. view value ≡ object (told title.number title.name.now (member (codes "which") (number (unsigned which)) no_members))) }
{
    Ok(json!(in alloc; {"name": title.name, "refused": title.number, "which": which})?)
}

fn taken_value(alloc: Global, title: Title, text: &Text8, word: &Text8) -> Result<Value, Memory>
    ensures { IfOk result (λ value. view value
        ≡ object (told title.number title.name.now (member (codes "text") (string text.now) (member (codes "word") (string word.now) no_members)))) }
{
    let text = text.as_str();
    let word = word.as_str();
    Ok(json!(in alloc; {"name": title.name, "refused": title.number, "text": text, "word": word})?)
}

fn full_value(alloc: Global, title: Title, which: Limit, limit: u32) -> Result<Value, Memory>
    ensures { IfOk result (λ value. view value
        ≡ object (member (codes "limit") (number (unsigned limit))
        (told title.number title.name.now (member (codes "which") (string (name_of which)) no_members)))) }
{
    let which = which.name();
    Ok(
        json!(in alloc; {"limit": limit, "name": title.name, "refused": title.number, "which": which})?,
    )
}

fn not_sentence_value(alloc: Global, title: Title, k: u32, menu: &MenuView) -> Result<Value, Memory>
    ensures { IfOk result (λ value. view value
        ≡ object (member (codes "k") (number (unsigned k)) (member (codes "menu") (menu_value menu.now) (told title.number title.name.now no_members)))) }
{
    let menu = menu_value(alloc, menu)?;
    Ok(json!(in alloc; {"k": k, "menu": menu, "name": title.name, "refused": title.number})?)
}

fn no_place_value(alloc: Global, title: Title, length: u32) -> Result<Value, Memory>
    ensures { IfOk result (λ value. view value ≡ object (member (codes "length") (number (unsigned length)) (told title.number title.name.now no_members))) }
{
    Ok(json!(in alloc; {"length": length, "name": title.name, "refused": title.number})?)
}

fn place_value(alloc: Global, title: Title, article: &Text8, at: u32) -> Result<Value, Memory>
    ensures { IfOk result (λ value. view value ≡ object (member (codes "article") (string article.now)
        (member (codes "at") (number (unsigned at)) (told title.number title.name.now no_members)))) }
{
    let article = article.as_str();
    Ok(
        json!(in alloc; {"article": article, "at": at, "name": title.name, "refused": title.number})?,
    )
}

fn status_value(alloc: Global, title: Title, status: Status) -> Result<Value, Memory>
    ensures { IfOk result (λ value. view value ≡ object (told title.number title.name.now (member (codes "status") (string (status_name status)) no_members))) }
{
    let status = status.name();
    Ok(json!(in alloc; {"name": title.name, "refused": title.number, "status": status})?)
}

fn fault_value(alloc: Global, title: Title, fault: &Text8, at: u32) -> Result<Value, Memory>
    ensures { IfOk result (λ value. view value ≡ object (member (codes "at") (number (unsigned at))
        (member (codes "fault") (string fault.now) (told title.number title.name.now no_members)))) }
{
    let fault = fault.as_str();
    Ok(json!(in alloc; {"at": at, "fault": fault, "name": title.name, "refused": title.number})?)
}

fn session_value(alloc: Global, title: Title, session: u32) -> Result<Value, Memory>
    ensures { IfOk result (λ value. view value ≡ object (told title.number title.name.now (member (codes "session") (number (unsigned session)) no_members))) }
{
    Ok(json!(in alloc; {"name": title.name, "refused": title.number, "session": session})?)
}

fn stale_value(alloc: Global, title: Title, revision: u32) -> Result<Value, Memory>
    ensures { IfOk result (λ value. view value
        ≡ object (told title.number title.name.now (member (codes "revision") (number (unsigned revision)) no_members))) }
{
    Ok(json!(in alloc; {"name": title.name, "refused": title.number, "revision": revision})?)
}

fn nothing_value(alloc: Global, title: Title) -> Result<Value, Memory>
    ensures { IfOk result (λ value. view value ≡ object (told title.number title.name.now no_members)) }
{
    Ok(json!(in alloc; {"name": title.name, "refused": title.number})?)
}

fn unfinished_value(alloc: Global, title: Title, menu: &MenuView) -> Result<Value, Memory>
    ensures { IfOk result (λ value. view value ≡ object (member (codes "menu") (menu_value menu.now) (told title.number title.name.now no_members))) }
{
    let menu = menu_value(alloc, menu)?;
    Ok(json!(in alloc; {"menu": menu, "name": title.name, "refused": title.number})?)
}
