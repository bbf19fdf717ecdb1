// Statuses, sentences and what they mean, as JSON.
ghost use Rattle.std.specs.Prelude.{◌≡◌, IfOk};
ghost use Rattle.serde_json.specs.View.{view};
ghost use Rattle.serde_json.specs.Data.{array};
ghost use Rattle.wire_json.specs.Replies.{commit_value, status_value, meant_value};
ghost use Rattle.wire_json.specs.Values.{statement_value, question_value, sentence_value, sentences_items};

use crate::values::texts_value;
use serde_json::{Value, json};
use std::alloc::Global;
use wiki_base::Memory;
use wiki_talk::{Meant, SentenceView, Status, cause_name};

// A reply that tells a status.
pub(crate) fn status_value(alloc: Global, name: &str, status: Status) -> Result<Value, Memory>
    ensures { IfOk result (λ value. view value ≡ status_value name.now status) }
{
    let told = status.name();
    match status.cause() {
        Some(cause) => {
            let cause = cause_name(cause);
            Ok(json!(in alloc; {"cause": cause, "done": name, "status": told})?)
        }
        None => Ok(json!(in alloc; {"done": name, "status": told})?),
    }
}

// The reply of a session's sentence that was added to an article.
pub(crate) fn commit_value(alloc: Global, article: &str, status: Status) -> Result<Value, Memory>
    ensures { IfOk result (λ value. view value ≡ commit_value article.now status) }
{
    let told = status.name();
    match status.cause() {
        Some(cause) => {
            let cause = cause_name(cause);
            Ok(
                json!(in alloc; {"article": article, "cause": cause, "done": "commit", "status": told})?,
            )
        }
        None => Ok(json!(in alloc; {"article": article, "done": "commit", "status": told})?),
    }
}

// What a sentence means.
pub(crate) fn meant_value(alloc: Global, meant: &Meant) -> Result<Value, Memory>
    ensures { IfOk result (λ value. view value ≡ meant_value meant.now) }
{
    match meant {
        Meant::Axioms(axioms) => {
            let axioms = texts_value(alloc, axioms.as_slice())?;
            Ok(json!(in alloc; {"axioms": axioms, "done": "axioms"})?)
        }
        Meant::Class(text) => {
            let text = text.as_str();
            Ok(json!(in alloc; {"class": text, "done": "axioms"})?)
        }
        Meant::Outside(cause) => {
            let cause = cause_name(*cause);
            Ok(json!(in alloc; {"axioms": [], "cause": cause, "done": "axioms"})?)
        }
    }
}

// A list of sentences.
pub(crate) fn sentences_value(alloc: Global, sentences: &[SentenceView]) -> Result<Value, Memory>
    ensures { IfOk result (λ value. view value ≡ array (sentences_items sentences.now)) }
{
    let mut items = Vec::new(alloc);
    for sentence in sentences {
        items.push(sentence_value(alloc, sentence)?)?;
    }
    Ok(Value::Array(items))
}

fn sentence_value(alloc: Global, sentence: &SentenceView) -> Result<Value, Memory>
    ensures { IfOk result (λ value. view value ≡ sentence_value sentence.now) }
{
    if sentence.status.is_question() {
        question_value(alloc, sentence)
    } else {
        statement_value(alloc, sentence)
    }
}

fn question_value(alloc: Global, sentence: &SentenceView) -> Result<Value, Memory>
    ensures { IfOk result (λ value. view value ≡ question_value sentence.now) }
{
    let status = sentence.status.name();
    let text = sentence.text.as_str();
    let answers = texts_value(alloc, sentence.answers.as_slice())?;
    let unknown = texts_value(alloc, sentence.unknown.as_slice())?;
    Ok(json!(in alloc; {"answers": answers, "status": status, "text": text, "unknown": unknown})?)
}

fn statement_value(alloc: Global, sentence: &SentenceView) -> Result<Value, Memory>
    ensures { IfOk result (λ value. view value ≡ statement_value sentence.now) }
{
    let status = sentence.status.name();
    let text = sentence.text.as_str();
    match sentence.status.cause() {
        Some(cause) => {
            let cause = cause_name(cause);
            Ok(json!(in alloc; {"cause": cause, "status": status, "text": text})?)
        }
        None => Ok(json!(in alloc; {"status": status, "text": text})?),
    }
}
