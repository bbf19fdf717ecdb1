// The page of an article.
ghost use Rattle.std.specs.Prelude.{◌≡◌, ◌++◌, IfOk, OnOk};
ghost use Rattle.std.specs.List.{flat_map};
ghost use Rattle.std.specs.String.{string_bytes};
ghost use Rattle.form_urlencoded.specs.Form.{byte_serialize};
ghost use Rattle.pages.specs.Pages.{further, joined, answers_shown, unknown_shown, answers_of, item_of_class, sentence_item, forms_at, article_body, article_page};

use crate::html::{closed, opened, push_coded, push_escaped};
use std::alloc::Global;
use wiki_base::{Memory, Text8};
use wiki_talk::{SentenceView, Status};

// About the bytes of a page without its sentences, and of a sentence.
const ROOM: usize = 1024;

const ROOM_OF_A_SENTENCE: usize = 96;

/// An article's sentences, with a form for a new one and one for a session.
#[tactic(auto, unfolding(crate::specs::Html::framed))]
pub fn article_page(alloc: Global, form: &str, sentences: &[SentenceView]) -> Result<Text8, Memory>
    ensures { IfOk result (λ page. page ≡ article_page form.now sentences.now) }
{
    let room = sentences
        .len()
        .saturating_mul(ROOM_OF_A_SENTENCE)
        .saturating_add(ROOM);
    let mut page = opened(alloc, form, room)?;
    push_body(&mut page, form, sentences)?;
    closed(page)
}

fn push_body(page: &mut String, form: &str, sentences: &[SentenceView]) -> Result<(), Memory>
    ensures { OnOk result (string_bytes page.new ≡ string_bytes page.old ++ article_body form.now sentences.now) }
{
    page.push_str("<h1>")?;
    push_escaped(page, form)?;
    page.push_str("</h1><ol>")?;
    push_sentences(page, sentences)?;
    page.push_str("</ol>")?;
    push_forms(page, form)
}

#[tactic(auto, unfolding(crate::specs::Pages::forms_at))]
fn push_forms(page: &mut String, form: &str) -> Result<(), Memory>
    ensures { OnOk result (string_bytes page.new ≡ string_bytes page.old ++ forms_at (byte_serialize form.now)) }
{
    page.push_str("<form method=\"post\" action=\"/article/")?;
    push_coded(page, form)?;
    page.push_str(
        "/add\"><input name=\"text\"><button>Add</button></form><form method=\"post\" action=\"/article/",
    )?;
    push_coded(page, form)?;
    Ok(page.push_str("/open\"><button>Editor</button></form>")?)
}

fn push_sentences(page: &mut String, sentences: &[SentenceView]) -> Result<(), Memory>
    ensures { OnOk result (string_bytes page.new ≡ string_bytes page.old ++ flat_map sentence_item sentences.now) }
{
    for sentence in sentences {
        push_sentence(page, sentence)?;
    }
    Ok(())
}

#[tactic(auto, unfolding(crate::specs::Pages::sentence_item))]
fn push_sentence(page: &mut String, sentence: &SentenceView) -> Result<(), Memory>
    ensures { OnOk result (string_bytes page.new ≡ string_bytes page.old ++ sentence_item sentence.now) }
{
    push_item(page, sentence.status.name(), sentence)
}

#[tactic(auto, unfolding(crate::specs::Pages::item_of_class))]
fn push_item(page: &mut String, class: &str, sentence: &SentenceView) -> Result<(), Memory>
    ensures { OnOk result (string_bytes page.new ≡ string_bytes page.old ++ item_of_class class.now sentence.now) }
{
    page.push_str("<li class=\"")?;
    page.push_str(class)?;
    page.push_str("\">")?;
    push_escaped(page, sentence.text.as_str())?;
    push_answers(page, sentence)?;
    Ok(page.push_str("</li>")?)
}

// What a question that asks for a class shows beside its text.
#[tactic(auto, unfolding(crate::specs::Pages::answers_of))]
fn push_answers(page: &mut String, sentence: &SentenceView) -> Result<(), Memory>
    ensures { OnOk result (string_bytes page.new
        ≡ string_bytes page.old ++ answers_of sentence.now.status sentence.now.answers sentence.now.unknown) }
{
    match sentence.status {
        Status::Question => {
            push_known(page, sentence.answers.as_slice())?;
            push_unknown(page, sentence.unknown.as_slice())
        }
        _ => Ok(()),
    }
}

fn push_known(page: &mut String, names: &[Text8]) -> Result<(), Memory>
    ensures { OnOk result (string_bytes page.new ≡ string_bytes page.old ++ answers_shown names.now) }
{
    page.push_str(" <i>")?;
    push_joined(page, names)?;
    Ok(page.push_str("</i>")?)
}

fn push_unknown(page: &mut String, names: &[Text8]) -> Result<(), Memory>
    ensures { OnOk result (string_bytes page.new ≡ string_bytes page.old ++ unknown_shown names.now) }
{
    if names.is_empty() {
        return Ok(());
    }
    page.push_str(" <u>")?;
    push_joined(page, names)?;
    Ok(page.push_str("</u>")?)
}

fn push_joined(page: &mut String, names: &[Text8]) -> Result<(), Memory>
    ensures { OnOk result (string_bytes page.new ≡ string_bytes page.old ++ joined names.now) }
{
    let Some((first, names)) = names.split_first() else {
        return Ok(());
    };
    push_escaped(page, first.as_str())?;
    push_further(page, names)
}

fn push_further(page: &mut String, names: &[Text8]) -> Result<(), Memory>
    ensures { OnOk result (string_bytes page.new ≡ string_bytes page.old ++ flat_map further names.now) }
{
    for name in names {
        page.push_str(", ")?;
        push_escaped(page, name.as_str())?;
    }
    Ok(())
}
