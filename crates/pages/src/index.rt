// The index of all words.
ghost use Rattle.std.specs.Prelude.{◌≡◌, ◌++◌, IfOk, OnOk};
ghost use Rattle.std.specs.List.{flat_map};
ghost use Rattle.std.specs.String.{string_bytes};
ghost use Rattle.pages.specs.Pages.{canonical, word_link, word_item, index_body, index_page};

use crate::html::{closed, opened, push_coded, push_escaped};
use lexicon::Kind;
use std::alloc::Global;
use wiki_base::{Memory, Text8};
use wiki_talk::{WordView, kind_name};

// About the bytes of a page without its words, and of a word.
const ROOM: usize = 512;

const ROOM_OF_A_WORD: usize = 64;

/// All words, with a form for a new one.
#[tactic(auto, unfolding(crate::specs::Html::framed))]
pub fn index_page(alloc: Global, words: &[WordView]) -> Result<Text8, Memory>
    ensures { IfOk result (λ page. page ≡ index_page words.now) }
{
    let room = words
        .len()
        .saturating_mul(ROOM_OF_A_WORD)
        .saturating_add(ROOM);
    let mut page = opened(alloc, "AceWiki", room)?;
    push_body(&mut page, words)?;
    closed(page)
}

fn push_body(page: &mut String, words: &[WordView]) -> Result<(), Memory>
    ensures { OnOk result (string_bytes page.new ≡ string_bytes page.old ++ index_body words.now) }
{
    page.push_str("<h1>AceWiki</h1><ul>")?;
    push_words(page, words)?;
    Ok(page.push_str(
        "</ul><form method=\"post\" action=\"/word\"><input name=\"kind\"><input name=\"forms\"><button>Add</button></form>",
    )?)
}

fn push_words(page: &mut String, words: &[WordView]) -> Result<(), Memory>
    ensures { OnOk result (string_bytes page.new ≡ string_bytes page.old ++ flat_map word_item words.now) }
{
    for word in words {
        push_word(page, word)?;
    }
    Ok(())
}

#[tactic(auto, unfolding(crate::specs::Pages::word_item))]
fn push_word(page: &mut String, word: &WordView) -> Result<(), Memory>
    ensures { OnOk result (string_bytes page.new ≡ string_bytes page.old ++ word_item word.now) }
{
    page.push_str("<li>")?;
    push_link(page, canonical(word))?;
    let kind = kind_name(word.kind);
    Ok(write!(page, " ({kind})</li>")?)
}

#[tactic(auto, unfolding(crate::specs::Pages::word_link))]
fn push_link(page: &mut String, form: &str) -> Result<(), Memory>
    ensures { OnOk result (string_bytes page.new ≡ string_bytes page.old ++ word_link form.now) }
{
    page.push_str("<a href=\"/article/")?;
    push_coded(page, form)?;
    page.push_str("\">")?;
    push_escaped(page, form)?;
    Ok(page.push_str("</a>")?)
}

fn canonical(word: &WordView) -> &str
    ensures { result.now ≡ canonical word.now }
{
    let place = match word.kind {
        Kind::Verb => 1,
        _ => 0,
    };
    match word.forms.as_slice().get(place) {
        Some(form) => form.as_str(),
        None => "",
    }
}
