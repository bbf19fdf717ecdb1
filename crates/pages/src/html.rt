// Texts in HTML, and the frame of a page. A page is written in place: each part is added to what stands of it.
ghost use Rattle.std.specs.Prelude.{◌≡◌, ◌++◌, codes, IfOk, IsTrue, OnOk};
ghost use Rattle.std.specs.String.{string_bytes};
ghost use Rattle.form_urlencoded.specs.Form.{byte_serialize};
ghost use Rattle.pages.specs.Html.{escaped, escaped_char, is_marked, opening};

use form_urlencoded::byte_serialize;
use std::alloc::Global;
use wiki_base::{Memory, Text8};

/// Adds a text, in HTML.
pub fn push_escaped(page: &mut String, text: &str) -> Result<(), Memory>
    ensures { OnOk result (string_bytes page.new ≡ string_bytes page.old ++ escaped text.now) }
{
    // Nearly every text stands in HTML as it is.
    if is_plain(text) {
        return Ok(page.push_str(text)?);
    }
    push_characters(page, text)
}

#[tactic(auto, using(crate::proofs::HtmlLemmas::plain_to_the_end))]
fn is_plain(text: &str) -> bool
    ensures { IsTrue result → escaped text.now ≡ text.now }
{
    for byte in text.as_bytes() {
        if is_marked(*byte) {
            return false;
        }
    }
    true
}

fn is_marked(byte: u8) -> bool
    ensures { result ≡ is_marked byte }
{
    byte == b'&' || (byte == b'<' || (byte == b'>' || byte == b'"'))
}

fn push_characters(page: &mut String, text: &str) -> Result<(), Memory>
    ensures { OnOk result (string_bytes page.new ≡ string_bytes page.old ++ escaped text.now) }
{
    for c in text.chars() {
        push_character(page, c)?;
    }
    Ok(())
}

#[tactic(auto, unfolding(crate::specs::Html::escaped_char))]
fn push_character(page: &mut String, c: char) -> Result<(), Memory>
    ensures { OnOk result (string_bytes page.new ≡ string_bytes page.old ++ escaped_char c) }
{
    match c {
        '&' => page.push_str("&amp;")?,
        '<' => page.push_str("&lt;")?,
        '>' => page.push_str("&gt;")?,
        '"' => page.push_str("&quot;")?,
        c => page.push(c)?,
    }
    Ok(())
}

/// Adds a text as a segment of a path.
pub fn push_coded(page: &mut String, text: &str) -> Result<(), Memory>
    ensures { OnOk result (string_bytes page.new ≡ string_bytes page.old ++ byte_serialize text.now) }
{
    for piece in byte_serialize(text.as_bytes()) {
        page.push_str(piece)?;
    }
    Ok(())
}

/// A page with a title, as text, up to its body, with room for so many bytes.
#[tactic(auto, unfolding(crate::specs::Html::opening))]
pub fn opened(alloc: Global, title: &str, room: usize) -> Result<String, Memory>
    ensures { IfOk result (λ page. string_bytes page ≡ opening title.now) }
{
    let mut page = String::with_capacity(alloc, room)?;
    page.push_str("<!DOCTYPE html>\n<html><head><meta charset=\"utf-8\"><title>")?;
    push_escaped(&mut page, title)?;
    page.push_str("</title><style>.contradiction,.budget{color:red}</style></head><body>")?;
    Ok(page)
}

/// The page whose body is whole.
pub fn closed(page: String) -> Result<Text8, Memory>
    ensures { IfOk result (λ text. text ≡ string_bytes page ++ codes "</body></html>\n") }
{
    let mut page = page;
    page.push_str("</body></html>\n")?;
    Ok(Text8::from_string(page))
}
