// What stands in many lines: texts and words.
ghost use Rattle.std.specs.Prelude.{◌≡◌, IfOk, OnOk};
ghost use Rattle.serde_json.specs.View.{view, members_view};
ghost use Rattle.serde_json.specs.Data.{array, put as with_member};
ghost use Rattle.wire_json.specs.Values.{texts_items, numbers_items, menu_value, word_value, words_items};

use serde_json::{Map, Value, json, put};
use std::alloc::Global;
use wiki_base::{Memory, Text8, Text8s};
use wiki_talk::{MenuView, WordView, kind_name};

// A list of texts.
pub(crate) fn texts_value(alloc: Global, texts: &[Text8]) -> Result<Value, Memory>
    ensures { IfOk result (λ value. view value ≡ array (texts_items texts.now)) }
{
    let mut items = Vec::new(alloc);
    for text in texts {
        items.push(Value::try_from_str(alloc, text.as_str())?)?;
    }
    Ok(Value::Array(items))
}

// A word with its forms and its kind.
pub(crate) fn word_value(alloc: Global, word: &WordView) -> Result<Value, Memory>
    ensures { IfOk result (λ value. view value ≡ word_value word.now) }
{
    let forms = texts_value(alloc, word.forms.as_slice())?;
    let kind = kind_name(word.kind);
    Ok(json!(in alloc; {"forms": forms, "kind": kind})?)
}

// A list of numbers.
pub(crate) fn numbers_value(alloc: Global, numbers: &[u32]) -> Result<Value, Memory>
    ensures { IfOk result (λ value. view value ≡ array (numbers_items numbers.now)) }
{
    let mut items = Vec::new(alloc);
    for number in numbers {
        items.push(Value::from(*number))?;
    }
    Ok(Value::Array(items))
}

// A menu: a list of texts for each group.
pub(crate) fn menu_value(alloc: Global, menu: &MenuView) -> Result<Value, Memory>
    ensures { IfOk result (λ value. view value ≡ menu_value menu.now) }
{
    let mut map = Map::new(alloc);
    put_texts(alloc, &mut map, "adjective", &menu.adjective)?;
    put_texts(alloc, &mut map, "function", &menu.function)?;
    put_texts(alloc, &mut map, "name", &menu.name)?;
    put_texts(alloc, &mut map, "noun", &menu.noun)?;
    put_texts(alloc, &mut map, "of", &menu.of)?;
    put_texts(alloc, &mut map, "verb", &menu.verb)?;
    Ok(Value::Object(map))
}

// Puts a list of texts into an object, at a key.
fn put_texts(
    alloc: Global,
    map: &mut Map<String, Value>,
    key: &str,
    texts: &Text8s,
) -> Result<(), Memory>
    ensures { OnOk result (members_view map.new.entries ≡ with_member key.now (array (texts_items texts.now)) (members_view map.old.entries)) }
{
    let list = texts_value(alloc, texts.as_slice())?;
    put(map, alloc, key, list)?;
    Ok(())
}

// A list of words.
pub(crate) fn words_value(alloc: Global, words: &[WordView]) -> Result<Value, Memory>
    ensures { IfOk result (λ value. view value ≡ array (words_items words.now)) }
{
    let mut items = Vec::new(alloc);
    for word in words {
        items.push(word_value(alloc, word)?)?;
    }
    Ok(Value::Array(items))
}
