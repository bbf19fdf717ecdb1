// The words of entities, and the lines that ask for them.
ghost use Rattle.std.specs.Prelude.{◌≡◌, ◌++◌, IfOk, OnOk};
ghost use Rattle.wire_json.specs.Requests.{request_line};
ghost use Rattle.wiki_talk.specs.declared.requests.Request.TheVariants as requests;
ghost use Rattle.owl_import.specs.Words.{word_kind, AreWordsOf, word_line, word_lines};

use codeco_checked::CheckedGrammar;
use lexicon::{Kind, Lexicon, MOST_WORDS, Word};
use owl_reader::{Entities, EntityKind};
use owl_words::Naming;
use std::alloc::Global;
use wiki_base::{Memory, Text8, Text8s};
use wiki_talk::{Request, WikiRequest};
use wire_json::request_line;

/// The words of entities: of the first `MOST_WORDS` one each, in order.
pub(crate) fn words_of(
    alloc: Global,
    grammar: &CheckedGrammar,
    entities: &Entities,
) -> Result<Naming, Memory>
    ensures { IfOk result (λ words. AreWordsOf grammar.now entities.now words) }
{
    let mut naming = Naming::new(alloc, grammar.grammar())?;
    for place in 0..MOST_WORDS.min(entities.len()) {
        let entity = entities.get(place);
        naming.add(alloc, word_kind(entity.kind), entity.iri.as_slice())?;
    }
    Ok(naming)
}

fn word_kind(kind: EntityKind) -> Kind
    ensures { result ≡ word_kind kind }
{
    match kind {
        EntityKind::Class => Kind::Noun,
        EntityKind::Property => Kind::Verb,
        EntityKind::Individual => Kind::Name,
    }
}

/// Adds the lines that ask for words.
pub(crate) fn put_words(alloc: Global, out: &mut Text8, words: &Lexicon) -> Result<(), Memory>
    ensures { OnOk result (out.new ≡ out.old ++ word_lines words.now) }
{
    for place in 0..words.len() {
        let line = word_line(alloc, words.get(place))?;
        out.push_str(line.as_str())?;
    }
    Ok(())
}

// The line that asks for a word.
fn word_line(alloc: Global, word: &Word) -> Result<Text8, Memory>
    ensures { IfOk result (λ line. line ≡ word_line word.now) }
{
    let mut forms = Text8s::new(alloc);
    for text in word.forms.texts.as_slice() {
        forms.push(Text8::from_str(alloc, text.as_str())?)?;
    }
    let request = Request::OnWiki(WikiRequest::Word {
        kind: word.forms.kind,
        forms,
    });
    request_line(alloc, &request)
}
