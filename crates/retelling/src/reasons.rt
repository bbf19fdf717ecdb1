// What is told of parts of knowledge.
ghost use Rattle.std.specs.Prelude.{◌≡◌, ◌≤◌, ◌++◌, [], codes, All, IfOk, IsTrue, OnOk, length, map, slice_get, take};
ghost use Rattle.std.specs.Fmt.{decimal};
ghost use Rattle.std.specs.Option.{option_map_or};
ghost use Rattle.lexicon.specs.Words.{canonical_form_of};
ghost use Rattle.absorb.specs.Mentioned.{are_over};
ghost use Rattle.explain.specs.Answers.{claims_in};
ghost use Rattle.logic_terms.specs.Plain.{are_plain};
ghost use Rattle.owl_eval.specs.Checked.{kept_interp, kept_claims};
ghost use Rattle.reasoner.specs.Verdicts.{IsFiniteModel};
ghost use Rattle.wiki_core.specs.Parts.{place_of};
ghost use Rattle.plain_wiki.specs.Knowledge.{live_names};
ghost use Rattle.retelling.specs.Why.{line_of_sentence, line_at, reason_lines, TellsOf};

use articles::Sentence;
use derivation_trees::show;
use explain::{Part, Why, explain};
use owl_eval::CheckedModel;
use std::alloc::Global;
use wiki_base::{Memory, Spelled, Text8, WordId};
use wiki_core::Wiki;

/// Why parts contradict each other, of which the first ones are sentences and have lines.
pub(crate) fn explained(
    alloc: Global,
    wiki: &Wiki,
    budget: u64,
    parts: &[Part],
    count: usize,
) -> Result<Text8, Memory>
    requires count { count ≤ length parts.now }
    requires over { All (λ claims. IsTrue (are_over (live_names wiki.now.state.stored.words) claims)) (claims_in parts.now) }
    requires plain { All (λ claims. IsTrue (are_plain claims)) (claims_in parts.now) }
    ensures { IfOk result (TellsOf wiki.now.state.stored budget (map place_of (take count parts.now)) (claims_in parts.now)) }
{
    let names = wiki.names()?;
    match explain(alloc, parts, &names, budget)? {
        Why::Reason { kept, models, .. } => {
            are_models(models.as_slice());
            reason_lines(alloc, wiki, front(parts, count), kept.as_slice())
        }
        Why::Consistent(model) => {
            let _ = model.interp();
            Text8::from_str(alloc, "consistent\n")
        }
        Why::Spent(_) => Text8::from_str(alloc, "budget\n"),
    }
}

// The first ones of the parts.
fn front(parts: &[Part], count: usize) -> &[Part]
    requires { count ≤ length parts.now }
    ensures { result.now ≡ take count parts.now }
{
    &parts[..count]
}

// Each checked model is a finite model of its axioms.
fn are_models(models: &[CheckedModel])
    ensures { All (λ m. IsFiniteModel (kept_interp m) (kept_claims m)) models.now }
{
    for model in models {
        let _ = model.interp();
    }
}

// The lines of the kept ones of the sentences.
fn reason_lines(
    alloc: Global,
    wiki: &Wiki,
    sentences: &[Part],
    kept: &[usize],
) -> Result<Text8, Memory>
    ensures { IfOk result (λ text. text ≡ reason_lines wiki.now.state.stored (map place_of sentences.now) kept.now) }
{
    let mut lines = Text8::new(alloc);
    for place in kept {
        push_kept(alloc, &mut lines, wiki, sentences, *place)?;
    }
    Ok(lines)
}

// Adds the line of the sentence at a place of the list, if there is one.
fn push_kept(
    alloc: Global,
    lines: &mut Text8,
    wiki: &Wiki,
    sentences: &[Part],
    place: usize,
) -> Result<(), Memory>
    ensures { OnOk result (lines.new
        ≡ lines.old ++ option_map_or (line_at wiki.now.state.stored) (slice_get (map place_of sentences.now) place) []) }
{
    match sentences.get(place) {
        Some(part) => push_line(alloc, lines, wiki, part),
        None => Ok(()),
    }
}

// Adds the line of the sentence that a part is.
fn push_line(alloc: Global, lines: &mut Text8, wiki: &Wiki, part: &Part) -> Result<(), Memory>
    ensures { OnOk result (lines.new ≡ lines.old ++ line_at wiki.now.state.stored (place_of part.now)) }
{
    match wiki.sentence(part.article, part.at) {
        Some(sentence) => {
            let line = line_of_sentence(alloc, wiki, part.article, part.at, sentence)?;
            lines.push_str(line.as_str())
        }
        None => Ok(()),
    }
}

// The line of a sentence at a place of a word's article.
fn line_of_sentence(
    alloc: Global,
    wiki: &Wiki,
    article: WordId,
    at: u32,
    sentence: &Sentence,
) -> Result<Text8, Memory>
    ensures { IfOk result (λ text. text ≡ line_of_sentence wiki.now.state.stored (record { article = article; at = at }) sentence.now) }
{
    let form = form_of(wiki, article);
    let text = show(alloc, wiki.grammar().grammar(), sentence.tokens.get())?;
    told(alloc, form, at, text.as_str())
}

// The canonical form of a word, or nothing where it isn't live.
fn form_of(wiki: &Wiki, word: WordId) -> &str
    ensures { result.now ≡ option_map_or (λ form. form) (canonical_form_of wiki.now.state.stored.words.live word) [] }
{
    match wiki.lexicon().spelled(word) {
        Some(form) => form,
        None => "",
    }
}

// A line with a form, a place and a text.
fn told(alloc: Global, form: &str, at: u32, text: &str) -> Result<Text8, Memory>
    ensures { IfOk result (λ line. line ≡ form.now ++ (codes " " ++ (decimal at ++ (codes " " ++ (text.now ++ codes "\n"))))) }
{
    Ok(Text8::from_string(format!(in alloc; "{form} {at} {text}\n")?))
}
