// Which sentences need a word.
ghost use Rattle.std.specs.Prelude.{◌≡◌, ◌≤◌, ◌==◌, ◌||◌, All, length, option_map, find};
ghost use Rattle.std.specs.List.{list_any};
ghost use Rattle.lexicon.specs.Words.{is_among};
ghost use Rattle.plain_wiki.specs.Places.{placed_in, all_placed, told_place};
ghost use Rattle.wiki_talk.specs.declared.limits.TheConstants.{MOST_SENTENCES};
ghost use Rattle.plain_wiki.specs.Causes.{uses_word};

use articles::{Article, Sentence};
use lexicon::Forms;
use wiki_base::{Place, WordId};

/// The place of the first sentence that needs the word with these forms.
pub fn first_use(articles: &[Article], word: WordId, forms: &Forms) -> Option<Place>
    requires { All (λ article. length article.sentences ≤ MOST_SENTENCES) articles.now }
    ensures { result ≡ option_map told_place (find (uses_word word forms.now) (all_placed articles.now)) }
{
    for article in articles {
        match use_in(article, word, forms) {
            Some(at) => {
                return Some(Place {
                    article: article.word,
                    at,
                });
            }
            None => {}
        }
    }
    None
}

// The place of the first sentence of an article that needs the word.
fn use_in(article: &Article, word: WordId, forms: &Forms) -> Option<u32>
    requires { length article.now.sentences ≤ MOST_SENTENCES }
    ensures { result ≡ option_map (λ placed. placed.place) (find (uses_word word forms.now) (placed_in article.now)) }
{
    for place in 0..article.sentences.len() {
        if needs(article, article.sentences.get(place), word, forms) {
            return Some(place as u32);
        }
    }
    None
}

// Whether a sentence of the article needs the word.
fn needs(article: &Article, sentence: &Sentence, word: WordId, forms: &Forms) -> bool
    ensures { result ≡ (article.now.word.0 == word.0) || list_any (is_among forms.now.texts) sentence.now.tokens }
{
    article.word.0 == word.0 || has_form(sentence, forms)
}

/// Whether a token of the sentence is one of the forms.
pub fn has_form(sentence: &Sentence, forms: &Forms) -> bool
    ensures { result ≡ list_any (is_among forms.now.texts) sentence.now.tokens }
{
    sentence
        .tokens
        .get()
        .as_slice()
        .iter()
        .any(|token| is_form(forms, token.as_str()))
}

fn is_form(forms: &Forms, text: &str) -> bool
    ensures { result ≡ is_among forms.now.texts text.now }
{
    forms
        .texts
        .as_slice()
        .iter()
        .any(|form| text == form.as_str())
}
