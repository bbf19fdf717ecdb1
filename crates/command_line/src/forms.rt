// Words of the command line that can be forms of words of the wiki.
ghost use Rattle.std.specs.Prelude.{◌≡◌, false, not, is_some, if◌then◌else◌, Some, None, option_map};
ghost use Rattle.std.specs.Str.{chars};
ghost use Rattle.wiki_base.specs.Text.{fault_of, misplaced, begins_with_letter, is_in_place};
ghost use Rattle.command_line.specs.Command.{form_given};

use std::str::from_utf8;
use unicode::properties::is_alphabetic;
use wiki_base::LONGEST_TEXT;

/// The form that a word is, if it can be one. It takes no memory.
pub fn form_of(word: &[u8]) -> Option<&str>
    ensures { option_map (λ form. form.now) result ≡ form_given word.now }
{
    match from_utf8(word) {
        Ok(form) => text_of(form),
        Err(_) => None,
    }
}

// The same text, if it can be a form.
fn text_of(text: &str) -> Option<&str>
    ensures { option_map (λ form. form.now) result ≡ (if not (is_some (fault_of text.now)) then Some text.now else None) }
{
    if is_text(text) { Some(text) } else { None }
}

// Whether a text can be a form.
fn is_text(text: &str) -> bool
    ensures { result ≡ not (is_some (fault_of text.now)) }
{
    if text.is_empty() || text.len() > LONGEST_TEXT {
        return false;
    }
    are_in_place(text)
}

// Whether each character is a letter, or a hyphen between two letters.
fn are_in_place(text: &str) -> bool
    ensures { result ≡ not (is_some (misplaced false (chars text.now))) }
{
    let mut after_letter = false;
    let mut chars = text.chars();
    while let Some(c) = chars.next() {
        if !is_in_place(after_letter, c, chars.as_str()) {
            return false;
        }
        after_letter = is_alphabetic(c);
    }
    true
}

fn is_in_place(after_letter: bool, c: char, rest: &str) -> bool
    ensures { result ≡ is_in_place after_letter c (chars rest.now) }
{
    is_alphabetic(c) || (c == '-' && (after_letter && begins_with_letter(rest)))
}

fn begins_with_letter(text: &str) -> bool
    ensures { result ≡ begins_with_letter (chars text.now) }
{
    text.chars().next().is_some_and(|c| is_alphabetic(c))
}
