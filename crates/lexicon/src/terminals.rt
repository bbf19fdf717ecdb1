// The words that a grammar itself has.
ghost use Rattle.std.specs.Prelude.{◌≡◌};
ghost use Rattle.std.specs.Str.{bytes_eq};
ghost use Rattle.lexicon.specs.Terminals.{raised, is_spelling_of, is_reserved};

use codeco_terms::Symbols;

// Whether the text is a terminal, or a terminal with its first letter raised to upper case.
pub(crate) fn is_reserved(terminals: &Symbols, text: &[u8]) -> bool
    ensures { result ≡ is_reserved terminals.now text.now }
{
    terminals
        .as_slice()
        .iter()
        .any(|terminal| is_spelling_of(text, terminal.as_bytes()))
}

fn is_spelling_of(text: &[u8], terminal: &[u8]) -> bool
    ensures { result ≡ is_spelling_of text.now terminal.now }
{
    text == terminal || is_raised(text, terminal)
}

// Whether the text is the terminal raised.
fn is_raised(text: &[u8], terminal: &[u8]) -> bool
    ensures { result ≡ bytes_eq text.now (raised terminal.now) }
{
    match (text, terminal) {
        ([], []) => true,
        ([first, text @ ..], [letter, terminal @ ..]) => {
            *first == letter.to_ascii_uppercase() && text == terminal
        }
        _ => false,
    }
}
