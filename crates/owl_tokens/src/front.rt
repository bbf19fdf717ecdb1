// The front of a file that is text.
ghost use Rattle.std.specs.Prelude.{◌≡◌};
ghost use Rattle.owl_tokens.specs.Tokens.{utf8_front, has_mark};

use std::str;

/// The longest front that is UTF-8.
pub fn utf8_front(text: &[u8]) -> &[u8]
    ensures { result.now ≡ utf8_front text.now }
{
    match str::from_utf8(text) {
        Ok(_) => text,
        Err(fault) => &text[..fault.valid_up_to()],
    }
}

/// Whether a byte order mark stands in front.
pub fn has_mark(text: &[u8]) -> bool
    ensures { result ≡ has_mark text.now }
{
    match text {
        [a, b, c, ..] => *a == 0xEF && *b == 0xBB && *c == 0xBF,
        _ => false,
    }
}
