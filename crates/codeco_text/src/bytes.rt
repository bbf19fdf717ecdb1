// The kinds of bytes of the notation.
ghost use Rattle.std.specs.Prelude.{◌≡◌};
ghost use Rattle.codeco_text.specs.Names.{is_space, is_lower, is_upper, is_word_byte, is_terminal_byte};

/// White space: space, tab, carriage return or newline.
pub fn is_space(byte: u8) -> bool
    ensures { result ≡ is_space byte }
{
    byte == b' ' || byte == b'\t' || byte == b'\r' || byte == b'\n'
}

/// A letter a to z.
pub fn is_lower(byte: u8) -> bool
    ensures { result ≡ is_lower byte }
{
    byte >= b'a' && byte <= b'z'
}

/// A letter A to Z.
pub fn is_upper(byte: u8) -> bool
    ensures { result ≡ is_upper byte }
{
    byte >= b'A' && byte <= b'Z'
}

/// A byte of a name after its first: a letter, a digit or `_`.
pub fn is_word_byte(byte: u8) -> bool
    ensures { result ≡ is_word_byte byte }
{
    is_lower(byte) || is_upper(byte) || (byte >= b'0' && byte <= b'9') || byte == b'_'
}

/// A byte of a terminal: neither white space nor a bracket.
pub fn is_terminal_byte(byte: u8) -> bool
    ensures { result ≡ is_terminal_byte byte }
{
    !(is_space(byte) || byte == b'[' || byte == b']')
}
