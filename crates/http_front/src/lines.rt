// The lines of a head.
ghost use Rattle.std.specs.Prelude.{◌≡◌, ◌≤◌, length};
ghost use Rattle.http_front.specs.Front.{newlines, is_line_end, after_blank};

/// How many of the bytes are newlines.
pub fn newlines(bytes: &[u8]) -> usize
    ensures { result ≡ newlines bytes.now }
{
    let mut count = 0;
    for byte in bytes {
        if *byte == b'\n' {
            count += 1;
        }
    }
    count
}

/// The bytes from the first that is neither a carriage return nor a newline.
pub fn after_blank(bytes: &[u8]) -> &[u8]
    ensures { result.now ≡ after_blank bytes.now }
{
    let mut rest = bytes;
    'blank: while let Some((first, behind)) = rest.split_first() {
        if !is_line_end(*first) {
            return rest;
        }
        rest = behind;
    }
    rest
}

fn is_line_end(byte: u8) -> bool
    ensures { result ≡ is_line_end byte }
{
    byte == b'\r' || byte == b'\n'
}
