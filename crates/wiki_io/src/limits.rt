// The bounds of an input and of a link.

/// The byte that ends a line.
pub const NEWLINE: u8 = b'\n';

/// A line of so many bytes and more, without its newline, is too long.
pub const MAX_LINE: usize = 65_536;

/// The most bytes that an input may have.
pub const MAX_INPUT: u64 = 4_294_967_296;

/// The greatest number of connections that are open at once. One more is let in, to be told so.
pub const MOST_OPEN: usize = 64;
