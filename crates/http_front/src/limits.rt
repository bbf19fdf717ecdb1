// What a request may be at most.

/// The greatest number of bytes of a head.
pub const MOST_HEAD: usize = 16_384;

/// The greatest number of bytes of a body.
pub const MOST_BODY: usize = 65_536;

/// The greatest number of fields of a head.
pub const MOST_FIELDS: usize = 64;
