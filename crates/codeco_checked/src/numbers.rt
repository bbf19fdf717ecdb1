// Numbers that the notation fixes.

/// The number of the category `text`, the first plain one: those below are the preterminals.
pub const FIRST_PLAIN: u16 = 5;

/// How many numbers of 16 bits there are: features, atoms, terminals and categories are numbered by them.
pub const NUMBERS: usize = 65_536;
