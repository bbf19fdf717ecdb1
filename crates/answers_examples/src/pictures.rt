// Models of finished branches, worked out by hand. Each row has how many names there are, the axioms in the notation of
// `read`, the names' elements, and what the model gives to the class words A and B and to the relation words r and s: digits
// for elements, two of them for a pair.

/// A row of the table.
pub type Picture = (
    u8,
    &'static str,
    &'static str,
    &'static str,
    &'static str,
    &'static str,
    &'static str,
);

pub static PICTURES: [Picture; 12] = [
    // One element for each name, and one where there is no name.
    (2, "12r+ A1: B2:", "01", "0", "1", "01", ""),
    (0, "TA<", "", "0", "", "", ""),
    // Equal names have one element, with the classes of both.
    (2, "12~ A1: B2: 12r+", "00", "0", "0", "00", ""),
    // Pairs of a relation are pairs of those that include it, as they stand or turned round.
    (2, "12r+ rs^", "01", "", "", "01", "01"),
    (2, "12r+ rS^", "01", "", "", "01", "10"),
    // Node 2 is blocked by node 1: the edge from 1 to 2 is one from 1 to 1.
    (1, "A1: AAr?<", "0", "01", "", "01 11", ""),
    // The same where edges lead back.
    (1, "A1: AAR?<", "0", "01", "", "10 11", ""),
    // Without names the first node may block others, but the second has more classes than it.
    (0, "TTr?<", "", "", "", "01 11", ""),
    // Blocking that ends: node 1 gets B from behind, so that node 2 is unlike it until it gets B from node 3.
    (1, "A1: AAr?< ABR*<", "0", "01", "01", "01 11", ""),
    // The blocked node has the value's class and no edge of its own for it.
    (1, "A1: AAr?< A1s=<", "0", "01", "", "01 11", "00 10"),
    // A person (A) has a parent (B) who is a person.
    (1, "ABA&r?< A1:", "0", "01", "1", "01 11", ""),
    // A neighbour that has the class serves, so that there is no third node.
    (2, "12r+ A2: Ar?1:", "01", "1", "", "01", ""),
];
