// Where the reading of a file stands.
use crate::kinds::Construct;

/// What was read last.
#[derive(Clone, Copy)]
pub enum Stand {
    /// Lines of prefixes; `Prefix` or `Ontology` comes.
    Lines,
    /// `Prefix`
    PrefixOpening,
    /// `Prefix(`
    PrefixName,
    /// A prefix's name.
    PrefixEquals,
    /// The `=` behind it.
    PrefixIri,
    /// The IRI behind that.
    PrefixClose,
    /// A keyword.
    Opening(Construct),
    /// `Ontology(`, behind which so many IRIs may still come, or an item.
    Heading(u8),
    /// A part of the innermost construct.
    Within,
    /// The keyword of an annotation.
    AnnotationOpening,
    /// A part of an annotation, which ends where only so many parentheses are open.
    Passing(usize),
    /// The last parenthesis.
    Closed,
}
