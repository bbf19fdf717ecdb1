// Labels, as lists of classes.
ghost use Rattle.std.specs.Prelude.{◌≡◌, ◌&&◌, not, map, filter, length, nat_lt};
ghost use Rattle.std.specs.List.{list_any, list_all};
ghost use Rattle.logic_terms.specs.Complement.{complement};
ghost use Rattle.logic_terms.specs.Same.{has_concept};
ghost use Rattle.logic_terms.specs.Shown.{concept_of};
ghost use Rattle.tableau_rules.specs.Blocking.{same_classes};
ghost use Rattle.tableau_rules.specs.Rules.{lacks_some, lacks_all, open_members};

use logic_terms::Class;

pub(crate) fn has(label: &[Class], class: &Class) -> bool
    ensures { result ≡ has_concept (map concept_of label.now) (concept_of class.now) }
{
    for own in label {
        if own.is_same(class) {
            return true;
        }
    }
    false
}

pub(crate) fn has_complement(label: &[Class], class: &Class) -> bool
    ensures { result ≡ has_concept (map concept_of label.now) (complement (concept_of class.now)) }
{
    for own in label {
        if own.is_complement_of(class) {
            return true;
        }
    }
    false
}

// Whether each class of the one is in the other.
fn is_within(label: &[Class], other: &[Class]) -> bool
    ensures { result ≡ list_all (has_concept (map concept_of other.now)) (map concept_of label.now) }
{
    for class in label {
        if !has(other, class) {
            return false;
        }
    }
    true
}

/// Whether two labels have the same set of classes, in whatever order and however often. It takes no memory.
pub fn same_set(label: &[Class], other: &[Class]) -> bool
    ensures { result ≡ same_classes (map concept_of label.now) (map concept_of other.now) }
{
    is_within(label, other) && is_within(other, label)
}

pub(crate) fn lacks_some_of(label: &[Class], classes: &[Class]) -> bool
    ensures { result ≡ lacks_some (map concept_of label.now) (map concept_of classes.now) }
{
    for class in classes {
        if !has(label, class) {
            return true;
        }
    }
    false
}

pub(crate) fn lacks_all_of(label: &[Class], classes: &[Class]) -> bool
    ensures { result ≡ lacks_all (map concept_of label.now) (map concept_of classes.now) }
{
    for class in classes {
        if has(label, class) {
            return false;
        }
    }
    true
}

// Whether at most one member, by its place, is left whose complement is not in the label.
pub(crate) fn leaves_at_most_one(label: &[Class], members: &[Class]) -> bool
    ensures { result ≡ nat_lt (length (open_members (map concept_of label.now) (map concept_of members.now))) 2 }
{
    let mut open: usize = 0;
    for class in members {
        if !has_complement(label, class) {
            open += 1;
        }
    }
    open < 2
}
