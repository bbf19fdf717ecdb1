// Labels by their names.
ghost use Rattle.std.specs.Prelude.{◌≡◌};
ghost use Rattle.codeco_numbering.specs.Numbered.{numbered_label, label_among};
ghost use Rattle.codeco_numbering.specs.Labels.{all_labels, label_name};

use crate::names::same_bytes;
use codeco_terms::{Label, Symbol};

/// The thirty labels.
const LABELS: [Label; 30] = [
    Label::Statement,
    Label::Ask,
    Label::If,
    Label::Say,
    Label::And,
    Label::Or,
    Label::Pass,
    Label::Not,
    Label::Does,
    Label::Done,
    Label::Class,
    Label::Top,
    Label::Same,
    Label::Only,
    Label::Gap,
    Label::Name,
    Label::Refer,
    Label::Var,
    Label::Noun,
    Label::Part,
    Label::Some,
    Label::Every,
    Label::No,
    Label::Something,
    Label::Everything,
    Label::Nothing,
    Label::What,
    Label::Which,
    Label::Whichobj,
    Label::Mark,
];

fn label_name(label: Label) -> &'static [u8]
    ensures { result.now ≡ label_name label }
{
    match label {
        Label::Statement => b"statement",
        Label::Ask => b"ask",
        Label::If => b"if",
        Label::Say => b"say",
        Label::And => b"and",
        Label::Or => b"or",
        Label::Pass => b"pass",
        Label::Not => b"not",
        Label::Does => b"does",
        Label::Done => b"done",
        Label::Class => b"class",
        Label::Top => b"top",
        Label::Same => b"same",
        Label::Only => b"only",
        Label::Gap => b"gap",
        Label::Name => b"name",
        Label::Refer => b"refer",
        Label::Var => b"var",
        Label::Noun => b"noun",
        Label::Part => b"part",
        Label::Some => b"some",
        Label::Every => b"every",
        Label::No => b"no",
        Label::Something => b"something",
        Label::Everything => b"everything",
        Label::Nothing => b"nothing",
        Label::What => b"what",
        Label::Which => b"which",
        Label::Whichobj => b"whichobj",
        Label::Mark => b"mark",
    }
}

/// The label of this name among these.
fn label_among(labels: &[Label], name: &[u8]) -> Option<Label>
    ensures { result ≡ label_among labels.now name.now }
{
    for label in labels {
        if same_bytes(name, label_name(*label)) {
            return Some(*label);
        }
    }
    None
}

fn label_named(name: &[u8]) -> Option<Label>
    ensures { result ≡ label_among all_labels name.now }
{
    label_among(&LABELS, name)
}

/// The label that is written, if one is.
pub fn label_of(name: &Option<Symbol>) -> Option<Label>
    ensures { result ≡ numbered_label name.now }
{
    match name {
        None => None,
        Some(name) => label_named(name.as_bytes()),
    }
}
