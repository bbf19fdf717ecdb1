// Names and letters in place of numbers.
ghost use Rattle.std.specs.Prelude.{◌≡◌};
ghost use Rattle.codeco_printer.specs.Unnumbered.{name_at, feature_name, letter_byte};
ghost use Rattle.codeco_numbering.specs.Labels.{label_name};

use codeco_terms::{Features, Label, Symbols};

/// The name with this number, or nothing where none has it.
pub fn name_at(names: &Symbols, number: u16) -> &[u8]
    ensures { result.now ≡ name_at names.now number }
{
    match names.as_slice().get(number as usize) {
        Some(name) => name.as_bytes(),
        None => &[],
    }
}

/// The name of the feature with this number, or nothing where none has it.
pub fn feature_name(features: &Features, number: u16) -> &[u8]
    ensures { result.now ≡ feature_name features.now number }
{
    match features.as_slice().get(number as usize) {
        Some(feature) => feature.name.as_bytes(),
        None => &[],
    }
}

/// The letter of a variable: `A` for 0, `B` for 1 and so on up to `Z`.
pub fn letter(variable: u8) -> u8
    ensures { result ≡ letter_byte variable }
{
    b'A' + variable.min(25)
}

/// The name of a label.
pub fn label_name(label: Label) -> &'static [u8]
    ensures { result.now ≡ label_name label }
{
    match label {
        Label::Statement => b"statement",
        Label::Ask => b"ask",
        Label::If => b"if",
        Label::Say => b"say",
        Label::And => b"and",
        Label::Or => b"or",
        Label::Pass => b"pass",
        Label::Not => b"not",
        Label::Does => b"does",
        Label::Done => b"done",
        Label::Class => b"class",
        Label::Top => b"top",
        Label::Same => b"same",
        Label::Only => b"only",
        Label::Gap => b"gap",
        Label::Name => b"name",
        Label::Refer => b"refer",
        Label::Var => b"var",
        Label::Noun => b"noun",
        Label::Part => b"part",
        Label::Some => b"some",
        Label::Every => b"every",
        Label::No => b"no",
        Label::Something => b"something",
        Label::Everything => b"everything",
        Label::Nothing => b"nothing",
        Label::What => b"what",
        Label::Which => b"which",
        Label::Whichobj => b"whichobj",
        Label::Mark => b"mark",
    }
}
