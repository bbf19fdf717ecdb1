// Where a reading stands behind each symbol.
ghost use Rattle.std.specs.Prelude.{◌≡◌, [], is_some};
ghost use Rattle.codeco_text.specs.Reading.{
  wants,
  after_category,
  after_identifier,
  after_variable,
  after_keyword,
  after_label,
  after_kind,
  after_terminal,
  question_after,
  part_sign,
  body_sign,
  after_sign,
  item_sign,
  plus_after,
  advance,
  settled,
  closed,
  ready_spot,
  next_spot,
  is_sign,
  begins_pattern,
  part_wants,
  name_wanted,
  follower_wanted,
  after_part_identifier,
  after_part_variable,
  after_part_kind,
};

use crate::spot::{Part, Role, Spot, Wanted};
use crate::symbols::{Lexeme, Sign};
use crate::words::same_bytes;

fn name_wanted(role: Role) -> Wanted
    ensures { result ≡ name_wanted role }
{
    match role {
        Role::Preterminal => Wanted::Kind,
        _ => Wanted::Identifier,
    }
}

fn follower_wanted(role: Role) -> Wanted
    ensures { result ≡ follower_wanted role }
{
    match role {
        Role::Head => Wanted::Nothing,
        _ => Wanted::Identifier,
    }
}

fn part_wants(part: Part, role: Role) -> Wanted
    ensures { result ≡ part_wants part role }
{
    match part {
        Part::Name => name_wanted(role),
        Part::Named => follower_wanted(role),
        Part::Feature => Wanted::Identifier,
        Part::Colon => Wanted::Nothing,
        Part::Term => Wanted::Term,
        Part::Taken => Wanted::Variable,
        Part::Next => Wanted::Nothing,
        Part::Whole => follower_wanted(role),
    }
}

/// The words that may come next.
pub fn wants(spot: Spot) -> Wanted
    ensures { result ≡ wants spot }
{
    match spot {
        Spot::Items => Wanted::Item,
        Spot::LabelName => Wanted::Label,
        Spot::LabelEnd => Wanted::Nothing,
        Spot::RuleHead => Wanted::Identifier,
        Spot::FeatureName => Wanted::Identifier,
        Spot::FeatureColon => Wanted::Nothing,
        Spot::FeatureValue => Wanted::Value,
        Spot::AtomNext => Wanted::Nothing,
        Spot::AtomName => Wanted::Identifier,
        Spot::FeatureEnd => Wanted::Nothing,
        Spot::Category(part, role) => part_wants(part, role),
        Spot::Arrow => Wanted::Nothing,
        Spot::Body => Wanted::Identifier,
        Spot::PositionName => Wanted::Variable,
        Spot::BackPattern => Wanted::Nothing,
        Spot::Positives => Wanted::Identifier,
        Spot::Negatives => Wanted::Identifier,
        Spot::AbsentPattern => Wanted::Nothing,
        Spot::Absents => Wanted::Identifier,
    }
}

/// Where a reading stands behind a category that is whole.
pub fn after_category(role: Role) -> Spot
    ensures { result ≡ after_category role }
{
    match role {
        Role::Head => Spot::Arrow,
        Role::Preterminal => Spot::Body,
        Role::Sub => Spot::Body,
        Role::Forward => Spot::Body,
        Role::Strong => Spot::Body,
        Role::Positive => Spot::Positives,
        Role::Negative => Spot::Negatives,
        Role::Absent => Spot::Absents,
    }
}

fn after_part_identifier(part: Part, role: Role) -> Option<Spot>
    ensures { result ≡ after_part_identifier part role }
{
    match part {
        Part::Name => match role {
            Role::Preterminal => None,
            _ => Some(Spot::Category(Part::Named, role)),
        },
        Part::Feature => Some(Spot::Category(Part::Colon, role)),
        Part::Term => Some(Spot::Category(Part::Next, role)),
        _ => None,
    }
}

fn after_identifier(spot: Spot) -> Option<Spot>
    ensures { result ≡ after_identifier spot }
{
    match spot {
        Spot::Items => Some(Spot::Category(Part::Named, Role::Head)),
        Spot::RuleHead => Some(Spot::Category(Part::Named, Role::Head)),
        Spot::FeatureName => Some(Spot::FeatureColon),
        Spot::FeatureValue => Some(Spot::AtomNext),
        Spot::AtomName => Some(Spot::AtomNext),
        Spot::Category(part, role) => after_part_identifier(part, role),
        Spot::Body => Some(Spot::Category(Part::Named, Role::Sub)),
        _ => None,
    }
}

fn after_part_variable(part: Part, role: Role) -> Option<Spot>
    ensures { result ≡ after_part_variable part role }
{
    match part {
        Part::Term => Some(Spot::Category(Part::Next, role)),
        Part::Taken => Some(Spot::Category(Part::Next, role)),
        _ => None,
    }
}

fn after_variable(spot: Spot) -> Option<Spot>
    ensures { result ≡ after_variable spot }
{
    match spot {
        Spot::Category(part, role) => after_part_variable(part, role),
        Spot::PositionName => Some(Spot::Body),
        _ => None,
    }
}

fn after_keyword(spot: Spot, word: &[u8]) -> Option<Spot>
    ensures { result ≡ after_keyword spot word.now }
{
    match spot {
        Spot::Items => {
            if same_bytes(word, b"feature") {
                Some(Spot::FeatureName)
            } else {
                None
            }
        }
        Spot::FeatureValue => {
            if same_bytes(word, b"word") || same_bytes(word, b"position") {
                Some(Spot::FeatureEnd)
            } else {
                None
            }
        }
        _ => None,
    }
}

fn after_label(spot: Spot) -> Option<Spot>
    ensures { result ≡ after_label spot }
{
    match spot {
        Spot::LabelName => Some(Spot::LabelEnd),
        _ => None,
    }
}

fn after_part_kind(part: Part, role: Role) -> Option<Spot>
    ensures { result ≡ after_part_kind part role }
{
    match part {
        Part::Name => match role {
            Role::Preterminal => Some(Spot::Category(Part::Named, Role::Preterminal)),
            _ => None,
        },
        _ => None,
    }
}

fn after_kind(spot: Spot) -> Option<Spot>
    ensures { result ≡ after_kind spot }
{
    match spot {
        Spot::Category(part, role) => after_part_kind(part, role),
        _ => None,
    }
}

fn after_terminal(spot: Spot) -> Option<Spot>
    ensures { result ≡ after_terminal spot }
{
    match spot {
        Spot::Body => Some(Spot::Body),
        _ => None,
    }
}

fn question_after(role: Role) -> Option<Spot>
    ensures { result ≡ question_after role }
{
    match role {
        Role::Positive => Some(Spot::Category(Part::Taken, Role::Positive)),
        _ => None,
    }
}

fn part_sign(part: Part, role: Role, sign: Sign) -> Option<Spot>
    ensures { result ≡ part_sign part role sign }
{
    match part {
        Part::Named => match sign {
            Sign::OpenParen => Some(Spot::Category(Part::Feature, role)),
            _ => None,
        },
        Part::Colon => match sign {
            Sign::Colon => Some(Spot::Category(Part::Term, role)),
            _ => None,
        },
        Part::Term => match sign {
            Sign::Question => question_after(role),
            _ => None,
        },
        Part::Next => match sign {
            Sign::Comma => Some(Spot::Category(Part::Feature, role)),
            Sign::CloseParen => Some(Spot::Category(Part::Whole, role)),
            _ => None,
        },
        _ => None,
    }
}

fn body_sign(sign: Sign) -> Option<Spot>
    ensures { result ≡ body_sign sign }
{
    match sign {
        Sign::Stop => Some(Spot::Items),
        Sign::Dollar => Some(Spot::Category(Part::Name, Role::Preterminal)),
        Sign::Hash => Some(Spot::PositionName),
        Sign::Scope => Some(Spot::Body),
        Sign::Weak => Some(Spot::Category(Part::Name, Role::Forward)),
        Sign::Strong => Some(Spot::Category(Part::Name, Role::Strong)),
        Sign::Back => Some(Spot::BackPattern),
        Sign::NoBack => Some(Spot::AbsentPattern),
        _ => None,
    }
}

fn plus_after(sign: Sign, role: Role) -> Option<Spot>
    ensures { result ≡ plus_after sign role }
{
    match sign {
        Sign::Plus => Some(Spot::Category(Part::Name, role)),
        _ => None,
    }
}

fn item_sign(spot: Spot, sign: Sign) -> Option<Spot>
    ensures { result ≡ item_sign spot sign }
{
    match spot {
        Spot::Items => match sign {
            Sign::OpenBrace => Some(Spot::LabelName),
            _ => None,
        },
        Spot::LabelEnd => match sign {
            Sign::CloseBrace => Some(Spot::RuleHead),
            _ => None,
        },
        Spot::FeatureColon => match sign {
            Sign::Colon => Some(Spot::FeatureValue),
            _ => None,
        },
        Spot::AtomNext => match sign {
            Sign::Comma => Some(Spot::AtomName),
            Sign::Stop => Some(Spot::Items),
            _ => None,
        },
        Spot::FeatureEnd => match sign {
            Sign::Stop => Some(Spot::Items),
            _ => None,
        },
        _ => None,
    }
}

fn after_sign(spot: Spot, sign: Sign) -> Option<Spot>
    ensures { result ≡ after_sign spot sign }
{
    match spot {
        Spot::Category(part, role) => part_sign(part, role, sign),
        Spot::Arrow => match sign {
            Sign::Normal => Some(Spot::Body),
            Sign::Closing => Some(Spot::Body),
            _ => None,
        },
        Spot::Body => body_sign(sign),
        Spot::BackPattern => plus_after(sign, Role::Positive),
        Spot::Positives => match sign {
            Sign::Plus => Some(Spot::Category(Part::Name, Role::Positive)),
            Sign::Minus => Some(Spot::Category(Part::Name, Role::Negative)),
            _ => None,
        },
        Spot::Negatives => match sign {
            Sign::Minus => Some(Spot::Category(Part::Name, Role::Negative)),
            _ => None,
        },
        Spot::AbsentPattern => plus_after(sign, Role::Absent),
        Spot::Absents => plus_after(sign, Role::Absent),
        _ => item_sign(spot, sign),
    }
}

/// Where a reading that takes the symbol stands behind it.
pub fn advance(spot: Spot, lexeme: &Lexeme) -> Option<Spot>
    ensures { result ≡ advance spot lexeme.now }
{
    match lexeme {
        Lexeme::Identifier(_) => after_identifier(spot),
        Lexeme::Variable(_) => after_variable(spot),
        Lexeme::Keyword(word) => after_keyword(spot, word.as_bytes()),
        Lexeme::Label(_) => after_label(spot),
        Lexeme::Kind(_) => after_kind(spot),
        Lexeme::Terminal(_) => after_terminal(spot),
        Lexeme::Sign(sign) => after_sign(spot, *sign),
    }
}

/// Whether the symbol opens the features of a category.
pub fn opens_features(lexeme: &Lexeme) -> bool
    ensures { result ≡ is_sign Sign.OpenParen lexeme.now }
{
    match lexeme {
        Lexeme::Sign(sign) => matches!(*sign, Sign::OpenParen),
        _ => false,
    }
}

/// Whether the symbol begins a pattern of a reference.
pub fn begins_pattern(lexeme: &Lexeme) -> bool
    ensures { result ≡ begins_pattern lexeme.now }
{
    match lexeme {
        Lexeme::Sign(sign) => matches!(*sign, Sign::Plus | Sign::Minus),
        _ => false,
    }
}

fn settled(spot: Spot, opens: bool) -> Spot
    ensures { result ≡ settled spot opens }
{
    match spot {
        Spot::Category(part, role) => match part {
            Part::Named => { if opens { spot } else { after_category(role) } }
            Part::Whole => after_category(role),
            _ => spot,
        },
        _ => spot,
    }
}

fn closed(spot: Spot, pattern: bool) -> Spot
    ensures { result ≡ closed spot pattern }
{
    match spot {
        Spot::Positives => { if pattern { spot } else { Spot::Body } }
        Spot::Negatives => { if pattern { spot } else { Spot::Body } }
        Spot::Absents => { if pattern { spot } else { Spot::Body } }
        _ => spot,
    }
}

fn opens_by(sign: Sign) -> bool
    ensures { result ≡ is_sign Sign.OpenParen (Lexeme.Sign sign) }
{
    matches!(sign, Sign::OpenParen)
}

fn begins_by(sign: Sign) -> bool
    ensures { result ≡ begins_pattern (Lexeme.Sign sign) }
{
    matches!(sign, Sign::Plus | Sign::Minus)
}

/// Whether a reading that stands here may take the sign.
pub fn takes_sign(spot: Spot, sign: Sign) -> bool
    ensures { result ≡ is_some (next_spot spot (Lexeme.Sign sign)) }
{
    let ready = closed(settled(spot, opens_by(sign)), begins_by(sign));
    after_sign(ready, sign).is_some()
}

/// Whether a reading that stands here may take a terminal.
pub fn takes_terminal(spot: Spot) -> bool
    ensures { result ≡ is_some (next_spot spot (Lexeme.Terminal [])) }
{
    after_terminal(closed(settled(spot, false), false)).is_some()
}
