//! The grammar notation: its symbols, and what a text of it spells.
#![tactic(auto)]

mod builder;
mod bytes;
mod mode;
mod moves;
mod scanner;
mod spot;
mod symbols;
mod syntax_fault;
mod words;
mod written;

pub use bytes::is_word_byte;
pub use scanner::read_items;
pub use symbols::{Lexeme, Sign};
pub use syntax_fault::SyntaxFault;
pub use words::{is_identifier, is_kind, is_label, is_terminal, is_variable};
pub use written::{
    Domain, WrittenCategories, WrittenCategory, WrittenElement, WrittenElements, WrittenFeat,
    WrittenFeats, WrittenItem, WrittenItems, WrittenRule, WrittenTerm,
};
