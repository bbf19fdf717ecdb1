//! The parts of a step of the wiki: what sentences mean, what is known, how a statement is judged and how a question is answered.
#![tactic(auto)]

mod answering;
mod faults;
mod grammars;
mod judging;
mod keeping;
mod knowing;
mod meanings;
mod meant;
mod names;
mod parsing;
mod told;
mod typing;
mod uses;
mod words;

pub use answering::{answers_of, spelled};
pub use faults::Fault;
pub use grammars::{grammar_read, reground};
pub use judging::judged;
pub use keeping::first_model;
pub use knowing::{Senses, is_asserted, known_around, push_all, push_articles, push_sentences};
pub use meanings::{Sense, is_faithful, sense_of};
pub use meant::told_meaning;
pub use names::live_names;
pub use parsing::{no_sentence, told_code, told_menu, too_many_tokens};
pub use told::{told_text, told_word, told_words};
pub use typing::{least, menu, typeable_count};
pub use uses::{first_use, has_form};
pub use words::{add_word, forms_given, texts_read};
