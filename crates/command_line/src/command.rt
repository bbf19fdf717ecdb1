// The command line: which words are a command, and how the program ends.
ghost use Rattle.std.specs.Prelude.{◌≡◌, None, Some, option_map, if◌then◌else◌};
ghost use Rattle.command_line.specs.Command.{asked_by, command_of, given_by, has_budget_alone, replay_with, serve_of, serve_with, make_of, make_counted, make_seeded, make_with, help_of, say_with, export_with, check_with, import_of, why_of, why_about, why_at, why_with, is_address, begins_with_hyphen, status_of, words_of};
ghost use Rattle.command_line.specs.declared.command.Outcome.TheVariants.{Memory as out_of_memory};

use crate::forms::form_of;
use crate::options::{DEFAULT_BUDGET, MOST_EVENTS, MOST_MADE, MOST_PLACE, Options, number_within};
use http_front::number_of;
use std::str::from_utf8;
use wiki_base::{Arg, Memory};

/// What the program is asked to do.
#[derive(Clone, Copy, Debug)]
pub enum Command<'a> {
    /// Answers each line of the input. A search may take `budget` steps.
    Replay {
        budget: u64,
    },
    /// Steps through the lines of the input, and then serves connections to the address until so many events were handled.
    Serve {
        address: &'a str,
        budget: u64,
        events: u64,
    },
    /// Makes a wiki of so many generated sentences by the draws of a seed, and tells what the replies add up to.
    Make {
        count: u32,
        seed: u64,
        budget: u64,
    },
    /// Tells what the commands are.
    Help,
    /// Steps through the lines of the input, and then says all that the wiki knows.
    Say {
        budget: u64,
    },
    /// Steps through the lines of the input, and then writes all that the wiki knows as an ontology.
    Export {
        budget: u64,
    },
    /// Reads the input as an ontology, and tells whether what it says has a finite model.
    Check {
        budget: u64,
    },
    /// Reads the input as an ontology, and writes the requests that make a wiki of it.
    Import,
    /// Steps through the lines of the input, and then tells why a sentence isn't asserted, or why a name answers a question.
    Why {
        article: &'a str,
        at: u32,
        name: Option<&'a str>,
        budget: u64,
    },
}

impl Command<'_> {
    /// The command that the words are, if they are one.
    pub fn from_words(words: &[Arg]) -> Option<Command<'_>>
        ensures { option_map asked_by result ≡ command_of words.now }
    {
        let (name, words) = words.split_first()?;
        if name.as_slice() == b"replay".as_slice() {
            return replay_with(Options::from_words(words)?);
        }
        if name.as_slice() == b"serve".as_slice() {
            return serve_of(words);
        }
        if name.as_slice() == b"make".as_slice() {
            return make_of(words);
        }
        if name.as_slice() == b"help".as_slice() {
            return help_of(words);
        }
        if name.as_slice() == b"say".as_slice() {
            return say_with(Options::from_words(words)?);
        }
        if name.as_slice() == b"export".as_slice() {
            return export_with(Options::from_words(words)?);
        }
        if name.as_slice() == b"check".as_slice() {
            return check_with(Options::from_words(words)?);
        }
        if name.as_slice() == b"import".as_slice() {
            return import_of(words);
        }
        if name.as_slice() == b"why".as_slice() {
            return why_of(words);
        }
        None
    }
}

// Whether no other option than a budget is given.
fn has_budget_alone(options: Options<'_>) -> bool
    ensures { result ≡ has_budget_alone (given_by options.entry) }
{
    options.events.is_none() && options.name.is_none()
}

fn replay_with<'a>(options: Options<'a>) -> Option<Command<'a>>
    ensures { option_map asked_by result ≡ replay_with (given_by options.entry) }
{
    if !has_budget_alone(options) {
        return None;
    }
    Some(Command::Replay {
        budget: options.budget.unwrap_or(DEFAULT_BUDGET),
    })
}

fn serve_of(words: &[Arg]) -> Option<Command<'_>>
    ensures { option_map asked_by result ≡ serve_of words.now }
{
    let (address, words) = words.split_first()?;
    let address = address_of(address.as_slice())?;
    serve_with(address, Options::from_words(words)?)
}

fn serve_with<'a>(address: &'a str, options: Options<'a>) -> Option<Command<'a>>
    ensures { option_map asked_by result ≡ serve_with address.now (given_by options.entry) }
{
    if options.name.is_some() {
        return None;
    }
    Some(Command::Serve {
        address,
        budget: options.budget.unwrap_or(DEFAULT_BUDGET),
        events: options.events.unwrap_or(MOST_EVENTS),
    })
}

fn make_of(words: &[Arg]) -> Option<Command<'_>>
    ensures { option_map asked_by result ≡ make_of words.now }
{
    let (count, words) = words.split_first()?;
    make_counted(count.as_slice(), words)
}

fn make_counted<'a>(count: &[u8], words: &'a [Arg]) -> Option<Command<'a>>
    ensures { option_map asked_by result ≡ make_counted count.now words.now }
{
    let (seed, words) = words.split_first()?;
    let count = number_within(1, MOST_MADE, count)?;
    make_seeded(count as u32, seed.as_slice(), words)
}

fn make_seeded<'a>(count: u32, seed: &[u8], words: &'a [Arg]) -> Option<Command<'a>>
    ensures { option_map asked_by result ≡ make_seeded count seed.now words.now }
{
    let seed = number_of(seed, 19)?;
    make_with(count, seed, Options::from_words(words)?)
}

fn make_with<'a>(count: u32, seed: u64, options: Options<'a>) -> Option<Command<'a>>
    ensures { option_map asked_by result ≡ make_with count seed (given_by options.entry) }
{
    if !has_budget_alone(options) {
        return None;
    }
    Some(Command::Make {
        count,
        seed,
        budget: options.budget.unwrap_or(DEFAULT_BUDGET),
    })
}

fn help_of(words: &[Arg]) -> Option<Command<'_>>
    ensures { option_map asked_by result ≡ help_of words.now }
{
    match words {
        [] => Some(Command::Help),
        [..] => None,
    }
}

fn say_with<'a>(options: Options<'a>) -> Option<Command<'a>>
    ensures { option_map asked_by result ≡ say_with (given_by options.entry) }
{
    if !has_budget_alone(options) {
        return None;
    }
    Some(Command::Say {
        budget: options.budget.unwrap_or(DEFAULT_BUDGET),
    })
}

fn export_with<'a>(options: Options<'a>) -> Option<Command<'a>>
    ensures { option_map asked_by result ≡ export_with (given_by options.entry) }
{
    if !has_budget_alone(options) {
        return None;
    }
    Some(Command::Export {
        budget: options.budget.unwrap_or(DEFAULT_BUDGET),
    })
}

fn check_with<'a>(options: Options<'a>) -> Option<Command<'a>>
    ensures { option_map asked_by result ≡ check_with (given_by options.entry) }
{
    if !has_budget_alone(options) {
        return None;
    }
    Some(Command::Check {
        budget: options.budget.unwrap_or(DEFAULT_BUDGET),
    })
}

fn import_of(words: &[Arg]) -> Option<Command<'_>>
    ensures { option_map asked_by result ≡ import_of words.now }
{
    match words {
        [] => Some(Command::Import),
        [..] => None,
    }
}

fn why_of(words: &[Arg]) -> Option<Command<'_>>
    ensures { option_map asked_by result ≡ why_of words.now }
{
    let (article, words) = words.split_first()?;
    why_about(article.as_slice(), words)
}

fn why_about<'a>(article: &'a [u8], words: &'a [Arg]) -> Option<Command<'a>>
    ensures { option_map asked_by result ≡ why_about article.now words.now }
{
    let (at, words) = words.split_first()?;
    let article = form_of(article)?;
    why_at(article, at.as_slice(), words)
}

fn why_at<'a>(article: &'a str, at: &[u8], words: &'a [Arg]) -> Option<Command<'a>>
    ensures { option_map asked_by result ≡ why_at article.now at.now words.now }
{
    let at = number_within(0, MOST_PLACE, at)?;
    why_with(article, at as u32, Options::from_words(words)?)
}

fn why_with<'a>(article: &'a str, at: u32, options: Options<'a>) -> Option<Command<'a>>
    ensures { option_map asked_by result ≡ why_with article.now at (given_by options.entry) }
{
    if options.events.is_some() {
        return None;
    }
    Some(Command::Why {
        article,
        at,
        name: options.name,
        budget: options.budget.unwrap_or(DEFAULT_BUDGET),
    })
}

// The address that a word is, if it is one.
fn address_of(word: &[u8]) -> Option<&str>
    ensures { option_map (λ address. address.now) result ≡ (if is_address word.now then Some word.now else None) }
{
    if begins_with_hyphen(word) {
        return None;
    }
    match from_utf8(word) {
        Ok(address) => Some(address),
        Err(_) => None,
    }
}

fn begins_with_hyphen(word: &[u8]) -> bool
    ensures { result ≡ begins_with_hyphen word.now }
{
    match word {
        [first, ..] => *first == b'-',
        [] => false,
    }
}

/// How the program ends.
#[derive(Clone, Copy, Debug, PartialEq, Eq)]
pub enum Outcome {
    /// All was done.
    Done,
    /// The words are no command.
    Usage,
    /// A read of the input failed.
    ReadFault,
    /// A write of the output failed.
    WriteFault,
    /// The link failed.
    LinkFault,
    /// The input is larger than 4,294,967,296 bytes, or than 16,777,216 where it is read as an ontology.
    TooMuch,
    /// There was no memory.
    Memory,
}

impl From<Memory> for Outcome {
    ghost from_gives = { λ _ outcome. outcome ≡ out_of_memory };

    fn from(_: Memory) -> Self {
        Outcome::Memory
    }
}

impl Outcome {
    /// The status of the process.
    pub fn status(self) -> u8
        ensures { result ≡ status_of self }
    {
        match self {
            Outcome::Done => 0,
            Outcome::Usage => 2,
            Outcome::ReadFault => 3,
            Outcome::WriteFault => 4,
            Outcome::LinkFault => 5,
            Outcome::TooMuch => 6,
            Outcome::Memory => 9,
        }
    }

    /// The words on standard error, with their newline.
    pub fn words(self) -> &'static str
        ensures { result.now ≡ words_of self }
    {
        match self {
            Outcome::Done => "",
            Outcome::Usage => "usage: acewiki replay|serve|make|help\n",
            Outcome::ReadFault => "read fault\n",
            Outcome::WriteFault => "write fault\n",
            Outcome::LinkFault => "link fault\n",
            Outcome::TooMuch => "input too large\n",
            Outcome::Memory => "out of memory\n",
        }
    }
}
