// The options of a command, each as two words.
ghost use Rattle.std.specs.Prelude.{◌≡◌, ◌≤◌, IfSome, option_map};
ghost use Rattle.command_line.specs.Command.{given_by, number_within, with_budget, with_events, with_name, with_option, options_after, no_options};

use crate::forms::form_of;
use http_front::number_of;
use wiki_base::Arg;
use wiki_talk::MOST_SENTENCES;

/// The most steps that a search may be given.
pub const MOST_BUDGET: u64 = 1_000_000_000;

/// The most events that are handled, and how many are where the command says nothing else.
pub const MOST_EVENTS: u64 = 1_000_000_000;

/// The most sentences that are made: as many as a wiki may have.
pub const MOST_MADE: u64 = MOST_SENTENCES as u64;

/// The greatest place in an article that a command can name.
pub const MOST_PLACE: u64 = 4_294_967_295;

/// How many steps a search may take where the command says nothing else.
pub const DEFAULT_BUDGET: u64 = 1_000_000;

/// The options, each where it is given.
#[derive(Clone, Copy, Debug)]
pub struct Options<'a> {
    /// `--budget`: how many steps a search may take.
    pub budget: Option<u64>,
    /// `--events`: how many events are handled.
    pub events: Option<u64>,
    /// `--name`: the form of a name.
    pub name: Option<&'a str>,
}

impl<'a> Options<'a> {
    /// The options that the words are, if they are options, each at most once.
    pub fn from_words(words: &'a [Arg]) -> Option<Options<'a>>
        ensures { option_map given_by result ≡ options_after no_options words.now }
    {
        let mut given = Options {
            budget: None,
            events: None,
            name: None,
        };
        let mut rest = words;
        'words: while let Some((name, behind)) = rest.split_first() {
            let (value, others) = behind.split_first()?;
            given = given.with_option(name.as_slice(), value.as_slice())?;
            rest = others;
        }
        Some(given)
    }

    #[tactic(auto, unfolding(crate::specs::Command::with_option))]
    fn with_option(self, name: &[u8], value: &'a [u8]) -> Option<Options<'a>>
        ensures { option_map given_by result ≡ with_option (given_by self.entry) name.now value.now }
    {
        if name == b"--budget".as_slice() {
            return self.with_budget(value);
        }
        if name == b"--events".as_slice() {
            return self.with_events(value);
        }
        if name == b"--name".as_slice() {
            return self.with_name(value);
        }
        None
    }

    fn with_budget(self, value: &[u8]) -> Option<Options<'a>>
        ensures { option_map given_by result ≡ with_budget (given_by self.entry) value.now }
    {
        if self.budget.is_some() {
            return None;
        }
        let budget = number_within(0, MOST_BUDGET, value)?;
        Some(Options {
            budget: Some(budget),
            events: self.events,
            name: self.name,
        })
    }

    fn with_events(self, value: &[u8]) -> Option<Options<'a>>
        ensures { option_map given_by result ≡ with_events (given_by self.entry) value.now }
    {
        if self.events.is_some() {
            return None;
        }
        let events = number_within(1, MOST_EVENTS, value)?;
        Some(Options {
            budget: self.budget,
            events: Some(events),
            name: self.name,
        })
    }

    fn with_name(self, value: &'a [u8]) -> Option<Options<'a>>
        ensures { option_map given_by result ≡ with_name (given_by self.entry) value.now }
    {
        if self.name.is_some() {
            return None;
        }
        let name = form_of(value)?;
        Some(Options {
            budget: self.budget,
            events: self.events,
            name: Some(name),
        })
    }
}

/// The number that a word of 1 to 19 digits writes, if it stands between these two.
pub fn number_within(least: u64, most: u64, word: &[u8]) -> Option<u64>
    ensures number { result ≡ number_within least most word.now }
    ensures within { IfSome result (λ number. number ≤ most) }
{
    match number_of(word, 19) {
        Some(number) if least <= number && number <= most => Some(number),
        _ => None,
    }
}
