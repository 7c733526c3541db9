//! The options behind the word of a form.
ghost use Rattle.std.specs.Prelude.{◌≡◌, ◌≤◌, IfSome, None, Some, map, option_map, string_bytes};
ghost use Rattle.nt_lab_words.specs.Options.{IsOptions, all_read, by_itself, joined, joined_by};
ghost use Rattle.nt_lab_words.specs.Options.{name_of, number_within, options_of, order_of};
ghost use Rattle.nt_lab_words.specs.Options.{once, read_words, start, step, with_flag, with_value};

use nt_event::limits::{EVENTS, TURNS};
use nt_text::{is_word, number};

/// In which order the processors' turns are taken.
#[derive(Clone, Copy, PartialEq, Eq, Debug)]
pub enum OrderName {
    /// By the robin rule, as `ntrun run` does.
    Robin,
    /// Each turn is drawn among those that may be taken.
    Random,
}

/// An option that has a value.
#[derive(Clone, Copy, PartialEq, Eq, Debug)]
pub enum OptionName {
    /// `--from`: the first event that is drawn.
    From,
    /// `--to`: the last event that is drawn.
    To,
    /// `--order`: `robin` or `random`.
    Order,
    /// `--seed`: decides which turns are drawn.
    Seed,
    /// `--turns`: how many events each processor may make.
    Turns,
}

/// The options that were given, each at most once.
#[derive(Clone, Copy, PartialEq, Eq, Debug)]
pub struct Options {
    pub from: Option<u32>,
    pub to: Option<u32>,
    pub order: Option<OrderName>,
    pub seed: Option<u32>,
    pub turns: Option<u32>,
    /// `--text`: lanes of text in place of an SVG.
    pub as_text: bool,
    /// `--schedule`: the schedule in place of the report.
    pub as_schedule: bool,
    /// `--go-on`: a schedule is the front part of the run.
    pub goes_on: bool,
}

/// The option of this word.
fn name_of(word: &[u8]) -> Option<OptionName>
    ensures { result ≡ name_of word.now }
{
    if is_word(word, b"--from") {
        Some(OptionName::From)
    } else if is_word(word, b"--to") {
        Some(OptionName::To)
    } else if is_word(word, b"--order") {
        Some(OptionName::Order)
    } else if is_word(word, b"--seed") {
        Some(OptionName::Seed)
    } else if is_word(word, b"--turns") {
        Some(OptionName::Turns)
    } else {
        None
    }
}

/// The option and its value, where the word is this front and a value behind it.
fn joined_by<'w>(name: OptionName, front: &[u8], word: &'w [u8]) -> Option<(OptionName, &'w [u8])>
    ensures { option_map (λ x. (x.0, x.1.now)) result ≡ joined_by name front.now word.now }
{
    match word.strip_prefix(front) {
        Some(value) => Some((name, value)),
        None => None,
    }
}

/// The option and its value, where one word has both.
fn joined(word: &[u8]) -> Option<(OptionName, &[u8])>
    ensures { option_map (λ x. (x.0, x.1.now)) result ≡ joined word.now }
{
    joined_by(OptionName::From, b"--from=", word)
        .or(joined_by(OptionName::To, b"--to=", word))
        .or(joined_by(OptionName::Order, b"--order=", word))
        .or(joined_by(OptionName::Seed, b"--seed=", word))
        .or(joined_by(OptionName::Turns, b"--turns=", word))
}

/// The order of this word.
fn order_of(word: &[u8]) -> Option<OrderName>
    ensures { result ≡ order_of word.now }
{
    if is_word(word, b"robin") {
        Some(OrderName::Robin)
    } else if is_word(word, b"random") {
        Some(OrderName::Random)
    } else {
        None
    }
}

/// The number that a value is: in decimal without leading zeros, and within the bounds.
fn number_within(least: u32, most: u32, value: &[u8]) -> Option<u32>
    ensures value { result ≡ number_within least most value.now }
    ensures within { IfSome result (λ n. (least ≤ n) × (n ≤ most)) }
{
    let given = number(value, u64::from(most))?;
    if u64::from(least) <= given {
        Some(given as u32)
    } else {
        None
    }
}

/// The value of an option that came once: this one, where none came before.
fn once<T: Copy>(before: Option<T>, value: Option<T>) -> Option<Option<T>>
    ensures value { result ≡ once before value }
    ensures same { IfSome result (λ x. x ≡ value) }
{
    match before {
        Some(_) => None,
        None => match value {
            Some(value) => Some(Some(value)),
            None => None,
        },
    }
}

impl Options {
    /// No option.
    pub(crate) const NONE: Options = Options {
        from: None,
        to: None,
        order: None,
        seed: None,
        turns: None,
        as_text: false,
        as_schedule: false,
        goes_on: false,
    };

    /// The same with the value of one more option; None where it came before, or has no such value.
    fn with_value(self, name: OptionName, value: &[u8]) -> Option<Options>
        ensures value { result ≡ with_value self name value.now }
        ensures within { IsOptions self → IfSome result IsOptions }
    {
        match name {
            OptionName::From => Some(Options {
                from: once(self.from, number_within(0, EVENTS, value))?,
                ..self
            }),
            OptionName::To => Some(Options {
                to: once(self.to, number_within(0, EVENTS, value))?,
                ..self
            }),
            OptionName::Order => Some(Options {
                order: once(self.order, order_of(value))?,
                ..self
            }),
            OptionName::Seed => Some(Options {
                seed: once(self.seed, number_within(0, u32::MAX, value))?,
                ..self
            }),
            OptionName::Turns => Some(Options {
                turns: once(self.turns, number_within(1, TURNS, value))?,
                ..self
            }),
        }
    }

    /// The same with one more option that has no value; None where it came before, or is none.
    fn with_flag(self, word: &[u8]) -> Option<Options>
        ensures value { result ≡ with_flag self word.now }
        ensures within { IsOptions self → IfSome result IsOptions }
    {
        if is_word(word, b"--text") && !self.as_text {
            Some(Options {
                as_text: true,
                ..self
            })
        } else if is_word(word, b"--schedule") && !self.as_schedule {
            Some(Options {
                as_schedule: true,
                ..self
            })
        } else if is_word(word, b"--go-on") && !self.goes_on {
            Some(Options {
                goes_on: true,
                ..self
            })
        } else {
            None
        }
    }

    /// The same with the option that a word is by itself: one with its value, or one that has none.
    fn by_itself(self, word: &[u8]) -> Option<Options>
        ensures value { all_read result ≡ by_itself self word.now (joined word.now) }
        ensures within { IsOptions self → IfSome result IsOptions }
    {
        match joined(word) {
            Some((name, value)) => self.with_value(name, value),
            None => self.with_flag(word),
        }
    }
}

/// What was read of the words so far.
#[derive(Clone, Copy)]
pub(crate) struct Reading {
    options: Options,
    /// The option whose value is the next word.
    waiting: Option<OptionName>,
}

impl Reading {
    /// The same with one more word.
    fn step(self, word: &[u8]) -> Option<Reading>
        ensures value { result ≡ step self word.now }
        ensures within { IsOptions self.options → IfSome result (λ r. IsOptions r.options) }
    {
        if let Some(name) = self.waiting {
            return Some(Reading {
                options: self.options.with_value(name, word)?,
                waiting: None,
            });
        }
        match name_of(word) {
            Some(name) => Some(Reading {
                options: self.options,
                waiting: Some(name),
            }),
            None => Some(Reading {
                options: self.options.by_itself(word)?,
                waiting: None,
            }),
        }
    }
}

/// What is read of all words.
fn read_words(words: &[String]) -> Option<Reading>
    ensures value { result ≡ read_words start (map string_bytes words.now) }
    ensures within { IfSome result (λ r. IsOptions r.options) }
{
    let mut reading = Reading {
        options: Options::NONE,
        waiting: None,
    };
    for word in words {
        reading = reading.step(word.as_bytes())?;
    }
    Some(reading)
}

/// The options that the words are, in any order and each at most once: `--NAME VALUE`, or a flag.
/// None where they are none.
pub(crate) fn options_of(words: &[String]) -> Option<Options>
    ensures value { result ≡ options_of (map string_bytes words.now) }
    ensures within { IfSome result IsOptions }
{
    let reading = read_words(words)?;
    match reading.waiting {
        Some(_) => None,
        None => Some(reading.options),
    }
}
