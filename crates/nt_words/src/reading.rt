//! Words read as a form.
ghost use Rattle.std.specs.Prelude.{◌≡◌, [], IfOk, false, map, string_bytes, option_map};
ghost use Rattle.clap.specs.Walk.{rows_of, rule_of};
ghost use Rattle.clap.specs.Matches.{found_of};
ghost use Rattle.clap.specs.Simple.{app_of, matches_of};
ghost use Rattle.clap.specs.Faults.{fault_of};
ghost use Rattle.nt_words.specs.Forms.{IsForm, IsWithin, is_live_word, names_live};
ghost use Rattle.nt_words.specs.Chosen.{chosen};
ghost use Rattle.nt_words.specs.Parser.{named_rule, ntrun_app};
ghost use Rattle.nt_words.specs.Refusals.{IsNoForm, OnNoForm};

use crate::form::{Command, Form, command_named, form_from};
use crate::option_name::OptionName;
use crate::tidy::is_tidy;
use clap::error::ErrorKind;
use clap::{Arg, ArgMatches};
use std::alloc::{AllocError, Global};

/// Why words give no form.
#[derive(Clone, Copy, PartialEq, Eq, Debug)]
pub enum WordsRefusal {
    /// They are no form.
    NoForm,
    /// There is not enough memory to read them.
    NoMemory,
}

impl From<AllocError> for WordsRefusal {
    ghost use Rattle.std.specs.Prelude.{◌≡◌};
    ghost use Rattle.nt_words.specs.declared.reading.WordsRefusal.TheVariants.{NoMemory};

    ghost from_gives = { λ _ e. e ≡ NoMemory };

    fn from(_: AllocError) -> WordsRefusal {
        WordsRefusal::NoMemory
    }
}

/// The id of the command word among the matches.
const COMMAND_ID: &str = "command";

/// Whether a word is `live` or `audit`: only these commands use threads.
fn is_live_word(word: &str) -> bool
    ensures { result ≡ is_live_word word.now }
{
    word == Command::Live.word() || word == Command::Audit.word()
}

/// Whether one of the words is `live` or `audit`. Takes no memory.
pub fn is_live(words: &[String]) -> bool
    ensures { result ≡ names_live (map string_bytes words.now) }
{
    words.iter().any(|word| is_live_word(word.as_str()))
}

/// The option of this name as the parser takes it.
fn option<'a>(alloc: Global, name: &'a str) -> Arg<'a>
    ensures rule { rule_of result ≡ named_rule name.entry.now }
    ensures own { result.global ≡ false }
{
    Arg::new(alloc, name).long(name)
}

/// The parser of the words: one word and the options, with nothing of its own that answers.
fn parser<'a>(alloc: Global) -> Result<clap::Command<'a>, AllocError>
    ensures { IfOk result (λ c. app_of c ≡ ntrun_app) }
{
    let command = Arg::new(alloc, COMMAND_ID).required(true);
    clap::Command::new(alloc, "ntrun")
        .no_binary_name(true)
        .disable_help_flag(true)
        .arg(command)?
        .arg(option(alloc, "turns"))?
        .arg(option(alloc, "seed"))?
        .arg(option(alloc, "goal"))?
        .arg(option(alloc, "workers"))
}

/// A refusal of the parser.
fn refusal(kind: ErrorKind) -> WordsRefusal
    ensures { kind ≡ ErrorKind.OutOfMemory → result ≡ WordsRefusal.NoMemory }
{
    match kind {
        ErrorKind::OutOfMemory => WordsRefusal::NoMemory,
        _ => WordsRefusal::NoForm,
    }
}

/// The words as the parser takes them.
fn parse<'a>(alloc: Global, words: &'a [String]) -> Result<ArgMatches<'a>, WordsRefusal>
    ensures taken { IfOk result (λ _. fault_of ntrun_app (map string_bytes words.now) ≡ []) }
    ensures rows { IfOk result
        (λ m. rows_of (found_of m) ≡ matches_of ntrun_app (map string_bytes words.now)) }
    ensures refused { OnNoForm result (fault_of ntrun_app (map string_bytes words.now) ≡ [] → ⊥) }
{
    match parser(alloc)?.try_get_matches_from(words) {
        Ok(matches) => Ok(matches),
        Err(error) => Err(refusal(error.kind())),
    }
}

/// The form that the parser's matches are.
fn form_in(matches: &ArgMatches<'_>) -> Option<Form>
    ensures { result ≡ chosen (rows_of (found_of matches.now)) }
{
    let command = command_named(matches.get_str(COMMAND_ID)?)?;
    form_from(
        command,
        matches.get_str(OptionName::Turns.text()),
        matches.get_str(OptionName::Seed.text()),
        matches.get_str(OptionName::Goal.text()),
        matches.get_str(OptionName::Workers.text()),
    )
}

/// The form that the words behind the program's name are.
///
/// `NoForm` exactly where they are none; `NoMemory` where memory ran out.
pub fn form_of(alloc: Global, words: &[String]) -> Result<Form, WordsRefusal>
    ensures some { IfOk result (λ form. IsForm (map string_bytes words.now) form) }
    ensures none { OnNoForm result (IsNoForm (map string_bytes words.now)) }
    ensures within { IfOk result IsWithin }
{
    if !is_tidy(words) {
        return Err(WordsRefusal::NoForm);
    }
    let matches = parse(alloc, words)?;
    form_in(&matches).ok_or(WordsRefusal::NoForm)
}
