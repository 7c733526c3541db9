//! The commands of the program and their forms.
ghost use Rattle.std.specs.Prelude.{◌≡◌, ◌≤◌, ◌<◌, ◌^◌, IfSome, option_and_then, option_map, find};
ghost use Rattle.nt_words.specs.declared.form.TheConstants.{MOST_WORKERS};
ghost use Rattle.nt_words.specs.Commands.{command_word, is_built, names_built, command_named};
ghost use Rattle.nt_words.specs.Chosen.{number_within, turns_from, seed_from, none_from};
ghost use Rattle.nt_words.specs.Chosen.{only_turns, no_options, load_from, form_from};
ghost use Rattle.nt_words.specs.Chosen.{audit_from, goal_from, shrink_from, workers_from};
ghost use Rattle.nt_event.specs.declared.limits.TheConstants.{TURNS};

use crate::goal_name::GoalName;
use nt_event::limits::{TURNS, USUAL_TURNS};
use nt_text::number;

/// What is written where the words are no form: the forms that are built.
pub const USAGE: &str = "usage: ntrun run|live|replay|check|load|migrate|verify|shrink|audit \
    [--turns N] [--seed N] [--goal NAME] [--workers N]\n";

/// The greatest seed of a load.
pub const GREATEST_SEED: u32 = 4_294_967_295;

/// Workers of an audit, at most.
pub const MOST_WORKERS: u8 = 16;

/// Workers of an audit, where none are given.
pub const USUAL_WORKERS: u8 = 4;

/// A command of the program.
#[derive(Clone, Copy, PartialEq, Eq, Debug)]
pub enum Command {
    /// `run`: the report of a script's run by the robin rule.
    Run,
    /// `live`: the report of a script's run on threads.
    Live,
    /// `replay`: the report of a script's run by a given schedule.
    Replay,
    /// `check`: whether a report is that of a settled run.
    Check,
    /// `load`: the summary of the run of a script that is made from a seed.
    Load,
    /// `migrate`: the script in the newest version of its text.
    Migrate,
    /// `verify`: which commands of a script are refused in every run.
    Verify,
    /// `shrink`: a short schedule that still delivers a request.
    Shrink,
    /// `audit`: how many inserts were pending at each note of a script's run.
    Audit,
}

/// Every command.
pub const COMMANDS: [Command; 9] = [
    Command::Run,
    Command::Live,
    Command::Replay,
    Command::Check,
    Command::Load,
    Command::Migrate,
    Command::Verify,
    Command::Shrink,
    Command::Audit,
];

/// What the words of a command line ask for. The turn limit is [`USUAL_TURNS`] where none is given.
#[derive(Debug, Drop)]
pub enum Form {
    /// `run`, with the turn limit of each processor.
    Run { turns: u32 },
    /// `live`, with the turn limit of each processor.
    Live { turns: u32 },
    /// `replay`.
    Replay,
    /// `check`.
    Check,
    /// `load`, with the seed and the turn limit of each processor.
    Load { seed: u32, turns: u32 },
    /// `migrate`.
    Migrate,
    /// `verify`.
    Verify,
    /// `shrink`, with the name of the object that the schedule has to deliver.
    Shrink { goal: GoalName },
    /// `audit`, with the turn limit of each processor and the number of workers.
    Audit { turns: u32, workers: u8 },
}

impl Command {
    /// The word that names the command.
    pub fn word(self) -> &'static str
        ensures { result.now ≡ command_word self }
    {
        match self {
            Command::Run => "run",
            Command::Live => "live",
            Command::Replay => "replay",
            Command::Check => "check",
            Command::Load => "load",
            Command::Migrate => "migrate",
            Command::Verify => "verify",
            Command::Shrink => "shrink",
            Command::Audit => "audit",
        }
    }

    /// Whether the program has the command. Words with another command are no form.
    pub fn is_built(self) -> bool
        ensures { result ≡ is_built self }
    {
        match self {
            Command::Run => true,
            Command::Live => true,
            Command::Replay => true,
            Command::Check => true,
            Command::Load => true,
            Command::Migrate => true,
            Command::Verify => true,
            Command::Shrink => true,
            Command::Audit => true,
        }
    }
}

/// The command among these that the word names and that is built.
fn search(commands: &[Command], word: &str) -> Option<Command>
    ensures { result ≡ find (names_built word.now) commands.now }
{
    commands
        .iter()
        .copied()
        .find(|command| command.is_built() && word == command.word())
}

/// The built command that the word names.
#[tactic(auto, unfolding(crate::specs::Commands::command_named))]
pub(crate) fn command_named(word: &str) -> Option<Command>
    ensures { result ≡ command_named word.now }
{
    search(&COMMANDS, word)
}

/// The number of a value, where it is written in decimal without leading zeros and lies within the
/// bounds.
fn number_within(least: u64, most: u32, value: &str) -> Option<u32>
    ensures value { result ≡ number_within least most value.now }
    ensures within { IfSome result (λ n. n ≤ most) }
{
    let given = number(value.as_bytes(), most as u64)?;
    if least <= given {
        Some(given as u32)
    } else {
        None
    }
}

/// The turn limit by the value that is given for it, if any.
fn turns_from(value: Option<&str>) -> Option<u32>
    ensures { result ≡ turns_from (option_map (λ s. s.now) value.entry) }
{
    match value {
        Some(text) => number_within(1, TURNS, text),
        None => Some(USUAL_TURNS),
    }
}

/// The seed by the value that is given for it: one is needed.
fn seed_from(value: Option<&str>) -> Option<u32>
    ensures { result ≡ seed_from (option_map (λ s. s.now) value.entry) }
{
    number_within(0, GREATEST_SEED, value?)
}

/// The number of workers by the value that is given for it, if any.
fn workers_from(value: Option<&str>) -> Option<u8>
    ensures { result ≡ workers_from (option_map (λ s. s.now) value.entry) }
{
    match value {
        Some(text) => Some(number_within(1, u32::from(MOST_WORKERS), text)? as u8),
        None => Some(USUAL_WORKERS),
    }
}

/// The goal by the value that is given for it: one is needed.
fn goal_from(value: Option<&str>) -> Option<GoalName>
    ensures { result ≡ goal_from (option_map (λ s. s.now) value.entry) }
{
    GoalName::new(value?)
}

/// Nothing, where no value is given for an option that the command doesn't have.
fn none_from(value: Option<&str>) -> Option<()>
    ensures { result ≡ none_from (option_map (λ s. s.now) value.entry) }
{
    match value {
        Some(_) => None,
        None => Some(()),
    }
}

/// The turn limit of a command that has no other option.
fn only_turns(
    turns: Option<&str>,
    seed: Option<&str>,
    goal: Option<&str>,
    workers: Option<&str>,
) -> Option<u32>
    ensures { result ≡ only_turns (option_map (λ s. s.now) turns.entry)
        (option_map (λ s. s.now) seed.entry) (option_map (λ s. s.now) goal.entry)
        (option_map (λ s. s.now) workers.entry) }
{
    none_from(seed)?;
    none_from(goal)?;
    none_from(workers)?;
    turns_from(turns)
}

/// Nothing, where no option is given to a command that has none.
fn no_options(
    turns: Option<&str>,
    seed: Option<&str>,
    goal: Option<&str>,
    workers: Option<&str>,
) -> Option<()>
    ensures { result ≡ no_options (option_map (λ s. s.now) turns.entry)
        (option_map (λ s. s.now) seed.entry) (option_map (λ s. s.now) goal.entry)
        (option_map (λ s. s.now) workers.entry) }
{
    none_from(turns)?;
    none_from(seed)?;
    none_from(goal)?;
    none_from(workers)
}

/// A load: its options are the seed and the turn limit.
fn load_from(
    turns: Option<&str>,
    seed: Option<&str>,
    goal: Option<&str>,
    workers: Option<&str>,
) -> Option<Form>
    ensures { result ≡ load_from (option_map (λ s. s.now) turns.entry)
        (option_map (λ s. s.now) seed.entry) (option_map (λ s. s.now) goal.entry)
        (option_map (λ s. s.now) workers.entry) }
{
    none_from(goal)?;
    none_from(workers)?;
    Some(Form::Load {
        seed: seed_from(seed)?,
        turns: turns_from(turns)?,
    })
}

/// A schedule that is shrunk: its one option is the goal.
fn shrink_from(
    turns: Option<&str>,
    seed: Option<&str>,
    goal: Option<&str>,
    workers: Option<&str>,
) -> Option<Form>
    ensures { result ≡ shrink_from (option_map (λ s. s.now) turns.entry)
        (option_map (λ s. s.now) seed.entry) (option_map (λ s. s.now) goal.entry)
        (option_map (λ s. s.now) workers.entry) }
{
    none_from(turns)?;
    none_from(seed)?;
    none_from(workers)?;
    Some(Form::Shrink {
        goal: goal_from(goal)?,
    })
}

/// An audit: its options are the turn limit and the number of workers.
fn audit_from(
    turns: Option<&str>,
    seed: Option<&str>,
    goal: Option<&str>,
    workers: Option<&str>,
) -> Option<Form>
    ensures { result ≡ audit_from (option_map (λ s. s.now) turns.entry)
        (option_map (λ s. s.now) seed.entry) (option_map (λ s. s.now) goal.entry)
        (option_map (λ s. s.now) workers.entry) }
{
    none_from(seed)?;
    none_from(goal)?;
    Some(Form::Audit {
        turns: turns_from(turns)?,
        workers: workers_from(workers)?,
    })
}

/// The form of a command with these values of its options.
pub(crate) fn form_from(
    command: Command,
    turns: Option<&str>,
    seed: Option<&str>,
    goal: Option<&str>,
    workers: Option<&str>,
) -> Option<Form>
    ensures { result ≡ form_from command (option_map (λ s. s.now) turns.entry)
        (option_map (λ s. s.now) seed.entry) (option_map (λ s. s.now) goal.entry)
        (option_map (λ s. s.now) workers.entry) }
{
    match command {
        Command::Run => Some(Form::Run {
            turns: only_turns(turns, seed, goal, workers)?,
        }),
        Command::Live => Some(Form::Live {
            turns: only_turns(turns, seed, goal, workers)?,
        }),
        Command::Replay => {
            no_options(turns, seed, goal, workers)?;
            Some(Form::Replay)
        }
        Command::Check => {
            no_options(turns, seed, goal, workers)?;
            Some(Form::Check)
        }
        Command::Load => load_from(turns, seed, goal, workers),
        Command::Migrate => {
            no_options(turns, seed, goal, workers)?;
            Some(Form::Migrate)
        }
        Command::Verify => {
            no_options(turns, seed, goal, workers)?;
            Some(Form::Verify)
        }
        Command::Shrink => shrink_from(turns, seed, goal, workers),
        Command::Audit => audit_from(turns, seed, goal, workers),
    }
}
