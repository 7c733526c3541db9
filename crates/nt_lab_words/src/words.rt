//! The words of the command line.
ghost use Rattle.std.specs.Prelude.{◌≡◌, [], IfSome, Some, get_or, map, option_map, string_bytes};
ghost use Rattle.nt_lab_words.specs.Options.{IsOptions};
ghost use Rattle.nt_event.specs.declared.limits.TheConstants.{EVENTS};
ghost use Rattle.nt_text.specs.Fields.{number_up_to};
ghost use Rattle.nt_lab_words.specs.Words.{IsTask, IsWork, after_in, behind_name, call_of, draw_of};
ghost use Rattle.nt_lab_words.specs.Words.{file_of, has_two_words, is_file, is_level, kind_of};
ghost use Rattle.nt_lab_words.specs.Words.{is_chosen, kind_word};
ghost use Rattle.nt_lab_words.specs.Words.{order_by, plain_task, run_of, task_by, task_of, why_of};
ghost use Rattle.nt_lab_words.specs.Words.{with_file};

use crate::options::{Options, OrderName, options_of};
use nt_ask::{Form, form_of};
use nt_event::limits::EVENTS;
use nt_text::{is_word, number};

/// What is written where the words are no form.
pub const USAGE: &str = "\
usage: ntlab FORM [FILE]

  ask [--states N]        whether each expectation holds under any schedule
  witness I [--states N]  a schedule that shows that expectation I fails
  tidy                    the strict script that a friendly one means
  run [--order robin|random] [--seed N] [--turns N] [--schedule]
                          what happens in a run, for people; or its schedule
  run --go-on [--schedule]
                          the same, where a schedule is the front part of a run
  why THING [N]           why a thing has not run after N events
  left                    what is left at the end of a run, and why
  draw [--from A] [--to B] [--text]
                          a picture of a run: SVG, or text for a terminal
  --help, --version

THING: dpc NAME, apc NAME, thread NAME, timer NAME or int CPU LEVEL
Numbers: I is 1 to 64, LEVEL 0 to 15, N of --states 1000 to 50000000, of --seed 0
to 4294967295, of --turns 1 to 20000; A, B and N of why are 0 to 160000.
An option is spelled --NAME N or --NAME=N.
Without FILE the text is read from standard input.
";

/// What `--version` writes.
pub const VERSION: &str = "ntlab 0.4.0\n";

/// In which order the turns of a run are taken.
#[derive(Clone, Copy, PartialEq, Eq, Debug)]
pub enum Order {
    /// By the robin rule.
    Robin,
    /// Each is drawn among those that may be taken; the seed decides which.
    Random(u32),
}

/// How a run is made.
#[derive(Clone, Copy, PartialEq, Eq, Debug)]
pub struct How {
    /// The order of the turns, where neither a report nor a schedule has one.
    pub order: Order,
    /// How many events each processor may make there; None where it is not given.
    pub turns: Option<u32>,
    /// A schedule is the front part of a run, which goes on by the robin rule.
    pub goes_on: bool,
}

/// By the robin rule, with the usual turn limit; a schedule is a whole run.
pub const USUAL: How = How {
    order: Order::Robin,
    turns: None,
    goes_on: false,
};

/// What a thing is.
#[derive(Clone, Copy, PartialEq, Eq, Debug)]
pub enum ThingKind {
    /// A DPC object.
    Dpc,
    /// An APC object.
    Apc,
    /// A thread.
    Thread,
    /// A timer.
    Timer,
    /// An interrupt, which is named by a processor and a level.
    Interrupt,
}

impl ThingKind {
    /// Its word.
    pub fn word(self) -> &'static str
        ensures { result.now ≡ kind_word self }
    {
        match self {
            ThingKind::Dpc => "dpc",
            ThingKind::Apc => "apc",
            ThingKind::Thread => "thread",
            ThingKind::Timer => "timer",
            ThingKind::Interrupt => "int",
        }
    }
}

/// What is done with a text.
#[derive(Clone, Copy, PartialEq, Eq, Debug)]
pub enum Work {
    /// `ask` or `witness`.
    Ask(Form),
    /// `tidy`: the strict script.
    Tidy,
    /// `run`: the report of a run for people, or its schedule.
    Run {
        how: How,
        as_schedule: bool,
    },
    /// `why`: what a thing of this kind waits for after so many events. The words from the third on
    /// name it.
    Why {
        kind: ThingKind,
        after: Option<u32>,
    },
    /// `left`: what is left at the end of a run.
    Left,
    /// `draw`: a picture of a run, from one event to another.
    Draw {
        from: Option<u32>,
        to: Option<u32>,
        as_text: bool,
    },
}

/// What the words of a command line ask for.
#[derive(Clone, Copy, PartialEq, Eq, Debug)]
pub enum Task {
    /// Something is done with a text.
    Do(Work),
    /// `--help`.
    Help,
    /// `--version`.
    Version,
}

/// What the words ask for, and whether the last one is the name of a file.
#[derive(Clone, Copy, PartialEq, Eq, Debug)]
pub struct Call {
    pub task: Task,
    pub has_file: bool,
}

/// The order by its name and a seed, where they fit.
fn order_by(name: Option<OrderName>, seed: Option<u32>) -> Option<Order>
    ensures { result ≡ order_by name seed }
{
    match name {
        Some(OrderName::Random) => match seed {
            Some(seed) => Some(Order::Random(seed)),
            None => Some(Order::Random(1)),
        },
        Some(OrderName::Robin) | None => match seed {
            Some(_) => None,
            None => Some(Order::Robin),
        },
    }
}

/// Whether it is given how the turns are chosen.
fn is_chosen(options: Options) -> bool
    ensures { result ≡ is_chosen options }
{
    options.order.is_some() || options.seed.is_some() || options.turns.is_some()
}

/// `run` with these options, where it takes them. Behind a schedule a run goes on by the robin
/// rule, with the schedule's turn limit.
fn run_of(options: Options) -> Option<Work>
    ensures value { result ≡ run_of options }
    ensures within { IsOptions options → IfSome result IsWork }
{
    if options.from.is_some() || options.to.is_some() || options.as_text {
        return None;
    }
    if options.goes_on && is_chosen(options) {
        return None;
    }
    let how = How {
        order: order_by(options.order, options.seed)?,
        turns: options.turns,
        goes_on: options.goes_on,
    };
    Some(Work::Run {
        how,
        as_schedule: options.as_schedule,
    })
}

/// `draw` with these options, where it takes them.
fn draw_of(options: Options) -> Option<Work>
    ensures value { result ≡ draw_of options }
    ensures within { IfSome result IsWork }
{
    if is_chosen(options) {
        return None;
    }
    if options.as_schedule || options.goes_on {
        return None;
    }
    Some(Work::Draw {
        from: options.from,
        to: options.to,
        as_text: options.as_text,
    })
}

/// The kind of a thing by its word.
fn kind_of(word: &[u8]) -> Option<ThingKind>
    ensures { result ≡ kind_of word.now }
{
    if is_word(word, ThingKind::Dpc.word().as_bytes()) {
        Some(ThingKind::Dpc)
    } else if is_word(word, ThingKind::Apc.word().as_bytes()) {
        Some(ThingKind::Apc)
    } else if is_word(word, ThingKind::Thread.word().as_bytes()) {
        Some(ThingKind::Thread)
    } else if is_word(word, ThingKind::Timer.word().as_bytes()) {
        Some(ThingKind::Timer)
    } else if is_word(word, ThingKind::Interrupt.word().as_bytes()) {
        Some(ThingKind::Interrupt)
    } else {
        None
    }
}

/// Whether two words name the thing, and not one.
fn has_two_words(kind: ThingKind) -> bool
    ensures { result ≡ has_two_words kind }
{
    match kind {
        ThingKind::Interrupt => true,
        ThingKind::Dpc | ThingKind::Apc | ThingKind::Thread | ThingKind::Timer => false,
    }
}

/// The number of events that a word says.
fn after_of(word: &[u8]) -> Option<u32>
    ensures { result ≡ number_up_to EVENTS word.now }
{
    let after = number(word, u64::from(EVENTS))?;
    Some(after as u32)
}

/// The number of events that the word behind the name of a thing says, where there is one.
fn after_in(words: &[String]) -> Option<Option<u32>>
    ensures { result ≡ after_in (map string_bytes words.now) }
{
    match words {
        [] => Some(None),
        [last] => Some(Some(after_of(last.as_bytes())?)),
        _ => None,
    }
}

/// Whether a word is a level, 0 to 15.
fn is_level(word: &[u8]) -> bool
    ensures { result ≡ is_level word.now }
{
    number(word, 15).is_some()
}

/// The words behind the name of a thing of this kind.
fn behind_name(kind: ThingKind, words: &[String]) -> Option<&[String]>
    ensures { option_map (λ rest. map string_bytes rest.now) result
        ≡ behind_name (has_two_words kind) (map string_bytes words.now) }
{
    if has_two_words(kind) {
        match words {
            [_, level, rest @ ..] if is_level(level.as_bytes()) => Some(rest),
            _ => None,
        }
    } else {
        match words {
            [_, rest @ ..] => Some(rest),
            [] => None,
        }
    }
}

/// `why` with these words behind it: a thing, and perhaps a number of events.
fn why_of(words: &[String]) -> Option<Work>
    ensures value { result ≡ why_of (map string_bytes words.now) }
    ensures within { IfSome result IsWork }
{
    match words {
        [first, rest @ ..] => {
            let kind = kind_of(first.as_bytes())?;
            let after = after_in(behind_name(kind, rest)?)?;
            Some(Work::Why { kind, after })
        }
        [] => None,
    }
}

/// The task of a word that stands alone.
fn plain_task(word: &[u8]) -> Option<Task>
    ensures value { result ≡ plain_task word.now }
    ensures within { IfSome result IsTask }
{
    if is_word(word, b"tidy") {
        Some(Task::Do(Work::Tidy))
    } else if is_word(word, b"left") {
        Some(Task::Do(Work::Left))
    } else if is_word(word, b"--help") || is_word(word, b"help") {
        Some(Task::Help)
    } else if is_word(word, b"--version") {
        Some(Task::Version)
    } else {
        None
    }
}

/// The task of a word and the words behind it.
fn task_by(first: &[u8], rest: &[String]) -> Option<Task>
    ensures value { result ≡ task_by first.now (map string_bytes rest.now) }
    ensures within { IfSome result IsTask }
{
    if is_word(first, b"run") {
        Some(Task::Do(run_of(options_of(rest)?)?))
    } else if is_word(first, b"draw") {
        Some(Task::Do(draw_of(options_of(rest)?)?))
    } else if is_word(first, b"why") {
        Some(Task::Do(why_of(rest)?))
    } else if rest.is_empty() {
        plain_task(first)
    } else {
        None
    }
}

/// The task that words are.
fn task_of(words: &[String]) -> Option<Task>
    ensures value { result ≡ task_of (map string_bytes words.now) }
    ensures within { IfSome result IsTask }
{
    match form_of(words) {
        Some(form) => Some(Task::Do(Work::Ask(form))),
        None => match words {
            [first, rest @ ..] => task_by(first.as_bytes(), rest),
            [] => None,
        },
    }
}

/// Whether a word may be the name of a file.
fn is_file(word: &[u8]) -> bool
    ensures { result ≡ is_file word.now }
{
    match word {
        [] => false,
        [first, ..] => *first != b'-',
    }
}

/// The task of all words but the last one, which is the name of a file.
fn with_file(words: &[String]) -> Option<Call>
    ensures value { result ≡ with_file (map string_bytes words.now) }
    ensures within { IfSome result (λ c. IsTask c.task) }
{
    match words {
        [front @ .., last] if is_file(last.as_bytes()) => Some(Call {
            task: task_of(front)?,
            has_file: true,
        }),
        _ => None,
    }
}

/// What the words behind the program's name ask for: a task, or a task and behind it the name of a
/// file. None where they are none. Takes no memory.
pub fn call_of(words: &[String]) -> Option<Call>
    ensures value { result ≡ call_of (map string_bytes words.now) }
    ensures within { IfSome result (λ c. IsTask c.task) }
{
    match task_of(words) {
        Some(task) => Some(Call {
            task,
            has_file: false,
        }),
        None => with_file(words),
    }
}

/// The name of the file that the words name, where this is what they ask for.
pub fn named_file(words: &[String], call: Call) -> Option<&str>
    ensures { option_map (λ name. name.now) result
        ≡ file_of (map string_bytes words.now) (Some call) }
{
    match words {
        [.., last] if call.has_file => Some(last.as_str()),
        _ => None,
    }
}

/// The third word, with which the name of the thing of `why` begins; no bytes where there is none.
pub fn third_word(words: &[String]) -> &str
    ensures { result.now ≡ get_or (map string_bytes words.now) 2 [] }
{
    match words {
        [_, _, third, ..] => third.as_str(),
        _ => "",
    }
}

/// The fourth word, which is the level of an interrupt; no bytes where there is none.
pub fn fourth_word(words: &[String]) -> &str
    ensures { result.now ≡ get_or (map string_bytes words.now) 3 [] }
{
    match words {
        [_, _, _, fourth, ..] => fourth.as_str(),
        _ => "",
    }
}

/// The name of the file that the words name, if they name one.
pub fn file_of(words: &[String]) -> Option<&str>
    ensures { option_map (λ name. name.now) result
        ≡ file_of (map string_bytes words.now) (call_of (map string_bytes words.now)) }
{
    match call_of(words) {
        Some(call) => named_file(words, call),
        None => None,
    }
}
