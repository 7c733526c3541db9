//! The cases of the table.
ghost use Rattle.std.specs.Prelude.{◌≤◌, IfSome};
ghost use Rattle.nt_event.specs.declared.limits.TheConstants.{TURNS};

use nt_event::limits::TURNS;

/// What is done with a script.
#[derive(Clone, Copy, PartialEq, Eq, Debug)]
pub(crate) enum Task {
    /// Processors 0 and 1 meet at a gate.
    Meet,
    /// Processor 0 waits at a gate for a later event of processor 1.
    Follow,
    /// Processors 0 and 1 meet at a gate, each with a lock that the other wants.
    Cross,
    /// Processor 0 asks processor 1 for something when that one rests.
    Wake,
    /// The processors run on threads.
    Live,
    /// The processors of the load of this seed run on threads.
    Load(u32),
    /// All workers work, one after another.
    Pieces,
    /// The first worker works.
    First,
    /// Processor 0 makes a turn while this lane is held, for so many looks at most.
    Turn(u32, u32),
    /// Processor 0 makes its second event while this lane is held, for so many looks at most.
    Next(u32, u32),
    /// The second lane is held while the first is.
    Hold(u32, u32),
}

/// A case of the table.
#[derive(Drop)]
pub(crate) struct Case {
    /// How many events each processor may make.
    pub(crate) limit: u32,
    pub(crate) task: Task,
    ghost some: { 1 ≤ limit },
    ghost few: { limit ≤ TURNS },
}

fn limit_of(word: &str) -> Option<u32>
    ensures { IfSome result (λ n. (1 ≤ n) × (n ≤ TURNS)) }
{
    let limit = word.parse::<u32>().ok()?;
    if limit < 1 || limit > TURNS {
        return None;
    }
    Some(limit)
}

/// The task of a word with no more numbers.
fn task_of(word: &str) -> Option<Task> {
    match word {
        "meet" => Some(Task::Meet),
        "follow" => Some(Task::Follow),
        "cross" => Some(Task::Cross),
        "wake" => Some(Task::Wake),
        "live" => Some(Task::Live),
        "pieces" => Some(Task::Pieces),
        "first" => Some(Task::First),
        _ => None,
    }
}

/// The task of a word with a number.
fn task_of_one(word: &str, number: &str) -> Option<Task> {
    match word {
        "load" => Some(Task::Load(number.parse::<u32>().ok()?)),
        _ => None,
    }
}

/// The task of a word with two numbers.
fn task_of_two(word: &str, first: &str, second: &str) -> Option<Task> {
    let first = first.parse::<u32>().ok()?;
    let second = second.parse::<u32>().ok()?;
    match word {
        "turn" => Some(Task::Turn(first, second)),
        "next" => Some(Task::Next(first, second)),
        "hold" => Some(Task::Hold(first, second)),
        _ => None,
    }
}

/// The task of a word with these numbers.
fn task_with(word: &str, numbers: &str) -> Option<Task> {
    match numbers.split_once(' ') {
        Some((first, second)) => task_of_two(word, first, second),
        None => task_of_one(word, numbers),
    }
}

/// The task of a word, with what stands behind the turn limit.
fn case_with(task: Option<Task>, limit: &str) -> Option<Case> {
    let limit = limit_of(limit)?;
    Some(Case { limit, task: task? })
}

/// The case of a line of the table, before its script.
pub(crate) fn case_of(head: &str) -> Option<Case> {
    let (word, rest) = head.split_once(' ')?;
    match rest.split_once(' ') {
        Some((limit, numbers)) => case_with(task_with(word, numbers), limit),
        None => case_with(task_of(word), rest),
    }
}
