//! What a search says of expectations, its text, and how the program ends.
ghost use Rattle.std.specs.Prelude.{◌+◌, ◌++◌, ◌≡◌, All, IfOk, OnOk, drop, length, true};
ghost use Rattle.std.specs.List.{list_any};
ghost use Rattle.nt_expect.specs.Expectations.{expectation_fits, expectations_fit, watched_fits};
ghost use Rattle.nt_script.specs.Sound.{IsSound};
ghost use Rattle.nt_ask.specs.declared.answer.Verdict.TheVariants.{HoldsWithout};
ghost use Rattle.nt_ask.specs.Answers.{VerdictFits, answer_text, cut_text, is_failure};
ghost use Rattle.nt_ask.specs.Answers.{is_unknown, states_line, status_number, verdict_line};
ghost use Rattle.nt_ask.specs.Answers.{verdict_lines, verdict_status, verdict_text};

use nt_expect::{Expectation, Watched, put_expectation, put_watched};
use nt_script::Input;
use nt_text::put_digits;
use std::alloc::{AllocError, Global};

/// What a search says of an expectation.
#[derive(Clone, Copy, PartialEq, Eq, Debug)]
pub enum Verdict {
    /// It fails in no run.
    Holds,
    /// Every run ends, with at most so many events.
    HoldsWithin(u32),
    /// It fails in no run, and this event comes in none.
    HoldsWithout(Watched),
    /// It fails in a run, and the event of this number shows it, or all events before it.
    FailsAt(u32),
    /// Nothing is known.
    Unknown,
}

/// Why not all states were found.
#[derive(Clone, Copy, PartialEq, Eq, Debug)]
pub enum Cut {
    /// There are more than a search may find.
    States,
    /// On the way to one are as many events as a processor may make.
    Turns,
    /// No memory was found.
    Memory,
}

/// What a search says of all expectations.
#[derive(Drop)]
pub struct Answer {
    /// How many states were found.
    pub states: u32,
    /// How many events were found that lead from a state to a state.
    pub edges: u64,
    /// Why not all states were found; None where they were.
    pub cut: Option<Cut>,
    /// What is said of each expectation, in their order.
    pub verdicts: Vec<Verdict>,
}

/// How the program ends.
#[derive(Clone, Copy, PartialEq, Eq, Debug)]
pub enum Status {
    /// Each expectation holds; of a witness: it is written.
    Ok,
    /// The words are no form of the command line.
    Usage,
    /// The input is refused.
    Refused,
    /// The source failed.
    Read,
    /// The sink failed.
    Write,
    /// There was not enough memory.
    Memory,
    /// The input has too many bytes.
    TooLong,
    /// An expectation fails in a run.
    Fails,
    /// There are fewer expectations than the number of the one whose witness is asked for.
    NoExpectation,
    /// The expectation whose witness is asked for holds.
    NoWitness,
    /// None is known to fail, and nothing is known of one; of a witness: nothing is known of its
    /// expectation.
    Unknown,
    /// The expectation fails, but a processor needs more turns there than a schedule may have.
    TooManyTurns,
}

impl Status {
    /// The number that the process ends with: as those of `ntrun`, but for 9 to 11.
    pub fn number(self) -> u8
        ensures { result ≡ status_number self }
    {
        match self {
            Status::Ok => 0,
            Status::Usage => 1,
            Status::Refused => 2,
            Status::Read => 4,
            Status::Write => 5,
            Status::Memory => 6,
            Status::TooLong => 7,
            Status::Fails | Status::NoExpectation | Status::NoWitness => 9,
            Status::Unknown => 10,
            Status::TooManyTurns => 11,
        }
    }
}

impl Verdict {
    /// Whether the expectation fails in a run.
    fn is_failure(self) -> bool
        ensures { result ≡ is_failure self }
    {
        match self {
            Verdict::Holds
            | Verdict::HoldsWithin(_)
            | Verdict::HoldsWithout(_)
            | Verdict::Unknown => false,
            Verdict::FailsAt(_) => true,
        }
    }

    /// Whether nothing is known of the expectation.
    fn is_unknown(self) -> bool
        ensures { result ≡ is_unknown self }
    {
        match self {
            Verdict::Holds
            | Verdict::HoldsWithin(_)
            | Verdict::HoldsWithout(_)
            | Verdict::FailsAt(_) => false,
            Verdict::Unknown => true,
        }
    }
}

/// Whether one of these expectations fails in a run.
fn has_failure(verdicts: &[Verdict]) -> bool
    ensures { result ≡ list_any is_failure verdicts.now }
{
    verdicts.iter().any(|verdict| verdict.is_failure())
}

/// Whether nothing is known of one of these expectations.
fn has_unknown(verdicts: &[Verdict]) -> bool
    ensures { result ≡ list_any is_unknown verdicts.now }
{
    verdicts.iter().any(|verdict| verdict.is_unknown())
}

/// How the program ends by what is said of the expectations: `Fails` where one fails in a run, else
/// `Unknown` where nothing is known of one, else `Ok`.
pub fn verdict_status(answer: &Answer) -> Status
    ensures { result ≡ verdict_status answer.now.verdicts.items }
{
    let verdicts = answer.verdicts.as_slice();
    if has_failure(verdicts) {
        Status::Fails
    } else if has_unknown(verdicts) {
        Status::Unknown
    } else {
        Status::Ok
    }
}

/// Adds that an expectation holds, and that this event never comes.
fn put_without(out: &mut Vec<u8>, input: &Input, event: &Watched) -> Result<(), AllocError>
    requires sound { IsSound input.now }
    requires fits { watched_fits input.now.script event.now ≡ true }
    ensures { OnOk result
        (out.new.items ≡ out.old.items ++ verdict_text input.now.names (HoldsWithout event.now)) }
{
    out.extend_from_slice(b"holds,")?;
    put_watched(out, input, event)?;
    out.extend_from_slice(b" never comes")
}

/// Adds what is said of an expectation.
fn put_verdict(out: &mut Vec<u8>, input: &Input, verdict: Verdict) -> Result<(), AllocError>
    requires sound { IsSound input.now }
    requires fits { VerdictFits input.now.script verdict }
    ensures { OnOk result
        (out.new.items ≡ out.old.items ++ verdict_text input.now.names verdict) }
{
    match verdict {
        Verdict::Holds => out.extend_from_slice(b"holds"),
        Verdict::HoldsWithin(events) => {
            out.extend_from_slice(b"holds within ")?;
            put_digits(out, u64::from(events))
        }
        Verdict::HoldsWithout(event) => put_without(out, input, &event),
        Verdict::FailsAt(event) => {
            out.extend_from_slice(b"fails at ")?;
            put_digits(out, u64::from(event))
        }
        Verdict::Unknown => out.extend_from_slice(b"unknown"),
    }
}

/// Adds the line of an expectation with its number and what is said of it.
fn put_line(
    out: &mut Vec<u8>,
    input: &Input,
    number: u64,
    expectation: &Expectation,
    verdict: Verdict,
) -> Result<(), AllocError>
    requires sound { IsSound input.now }
    requires fits { expectation_fits input.now.script expectation.now ≡ true }
    requires verdict_fits { VerdictFits input.now.script verdict }
    ensures { OnOk result (out.new.items ≡ out.old.items
        ++ verdict_line input.now.names number expectation.now verdict) }
{
    put_digits(out, number)?;
    out.push(b' ')?;
    put_expectation(out, input, expectation)?;
    out.extend_from_slice(b": ")?;
    put_verdict(out, input, verdict)?;
    out.push(b'\n')?;
    Ok(())
}

/// Adds the line of each expectation.
fn put_lines(
    out: &mut Vec<u8>,
    input: &Input,
    expectations: &[Expectation],
    verdicts: &[Verdict],
) -> Result<(), AllocError>
    requires sound { IsSound input.now }
    requires fit { expectations_fit input.now.script expectations.now ≡ true }
    requires all { length verdicts.now ≡ length expectations.now }
    requires verdicts_fit { All (VerdictFits input.now.script) verdicts.now }
    ensures { OnOk result (out.new.items ≡ out.old.items
        ++ verdict_lines input.now.names 1 expectations.now verdicts.now) }
{
    for place in 0..expectations.len() {
        let number = place as u64 + 1;
        put_line(out, input, number, &expectations[place], verdicts[place])?;
    }
    Ok(())
}

/// How the first line ends.
fn cut_text(cut: Option<Cut>) -> &'static str
    ensures { result.now ≡ cut_text cut }
{
    match cut {
        None => "\n",
        Some(Cut::States) => " cut by states\n",
        Some(Cut::Turns) => " cut by turns\n",
        Some(Cut::Memory) => " cut by memory\n",
    }
}

/// Adds the first line.
fn put_states(out: &mut Vec<u8>, answer: &Answer) -> Result<(), AllocError>
    ensures { OnOk result (out.new.items ≡ out.old.items ++ states_line answer.now) }
{
    out.extend_from_slice(b"states ")?;
    put_digits(out, u64::from(answer.states))?;
    out.extend_from_slice(b" edges ")?;
    put_digits(out, answer.edges)?;
    out.extend_from_slice(cut_text(answer.cut).as_bytes())?;
    Ok(())
}

/// The text of what a search says of expectations that name things of the input's script, as do the
/// events that never come. An error is want of memory.
pub fn print_answer(
    alloc: Global,
    input: &Input,
    expectations: &[Expectation],
    answer: &Answer,
) -> Result<Vec<u8>, AllocError>
    requires sound { IsSound input.now }
    requires fit { expectations_fit input.now.script expectations.now ≡ true }
    requires all { length answer.now.verdicts.items ≡ length expectations.now }
    requires verdicts_fit { All (VerdictFits input.now.script) answer.now.verdicts.items }
    ensures { IfOk result (λ text. text.items
        ≡ answer_text input.now.names expectations.now answer.now) }
{
    let mut out = Vec::new(alloc);
    put_states(&mut out, answer)?;
    put_lines(&mut out, input, expectations, answer.verdicts.as_slice())?;
    Ok(out)
}
