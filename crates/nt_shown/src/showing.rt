//! The run that a text shows.
ghost use Rattle.std.specs.Prelude.{◌+◌, ◌≡◌, ◌≤◌, IfErr, IfOk, IfSome, length};
ghost use Rattle.nt_lab_words.specs.Words.{IsHow};
ghost use Rattle.nt_log.specs.Schedules.{turn_bound};
ghost use Rattle.nt_script.specs.Sound.{IsSound};
ghost use Rattle.nt_text.specs.declared.lines.TheConstants.{INPUT_LIMIT};
ghost use Rattle.nt_shown.specs.Shown.{GivesInput, IsChecked, IsLimit, IsMade, IsReplayed};
ghost use Rattle.nt_shown.specs.Shown.{IsReported, IsRunBy, IsScheduled, IsShown, IsShownIn};
ghost use Rattle.nt_shown.specs.Shown.{IsUnchecked, IsUnreplayed, IsUnreported, IsUnscheduled};
ghost use Rattle.nt_shown.specs.Shown.{IsUnshown, IsUnshownIn, IsWhole, limit_of};

use crate::parts::{Behind, Part, behind_of, script_part};
use crate::refusal::ShownRefusal;
use nt_check::{Verdict, check};
use nt_core::{ScheduleRefusal, replay, run};
use nt_event::limits::USUAL_TURNS;
use nt_history::History;
use nt_lab_words::{How, Order};
use nt_log::{Schedule, read_schedule, turn_bound};
use nt_orders::{GoneOn, Went, go_on, random};
use nt_report::read_report;
use nt_script::{Input, read};
use std::alloc::{AllocError, Global};

/// The run that a text shows.
#[derive(Drop)]
pub struct ShownRun {
    /// The script, and the names of its things.
    pub input: Input,
    /// The run, and how many turns of a schedule it begins with.
    pub gone: GoneOn,
}

/// The turn limit of a run of so many processors: 10,000 where none is given, and never more than a
/// script of so many may have.
fn limit_of(how: How, cpus: u8) -> u32
    requires { IsHow how }
    ensures value { result ≡ limit_of how cpus }
    ensures within { (1 ≤ result) × (result ≤ turn_bound cpus) }
{
    let most = turn_bound(cpus);
    let turns = how.turns.unwrap_or(USUAL_TURNS);
    if turns <= most { turns } else { most }
}

/// The script that the bytes are.
fn input_of(alloc: Global, bytes: &[u8]) -> Result<Input, ShownRefusal>
    requires { length bytes.now ≤ INPUT_LIMIT }
    ensures read { GivesInput bytes.now result }
    ensures sound { IfOk result IsSound }
{
    match read(alloc, bytes) {
        Ok(input) => Ok(input),
        Err(refusal) => Err(ShownRefusal::of_script(refusal)),
    }
}

/// The run of a script alone.
fn made(alloc: Global, input: &Input, how: How) -> Result<GoneOn, AllocError>
    requires sound { IsSound input.now }
    requires how { IsHow how }
    ensures made { IfOk result (IsMade input.now how) }
    ensures whole { IfOk result (IsWhole input.now) }
{
    let script = &input.script;
    let limit = limit_of(how, script.cpus);
    let history = match how.order {
        Order::Robin => run(alloc, script, limit)?,
        Order::Random(seed) => random(alloc, script, limit, u64::from(seed))?,
    };
    Ok(GoneOn {
        history,
        went: Went::All,
    })
}

/// The run of a report, which is checked.
fn checked(alloc: Global, input: &Input, history: History) -> Result<GoneOn, ShownRefusal>
    requires sound { IsSound input.now }
    requires limit { (1 ≤ history.turns) × (history.turns ≤ turn_bound input.now.script.cpus) }
    ensures ok { IfOk result (IsChecked input.now history) }
    ensures whole { IfOk result (IsWhole input.now) }
    ensures err { IfErr result (IsUnchecked input.now history) }
{
    match check(alloc, &input.script, &history) {
        Ok(Verdict::Legal) => Ok(GoneOn {
            history,
            went: Went::All,
        }),
        Ok(Verdict::IllegalAt(number)) => Err(ShownRefusal::Event(number)),
        Err(_) => Err(ShownRefusal::NoMemory),
    }
}

/// The run of the report that the bytes are, of which the first line has this number.
fn reported(alloc: Global, input: &Input, bytes: &[u8], line: u32) -> Result<GoneOn, ShownRefusal>
    requires sound { IsSound input.now }
    requires bytes { length bytes.now ≤ INPUT_LIMIT }
    requires line { (1 ≤ line) × (line ≤ INPUT_LIMIT + 1) }
    ensures ok { IfOk result (IsReported input.now bytes.now) }
    ensures whole { IfOk result (IsWhole input.now) }
    ensures err { IfErr result (IsUnreported input.now bytes.now line) }
{
    match read_report(alloc, input, bytes, line) {
        Ok(history) => checked(alloc, input, history),
        Err(refusal) => Err(ShownRefusal::of_report(refusal)),
    }
}

/// The replay of a schedule.
fn replayed(alloc: Global, input: &Input, schedule: &Schedule) -> Result<GoneOn, ShownRefusal>
    requires sound { IsSound input.now }
    requires limit { IsLimit input.now schedule.now.turns }
    ensures ok { IfOk result (IsReplayed input.now schedule.now) }
    ensures whole { IfOk result (IsWhole input.now) }
    ensures err { IfErr result (IsUnreplayed input.now schedule.now) }
{
    match replay(alloc, &input.script, schedule.turns, &schedule.list) {
        Ok(history) => Ok(GoneOn {
            history,
            went: Went::All,
        }),
        Err(ScheduleRefusal::Bad { at, kind }) => Err(ShownRefusal::Turn { at, kind }),
        Err(ScheduleRefusal::NoMemory) => Err(ShownRefusal::NoMemory),
    }
}

/// The run of a schedule: its replay, or one that goes on behind its turns.
fn run_by(
    alloc: Global,
    input: &Input,
    schedule: &Schedule,
    goes_on: bool,
) -> Result<GoneOn, ShownRefusal>
    requires sound { IsSound input.now }
    requires limit { IsLimit input.now schedule.now.turns }
    ensures ok { IfOk result (IsRunBy input.now schedule.now goes_on) }
    ensures whole { IfOk result (IsWhole input.now) }
    ensures err { IfErr result (IsUnreplayed input.now schedule.now) }
{
    if goes_on {
        let gone = go_on(alloc, &input.script, schedule.turns, &schedule.list)?;
        Ok(gone)
    } else {
        replayed(alloc, input, schedule)
    }
}

/// The run of the schedule that the bytes are, of which the first line has this number.
fn scheduled(
    alloc: Global,
    input: &Input,
    bytes: &[u8],
    line: u32,
    goes_on: bool,
) -> Result<GoneOn, ShownRefusal>
    requires sound { IsSound input.now }
    requires bytes { length bytes.now ≤ INPUT_LIMIT }
    requires line { (1 ≤ line) × (line ≤ INPUT_LIMIT + 1) }
    ensures ok { IfOk result (IsScheduled input.now bytes.now goes_on) }
    ensures whole { IfOk result (IsWhole input.now) }
    ensures err { IfErr result (IsUnscheduled input.now bytes.now line) }
{
    match read_schedule(alloc, input, bytes, line) {
        Ok(schedule) => run_by(alloc, input, &schedule, goes_on),
        Err(refusal) => Err(ShownRefusal::of_schedule(refusal)),
    }
}

/// The run of a script that was read, by what stands behind it.
fn run_in(
    alloc: Global,
    input: &Input,
    strict: &[u8],
    behind: Option<Behind>,
    how: How,
) -> Result<GoneOn, ShownRefusal>
    requires sound { IsSound input.now }
    requires bytes { length strict.now ≤ INPUT_LIMIT }
    requires at { IfSome behind (λ b. b.split.at ≤ length strict.now) }
    requires line { IfSome behind
        (λ b. (1 ≤ b.split.line) × (b.split.line ≤ INPUT_LIMIT + 1)) }
    requires how { IsHow how }
    ensures ok { IfOk result (IsShownIn input.now strict.now how behind) }
    ensures whole { IfOk result (IsWhole input.now) }
    ensures err { IfErr result (IsUnshownIn input.now strict.now behind) }
{
    match behind {
        None => Ok(made(alloc, input, how)?),
        Some(Behind { part, split }) => match part {
            Part::Expectations => Ok(made(alloc, input, how)?),
            Part::Report => reported(alloc, input, &strict[split.at..], split.line),
            Part::Schedule => {
                scheduled(alloc, input, &strict[split.at..], split.line, how.goes_on)
            }
        },
    }
}

/// The run that a strict text shows: of a report or a schedule behind its script, else one by the
/// robin rule or a random one.
///
/// The first bad line is refused, of the script and then of what stands behind it, with its kind;
/// `Turn` where a turn of the schedule is refused or they end too early, `Event` where an event of
/// the report isn't the machine's or they end too early. Want of memory may come at any place.
pub fn shown_run(alloc: Global, strict: &[u8], how: How) -> Result<ShownRun, ShownRefusal>
    requires bytes { length strict.now ≤ INPUT_LIMIT }
    requires how { IsHow how }
    ensures ok { IfOk result (IsShown strict.now how) }

    // Whichever it is, it is a settled run of the script.
    ensures whole { IfOk result (λ r. IsSound r.input × IsWhole r.input r.gone) }
    ensures err { IfErr result (IsUnshown strict.now) }
{
    let behind = behind_of(strict);
    let input = input_of(alloc, script_part(strict))?;
    match run_in(alloc, &input, strict, behind, how) {
        Ok(gone) => Ok(ShownRun { input, gone }),
        Err(refusal) => {
            drop(input);
            Err(refusal)
        }
    }
}
