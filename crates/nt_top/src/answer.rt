//! What a call finds out, with the text that is written for it.
ghost use Rattle.std.specs.Prelude.{ℕ, ◌≡◌, ◌≤◌, false, true, length, IfErr, IfOk, IsTrue};
ghost use Rattle.std.specs.Prelude.{string_bytes};
ghost use Rattle.nt_core.specs.Refusals.{IsReplayRefused};
ghost use Rattle.nt_event.specs.declared.events.History.{History as RunHistory};
ghost use Rattle.nt_event.specs.Fitting.{events_fit};
ghost use Rattle.nt_event.specs.Script.{fits};
ghost use Rattle.nt_line.specs.NameLists.{NameLists};
ghost use Rattle.nt_print.specs.Summary.{summary_text};
ghost use Rattle.nt_script.specs.Sound.{IsSound};
ghost use Rattle.nt_words.specs.Forms.{IsTurns, IsWithin};
ghost use Rattle.nt_top.specs.Answer.{AsksIn, IsAnswerTo, IsIllegalLine, IsMade, IsReported};
ghost use Rattle.nt_top.specs.Answer.{IsTurnRefused, text_of};
ghost use Rattle.nt_top.specs.Outcome.{illegal_line, kind_text, legal_line, script_line};
ghost use Rattle.nt_top.specs.Outcome.{memory_line, turn_line, IsDone, IsLoaded, IsRefused};
ghost use Rattle.nt_top.specs.Outcome.{IsSummary};
ghost use Rattle.nt_top.specs.Runs.{IsReplayed, IsRobinRun};
ghost use Rattle.nt_top.specs.Tasks.{IsLimit, IsSoundTask, is_threaded, reads};

use crate::shrinking::shrunk;
use crate::status::Status;
use crate::task::{Task, task_of};
use crate::verifying::verify_text;
use nt_check::{Verdict, check};
use nt_core::{ScheduleRefusal, replay, run};
use nt_event::{ScheduleKind, Script};
use nt_history::History;
use nt_load::draw_script;
use nt_log::Schedule;
use nt_print::{report, summary};
use nt_script::{Input, ScriptKind, ScriptRefusal, print};
use nt_text::INPUT_LIMIT;
use nt_words::Form;
use std::alloc::{AllocError, Global};

/// A text to be written.
#[derive(Drop)]
pub(crate) enum Text {
    Line(&'static str),
    Made(Vec<u8>),
}

/// A status and the text that is written for it.
#[derive(Drop)]
pub(crate) struct Answer {
    pub(crate) status: Status,
    pub(crate) text: Text,
}

impl Text {
    ghost use Rattle.std.specs.Prelude.{◌≡◌};
    ghost use Rattle.nt_top.specs.Answer.{text_of};

    pub(crate) fn as_bytes(&self) -> &[u8]
        ensures { result.now ≡ text_of self.now }
    {
        match self {
            Text::Line(line) => line.as_bytes(),
            Text::Made(text) => text.as_slice(),
        }
    }
}

/// A status with a line that never changes.
pub(crate) fn line(status: Status, text: &'static str) -> Answer
    ensures status { result.status ≡ status }
    ensures text { text_of result.text ≡ text.now }
{
    Answer {
        status,
        text: Text::Line(text),
    }
}

/// There is not enough memory.
pub(crate) fn no_memory() -> Answer
    ensures status { result.status ≡ Status.Memory }
    ensures text { text_of result.text ≡ memory_line }
{
    Answer {
        status: Status::Memory,
        text: Text::Line("no memory\n"),
    }
}

/// A kind as it is written: its name, for too many things with the thing behind it.
fn kind_text(alloc: Global, kind: ScriptKind) -> Result<String, AllocError>
    ensures { IfOk result (λ s. string_bytes s ≡ kind_text kind) }
{
    match kind {
        ScriptKind::TooMany(thing) => format!(in alloc; "{} {}", kind.name(), thing.name()),
        _ => String::from_str(alloc, kind.name()),
    }
}

/// The line of a script's refusal.
fn script_line(alloc: Global, line: u32, kind: ScriptKind) -> Result<String, AllocError>
    ensures { IfOk result (λ s. string_bytes s ≡ script_line line kind) }
{
    let text = kind_text(alloc, kind)?;
    format!(in alloc; "script line {line}: {} {text}\n", kind.number())
}

/// What is answered where a line is refused.
fn refused(alloc: Global, line: u32, kind: ScriptKind) -> Answer
    ensures { IsRefused line kind result.status (text_of result.text) }
{
    match script_line(alloc, line, kind) {
        Ok(line) => Answer {
            status: Status::Script,
            text: Text::Made(line.into_bytes()),
        },
        Err(_) => no_memory(),
    }
}

/// The line of a turn that is refused.
fn turn_line(alloc: Global, at: u32, kind: ScheduleKind) -> Result<String, AllocError>
    ensures { IfOk result (λ s. string_bytes s ≡ turn_line (record { at = at; kind = kind })) }
{
    format!(in alloc; "schedule turn {at}: {} {}\n", kind.number(), kind.name())
}

/// What is answered where a turn is refused.
pub(crate) fn turn_refused(alloc: Global, at: u32, kind: ScheduleKind) -> Answer
    ensures { IsTurnRefused (record { at = at; kind = kind }) result.status (text_of result.text) }
{
    match turn_line(alloc, at, kind) {
        Ok(line) => Answer {
            status: Status::Schedule,
            text: Text::Made(line.into_bytes()),
        },
        Err(_) => no_memory(),
    }
}

/// What is answered with a history.
pub(crate) fn reported(alloc: Global, input: &Input, history: &History) -> Answer
    requires sound { IsSound input.now }
    requires fit { events_fit input.now.script history.now.events ≡ true }
    ensures { IsReported input.now history.now result.status (text_of result.text) }
{
    match report(alloc, input, history) {
        Ok(text) => Answer {
            status: Status::Ok,
            text: Text::Made(text),
        },
        Err(_) => no_memory(),
    }
}

/// What is answered with a history that was made, or with why it wasn't.
fn made(alloc: Global, input: &Input, made: &Result<History, ScheduleRefusal>) -> Answer
    requires sound { IsSound input.now }
    requires fit { IfOk made.now (λ h. events_fit input.now.script h.events ≡ true) }
    ensures { IsMade input.now made.now result.status (text_of result.text) }
{
    match made {
        Ok(history) => reported(alloc, input, history),
        Err(ScheduleRefusal::Bad { at, kind }) => turn_refused(alloc, *at, *kind),
        Err(ScheduleRefusal::NoMemory) => no_memory(),
    }
}

/// The run of the script by the robin rule.
fn robin_run(alloc: Global, input: &Input, turns: u32) -> Result<History, ScheduleRefusal>
    requires sound { IsSound input.now }
    requires limit { IsLimit input.now turns }
    ensures ok { IfOk result (IsRobinRun input.now.script turns) }
    ensures err { IfErr result (λ r. r ≡ ScheduleRefusal.NoMemory) }
{
    match run(alloc, &input.script, turns) {
        Ok(history) => Ok(history),
        Err(_) => Err(ScheduleRefusal::NoMemory),
    }
}

/// What is answered to a script that is run.
fn ran(alloc: Global, input: &Input, turns: u32) -> Answer
    requires sound { IsSound input.now }
    requires limit { IsLimit input.now turns }
    ensures { IsDone (Task.Run input.now turns) result.status (text_of result.text) }
{
    let history = robin_run(alloc, input, turns);
    made(alloc, input, &history)
}

/// The run of the script that the schedule's turns make.
fn schedule_run(
    alloc: Global,
    input: &Input,
    schedule: &Schedule,
) -> Result<History, ScheduleRefusal>
    requires sound { IsSound input.now }
    requires limit { IsLimit input.now schedule.now.turns }
    ensures ok { IfOk result (IsReplayed input.now.script schedule.now) }
    ensures err { IfErr result
        (IsReplayRefused input.now.script schedule.now.turns schedule.now.list) }
{
    replay(alloc, &input.script, schedule.turns, &schedule.list)
}

/// What is answered to a schedule that is replayed.
fn replayed(alloc: Global, input: &Input, schedule: &Schedule) -> Answer
    requires sound { IsSound input.now }
    requires limit { IsLimit input.now schedule.now.turns }
    ensures { IsDone (Task.Replay input.now schedule.now) result.status (text_of result.text) }
{
    let history = schedule_run(alloc, input, schedule);
    made(alloc, input, &history)
}

/// The line of the number at which a history goes wrong.
fn illegal_line(alloc: Global, number: u64) -> Result<String, AllocError>
    ensures { IfOk result (λ s. string_bytes s ≡ illegal_line number) }
{
    format!(in alloc; "illegal at {number}\n")
}

/// What is answered where a history goes wrong at this number.
fn illegal(alloc: Global, number: u64) -> Answer
    ensures { IsIllegalLine number result.status (text_of result.text) }
{
    match illegal_line(alloc, number) {
        Ok(line) => Answer {
            status: Status::Illegal,
            text: Text::Made(line.into_bytes()),
        },
        Err(_) => no_memory(),
    }
}

/// A history is legal.
fn legal() -> Answer
    ensures status { result.status ≡ Status.Ok }
    ensures text { text_of result.text ≡ legal_line }
{
    Answer {
        status: Status::Ok,
        text: Text::Line("legal\n"),
    }
}

/// What is answered to a history that is checked.
fn checked(alloc: Global, input: &Input, history: &History) -> Answer
    requires sound { IsSound input.now }
    requires limit { IsLimit input.now history.now.turns }
    ensures { IsDone (Task.Check input.now history.now) result.status (text_of result.text) }
{
    match check(alloc, &input.script, history) {
        Ok(Verdict::Legal) => legal(),
        Ok(Verdict::IllegalAt(number)) => illegal(alloc, number),
        Err(_) => no_memory(),
    }
}

/// What is answered to a script that is written in the newest version.
fn migrated(alloc: Global, input: &Input) -> Answer
    requires { IsSound input.now }
    ensures { IsDone (Task.Migrate input.now) result.status (text_of result.text) }
{
    match print(alloc, input) {
        Ok(text) => Answer {
            status: Status::Ok,
            text: Text::Made(text),
        },
        Err(_) => no_memory(),
    }
}

/// What is answered to a script that is verified.
fn verified(alloc: Global, input: &Input) -> Answer
    requires { IsSound input.now }
    ensures { IsDone (Task.Verify input.now) result.status (text_of result.text) }
{
    match verify_text(alloc, input) {
        Ok(text) => Answer {
            status: Status::Ok,
            text: Text::Made(text),
        },
        Err(_) => no_memory(),
    }
}

/// What is answered to a task that needs no threads.
pub(crate) fn done(alloc: Global, task: &Task) -> Answer
    requires sound { IsSoundTask task.now }
    requires alone { is_threaded task.now ≡ false }
    ensures { IsDone task.now result.status (text_of result.text) }
{
    match task {
        Task::Run { input, turns } => ran(alloc, input, *turns),
        Task::Live { .. } => unreachable!(),
        Task::Replay { input, schedule } => replayed(alloc, input, schedule),
        Task::Check { input, history } => checked(alloc, input, history),
        Task::Migrate { input } => migrated(alloc, input),
        Task::Verify { input } => verified(alloc, input),
        Task::Shrink {
            input,
            schedule,
            goal,
        } => shrunk(alloc, input, schedule, goal),
        Task::Audit { .. } => unreachable!(),
    }
}

/// The summary of the robin run of a script, whatever the names of its things are.
fn run_summary(alloc: Global, script: &Script, turns: u32) -> Result<Vec<u8>, AllocError>
    requires fits { IsTrue (fits script.now) }
    requires cpus { script.now.cpus ≤ 8 }
    requires limit { IsTurns turns }
    ensures { IfOk result (λ text.
        (h : RunHistory) × IsRobinRun script.now turns h ×
        ((version : ℕ) (names : NameLists) →
        text.items
        ≡ summary_text (record { version = version; script = script.now; names = names }) h)) }
{
    let history = run(alloc, script, turns)?;
    let text = summary(alloc, script, &history)?;
    Ok(text)
}

/// The summary of the robin run of the seed's load.
fn load_summary(alloc: Global, seed: u32, turns: u32) -> Result<Vec<u8>, AllocError>
    requires { IsTurns turns }
    ensures { IfOk result (λ text. IsSummary seed turns text.items) }
{
    let script = draw_script(alloc, seed)?;
    let text = run_summary(alloc, &script, turns)?;
    Ok(text)
}

/// What is answered to a load.
pub(crate) fn loaded(alloc: Global, seed: u32, turns: u32) -> Answer
    requires { IsTurns turns }
    ensures { IsLoaded seed turns result.status (text_of result.text) }
{
    match load_summary(alloc, seed, turns) {
        Ok(text) => Answer {
            status: Status::Ok,
            text: Text::Made(text),
        },
        Err(_) => no_memory(),
    }
}

/// What is answered to a task that needs no threads, which is let go then.
fn done_with(alloc: Global, task: Task) -> Answer
    requires sound { IsSoundTask task }
    requires alone { is_threaded task ≡ false }
    ensures { IsDone task result.status (text_of result.text) }
{
    let answer = done(alloc, &task);
    drop(task);
    answer
}

/// What is answered to what was asked for, where that needs no threads.
pub(crate) fn answer_alone(alloc: Global, asked: Result<Task, Answer>) -> Answer
    requires sound { IfOk asked IsSoundTask }
    requires alone { IfOk asked (λ t. is_threaded t ≡ false) }
    ensures { IsAnswerTo asked result.status (text_of result.text) }
{
    match asked {
        Ok(task) => done_with(alloc, task),
        Err(answer) => answer,
    }
}

/// What a form asks for in the bytes of an input, or what is answered at once.
pub(crate) fn ask_in(alloc: Global, form: Form, bytes: &[u8]) -> Result<Task, Answer>
    requires bytes { length bytes.now ≤ INPUT_LIMIT }
    requires limit { IsWithin form }
    requires reads { reads form ≡ true }
    ensures asks { AsksIn form bytes.now result }
    ensures sound { IfOk result IsSoundTask }
{
    match task_of(alloc, form, bytes) {
        Ok(task) => Ok(task),
        Err(ScriptRefusal::Bad { line, kind }) => Err(refused(alloc, line, kind)),
        Err(ScriptRefusal::NoMemory) => Err(no_memory()),
    }
}
