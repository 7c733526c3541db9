//! What is answered to a script that is run or audited on threads. Only these calls, those of
//! auditing.rt and the top call may wait.
ghost use Rattle.std.specs.Prelude.{◌*◌, ◌≡◌, ◌≤◌, IfOk, length, true};
ghost use Rattle.nt_event.specs.Classes.{class_count};
ghost use Rattle.nt_event.specs.declared.limits.TheConstants.{EVENTS};
ghost use Rattle.nt_ranges.specs.Looks.{LooksAreWhole};
ghost use Rattle.nt_script.specs.Sound.{IsSound};
ghost use Rattle.nt_top.specs.Answer.{IsAnswerTo, text_of};
ghost use Rattle.nt_top.specs.Audited.{IsAudited};
ghost use Rattle.nt_words.specs.Forms.{IsWorkers};
ghost use Rattle.nt_top.specs.Outcome.{IsDone};
ghost use Rattle.nt_top.specs.Runs.{IsLiveRun};
ghost use Rattle.nt_top.specs.Tasks.{IsLimit, IsSoundTask};

use crate::answer::{Answer, Text, done, no_memory, reported};
use crate::auditing::audit_text;
use crate::status::Status;
use crate::task::Task;
use nt_core::run;
use nt_event::Rises;
use nt_history::History;
use nt_live::live;
use nt_outside::Gate;
use nt_script::Input;
use std::alloc::{AllocError, Global};
use std::sync::Wait;
use std::thread::Threads;

/// The values of a look, one for each class: only where the array is read is its length known.
fn values_of(rises: &Rises) -> [u64; 16]
    ensures same { result ≡ rises.now.value }
    ensures whole { length result ≡ class_count }
{
    rises.value
}

/// Whether each look of a history has a value for each class, as every look has. The definition of
/// a run leaves it open, and a report and its schedule are read again only where it holds.
fn looks_are_whole(history: &History) -> bool
    ensures answer { result ≡ true }
    ensures looks { LooksAreWhole history.now.events }
{
    let mut whole = true;
    let events = history.lend();
    for rises in events.rises {
        whole = values_of(rises).len() == 16 && whole;
    }
    whole
}

/// All processors together make no more events than a history may have.
fn few_events(input: &Input, turns: u32)
    requires sound { IsSound input.now }
    requires limit { IsLimit input.now turns }
    ensures { input.now.script.cpus * turns ≤ EVENTS }
{
    let _turns = turns;
    let _input = input;
}

/// A settled run of the script on threads.
fn live_run<G: Gate + Sync, R: Threads + Wait + Sync>(
    rt: &R,
    alloc: Global,
    input: &Input,
    turns: u32,
    gate: &G,
) -> Result<History, AllocError>
    requires sound { IsSound input.now }
    requires limit { IsLimit input.now turns }
    ensures { IfOk result (IsLiveRun input.now.script turns) }
{
    few_events(input, turns);
    let history = live(rt, alloc, &input.script, turns, gate)?;
    let _whole = looks_are_whole(&history);
    Ok(history)
}

/// What is answered to a script that is run on threads.
fn lived<G: Gate + Sync, R: Threads + Wait + Sync>(
    rt: &R,
    alloc: Global,
    input: &Input,
    turns: u32,
    gate: &G,
) -> Answer
    requires sound { IsSound input.now }
    requires limit { IsLimit input.now turns }
    ensures { IsDone (Task.Live input.now turns) result.status (text_of result.text) }
{
    match live_run(rt, alloc, input, turns, gate) {
        Ok(history) => reported(alloc, input, &history),
        Err(_) => no_memory(),
    }
}

/// The audit of the robin run of the script, as it is written.
fn audit_run<G: Gate + Sync, R: Threads + Wait + Sync>(
    rt: &R,
    alloc: Global,
    input: &Input,
    turns: u32,
    workers: u8,
    gate: &G,
) -> Result<Vec<u8>, AllocError>
    requires sound { IsSound input.now }
    requires limit { IsLimit input.now turns }
    requires workers { IsWorkers workers }
    ensures { IfOk result (λ text. IsAudited input.now turns text.items) }
{
    few_events(input, turns);
    let history = run(alloc, &input.script, turns)?;
    let text = audit_text(rt, alloc, &history, workers, gate)?;
    Ok(text)
}

/// What is answered to a script that is audited.
fn audited<G: Gate + Sync, R: Threads + Wait + Sync>(
    rt: &R,
    alloc: Global,
    input: &Input,
    turns: u32,
    workers: u8,
    gate: &G,
) -> Answer
    requires sound { IsSound input.now }
    requires limit { IsLimit input.now turns }
    requires workers { IsWorkers workers }
    ensures { IsDone (Task.Audit input.now turns workers) result.status (text_of result.text) }
{
    match audit_run(rt, alloc, input, turns, workers, gate) {
        Ok(text) => Answer {
            status: Status::Ok,
            text: Text::Made(text),
        },
        Err(_) => no_memory(),
    }
}

/// What is answered to a task, by threads where it asks for them.
fn done_on_threads<G: Gate + Sync, R: Threads + Wait + Sync>(
    rt: &R,
    alloc: Global,
    task: &Task,
    gate: &G,
) -> Answer
    requires { IsSoundTask task.now }
    ensures { IsDone task.now result.status (text_of result.text) }
{
    match task {
        Task::Live { input, turns } => lived(rt, alloc, input, *turns, gate),
        Task::Audit {
            input,
            turns,
            workers,
        } => audited(rt, alloc, input, *turns, *workers, gate),
        Task::Run { .. }
        | Task::Replay { .. }
        | Task::Check { .. }
        | Task::Migrate { .. }
        | Task::Verify { .. }
        | Task::Shrink { .. } => done(alloc, task),
    }
}

/// What is answered to a task, by threads where it asks for them; the task is let go then.
fn done_with<G: Gate + Sync, R: Threads + Wait + Sync>(
    rt: &R,
    alloc: Global,
    task: Task,
    gate: &G,
) -> Answer
    requires { IsSoundTask task }
    ensures { IsDone task result.status (text_of result.text) }
{
    let answer = done_on_threads(rt, alloc, &task, gate);
    drop(task);
    answer
}

/// What is answered to what was asked for, by threads where it asks for them.
pub(crate) fn answer_on_threads<G: Gate + Sync, R: Threads + Wait + Sync>(
    rt: &R,
    alloc: Global,
    asked: Result<Task, Answer>,
    gate: &G,
) -> Answer
    requires { IfOk asked IsSoundTask }
    ensures { IsAnswerTo asked result.status (text_of result.text) }
{
    match asked {
        Ok(task) => done_with(rt, alloc, task, gate),
        Err(answer) => answer,
    }
}
