//! Why a thing has not run yet.
ghost use Rattle.std.specs.List.{All};
ghost use Rattle.std.specs.Prelude.{◌≡◌, ◌≤◌, ◌*◌, IfOk, IsTrue, length, min, reverse};
ghost use Rattle.nt_event.specs.Script.{fits};
ghost use Rattle.nt_event.specs.Step.{IsRun};
ghost use Rattle.nt_why.specs.Courses.{IsCourse, events_on};
ghost use Rattle.nt_why.specs.Interrupts.{IsWholeInterrupt, SaysInterrupt};
ghost use Rattle.nt_why.specs.Moments.{IsAsked, events_of};
ghost use Rattle.nt_why.specs.Says.{AreComplete, Says};
ghost use Rattle.nt_why.specs.Things.{AreWhole, SaysOf};
ghost use Rattle.nt_why.specs.Threads.{IsWholeThread, SaysThread};
ghost use Rattle.nt_why.specs.Timers.{IsWholeTimer, SaysTimer};

use crate::fates::Object;
use crate::interrupts::explain_interrupt;
use crate::objects::explain;
use crate::question::{Course, Question};
use crate::reasons::Reason;
use crate::things::Thing;
use crate::threads::explain_thread;
use crate::timers::explain_timer;
use nt_event::limits::{EVENTS, TURNS};
use nt_event::{CpuNo, Level, Script, ThreadNo, TimerNo};
use nt_history::History;
use std::alloc::{AllocError, Global};

/// The question about an object in a run.
fn question_of<'a>(
    script: &'a Script,
    history: &'a History,
    after: u32,
    object: Object,
) -> Question<'a>
    requires script { IsTrue (fits script.now) }
    requires turns { (1 ≤ history.now.turns) × (history.now.turns ≤ TURNS) }
    requires all { script.now.cpus * history.now.turns ≤ EVENTS }
    requires run { IsRun script.now history.now.turns (reverse history.now.events) }
    ensures script { result.script.now ≡ script.now }
    ensures turns { result.turns ≡ history.now.turns }
    ensures events { events_of result ≡ history.now.events }
    ensures end { result.end ≡ min after (length history.now.events) }
    ensures object { result.object ≡ object }
    ensures asked { IsAsked result }
{
    let events = history.lend();
    let end = (after as usize).min(events.briefs.len());
    Question {
        script,
        events,
        turns: history.turns(),
        end,
        object,
    }
}

/// The first events of a run.
fn course_of<'a>(script: &'a Script, history: &'a History, after: u32) -> Course<'a>
    requires script { IsTrue (fits script.now) }
    requires turns { (1 ≤ history.now.turns) × (history.now.turns ≤ TURNS) }
    requires all { script.now.cpus * history.now.turns ≤ EVENTS }
    requires run { IsRun script.now history.now.turns (reverse history.now.events) }
    ensures script { result.script.now ≡ script.now }
    ensures turns { result.turns ≡ history.now.turns }
    ensures events { events_on result ≡ history.now.events }
    ensures end { result.end ≡ min after (length history.now.events) }
    ensures course { IsCourse result }
{
    let events = history.lend();
    let end = (after as usize).min(events.briefs.len());
    Course {
        script,
        events,
        turns: history.turns(),
        end,
    }
}

/// Why a DPC or APC object has not run.
fn why_object(
    alloc: Global,
    script: &Script,
    history: &History,
    after: u32,
    object: Object,
) -> Result<Vec<Reason>, AllocError>
    requires script { IsTrue (fits script.now) }
    requires turns { (1 ≤ history.now.turns) × (history.now.turns ≤ TURNS) }
    requires all { script.now.cpus * history.now.turns ≤ EVENTS }
    requires run { IsRun script.now history.now.turns (reverse history.now.events) }
    ensures told { IfOk result (λ rs. All
        (Says script.now history.now.turns history.now.events
        (min after (length history.now.events)) object) rs.items) }
    ensures complete { IfOk result (λ rs.
        AreComplete script.now history.now.turns history.now.events
        (min after (length history.now.events)) object rs.items) }
{
    let question = question_of(script, history, after, object);
    let mut reasons = Vec::new(alloc);
    explain(alloc, &question, &mut reasons)?;
    Ok(reasons)
}

/// Why the interrupt of this level has not begun on this processor.
fn why_interrupt(
    alloc: Global,
    script: &Script,
    history: &History,
    after: u32,
    p: CpuNo,
    level: Level,
) -> Result<Vec<Reason>, AllocError>
    requires script { IsTrue (fits script.now) }
    requires turns { (1 ≤ history.now.turns) × (history.now.turns ≤ TURNS) }
    requires all { script.now.cpus * history.now.turns ≤ EVENTS }
    requires run { IsRun script.now history.now.turns (reverse history.now.events) }
    ensures told { IfOk result (λ rs. All
        (SaysInterrupt script.now history.now.turns history.now.events
        (min after (length history.now.events)) p level) rs.items) }
    ensures whole { IfOk result (λ rs.
        IsWholeInterrupt script.now history.now.turns history.now.events
        (min after (length history.now.events)) p level rs.items) }
{
    let course = course_of(script, history, after);
    let mut reasons = Vec::new(alloc);
    explain_interrupt(alloc, &course, p, level, &mut reasons)?;
    Ok(reasons)
}

/// Why the thread doesn't run.
fn why_thread(
    alloc: Global,
    script: &Script,
    history: &History,
    after: u32,
    t: ThreadNo,
) -> Result<Vec<Reason>, AllocError>
    requires script { IsTrue (fits script.now) }
    requires turns { (1 ≤ history.now.turns) × (history.now.turns ≤ TURNS) }
    requires all { script.now.cpus * history.now.turns ≤ EVENTS }
    requires run { IsRun script.now history.now.turns (reverse history.now.events) }
    ensures told { IfOk result (λ rs. All
        (SaysThread script.now history.now.turns history.now.events
        (min after (length history.now.events)) t) rs.items) }
    ensures whole { IfOk result (λ rs.
        IsWholeThread script.now history.now.turns history.now.events
        (min after (length history.now.events)) t rs.items) }
{
    let course = course_of(script, history, after);
    let mut reasons = Vec::new(alloc);
    explain_thread(alloc, &course, t, &mut reasons)?;
    Ok(reasons)
}

/// Why the timer has not expired.
fn why_timer(
    alloc: Global,
    script: &Script,
    history: &History,
    after: u32,
    t: TimerNo,
) -> Result<Vec<Reason>, AllocError>
    requires script { IsTrue (fits script.now) }
    requires turns { (1 ≤ history.now.turns) × (history.now.turns ≤ TURNS) }
    requires all { script.now.cpus * history.now.turns ≤ EVENTS }
    requires run { IsRun script.now history.now.turns (reverse history.now.events) }
    ensures told { IfOk result (λ rs. All
        (SaysTimer script.now history.now.turns history.now.events
        (min after (length history.now.events)) t) rs.items) }
    ensures whole { IfOk result (λ rs.
        IsWholeTimer script.now history.now.turns history.now.events
        (min after (length history.now.events)) t rs.items) }
{
    let course = course_of(script, history, after);
    let mut reasons = Vec::new(alloc);
    explain_timer(alloc, &course, t, &mut reasons)?;
    Ok(reasons)
}

/// Why the thing has not run after the first `after` events of the history, or after all of them
/// where it has fewer. An error is want of memory.
///
/// The script fits, and the history is a run of it, settled or not. Its turn limit is 1 to 20,000
/// and at most 160,000 in all processors together. Each reason is true of the thing then; one of an
/// object that names a processor, of the processor to which its last insert went.
///
/// Where an object has no pending insert, the first reason says why: no event inserted it, or the
/// last insert was begun, removed or flushed. Else some reason says what holds it back, exactly
/// where the next event of the processor where it waits doesn't deliver it.
///
/// Where all requests for an interrupt are served, the first reason says so. Else some reason says
/// what holds it back, exactly where the next event of its processor doesn't begin it.
///
/// Where a thread runs, the first reason says so. Else some reason says what holds it back, exactly
/// where the turn that takes it up is refused.
///
/// Where a timer isn't set, the first reason says so. Else some reason says what holds it back,
/// exactly where no processor's next event expires it.
pub fn why(
    alloc: Global,
    script: &Script,
    history: &History,
    after: u32,
    thing: Thing,
) -> Result<Vec<Reason>, AllocError>
    requires script { IsTrue (fits script.now) }
    requires turns { (1 ≤ history.now.turns) × (history.now.turns ≤ TURNS) }
    requires all { script.now.cpus * history.now.turns ≤ EVENTS }
    requires run { IsRun script.now history.now.turns (reverse history.now.events) }
    ensures told { IfOk result (λ rs. All
        (SaysOf script.now history.now.turns history.now.events
        (min after (length history.now.events)) thing) rs.items) }
    ensures whole { IfOk result (λ rs.
        AreWhole script.now history.now.turns history.now.events
        (min after (length history.now.events)) thing rs.items) }
{
    match thing {
        Thing::Object(object) => why_object(alloc, script, history, after, object),
        Thing::Interrupt(p, level) => why_interrupt(alloc, script, history, after, p, level),
        Thing::Thread(t) => why_thread(alloc, script, history, after, t),
        Thing::Timer(t) => why_timer(alloc, script, history, after, t),
    }
}
