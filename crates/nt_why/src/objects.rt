//! Why an object that can be inserted has not run yet.
ghost use Rattle.std.specs.List.{All, list_any};
ghost use Rattle.std.specs.Prelude.{◌≡◌, ◌<◌, ◌++◌, ◌∷◌, [], IfOk, OnOk, Some, false};
ghost use Rattle.std.specs.Prelude.{not, true};
ghost use Rattle.nt_event.specs.declared.events.Turn.{Turn};
ghost use Rattle.nt_event.specs.Fate.{StillWaits, fate_of as fate_in};
ghost use Rattle.nt_event.specs.Step.{step};
ghost use Rattle.nt_plain.specs.States.{view_of};
ghost use Rattle.nt_cpus.specs.Following.{AreAfter};
ghost use Rattle.nt_why.specs.Fates.{last_insert, thing_of};
ghost use Rattle.nt_why.specs.Lined.{IsWhat, with_all};
ghost use Rattle.nt_why.specs.Moments.{AreAll, AreTold, IsAsked, IsAt, IsAwaySince, IsCase};
ghost use Rattle.nt_why.specs.Moments.{IsTold, WaitsOn, events_of, past_of};
ghost use Rattle.nt_why.specs.Says.{gives, gives_what, holds_back, is_free};
ghost use Rattle.nt_why.specs.Says.{class_of as class_in, place_of};
ghost use Rattle.nt_why.specs.Watches.{WatchFits, since as since_in};
ghost use Rattle.nt_why.specs.declared.watch.Watch.{Watch as Watched};

use crate::apcs::{regions_line, runs_line};
use crate::fates::{Object, delivers, fate_of, is_over, last_insert};
use crate::inserts::insert_of;
use crate::lines::{Ahead, Lines, next_line, next_of, put_all};
use crate::question::{Case, Question};
use crate::reasons::{Reason, add};
use crate::standing::{asked_line, class_of, cut_line, first_line, insert_line, level_line};
use crate::watch::{Watch, cpu_of, follow};
use nt_cpu::Cpu;
use nt_cpus::Processors;
use nt_event::{CpuNo, ScheduleKind, What};
use nt_plain::PlainFloor;
use std::alloc::{AllocError, Global};

/// Whether that delivers the insert of this number.
fn gives(object: Object, number: u64, next: &Result<What, ScheduleKind>) -> bool
    ensures { result ≡ gives_what (thing_of object) number next.now }
{
    match next {
        Ok(what) => delivers(object, number, what),
        Err(_) => false,
    }
}

/// Takes the turns of the events that count over processors and a floor that made none, and one
/// more.
fn look_ahead(
    processors: &mut Processors<'_>,
    floor: &mut PlainFloor<'_>,
    question: &Question<'_>,
    p: CpuNo,
) -> Ahead
    requires start { AreAfter [] processors.old floor.old.script (view_of floor.old) }
    requires asked { IsAsked question.now }
    requires script { processors.old.script ≡ question.now.script.now }
    requires limit { processors.old.limit ≡ question.now.turns }
    requires cpu { p.0 < question.now.script.now.cpus }
    ensures noticed { result.noticed ≡ since_in question.now.script.now
        (Watched.Seen p (class_in question.now.script.now question.now.object))
        (past_of question.now) }
    ensures next { IsWhat
        (step question.now.script.now question.now.turns (Turn.Next p) (past_of question.now))
        result.next }
{
    let class = class_of(question.script, question.object);
    let noticed = follow(
        processors,
        floor,
        &question.events,
        question.end,
        &Watch::Seen(p, class),
    );
    Ahead {
        noticed,
        next: next_of(processors, floor, p),
    }
}

/// The number of the event since which the thread of an APC object does what it does; None of a DPC
/// object.
fn find_away(alloc: Global, question: &Question<'_>) -> Result<Option<u64>, AllocError>
    requires { IsAsked question.now }
    ensures { IfOk result (IsAwaySince question.now) }
{
    match question.object {
        Object::Dpc(_) => Ok(None),
        Object::Apc(apc) => {
            let watch = Watch::Doing(question.script.owner_of(apc));
            find_since(alloc, question, &watch)
        }
    }
}

/// The number of the event by which what is watched became what it is after the events that count;
/// None where it was so from the start.
fn find_since(
    alloc: Global,
    question: &Question<'_>,
    watch: &Watch,
) -> Result<Option<u64>, AllocError>
    requires asked { IsAsked question.now }
    requires watch { WatchFits question.now.script.now watch.now }
    ensures { IfOk result (λ k.
        k ≡ since_in question.now.script.now watch.now (past_of question.now)) }
{
    let mut processors = Processors::new(alloc, question.script, question.turns)?;
    let mut floor = PlainFloor::new(alloc, question.script, question.turns)?;
    Ok(follow(
        &mut processors,
        &mut floor,
        &question.events,
        question.end,
        watch,
    ))
}

/// The lines of the tests.
fn lines_of(
    question: &Question<'_>,
    p: CpuNo,
    cpu: &Cpu<'_>,
    floor: &PlainFloor<'_>,
    case: &Case,
) -> Lines
    requires at { IsAt question.now p cpu.now floor.now }
    requires waits { WaitsOn question.now p }
    requires case { IsCase question.now p case.now }
    ensures { AreTold question.now result }
{
    Lines {
        first: first_line(question, p, cpu, floor),
        runs: runs_line(question, p, cpu, floor, case),
        regions: regions_line(question, p, cpu, floor, case),
        level: Some(level_line(question, p, cpu, floor, case.stood)),
        cut: cut_line(question, p, cpu, floor),
        insert: insert_line(question, p, cpu, floor, case.at),
        asked: asked_line(question, p, cpu, floor, case.noticed),
    }
}

/// Takes the turns of the events that count over processors and a floor that made none, and puts
/// the lines of the insert of this number at the end.
fn tell(
    processors: &mut Processors<'_>,
    floor: &mut PlainFloor<'_>,
    question: &Question<'_>,
    p: CpuNo,
    at: u64,
    ahead: &Ahead,
    away: Option<u64>,
    reasons: &mut Vec<Reason>,
) -> Result<(), AllocError>
    requires start { AreAfter [] processors.old floor.old.script (view_of floor.old) }
    requires asked { IsAsked question.now }
    requires script { processors.old.script ≡ question.now.script.now }
    requires limit { processors.old.limit ≡ question.now.turns }
    requires cpu { p.0 < question.now.script.now.cpus }
    requires at { last_insert (thing_of question.now.object) (past_of question.now) ≡ Some at }
    requires noticed { ahead.now.noticed ≡ since_in question.now.script.now
        (Watched.Seen p (class_in question.now.script.now question.now.object))
        (past_of question.now) }
    requires next { IsWhat
        (step question.now.script.now question.now.turns (Turn.Next p) (past_of question.now))
        ahead.now.next }
    requires place { place_of question.now.script.now (events_of question.now) at
        question.now.object ≡ p }
    requires away { IsAwaySince question.now away }
    requires told { All (IsTold question.now) reasons.old.items }
    requires none { list_any holds_back reasons.old.items ≡ false }
    ensures told { OnOk result (All (IsTold question.now) reasons.new.items) }
    ensures held { OnOk result (list_any holds_back reasons.new.items ≡ not
        (gives (thing_of question.now.object) at
        (step question.now.script.now question.now.turns (Turn.Next p) (past_of question.now)))) }
{
    let stood = follow(
        processors,
        floor,
        &question.events,
        question.end,
        &Watch::Stand(p),
    );
    let case = Case {
        at,
        free: gives(question.object, at, &ahead.next),
        stood,
        noticed: ahead.noticed,
        away,
    };
    let lines = lines_of(question, p, cpu_of(processors, p), floor, &case);
    put_all(reasons, case.free, &lines, next_line(p, &ahead.next))
}

/// Puts the lines of the insert of this number at the end, where this lies ahead on its processor.
fn put_with(
    alloc: Global,
    question: &Question<'_>,
    p: CpuNo,
    at: u64,
    ahead: &Ahead,
    away: Option<u64>,
    reasons: &mut Vec<Reason>,
) -> Result<(), AllocError>
    requires asked { IsAsked question.now }
    requires cpu { p.0 < question.now.script.now.cpus }
    requires at { last_insert (thing_of question.now.object) (past_of question.now) ≡ Some at }
    requires place { place_of question.now.script.now (events_of question.now) at
        question.now.object ≡ p }
    requires noticed { ahead.now.noticed ≡ since_in question.now.script.now
        (Watched.Seen p (class_in question.now.script.now question.now.object))
        (past_of question.now) }
    requires next { IsWhat
        (step question.now.script.now question.now.turns (Turn.Next p) (past_of question.now))
        ahead.now.next }
    requires away { IsAwaySince question.now away }
    requires told { All (IsTold question.now) reasons.old.items }
    requires none { list_any holds_back reasons.old.items ≡ false }
    ensures told { OnOk result (All (IsTold question.now) reasons.new.items) }
    ensures held { OnOk result (list_any holds_back reasons.new.items ≡ not
        (gives (thing_of question.now.object) at
        (step question.now.script.now question.now.turns (Turn.Next p) (past_of question.now)))) }
{
    let mut processors = Processors::new(alloc, question.script, question.turns)?;
    let mut floor = PlainFloor::new(alloc, question.script, question.turns)?;
    tell(
        &mut processors,
        &mut floor,
        question,
        p,
        at,
        ahead,
        away,
        reasons,
    )
}

/// Finds what lies ahead over processors and a floor that made no event, and puts the lines of the
/// insert of this number at the end.
fn put_ahead(
    alloc: Global,
    processors: &mut Processors<'_>,
    floor: &mut PlainFloor<'_>,
    question: &Question<'_>,
    p: CpuNo,
    at: u64,
    away: Option<u64>,
    reasons: &mut Vec<Reason>,
) -> Result<(), AllocError>
    requires start { AreAfter [] processors.old floor.old.script (view_of floor.old) }
    requires asked { IsAsked question.now }
    requires script { processors.old.script ≡ question.now.script.now }
    requires limit { processors.old.limit ≡ question.now.turns }
    requires cpu { p.0 < question.now.script.now.cpus }
    requires at { last_insert (thing_of question.now.object) (past_of question.now) ≡ Some at }
    requires place { place_of question.now.script.now (events_of question.now) at
        question.now.object ≡ p }
    requires away { IsAwaySince question.now away }
    requires told { All (IsTold question.now) reasons.old.items }
    requires none { list_any holds_back reasons.old.items ≡ false }
    ensures told { OnOk result (All (IsTold question.now) reasons.new.items) }
    ensures held { OnOk result (list_any holds_back reasons.new.items ≡ not
        (gives (thing_of question.now.object) at
        (step question.now.script.now question.now.turns (Turn.Next p) (past_of question.now)))) }
{
    let ahead = look_ahead(processors, floor, question, p);
    put_with(alloc, question, p, at, &ahead, away, reasons)
}

/// Puts the lines of the insert of this number, which waits on this processor, at the end.
fn put_lines(
    alloc: Global,
    question: &Question<'_>,
    p: CpuNo,
    at: u64,
    reasons: &mut Vec<Reason>,
) -> Result<(), AllocError>
    requires asked { IsAsked question.now }
    requires cpu { p.0 < question.now.script.now.cpus }
    requires at { last_insert (thing_of question.now.object) (past_of question.now) ≡ Some at }
    requires place { place_of question.now.script.now (events_of question.now) at
        question.now.object ≡ p }
    requires told { All (IsTold question.now) reasons.old.items }
    requires none { list_any holds_back reasons.old.items ≡ false }
    ensures told { OnOk result (All (IsTold question.now) reasons.new.items) }
    ensures held { OnOk result (list_any holds_back reasons.new.items ≡ not
        (gives (thing_of question.now.object) at
        (step question.now.script.now question.now.turns (Turn.Next p) (past_of question.now)))) }
{
    let away = find_away(alloc, question)?;
    let mut processors = Processors::new(alloc, question.script, question.turns)?;
    let mut floor = PlainFloor::new(alloc, question.script, question.turns)?;
    put_ahead(
        alloc,
        &mut processors,
        &mut floor,
        question,
        p,
        at,
        away,
        reasons,
    )
}

/// Puts the lines of the insert of this number, which waits on this processor, at the end, where
/// the script has the processor; else that there is none.
fn put_where(
    alloc: Global,
    question: &Question<'_>,
    p: CpuNo,
    at: u64,
    reasons: &mut Vec<Reason>,
) -> Result<(), AllocError>
    requires asked { IsAsked question.now }
    requires at { last_insert (thing_of question.now.object) (past_of question.now) ≡ Some at }
    requires place { place_of question.now.script.now (events_of question.now) at
        question.now.object ≡ p }
    requires told { All (IsTold question.now) reasons.old.items }
    requires none { list_any holds_back reasons.old.items ≡ false }
    ensures told { OnOk result (All (IsTold question.now) reasons.new.items) }
    ensures held { OnOk result (list_any holds_back reasons.new.items ≡ not
        (gives (thing_of question.now.object) at
        (step question.now.script.now question.now.turns (Turn.Next p) (past_of question.now)))) }
{
    if p.0 < question.script.cpus {
        return put_lines(alloc, question, p, at, reasons);
    }
    let none = Reason::NoNext {
        cpu: p,
        kind: ScheduleKind::NoSuchCpu,
    };
    add(reasons, none)
}

/// Puts the line of the insert of this number, which waits, at the end of an empty list, and
/// answers where it stands.
fn put_insert(
    question: &Question<'_>,
    at: u64,
    reasons: &mut Vec<Reason>,
) -> Result<CpuNo, AllocError>
    requires asked { IsAsked question.now }
    requires place { at < question.now.end }
    requires at { last_insert (thing_of question.now.object) (past_of question.now) ≡ Some at }
    requires waits { fate_in (thing_of question.now.object) at (past_of question.now)
        ≡ StillWaits }
    requires none { reasons.old.items ≡ [] }
    ensures place { IfOk result (λ p. place_of question.now.script.now (events_of question.now) at
        question.now.object ≡ p) }
    ensures told { OnOk result (All (IsTold question.now) reasons.new.items) }
    ensures none { OnOk result (list_any holds_back reasons.new.items ≡ false) }
{
    let insert = insert_of(
        question.script,
        &question.events,
        at as usize,
        question.object,
    );
    add(reasons, Reason::Waits(insert))?;
    Ok(insert.cpu)
}

/// Puts what became of the insert of this number, the last one, at the end.
fn put_then(question: &Question<'_>, at: u64, reasons: &mut Vec<Reason>) -> Result<(), AllocError>
    requires at { last_insert (thing_of question.now.object) (past_of question.now) ≡ Some at }
    requires told { All (IsTold question.now) reasons.old.items }
    ensures told { OnOk result (All (IsTold question.now) reasons.new.items) }
    ensures same { OnOk result
        (list_any holds_back reasons.new.items ≡ list_any holds_back reasons.old.items) }
{
    let end = question.events.briefs.len();
    let fate = fate_of(&question.events, question.object, at, end);
    add(reasons, Reason::Then(fate))
}

/// Puts what is told of the insert of this number, which waits, at the end of an empty list.
fn put_waiting(
    alloc: Global,
    question: &Question<'_>,
    at: u64,
    reasons: &mut Vec<Reason>,
) -> Result<(), AllocError>
    requires asked { IsAsked question.now }
    requires place { at < question.now.end }
    requires at { last_insert (thing_of question.now.object) (past_of question.now) ≡ Some at }
    requires waits { fate_in (thing_of question.now.object) at (past_of question.now)
        ≡ StillWaits }
    requires none { reasons.old.items ≡ [] }
    ensures told { OnOk result (All (IsTold question.now) reasons.new.items) }
    ensures held { OnOk result (list_any holds_back reasons.new.items ≡ not
        (is_free question.now.script.now question.now.turns (events_of question.now)
        question.now.end at question.now.object)) }
{
    let p = put_insert(question, at, reasons)?;
    put_where(alloc, question, p, at, reasons)?;
    put_then(question, at, reasons)
}

/// Puts what is told of the last insert, the one of this number, at the end of an empty list.
fn put_last(
    alloc: Global,
    question: &Question<'_>,
    at: u64,
    reasons: &mut Vec<Reason>,
) -> Result<(), AllocError>
    requires asked { IsAsked question.now }
    requires place { at < question.now.end }
    requires at { last_insert (thing_of question.now.object) (past_of question.now) ≡ Some at }
    requires none { reasons.old.items ≡ [] }
    ensures told { OnOk result (All (IsTold question.now) reasons.new.items) }
    ensures all { OnOk result (AreAll question.now reasons.new.items) }
{
    let fate = fate_of(&question.events, question.object, at, question.end);
    if is_over(fate) {
        return add(reasons, Reason::Ended { insert: at, fate });
    }
    put_waiting(alloc, question, at, reasons)
}

/// Puts what is told of the object at the end of an empty list.
pub(crate) fn explain(
    alloc: Global,
    question: &Question<'_>,
    reasons: &mut Vec<Reason>,
) -> Result<(), AllocError>
    requires asked { IsAsked question.now }
    requires none { reasons.old.items ≡ [] }
    ensures told { OnOk result (All (IsTold question.now) reasons.new.items) }
    ensures all { OnOk result (AreAll question.now reasons.new.items) }
{
    match last_insert(&question.events, question.object, question.end) {
        Some(at) => put_last(alloc, question, at, reasons),
        None => add(reasons, Reason::NeverInserted),
    }
}
