//! The floor in memory on a small script: its words, an act and the refusals of acts.
ghost use Rattle.std.specs.Prelude.{◌≡◌, ◌≤◌, ◌+◌, IfErr, IfOk, IsTrue, None, OnOk, length};
ghost use Rattle.nt_event.specs.Script.{fits};
ghost use Rattle.nt_event.specs.declared.events.Rises.{Rises};
ghost use Rattle.nt_event.specs.Lists.{table};
ghost use Rattle.nt_event.specs.Acts.{Found, IsActed, IsMet, IsRefused, StandFits, job_fits};
ghost use Rattle.nt_floor.specs.Views.{IsTold};
ghost use Rattle.nt_frame.specs.Changes.{begun, no_frames};
ghost use Rattle.nt_plain.specs.States.{IsFresh};

use crate::scripts::empty_script;
use nt_event::{
    Body, Command, CpuNo, DpcDecl, DpcNo, Event, Items, Job, Level, RoutineNo, Script, ThreadDecl,
    ThreadNo, What,
};
use nt_floor::{ActRefusal, Acted, Floor, Seen, Words};
use nt_frame::{Frames, StandView};
use nt_plain::PlainFloor;
use std::alloc::{AllocError, Global};
use std::io;

/// Writes the answers of a case.
pub fn answer(rt: HostRuntime, case: &str) -> io::Result<()> {
    let script = script(rt.alloc())?;
    answer_if_fit(rt, case, &script)
}

/// Writes the answers of a case of the small script, where it fits.
fn answer_if_fit(rt: HostRuntime, case: &str, script: &Script) -> io::Result<()>
    requires cpus { script.now.cpus ≡ 2 }
    requires objects { length script.now.dpcs ≡ 1 }
    requires threads { length script.now.threads ≡ 1 }
{
    if script.fits() {
        answer_of(rt, case, script)
    } else {
        println!(rt; "  no fit")
    }
}

/// Writes the answers of a case of a floor of the small script.
fn answer_of(rt: HostRuntime, case: &str, script: &Script) -> io::Result<()>
    requires fits { IsTrue (fits script.now) }
    requires cpus { script.now.cpus ≡ 2 }
    requires objects { length script.now.dpcs ≡ 1 }
    requires threads { length script.now.threads ≡ 1 }
{
    let mut floor = PlainFloor::new(rt.alloc(), script, 4)?;
    answer_on(rt, case, script, &mut floor)
}

/// Writes the answers of a case of this floor.
fn answer_on(
    rt: HostRuntime,
    case: &str,
    script: &Script,
    floor: &mut PlainFloor<'_>,
) -> io::Result<()>
    requires fits { IsTrue (fits script.now) }
    requires cpus { script.now.cpus ≡ 2 }
    requires objects { length script.now.dpcs ≡ 1 }
    requires threads { length script.now.threads ≡ 1 }
    requires fresh { IsFresh script.now 4 floor.old }
{
    match case {
        "an insert asks its processor" => an_insert_asks(rt, script, floor),
        "numbers, marks and looks" => words(rt, script, floor),
        "a thread of another processor is not taken" => a_wrong_choice(rt, script, floor),
        "nothing to do over a ready thread" => nothing_to_do(rt, script, floor),
        _ => println!(rt; "  no such case"),
    }
}

/// Two processors, one DPC object, and one thread on processor 1.
fn script(alloc: Global) -> Result<Script, AllocError>
    ensures cpus { IfOk result (λ s. s.cpus ≡ 2) }
    ensures objects { IfOk result (λ s. length s.dpcs ≡ 1) }
    ensures threads { IfOk result (λ s. length s.threads ≡ 1) }
{
    let mut made = empty_script(alloc, None)?;
    declare(&mut made.dpcs, &mut made.threads)?;
    Ok(made)
}

/// Adds the DPC object and the thread.
fn declare(dpcs: &mut Items<DpcDecl>, threads: &mut Items<ThreadDecl>) -> Result<(), AllocError>
    ensures dpcs { OnOk result (length dpcs.new ≡ length dpcs.old + 1) }
    ensures threads { OnOk result (length threads.new ≡ length threads.old + 1) }
{
    let routine = RoutineNo(0);
    dpcs.push(DpcDecl {
        threaded: false,
        routine,
    })?;
    threads.push(ThreadDecl {
        cpu: CpuNo(1),
        routine,
    })
}

/// The frames of a processor without a thread at DISPATCH_LEVEL, in a DPC that event 7 began.
fn frames(alloc: Global, cpu: CpuNo) -> Result<Frames, AllocError>
    ensures { IfOk result (λ x. x ≡ begun 7 (Body.Dpc (record { 0 = 0 })) (no_frames 1)) }
{
    let mut frames = Frames::new(alloc, cpu, 1)?;
    frames.begin(Body::Dpc(DpcNo(0)), 7);
    Ok(frames)
}

/// Has a floor make the event of a job, and tells all that it made.
fn act<F: Floor>(floor: &mut F, job: Job, stand: &StandView) -> Result<Acted, ActRefusal>
    requires room { 1 ≤ (F.view floor.old).drawable }
    requires job { IsTrue (job_fits (F.script floor.old) job) }
    requires stand { StandFits (F.script floor.old) stand.now }
    requires met { IsMet (F.script floor.old) (F.view floor.old).states stand.now job }
    ensures event { IfOk result (λ a.
        (f : Found) × (told : Rises) × F.found floor.new a.number a.event stand.now f ×
        (IsActed (F.script floor.old) f stand.now job (record a { told = told }) ×
        IsTold stand.now told (table 16 (λ c. 0)) a.told.value (F.view floor.new))) }
    ensures cause { IfErr result (λ r.
        (f : Found) × F.shows floor.new stand.now job f ×
        IsRefused (F.script floor.old) f stand.now job r) }
{
    let mut seen = Seen::new();
    let mut event = a_rest(stand.cpu());
    let made = floor.act(&job, stand, &mut seen, &mut event)?;
    Ok(Acted {
        number: made.number,
        event,
        due: made.due,
        told: seen.rises(),
    })
}

/// A rest of a processor without a thread at DISPATCH_LEVEL.
fn a_rest(cpu: CpuNo) -> Event {
    Event {
        cpu,
        thread: None,
        level: Level::DISPATCH,
        what: What::Rest,
    }
}

fn an_insert_asks(rt: HostRuntime, script: &Script, floor: &mut PlainFloor<'_>) -> io::Result<()>
    requires fits { IsTrue (fits script.now) }
    requires cpus { script.now.cpus ≡ 2 }
    requires objects { length script.now.dpcs ≡ 1 }
    requires threads { length script.now.threads ≡ 1 }
    requires fresh { IsFresh script.now 4 floor.old }
{
    let frames = frames(rt.alloc(), CpuNo(0))?;
    insert_over(rt, script, floor, &frames)
}

/// The insert by the innermost of these frames.
fn insert_over(
    rt: HostRuntime,
    script: &Script,
    floor: &mut PlainFloor<'_>,
    frames: &Frames,
) -> io::Result<()>
    requires fits { IsTrue (fits script.now) }
    requires cpus { script.now.cpus ≡ 2 }
    requires objects { length script.now.dpcs ≡ 1 }
    requires threads { length script.now.threads ≡ 1 }
    requires fresh { IsFresh script.now 4 floor.old }
    requires frames { frames.now ≡ begun 7 (Body.Dpc (record { 0 = 0 })) (no_frames 1) }
{
    let queue = Command::Queue(DpcNo(0));
    let stand = StandView::new(CpuNo(0), frames, false);
    let acted = act(floor, Job::Call(queue), &stand);
    write_insert(rt, acted, floor)
}

/// Writes the event that was made, or why none was, and who is asked then.
fn write_insert(
    rt: HostRuntime,
    acted: Result<Acted, ActRefusal>,
    floor: &PlainFloor<'_>,
) -> io::Result<()> {
    write_act(rt, acted)?;
    write_asks(rt, floor)
}

fn write_act(rt: HostRuntime, acted: Result<Acted, ActRefusal>) -> io::Result<()> {
    match acted {
        Ok(acted) => write_acted(rt, &acted),
        Err(refusal) => write_refusal(rt, refusal),
    }
}

fn write_acted(rt: HostRuntime, acted: &Acted) -> io::Result<()> {
    println!(rt; "  number {}, due {:?}", acted.number, acted.due)?;
    write_event(rt, &acted.event)?;
    println!(rt; "  told {:?}", acted.told.value)
}

fn write_event(rt: HostRuntime, event: &Event) -> io::Result<()> {
    println!(rt; "  {event:?}")
}

fn write_refusal(rt: HostRuntime, refusal: ActRefusal) -> io::Result<()> {
    println!(rt; "  refused {refusal:?}")
}

/// Writes a number, and what it is.
fn write_number(rt: HostRuntime, what: &str, number: u64) -> io::Result<()> {
    println!(rt; "  {what} {number}")
}

/// Writes whether something is so.
fn write_yes(rt: HostRuntime, what: &str, yes: bool) -> io::Result<()> {
    println!(rt; "  {what} {yes}")
}

/// Writes who is asked for dispatch.
fn write_asks(rt: HostRuntime, floor: &PlainFloor<'_>) -> io::Result<()> {
    write_number(rt, "asked", floor.asked(CpuNo(0), 2))?;
    write_yes(rt, "asks 0", floor.asks(0, CpuNo(0), 2))?;
    write_yes(rt, "asks 1", floor.asks(0, CpuNo(1), 2))
}

fn words(rt: HostRuntime, script: &Script, floor: &mut PlainFloor<'_>) -> io::Result<()>
    requires fits { IsTrue (fits script.now) }
    requires cpus { script.now.cpus ≡ 2 }
    requires objects { length script.now.dpcs ≡ 1 }
    requires threads { length script.now.threads ≡ 1 }
    requires fresh { IsFresh script.now 4 floor.old }
{
    let n = floor.draw(&a_rest(CpuNo(0)));
    floor.mark(CpuNo(1), 3, n);
    let looks = [floor.look(CpuNo(1), 3), floor.look(CpuNo(0), 3)];
    write_words(rt, floor, n, looks)
}

/// Writes the number that was drawn, what the looks at both processors gave, and the marks.
fn write_words(rt: HostRuntime, floor: &PlainFloor<'_>, n: u64, looks: [u64; 2]) -> io::Result<()> {
    write_number(rt, "drawn", n)?;
    write_number(rt, "look at 1", looks[0])?;
    write_number(rt, "look at 0", looks[1])?;
    write_marks(rt, floor, n)
}

fn write_marks(rt: HostRuntime, floor: &PlainFloor<'_>, n: u64) -> io::Result<()> {
    write_yes(rt, "class 3 is marked", floor.asks(n, CpuNo(1), 3))?;
    write_yes(rt, "class 4 is marked", floor.asks(n, CpuNo(1), 4))?;
    write_number(rt, "asked of no processor", floor.asked(CpuNo(2), 3))
}

/// Writes the ready thread that a processor would take, if any.
fn write_next(rt: HostRuntime, of: &str, thread: Option<ThreadNo>) -> io::Result<()> {
    println!(rt; "  next of {of} {thread:?}")
}

/// Writes the event that was made, or why none was.
fn write_made(rt: HostRuntime, acted: Result<Acted, ActRefusal>) -> io::Result<()> {
    match acted {
        Ok(acted) => write_event(rt, &acted.event),
        Err(refusal) => write_refusal(rt, refusal),
    }
}

fn a_wrong_choice(rt: HostRuntime, script: &Script, floor: &mut PlainFloor<'_>) -> io::Result<()>
    requires fits { IsTrue (fits script.now) }
    requires cpus { script.now.cpus ≡ 2 }
    requires objects { length script.now.dpcs ≡ 1 }
    requires threads { length script.now.threads ≡ 1 }
    requires fresh { IsFresh script.now 4 floor.old }
{
    let frames = frames(rt.alloc(), CpuNo(0))?;
    choose_over(rt, script, floor, &frames)
}

/// The choice where these are the frames of processor 0.
fn choose_over(
    rt: HostRuntime,
    script: &Script,
    floor: &mut PlainFloor<'_>,
    frames: &Frames,
) -> io::Result<()>
    requires fits { IsTrue (fits script.now) }
    requires cpus { script.now.cpus ≡ 2 }
    requires objects { length script.now.dpcs ≡ 1 }
    requires threads { length script.now.threads ≡ 1 }
    requires fresh { IsFresh script.now 4 floor.old }
    requires frames { frames.now ≡ begun 7 (Body.Dpc (record { 0 = 0 })) (no_frames 1) }
{
    let next = [
        floor.next_ready(CpuNo(1), None),
        floor.next_ready(CpuNo(0), None),
    ];
    let taken = Job::Switch(ThreadNo(0));
    let stand = StandView::new(CpuNo(0), frames, false);
    write_choice(rt, next, act(floor, taken, &stand))
}

/// Writes the ready threads that processors 1 and 0 would take, and what came of a choice.
fn write_choice(
    rt: HostRuntime,
    next: [Option<ThreadNo>; 2],
    acted: Result<Acted, ActRefusal>,
) -> io::Result<()> {
    write_next(rt, "1", next[0])?;
    write_next(rt, "0", next[1])?;
    write_made(rt, acted)
}

fn nothing_to_do(rt: HostRuntime, script: &Script, floor: &mut PlainFloor<'_>) -> io::Result<()>
    requires fits { IsTrue (fits script.now) }
    requires cpus { script.now.cpus ≡ 2 }
    requires objects { length script.now.dpcs ≡ 1 }
    requires threads { length script.now.threads ≡ 1 }
    requires fresh { IsFresh script.now 4 floor.old }
{
    let frames = frames(rt.alloc(), CpuNo(1))?;
    idle_over(rt, script, floor, &frames)
}

/// An idle processor's job where these are the frames of processor 1.
fn idle_over(
    rt: HostRuntime,
    script: &Script,
    floor: &mut PlainFloor<'_>,
    frames: &Frames,
) -> io::Result<()>
    requires fits { IsTrue (fits script.now) }
    requires cpus { script.now.cpus ≡ 2 }
    requires objects { length script.now.dpcs ≡ 1 }
    requires threads { length script.now.threads ≡ 1 }
    requires fresh { IsFresh script.now 4 floor.old }
    requires frames { frames.now ≡ begun 7 (Body.Dpc (record { 0 = 0 })) (no_frames 1) }
{
    let stand = StandView::new(CpuNo(1), frames, false);
    write_made(rt, act(floor, Job::Idle, &stand))
}
