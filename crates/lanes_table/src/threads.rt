//! The threads of a small script, by the events that its processors make.
ghost use Rattle.std.specs.Prelude.{◌≡◌, ◌<◌, IsTrue, None, length};
ghost use Rattle.nt_event.specs.declared.events.What.TheVariants.{Call};
ghost use Rattle.nt_event.specs.Script.{fits, has_apc, has_thread};

use crate::scripts::empty_script;
use nt_event::{
    ApcDecl, ApcKind, ApcNo, Command, CpuNo, Event, Items, Level, Mode, Pick, Regions, Reply,
    RoutineNo, Script, ThreadDecl, ThreadNo, What,
};
use nt_frame::{Frames, StandView};
use nt_states::ThreadAnswers;
use nt_thread_lanes::Threads;
use std::alloc::{AllocError, Global};
use std::io;

/// Writes the answers of a case.
pub fn answer(rt: HostRuntime, case: &str) -> io::Result<()> {
    let script = script(rt.alloc())?;
    answer_if_fit(rt, case, &script)
}

/// Writes the answers of a case of the small script, where it fits.
fn answer_if_fit(rt: HostRuntime, case: &str, script: &Script) -> io::Result<()> {
    if script.fits() && script.threads.len() == 3 && script.apcs.len() == 2 {
        answer_of(rt, case, script)
    } else {
        println!(rt; "  no fit")
    }
}

/// Writes the answers of a case of the small script.
fn answer_of(rt: HostRuntime, case: &str, script: &Script) -> io::Result<()>
    requires fits { IsTrue (fits script.now) }
    requires threads { length script.now.threads ≡ 3 }
    requires apcs { length script.now.apcs ≡ 2 }
{
    let mut threads = Threads::new(rt.alloc(), script)?;
    make_calls(rt, case, script, &mut threads)
}

/// Makes the calls of a case, with threads that have not run.
fn make_calls(
    rt: HostRuntime,
    case: &str,
    script: &Script,
    threads: &mut Threads<'_>,
) -> io::Result<()>
    requires fits { IsTrue (fits script.now) }
    requires script { threads.old.script ≡ script.now }
    requires threads { length script.now.threads ≡ 3 }
    requires apcs { length script.now.apcs ≡ 2 }
{
    match case {
        "ready threads are taken in a cycle" => ready_threads_are_taken_in_a_cycle(
            rt, script, threads,
        ),
        "a release ends a wait" => a_release_ends_a_wait(rt, script, threads),
        "a release is told to a record of another processor" => a_release_is_told(
            rt, script, threads,
        ),
        "apcs are inserted and removed" => apcs_are_inserted_and_removed(rt, script, threads),
        "a user apc ends an alertable wait at once" => {
            a_user_apc_ends_an_alertable_wait(rt, script, threads)
        }
        _ => println!(rt; "  no such case"),
    }
}

const FREE: Regions = Regions {
    crit: 0,
    guard: 0,
    busy: false,
};

/// The threads of the script.
const THREADS: u32 = 3;

/// A processor that isn't the first thread's.
const OTHER: CpuNo = CpuNo(1);

const FIRST: ThreadNo = ThreadNo(0);

const SECOND: ThreadNo = ThreadNo(1);

const THIRD: ThreadNo = ThreadNo(2);

const KERNEL_APC: ApcNo = ApcNo(0);

const USER_APC: ApcNo = ApcNo(1);

fn bound_to(cpu: u8) -> ThreadDecl {
    ThreadDecl {
        cpu: CpuNo(cpu),
        routine: RoutineNo(0),
    }
}

fn normal_apc(kind: ApcKind) -> ApcDecl {
    ApcDecl {
        kind,
        thread: FIRST,
        kernel: RoutineNo(0),
        normal: Some(RoutineNo(0)),
        rundown: None,
    }
}

/// The first and the last thread on processor 0, the second on processor 1; a normal kernel APC and
/// a user APC of the first.
fn script(alloc: Global) -> Result<Script, AllocError> {
    let mut made = empty_script(alloc, None)?;
    declare(&mut made.threads, &mut made.apcs)?;
    Ok(made)
}

/// Adds the threads and the APCs.
fn declare(threads: &mut Items<ThreadDecl>, apcs: &mut Items<ApcDecl>) -> Result<(), AllocError> {
    threads.push(bound_to(0))?;
    threads.push(bound_to(1))?;
    threads.push(bound_to(0))?;
    apcs.push(normal_apc(ApcKind::Normal))?;
    apcs.push(normal_apc(ApcKind::User))
}

/// A call, by a routine on the processor's own part or of this thread.
fn call(cpu: CpuNo, thread: Option<ThreadNo>, command: Command, reply: Reply) -> Event
    ensures cpu { result.cpu ≡ cpu }
    ensures thread { result.thread ≡ thread }
    ensures what { result.what ≡ Call 0 command reply }
{
    Event {
        cpu,
        thread,
        level: Level::PASSIVE,
        what: What::Call {
            frame: 0,
            command,
            reply,
        },
    }
}

/// The thread is taken up, where it is ready.
fn take_up(
    alloc: Global,
    threads: &mut Threads<'_>,
    script: &Script,
    t: ThreadNo,
) -> Result<(), AllocError>
    requires fits { IsTrue (fits script.now) }
    requires script { threads.old.script ≡ script.now }
    requires thread { IsTrue (has_thread script.now t) }
    ensures { threads.new.script ≡ script.now }
{
    let frames = Frames::new(alloc, script.cpu_of(t), THREADS)?;
    let cpu = script.cpu_of(t);
    let status = threads.status(t);
    if threads.is_ready(t) {
        let event = Event {
            cpu,
            thread: Some(t),
            level: Level::PASSIVE,
            what: What::Switch { thread: t, status },
        };
        threads.leave(1, &StandView::new(cpu, &frames, false), &event);
    }
    Ok(())
}

/// The thread waits in kernel mode, where it runs, at a level of at most APC_LEVEL.
fn wait(
    alloc: Global,
    threads: &mut Threads<'_>,
    script: &Script,
    t: ThreadNo,
) -> Result<(), AllocError>
    requires fits { IsTrue (fits script.now) }
    requires script { threads.old.script ≡ script.now }
    requires thread { IsTrue (has_thread script.now t) }
    requires three { t.0 < 3 }
    ensures { threads.new.script ≡ script.now }
{
    let cpu = script.cpu_of(t);
    let mut frames = Frames::new(alloc, cpu, THREADS)?;
    frames.switch_to(t);
    let stand = StandView::new(cpu, &frames, false);
    let (regions, level) = (stand.regions(), stand.level());
    let reply = threads.wait_reply(t, regions, level, Mode::Kernel, false, None);
    if threads.is_running(t) && level.number() <= 1 {
        let command = Command::StartWait(Mode::Kernel, false);
        let event = call(cpu, Some(t), command, reply);
        threads.leave(2, &stand, &event);
    }
    Ok(())
}

fn release(alloc: Global, threads: &mut Threads<'_>, t: ThreadNo) -> Result<(), AllocError>
    requires { IsTrue (has_thread threads.old.script t) }
    ensures { threads.new.script ≡ threads.old.script }
{
    let reply = Reply::yes_if(threads.ends_by_release(t));
    let event = call(OTHER, None, Command::Release(t), reply);
    let frames = Frames::new(alloc, OTHER, THREADS)?;
    threads.leave(3, &StandView::new(OTHER, &frames, false), &event);
    Ok(())
}

/// The same, of a record in which the processor of the release tells nothing.
fn tell_release(threads: &mut Threads<'_>, t: ThreadNo)
    requires { IsTrue (has_thread threads.old.script t) }
    ensures { threads.new.script ≡ threads.old.script }
{
    let reply = Reply::yes_if(threads.ends_by_release(t));
    let event = call(OTHER, None, Command::Release(t), reply);
    threads.tell(t, 3, &event.what);
}

fn insert(alloc: Global, threads: &mut Threads<'_>, a: ApcNo, n: u64) -> Result<(), AllocError>
    requires { IsTrue (has_apc threads.old.script a) }
    ensures { threads.new.script ≡ threads.old.script }
{
    let reply = Reply::yes_if(threads.takes(a));
    let event = call(OTHER, None, Command::InsertApc(a), reply);
    let frames = Frames::new(alloc, OTHER, THREADS)?;
    threads.leave(n, &StandView::new(OTHER, &frames, false), &event);
    Ok(())
}

fn remove(alloc: Global, threads: &mut Threads<'_>, a: ApcNo) -> Result<(), AllocError>
    requires { IsTrue (has_apc threads.old.script a) }
    ensures { threads.new.script ≡ threads.old.script }
{
    let reply = Reply::yes_if(threads.is_inserted(a));
    let event = call(OTHER, None, Command::RemoveApc(a), reply);
    let frames = Frames::new(alloc, OTHER, THREADS)?;
    threads.leave(9, &StandView::new(OTHER, &frames, false), &event);
    Ok(())
}

/// Writes an answer that is yes or no.
fn write_yes(rt: HostRuntime, what: &str, yes: bool) -> io::Result<()> {
    println!(rt; "  {what} {yes}")
}

/// Writes the ready thread that is taken next, if any.
fn write_next(rt: HostRuntime, after: &str, thread: Option<ThreadNo>) -> io::Result<()> {
    println!(rt; "  {after} {thread:?}")
}

/// Writes two answers that are yes or no: a name, the first answer, another name, the second.
fn write_two(
    rt: HostRuntime,
    first: &str,
    is_first: bool,
    second: &str,
    is_second: bool,
) -> io::Result<()> {
    println!(rt; "  {first} {is_first}, {second} {is_second}")
}

fn ready_threads_are_taken_in_a_cycle(
    rt: HostRuntime,
    script: &Script,
    threads: &Threads<'_>,
) -> io::Result<()>
    requires fits { IsTrue (fits script.now) }
    requires script { threads.now.script ≡ script.now }
    requires threads { length script.now.threads ≡ 3 }
    requires apcs { length script.now.apcs ≡ 2 }
{
    let (own, other) = (CpuNo(0), CpuNo(1));
    let after = Some(SECOND);
    write_next(rt, "next of 0", threads.next_ready(own, None))?;
    write_next(rt, "after the first", threads.next_ready(own, Some(FIRST)))?;
    write_next(rt, "after the third", threads.next_ready(own, Some(THIRD)))?;
    write_next(
        rt,
        "next of 1 after its own",
        threads.next_ready(other, after),
    )?;
    let any = (threads.any_ready(other), threads.any_ready(CpuNo(2)));
    write_two(rt, "any of 1", any.0, "of 2", any.1)?;
    let may = (
        threads.may_take(other, SECOND),
        threads.may_take(own, SECOND),
    );
    write_two(rt, "the second by 1", may.0, "by 0", may.1)
}

/// Writes whether the thread, which was taken up, runs, is ready and leaves.
fn write_taken_up(rt: HostRuntime, runs: bool, ready: bool, leaves: bool) -> io::Result<()> {
    println!(rt; "  taken up: runs {runs}, ready {ready}, leaves {leaves}")
}

/// Writes whether the thread, which waits, runs, and whether a release, the expiry of its delay and
/// an alert end its wait.
fn write_waits(rt: HostRuntime, runs: bool, ends: [bool; 3]) -> io::Result<()> {
    println!(rt;
        "  waits: runs {runs}, by release {}, by expiry {}, by alert {}",
        ends[0], ends[1], ends[2]
    )
}

/// Writes whether the thread, which was released, is ready, with which status and at which level.
fn write_released(
    rt: HostRuntime,
    ready: bool,
    status: Option<u32>,
    level: Level,
) -> io::Result<()> {
    println!(rt;
        "  released: ready {ready}, status {status:?}, level {}",
        level.number()
    )
}

fn a_release_ends_a_wait(
    rt: HostRuntime,
    script: &Script,
    threads: &mut Threads<'_>,
) -> io::Result<()>
    requires fits { IsTrue (fits script.now) }
    requires script { threads.old.script ≡ script.now }
    requires threads { length script.now.threads ≡ 3 }
    requires apcs { length script.now.apcs ≡ 2 }
{
    let t = FIRST;
    take_up(rt.alloc(), threads, script, t)?;
    write_taken_up(
        rt,
        threads.is_running(t),
        threads.is_ready(t),
        threads.is_leaving(t),
    )?;
    wait(rt.alloc(), threads, script, t)?;
    let ends = [
        threads.ends_by_release(t),
        threads.ends_by_expiry(t, 2),
        threads.ends_by_alert(t, Mode::Kernel),
    ];
    write_waits(rt, threads.is_running(t), ends)?;
    release(rt.alloc(), threads, t)?;
    write_released(rt, threads.is_ready(t), threads.status(t), threads.level(t))
}

fn write_told(rt: HostRuntime, ready: bool, status: Option<u32>) -> io::Result<()> {
    println!(rt; "  told: ready {ready}, status {status:?}")
}

/// The second thread's release, which is told and not left.
fn a_release_is_told(rt: HostRuntime, script: &Script, threads: &mut Threads<'_>) -> io::Result<()>
    requires fits { IsTrue (fits script.now) }
    requires script { threads.old.script ≡ script.now }
    requires threads { length script.now.threads ≡ 3 }
    requires apcs { length script.now.apcs ≡ 2 }
{
    take_up(rt.alloc(), threads, script, SECOND)?;
    wait(rt.alloc(), threads, script, SECOND)?;
    tell_release(threads, SECOND);
    write_told(rt, threads.is_ready(SECOND), threads.status(SECOND))
}

fn write_inserted(rt: HostRuntime, inserted: bool, takes: bool, kernel: bool) -> io::Result<()> {
    println!(rt; "  inserted {inserted}, takes {takes}, kernel {kernel}")
}

/// Writes the APC of which something is asked, if there is one.
fn write_pick(rt: HostRuntime, what: &str, pick: Option<Pick>) -> io::Result<()> {
    println!(rt; "  {what} {pick:?}")
}

fn apcs_are_inserted_and_removed(
    rt: HostRuntime,
    script: &Script,
    threads: &mut Threads<'_>,
) -> io::Result<()>
    requires fits { IsTrue (fits script.now) }
    requires script { threads.old.script ≡ script.now }
    requires threads { length script.now.threads ≡ 3 }
    requires apcs { length script.now.apcs ≡ 2 }
{
    let a = KERNEL_APC;
    write_yes(rt, "ends a wait", threads.ends_by_apc(a))?;
    insert(rt.alloc(), threads, a, 4)?;
    write_inserted(
        rt,
        threads.is_inserted(a),
        threads.takes(a),
        threads.has_kernel(FIRST),
    )?;
    write_pick(
        rt,
        "deliverable",
        threads.deliverable(FIRST, FREE, Level::PASSIVE),
    )?;
    remove(rt.alloc(), threads, a)?;
    let kernel = threads.has_kernel(FIRST);
    write_two(
        rt,
        "removed: inserted",
        threads.is_inserted(a),
        "kernel",
        kernel,
    )
}

/// Writes what a wait of this thread in user mode would answer.
fn write_wait(rt: HostRuntime, what: &str, reply: Reply) -> io::Result<()> {
    println!(rt; "  {what} {reply:?}")
}

fn a_user_apc_ends_an_alertable_wait(
    rt: HostRuntime,
    script: &Script,
    threads: &mut Threads<'_>,
) -> io::Result<()>
    requires fits { IsTrue (fits script.now) }
    requires script { threads.old.script ≡ script.now }
    requires threads { length script.now.threads ≡ 3 }
    requires apcs { length script.now.apcs ≡ 2 }
{
    insert(rt.alloc(), threads, USER_APC, 5)?;
    write_pick(rt, "first", threads.user_first(FIRST))?;
    write_pick(rt, "due", threads.user_due(FIRST))?;
    let alertable = threads.wait_reply(FIRST, FREE, Level::PASSIVE, Mode::User, true, None);
    write_wait(rt, "alertable", alertable)?;
    let plain = threads.wait_reply(FIRST, FREE, Level::PASSIVE, Mode::User, false, None);
    write_wait(rt, "plain", plain)?;
    let gone = threads.is_gone(FIRST);
    write_two(
        rt,
        "alerted",
        threads.is_alerted(FIRST, Mode::User),
        "gone",
        gone,
    )
}
