//! The state of a thread: each call with its answer, and the tests at a wait as a table.
use crate::writing::{no_such_case, write, write_both};
use nt_thread::{
    AlertAnswer, ApcAnswer, ApcKind, ApcNo, Level, Mode, Pick, Regions, ThreadState, WaitAnswer,
    WaitSpec,
};
use std::alloc::{AllocError, Global};
use std::io;

const FREE: Regions = Regions {
    crit: 0,
    guard: 0,
    busy: false,
};

/// Writes the answers of a case.
pub fn answer(rt: HostRuntime, case: &str) -> io::Result<()> {
    match case {
        "tests at a wait in their order" => tests_at_a_wait(rt),
        _ => answer_of_a_thread(rt, case),
    }
}

/// Writes the answers of a case that begins with a running thread.
fn answer_of_a_thread(rt: HostRuntime, case: &str) -> io::Result<()> {
    let mut thread = running(rt.alloc())?;
    make_calls(rt, case, &mut thread)
}

fn make_calls(rt: HostRuntime, case: &str, thread: &mut ThreadState) -> io::Result<()> {
    match case {
        "a mark ends a plain user wait" => a_mark_ends_a_wait(rt, thread),
        "a release ends a wait and no delay" => a_release(rt, thread),
        "a delay ends under its own number" => a_delay(rt, thread),
        "an alert ends an alertable wait of its mode" => an_alert(rt, thread),
        "a user apc ends an alertable user wait" => a_user_apc(rt, thread),
        "a wait that a kernel apc interrupts is taken up again" => an_interrupted_wait(rt, thread),
        "a thread gives way and runs down" => a_rundown(rt, thread),
        _ => no_such_case(rt),
    }
}

/// What is done to a running thread before it waits.
#[derive(Clone, Copy)]
struct Before {
    kernel_apc: bool,
    released: bool,
    alerted_kernel: bool,
    alerted_user: bool,
    user_apc: bool,
}

const NOTHING: Before = Before {
    kernel_apc: false,
    released: false,
    alerted_kernel: false,
    alerted_user: false,
    user_apc: false,
};

/// What each test at a wait asks for.
const ALL: Before = Before {
    kernel_apc: true,
    released: true,
    alerted_kernel: true,
    alerted_user: true,
    user_apc: true,
};

/// What the tests from the second on ask for, and so on.
const SECOND: Before = Before {
    kernel_apc: false,
    ..ALL
};

const THIRD: Before = Before {
    released: false,
    ..SECOND
};

const FOURTH: Before = Before {
    alerted_user: false,
    ..THIRD
};

const FIFTH: Before = Before {
    user_apc: false,
    ..FOURTH
};

const OF_USER_MODE: Before = Before {
    alerted_user: true,
    user_apc: true,
    ..NOTHING
};

fn running(alloc: Global) -> Result<ThreadState, AllocError> {
    let mut thread = ThreadState::new(alloc, 4)?;
    if thread.is_ready() {
        let _ = thread.resume();
    }
    Ok(thread)
}

fn prepared(alloc: Global, before: Before) -> Result<ThreadState, AllocError> {
    let mut thread = running(alloc)?;
    if before.kernel_apc {
        let _ = thread.apc(ApcNo(0), ApcKind::Normal, 1);
    }
    if before.user_apc {
        let _ = thread.apc(ApcNo(1), ApcKind::User, 2);
    }
    if before.released {
        let _ = thread.release();
    }
    if before.alerted_kernel {
        let _ = thread.alert(Mode::Kernel);
    }
    if before.alerted_user {
        let _ = thread.alert(Mode::User);
    }
    Ok(thread)
}

fn wait(mode: Mode, alertable: bool) -> WaitSpec {
    WaitSpec {
        mode,
        alertable,
        reached: None,
        set: 9,
    }
}

/// Writes what would end the wait: a release, the expiry of the delay 9, an alert of each mode, an
/// APC of each kind.
fn write_endings(rt: HostRuntime, thread: &ThreadState) -> io::Result<()> {
    println!(rt;
        "  ends by release {}, expiry {}, alerts {} {}, APCs {} {} {}",
        thread.ends_by_release(),
        thread.ends_by_expiry(9),
        thread.ends_by_alert(Mode::Kernel),
        thread.ends_by_alert(Mode::User),
        thread.ends_by_apc(ApcKind::Special),
        thread.ends_by_apc(ApcKind::Normal),
        thread.ends_by_apc(ApcKind::User)
    )
}

/// Writes what a wait would answer, and what it answers, of a thread to which something was done
/// before.
fn write_tests(
    rt: HostRuntime,
    name: &str,
    before: Before,
    mode: Mode,
    alertable: bool,
) -> io::Result<()> {
    let (would, does) = tests(rt.alloc(), before, wait(mode, alertable))?;
    println!(rt; "  {name}, {mode:?}, alertable {alertable}: {would:?} {does:?}")
}

/// What the wait would answer, and what it answers.
fn tests(
    alloc: Global,
    before: Before,
    spec: WaitSpec,
) -> Result<(WaitAnswer, WaitAnswer), AllocError> {
    let mut thread = prepared(alloc, before)?;
    let would = thread.wait_answer(spec, FREE, Level::PASSIVE);
    let does = thread.wait(spec, FREE, Level::PASSIVE);
    Ok((would, does))
}

fn tests_at_a_wait(rt: HostRuntime) -> io::Result<()> {
    write_tests(rt, "from the first test", ALL, Mode::User, true)?;
    write_tests(rt, "from the second", SECOND, Mode::User, true)?;
    write_tests(rt, "from the third", THIRD, Mode::User, true)?;
    write_tests(rt, "from the fourth", FOURTH, Mode::User, true)?;
    write_tests(rt, "from the fifth", FIFTH, Mode::User, true)?;
    write_tests(rt, "nothing", NOTHING, Mode::User, true)?;
    write_tests(rt, "from the fourth", FOURTH, Mode::Kernel, true)?;
    write_tests(
        rt,
        "alert and APC of user mode",
        OF_USER_MODE,
        Mode::Kernel,
        true,
    )?;
    write_tests(rt, "from the third", THIRD, Mode::User, false)?;
    write_tests(rt, "from the second", SECOND, Mode::User, false)?;
    write_tests(rt, "from the first test", ALL, Mode::Kernel, false)
}

/// Writes what a wait answered once an APC was taken.
fn write_taken(rt: HostRuntime, answer: WaitAnswer) -> io::Result<()> {
    println!(rt; "  wait {answer:?} once it is taken")
}

/// Resumes the thread and writes the status, if it is ready.
fn resumed(rt: HostRuntime, thread: &mut ThreadState) -> io::Result<()> {
    if thread.is_ready() {
        write(rt, "resume", &thread.resume())?;
    }
    Ok(())
}

fn a_mark_ends_a_wait(rt: HostRuntime, thread: &mut ThreadState) -> io::Result<()> {
    write(rt, "apc", &thread.apc(ApcNo(1), ApcKind::User, 2))?;
    write(rt, "user due", &thread.user_due())?;
    write(rt, "test alert", &thread.test_alert(Mode::User))?;
    write(rt, "user due", &thread.user_due())?;
    let plain = wait(Mode::User, false);
    write(rt, "wait", &thread.wait(plain, FREE, Level::PASSIVE))?;
    thread.take(Pick {
        apc: ApcNo(1),
        kind: ApcKind::User,
        number: 2,
    });
    write_taken(rt, thread.wait(plain, FREE, Level::PASSIVE))
}

fn a_release(rt: HostRuntime, thread: &mut ThreadState) -> io::Result<()> {
    let plain = wait(Mode::Kernel, false);
    write(rt, "wait", &thread.wait(plain, FREE, Level::APC))?;
    write(rt, "level", &thread.level().number())?;
    write_endings(rt, thread)?;
    write(rt, "end delay", &thread.end_delay(9))?;
    write(rt, "status", &thread.status())?;
    write(rt, "release", &thread.release())?;
    write(rt, "status", &thread.status())?;
    write(rt, "ready", &thread.is_ready())?;
    resumed(rt, thread)?;
    write(rt, "running", &thread.is_running())
}

fn a_delay(rt: HostRuntime, thread: &mut ThreadState) -> io::Result<()> {
    let delay = WaitSpec {
        reached: Some(false),
        ..wait(Mode::Kernel, false)
    };
    write(rt, "wait", &thread.wait(delay, FREE, Level::PASSIVE))?;
    write_endings(rt, thread)?;
    write(rt, "release", &thread.release())?;
    write(rt, "end delay 8", &thread.end_delay(8))?;
    write(rt, "end delay 9", &thread.end_delay(9))?;
    write(rt, "end delay 9", &thread.end_delay(9))
}

fn an_alert(rt: HostRuntime, thread: &mut ThreadState) -> io::Result<()> {
    let alertable = wait(Mode::User, true);
    write(rt, "wait", &thread.wait(alertable, FREE, Level::PASSIVE))?;
    write_endings(rt, thread)?;
    write(rt, "alert", &thread.alert(Mode::User))?;
    write(rt, "was alerted", &thread.was_alerted(Mode::User))?;
    write(rt, "alert", &thread.alert(Mode::User))?;
    write(rt, "was alerted", &thread.was_alerted(Mode::User))?;
    write(rt, "alert", &thread.alert(Mode::User))?;
    write(rt, "test alert", &thread.test_alert(Mode::User))?;
    write(rt, "test alert", &thread.test_alert(Mode::User))
}

fn a_user_apc(rt: HostRuntime, thread: &mut ThreadState) -> io::Result<()> {
    let alertable = wait(Mode::User, true);
    write(rt, "wait", &thread.wait(alertable, FREE, Level::PASSIVE))?;
    write_both(
        rt,
        "takes",
        &thread.takes(ApcNo(1)),
        "first",
        &thread.user_first(),
    )?;
    write(
        rt,
        "apc answer",
        &thread.apc_answer(ApcNo(1), ApcKind::User),
    )?;
    write(rt, "apc", &thread.apc(ApcNo(1), ApcKind::User, 20))?;
    write_both(
        rt,
        "takes",
        &thread.takes(ApcNo(1)),
        "first",
        &thread.user_first(),
    )?;
    write(rt, "unapc", &thread.unapc(ApcNo(1)))?;
    write(rt, "unapc", &thread.unapc(ApcNo(1)))
}

/// A normal kernel APC waits for the end of a critical region, and a special one ends the wait.
fn an_interrupted_wait(rt: HostRuntime, thread: &mut ThreadState) -> io::Result<()> {
    let spec = wait(Mode::Kernel, false);
    let critical = Regions { crit: 1, ..FREE };
    write(rt, "wait", &thread.wait(spec, critical, Level::PASSIVE))?;
    write(rt, "apc 3", &thread.apc(ApcNo(3), ApcKind::Normal, 11))?;
    write(rt, "apc 0", &thread.apc(ApcNo(0), ApcKind::Special, 12))?;
    write(rt, "has kernel", &thread.has_kernel())?;
    resumed(rt, thread)?;
    write(
        rt,
        "deliverable",
        &thread.deliverable(critical, Level::PASSIVE),
    )?;
    thread.take(Pick {
        apc: ApcNo(0),
        kind: ApcKind::Special,
        number: 12,
    });
    write_taken(rt, thread.wait(spec, critical, Level::PASSIVE))?;
    write(rt, "release", &thread.release())
}

/// What is left of a thread once its base routine has ended.
fn a_rundown(rt: HostRuntime, thread: &mut ThreadState) -> io::Result<()> {
    thread.give_way(Level::APC);
    write(rt, "level", &thread.level().number())?;
    resumed(rt, thread)?;
    write(rt, "apc 1", &thread.apc(ApcNo(1), ApcKind::User, 4))?;
    write(rt, "apc 2", &thread.apc(ApcNo(2), ApcKind::User, 5))?;
    thread.leave();
    write(rt, "leaving", &thread.is_leaving())?;
    write(rt, "apc 3", &thread.apc(ApcNo(3), ApcKind::User, 8))?;
    run_down(rt, thread)
}

/// Flushes the thread that leaves, which is gone then.
fn run_down(rt: HostRuntime, thread: &mut ThreadState) -> io::Result<()> {
    write(rt, "flush", &thread.flush())?;
    write(rt, "flush", &thread.flush())?;
    let last = thread.flush();
    write(rt, "flush", &last)?;
    if last.is_none() {
        thread.gone();
    }
    write_both(
        rt,
        "gone",
        &thread.is_gone(),
        "leaving",
        &thread.is_leaving(),
    )?;
    write(rt, "release", &thread.release())?;
    write(rt, "alert", &thread.alert(Mode::Kernel))?;
    write(rt, "alert", &thread.alert(Mode::Kernel))
}
