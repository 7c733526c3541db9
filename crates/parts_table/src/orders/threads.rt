//! The state of a thread, which is ready and has not run.
use crate::writing::{no_such_case, write};
use nt_thread::{ApcKind, ApcNo, Level, Mode, Pick, Regions, ThreadState, WaitAnswer, WaitSpec};
use std::io;

const FREE: Regions = Regions {
    crit: 0,
    guard: 0,
    busy: false,
};

/// A wait of kernel mode that no alert ends.
const PLAIN: WaitSpec = WaitSpec {
    mode: Mode::Kernel,
    alertable: false,
    reached: None,
    set: 9,
};

const ALERTABLE: WaitSpec = WaitSpec {
    alertable: true,
    ..PLAIN
};

/// A delay whose due time is not reached, set under another number than the waits.
const DELAY: WaitSpec = WaitSpec {
    reached: Some(false),
    set: 12,
    ..PLAIN
};

/// Writes the answers of a case.
pub fn answer(rt: HostRuntime, case: &str) -> io::Result<()> {
    let mut thread = ThreadState::new(rt.alloc(), 4)?;
    make_calls(rt, case, &mut thread)
}

/// Makes the calls of a case.
fn make_calls(rt: HostRuntime, case: &str, thread: &mut ThreadState) -> io::Result<()> {
    match case {
        "a thread is released that waits for nothing" => released(rt, thread),
        "a thread is alerted twice that waits for nothing" => alerted(rt, thread),
        "a delay ends that never began" => delay_never_began(rt, thread),
        "a thread waits that does not run" => waits_unrun(rt, thread),
        "a blocked thread waits again" => waits_again(rt, thread),
        "a blocked thread makes a wait that is over at once" => over_at_once(rt, thread),
        "a blocked thread gives way" => blocked_gives_way(rt, thread),
        "an apc is taken that is not queued" => taken_unqueued(rt, thread),
        "an apc is removed that was never inserted" => never_inserted(rt, thread),
        "a thread leaves twice" => leaves_twice(rt, thread),
        "a thread is gone that never left" => gone_unleft(rt, thread),
        _ => no_such_case(rt),
    }
}

fn wait(thread: &mut ThreadState, spec: WaitSpec) -> WaitAnswer {
    thread.wait(spec, FREE, Level::PASSIVE)
}

/// The thread is taken up, if it is ready.
fn resume(rt: HostRuntime, thread: &mut ThreadState) -> io::Result<()> {
    if thread.is_ready() {
        return write(rt, "resume", &thread.resume());
    }
    write(rt, "ready", &false)
}

/// The thread is gone, if it has no user APC.
fn go(rt: HostRuntime, thread: &mut ThreadState) -> io::Result<()> {
    if thread.user_first().is_none() {
        thread.gone();
    }
    write(rt, "gone", &thread.is_gone())
}

/// The released mark is kept once, however often it is set.
fn released(rt: HostRuntime, thread: &mut ThreadState) -> io::Result<()> {
    write(rt, "release", &thread.release())?;
    write(rt, "release", &thread.release())?;
    resume(rt, thread)?;
    write(rt, "wait", &wait(thread, PLAIN))?;
    write(rt, "wait", &wait(thread, PLAIN))
}

fn alerted(rt: HostRuntime, thread: &mut ThreadState) -> io::Result<()> {
    write(rt, "alert", &thread.alert(Mode::User))?;
    write(rt, "alert", &thread.alert(Mode::User))?;
    write(rt, "test alert", &thread.test_alert(Mode::User))?;
    write(rt, "test alert", &thread.test_alert(Mode::User))
}

fn delay_never_began(rt: HostRuntime, thread: &mut ThreadState) -> io::Result<()> {
    write(rt, "end delay", &thread.end_delay(9))?;
    resume(rt, thread)?;
    write(rt, "wait", &wait(thread, PLAIN))?;
    write(rt, "end delay", &thread.end_delay(9))?;
    write(rt, "release", &thread.release())?;
    write(rt, "end delay", &thread.end_delay(9))?;
    write(rt, "status", &thread.status())
}

fn waits_unrun(rt: HostRuntime, thread: &mut ThreadState) -> io::Result<()> {
    write(rt, "wait", &wait(thread, PLAIN))?;
    resume(rt, thread)?;
    write(rt, "release", &thread.release())?;
    resume(rt, thread)
}

/// The last wait is the one in which it is blocked.
fn waits_again(rt: HostRuntime, thread: &mut ThreadState) -> io::Result<()> {
    resume(rt, thread)?;
    write(rt, "wait", &wait(thread, PLAIN))?;
    write(rt, "delay", &wait(thread, DELAY))?;
    write(rt, "release", &thread.release())?;
    write(rt, "end delay", &thread.end_delay(9))?;
    write(rt, "end delay", &thread.end_delay(12))?;
    resume(rt, thread)?;
    write(rt, "wait", &wait(thread, PLAIN))
}

/// A wait that doesn't block leaves what the thread does as it is: it stays blocked in the first
/// wait.
fn over_at_once(rt: HostRuntime, thread: &mut ThreadState) -> io::Result<()> {
    resume(rt, thread)?;
    write(rt, "wait", &wait(thread, PLAIN))?;
    write(rt, "alert", &thread.alert(Mode::Kernel))?;
    write(rt, "wait", &wait(thread, ALERTABLE))?;
    resume(rt, thread)?;
    write(rt, "release", &thread.release())?;
    resume(rt, thread)
}

/// Its wait is given up, without a status.
fn blocked_gives_way(rt: HostRuntime, thread: &mut ThreadState) -> io::Result<()> {
    resume(rt, thread)?;
    write(rt, "wait", &wait(thread, PLAIN))?;
    thread.give_way(Level::APC);
    write(rt, "level", &thread.level().number())?;
    write(rt, "release", &thread.release())?;
    resume(rt, thread)
}

/// The user-pending mark is cleared, and the APC that is queued stays.
fn taken_unqueued(rt: HostRuntime, thread: &mut ThreadState) -> io::Result<()> {
    resume(rt, thread)?;
    write(rt, "apc", &thread.apc(ApcNo(1), ApcKind::User, 2))?;
    write(rt, "test alert", &thread.test_alert(Mode::User))?;
    write(rt, "user due", &thread.user_due())?;
    thread.take(Pick {
        apc: ApcNo(2),
        kind: ApcKind::User,
        number: 5,
    });
    write(rt, "user due", &thread.user_due())?;
    write(rt, "first user", &thread.user_first())
}

/// A thread that doesn't leave may be flushed too, and takes APCs afterwards.
fn never_inserted(rt: HostRuntime, thread: &mut ThreadState) -> io::Result<()> {
    write(rt, "unapc", &thread.unapc(ApcNo(1)))?;
    write(rt, "flush", &thread.flush())?;
    write(rt, "apc", &thread.apc(ApcNo(1), ApcKind::User, 4))?;
    write(rt, "flush", &thread.flush())?;
    write(rt, "unapc", &thread.unapc(ApcNo(1)))?;
    write(rt, "apc", &thread.apc(ApcNo(1), ApcKind::User, 5))
}

fn leaves_twice(rt: HostRuntime, thread: &mut ThreadState) -> io::Result<()> {
    thread.leave();
    thread.leave();
    write(rt, "leaving", &thread.is_leaving())?;
    write(rt, "apc", &thread.apc(ApcNo(0), ApcKind::User, 3))?;
    go(rt, thread)?;
    write(rt, "leaving", &thread.is_leaving())
}

/// Its doors are open still, and a wait blocks it: only the end of its base routine closes them,
/// and only the caller knows that a thread is gone.
fn gone_unleft(rt: HostRuntime, thread: &mut ThreadState) -> io::Result<()> {
    go(rt, thread)?;
    write(rt, "release", &thread.release())?;
    write(rt, "alert", &thread.alert(Mode::Kernel))?;
    write(rt, "alert", &thread.alert(Mode::Kernel))?;
    write(rt, "apc", &thread.apc(ApcNo(0), ApcKind::User, 3))?;
    write(rt, "wait", &wait(thread, PLAIN))?;
    write(rt, "release", &thread.release())?;
    resume(rt, thread)
}
