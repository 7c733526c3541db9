//! The tests behind `Script::fits`, one a condition.
ghost use Rattle.std.specs.Prelude.{◌≡◌, nat_le};
ghost use Rattle.std.specs.List.{list_all};
ghost use Rattle.nt_event.specs.Classes as classes;
ghost use Rattle.nt_event.specs.Script as spec;

use crate::{
    ApcDecl, ApcKind, ApcNo, Command, CpuNo, DpcDecl, DpcNo, Isr, Level, LockNo, Routine,
    RoutineNo, Script, ThreadDecl, ThreadNo, TimerDecl, TimerNo, class, limits,
};

pub(crate) fn isr_in(isrs: &[Isr], cpu: CpuNo, level: Level) -> Option<RoutineNo>
    ensures { result ≡ spec.isr_of isrs.now cpu level }
{
    let level = level.number();
    isrs.iter()
        .find(|isr| isr.cpu.0 == cpu.0 && isr.level.number() == level)
        .map(|isr| isr.routine)
}

fn has_cpu(script: &Script, cpu: CpuNo) -> bool
    ensures { result ≡ spec.has_cpu script.now cpu }
{
    cpu.0 < script.cpus
}

fn has_thread(script: &Script, thread: ThreadNo) -> bool
    ensures { result ≡ spec.has_thread script.now thread }
{
    (thread.0 as usize) < script.threads.len()
}

fn has_dpc(script: &Script, dpc: DpcNo) -> bool
    ensures { result ≡ spec.has_dpc script.now dpc }
{
    (dpc.0 as usize) < script.dpcs.len()
}

fn has_apc(script: &Script, apc: ApcNo) -> bool
    ensures { result ≡ spec.has_apc script.now apc }
{
    (apc.0 as usize) < script.apcs.len()
}

fn has_timer(script: &Script, timer: TimerNo) -> bool
    ensures { result ≡ spec.has_timer script.now timer }
{
    (timer.0 as usize) < script.timers.len()
}

fn has_lock(script: &Script, lock: LockNo) -> bool
    ensures { result ≡ spec.has_lock script.now lock }
{
    lock.0 < script.locks
}

fn has_routine(script: &Script, routine: RoutineNo) -> bool
    ensures { result ≡ spec.has_routine script.now routine }
{
    (routine.0 as usize) < script.routines.len()
}

fn has_routine_if_given(script: &Script, routine: Option<RoutineNo>) -> bool
    ensures { result ≡ spec.where_given (spec.has_routine script.now) routine }
{
    match routine {
        Some(routine) => has_routine(script, routine),
        None => true,
    }
}

fn is_requested_level(level: Level) -> bool
    ensures { result ≡ classes.is_requested_level level }
{
    let n = level.number();
    (3 <= n && n <= 11) || n == class::IPI
}

fn is_isr_level(level: Level) -> bool
    ensures { result ≡ classes.is_isr_level level }
{
    is_requested_level(level) || level.number() == class::CLOCK
}

/// Whether the routines have at most this many commands in all.
fn commands_at_most(routines: &[Routine], most: usize) -> bool
    ensures { result ≡ nat_le (spec.command_count routines.now) most }
{
    let mut left = most;
    for routine in routines {
        let count = routine.commands.len();
        if count > left {
            return false;
        }
        left -= count;
    }
    true
}

fn depth_fits(depth: Option<u32>) -> bool
    ensures { result ≡ spec.where_given (λ depth. nat_le depth 256) depth }
{
    match depth {
        Some(depth) => depth <= limits::DEPTH,
        None => true,
    }
}

pub(crate) fn meets_limits(script: &Script) -> bool
    ensures { result ≡ spec.meets_limits script.now }
{
    1 <= script.cpus
        && script.cpus <= limits::CPUS
        && depth_fits(script.depth)
        && script.threads.len() <= limits::THREADS
        && script.timers.len() <= limits::TIMERS
        && script.dpcs.len() <= limits::DPCS
        && script.apcs.len() <= limits::APCS
        && script.locks <= limits::LOCKS
        && script.routines.len() <= limits::ROUTINES
        && commands_at_most(script.routines.as_slice(), limits::COMMANDS)
}

fn isr_fits(script: &Script, isr: &Isr) -> bool
    ensures { result ≡ spec.isr_fits script.now isr.now }
{
    has_cpu(script, isr.cpu) && is_isr_level(isr.level) && has_routine(script, isr.routine)
}

pub(crate) fn isrs_fit(script: &Script, isrs: &[Isr]) -> bool
    ensures { result ≡ list_all (spec.isr_fits script.now) isrs.now }
{
    isrs.iter().all(|isr| isr_fits(script, isr))
}

/// Whether one of these interrupt routines is for the processor and the level.
fn stands_in(isrs: &[Isr], cpu: CpuNo, level: Level) -> bool
    ensures { result ≡ spec.stands_in isrs.now cpu level }
{
    let level = level.number();
    isrs.iter()
        .any(|isr| isr.cpu.0 == cpu.0 && isr.level.number() == level)
}

pub(crate) fn isrs_differ(isrs: &[Isr]) -> bool
    ensures { result ≡ spec.isrs_differ isrs.now }
{
    for (place, isr) in isrs.iter().enumerate() {
        if stands_in(&isrs[place + 1..], isr.cpu, isr.level) {
            return false;
        }
    }
    true
}

fn dpc_fits(script: &Script, dpc: &DpcDecl) -> bool
    ensures { result ≡ spec.dpc_fits script.now dpc.now }
{
    has_routine(script, dpc.routine)
}

pub(crate) fn dpcs_fit(script: &Script, dpcs: &[DpcDecl]) -> bool
    ensures { result ≡ list_all (spec.dpc_fits script.now) dpcs.now }
{
    dpcs.iter().all(|dpc| dpc_fits(script, dpc))
}

fn timer_fits(script: &Script, timer: &TimerDecl) -> bool
    ensures { result ≡ spec.timer_fits script.now timer.now }
{
    match timer.dpc {
        Some(dpc) => has_dpc(script, dpc),
        None => true,
    }
}

pub(crate) fn timers_fit(script: &Script, timers: &[TimerDecl]) -> bool
    ensures { result ≡ list_all (spec.timer_fits script.now) timers.now }
{
    timers.iter().all(|timer| timer_fits(script, timer))
}

fn thread_fits(script: &Script, thread: &ThreadDecl) -> bool
    ensures { result ≡ spec.thread_fits script.now thread.now }
{
    has_cpu(script, thread.cpu) && has_routine(script, thread.routine)
}

pub(crate) fn threads_fit(script: &Script, threads: &[ThreadDecl]) -> bool
    ensures { result ≡ list_all (spec.thread_fits script.now) threads.now }
{
    threads.iter().all(|thread| thread_fits(script, thread))
}

fn has_its_routines(apc: &ApcDecl) -> bool
    ensures { result ≡ spec.apc_has_its_routines apc.now.kind apc.now.normal apc.now.rundown }
{
    match apc.kind {
        ApcKind::Special => apc.normal.is_none() && apc.rundown.is_none(),
        ApcKind::Normal => apc.normal.is_some() && apc.rundown.is_none(),
        ApcKind::User => apc.normal.is_some(),
    }
}

fn apc_fits(script: &Script, apc: &ApcDecl) -> bool
    ensures { result ≡ spec.apc_fits script.now apc.now }
{
    has_thread(script, apc.thread)
        && has_routine(script, apc.kernel)
        && has_routine_if_given(script, apc.normal)
        && has_routine_if_given(script, apc.rundown)
        && has_its_routines(apc)
}

pub(crate) fn apcs_fit(script: &Script, apcs: &[ApcDecl]) -> bool
    ensures { result ≡ list_all (spec.apc_fits script.now) apcs.now }
{
    apcs.iter().all(|apc| apc_fits(script, apc))
}

fn target_fits(script: &Script, target: Option<CpuNo>) -> bool
    ensures { result ≡ spec.where_given (spec.has_cpu script.now) target }
{
    match target {
        Some(cpu) => has_cpu(script, cpu),
        None => true,
    }
}

fn command_fits(script: &Script, command: &Command) -> bool
    ensures { result ≡ spec.command_fits script.now command.now }
{
    match command {
        Command::Queue(dpc) | Command::Unqueue(dpc) | Command::SetImportance(dpc, _) => has_dpc(
            script, *dpc,
        ),
        Command::SetTarget(dpc, target) => has_dpc(script, *dpc) && target_fits(script, *target),
        Command::SetTimer(timer, _, _) | Command::CancelTimer(timer) => has_timer(script, *timer),
        Command::InsertApc(apc) | Command::RemoveApc(apc) => has_apc(script, *apc),
        Command::Release(thread) | Command::Alert(thread, _) => has_thread(script, *thread),
        Command::Acquire(lock) | Command::Unlock(lock) => has_lock(script, *lock),
        Command::Interrupt(cpu, level) => has_cpu(script, *cpu) && is_requested_level(*level),
        Command::Raise(_)
        | Command::Lower(_)
        | Command::EnterCrit
        | Command::EnterGuard
        | Command::LeaveCrit
        | Command::LeaveGuard
        | Command::StartWait(_, _)
        | Command::Delay(_, _, _)
        | Command::TestAlert(_)
        | Command::Clock(_)
        | Command::ToUser
        | Command::Yield
        | Command::Note(_) => true,
    }
}

fn routine_fits(script: &Script, routine: &Routine) -> bool
    ensures { result ≡ spec.routine_fits script.now routine.now }
{
    commands_fit(script, routine.commands.as_slice())
}

fn commands_fit(script: &Script, commands: &[Command]) -> bool
    ensures { result ≡ list_all (spec.command_fits script.now) commands.now }
{
    commands.iter().all(|command| command_fits(script, command))
}

pub(crate) fn routines_fit(script: &Script, routines: &[Routine]) -> bool
    ensures { result ≡ list_all (spec.routine_fits script.now) routines.now }
{
    routines.iter().all(|routine| routine_fits(script, routine))
}
