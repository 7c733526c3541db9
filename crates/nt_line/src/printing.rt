//! The text of one line: a command, or what is declared.
ghost use Rattle.std.specs.Prelude.{◌≡◌, ◌<◌, ◌∷◌, ◌++◌, [], length, OnOk, IfSome};
ghost use Rattle.std.specs.List.{join_with_byte};
ghost use Rattle.nt_text.specs.Lines.{row_text, spaced};
ghost use Rattle.nt_line.specs.Fields.{dash, mode_text, alertable_text};
ghost use Rattle.nt_line.specs.NameLists.{show_dpc, show_timer, show_thread, show_apc};
ghost use Rattle.nt_line.specs.NameLists.{show_routine};
ghost use Rattle.nt_line.specs.Fits.{IsrFits, DpcFits, TimerFits, ThreadFits, ApcFits};
ghost use Rattle.nt_line.specs.Fits.{CommandNamed};
ghost use Rattle.nt_line.specs.Rows.{show_target, show_unless, command_verb, command_args};
ghost use Rattle.nt_line.specs.Rows.{command_row, isr_args, isr_row, dpc_args, dpc_row, timer_args};
ghost use Rattle.nt_line.specs.Rows.{timer_row, thread_args, thread_row, normal_args, rundown_args};
ghost use Rattle.nt_line.specs.Rows.{apc_args, apc_row};

use crate::fields::{alertable_text, importance_text, mode_text};
use crate::keywords::{Keyword, Verb};
use crate::names::Names;
use nt_event::{
    ApcDecl, ApcKind, ApcNo, Command, CpuNo, DpcDecl, DpcNo, Isr, Mode, RoutineNo, ThreadDecl,
    ThreadNo, TimerDecl, TimerNo,
};
use nt_text::{put_field, put_number};
use std::alloc::AllocError;

/// Adds a target, `own` for none.
fn put_target(out: &mut Vec<u8>, target: Option<CpuNo>) -> Result<(), AllocError>
    ensures { OnOk result (out.new.items ≡ out.old.items ++ spaced (show_target target ∷ [])) }
{
    match target {
        Some(cpu) => put_number(out, u64::from(cpu.0)),
        None => put_field(out, b"own"),
    }
}

/// The keyword of a command.
fn verb_of(command: &Command) -> Verb
    ensures { result ≡ command_verb command.now }
{
    match command {
        Command::Raise(_) => Verb::Raise,
        Command::Lower(_) => Verb::Lower,
        Command::Queue(_) => Verb::Queue,
        Command::Unqueue(_) => Verb::Unqueue,
        Command::SetImportance(_, _) => Verb::SetImportance,
        Command::SetTarget(_, _) => Verb::SetTarget,
        Command::SetTimer(_, _, _) => Verb::SetTimer,
        Command::CancelTimer(_) => Verb::CancelTimer,
        Command::InsertApc(_) => Verb::InsertApc,
        Command::RemoveApc(_) => Verb::RemoveApc,
        Command::EnterCrit => Verb::EnterCrit,
        Command::EnterGuard => Verb::EnterGuard,
        Command::LeaveCrit => Verb::LeaveCrit,
        Command::LeaveGuard => Verb::LeaveGuard,
        Command::StartWait(_, _) => Verb::StartWait,
        Command::Delay(_, _, _) => Verb::Delay,
        Command::Release(_) => Verb::Release,
        Command::Alert(_, _) => Verb::Alert,
        Command::TestAlert(_) => Verb::TestAlert,
        Command::Interrupt(_, _) => Verb::Interrupt,
        Command::Clock(_) => Verb::Clock,
        Command::ToUser => Verb::ToUser,
        Command::Yield => Verb::Yield,
        Command::Acquire(_) => Verb::Acquire,
        Command::Unlock(_) => Verb::Unlock,
        Command::Note(_) => Verb::Note,
    }
}

/// Adds the fields of a wait.
fn put_wait(out: &mut Vec<u8>, mode: Mode, alertable: bool) -> Result<(), AllocError>
    ensures { OnOk result
        (out.new.items ≡ out.old.items ++ spaced (mode_text mode ∷ alertable_text alertable ∷ [])) }
{
    put_field(out, mode_text(mode))?;
    put_field(out, alertable_text(alertable))
}

/// Adds the fields behind a command's keyword.
#[inline(always)]
fn put_args(out: &mut Vec<u8>, names: &Names, command: &Command) -> Result<(), AllocError>
    requires { CommandNamed names.now command.now }
    ensures { OnOk result
        (out.new.items ≡ out.old.items ++ spaced (command_args names.now command.now)) }
{
    match command {
        Command::Raise(level) => put_number(out, u64::from(level.number())),
        Command::Lower(level) => put_number(out, u64::from(level.number())),
        Command::Queue(d) => put_field(out, names.dpc(*d).as_bytes()),
        Command::Unqueue(d) => put_field(out, names.dpc(*d).as_bytes()),
        Command::SetImportance(d, importance) => {
            put_field(out, names.dpc(*d).as_bytes())?;
            put_field(out, importance_text(*importance))
        }
        Command::SetTarget(d, target) => {
            put_field(out, names.dpc(*d).as_bytes())?;
            put_target(out, *target)
        }
        Command::SetTimer(t, due, period) => {
            put_field(out, names.timer(*t).as_bytes())?;
            put_number(out, u64::from(*due))?;
            put_number(out, u64::from(*period))
        }
        Command::CancelTimer(t) => put_field(out, names.timer(*t).as_bytes()),
        Command::InsertApc(a) => put_field(out, names.apc(*a).as_bytes()),
        Command::RemoveApc(a) => put_field(out, names.apc(*a).as_bytes()),
        Command::EnterCrit => Ok(()),
        Command::EnterGuard => Ok(()),
        Command::LeaveCrit => Ok(()),
        Command::LeaveGuard => Ok(()),
        Command::StartWait(mode, alertable) => put_wait(out, *mode, *alertable),
        Command::Delay(mode, alertable, units) => {
            put_wait(out, *mode, *alertable)?;
            put_number(out, u64::from(*units))
        }
        Command::Release(t) => put_field(out, names.thread(*t).as_bytes()),
        Command::Alert(t, mode) => {
            put_field(out, names.thread(*t).as_bytes())?;
            put_field(out, mode_text(*mode))
        }
        Command::TestAlert(mode) => put_field(out, mode_text(*mode)),
        Command::Interrupt(cpu, level) => {
            put_number(out, u64::from(cpu.0))?;
            put_number(out, u64::from(level.number()))
        }
        Command::Clock(units) => put_number(out, u64::from(*units)),
        Command::ToUser => Ok(()),
        Command::Yield => Ok(()),
        Command::Acquire(k) => put_field(out, names.lock(*k).as_bytes()),
        Command::Unlock(k) => put_field(out, names.lock(*k).as_bytes()),
        Command::Note(number) => put_number(out, u64::from(*number)),
    }
}

/// Adds a command: its keyword and what stands behind it, with one space between two fields and no
/// line end.
#[inline(always)]
pub fn put_command(out: &mut Vec<u8>, names: &Names, command: &Command) -> Result<(), AllocError>
    requires { CommandNamed names.now command.now }
    ensures { OnOk result
        (out.new.items ≡ out.old.items ++ join_with_byte 32 (command_row names.now command.now)) }
{
    out.extend_from_slice(verb_of(command).text())?;
    put_args(out, names, command)?;
    Ok(())
}

/// Adds the fields of an interrupt routine.
fn put_isr_args(out: &mut Vec<u8>, names: &Names, cpus: u8, isr: &Isr) -> Result<(), AllocError>
    requires { IsrFits names.now cpus isr.now }
    ensures { OnOk result (out.new.items ≡ out.old.items ++ spaced (isr_args names.now isr.now)) }
{
    put_number(out, u64::from(isr.cpu.0))?;
    put_number(out, u64::from(isr.level.number()))?;
    put_field(out, names.routine(isr.routine).as_bytes())
}

/// Adds the line of an interrupt routine.
pub fn put_isr(out: &mut Vec<u8>, names: &Names, cpus: u8, isr: &Isr) -> Result<(), AllocError>
    requires { IsrFits names.now cpus isr.now }
    ensures { OnOk result (out.new.items ≡ out.old.items ++ row_text (isr_row names.now isr.now)) }
{
    out.extend_from_slice(Keyword::Isr.text())?;
    put_isr_args(out, names, cpus, isr)?;
    out.push(b'\n')?;
    Ok(())
}

/// Adds the name and the fields of a DPC object.
fn put_dpc_args(out: &mut Vec<u8>, names: &Names, d: DpcNo, dpc: &DpcDecl) -> Result<(), AllocError>
    requires named { d.0 < length names.now.dpcs }
    requires fits { DpcFits names.now dpc.now }
    ensures { OnOk result (out.new.items
        ≡ out.old.items ++ spaced (show_dpc names.now d ∷ dpc_args names.now dpc.now)) }
{
    put_field(out, names.dpc(d).as_bytes())?;
    put_field(out, names.routine(dpc.routine).as_bytes())
}

/// Adds the line of a DPC object.
pub fn put_dpc(out: &mut Vec<u8>, names: &Names, d: DpcNo, dpc: &DpcDecl) -> Result<(), AllocError>
    requires named { d.0 < length names.now.dpcs }
    requires fits { DpcFits names.now dpc.now }
    ensures { OnOk result (out.new.items
        ≡ out.old.items ++ row_text (dpc_row names.now (show_dpc names.now d) dpc.now)) }
{
    out.extend_from_slice(Keyword::Dpc {
        threaded: dpc.threaded,
    }
    .text())?;
    put_dpc_args(out, names, d, dpc)?;
    out.push(b'\n')?;
    Ok(())
}

/// Adds the DPC object of a timer, `-` for none.
fn put_timer_dpc(out: &mut Vec<u8>, names: &Names, timer: &TimerDecl) -> Result<(), AllocError>
    requires { TimerFits names.now timer.now }
    ensures { OnOk result
        (out.new.items ≡ out.old.items ++ spaced (timer_args names.now timer.now)) }
{
    match timer.dpc {
        Some(d) => put_field(out, names.dpc(d).as_bytes()),
        None => put_field(out, b"-"),
    }
}

/// Adds the name and the fields of a timer.
fn put_timer_args(
    out: &mut Vec<u8>,
    names: &Names,
    t: TimerNo,
    timer: &TimerDecl,
) -> Result<(), AllocError>
    requires named { t.0 < length names.now.timers }
    requires fits { TimerFits names.now timer.now }
    ensures { OnOk result (out.new.items
        ≡ out.old.items ++ spaced (show_timer names.now t ∷ timer_args names.now timer.now)) }
{
    put_field(out, names.timer(t).as_bytes())?;
    put_timer_dpc(out, names, timer)
}

/// Adds the line of a timer.
pub fn put_timer(
    out: &mut Vec<u8>,
    names: &Names,
    t: TimerNo,
    timer: &TimerDecl,
) -> Result<(), AllocError>
    requires named { t.0 < length names.now.timers }
    requires fits { TimerFits names.now timer.now }
    ensures { OnOk result (out.new.items
        ≡ out.old.items ++ row_text (timer_row names.now (show_timer names.now t) timer.now)) }
{
    out.extend_from_slice(Keyword::Timer.text())?;
    put_timer_args(out, names, t, timer)?;
    out.push(b'\n')?;
    Ok(())
}

/// Adds the name and the fields of a thread.
fn put_thread_args(
    out: &mut Vec<u8>,
    names: &Names,
    cpus: u8,
    t: ThreadNo,
    thread: &ThreadDecl,
) -> Result<(), AllocError>
    requires named { t.0 < length names.now.threads }
    requires fits { ThreadFits names.now cpus thread.now }
    ensures { OnOk result (out.new.items
        ≡ out.old.items ++ spaced (show_thread names.now t ∷ thread_args names.now thread.now)) }
{
    put_field(out, names.thread(t).as_bytes())?;
    put_number(out, u64::from(thread.cpu.0))?;
    put_field(out, names.routine(thread.routine).as_bytes())
}

/// Adds the line of a thread.
pub fn put_thread(
    out: &mut Vec<u8>,
    names: &Names,
    cpus: u8,
    t: ThreadNo,
    thread: &ThreadDecl,
) -> Result<(), AllocError>
    requires named { t.0 < length names.now.threads }
    requires fits { ThreadFits names.now cpus thread.now }
    ensures { OnOk result (out.new.items
        ≡ out.old.items ++ row_text (thread_row names.now (show_thread names.now t) thread.now)) }
{
    out.extend_from_slice(Keyword::Thread.text())?;
    put_thread_args(out, names, cpus, t, thread)?;
    out.push(b'\n')?;
    Ok(())
}

/// Adds the normal routine of an APC object, where it has one.
fn put_normal(out: &mut Vec<u8>, names: &Names, normal: Option<RoutineNo>) -> Result<(), AllocError>
    requires { IfSome normal (λ r. r.0 < length names.now.routines) }
    ensures { OnOk result (out.new.items ≡ out.old.items ++ spaced (normal_args names.now normal)) }
{
    match normal {
        Some(r) => put_field(out, names.routine(r).as_bytes()),
        None => Ok(()),
    }
}

/// Adds the rundown routine of a user APC, `-` for none.
fn put_rundown(
    out: &mut Vec<u8>,
    names: &Names,
    rundown: Option<RoutineNo>,
) -> Result<(), AllocError>
    requires { IfSome rundown (λ r. r.0 < length names.now.routines) }
    ensures { OnOk result (out.new.items
        ≡ out.old.items ++ spaced (show_unless dash (show_routine names.now) rundown ∷ [])) }
{
    match rundown {
        Some(r) => put_field(out, names.routine(r).as_bytes()),
        None => put_field(out, b"-"),
    }
}

/// Adds the rundown routine of an APC object, where such an object has the field.
fn put_rundown_of(out: &mut Vec<u8>, names: &Names, apc: &ApcDecl) -> Result<(), AllocError>
    requires { ApcFits names.now apc.now }
    ensures { OnOk result (out.new.items
        ≡ out.old.items ++ spaced (rundown_args names.now apc.now.kind apc.now.rundown)) }
{
    match apc.kind {
        ApcKind::Special => Ok(()),
        ApcKind::Normal => Ok(()),
        ApcKind::User => put_rundown(out, names, apc.rundown),
    }
}

/// Adds the routines of an APC object behind its kernel routine.
#[tactic(auto, using(nt_text::proofs::RowTexts::spaced_append))]
fn put_apc_routines(out: &mut Vec<u8>, names: &Names, apc: &ApcDecl) -> Result<(), AllocError>
    requires { ApcFits names.now apc.now }
    ensures { OnOk result (out.new.items ≡ out.old.items ++ spaced
        (normal_args names.now apc.now.normal
        ++ rundown_args names.now apc.now.kind apc.now.rundown)) }
{
    put_normal(out, names, apc.normal)?;
    put_rundown_of(out, names, apc)
}

/// Adds the name and the fields of an APC object.
fn put_apc_args(out: &mut Vec<u8>, names: &Names, a: ApcNo, apc: &ApcDecl) -> Result<(), AllocError>
    requires named { a.0 < length names.now.apcs }
    requires fits { ApcFits names.now apc.now }
    ensures { OnOk result (out.new.items
        ≡ out.old.items ++ spaced (show_apc names.now a ∷ apc_args names.now apc.now)) }
{
    put_field(out, names.apc(a).as_bytes())?;
    put_field(out, names.thread(apc.thread).as_bytes())?;
    put_field(out, names.routine(apc.kernel).as_bytes())?;
    put_apc_routines(out, names, apc)
}

/// Adds the line of an APC object.
pub fn put_apc(out: &mut Vec<u8>, names: &Names, a: ApcNo, apc: &ApcDecl) -> Result<(), AllocError>
    requires named { a.0 < length names.now.apcs }
    requires fits { ApcFits names.now apc.now }
    ensures { OnOk result (out.new.items
        ≡ out.old.items ++ row_text (apc_row names.now (show_apc names.now a) apc.now)) }
{
    out.extend_from_slice(Keyword::Apc(apc.kind).text())?;
    put_apc_args(out, names, a, apc)?;
    out.push(b'\n')?;
    Ok(())
}
