//! Commands in words.
ghost use Rattle.nt_script.specs.Sound.{IsSound};

use crate::names::{apc, dpc, lock, thread, timer};
use crate::words::{
    alertable_word, importance_word, mode_word, put, put_class, put_level, put_numbered,
};
use nt_event::{Command, CpuNo, Importance, Level, Mode};
use nt_script::Input;
use std::alloc::AllocError;

/// Adds words and a level behind them.
fn put_to_level(out: &mut Vec<u8>, words: &str, level: Level) -> Result<(), AllocError> {
    put(out, &[words])?;
    put_level(out, level)
}

/// Adds that a DPC object's importance is set.
fn put_importance(out: &mut Vec<u8>, name: &str, importance: Importance) -> Result<(), AllocError> {
    put(out, &["set importance of ", name])?;
    put(out, &[" to ", importance_word(importance)])
}

/// Adds that a thread is alerted in a mode.
fn put_alert(out: &mut Vec<u8>, name: &str, mode: Mode) -> Result<(), AllocError> {
    put(out, &["alert thread ", name])?;
    put(out, &[" (", mode_word(mode), ")"])
}

/// Adds that a DPC object's target is set; None is no target.
fn put_target(out: &mut Vec<u8>, name: &str, target: Option<CpuNo>) -> Result<(), AllocError> {
    put(out, &["set target of ", name, " to "])?;
    match target {
        Some(cpu) => put_numbered(out, "p", u64::from(cpu.0)),
        None => put(out, &["none"]),
    }
}

/// Adds that a timer is set; a period of 0 is none.
fn put_setting(out: &mut Vec<u8>, name: &str, due: u32, period: u32) -> Result<(), AllocError> {
    put(out, &["set timer ", name])?;
    put_numbered(out, ": due in ", u64::from(due))?;
    if period == 0 {
        return Ok(());
    }
    put_numbered(out, ", period ", u64::from(period))
}

/// Adds a delay.
fn put_delay(out: &mut Vec<u8>, mode: Mode, alertable: bool, units: u32) -> Result<(), AllocError> {
    put_numbered(out, "delay ", u64::from(units))?;
    put_manner(out, mode, alertable)
}

/// Adds how a thread waits.
fn put_manner(out: &mut Vec<u8>, mode: Mode, alertable: bool) -> Result<(), AllocError> {
    put(
        out,
        &[" (", mode_word(mode), ", ", alertable_word(alertable), ")"],
    )
}

/// Adds that a thread waits.
fn put_wait(out: &mut Vec<u8>, mode: Mode, alertable: bool) -> Result<(), AllocError> {
    put(out, &["wait"])?;
    put_manner(out, mode, alertable)
}

/// Adds that an interrupt is requested.
fn put_request(out: &mut Vec<u8>, cpu: CpuNo, level: Level) -> Result<(), AllocError> {
    put(out, &["request "])?;
    put_class(out, level.number())?;
    put_numbered(out, " on p", u64::from(cpu.0))
}

/// Adds a command.
pub(crate) fn put_command(
    out: &mut Vec<u8>,
    input: &Input,
    command: &Command,
) -> Result<(), AllocError>
    requires { IsSound input.now }
{
    match *command {
        Command::Raise(level) => put_to_level(out, "raise ", level),
        Command::Lower(level) => put_to_level(out, "lower ", level),
        Command::Queue(d) => put(out, &["queue ", dpc(input, d)]),
        Command::Unqueue(d) => put(out, &["unqueue ", dpc(input, d)]),
        Command::SetImportance(d, importance) => put_importance(out, dpc(input, d), importance),
        Command::SetTarget(d, target) => put_target(out, dpc(input, d), target),
        Command::SetTimer(t, due, period) => put_setting(out, timer(input, t), due, period),
        Command::CancelTimer(t) => put(out, &["cancel timer ", timer(input, t)]),
        Command::InsertApc(a) => put(out, &["insert apc ", apc(input, a)]),
        Command::RemoveApc(a) => put(out, &["remove apc ", apc(input, a)]),
        Command::EnterCrit => put(out, &["enter critical region"]),
        Command::EnterGuard => put(out, &["enter guarded region"]),
        Command::LeaveCrit => put(out, &["leave critical region"]),
        Command::LeaveGuard => put(out, &["leave guarded region"]),
        Command::StartWait(mode, alertable) => put_wait(out, mode, alertable),
        Command::Delay(mode, alertable, units) => put_delay(out, mode, alertable, units),
        Command::Release(t) => put(out, &["release thread ", thread(input, t)]),
        Command::Alert(t, mode) => put_alert(out, thread(input, t), mode),
        Command::TestAlert(mode) => put(out, &["test alert (", mode_word(mode), ")"]),
        Command::Interrupt(cpu, level) => put_request(out, cpu, level),
        Command::Clock(units) => put_numbered(out, "advance clock by ", u64::from(units)),
        Command::ToUser => put(out, &["go to user mode"]),
        Command::Yield => put(out, &["yield"]),
        Command::Acquire(k) => put(out, &["acquire lock ", lock(input, k)]),
        Command::Unlock(k) => put(out, &["unlock ", lock(input, k)]),
        Command::Note(number) => put_numbered(out, "note ", u64::from(number)),
    }
}
