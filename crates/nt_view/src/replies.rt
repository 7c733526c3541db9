//! What calls reply, in words.
use crate::words::{put, put_numbered};
use nt_event::{Command, Refusal, Reply};
use std::alloc::AllocError;

/// Adds the status of a wait, by its name in the driver kit.
pub(crate) fn put_status(out: &mut Vec<u8>, status: u32) -> Result<(), AllocError> {
    match status {
        0 => put(out, &["STATUS_SUCCESS"]),
        0xC0 => put(out, &["STATUS_USER_APC"]),
        0x100 => put(out, &["STATUS_KERNEL_APC"]),
        0x101 => put(out, &["STATUS_ALERTED"]),
        _ => put_numbered(out, "status ", u64::from(status)),
    }
}

/// The name of the highest level at which a command may be called.
fn highest(command: &Command) -> &'static str {
    match command {
        Command::Raise(_)
        | Command::Lower(_)
        | Command::Queue(_)
        | Command::Unqueue(_)
        | Command::SetImportance(_, _)
        | Command::SetTarget(_, _)
        | Command::Interrupt(_, _)
        | Command::Clock(_)
        | Command::Note(_) => "HIGH",
        Command::SetTimer(_, _, _)
        | Command::CancelTimer(_)
        | Command::InsertApc(_)
        | Command::RemoveApc(_)
        | Command::Release(_)
        | Command::Alert(_, _)
        | Command::TestAlert(_)
        | Command::Acquire(_)
        | Command::Unlock(_) => "DISPATCH",
        Command::EnterCrit
        | Command::EnterGuard
        | Command::LeaveCrit
        | Command::LeaveGuard
        | Command::StartWait(_, _)
        | Command::Delay(_, _, _)
        | Command::Yield => "APC",
        Command::ToUser => "PASSIVE",
    }
}

/// Adds why a command is refused.
fn put_refusal(out: &mut Vec<u8>, command: &Command, refusal: Refusal) -> Result<(), AllocError> {
    match refusal {
        Refusal::NotThread => put(out, &["not in a thread"]),
        Refusal::NotBase => put(out, &["not in the thread's own routine"]),
        Refusal::TooHigh => put(out, &["level above ", highest(command)]),
        Refusal::RegionsOpen => put(out, &["a critical or guarded region is open"]),
        Refusal::NotGreater => put(out, &["below the present level"]),
        Refusal::NotLess => put(out, &["above the present level"]),
        Refusal::BelowBase => put(out, &["below the level at which the routine began"]),
        Refusal::NotEntered => put(out, &["the routine has entered no such region"]),
        Refusal::LockHeld => put(out, &["the routine holds a lock"]),
        Refusal::HeldHere => put(out, &["the routine holds the lock already"]),
        Refusal::NotLast => put(out, &["not the lock that the routine acquired last"]),
    }
}

/// Adds `->` and a reply that is no refusal, or of a refusal this word alone.
pub(crate) fn put_reply(out: &mut Vec<u8>, reply: Reply) -> Result<(), AllocError> {
    match reply {
        Reply::Done => put(out, &[" -> done"]),
        Reply::Yes => put(out, &[" -> yes"]),
        Reply::No => put(out, &[" -> no"]),
        Reply::Status(status) => {
            put(out, &[" -> "])?;
            put_status(out, status)
        }
        Reply::Blocked => put(out, &[" -> blocked"]),
        Reply::Spin => put(out, &[" -> spins"]),
        Reply::Refused(_) => put(out, &[" -> refused"]),
    }
}

/// Adds `->` and what a call of a command replies.
pub(crate) fn put_answer(
    out: &mut Vec<u8>,
    command: &Command,
    reply: Reply,
) -> Result<(), AllocError> {
    put_reply(out, reply)?;
    match reply {
        Reply::Refused(refusal) => {
            put(out, &[": "])?;
            put_refusal(out, command, refusal)
        }
        Reply::Done | Reply::Yes | Reply::No | Reply::Status(_) | Reply::Blocked | Reply::Spin =>
            Ok(()),
    }
}
