//! Which replies a command may give.
ghost use Rattle.std.specs.Prelude.{◌≡◌};
ghost use Rattle.nt_expect.specs.Replies.{ends_wait, may_be_refused, may_reply, replies_of};

use crate::expectations::NamedReply;
use nt_event::{Command, Mode, status};

/// What a command may reply where it is not refused.
#[derive(Clone, Copy, PartialEq, Eq, Debug)]
pub(crate) enum Replies {
    /// It is done.
    Done,
    /// It tells: yes or no.
    YesOrNo,
    /// It waits in this mode, alertable or not: it blocks, or a status ends the wait at once.
    Waits(Mode, bool),
    /// It is done, or tried again.
    DoneOrSpin,
}

/// What a command may reply where it is not refused.
fn replies_of(command: &Command) -> Replies
    ensures { result ≡ replies_of command.now }
{
    match command {
        Command::Raise(_)
        | Command::Lower(_)
        | Command::SetImportance(_, _)
        | Command::SetTarget(_, _)
        | Command::EnterCrit
        | Command::EnterGuard
        | Command::LeaveCrit
        | Command::LeaveGuard
        | Command::Interrupt(_, _)
        | Command::Clock(_)
        | Command::ToUser
        | Command::Yield
        | Command::Unlock(_)
        | Command::Note(_) => Replies::Done,
        Command::Queue(_)
        | Command::Unqueue(_)
        | Command::SetTimer(_, _, _)
        | Command::CancelTimer(_)
        | Command::InsertApc(_)
        | Command::RemoveApc(_)
        | Command::Release(_)
        | Command::Alert(_, _)
        | Command::TestAlert(_) => Replies::YesOrNo,
        Command::StartWait(mode, alertable) => Replies::Waits(*mode, *alertable),
        Command::Delay(mode, alertable, _) => Replies::Waits(*mode, *alertable),
        Command::Acquire(_) => Replies::DoneOrSpin,
    }
}

/// Whether a cause refuses the command somewhere.
fn may_be_refused(command: &Command) -> bool
    ensures { result ≡ may_be_refused command.now }
{
    match command {
        Command::Queue(_)
        | Command::Unqueue(_)
        | Command::SetImportance(_, _)
        | Command::SetTarget(_, _)
        | Command::Interrupt(_, _)
        | Command::Clock(_)
        | Command::Note(_) => false,
        Command::Raise(_)
        | Command::Lower(_)
        | Command::SetTimer(_, _, _)
        | Command::CancelTimer(_)
        | Command::InsertApc(_)
        | Command::RemoveApc(_)
        | Command::EnterCrit
        | Command::EnterGuard
        | Command::LeaveCrit
        | Command::LeaveGuard
        | Command::StartWait(_, _)
        | Command::Delay(_, _, _)
        | Command::Release(_)
        | Command::Alert(_, _)
        | Command::TestAlert(_)
        | Command::ToUser
        | Command::Yield
        | Command::Acquire(_)
        | Command::Unlock(_) => true,
    }
}

/// Whether a wait in this mode, alertable or not, may end at once with this status.
fn ends_wait(mode: Mode, alertable: bool, code: u32) -> bool
    ensures { result ≡ ends_wait mode alertable code }
{
    match code {
        status::SUCCESS | status::KERNEL_APC => true,
        status::ALERTED => alertable,
        status::USER_APC => mode == Mode::User,
        _ => false,
    }
}

/// Whether a call of the command may reply so, in whatever run.
pub fn may_reply(command: &Command, reply: NamedReply) -> bool
    ensures { result ≡ may_reply command.now reply }
{
    let replies = replies_of(command);
    match reply {
        NamedReply::Yes | NamedReply::No => replies == Replies::YesOrNo,
        NamedReply::Done => replies == Replies::Done || replies == Replies::DoneOrSpin,
        NamedReply::Spin => replies == Replies::DoneOrSpin,
        NamedReply::Blocked => matches!(replies, Replies::Waits(_, _)),
        NamedReply::Status(code) => match replies {
            Replies::Waits(mode, alertable) => ends_wait(mode, alertable, code),
            Replies::Done | Replies::YesOrNo | Replies::DoneOrSpin => false,
        },
        NamedReply::Refused => may_be_refused(command),
    }
}
