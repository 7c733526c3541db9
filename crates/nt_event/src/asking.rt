//! Small questions about the data: which replies are which, which commands touch a lane or stop
//! their thread, and when a region count came to 0.
ghost use Rattle.std.specs.Prelude.{◌≡◌};
ghost use Rattle.nt_event.specs.Calls as calls;
ghost use Rattle.nt_event.specs.Commands as commands;
ghost use Rattle.nt_event.specs.Regions as regions;
ghost use Rattle.nt_event.specs.Replies as replies;
ghost use Rattle.nt_event.specs.Routines as routines;

use crate::{ApcKind, Command, Regions, Reply};

impl Reply {
    /// Whether the command is done.
    pub fn is_done(&self) -> bool
        ensures { result ≡ replies.is_done self.now }
    {
        matches!(self, Reply::Done)
    }

    /// Whether the reply is yes.
    pub fn is_yes(&self) -> bool
        ensures { result ≡ replies.is_yes self.now }
    {
        matches!(self, Reply::Yes)
    }

    /// Whether the reply is yes or no.
    pub fn is_answer(&self) -> bool
        ensures { result ≡ replies.is_answer self.now }
    {
        matches!(self, Reply::Yes | Reply::No)
    }

    /// Whether the thread waits and no longer runs.
    pub fn is_blocked(&self) -> bool
        ensures { result ≡ replies.is_blocked self.now }
    {
        matches!(self, Reply::Blocked)
    }

    /// Whether the command was refused.
    pub fn is_refused(&self) -> bool
        ensures { result ≡ replies.is_refused self.now }
    {
        matches!(self, Reply::Refused(_))
    }

    /// Whether the lock is held by another routine.
    pub fn is_spin(&self) -> bool
        ensures { result ≡ replies.is_spin self.now }
    {
        matches!(self, Reply::Spin)
    }

    /// The answer of a command that tells.
    pub fn yes_if(yes: bool) -> Reply
        ensures { result ≡ replies.yes_if yes }
    {
        if yes { Reply::Yes } else { Reply::No }
    }
}

impl Command {
    /// Whether the thread that calls the command runs no more after this reply.
    pub fn stops(&self, reply: &Reply) -> bool
        ensures { result ≡ calls.stops self.now reply.now }
    {
        reply.is_blocked() || matches!(self, Command::Yield) && reply.is_done()
    }

    /// Whether a call of the command touches a lane where it is not refused.
    pub fn needs_lane(&self) -> bool
        ensures { result ≡ commands.needs_lane self.now }
    {
        match self {
            Command::Raise(_)
            | Command::Lower(_)
            | Command::EnterCrit
            | Command::EnterGuard
            | Command::LeaveCrit
            | Command::LeaveGuard
            | Command::Interrupt(_, _)
            | Command::Note(_) => false,
            Command::Queue(_)
            | Command::Unqueue(_)
            | Command::SetImportance(_, _)
            | Command::SetTarget(_, _)
            | Command::SetTimer(_, _, _)
            | Command::CancelTimer(_)
            | Command::InsertApc(_)
            | Command::RemoveApc(_)
            | Command::StartWait(_, _)
            | Command::Delay(_, _, _)
            | Command::Release(_)
            | Command::Alert(_, _)
            | Command::TestAlert(_)
            | Command::Clock(_)
            | Command::ToUser
            | Command::Yield
            | Command::Acquire(_)
            | Command::Unlock(_) => true,
        }
    }
}

impl ApcKind {
    /// Whether APCs of the kind run in kernel mode.
    pub fn is_kernel(self) -> bool
        ensures { result ≡ routines.is_kernel_kind self }
    {
        match self {
            ApcKind::Special | ApcKind::Normal => true,
            ApcKind::User => false,
        }
    }
}

impl Regions {
    /// Whether a count that was not 0 before is 0 in these regions.
    pub fn came_to_0(&self, before: &Regions) -> bool
        ensures { result ≡ regions.some_came_to_0 before.now self.now }
    {
        (before.crit != 0 && self.crit == 0) || (before.guard != 0 && self.guard == 0)
    }
}
