//! Where a command of a walk is refused.
ghost use Rattle.std.specs.Prelude.{◌≡◌, ◌==◌, None};
ghost use Rattle.nt_event.specs.Commands.{not_above as refused_above, refuse};
ghost use Rattle.nt_verify.specs.Walks.{is_own, refused_in};

use crate::walk::Walk;
use nt_event::{Command, Level, LockNo, Refusal};

impl Walk {
    /// Why the command is refused now, if it is: the first of the tests that it fails, in the order
    /// of the refusals' numbers.
    pub(crate) fn refusal(&self, command: &Command) -> Option<Refusal>
        ensures { result ≡ refused_in self.now command.now }
    {
        match command {
            Command::Raise(level) => refused_if(
                level.number() < self.level().number(),
                Refusal::NotGreater,
            ),
            Command::Lower(level) => self.lower_refusal(*level),
            Command::SetTimer(_, _, _)
            | Command::CancelTimer(_)
            | Command::InsertApc(_)
            | Command::RemoveApc(_)
            | Command::Release(_)
            | Command::Alert(_, _) => self.not_above(Level::DISPATCH),
            Command::EnterCrit
            | Command::EnterGuard
            | Command::StartWait(_, _)
            | Command::Delay(_, _, _)
            | Command::Yield => self.thread_refusal(Level::APC),
            Command::LeaveCrit => self.leave_refusal(self.crit()),
            Command::LeaveGuard => self.leave_refusal(self.guard()),
            Command::TestAlert(_) => self.thread_refusal(Level::DISPATCH),
            Command::ToUser => self.to_user_refusal(),
            Command::Acquire(lock) => self.acquire_refusal(*lock),
            Command::Unlock(lock) => self.unlock_refusal(*lock),
            Command::Queue(_)
            | Command::Unqueue(_)
            | Command::SetImportance(_, _)
            | Command::SetTarget(_, _)
            | Command::Interrupt(_, _)
            | Command::Clock(_)
            | Command::Note(_) => None,
        }
    }

    /// A command that may be called up to this level.
    fn not_above(&self, most: Level) -> Option<Refusal>
        ensures { result ≡ refused_above most self.now.level None }
    {
        refused_if(most.number() < self.level().number(), Refusal::TooHigh)
    }

    /// A command of a thread that may be called up to this level.
    fn thread_refusal(&self, most: Level) -> Option<Refusal>
        ensures { result ≡ refuse (is_own self.now.body) Refusal.NotThread
            (refused_above most self.now.level None) }
    {
        if self.is_own() {
            return Some(Refusal::NotThread);
        }
        self.not_above(most)
    }

    fn lower_refusal(&self, level: Level) -> Option<Refusal>
        ensures { result ≡ refused_in self.now (Command.Lower level) }
    {
        if self.level().number() < level.number() {
            return Some(Refusal::NotLess);
        }
        if level.number() < self.base().number() {
            return Some(Refusal::BelowBase);
        }
        refused_if(
            self.holds_any() && level.number() < Level::DISPATCH.number(),
            Refusal::LockHeld,
        )
    }

    fn acquire_refusal(&self, lock: LockNo) -> Option<Refusal>
        ensures { result ≡ refused_in self.now (Command.Acquire lock) }
    {
        let refused = self.not_above(Level::DISPATCH);
        if refused.is_some() {
            return refused;
        }
        refused_if(self.holds(lock), Refusal::HeldHere)
    }

    fn unlock_refusal(&self, lock: LockNo) -> Option<Refusal>
        ensures { result ≡ refused_in self.now (Command.Unlock lock) }
    {
        let refused = self.not_above(Level::DISPATCH);
        if refused.is_some() {
            return refused;
        }
        refused_if(!self.is_last(lock), Refusal::NotLast)
    }

    /// A region that the frame entered so often is left.
    fn leave_refusal(&self, entered: u32) -> Option<Refusal>
        ensures { result ≡ refuse (is_own self.now.body) Refusal.NotThread
            (refused_above 1 self.now.level (refuse (entered == 0) Refusal.NotEntered None)) }
    {
        let refused = self.thread_refusal(Level::APC);
        if refused.is_some() {
            return refused;
        }
        refused_if(entered == 0, Refusal::NotEntered)
    }

    fn to_user_refusal(&self) -> Option<Refusal>
        ensures { result ≡ refused_in self.now Command.ToUser }
    {
        if self.is_own() {
            return Some(Refusal::NotThread);
        }
        if !self.is_base() {
            return Some(Refusal::NotBase);
        }
        if Level::PASSIVE.number() < self.level().number() {
            return Some(Refusal::TooHigh);
        }
        refused_if(self.crit() != 0 || self.guard() != 0, Refusal::RegionsOpen)
    }
}

fn refused_if(test: bool, why: Refusal) -> Option<Refusal>
    ensures { result ≡ refuse test why None }
{
    if test { Some(why) } else { None }
}
