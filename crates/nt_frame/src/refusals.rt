//! Where a command is refused.
ghost use Rattle.std.specs.Prelude.{◌≡◌, ◌==◌, None};
ghost use Rattle.nt_event.specs.Commands.{not_above as refused_above, refusal as refusal_of};
ghost use Rattle.nt_event.specs.Commands.{refuse};
ghost use Rattle.nt_event.specs.Regions.{is_open as some_open};

use crate::Frame;
use nt_event::{Command, LockNo, Refusal, Regions};
use nt_level::Level;

/// Why a command is refused at this level, if it is: where the innermost frame is this one, stands
/// on the processor's own part or not, and its thread is in these regions. The tests are made in
/// the order of the refusals' numbers.
#[inline(always)]
pub fn refusal(
    level: Level,
    own: bool,
    regions: &Regions,
    frame: &Frame,
    command: &Command,
) -> Option<Refusal>
    ensures { result ≡ refusal_of level own regions.now frame.now command.now }
{
    match command {
        Command::Raise(l) => refused_if(l.number() < level.number(), Refusal::NotGreater),
        Command::Lower(l) => lower_refusal(level, own, regions, frame, *l),
        Command::SetTimer(_, _, _)
        | Command::CancelTimer(_)
        | Command::InsertApc(_)
        | Command::RemoveApc(_)
        | Command::Release(_)
        | Command::Alert(_, _) => not_above(Level::DISPATCH, level),
        Command::EnterCrit
        | Command::EnterGuard
        | Command::StartWait(_, _)
        | Command::Delay(_, _, _)
        | Command::Yield => thread_refusal(own, Level::APC, level),
        Command::LeaveCrit => leave_refusal(own, level, frame.crit()),
        Command::LeaveGuard => leave_refusal(own, level, frame.guard()),
        Command::TestAlert(_) => thread_refusal(own, Level::DISPATCH, level),
        Command::ToUser => to_user_refusal(level, own, regions, frame),
        Command::Acquire(lock) => acquire_refusal(level, own, regions, frame, *lock),
        Command::Unlock(lock) => unlock_refusal(level, own, regions, frame, *lock),
        Command::Queue(_)
        | Command::Unqueue(_)
        | Command::SetImportance(_, _)
        | Command::SetTarget(_, _)
        | Command::Interrupt(_, _)
        | Command::Clock(_)
        | Command::Note(_) => None,
    }
}

fn refused_if(test: bool, why: Refusal) -> Option<Refusal>
    ensures { result ≡ refuse test why None }
{
    if test { Some(why) } else { None }
}

/// A command that may be called up to this level.
fn not_above(most: Level, level: Level) -> Option<Refusal>
    ensures { result ≡ refused_above most level None }
{
    refused_if(most.number() < level.number(), Refusal::TooHigh)
}

/// A command of a thread that may be called up to this level.
fn thread_refusal(own: bool, most: Level, level: Level) -> Option<Refusal>
    ensures { result ≡ refuse own Refusal.NotThread (refused_above most level None) }
{
    if own {
        return Some(Refusal::NotThread);
    }
    not_above(most, level)
}

#[inline(always)]
fn lower_refusal(
    level: Level,
    own: bool,
    regions: &Regions,
    frame: &Frame,
    l: Level,
) -> Option<Refusal>
    ensures { result ≡ refusal_of level own regions.now frame.now (Command.Lower l) }
{
    if level.number() < l.number() {
        return Some(Refusal::NotLess);
    }
    if l.number() < frame.base().number() {
        return Some(Refusal::BelowBase);
    }
    refused_if(
        frame.holds_any() && l.number() < Level::DISPATCH.number(),
        Refusal::LockHeld,
    )
}

fn acquire_refusal(
    level: Level,
    own: bool,
    regions: &Regions,
    frame: &Frame,
    lock: LockNo,
) -> Option<Refusal>
    ensures { result ≡ refusal_of level own regions.now frame.now (Command.Acquire lock) }
{
    let refused = not_above(Level::DISPATCH, level);
    if refused.is_some() {
        return refused;
    }
    refused_if(frame.holds(lock), Refusal::HeldHere)
}

fn unlock_refusal(
    level: Level,
    own: bool,
    regions: &Regions,
    frame: &Frame,
    lock: LockNo,
) -> Option<Refusal>
    ensures { result ≡ refusal_of level own regions.now frame.now (Command.Unlock lock) }
{
    let refused = not_above(Level::DISPATCH, level);
    if refused.is_some() {
        return refused;
    }
    refused_if(!frame.is_last(lock), Refusal::NotLast)
}

/// A region that the frame entered so often is left.
fn leave_refusal(own: bool, level: Level, entered: u32) -> Option<Refusal>
    ensures { result ≡ refuse own Refusal.NotThread
        (refused_above 1 level (refuse (entered == 0) Refusal.NotEntered None)) }
{
    let refused = thread_refusal(own, Level::APC, level);
    if refused.is_some() {
        return refused;
    }
    refused_if(entered == 0, Refusal::NotEntered)
}

fn to_user_refusal(level: Level, own: bool, regions: &Regions, frame: &Frame) -> Option<Refusal>
    ensures { result ≡ refusal_of level own regions.now frame.now Command.ToUser }
{
    if own {
        return Some(Refusal::NotThread);
    }
    if !frame.is_base() {
        return Some(Refusal::NotBase);
    }
    if Level::PASSIVE.number() < level.number() {
        return Some(Refusal::TooHigh);
    }
    refused_if(is_open(regions), Refusal::RegionsOpen)
}

/// Whether a region is entered.
fn is_open(regions: &Regions) -> bool
    ensures { result ≡ some_open regions.now }
{
    regions.crit != 0 || regions.guard != 0
}
