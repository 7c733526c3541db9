//! What an event leaves of the frames.
ghost use Rattle.std.specs.Prelude.{◌≡◌, ◌<◌, ◌≤◌, [], IsSome, IsTrue, Some, None, if◌then◌else◌};
ghost use Rattle.std.specs.Prelude.{length, is_some, false, true};
ghost use Rattle.std.specs.Option.{ForSome};
ghost use Rattle.nt_event.specs.declared.commands.Reply.{Reply};
ghost use Rattle.nt_event.specs.declared.events.What.{What};
ghost use Rattle.nt_event.specs.declared.frames.Body.{Body};
ghost use Rattle.nt_event.specs.declared.frames.Region.{Region};
ghost use Rattle.nt_event.specs.Frames.{again_after, called, frames_after, frames_in, innermost};
ghost use Rattle.nt_event.specs.Frames.{ended_base, rewaited, resumed, running_after};
ghost use Rattle.nt_event.specs.Locks.{call_move};
ghost use Rattle.nt_event.specs.Routines.{rundown_of};
ghost use Rattle.nt_event.specs.Step.{thread_field};
ghost use Rattle.nt_event.specs.Lists.{is_null};
ghost use Rattle.nt_frame.specs.Changes.{at_innermost, begun, taken, without_innermost};
ghost use Rattle.nt_frame.specs.Nesting.{AreNamedBelow, AreNested};
ghost use Rattle.nt_frame.specs.Rules.{count_of, is_at_base, is_leaving, refusal_in, regions_in};
ghost use Rattle.nt_cpu.specs.Fits.{Allow, body_of as begun_body, is_wait_reply, lock_below};
ghost use Rattle.nt_cpu.specs.Fits.{may_call};
ghost use Rattle.nt_cpu.specs.Moved.{command_done, effect_made, moved};
ghost use Rattle.nt_event.specs.Calls.{wait_begun};

use nt_event::status::KERNEL_APC;
use nt_event::{Again, ApcNo, Begun, Body, Command, Event, Region, Reply, Script, ThreadNo, What};
use nt_frame::Frames;

/// A command that is done changes the innermost frame's level, a count of its regions, or the locks
/// that it holds.
fn do_command(frames: &mut Frames, command: &Command)
    requires frame { IsSome (innermost frames.old) }
    requires may { refusal_in command.now frames.old ≡ None }
    requires lock { IsTrue (lock_below 64 command.now) }
    requires room { (r : Region) → count_of r (regions_in frames.old) < 4294967295 }
    ensures { frames.new ≡ at_innermost (command_done command.now) frames.old }
{
    match command {
        Command::Raise(level) => {
            if frames.raise(*level).is_err() {
                unreachable!()
            }
        }
        Command::Lower(level) => {
            if frames.lower(*level).is_err() {
                unreachable!()
            }
        }
        Command::EnterCrit => {
            if frames.enter(Region::Crit).is_err() {
                unreachable!()
            }
        }
        Command::EnterGuard => {
            if frames.enter(Region::Guard).is_err() {
                unreachable!()
            }
        }
        Command::LeaveCrit => {
            if frames.leave(Region::Crit).is_err() {
                unreachable!()
            }
        }
        Command::LeaveGuard => {
            if frames.leave(Region::Guard).is_err() {
                unreachable!()
            }
        }
        Command::Acquire(lock) => frames.acquired(*lock, true),
        Command::Unlock(lock) => {
            if frames.unlock(*lock).is_err() {
                unreachable!()
            }
        }
        Command::Queue(_)
        | Command::Unqueue(_)
        | Command::SetImportance(_, _)
        | Command::SetTarget(_, _)
        | Command::SetTimer(_, _, _)
        | Command::CancelTimer(_)
        | Command::InsertApc(_)
        | Command::RemoveApc(_)
        | Command::StartWait(_, _)
        | Command::Delay(_, _, _)
        | Command::Release(_)
        | Command::Alert(_, _)
        | Command::TestAlert(_)
        | Command::Interrupt(_, _)
        | Command::Clock(_)
        | Command::ToUser
        | Command::Yield
        | Command::Note(_) => {}
    }
}

/// The innermost frame spins on the lock that the command tries.
fn spin_on(frames: &mut Frames, command: &Command)
    requires frame { IsSome (innermost frames.old) }
    requires may { refusal_in command.now frames.old ≡ None }
    requires lock { IsTrue (lock_below 64 command.now) }
    ensures { frames.new ≡ at_innermost (moved (call_move command.now Reply.Spin)) frames.old }
{
    if let Command::Acquire(lock) = command {
        frames.acquired(*lock, false);
    }
}

/// A wait that blocks, or that a kernel APC interrupts, is kept to be taken up; another one is
/// over.
fn set_wait(frames: &mut Frames, wait: Again, reply: &Reply)
    requires { IsSome (innermost frames.old) }
    ensures { frames.new ≡ at_innermost
        (λ f. record f { again = again_after reply.now (Some wait) f.again }) frames.old }
{
    match reply {
        Reply::Status(status) => {
            if *status == KERNEL_APC {
                frames.set_again(Some(wait));
            } else {
                frames.set_again(None);
            }
        }
        Reply::Blocked => frames.set_again(Some(wait)),
        Reply::Done | Reply::Yes | Reply::No | Reply::Spin | Reply::Refused(_) => {}
    }
}

/// The wait that a command begins; that of a delay has this due time.
fn wait_of(command: &Command, due: Option<u64>) -> Option<Again>
    ensures { result ≡ wait_begun due command.now }
{
    match command {
        Command::StartWait(mode, alertable) => Some(Again {
            mode: *mode,
            alertable: *alertable,
            due: None,
        }),
        Command::Delay(mode, alertable, _) => Some(Again {
            mode: *mode,
            alertable: *alertable,
            due,
        }),
        Command::Raise(_)
        | Command::Lower(_)
        | Command::Queue(_)
        | Command::Unqueue(_)
        | Command::SetImportance(_, _)
        | Command::SetTarget(_, _)
        | Command::SetTimer(_, _, _)
        | Command::CancelTimer(_)
        | Command::InsertApc(_)
        | Command::RemoveApc(_)
        | Command::EnterCrit
        | Command::EnterGuard
        | Command::LeaveCrit
        | Command::LeaveGuard
        | Command::Release(_)
        | Command::Alert(_, _)
        | Command::TestAlert(_)
        | Command::Interrupt(_, _)
        | Command::Clock(_)
        | Command::ToUser
        | Command::Yield
        | Command::Acquire(_)
        | Command::Unlock(_)
        | Command::Note(_) => None,
    }
}

/// What a call with this reply does to its frame, beside its place.
fn take_effect(frames: &mut Frames, command: &Command, reply: &Reply, due: Option<u64>)
    requires frame { IsSome (innermost frames.old) }
    requires may { IsTrue (may_call command.now reply.now frames.old) }
    requires lock { IsTrue (lock_below 64 command.now) }
    requires room { (r : Region) → count_of r (regions_in frames.old) < 4294967295 }
    ensures { frames.new ≡ at_innermost (effect_made due command.now reply.now) frames.old }
{
    match wait_of(command, due) {
        Some(wait) => set_wait(frames, wait, reply),
        None => {
            if reply.is_done() {
                do_command(frames, command);
            } else if reply.is_spin() {
                spin_on(frames, command);
            }
        }
    }
}

/// The innermost frame calls a command.
fn call(frames: &mut Frames, command: &Command, reply: &Reply, due: Option<u64>)
    requires nested { AreNested frames.old }
    requires frame { IsSome (innermost frames.old) }
    requires place { ForSome (innermost frames.old) (λ f. f.place < 4294967295) }
    requires may { IsTrue (may_call command.now reply.now frames.old) }
    requires lock { IsTrue (lock_below 64 command.now) }
    requires room { (r : Region) → count_of r (regions_in frames.old) < 4294967295 }
    ensures { frames.new ≡ record (at_innermost (called due command.now reply.now) frames.old) {
      running = running_after (What.Call 0 command.now reply.now) frames.old.running;
    } }
{
    take_effect(frames, command, reply, due);
    if reply.is_spin() {
        return;
    }
    frames.advance_place();
    if command.stops(reply) {
        frames.switch_away();
    }
}

/// The innermost frame takes up its wait again.
fn rewait(frames: &mut Frames, reply: &Reply)
    requires frame { IsSome (innermost frames.old) }
    requires thread { frames.old.own ≡ [] }
    requires reply { IsTrue (is_wait_reply reply.now) }
    ensures { frames.new ≡ record (at_innermost (rewaited reply.now) frames.old) {
      running = running_after (What.Rewait 0 reply.now) frames.old.running;
    } }
{
    match reply {
        Reply::Status(status) => {
            if *status != KERNEL_APC {
                frames.set_again(None);
            }
        }
        Reply::Blocked => frames.switch_away(),
        Reply::Done | Reply::Yes | Reply::No | Reply::Spin | Reply::Refused(_) => {}
    }
}

/// The innermost frame ends; a base stays until its thread is gone.
fn end(frames: &mut Frames)
    requires frame { IsSome (innermost frames.old) }
    requires runs { is_leaving frames.old ≡ false }
    ensures { frames.new ≡ (if is_at_base frames.old then at_innermost ended_base frames.old
        else without_innermost frames.old) }
{
    if is_base(frames) {
        frames.end_base();
    } else {
        frames.end_routine();
    }
}

fn is_base(frames: &Frames) -> bool
    ensures { result ≡ is_at_base frames.now }
{
    match frames.top() {
        Some(frame) => matches!(frame.body(), Body::Base(_)),
        None => false,
    }
}

/// The status of the wait that ended: only an interrupted one is to be taken up again.
fn resume(frames: &mut Frames, status: Option<u32>)
    requires { IsSome (innermost frames.old) }
    ensures { frames.new ≡ at_innermost (resumed status) frames.old }
{
    if let Some(status) = status {
        if status != KERNEL_APC {
            frames.set_again(None);
        }
    }
}

/// A thread is taken up; the first time its base routine begins.
fn switch(frames: &mut Frames, thread: ThreadNo, status: Option<u32>, n: u64)
    requires own { frames.old.own ≡ [] }
    requires idle { frames.old.running ≡ None }
    requires thread { thread.0 < length frames.old.threads }
    requires number { AreNamedBelow n frames.old }
    ensures { frames.new ≡ (if is_null (frames_in frames.old.threads thread)
        then begun n (Body.Base thread) (taken thread frames.old)
        else at_innermost (resumed status) (taken thread frames.old)) }
{
    frames.switch_to(thread);
    if frames.is_on_thread() {
        resume(frames, status);
    } else {
        frames.begin(Body::Base(thread), n);
    }
}

/// A flushed APC begins its rundown routine, where it has one.
fn flush(frames: &mut Frames, script: &Script, apc: ApcNo, n: u64)
    requires leaving { IsTrue (is_leaving frames.old) }
    requires number { AreNamedBelow n frames.old }
    ensures { frames.new ≡ (if is_some (rundown_of script.now apc)
        then begun n (Body.Rundown apc) frames.old
        else frames.old) }
{
    if script.rundown_of(apc).is_some() {
        frames.begin(Body::Rundown(apc), n);
    }
}

/// What a Begin begins.
fn body_of(script: &Script, begun: &Begun) -> Body
    ensures { result ≡ begun_body script.now begun.now }
{
    match begun {
        Begun::Int(level) => Body::Int(*level),
        Begun::Dpc(dpc) => Body::Dpc(*dpc),
        Begun::Threaded(dpc) => Body::Threaded(*dpc),
        Begun::Apc(apc) => Body::Apc(*apc, script.kind_of(*apc)),
    }
}

/// What the event of this number leaves of the frames of its processor.
pub fn apply(frames: &mut Frames, script: &Script, event: &Event, n: u64, due: Option<u64>)
    requires nested { AreNested frames.old }
    requires threads { length frames.old.threads ≡ length script.now.threads }
    requires number { AreNamedBelow n frames.old }
    requires place { ForSome (innermost frames.old) (λ f. f.place < 4294967295) }
    requires room { (r : Region) → count_of r (regions_in frames.old) < 4294967295 }
    requires locks { script.now.locks ≤ 64 }
    requires thread { event.now.thread ≡ thread_field event.now.what frames.old.running }
    requires allow { Allow script.now event.now.what frames.old }
    ensures { frames.new ≡ frames_after script.now n due event.now frames.old }
{
    match &event.what {
        What::Call { command, reply, .. } => call(frames, command, reply, due),
        What::Begin { begun, .. } => frames.begin(body_of(script, begun), n),
        What::Normal { .. } => {
            let _ = frames.normal();
        }
        What::End { .. } => end(frames),
        What::Switch { thread, status } => switch(frames, *thread, *status, n),
        What::Rewait { reply, .. } => rewait(frames, reply),
        What::Flush { apc, .. } => flush(frames, script, *apc, n),
        What::Gone { .. } => frames.gone(),
        What::Free { .. } => {
            let _ = frames.free();
        }
        What::Look { .. } => {}
        What::Expire { .. } => {}
        What::Fire { .. } => {}
        What::Clean { .. } => {}
        What::Rest => {}
    }
}
