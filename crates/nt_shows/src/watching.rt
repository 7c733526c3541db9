//! Whether an event is one that an expectation watches for.
ghost use Rattle.std.specs.Prelude.{◌≡◌, List, Some, true};
ghost use Rattle.nt_event.specs.declared.commands.Command.TheVariants as cmd;
ghost use Rattle.nt_event.specs.declared.commands.TimerKey.TheVariants as keys;
ghost use Rattle.nt_event.specs.declared.events.Begun.TheVariants as begun;
ghost use Rattle.nt_event.specs.declared.events.Event.{Event as Made};
ghost use Rattle.nt_event.specs.declared.events.What.TheVariants as what_of;
ghost use Rattle.nt_event.specs.Families.{in_begin, in_call, in_expiry};
ghost use Rattle.nt_event.specs.Fate.{apc_begun};
ghost use Rattle.nt_event.specs.Objects.{dpc_begun};
ghost use Rattle.nt_event.specs.Replies.{is_refused};
ghost use Rattle.nt_expect.specs.declared.expectations.Activity.TheVariants as act;
ghost use Rattle.nt_expect.specs.declared.expectations.Watched.TheVariants.{Begin};
ghost use Rattle.nt_expect.specs.Meaning.{Begins, Came, Matches, takes_thread};
ghost use Rattle.nt_expect.specs.Replies.{name_of};
ghost use Rattle.nt_shows.specs.Tells.{Tells};

use nt_event::{
    ApcNo, Begun, Command, DpcNo, Event, Level, Reply, ThreadNo, TimerKey, TimerNo, What,
};
use nt_expect::{Activity, NamedReply, Watched};

/// A reply as an expectation names it.
fn name_of(reply: &Reply) -> NamedReply
    ensures { result ≡ name_of reply.now }
{
    match reply {
        Reply::Done => NamedReply::Done,
        Reply::Yes => NamedReply::Yes,
        Reply::No => NamedReply::No,
        Reply::Status(code) => NamedReply::Status(*code),
        Reply::Blocked => NamedReply::Blocked,
        Reply::Spin => NamedReply::Spin,
        Reply::Refused(_) => NamedReply::Refused,
    }
}

/// The DPC object whose routine begins.
fn dpc_begun(begun: &Begun) -> Option<DpcNo>
    ensures { result ≡ dpc_begun begun.now }
{
    match begun {
        Begun::Dpc(dpc) | Begun::Threaded(dpc) => Some(*dpc),
        Begun::Int(_) | Begun::Apc(_) => None,
    }
}

/// The APC object whose kernel routine begins.
fn apc_begun(begun: &Begun) -> Option<ApcNo>
    ensures { result ≡ apc_begun begun.now }
{
    match begun {
        Begun::Apc(apc) => Some(*apc),
        Begun::Int(_) | Begun::Dpc(_) | Begun::Threaded(_) => None,
    }
}

/// Whether the event begins the routine of an interrupt of this level.
fn begins_int(level: Level, what: &What) -> bool
    ensures { Tells result (in_begin (λ b from. b ≡ begun.Int level) ⊥ what.now) }
{
    matches!(what, What::Begin { begun, .. } if *begun == Begun::Int(level))
}

/// Whether the event begins the routine of the DPC object.
fn begins_dpc(dpc: DpcNo, what: &What) -> bool
    ensures { Tells result (in_begin (λ b from. dpc_begun b ≡ Some dpc) ⊥ what.now) }
{
    matches!(what, What::Begin { begun, .. } if dpc_begun(begun) == Some(dpc))
}

/// Whether the event begins the kernel routine of the APC object.
fn begins_apc(apc: ApcNo, what: &What) -> bool
    ensures { Tells result (in_begin (λ b from. apc_begun b ≡ Some apc) ⊥ what.now) }
{
    matches!(what, What::Begin { begun, .. } if apc_begun(begun) == Some(apc))
}

/// Whether the event takes up the thread.
fn takes(thread: ThreadNo, event: &Event) -> bool
    ensures { result ≡ takes_thread thread event.now }
{
    matches!(&event.what, What::Switch { thread: taken, .. } if taken.0 == thread.0)
}

/// Whether the event takes up the thread first, where it was taken up before or wasn't.
fn begins_thread(thread: ThreadNo, event: &Event, came: bool) -> bool
    ensures { (past : List Made) → Tells came (Came (Begin (act.Thread thread)) past) →
        Tells result (Begins (act.Thread thread) event.now past) }
{
    !came && takes(thread, event)
}

/// Whether the event begins the activity, where such an event came before or didn't.
fn begins(activity: &Activity, event: &Event, came: bool) -> bool
    ensures { (past : List Made) → Tells came (Came (Begin activity.now) past) →
        Tells result (Begins activity.now event.now past) }
{
    match activity {
        Activity::Int(level) => begins_int(*level, &event.what),
        Activity::Dpc(dpc) => begins_dpc(*dpc, &event.what),
        Activity::Apc(apc) => begins_apc(*apc, &event.what),
        Activity::Thread(thread) => begins_thread(*thread, event, came),
    }
}

/// Whether the event is a call that notes this number.
fn notes(number: u32, what: &What) -> bool
    ensures { Tells result (in_call (λ f c y. c ≡ cmd.Note number) ⊥ what.now) }
{
    matches!(what, What::Call { command, .. } if *command == Command::Note(number))
}

/// Whether the event is a call that is refused.
fn is_refused(what: &What) -> bool
    ensures { Tells result (in_call (λ f c y. is_refused y ≡ true) ⊥ what.now) }
{
    matches!(what, What::Call { reply, .. } if reply.is_refused())
}

/// Whether this is the command.
fn is_command(called: &Command, command: &Command) -> bool
    ensures { Tells result (called.now ≡ command.now) }
{
    called == command
}

/// Whether an expectation names the reply so.
fn is_named(given: &Reply, reply: NamedReply) -> bool
    ensures { Tells result (name_of given.now ≡ reply) }
{
    name_of(given) == reply
}

/// Whether the event is a call of the command with this reply.
fn calls(command: &Command, reply: NamedReply, what: &What) -> bool
    ensures { Tells result
        (in_call (λ f c y. (c ≡ command.now) × (name_of y ≡ reply)) ⊥ what.now) }
{
    matches!(
        what,
        What::Call { command: called, reply: given, .. }
            if is_command(called, command) && is_named(given, reply)
    )
}

/// Whether the event is an expiry of the timer.
fn expires(timer: TimerNo, what: &What) -> bool
    ensures { Tells result (in_expiry (λ key from. key ≡ keys.Timer timer) ⊥ what.now) }
{
    matches!(what, What::Expire { key, .. } if *key == TimerKey::Timer(timer))
}

/// Whether the thread is gone by the event.
fn is_gone(thread: ThreadNo, what: &What) -> bool
    ensures { Tells result (what.now ≡ what_of.Gone thread) }
{
    *what == What::Gone { thread }
}

/// Whether the event is one that is watched for, where such an event came before or didn't. That
/// is asked of a thread's begin alone, which is its first switch.
pub fn is_watched(watched: &Watched, event: &Event, came: bool) -> bool
    ensures { (past : List Made) → Tells came (Came watched.now past) →
        Tells result (Matches watched.now event.now past) }
{
    let what = &event.what;
    match watched {
        Watched::Note(number) => notes(*number, what),
        Watched::Refused => is_refused(what),
        Watched::Begin(activity) => begins(activity, event, came),
        Watched::Expire(timer) => expires(*timer, what),
        Watched::Gone(thread) => is_gone(*thread, what),
        Watched::Call(command, reply) => calls(command, *reply, what),
    }
}
