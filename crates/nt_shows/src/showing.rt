//! Whether an event shows that an expectation fails.
ghost use Rattle.std.specs.List.{list_any};
ghost use Rattle.std.specs.Prelude.{◌≡◌, ◌∷◌, List, false, get_or, reverse};
ghost use Rattle.nt_event.specs.declared.events.Event.{Event as Made};
ghost use Rattle.nt_event.specs.declared.scripts.Script.{Script};
ghost use Rattle.nt_event.specs.Frames.{thread_part};
ghost use Rattle.nt_expect.specs.Meaning.{ShowsAt};
ghost use Rattle.nt_verdict.specs.Closed.{watched_by};
ghost use Rattle.nt_shows.specs.Standing.{StandAfter, body_in, is_open, stand_apart};
ghost use Rattle.nt_shows.specs.Standing.{stand_together, stands_at, stands_in};
ghost use Rattle.nt_shows.specs.Tells.{AreCame, Tells};

use crate::watching::is_watched;
use nt_cpu::Cpu;
use nt_event::{Body, Event};
use nt_expect::{Activity, Expectation};
use nt_frame::{Frame, Frames};

/// The flag at this place.
pub(crate) fn has_come(came: &[bool], place: usize) -> bool
    ensures { result ≡ get_or came.now place false }
{
    matches!(came.get(place), Some(true))
}

/// Whether the routine is one of the activity.
fn is_routine_of(activity: &Activity, body: &Body) -> bool
    ensures { result ≡ body_in activity.now body.now }
{
    match activity {
        Activity::Int(level) => matches!(body, Body::Int(of) if of == level),
        Activity::Dpc(dpc) => {
            matches!(body, Body::Dpc(of) | Body::Threaded(of) if of.0 == dpc.0)
        }
        Activity::Apc(apc) => matches!(body, Body::Apc(of, _) if of.0 == apc.0),
        Activity::Thread(_) => false,
    }
}

/// Whether one of these frames, the outermost first, is of the activity.
fn is_open(activity: &Activity, frames: &[Frame]) -> bool
    ensures { result ≡ is_open activity.now (reverse frames.now) }
{
    frames
        .iter()
        .rev()
        .any(|frame| is_routine_of(activity, frame.body()))
}

/// Whether a frame of the thread that runs is of the activity. A thread that the processor doesn't
/// know has none.
fn is_open_on_thread(activity: &Activity, frames: &Frames) -> bool
    ensures { result ≡ is_open activity.now (thread_part frames.now) }
{
    match frames.running() {
        Some(thread) if usize::from(thread.0) < frames.thread_count() => {
            is_open(activity, frames.of_thread(thread))
        }
        Some(_) | None => false,
    }
}

/// Whether the activity stands on the processor of these frames.
fn stands_on(activity: &Activity, frames: &Frames) -> bool
    ensures { result ≡ stands_in activity.now frames.now }
{
    match activity {
        Activity::Thread(thread) => {
            matches!(frames.running(), Some(running) if running.0 == thread.0)
        }
        Activity::Int(_) | Activity::Dpc(_) | Activity::Apc(_) => {
            is_open(activity, frames.own()) || is_open_on_thread(activity, frames)
        }
    }
}

/// Whether the activity stands on one of the processors.
fn stands_among(activity: &Activity, cpus: &[Cpu]) -> bool
    ensures { result ≡ list_any (stands_at activity.now) cpus.now }
{
    cpus.iter().any(|cpu| stands_on(activity, cpu.frames()))
}

/// Whether one stands on the processor, and the other on one of the later ones.
fn stand_apart(one: &Activity, other: &Activity, cpu: &Cpu, later: &[Cpu]) -> bool
    ensures { result ≡ stand_apart one.now other.now cpu.now later.now }
{
    stands_on(one, cpu.frames()) && stands_among(other, later)
}

/// Whether both stand there at one time, on two of the processors.
fn stand_together(one: &Activity, other: &Activity, cpus: &[Cpu]) -> bool
    ensures { result ≡ stand_together one.now other.now cpus.now }
{
    for (place, cpu) in cpus.iter().enumerate() {
        let later = &cpus[place + 1..];
        if stand_apart(one, other, cpu, later) || stand_apart(other, one, cpu, later) {
            return true;
        }
    }
    false
}

/// Whether the event shows that the expectation fails.
///
/// The flags tell, of the events that the expectation watches for, whether such an event came
/// before. The processors are the script's, and stand behind the event.
pub fn shows_at(expectation: &Expectation, event: &Event, came: &[bool], cpus: &[Cpu]) -> bool
    ensures { (s : Script) (past : List Made) →
        AreCame (watched_by expectation.now) past came.now →
        StandAfter s (event.now ∷ past) cpus.now →
        Tells result (ShowsAt s expectation.now event.now past) }
{
    let first = has_come(came, 0);
    let second = has_come(came, 1);
    match expectation {
        Expectation::Never(x) => is_watched(x, event, first),
        Expectation::NeverAfter(x, _) => second && is_watched(x, event, first),
        Expectation::NeverBefore(x, _) => !second && is_watched(x, event, first),
        Expectation::NeverTwice(x) => first && is_watched(x, event, first),
        Expectation::NeverAbove(x, level) => *level < event.level && is_watched(x, event, first),
        Expectation::NeverOn(x, cpu) => event.cpu == *cpu && is_watched(x, event, first),
        Expectation::NeverWith(one, other) => stand_together(one, other, cpus),
        Expectation::NeverWaitsDpc(_)
        | Expectation::NeverWaitsApc(_)
        | Expectation::NeverBlocked(_)
        | Expectation::NeverSpins(_)
        | Expectation::Always(_)
        | Expectation::AlwaysEnds => false,
    }
}
