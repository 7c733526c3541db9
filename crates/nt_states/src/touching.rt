//! The lanes that an event touches.
ghost use Rattle.std.specs.Prelude.{◌≡◌, ◌∷◌, All, IsTrue, [], if◌then◌else◌};
ghost use Rattle.nt_event.specs.Lanes as lanes;
ghost use Rattle.nt_event.specs.Routines as routines;
ghost use Rattle.nt_event.specs.Script.{command_fits, has_apc, has_cpu, has_dpc};
ghost use Rattle.nt_event.specs.Replies.{is_refused as refuses};
ghost use Rattle.nt_event.specs.declared.events.What.TheVariants.{Call};
ghost use Rattle.nt_event.specs.declared.jobs.Lane.{Lane};
ghost use Rattle.nt_event.specs.declared.jobs.Lane.TheVariants.{Object as ObjectLane};
ghost use Rattle.nt_event.specs.Acts.{StandFits};
ghost use Rattle.nt_states.specs.Given.{IsGiven};
ghost use Rattle.nt_states.specs.LaneLists.{LaneFits};
ghost use Rattle.nt_states.specs.Reads.{AreHeld, found_lanes};

use crate::answers::LaneAnswers;
use nt_event::{
    ApcKind, ApcNo, Begun, Body, Command, CpuNo, DpcNo, Lane, Reply, ThreadNo, TimerKey, What,
    class,
};
use nt_frame::StandView;
use std::marker::Model;

/// The lanes that an event touches: at most three.
#[derive(Drop, Debug)]
pub struct Touched {
    lanes: [Lane; 3],
    count: usize,
}

impl Model for Touched {
    ghost use Rattle.std.specs.Prelude.{◌≤◌, List, take};
    ghost use Rattle.nt_event.specs.declared.jobs.Lane.{Lane};

    ghost Value = { List Lane };

    ghost view = { λ a. take a.count a.lanes };

    ghost invariant = { λ a. a.count ≤ 3 };
}

impl Touched {
    fn none() -> Touched
        ensures { result ≡ [] }
    {
        Touched {
            lanes: [Lane::Timers, Lane::Timers, Lane::Timers],
            count: 0,
        }
    }

    fn one(a: Lane) -> Touched
        ensures { result ≡ a ∷ [] }
    {
        Touched {
            lanes: [a, Lane::Timers, Lane::Timers],
            count: 1,
        }
    }

    fn two(a: Lane, b: Lane) -> Touched
        ensures { result ≡ a ∷ b ∷ [] }
    {
        Touched {
            lanes: [a, b, Lane::Timers],
            count: 2,
        }
    }

    /// The first, and the second where the test holds.
    fn two_if(test: bool, a: Lane, b: Lane) -> Touched
        ensures { result ≡ a ∷ lanes.lane_if test b }
    {
        if test {
            Touched::two(a, b)
        } else {
            Touched::one(a)
        }
    }

    /// The first two, and the third where the test holds.
    fn three_if(test: bool, a: Lane, b: Lane, c: Lane) -> Touched
        ensures { result ≡ a ∷ b ∷ lanes.lane_if test c }
    {
        if test {
            Touched {
                lanes: [a, b, c],
                count: 3,
            }
        } else {
            Touched::two(a, b)
        }
    }

    /// The lanes in order.
    pub fn as_slice(&self) -> &[Lane]
        ensures { result.now ≡ self.now }
    {
        &self.lanes[..self.count]
    }
}

/// The lanes of the begin of a routine.
fn begin_lanes(stand: &StandView, begun: &Begun) -> Touched
    ensures { result ≡ lanes.begin_lanes stand.now begun.now }
{
    match begun {
        Begun::Int(_) => Touched::none(),
        Begun::Dpc(d) => Touched::three_if(
            stand.sweep(),
            Lane::Object(*d),
            Lane::Queue(stand.cpu()),
            Lane::Timers,
        ),
        Begun::Threaded(d) => Touched::two(Lane::Object(*d), Lane::Queue(stand.cpu())),
        Begun::Apc(_) => Touched::one(Lane::Threads(stand.cpu())),
    }
}

/// The lanes of the end of serving a class.
fn clean_lanes(stand: &StandView, served: u8) -> Touched
    ensures { result ≡ lanes.clean_lanes stand.now served }
{
    if served == class::APC {
        Touched::one(Lane::Threads(stand.cpu()))
    } else {
        Touched::two_if(
            stand.sweep() && served == class::DISPATCH,
            Lane::Queue(stand.cpu()),
            Lane::Timers,
        )
    }
}

/// The lanes of the end of a frame.
fn end_lanes(cpu: CpuNo, body: &Option<Body>) -> Touched
    ensures { result ≡ lanes.end_lanes cpu body.now }
{
    match body {
        Some(Body::Base(_)) | Some(Body::Apc(_, ApcKind::User)) => Touched::one(Lane::Threads(cpu)),
        Some(Body::Int(_))
        | Some(Body::Dpc(_))
        | Some(Body::Threaded(_))
        | Some(Body::Apc(_, ApcKind::Special | ApcKind::Normal))
        | Some(Body::Rundown(_))
        | None => Touched::none(),
    }
}

/// The lanes that an event touches, of a processor that stands so.
pub fn event_lanes<S: LaneAnswers>(states: &S, stand: &StandView, what: &What) -> Touched
    requires given { IsGiven (S.script_of states.now) (S.lanes states.now) stand.now what.now }
    requires held { AreHeld (S.holds states.now) (found_lanes what.now) }
    ensures lanes { result
        ≡ lanes.what_lanes (S.script_of states.now) stand.now what.now (S.lanes states.now) }
    ensures named { All (LaneFits (S.script_of states.now)) result }
{
    match what {
        What::Call { command, reply, .. } => call_lanes(states, stand, command, reply),
        What::Begin { begun, .. } => begin_lanes(stand, begun),
        What::Clean { class } => clean_lanes(stand, *class),
        What::Expire { key, .. } => expire_lanes(states, key),
        What::Fire { dpc, reply } => insert_lanes(states, stand.cpu(), *dpc, reply),
        What::Switch { .. } | What::Rest => {
            Touched::two(Lane::Queue(stand.cpu()), Lane::Threads(stand.cpu()))
        }
        What::Rewait { .. } => {
            Touched::two_if(stand.has_due(), Lane::Threads(stand.cpu()), Lane::Timers)
        }
        What::End { .. } => end_lanes(stand.cpu(), &stand.body()),
        What::Flush { .. } | What::Gone { .. } => Touched::one(Lane::Threads(stand.cpu())),
        What::Free { lock, .. } => Touched::one(Lane::Lock(*lock)),
        What::Look { .. } | What::Normal { .. } => Touched::none(),
    }
}

/// The lanes of a call.
fn call_lanes<S: LaneAnswers>(
    states: &S,
    stand: &StandView,
    command: &Command,
    reply: &Reply,
) -> Touched
    requires command { IsTrue (command_fits (S.script_of states.now) command.now) }
    requires stand { StandFits (S.script_of states.now) stand.now }
    requires held { AreHeld (S.holds states.now) (found_lanes (Call 0 command.now reply.now)) }
    ensures lanes { result ≡ (if refuses reply.now then []
        else lanes.command_lanes (S.script_of states.now) stand.now.cpu command.now reply.now
        (S.lanes states.now)) }
    ensures named { All (LaneFits (S.script_of states.now)) result }
{
    if reply.is_refused() {
        Touched::none()
    } else {
        command_lanes(states, stand.cpu(), command, reply)
    }
}

/// The lanes of a command that is not refused.
fn command_lanes<S: LaneAnswers>(states: &S, p: CpuNo, command: &Command, reply: &Reply) -> Touched
    requires command { IsTrue (command_fits (S.script_of states.now) command.now) }
    requires cpu { IsTrue (has_cpu (S.script_of states.now) p) }
    requires held { AreHeld (S.holds states.now) (found_lanes (Call 0 command.now reply.now)) }
    ensures lanes { result ≡ lanes.command_lanes (S.script_of states.now) p command.now reply.now
        (S.lanes states.now) }
    ensures named { All (LaneFits (S.script_of states.now)) result }
{
    match command {
        Command::Queue(d) => insert_lanes(states, p, *d, reply),
        Command::Unqueue(d) => removal_lanes(states, *d),
        Command::SetImportance(d, _) | Command::SetTarget(d, _) => {
            Touched::one(Lane::Object(*d))
        }
        Command::SetTimer(_, _, _) | Command::CancelTimer(_) | Command::Clock(_) => {
            Touched::one(Lane::Timers)
        }
        Command::InsertApc(a) | Command::RemoveApc(a) => apc_lanes(states, *a),
        Command::StartWait(_, _) | Command::TestAlert(_) | Command::ToUser | Command::Yield =>
            Touched::one(Lane::Threads(p)),
        Command::Delay(_, _, _) => Touched::two(Lane::Threads(p), Lane::Timers),
        Command::Release(t) | Command::Alert(t, _) => thread_lanes(states, *t),
        Command::Acquire(k) | Command::Unlock(k) => Touched::one(Lane::Lock(*k)),
        Command::Raise(_)
        | Command::Lower(_)
        | Command::EnterCrit
        | Command::LeaveCrit
        | Command::EnterGuard
        | Command::LeaveGuard
        | Command::Interrupt(_, _)
        | Command::Note(_) => Touched::none(),
    }
}

/// The lanes of an insert by a processor: the object, and on yes the queue that it goes to.
fn insert_lanes<S: LaneAnswers>(states: &S, p: CpuNo, d: DpcNo, reply: &Reply) -> Touched
    requires object { IsTrue (has_dpc (S.script_of states.now) d) }
    requires cpu { IsTrue (has_cpu (S.script_of states.now) p) }
    requires held { S.holds states.now (ObjectLane d) }
    ensures lanes { result ≡ lanes.insert_lanes p d reply.now (S.lanes states.now) }
    ensures named { All (LaneFits (S.script_of states.now)) result }
{
    let queue = states.queue_for(d, p);
    Touched::two_if(reply.is_yes(), Lane::Object(d), Lane::Queue(queue))
}

/// The lanes of a removal: the object, and the queue where it stood.
fn removal_lanes<S: LaneAnswers>(states: &S, d: DpcNo) -> Touched
    requires object { IsTrue (has_dpc (S.script_of states.now) d) }
    requires held { S.holds states.now (ObjectLane d) }
    ensures lanes { result
        ≡ Lane.Object d ∷ lanes.standing_lanes (lanes.object_at (S.lanes states.now) d).standing }
    ensures named { All (LaneFits (S.script_of states.now)) result }
{
    match states.standing(d) {
        Some(queue) => Touched::two(Lane::Object(d), Lane::Queue(queue)),
        None => Touched::one(Lane::Object(d)),
    }
}

/// The lane of the threads among which this one is.
fn thread_lanes<S: LaneAnswers>(states: &S, t: ThreadNo) -> Touched
    ensures lanes { result ≡ Lane.Threads (routines.cpu_of (S.script_of states.now) t) ∷ [] }
    ensures named { All (LaneFits (S.script_of states.now)) result }
{
    Touched::one(Lane::Threads(states.script().cpu_of(t)))
}

/// The lane of the threads among which an APC object's is.
fn apc_lanes<S: LaneAnswers>(states: &S, a: ApcNo) -> Touched
    requires { IsTrue (has_apc (S.script_of states.now) a) }
    ensures lanes { result ≡ Lane.Threads
        (routines.cpu_of (S.script_of states.now) (routines.owner_of (S.script_of states.now) a)) ∷
        [] }
    ensures named { All (LaneFits (S.script_of states.now)) result }
{
    thread_lanes(states, states.script().owner_of(a))
}

/// The lanes of an expiry.
fn expire_lanes<S: LaneAnswers>(states: &S, key: &TimerKey) -> Touched
    ensures lanes { result ≡ lanes.expire_lanes (S.script_of states.now) key.now }
    ensures named { All (LaneFits (S.script_of states.now)) result }
{
    match key {
        TimerKey::Timer(_) => Touched::one(Lane::Timers),
        TimerKey::Delay(t) => {
            Touched::two(Lane::Threads(states.script().cpu_of(*t)), Lane::Timers)
        }
    }
}
