//! Which locks an act takes at first: those of the lanes that its job reads, and those that its
//! event will touch, as one of these lanes tells while it is locked alone. What is told may have
//! changed when the locks are taken, so it is a guess.
use crate::lanes::Lanes;
use crate::needs::{Needs, needs_of_job};
use nt_event::{Command, CpuNo, DpcNo, Job, Lane, Part, Plan};
use nt_frame::StandView;
use nt_lane_record::Object;
use nt_mark::Shared;
use std::sync::Wait;

/// How an event changes where an object stands.
#[derive(Clone, Copy)]
enum Move {
    /// The processor inserts it, unless it is queued.
    Insert(CpuNo),
    /// It is removed, if it is queued.
    Removal,
}

/// The queue that the object goes to or leaves.
fn queue_of(object: &Object, change: Move) -> Option<Lane> {
    let object = object.inner();
    match change {
        Move::Insert(by) => match object.standing() {
            Some(_) => None,
            None => Some(Lane::Queue(object.queue_for(by))),
        },
        Move::Removal => match object.standing() {
            Some(queue) => Some(Lane::Queue(queue)),
            None => None,
        },
    }
}

/// The queue that an object goes to or leaves, as it stands now. It may wait.
fn look_at_object<N: Plan + Shared, R: Wait>(
    rt: &R,
    lanes: &Lanes<'_, N>,
    d: DpcNo,
    change: Move,
) -> Option<Lane> {
    match lanes.objects.get(d.0 as usize) {
        Some(object) => queue_of(&object.lock(rt).state, change),
        None => None,
    }
}

/// The object that is the first of a part of a queue, as it stands now. It may wait.
fn look_at_queue<N: Plan + Shared, R: Wait>(
    rt: &R,
    lanes: &Lanes<'_, N>,
    p: CpuNo,
    part: Part,
) -> Option<Lane> {
    match lanes.queues.get(p.0 as usize) {
        Some(queue) => match queue.lock(rt).state.inner().first(part) {
            Some((dpc, _)) => Some(Lane::Object(dpc)),
            None => None,
        },
        None => None,
    }
}

/// The lane that a command touches beside those that are read for its reply. It may wait.
fn other_of_command<N: Plan + Shared, R: Wait>(
    rt: &R,
    lanes: &Lanes<'_, N>,
    cpu: CpuNo,
    command: &Command,
) -> Option<Lane> {
    match command {
        Command::Queue(d) => look_at_object(rt, lanes, *d, Move::Insert(cpu)),
        Command::Unqueue(d) => look_at_object(rt, lanes, *d, Move::Removal),
        Command::SetImportance(d, _) | Command::SetTarget(d, _) => Some(Lane::Object(*d)),
        Command::Clock(_) => Some(Lane::Timers),
        Command::ToUser | Command::Yield => Some(Lane::Threads(cpu)),
        Command::Unlock(k) => Some(Lane::Lock(*k)),
        Command::Raise(_)
        | Command::Lower(_)
        | Command::SetTimer(_, _, _)
        | Command::CancelTimer(_)
        | Command::InsertApc(_)
        | Command::RemoveApc(_)
        | Command::EnterCrit
        | Command::LeaveCrit
        | Command::EnterGuard
        | Command::LeaveGuard
        | Command::StartWait(_, _)
        | Command::Delay(_, _, _)
        | Command::Release(_)
        | Command::Alert(_, _)
        | Command::TestAlert(_)
        | Command::Interrupt(_, _)
        | Command::Acquire(_)
        | Command::Note(_) => None,
    }
}

/// The lane that the event of a job touches beside those that the job reads. It may wait.
fn other_of_job<N: Plan + Shared, R: Wait>(
    rt: &R,
    lanes: &Lanes<'_, N>,
    job: &Job,
    stand: &StandView,
) -> Option<Lane> {
    match job {
        Job::Call(command) => other_of_command(rt, lanes, stand.cpu(), command),
        Job::Fire(d) => look_at_object(rt, lanes, *d, Move::Insert(stand.cpu())),
        Job::Drain | Job::Idle | Job::Pick(_) => {
            look_at_queue(rt, lanes, stand.cpu(), Part::Ordinary)
        }
        Job::Threaded => look_at_queue(rt, lanes, stand.cpu(), Part::Threaded),
        Job::Switch(_) => Some(Lane::Queue(stand.cpu())),
        Job::Free(k) => Some(Lane::Lock(*k)),
        Job::UserEnd | Job::Leave => Some(Lane::Threads(stand.cpu())),
        Job::Apcs | Job::Rewait | Job::ToUser | Job::Rundown => None,
    }
}

/// The locks that an act of a processor that stands so takes at first. It may wait.
pub(crate) fn foresee<N: Plan + Shared, R: Wait>(
    rt: &R,
    lanes: &Lanes<'_, N>,
    job: &Job,
    stand: &StandView,
) -> Needs {
    let read = needs_of_job(lanes.script, job, stand);
    match other_of_job(rt, lanes, job, stand) {
        Some(lane) => read.with(lane),
        None => read,
    }
}
